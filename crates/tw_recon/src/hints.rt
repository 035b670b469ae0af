//! The names by which the leading quantifiers of an entry are shown.
ghost use Rattle.std.specs.Prelude.{◌≡◌, ◌+◌, ◌++◌, ◌∷◌, ℕ, IfOk, reverse};
ghost use Rattle.lf.specs.Entries.{body_quantifiers, kind_quantifiers, quantifiers};
ghost use Rattle.tw_parse.specs.View.{declaration_of, term_of};
ghost use Rattle.tw_signature.specs.View.{body_of};
ghost use Rattle.tw_terms.specs.View.{kind_of, type_of};
ghost use Rattle.tw_recon.specs.Hints.{fitted, lambda_hints, written_hints};

use std::alloc::{AllocError, Global};
use tw_fixity::Name;
use tw_names::{binder_name, hints};
use tw_parse::{ExtDecl, ExtTerm};
use tw_signature::Body;
use tw_terms::{Kind, Ty};

/// Adds for each leading quantifier of the body the name that the text gives it.
pub fn add_written(
    alloc: Global,
    decl: &ExtDecl,
    body: &Body,
    hints: Vec<Option<Name>>,
) -> Result<Vec<Option<Name>>, AllocError>
    ensures { IfOk result (λ h. h.items ≡ hints.items ++ fitted (body_quantifiers (body_of body.now)) (written_hints (declaration_of decl.now))) }
{
    let mut written = written_hints(alloc, decl)?;
    written.reverse();
    match body {
        Body::Family(kind) => add_for_kind(kind, written, hints),
        Body::Constant(ty) => add_for_type(ty, written, hints),
        Body::Defined { ty, .. } => add_for_type(ty, written, hints),
    }
}

/// Adds a hint for each leading quantifier of the type: these names, of which the next one is the last, and none behind them.
fn add_for_type(
    ty: &Ty,
    written: Vec<Option<Name>>,
    hints: Vec<Option<Name>>,
) -> Result<Vec<Option<Name>>, AllocError>
    ensures { IfOk result (λ h. h.items ≡ hints.items ++ fitted (quantifiers (type_of ty.now)) (reverse written.items)) }
{
    let mut written = written;
    let mut hints = hints;
    let mut rest = ty;
    while let Ty::Pi(_, range) = rest {
        let hint = next_hint(&mut written);
        hints.push(hint)?;
        rest = range;
    }
    Ok(hints)
}

/// The same of a kind.
fn add_for_kind(
    kind: &Kind,
    written: Vec<Option<Name>>,
    hints: Vec<Option<Name>>,
) -> Result<Vec<Option<Name>>, AllocError>
    ensures { IfOk result (λ h. h.items ≡ hints.items ++ fitted (kind_quantifiers (kind_of kind.now)) (reverse written.items)) }
{
    let mut written = written;
    let mut hints = hints;
    let mut rest = kind;
    while let Kind::Pi(_, range) = rest {
        let hint = next_hint(&mut written);
        hints.push(hint)?;
        rest = range;
    }
    Ok(hints)
}

/// Takes the next name, where one is left.
fn next_hint(written: &mut Vec<Option<Name>>) -> Option<Name>
    ensures { (n : ℕ) → fitted (n + 1) (reverse written.old.items) ≡ result ∷ fitted n (reverse written.new.items) }
{
    match written.pop() {
        Some(hint) => hint,
        None => None,
    }
}

/// What the text gives: the binders of the type that is written, and of the term where none is.
fn written_hints(alloc: Global, decl: &ExtDecl) -> Result<Vec<Option<Name>>, AllocError>
    ensures { IfOk result (λ h. h.items ≡ written_hints (declaration_of decl.now)) }
{
    match decl {
        ExtDecl::Declare(_, _, ty) => hints(alloc, ty),
        ExtDecl::Define(_, Some(ty), _, _) => hints(alloc, ty),
        ExtDecl::Define(_, None, term, _) => lambda_hints(alloc, term),
        ExtDecl::NamePref(_, _, _) | ExtDecl::Fixity(_, _) => Ok(Vec::new(alloc)),
    }
}

/// The names of the binders of a written term.
fn lambda_hints(alloc: Global, term: &ExtTerm) -> Result<Vec<Option<Name>>, AllocError>
    ensures { IfOk result (λ h. h.items ≡ lambda_hints (term_of term.now)) }
{
    let mut hints = Vec::new(alloc);
    let mut rest = term;
    while let ExtTerm::Lam(name, _, _, body) = rest {
        hints.push(binder_name(alloc, name)?)?;
        rest = body;
    }
    Ok(hints)
}
