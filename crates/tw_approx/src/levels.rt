//! What stands at the level of types.
ghost use Rattle.std.specs.Prelude.{◌≡◌, IfOk, option_map};
ghost use Rattle.tw_parse.specs.View.{term_of};
ghost use Rattle.tw_approx.specs.Levels.{is_family, is_written_type, is_written_kind};
ghost use Rattle.tw_names.specs.Scope.{named};

use std::alloc::{AllocError, Global};
use tw_fixity::{Name, Scope};
use tw_names::{binder_name, ends_in_type, named};
use tw_parse::ExtTerm;
use tw_signature::{Body, Signature};
use tw_terms::Head;

/// Whether a type, a family or a kind is written. The scope is lost.
pub fn is_written_type(
    alloc: Global,
    signature: &Signature,
    scope: &mut Scope,
    term: &ExtTerm,
) -> Result<bool, AllocError>
    ensures { IfOk result (λ b. b ≡ is_written_type signature.now scope.old (term_of term.now)) }
{
    let mut rest = term;
    loop {
        match rest {
            ExtTerm::Ident(name, _) => return Ok(is_family(signature, scope, name)),
            ExtTerm::Hole(_) => return Ok(false),
            ExtTerm::Star | ExtTerm::Arrow(_, _) | ExtTerm::Pi(_, _, _, _) => return Ok(true),
            ExtTerm::Lam(name, _, _, body) => {
                scope.push(binder_name(alloc, name)?)?;
                rest = body;
            }
            ExtTerm::App(function, _) => rest = function,
            ExtTerm::Ascribe(inner, ty) => {
                if ends_in_type(ty) {
                    return Ok(true);
                }
                rest = inner;
            }
        }
    }
}

/// Whether the name is that of a family.
fn is_family(signature: &Signature, scope: &Scope, name: &Name) -> bool
    ensures { result ≡ is_family signature.now (named signature.now scope.now name.now) }
{
    let Some(Head::Const(id)) = named(signature, scope, name) else {
        return false;
    };
    match signature.entry(id) {
        Some(entry) => match &entry.body {
            Body::Family(_) => true,
            Body::Constant(_) | Body::Defined { .. } => false,
        },
        None => false,
    }
}

/// Whether a kind is written.
pub fn is_written_kind(ty: &Option<ExtTerm>) -> bool
    ensures { result ≡ is_written_kind (option_map term_of ty.now) }
{
    match ty {
        Some(ty) => ends_in_type(ty),
        None => false,
    }
}
