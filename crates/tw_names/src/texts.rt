//! What is read off a text as it stands.
ghost use Rattle.std.specs.Prelude.{◌≡◌, ◌++◌, [], IfOk, None, option_map};
ghost use Rattle.tw_names.specs.Earliest.{earliest};
ghost use Rattle.tw_names.specs.Texts.{ends_in_type, hints};
ghost use Rattle.tw_names.specs.Unknown.{unknown_in_type, unknown_names};
ghost use Rattle.tw_parse.specs.View.{term_of};

use crate::scope::binder_name;
use crate::unknown::{Mention, first_unknown};
use std::alloc::{AllocError, Global};
use tw_fixity::{Name, Scope};
use tw_parse::ExtTerm;
use tw_signature::Signature;

/// The first lowercase name in the type, if there is one, and the term that is neither bound nor declared.
#[tactic(auto, using(crate::proofs::Unknowns::unknowns))]
pub fn first_mention(
    alloc: Global,
    signature: &Signature,
    ty: &Option<ExtTerm>,
    term: &ExtTerm,
) -> Result<Option<Mention>, AllocError>
    ensures { IfOk result (λ m. m ≡ earliest None (unknown_in_type signature.now (option_map term_of ty.now) ++ unknown_names signature.now [] (term_of term.now))) }
{
    let mut scope = Scope::new(alloc);
    match ty {
        Some(ty) => {
            let found = first_unknown(alloc, signature, &mut scope, ty, None)?;
            Ok(first_unknown(alloc, signature, &mut scope, term, found)?)
        }
        None => Ok(first_unknown(alloc, signature, &mut scope, term, None)?),
    }
}

/// Whether the written type is a kind.
pub fn ends_in_type(term: &ExtTerm) -> bool
    ensures { result ≡ ends_in_type (term_of term.now) }
{
    let mut rest = term;
    loop {
        match rest {
            ExtTerm::Arrow(_, range) => rest = range,
            ExtTerm::Pi(_, _, _, range) => rest = range,
            ExtTerm::Star => return true,
            ExtTerm::Ident(_, _)
            | ExtTerm::Hole(_)
            | ExtTerm::Lam(_, _, _, _)
            | ExtTerm::App(_, _)
            | ExtTerm::Ascribe(_, _) => return false,
        }
    }
}

/// For each leading quantifier the name of its binder.
pub fn hints(alloc: Global, term: &ExtTerm) -> Result<Vec<Option<Name>>, AllocError>
    ensures { IfOk result (λ h. h.items ≡ hints (term_of term.now)) }
{
    let mut hints = Vec::new(alloc);
    let mut rest = term;
    loop {
        match rest {
            ExtTerm::Arrow(_, range) => {
                hints.push(None)?;
                rest = range;
            }
            ExtTerm::Pi(name, _, _, range) => {
                hints.push(binder_name(alloc, name)?)?;
                rest = range;
            }
            ExtTerm::Ident(_, _)
            | ExtTerm::Hole(_)
            | ExtTerm::Star
            | ExtTerm::Lam(_, _, _, _)
            | ExtTerm::App(_, _)
            | ExtTerm::Ascribe(_, _) => return Ok(hints),
        }
    }
}
