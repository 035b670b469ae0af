//! Terms with the renaming of a pattern taken back.
ghost use Rattle.std.specs.Prelude.{◌≡◌, IfOk, option_map};
ghost use Rattle.tw_terms.specs.OpenView.{open_term_of, open_spine_of, open_type_of};
ghost use Rattle.tw_prune.specs.View.{table_of};
ghost use Rattle.tw_prune.specs.Walks.{unrenamed, unrenamed_spine, unrenamed_type};

use crate::inverse::Inverse;
use std::alloc::{AllocError, Global};
use tw_terms::{Open, OpenSpine, OpenTy};

/// The term under the lambdas, or None where it has a variable that the pattern lacks. The walk has passed so many binders. Fails where
/// no context in memory is so long, too.
#[cycle(unrename)]
pub fn unrename(
    alloc: Global,
    inverse: &Inverse,
    binders: u64,
    term: &Open,
) -> Result<Option<Open>, AllocError>
    ensures { IfOk result (λ r. option_map open_term_of r ≡ unrenamed (table_of inverse.now) binders (open_term_of term.now)) }
{
    match term {
        Open::Lam(body) => {
            let inside = binders.checked_add(1).ok_or(AllocError)?;
            match unrename(alloc, inverse, inside, body)? {
                Some(body) => Ok(Some(Open::Lam(Box::new(alloc, body)?))),
                None => Ok(None),
            }
        }
        Open::Root(head, spine) => {
            let Some(head) = inverse.head(binders, *head)? else {
                return Ok(None);
            };
            match unrename_spine(alloc, inverse, binders, spine)? {
                Some(spine) => Ok(Some(Open::Root(head, spine))),
                None => Ok(None),
            }
        }
    }
}

/// The same of each argument.
#[cycle(unrename)]
fn unrename_spine(
    alloc: Global,
    inverse: &Inverse,
    binders: u64,
    spine: &OpenSpine,
) -> Result<Option<OpenSpine>, AllocError>
    ensures { IfOk result (λ r. option_map open_spine_of r ≡ unrenamed_spine (table_of inverse.now) binders (open_spine_of spine.now)) }
{
    let mut args = Vec::with_capacity(alloc, spine.args.len())?;
    for arg in &spine.args {
        match unrename(alloc, inverse, binders, arg)? {
            Some(arg) => args.push(arg)?,
            None => return Ok(None),
        }
    }
    Ok(Some(OpenSpine { args }))
}

/// The same of a type, with the same failures.
pub fn unrename_type(
    alloc: Global,
    inverse: &Inverse,
    binders: u64,
    ty: &OpenTy,
) -> Result<Option<OpenTy>, AllocError>
    ensures { IfOk result (λ r. option_map open_type_of r ≡ unrenamed_type (table_of inverse.now) binders (open_type_of ty.now)) }
{
    match ty {
        OpenTy::Pi(domain, range) => {
            let Some(domain) = unrename_type(alloc, inverse, binders, domain)? else {
                return Ok(None);
            };
            let inside = binders.checked_add(1).ok_or(AllocError)?;
            let Some(range) = unrename_type(alloc, inverse, inside, range)? else {
                return Ok(None);
            };
            let domain = Box::new(alloc, domain)?;
            Ok(Some(OpenTy::Pi(domain, Box::new(alloc, range)?)))
        }
        OpenTy::Atom(family, spine) => match unrename_spine(alloc, inverse, binders, spine)? {
            Some(spine) => Ok(Some(OpenTy::Atom(*family, spine))),
            None => Ok(None),
        },
    }
}
