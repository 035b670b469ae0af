//! Open terms and types with the variables of a context for their metavariables.
ghost use Rattle.std.specs.Prelude.{◌≡◌, IfOk, option_map};
ghost use Rattle.tw_terms.specs.OpenView.{open_head_of, open_term_of, open_spine_of, open_type_of};
ghost use Rattle.tw_terms.specs.View.{head_of, term_of, spine_of, type_of};
ghost use Rattle.tw_abstract.specs.Generalizing.{generalized, generalized_head, generalized_spine, generalized_type};
ghost use Rattle.tw_abstract.specs.Positions.{index};

use crate::positions::Positions;
use std::alloc::{AllocError, Global};
use tw_terms::numbers::one_more;
use tw_terms::{Head, Open, OpenHead, OpenSpine, OpenTy, Spine, Term, Ty};

/// The term under so many binders, with the variables for its metavariables; None where one has none. Fails only for want of memory.
#[cycle(generalizing)]
pub fn generalized_term(
    alloc: Global,
    positions: &Positions,
    binders: u64,
    term: &Open,
) -> Result<Option<Term>, AllocError>
    ensures { IfOk result (λ r. option_map term_of r ≡ generalized (index positions.now) binders (open_term_of term.now)) }
{
    match term {
        Open::Lam(body) => {
            let inside = one_more(binders)?;
            match generalized_term(alloc, positions, inside, body)? {
                Some(body) => Ok(Some(Term::Lam(Box::new(alloc, body)?))),
                None => Ok(None),
            }
        }
        Open::Root(head, spine) => {
            let Some(head) = generalized_head(positions, binders, *head)? else {
                return Ok(None);
            };
            match generalized_spine(alloc, positions, binders, spine)? {
                Some(spine) => Ok(Some(Term::Root(head, spine))),
                None => Ok(None),
            }
        }
    }
}

/// The same of each argument.
#[cycle(generalizing)]
pub fn generalized_spine(
    alloc: Global,
    positions: &Positions,
    binders: u64,
    spine: &OpenSpine,
) -> Result<Option<Spine>, AllocError>
    ensures { IfOk result (λ r. option_map spine_of r ≡ generalized_spine (index positions.now) binders (open_spine_of spine.now)) }
{
    let mut args = Vec::with_capacity(alloc, spine.args.len())?;
    for arg in &spine.args {
        match generalized_term(alloc, positions, binders, arg)? {
            Some(arg) => args.push(arg)?,
            None => return Ok(None),
        }
    }
    Ok(Some(Spine { args }))
}

/// The same of a type.
pub fn generalized_type(
    alloc: Global,
    positions: &Positions,
    binders: u64,
    ty: &OpenTy,
) -> Result<Option<Ty>, AllocError>
    ensures { IfOk result (λ r. option_map type_of r ≡ generalized_type (index positions.now) binders (open_type_of ty.now)) }
{
    match ty {
        OpenTy::Pi(domain, range) => {
            let inside = one_more(binders)?;
            let Some(domain) = generalized_type(alloc, positions, binders, domain)? else {
                return Ok(None);
            };
            let Some(range) = generalized_type(alloc, positions, inside, range)? else {
                return Ok(None);
            };
            let domain = Box::new(alloc, domain)?;
            Ok(Some(Ty::Pi(domain, Box::new(alloc, range)?)))
        }
        OpenTy::Atom(family, spine) => {
            match generalized_spine(alloc, positions, binders, spine)? {
                Some(spine) => Ok(Some(Ty::Atom(*family, spine))),
                None => Ok(None),
            }
        }
    }
}

/// The same of a head. Fails where no context in memory is so long.
fn generalized_head(
    positions: &Positions,
    binders: u64,
    head: OpenHead,
) -> Result<Option<Head>, AllocError>
    ensures { IfOk result (λ r. option_map head_of r ≡ generalized_head (index positions.now) binders (open_head_of head)) }
{
    match head {
        OpenHead::Const(constant) => Ok(Some(Head::Const(constant))),
        OpenHead::Var(variable) => Ok(Some(Head::Var(variable))),
        OpenHead::Meta(meta) => match positions.variable(meta) {
            Some(variable) => {
                Ok(Some(Head::Var(binders.checked_add(variable).ok_or(AllocError)?)))
            }
            None => Ok(None),
        },
    }
}
