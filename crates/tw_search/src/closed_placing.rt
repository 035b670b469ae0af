//! The same of closed types, as a constant has them.
ghost use Rattle.std.specs.Prelude.{◌≡◌, IfOk};
ghost use Rattle.lf.specs.Syntax.{nil, variable as variable_head};
ghost use Rattle.lf_search.specs.AppliedHeads.{spine_with_applied, type_with_applied, with_applied};
ghost use Rattle.tw_terms.specs.OpenView.{open_head_of, open_spine_of, open_term_of, open_type_of};
ghost use Rattle.tw_terms.specs.View.{head_of, spine_of, term_of, type_of};
ghost use Rattle.tw_search.specs.Applied.{IsStart, taken_at};

use crate::placing::{head_over, joined};
use std::alloc::{AllocError, Global};
use tw_terms::numbers::one_more;
use tw_terms::{Head, MetaId, Open, OpenHead, OpenSpine, OpenTy, Spine, Term, Ty};

/// The type under so many binders, with the metavariables for the variables outside of these. Fails only for want of memory.
pub(crate) fn closed_type_over(
    alloc: Global,
    arguments: &OpenSpine,
    metas: &[MetaId],
    binders: u64,
    ty: &Ty,
) -> Result<OpenTy, AllocError>
    ensures { IfOk result (λ a. open_type_of a ≡ type_with_applied (taken_at (open_spine_of arguments.now) metas.now binders) (type_of ty.now)) }
{
    match ty {
        Ty::Pi(domain, range) => {
            let inside = one_more(binders)?;
            let domain = closed_type_over(alloc, arguments, metas, binders, domain)?;
            let range = closed_type_over(alloc, arguments, metas, inside, range)?;
            Ok(OpenTy::Pi(Box::new(alloc, domain)?, Box::new(alloc, range)?))
        }
        Ty::Atom(family, spine) => {
            let spine = closed_spine_over(alloc, arguments, metas, binders, spine)?;
            Ok(OpenTy::Atom(*family, spine))
        }
    }
}

/// The same of a term. A head alone is placed at once, where the metavariables stand on nothing.
#[cycle(over)]
#[inline(always)]
pub(crate) fn closed_term_over(
    alloc: Global,
    arguments: &OpenSpine,
    metas: &[MetaId],
    binders: u64,
    term: &Term,
) -> Result<Open, AllocError>
    ensures { IfOk result (λ m. open_term_of m ≡ with_applied (taken_at (open_spine_of arguments.now) metas.now binders) (term_of term.now)) }
{
    match term {
        Term::Root(head, spine) => {
            if spine.args.is_empty() && arguments.args.is_empty() {
                let alone = alone_over(metas, binders, *head);
                let none = OpenSpine {
                    args: Vec::new(alloc),
                };
                return Ok(Open::Root(alone, none));
            }
            closed_parts_over(alloc, arguments, metas, binders, term)
        }
        Term::Lam(_) => closed_parts_over(alloc, arguments, metas, binders, term),
    }
}

/// The same part by part.
#[cycle(over)]
#[inline(never)]
fn closed_parts_over(
    alloc: Global,
    arguments: &OpenSpine,
    metas: &[MetaId],
    binders: u64,
    term: &Term,
) -> Result<Open, AllocError>
    ensures { IfOk result (λ m. open_term_of m ≡ with_applied (taken_at (open_spine_of arguments.now) metas.now binders) (term_of term.now)) }
{
    match term {
        Term::Lam(body) => {
            let inside = one_more(binders)?;
            let body = closed_term_over(alloc, arguments, metas, inside, body)?;
            Ok(Open::Lam(Box::new(alloc, body)?))
        }
        Term::Root(head, spine) => {
            let start = head_over(alloc, arguments, metas, binders, *head)?;
            if spine.args.is_empty() {
                return Ok(Open::Root(start.head, start.arguments));
            }
            let behind = closed_spine_over(alloc, arguments, metas, binders, spine)?;
            Ok(Open::Root(start.head, joined(start.arguments, behind)?))
        }
    }
}

/// The same of each argument.
#[cycle(over)]
#[inline(always)]
pub(crate) fn closed_spine_over(
    alloc: Global,
    arguments: &OpenSpine,
    metas: &[MetaId],
    binders: u64,
    spine: &Spine,
) -> Result<OpenSpine, AllocError>
    ensures { IfOk result (λ s. open_spine_of s ≡ spine_with_applied (taken_at (open_spine_of arguments.now) metas.now binders) (spine_of spine.now)) }
{
    if spine.args.is_empty() {
        return Ok(OpenSpine {
            args: Vec::new(alloc),
        });
    }
    closed_arguments_over(alloc, arguments, metas, binders, spine)
}

/// The same one by one.
#[cycle(over)]
#[inline(never)]
fn closed_arguments_over(
    alloc: Global,
    arguments: &OpenSpine,
    metas: &[MetaId],
    binders: u64,
    spine: &Spine,
) -> Result<OpenSpine, AllocError>
    ensures { IfOk result (λ s. open_spine_of s ≡ spine_with_applied (taken_at (open_spine_of arguments.now) metas.now binders) (spine_of spine.now)) }
{
    let mut args = Vec::with_capacity(alloc, spine.args.len())?;
    for arg in &spine.args {
        args.push(closed_term_over(alloc, arguments, metas, binders, arg)?)?;
    }
    Ok(OpenSpine { args })
}

/// What stands for a head, where the metavariables stand on nothing.
fn alone_over(metas: &[MetaId], binders: u64, head: Head) -> OpenHead
    ensures { IsStart (taken_at nil metas.now binders) (head_of head) (open_head_of result) nil }
{
    match head {
        Head::Var(variable) => variable_alone(metas, binders, variable),
        Head::Const(constant) => OpenHead::Const(constant),
    }
}

/// The same of a variable.
fn variable_alone(metas: &[MetaId], binders: u64, variable: u64) -> OpenHead
    ensures { IsStart (taken_at nil metas.now binders) (variable_head variable) (open_head_of result) nil }
{
    if variable < binders {
        return OpenHead::Var(variable);
    }
    let outside = variable - binders;
    let count = metas.len() as u64;
    if outside >= count {
        return OpenHead::Var(variable - count);
    }
    OpenHead::Meta(metas[(count - 1 - outside) as usize])
}
