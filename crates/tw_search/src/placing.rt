//! Types with metavariables put in for quantifiers, all at once: each stands on the same arguments, and those of the variable come behind them.
ghost use Rattle.std.specs.Prelude.{◌≡◌, [], IfOk};
ghost use Rattle.lf.specs.Eta.{append};
ghost use Rattle.lf.specs.Syntax.{nil, variable as variable_head};
ghost use Rattle.lf_search.specs.AppliedHeads.{spine_with_applied, type_with_applied, with_applied};
ghost use Rattle.tw_terms.specs.OpenView.{open_head_of, open_spine_of, open_term_of, open_type_of};
ghost use Rattle.tw_terms.specs.View.{head_of};
ghost use Rattle.tw_search.specs.Applied.{IsStart, taken_at};

use std::alloc::{AllocError, Global};
use tw_putting::shift_spine;
use tw_terms::numbers::one_more;
use tw_terms::{Head, MetaId, Open, OpenHead, OpenSpine, OpenTy};

/// What stands for a head: another one, with the first of its arguments.
#[derive(Drop)]
pub(crate) struct Start {
    pub(crate) head: OpenHead,
    pub(crate) arguments: OpenSpine,
}

/// The type under so many binders, with the metavariables for the variables outside of these. Fails only for want of memory.
pub(crate) fn type_over(
    alloc: Global,
    arguments: &OpenSpine,
    metas: &[MetaId],
    binders: u64,
    ty: &OpenTy,
) -> Result<OpenTy, AllocError>
    ensures { IfOk result (λ a. open_type_of a ≡ type_with_applied (taken_at (open_spine_of arguments.now) metas.now binders) (open_type_of ty.now)) }
{
    match ty {
        OpenTy::Pi(domain, range) => {
            let inside = one_more(binders)?;
            let domain = type_over(alloc, arguments, metas, binders, domain)?;
            let range = type_over(alloc, arguments, metas, inside, range)?;
            Ok(OpenTy::Pi(Box::new(alloc, domain)?, Box::new(alloc, range)?))
        }
        OpenTy::Atom(family, spine) => {
            let spine = spine_over(alloc, arguments, metas, binders, spine)?;
            Ok(OpenTy::Atom(*family, spine))
        }
    }
}

/// The same of a term.
#[cycle(over)]
fn term_over(
    alloc: Global,
    arguments: &OpenSpine,
    metas: &[MetaId],
    binders: u64,
    term: &Open,
) -> Result<Open, AllocError>
    ensures { IfOk result (λ m. open_term_of m ≡ with_applied (taken_at (open_spine_of arguments.now) metas.now binders) (open_term_of term.now)) }
{
    match term {
        Open::Lam(body) => {
            let inside = one_more(binders)?;
            let body = term_over(alloc, arguments, metas, inside, body)?;
            Ok(Open::Lam(Box::new(alloc, body)?))
        }
        Open::Root(head, spine) => {
            let start = start_over(alloc, arguments, metas, binders, *head)?;
            let behind = spine_over(alloc, arguments, metas, binders, spine)?;
            Ok(Open::Root(start.head, joined(start.arguments, behind)?))
        }
    }
}

/// The same of each argument.
#[cycle(over)]
pub(crate) fn spine_over(
    alloc: Global,
    arguments: &OpenSpine,
    metas: &[MetaId],
    binders: u64,
    spine: &OpenSpine,
) -> Result<OpenSpine, AllocError>
    ensures { IfOk result (λ s. open_spine_of s ≡ spine_with_applied (taken_at (open_spine_of arguments.now) metas.now binders) (open_spine_of spine.now)) }
{
    let mut args = Vec::with_capacity(alloc, spine.args.len())?;
    for arg in &spine.args {
        args.push(term_over(alloc, arguments, metas, binders, arg)?)?;
    }
    Ok(OpenSpine { args })
}

/// The arguments of both.
pub(crate) fn joined(before: OpenSpine, behind: OpenSpine) -> Result<OpenSpine, AllocError>
    ensures { IfOk result (λ s. open_spine_of s ≡ append (open_spine_of before) (open_spine_of behind)) }
{
    if before.args.is_empty() {
        return Ok(behind);
    }
    if behind.args.is_empty() {
        return Ok(before);
    }
    let mut args = before.args;
    let mut more = behind.args;
    args.append(&mut more)?;
    Ok(OpenSpine { args })
}

/// What stands for a head: a variable outside of the binders has its metavariable, if it is one of those put in for.
fn start_over(
    alloc: Global,
    arguments: &OpenSpine,
    metas: &[MetaId],
    binders: u64,
    head: OpenHead,
) -> Result<Start, AllocError>
    ensures { IfOk result (λ s. IsStart (taken_at (open_spine_of arguments.now) metas.now binders) (open_head_of head) (open_head_of s.head) (open_spine_of s.arguments)) }
{
    match head {
        OpenHead::Var(variable) => variable_over(alloc, arguments, metas, binders, variable),
        OpenHead::Const(_) => Ok(bare(alloc, head)),
        OpenHead::Meta(_) => Ok(bare(alloc, head)),
    }
}

/// The same of the head of a closed term.
pub(crate) fn head_over(
    alloc: Global,
    arguments: &OpenSpine,
    metas: &[MetaId],
    binders: u64,
    head: Head,
) -> Result<Start, AllocError>
    ensures { IfOk result (λ s. IsStart (taken_at (open_spine_of arguments.now) metas.now binders) (head_of head) (open_head_of s.head) (open_spine_of s.arguments)) }
{
    match head {
        Head::Var(variable) => variable_over(alloc, arguments, metas, binders, variable),
        Head::Const(constant) => Ok(bare(alloc, OpenHead::Const(constant))),
    }
}

/// The same of a variable.
fn variable_over(
    alloc: Global,
    arguments: &OpenSpine,
    metas: &[MetaId],
    binders: u64,
    variable: u64,
) -> Result<Start, AllocError>
    ensures { IfOk result (λ s. IsStart (taken_at (open_spine_of arguments.now) metas.now binders) (variable_head variable) (open_head_of s.head) (open_spine_of s.arguments)) }
{
    if variable < binders {
        return Ok(bare(alloc, OpenHead::Var(variable)));
    }
    let outside = variable - binders;
    let count = metas.len() as u64;
    if outside >= count {
        return Ok(bare(alloc, OpenHead::Var(variable - count)));
    }
    let head = OpenHead::Meta(metas[(count - 1 - outside) as usize]);
    let arguments = shift_spine(alloc, arguments, binders, 0)?;
    Ok(Start { head, arguments })
}

/// The head without arguments.
fn bare(alloc: Global, head: OpenHead) -> Start
    ensures head { result.head ≡ head }
    ensures arguments { open_spine_of result.arguments ≡ nil }
{
    let arguments = OpenSpine {
        args: Vec::new(alloc),
    };
    Start { head, arguments }
}
