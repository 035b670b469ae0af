//! Open terms and types moved over more variables.
ghost use Rattle.std.specs.Prelude.{◌≡◌, IfOk};
ghost use Rattle.lf.specs.AtOnce.{lift_renaming_by, shift_by};
ghost use Rattle.lf.specs.Syntax.{rename, rename_head, rename_spine, rename_type};
ghost use Rattle.tw_terms.specs.OpenView.{open_head_of, open_term_of, open_spine_of, open_type_of};

use crate::parts::{lambda, one_more, pi};
use std::alloc::{AllocError, Global};
use tw_terms::{Open, OpenHead, OpenSpine, OpenTy};

/// The term with each variable from `from` on raised by `by`. Fails only for want of memory; no context in memory has a variable that overflows.
#[cycle(shift)]
pub fn shift(alloc: Global, term: &Open, by: u64, from: u64) -> Result<Open, AllocError>
    ensures { IfOk result (λ m. open_term_of m ≡ rename (lift_renaming_by from (shift_by by)) (open_term_of term.now)) }
{
    match term {
        Open::Lam(body) => {
            let inside = one_more(from)?;
            let body = shift(alloc, body, by, inside)?;
            lambda(alloc, body)
        }
        Open::Root(head, spine) => {
            let head = shift_head(*head, by, from)?;
            Ok(Open::Root(head, shift_spine(alloc, spine, by, from)?))
        }
    }
}

/// The same in each argument.
#[cycle(shift)]
pub fn shift_spine(
    alloc: Global,
    spine: &OpenSpine,
    by: u64,
    from: u64,
) -> Result<OpenSpine, AllocError>
    ensures { IfOk result (λ s. open_spine_of s ≡ rename_spine (lift_renaming_by from (shift_by by)) (open_spine_of spine.now)) }
{
    let mut args = Vec::with_capacity(alloc, spine.args.len())?;
    for arg in &spine.args {
        args.push(shift(alloc, arg, by, from)?)?;
    }
    Ok(OpenSpine { args })
}

/// The same in a type.
pub fn shift_type(alloc: Global, ty: &OpenTy, by: u64, from: u64) -> Result<OpenTy, AllocError>
    ensures { IfOk result (λ a. open_type_of a ≡ rename_type (lift_renaming_by from (shift_by by)) (open_type_of ty.now)) }
{
    match ty {
        OpenTy::Pi(domain, range) => {
            let inside = one_more(from)?;
            let domain = shift_type(alloc, domain, by, from)?;
            let range = shift_type(alloc, range, by, inside)?;
            pi(alloc, domain, range)
        }
        OpenTy::Atom(family, spine) => {
            Ok(OpenTy::Atom(*family, shift_spine(alloc, spine, by, from)?))
        }
    }
}

/// The head with a variable from `from` on raised by `by`. Fails where no context in memory is so long.
fn shift_head(head: OpenHead, by: u64, from: u64) -> Result<OpenHead, AllocError>
    ensures { IfOk result (λ h. open_head_of h ≡ rename_head (lift_renaming_by from (shift_by by)) (open_head_of head)) }
{
    match head {
        OpenHead::Var(variable) => {
            if variable < from {
                return Ok(head);
            }
            Ok(OpenHead::Var(variable.checked_add(by).ok_or(AllocError)?))
        }
        OpenHead::Const(_) => Ok(head),
        OpenHead::Meta(_) => Ok(head),
    }
}
