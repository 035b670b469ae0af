//! Eta-long forms of heads on arguments, the variables in scope as arguments, and types closed over them.
ghost use Rattle.std.specs.Prelude.{◌≡◌, IfOk};
ghost use Rattle.lf.specs.AtOnce.{shift_by};
ghost use Rattle.lf.specs.Eta.{add_last, eta_expand};
ghost use Rattle.lf.specs.Syntax.{rename_head, skeleton, lambda as lambda_of, pi as pi_of};
ghost use Rattle.lf_unification.specs.Offering.{local_arguments as local_arguments_of, pi_over};
ghost use Rattle.tw_terms.specs.OpenView.{open_head_of, open_term_of, open_spine_of, open_type_of};

use std::alloc::{AllocError, Global};
use tw_prune::{arity, expand_variable, lambdas_over, push_newest};
use tw_putting::shift_spine;
use tw_terms::{Open, OpenContext, OpenHead, OpenSpine, OpenTy};

/// The head on the arguments, made eta-long at the skeleton of the type. Fails only for want of memory.
pub fn expanded(
    alloc: Global,
    head: OpenHead,
    spine: OpenSpine,
    ty: &OpenTy,
) -> Result<Open, AllocError>
    ensures { IfOk result (λ m. open_term_of m ≡ eta_expand (skeleton (open_type_of ty.now)) (open_head_of head) (open_spine_of spine)) }
{
    match ty {
        OpenTy::Atom(_, _) => Ok(Open::Root(head, spine)),
        OpenTy::Pi(_, _) => expanded_function(alloc, head, &spine, ty),
    }
}

/// The same under a lambda for each argument that the type takes.
#[inline(never)]
fn expanded_function(
    alloc: Global,
    head: OpenHead,
    spine: &OpenSpine,
    ty: &OpenTy,
) -> Result<Open, AllocError>
    ensures { IfOk result (λ m. open_term_of m ≡ eta_expand (skeleton (open_type_of ty.now)) (open_head_of head) (open_spine_of spine.now)) }
{
    let count = arity(ty)?;
    let head = moved(head, count)?;
    let shifted = shift_spine(alloc, spine, count, 0)?;
    let mut args = shifted.args;
    push_newest(alloc, ty, count, &mut args)?;
    lambdas_over(alloc, ty, Open::Root(head, OpenSpine { args }))
}

/// The head under so many more binders. Fails where no context in memory is so long.
fn moved(head: OpenHead, binders: u64) -> Result<OpenHead, AllocError>
    ensures { IfOk result (λ h. open_head_of h ≡ rename_head (shift_by binders) (open_head_of head)) }
{
    match head {
        OpenHead::Const(_) => Ok(head),
        OpenHead::Meta(_) => Ok(head),
        OpenHead::Var(variable) => {
            Ok(OpenHead::Var(variable.checked_add(binders).ok_or(AllocError)?))
        }
    }
}

/// The variables in scope as arguments, the oldest first.
pub fn local_arguments(alloc: Global, locals: &OpenContext) -> Result<OpenSpine, AllocError>
    ensures { IfOk result (λ s. open_spine_of s ≡ local_arguments_of locals.now) }
{
    let mut args = Vec::new(alloc);
    let mut left = locals.len() as u64;
    while left > 0 {
        left -= 1;
        match locals.get(left) {
            Some(ty) => args.push(expand_variable(alloc, ty, left)?)?,
            None => unreachable!(),
        }
    }
    Ok(OpenSpine { args })
}

/// The type closed over the variables in scope.
pub fn closed_over(alloc: Global, locals: &OpenContext, ty: OpenTy) -> Result<OpenTy, AllocError>
    ensures { IfOk result (λ a. open_type_of a ≡ pi_over locals.now (open_type_of ty)) }
{
    let mut closed = ty;
    for variable in 0..locals.len() as u64 {
        match locals.get(variable) {
            Some(domain) => closed = pi(alloc, domain.copy(alloc)?, closed)?,
            None => unreachable!(),
        }
    }
    Ok(closed)
}

/// The product of a domain and a range.
pub fn pi(alloc: Global, domain: OpenTy, range: OpenTy) -> Result<OpenTy, AllocError>
    ensures { IfOk result (λ a. open_type_of a ≡ pi_of (open_type_of domain) (open_type_of range)) }
{
    let domain = Box::new(alloc, domain)?;
    Ok(OpenTy::Pi(domain, Box::new(alloc, range)?))
}

/// A lambda over the body.
pub fn lambda(alloc: Global, body: Open) -> Result<Open, AllocError>
    ensures { IfOk result (λ m. open_term_of m ≡ lambda_of (open_term_of body)) }
{
    Ok(Open::Lam(Box::new(alloc, body)?))
}

/// The arguments and one more at the end.
pub fn with_argument(spine: OpenSpine, arg: Open) -> Result<OpenSpine, AllocError>
    ensures { IfOk result (λ s. open_spine_of s ≡ add_last (open_spine_of spine) (open_term_of arg)) }
{
    let mut args = spine.args;
    args.push(arg)?;
    Ok(OpenSpine { args })
}
