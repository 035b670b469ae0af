//! Eta-long forms, made from their leading lambdas inward.
ghost use Rattle.std.specs.Prelude.{◌≡◌, ◌≤◌, ◌<◌, IfOk, IsErrOf};
ghost use Rattle.lf.specs.Syntax.{rename_head};
ghost use Rattle.lf.specs.AtOnce.{shift_by};
ghost use Rattle.lf.specs.Depth.{depth, spine_depth, depth_limit};
ghost use Rattle.lf.specs.Eta.{eta_long, eta_arguments, arity as arity_of, lambdas as under_lambdas_of};
ghost use Rattle.tw_terms.specs.View.{head_of, term_of, spine_of, skeleton_of};

use crate::fault::HeredFault;
use crate::normal::{LEVELS, push};
use std::alloc::{AllocError, Global};
use tw_terms::{Head, Skeleton, Spine, Term};

/// The eta-long form of a variable or constant of the skeleton `skel`.
///
/// Answers `TooDeep` only where that form is deeper than 4,096, and `NoMemory` where memory is wanting.
pub fn eta(alloc: Global, head: Head, skel: &Skeleton) -> Result<Term, HeredFault>
    ensures ok { IfOk result (λ m. term_of m ≡ eta_long (skeleton_of skel.now) (head_of head)) }
    ensures shallow { IfOk result (λ m. depth (term_of m) ≤ depth_limit) }
    ensures too_deep { IsErrOf result HeredFault.TooDeep → depth_limit < depth (eta_long (skeleton_of skel.now) (head_of head)) }
{
    expand_head(alloc, head, skel, LEVELS)
}

/// The eta-long form. Answers `TooDeep` where it is deeper than `levels`.
#[cycle(expand)]
fn expand_head(
    alloc: Global,
    head: Head,
    skeleton: &Skeleton,
    levels: u64,
) -> Result<Term, HeredFault>
    ensures ok { IfOk result (λ m. term_of m ≡ eta_long (skeleton_of skeleton.now) (head_of head)) }
    ensures shallow { IfOk result (λ m. depth (term_of m) ≤ levels) }
    ensures too_deep { IsErrOf result HeredFault.TooDeep → levels < depth (eta_long (skeleton_of skeleton.now) (head_of head)) }
{
    let lambdas = arity(skeleton)?;
    if levels <= lambdas {
        return Err(HeredFault::TooDeep);
    }
    let head = moved(head, lambdas)?;
    match expand_arguments(alloc, skeleton, lambdas, levels - lambdas - 1) {
        Ok(spine) => Ok(under_lambdas(alloc, lambdas, Term::Root(head, spine))?),
        Err(fault) => Err(fault),
    }
}

/// The eta-long forms of the variables that the leading lambdas bind, which are `count`.
#[cycle(expand)]
fn expand_arguments(
    alloc: Global,
    skeleton: &Skeleton,
    count: u64,
    levels: u64,
) -> Result<Spine, HeredFault>
    requires { count ≡ arity_of (skeleton_of skeleton.now) }
    ensures ok { IfOk result (λ s. spine_of s ≡ eta_arguments (skeleton_of skeleton.now)) }
    ensures shallow { IfOk result (λ s. spine_depth (spine_of s) ≤ levels) }
    ensures too_deep { IsErrOf result HeredFault.TooDeep → levels < spine_depth (eta_arguments (skeleton_of skeleton.now)) }
{
    let mut args = Vec::new(alloc);
    let mut rest = skeleton;
    let mut newest = count;
    while let Skeleton::Arrow(domain, range) = rest {
        newest -= 1;
        match expand_head(alloc, Head::Var(newest), domain, levels) {
            Ok(arg) => push(&mut args, arg)?,
            Err(fault) => return Err(fault),
        }
        rest = range;
    }
    Ok(Spine { args })
}

/// The head under so many more binders. Fails where no context in memory is so long.
fn moved(head: Head, binders: u64) -> Result<Head, AllocError>
    ensures { IfOk result (λ h. head_of h ≡ rename_head (shift_by binders) (head_of head)) }
{
    match head {
        Head::Const(_) => Ok(head),
        Head::Var(variable) => Ok(Head::Var(variable.checked_add(binders).ok_or(AllocError)?)),
    }
}

/// How many arguments a skeleton takes. Fails where no skeleton in memory takes so many.
fn arity(skeleton: &Skeleton) -> Result<u64, AllocError>
    ensures { IfOk result (λ n. n ≡ arity_of (skeleton_of skeleton.now)) }
{
    let mut count: u64 = 0;
    let mut rest = skeleton;
    while let Skeleton::Arrow(_, range) = rest {
        count = count.checked_add(1).ok_or(AllocError)?;
        rest = range;
    }
    Ok(count)
}

/// The body under so many lambdas.
fn under_lambdas(alloc: Global, count: u64, body: Term) -> Result<Term, AllocError>
    ensures { IfOk result (λ m. term_of m ≡ under_lambdas_of count (term_of body)) }
{
    let mut term = body;
    for _ in 0..count {
        term = Term::Lam(Box::new(alloc, term)?);
    }
    Ok(term)
}
