//! What stands at the end of a type, and the quantifiers that lead it.
ghost use Rattle.std.specs.Prelude.{◌≡◌, IfOk};
ghost use Rattle.lf.specs.Entries.{quantifiers};
ghost use Rattle.lf.specs.Syntax.{atom, rename_spine};
ghost use Rattle.lf.specs.Variables.{binders, target, target_arguments};
ghost use Rattle.lf_checks.specs.Descent.{past_quantifiers};
ghost use Rattle.tw_terms.specs.View.{spine_of, type_of};

use std::alloc::{AllocError, Global};
use tw_terms::numbers::one_more;
use tw_terms::{Context, Spine, Ty, weaken};

/// The atom at the end of a type.
fn target_atom(ty: &Ty) -> &Ty
    ensures { type_of result.now ≡ atom (target (type_of ty.now)) (target_arguments (type_of ty.now)) }
{
    match ty {
        Ty::Pi(_, range) => target_atom(range),
        Ty::Atom(_, _) => ty,
    }
}

/// Its arguments.
pub fn target_spine(ty: &Ty) -> &Spine
    ensures { spine_of result.now ≡ target_arguments (type_of ty.now) }
{
    match ty {
        Ty::Pi(_, range) => target_spine(range),
        Ty::Atom(_, spine) => spine,
    }
}

/// How many quantifiers lead a type. Fails where no context in memory is so long.
pub fn count_quantifiers(ty: &Ty) -> Result<u64, AllocError>
    ensures { IfOk result (λ n. n ≡ quantifiers (type_of ty.now)) }
{
    match ty {
        Ty::Pi(_, range) => one_more(count_quantifiers(range)?),
        Ty::Atom(_, _) => Ok(0),
    }
}

/// The atom at the end of a clause, under the quantifiers of one of its subgoals.
pub fn moved_target(alloc: Global, clause: &Ty, goal: &Ty) -> Result<Ty, AllocError>
    ensures { IfOk result (λ a. type_of a ≡ atom (target (type_of clause.now)) (rename_spine (past_quantifiers (type_of goal.now) (λ i. i)) (target_arguments (type_of clause.now)))) }
{
    weaken(alloc, target_atom(clause), count_quantifiers(goal)?)
}

/// The context under the quantifiers of a type.
pub fn under_quantifiers(alloc: Global, outer: &Context, ty: &Ty) -> Result<Context, AllocError>
    ensures { IfOk result (λ g. g ≡ binders outer.now (type_of ty.now)) }
{
    let mut context = outer.copy(alloc)?;
    let mut rest = ty;
    loop {
        match rest {
            Ty::Pi(domain, range) => {
                context.push(domain.copy(alloc)?)?;
                rest = range;
            }
            Ty::Atom(_, _) => return Ok(context),
        }
    }
}
