//! The subgoals of a clause.
ghost use Rattle.std.specs.Prelude.{◌≡◌, ◌++◌, map, IfOk, OnOk};
ghost use Rattle.lf.specs.AtOnce.{shift_by};
ghost use Rattle.lf.specs.Entries.{quantifiers};
ghost use Rattle.lf.specs.Syntax.{rename_type};
ghost use Rattle.lf_checks.specs.Parts.{shape as shape_of_type};
ghost use Rattle.tw_terms.specs.View.{type_of};
ghost use Rattle.tw_order.specs.Goals.{goal_here, goals_of};

use std::alloc::{AllocError, Global};
use tw_signature::shape_of;
use tw_terms::numbers::one_more;
use tw_terms::{Ty, weaken};

/// The subgoals of a clause of this type in solving order, each moved to the whole scope of the clause.
pub fn goals(alloc: Global, ty: &Ty) -> Result<Vec<Ty>, AllocError>
    ensures { IfOk result (λ v. map type_of v.items ≡ goals_of (type_of ty.now)) }
{
    let shape = shape_of(alloc, ty)?;
    let mut goals = Vec::new(alloc);
    add_goals(alloc, &shape, ty, &mut goals)?;
    Ok(goals)
}

/// Adds them, and counts the quantifiers. The shape says which of these are variables.
fn add_goals(alloc: Global, shape: &[bool], ty: &Ty, goals: &mut Vec<Ty>) -> Result<u64, AllocError>
    requires { shape.now ≡ shape_of_type (type_of ty.now) }
    ensures count { IfOk result (λ n. n ≡ quantifiers (type_of ty.now)) }
    ensures goals { OnOk result (map type_of goals.new.items ≡ map type_of goals.old.items ++ goals_of (type_of ty.now)) }
{
    match ty {
        Ty::Pi(domain, range) => {
            let inside = one_more(add_goals(alloc, &shape[1..], range, goals)?)?;
            add_goal(alloc, shape[0], domain, inside, goals)?;
            Ok(inside)
        }
        Ty::Atom(_, _) => Ok(0),
    }
}

/// Adds a quantifier's type that stands inside so many variables, if it is a subgoal.
fn add_goal(
    alloc: Global,
    is_variable: bool,
    domain: &Ty,
    inside: u64,
    goals: &mut Vec<Ty>,
) -> Result<(), AllocError>
    ensures { OnOk result (map type_of goals.new.items ≡ map type_of goals.old.items ++ goal_here is_variable (rename_type (shift_by inside) (type_of domain.now))) }
{
    if is_variable {
        return Ok(());
    }
    goals.push(weaken(alloc, domain, inside)?)?;
    Ok(())
}
