//! Whether the variables that a subgoal needs are in a set.
ghost use Rattle.std.specs.Prelude.{◌≡◌, ◌≤◌, length, IfOk, Decides};
ghost use Rattle.lf.specs.Variables.{target_arguments};
ghost use Rattle.lf_checks.specs.Descent.{inside};
ghost use Rattle.lf_checks.specs.Marks.{UsesPlaces};
ghost use Rattle.lf_checks.specs.ModeFaults.{FirstOutside, HypothesesUse};
ghost use Rattle.tw_terms.specs.View.{spine_of, type_of};
ghost use Rattle.tw_mode.specs.Allowed.{allowed_in};
ghost use Rattle.tw_mode.specs.Checks.{Outcome};

use crate::places::is_chosen;
use crate::uses::{Allowed, under_one, uses_term, uses_type};
use std::alloc::AllocError;
use tw_terms::numbers::one_more;
use tw_terms::{Spine, Term, Ty};

/// Whether the types of a goal's hypotheses use variables of the set alone. Fails where no context in memory is so long.
pub fn hypotheses_use(allowed: &Allowed, goal: &Ty) -> Result<bool, AllocError>
    requires { length allowed.now.marks.now ≤ allowed.now.depth }
    ensures { IfOk result (λ b. Decides b (HypothesesUse (allowed_in allowed.now) (type_of goal.now))) }
{
    match goal {
        Ty::Pi(domain, range) => {
            if uses_type(allowed, domain)? {
                hypotheses_use(&under_one(allowed)?, range)
            } else {
                Ok(false)
            }
        }
        Ty::Atom(_, _) => Ok(true),
    }
}

/// The first chosen argument of a goal with a variable outside the set, counted from 1, if there is one.
pub fn first_outside_goal(
    allowed: &Allowed,
    places: &[bool],
    goal: &Ty,
) -> Result<Option<u64>, AllocError>
    requires { length allowed.now.marks.now ≤ allowed.now.depth }
    ensures { IfOk result (λ place. Outcome (UsesPlaces (inside (type_of goal.now) (allowed_in allowed.now)) places.now (target_arguments (type_of goal.now))) (FirstOutside 1 (inside (type_of goal.now) (allowed_in allowed.now)) places.now (target_arguments (type_of goal.now))) place) }
{
    match goal {
        Ty::Pi(_, range) => first_outside_goal(&under_one(allowed)?, places, range),
        Ty::Atom(_, spine) => first_outside(allowed, places, spine),
    }
}

/// The same in a tuple.
fn first_outside(
    allowed: &Allowed,
    places: &[bool],
    spine: &Spine,
) -> Result<Option<u64>, AllocError>
    requires { length allowed.now.marks.now ≤ allowed.now.depth }
    ensures { IfOk result (λ place. Outcome (UsesPlaces (allowed_in allowed.now) places.now (spine_of spine.now)) (FirstOutside 1 (allowed_in allowed.now) places.now (spine_of spine.now)) place) }
{
    for (place, arg) in spine.args.iter().enumerate() {
        if is_chosen(places, place) && !uses_term(allowed, arg)? {
            return Ok(Some(one_more(place as u64)?));
        }
    }
    Ok(None)
}
