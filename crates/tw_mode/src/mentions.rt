//! The variables that occur in a type, and in chosen places of a tuple.
ghost use Rattle.std.specs.Prelude.{◌≡◌, ◌≤◌, length, OnOk};
ghost use Rattle.lf_unification.specs.Search.{occurs, occurs_type};
ghost use Rattle.lf_checks.specs.Modes.{occurs_at, occurs_goal};
ghost use Rattle.lf_checks.specs.Tests.{both};
ghost use Rattle.tw_signature.specs.Marks.{marked};
ghost use Rattle.tw_terms.specs.View.{spine_of, term_of, type_of};

use crate::places::is_chosen;
use std::alloc::AllocError;
use tw_signature::{mark_spine, mark_term};
use tw_terms::numbers::one_more;
use tw_terms::{Spine, Term, Ty};

/// Marks the variables that occur in a type, with so many variables in scope. Fails where no context in memory is so long.
pub fn mark_type(ty: &Ty, depth: u64, marks: &mut [bool]) -> Result<(), AllocError>
    requires { length marks.old ≤ depth }
    ensures { OnOk result (marks.new ≡ marked depth (λ i. occurs_type i (type_of ty.now)) marks.old) }
{
    match ty {
        Ty::Pi(domain, range) => {
            let inside = one_more(depth)?;
            mark_type(domain, depth, marks)?;
            mark_type(range, inside, marks)
        }
        Ty::Atom(_, spine) => mark_spine(spine, depth, marks),
    }
}

/// Marks the variables that occur in a chosen place of a type's target, with so many variables in scope. Fails where no context in memory is so long.
pub fn mark_goal(places: &[bool], ty: &Ty, depth: u64, marks: &mut [bool]) -> Result<(), AllocError>
    requires { length marks.old ≤ depth }
    ensures { OnOk result (marks.new ≡ marked depth (λ i. occurs_goal places.now i (type_of ty.now)) marks.old) }
{
    match ty {
        Ty::Pi(_, range) => mark_goal(places, range, one_more(depth)?, marks),
        Ty::Atom(_, spine) => mark_at(places, spine, depth, marks),
    }
}

/// The same in a tuple.
pub fn mark_at(
    places: &[bool],
    spine: &Spine,
    depth: u64,
    marks: &mut [bool],
) -> Result<(), AllocError>
    requires { length marks.old ≤ depth }
    ensures { OnOk result (marks.new ≡ marked depth (λ i. occurs_at places.now i (spine_of spine.now)) marks.old) }
{
    for (place, arg) in spine.args.iter().enumerate() {
        mark_if(is_chosen(places, place), arg, depth, marks)?;
    }
    Ok(())
}

/// The same in a term, if it stands in a chosen place.
fn mark_if(chosen: bool, term: &Term, depth: u64, marks: &mut [bool]) -> Result<(), AllocError>
    requires { length marks.old ≤ depth }
    ensures { OnOk result (marks.new ≡ marked depth (λ i. both chosen (occurs i (term_of term.now))) marks.old) }
{
    if chosen {
        mark_term(term, depth, marks)
    } else {
        Ok(())
    }
}
