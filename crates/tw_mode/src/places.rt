//! Strict occurrences in chosen places of a tuple.
ghost use Rattle.std.specs.Prelude.{◌≡◌, ◌≤◌, false, get_or, length, OnOk};
ghost use Rattle.lf_checks.specs.Strict.{strict, strict_at, strict_goal};
ghost use Rattle.lf_checks.specs.Tests.{both};
ghost use Rattle.tw_signature.specs.Marks.{marked};
ghost use Rattle.tw_terms.specs.View.{spine_of, term_of, type_of};
ghost use Rattle.tw_mode.specs.Scopes.{bound_in, fixed_in};

use crate::scope::{Scope, inside};
use crate::strict::mark_strict;
use std::alloc::{AllocError, Global};
use tw_terms::{Spine, Term, Ty};

/// Marks the variables with a strict occurrence in a chosen place of a type's target, where its quantifiers are bound variables.
pub fn mark_strict_goal(
    alloc: Global,
    scope: &Scope,
    places: &[bool],
    ty: &Ty,
    marks: &mut [bool],
) -> Result<(), AllocError>
    requires fixed { length scope.now.fixed.now ≤ scope.now.depth }
    requires marks { length marks.old ≤ scope.now.depth }
    ensures { OnOk result (marks.new ≡ marked scope.now.depth (λ i. strict_goal places.now (bound_in scope.now) (fixed_in scope.now) i (type_of ty.now)) marks.old) }
{
    match ty {
        Ty::Pi(_, range) => mark_strict_goal(alloc, &inside(scope)?, places, range, marks),
        Ty::Atom(_, spine) => mark_strict_at(alloc, scope, places, spine, marks),
    }
}

/// The same in a chosen place of a tuple.
pub fn mark_strict_at(
    alloc: Global,
    scope: &Scope,
    places: &[bool],
    spine: &Spine,
    marks: &mut [bool],
) -> Result<(), AllocError>
    requires fixed { length scope.now.fixed.now ≤ scope.now.depth }
    requires marks { length marks.old ≤ scope.now.depth }
    ensures { OnOk result (marks.new ≡ marked scope.now.depth (λ i. strict_at places.now (bound_in scope.now) (fixed_in scope.now) i (spine_of spine.now)) marks.old) }
{
    for (place, arg) in spine.args.iter().enumerate() {
        mark_strict_if(alloc, is_chosen(places, place), scope, arg, marks)?;
    }
    Ok(())
}

/// Whether a place is chosen.
pub fn is_chosen(places: &[bool], place: usize) -> bool
    ensures { result ≡ get_or places.now place false }
{
    if place < places.len() {
        places[place]
    } else {
        false
    }
}

/// The same in a term, if it stands in a chosen place.
fn mark_strict_if(
    alloc: Global,
    chosen: bool,
    scope: &Scope,
    term: &Term,
    marks: &mut [bool],
) -> Result<(), AllocError>
    requires fixed { length scope.now.fixed.now ≤ scope.now.depth }
    requires marks { length marks.old ≤ scope.now.depth }
    ensures { OnOk result (marks.new ≡ marked scope.now.depth (λ i. both chosen (strict (bound_in scope.now) (fixed_in scope.now) i (term_of term.now))) marks.old) }
{
    if chosen {
        mark_strict(alloc, scope, term, marks)
    } else {
        Ok(())
    }
}
