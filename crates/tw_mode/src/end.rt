//! The end of a clause: whether all is ground that must be.
ghost use Rattle.std.specs.Prelude.{◌≡◌, ◌≤◌, true, length, map, Decides, IfOk};
ghost use Rattle.lf_checks.specs.Tests.{either};
ghost use Rattle.lf_unification.specs.Search.{occurs_spine};
ghost use Rattle.tw_signature.specs.Marks.{marked};
ghost use Rattle.tw_clause.specs.View.{mark_of};
ghost use Rattle.tw_terms.specs.View.{spine_of, term_of};
ghost use Rattle.tw_mode.specs.Allowed.{allowed_in};
ghost use Rattle.tw_mode.specs.Checks.{Outcome};
ghost use Rattle.tw_mode.specs.Ends.{AreAllTrue, FirstUnsettled, NoneUnsettled, Unsettled, either_of};
ghost use Rattle.tw_mode.specs.Outcomes.{EndOutcome};
ghost use Rattle.tw_mode.specs.Scopes.{in_marks};

use crate::mentions::mark_at;
use crate::rows::{has_mark, nth_mark, places_for};
use crate::table::Table;
use crate::uses::{Allowed, uses_term};
use std::alloc::{AllocError, Global};
use tw_clause::Mark3;
use tw_signature::mark_spine;
use tw_terms::numbers::one_more;
use tw_terms::{ConstId, Spine, Term};

/// What became of the variables in scope, the outermost first.
#[derive(Clone, Copy)]
pub struct Ending<'a> {
    pub depth: u64,
    pub ground: &'a [bool],
    /// The variables that needn't be ground.
    pub excused: &'a [bool],
}

/// The first fault of the end of a clause, by its argument counted from 1, if there is one; 0 for a variable that stands in no argument of the head.
pub fn end_fault(
    alloc: Global,
    table: &Table,
    ending: &Ending,
    family: ConstId,
    head: &Spine,
) -> Result<Option<u64>, AllocError>
    requires ground { length ending.now.ground.now ≡ ending.now.depth }
    requires excused { length ending.now.excused.now ≡ ending.now.depth }
    ensures { IfOk result (λ f. EndOutcome table.now (in_marks true ending.now.depth ending.now.ground.now) (in_marks true ending.now.depth ending.now.excused.now) family.0 (spine_of head.now) f) }
{
    let mut settled = either_marked(alloc, ending.ground, ending.excused)?;
    if is_lost_nowhere(alloc, ending.depth, &settled, head)? {
        return Ok(Some(0));
    }
    let outputs = places_for(alloc, table, family, Mark3::Minus)?;
    mark_at(&outputs, head, ending.depth, &mut settled)?;
    let ground = ground_set(ending.depth, ending.ground);
    let settled = ground_set(ending.depth, &settled);
    first_lost(&ground, &settled, table.marks(family), head)
}

/// The variables with a mark, where one without a mark is in the set.
fn ground_set<'a>(depth: u64, marks: &'a [bool]) -> Allowed<'a>
    ensures set { allowed_in result ≡ in_marks true depth marks.now }
    ensures marks { result.marks.now ≡ marks.now }
    ensures depth { result.depth ≡ depth }
{
    Allowed {
        marks,
        depth,
        bound: 0,
        other: true,
    }
}

/// Whether some variable isn't settled and stands in no argument of the head.
fn is_lost_nowhere(
    alloc: Global,
    depth: u64,
    settled: &[bool],
    head: &Spine,
) -> Result<bool, AllocError>
    requires { length settled.now ≤ depth }
    ensures { IfOk result (λ b. Decides b (AreAllTrue (marked depth (λ i. occurs_spine i (spine_of head.now)) settled.now) → ⊥)) }
{
    let mut seen = Vec::from_slice(alloc, settled)?;
    mark_spine(head, depth, &mut seen)?;
    Ok(!are_all(&seen))
}

/// Whether each mark says yes.
fn are_all(marks: &[bool]) -> bool
    ensures { Decides result (AreAllTrue marks.now) }
{
    for mark in marks {
        if !*mark {
            return false;
        }
    }
    true
}

/// Whether one of two says yes.
fn is_either(one: bool, other: bool) -> bool
    ensures { result ≡ either one other }
{
    one || other
}

/// For each place, whether one of two marks says yes.
fn either_marked(alloc: Global, one: &[bool], other: &[bool]) -> Result<Vec<bool>, AllocError>
    requires { length one.now ≡ length other.now }
    ensures { IfOk result (λ v. v.items ≡ either_of one.now other.now) }
{
    let mut marks = Vec::with_capacity(alloc, one.len())?;
    for (place, mark) in one.iter().enumerate() {
        marks.push(is_either(*mark, other[place]))?;
    }
    Ok(marks)
}

/// The first argument with a variable that isn't ground, at an output, or isn't settled, at another place.
fn first_lost(
    ground: &Allowed,
    settled: &Allowed,
    marks: &[Mark3],
    head: &Spine,
) -> Result<Option<u64>, AllocError>
    requires ground { length ground.now.marks.now ≤ ground.now.depth }
    requires settled { length settled.now.marks.now ≤ settled.now.depth }
    ensures { IfOk result (λ f. Outcome (NoneUnsettled (allowed_in ground.now) (allowed_in settled.now) (map mark_of marks.now) (spine_of head.now)) (FirstUnsettled (allowed_in ground.now) (allowed_in settled.now) 1 (map mark_of marks.now) (spine_of head.now)) f) }
{
    for (place, arg) in head.args.iter().enumerate() {
        if place >= marks.len() {
            return Ok(None);
        }
        if is_lost(ground, settled, nth_mark(marks, place), arg)? {
            return Ok(Some(one_more(place as u64)?));
        }
    }
    Ok(None)
}

/// Whether an argument has such a variable.
fn is_lost(ground: &Allowed, settled: &Allowed, mark: Mark3, arg: &Term) -> Result<bool, AllocError>
    requires ground { length ground.now.marks.now ≤ ground.now.depth }
    requires settled { length settled.now.marks.now ≤ settled.now.depth }
    ensures { IfOk result (λ b. Decides b (Unsettled (allowed_in ground.now) (allowed_in settled.now) (mark_of mark) (term_of arg.now))) }
{
    if has_mark(mark, Mark3::Minus) {
        Ok(!uses_term(ground, arg)?)
    } else {
        Ok(!uses_term(settled, arg)?)
    }
}
