//! What is ground before a subgoal of a clause.
ghost use Rattle.std.specs.Prelude.{◌≡◌, ◌<◌, ◌≤◌, ◌+◌, [], suc, drop, get_or, length, map, true, IfOk, OnOk};
ghost use Rattle.lf.specs.Syntax.{atom, nil};
ghost use Rattle.lf_checks.specs.Clause.{Clause as PlainClause};
ghost use Rattle.lf_checks.specs.ModeRows.{marks_of};
ghost use Rattle.tw_clause.specs.View.{subgoal_of};
ghost use Rattle.tw_mode.specs.Before.{AreGroundBefore, ClausesAreRead, IsClauseOf, IsGroundBefore, older_entries};
ghost use Rattle.tw_mode.specs.ModeTables.{mode_rows};
ghost use Rattle.tw_mode.specs.Rows.{marks_in};
ghost use Rattle.tw_mode.specs.Scopes.{fixed_in, in_marks};
ghost use Rattle.tw_mode.specs.Solved.{after, with_shown};

use crate::check::some_and_entries;
use crate::head::{marks_in_head, sum};
use crate::mode_table::ModeTable;
use crate::places::mark_strict_at;
use crate::rows::places_for;
use crate::scope::{Scope, within};
use crate::table::Table;
use std::alloc::{AllocError, Global};
use tw_clause::{Clause, Mark3, Origin, Subgoal};

/// For each variable of a clause, the outermost first: whether it is ground before this subgoal, of which the first in solving order is 1. What stands outside
/// counts as ground. A family without marks has no inputs and makes nothing ground. Takes the size of the head and of the subgoals before. Fails only for want
/// of memory.
pub fn ground_before(
    alloc: Global,
    modes: &ModeTable,
    clause: &Clause,
    subgoal: u64,
) -> Result<Vec<bool>, AllocError>
    ensures { IfOk result (λ v. (c : PlainClause) → IsClauseOf clause.now c → AreGroundBefore (marks_of (mode_rows modes.now)) c subgoal v.items) }
{
    let table = Table::of(modes);
    let entries = some_and_entries(alloc, 0, entries_before(&clause.origin))?;
    let ground = ground_past(alloc, &table, &entries, clause, subgoal)?;
    Vec::from_slice(alloc, past(&ground, entries.len()))
}

/// How many entries of the block come before that of the clause, if it is an entry's.
fn entries_before(origin: &Option<Origin>) -> u64
    ensures { result ≡ older_entries origin.now }
{
    match origin {
        Some(origin) => (origin.entry as u64).saturating_sub(1),
        None => 0,
    }
}

/// The marks of these entries and of the clause's variables, as they are before the subgoal.
fn ground_past(
    alloc: Global,
    table: &Table,
    entries: &[bool],
    clause: &Clause,
    subgoal: u64,
) -> Result<Vec<bool>, AllocError>
    requires { entries.now ≡ with_shown [] (older_entries clause.now.origin) }
    ensures ground { IfOk result (λ v. (c : PlainClause) → IsClauseOf clause.now c → IsGroundBefore (marks_in table.now) c subgoal (in_marks true (length v.items) v.items)) }
    ensures len { IfOk result (λ v. length v.items ≡ length entries.now + length clause.now.variables) }
{
    let scope = Scope {
        fixed: entries,
        depth: sum(entries.len() as u64, clause.variables.len() as u64)?,
        bound: 0,
    };
    let mut ground = marks_in_head(alloc, table, &scope, entries, clause.family, &clause.head)?;
    let count = count_before(clause.subgoals.len(), subgoal);
    let mut met = 0;
    while met < count {
        let goal = nth_subgoal(&clause.subgoals, met);
        solve(alloc, table, &scope, goal, &mut ground)?;
        met += 1;
    }
    Ok(ground)
}

/// How many of the subgoals come before this one, or all of them.
fn count_before(all: usize, subgoal: u64) -> usize
    ensures within { result ≤ all }
    ensures before { 0 < subgoal → subgoal ≤ all → suc result ≡ subgoal }
{
    let before = subgoal.saturating_sub(1);
    if before < all as u64 {
        before as usize
    } else {
        all
    }
}

/// The subgoal at a place.
fn nth_subgoal(subgoals: &[Subgoal], place: usize) -> &Subgoal
    requires { place < length subgoals.now }
    ensures { subgoal_of result.now ≡ get_or (map subgoal_of subgoals.now) place (atom 0 nil) }
{
    &subgoals[place]
}

/// Goes past a subgoal: its outputs become ground.
fn solve(
    alloc: Global,
    table: &Table,
    scope: &Scope,
    goal: &Subgoal,
    ground: &mut Vec<bool>,
) -> Result<(), AllocError>
    requires head { scope.now.bound ≡ 0 }
    requires fixed { length scope.now.fixed.now ≤ scope.now.depth }
    requires marks { length ground.old.items ≡ scope.now.depth }
    ensures ground { OnOk result (in_marks true scope.now.depth ground.new.items ≡ after (marks_in table.now) (fixed_in scope.now) (subgoal_of goal.now) (in_marks true scope.now.depth ground.old.items)) }
    ensures len { OnOk result (length ground.new.items ≡ scope.now.depth) }
{
    mark_solved(alloc, table, scope, goal, ground)
}

/// Marks what becomes ground after a subgoal.
fn mark_solved(
    alloc: Global,
    table: &Table,
    scope: &Scope,
    goal: &Subgoal,
    ground: &mut [bool],
) -> Result<(), AllocError>
    requires head { scope.now.bound ≡ 0 }
    requires fixed { length scope.now.fixed.now ≤ scope.now.depth }
    requires marks { length ground.old ≤ scope.now.depth }
    ensures { OnOk result (in_marks true scope.now.depth ground.new ≡ after (marks_in table.now) (fixed_in scope.now) (subgoal_of goal.now) (in_marks true scope.now.depth ground.old)) }
{
    let places = places_for(alloc, table, goal.family, Mark3::Minus)?;
    let inside = within(scope, goal.context.len() as u64)?;
    mark_strict_at(alloc, &inside, &places, &goal.args, ground)
}

/// The marks past the first ones.
fn past(marks: &[bool], start: usize) -> &[bool]
    requires { start ≤ length marks.now }
    ensures { result.now ≡ drop start marks.now }
{
    &marks[start..]
}

/// A law without code: what is read off a constant's type or an entry is a clause as `ground_before` asks for it.
pub fn clauses_are_read()
    ensures { ClausesAreRead }
{}
