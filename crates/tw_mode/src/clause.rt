//! Whether a clause computes its outputs from its inputs: the first fault of a type seen as a clause.
ghost use Rattle.std.specs.Prelude.{◌≡◌, ◌≤◌, ◌<◌, ◌+◌, ℕ, suc, Bool, true, false, not, get_or, length, map, option_map, List, None, Decides, IfOk, OnOk};
ghost use Rattle.lf.specs.Entries.{quantifiers, signature_of};
ghost use Rattle.lf.specs.AtOnce.{shift_by};
ghost use Rattle.lf.specs.Syntax.{LfType, atom, nil, rename_type};
ghost use Rattle.lf.specs.Variables.{target as target_of_type, target_arguments};
ghost use Rattle.lf_checks.specs.Marks.{HasSoundMarks, free_places};
ghost use Rattle.lf_checks.specs.ModeFaults.{place_of};
ghost use Rattle.lf_checks.specs.Modes.{EachHypothesis, WellModedFrom, occurs_at};
ghost use Rattle.lf_checks.specs.Parts.{shape as shape_of_type};
ghost use Rattle.lf_checks.specs.Tests.{choose};
ghost use Rattle.tw_signature.specs.Marks.{marked};
ghost use Rattle.tw_terms.specs.View.{type_of};
ghost use Rattle.tw_mode.specs.Checks.{Fits};
ghost use Rattle.tw_mode.specs.Outcomes.{ClauseOutcome, EndOutcome, NeedsOutcome, QuantifierOutcome, SubgoalOutcome, SubgoalsOutcome, plain_place};
ghost use Rattle.tw_mode.specs.Rows.{marks_in, moded_in};
ghost use Rattle.tw_mode.specs.Scopes.{fixed_in, in_marks};
ghost use Rattle.tw_mode.specs.Solved.{Stands, after, after_all, clause_in, domain_types, excused, ground_outside, with_free};

use crate::end::{Ending, end_fault};
use crate::head::{count_quantifiers, marks_in_head, more_marks, sum, target_spine};
use crate::inputs::{first_outside_goal, hypotheses_use};
use crate::mentions::{mark_at, mark_goal};
use crate::outside::{Outside, outside_of};
use crate::places::mark_strict_goal;
use crate::rows::places_for;
use crate::scope::Scope;
use crate::sound::unsound_place;
use crate::table::Table;
use crate::uses::Allowed;
use std::alloc::{AllocError, Global};
use tw_clause::Mark3;
use tw_signature::{Signature, shape_of};
use tw_terms::numbers::one_more;
use tw_terms::{Ty, target, weaken};

/// The numbers of a fault in a clause: the subgoal in solving order from 1, 0 being the head; the argument from 1, 0 being none of them.
#[derive(Clone, Copy, Debug)]
pub struct Place {
    pub subgoal: u64,
    pub argument: u64,
}

/// Where a walk over the subgoals of a clause stands: which variables are ground, which needn't be, and how many subgoals were met.
#[derive(Drop)]
struct Walk {
    ground: Vec<bool>,
    excused: Vec<bool>,
    subgoals: u64,
}

/// The first fault of a type as a clause, if there is one. Fails only for want of memory. The stack nests as deep as the type does.
#[cycle(clause)]
pub fn clause_fault(
    alloc: Global,
    sig: &Signature,
    table: &Table,
    outside: &Outside,
    ty: &Ty,
) -> Result<Option<Place>, AllocError>
    requires fixed { length outside.now.fixed.now ≤ outside.now.depth }
    requires ground { length outside.now.ground.now ≡ outside.now.depth }
    requires fits { Fits (signature_of sig.now) (type_of ty.now) }
    ensures { IfOk result (λ f. ClauseOutcome (signature_of sig.now) table.now outside.now (type_of ty.now) f) }
{
    let unsound = unsound_place(alloc, sig, table, target(ty))?;
    if unsound.is_some() {
        return Ok(placed(0, unsound));
    }
    sound_fault(alloc, sig, table, outside, ty)
}

/// The place of a fault in a subgoal, if there is one.
fn placed(subgoal: u64, argument: Option<u64>) -> Option<Place>
    ensures { option_map plain_place result ≡ option_map (place_of subgoal) argument }
{
    match argument {
        Some(argument) => Some(Place { subgoal, argument }),
        None => None,
    }
}

/// The first fault of a type as a clause, where the marks of its own family are sound.
#[cycle(clause)]
fn sound_fault(
    alloc: Global,
    sig: &Signature,
    table: &Table,
    outside: &Outside,
    ty: &Ty,
) -> Result<Option<Place>, AllocError>
    requires fixed { length outside.now.fixed.now ≤ outside.now.depth }
    requires ground { length outside.now.ground.now ≡ outside.now.depth }
    requires fits { Fits (signature_of sig.now) (type_of ty.now) }
    requires sound { HasSoundMarks (signature_of sig.now) (target_of_type (type_of ty.now)) (marks_in table.now (target_of_type (type_of ty.now))) }
    ensures { IfOk result (λ f. ClauseOutcome (signature_of sig.now) table.now outside.now (type_of ty.now) f) }
{
    let scope = Scope {
        fixed: outside.fixed,
        depth: sum(outside.depth, count_quantifiers(ty)?)?,
        bound: 0,
    };
    let shape = shape_of(alloc, ty)?;
    let mut walk = begin(alloc, table, outside, &scope, &shape, ty)?;
    let faulty = subgoals_fault(alloc, sig, table, outside, &scope, &shape, ty, &mut walk)?;
    if faulty.is_some() {
        return Ok(placed(walk.subgoals, faulty));
    }
    let lost = clause_end(alloc, table, scope.depth, &walk, ty)?;
    Ok(placed(0, lost))
}

/// The first fault of the end of a clause.
fn clause_end(
    alloc: Global,
    table: &Table,
    depth: u64,
    walk: &Walk,
    ty: &Ty,
) -> Result<Option<u64>, AllocError>
    requires ground { length walk.now.ground.items ≡ depth }
    requires excused { length walk.now.excused.items ≡ depth }
    ensures { IfOk result (λ f. EndOutcome table.now (in_marks true depth walk.now.ground.items) (in_marks true depth walk.now.excused.items) (target_of_type (type_of ty.now)) (target_arguments (type_of ty.now)) f) }
{
    let ending = Ending {
        depth,
        ground: &walk.ground,
        excused: &walk.excused,
    };
    end_fault(alloc, table, &ending, target(ty), target_spine(ty))
}

/// Before the first subgoal.
fn begin(
    alloc: Global,
    table: &Table,
    outside: &Outside,
    scope: &Scope,
    shape: &[bool],
    ty: &Ty,
) -> Result<Walk, AllocError>
    requires head { scope.now.bound ≡ 0 }
    requires fixed { length scope.now.fixed.now ≤ scope.now.depth }
    requires outside { length outside.now.fixed.now ≤ outside.now.depth }
    requires ground { length outside.now.ground.now ≡ outside.now.depth }
    requires same { scope.now.fixed.now ≡ outside.now.fixed.now }
    requires depth { scope.now.depth ≡ outside.now.depth + quantifiers (type_of ty.now) }
    requires shape { shape.now ≡ shape_of_type (type_of ty.now) }
    ensures { IfOk result (λ w. (C : List LfType) → Stands (marks_in table.now) (ground_outside outside.now) (clause_in C outside.now (type_of ty.now)) scope.now.depth w 0) }
{
    let ground = marks_in_head(
        alloc,
        table,
        scope,
        outside.ground,
        target(ty),
        target_spine(ty),
    )?;
    let excused = excused_in_head(alloc, table, outside.depth, scope.depth, shape, ty)?;
    Ok(Walk {
        ground,
        excused,
        subgoals: 0,
    })
}

/// What needn't be ground, as far as the head tells: what stands outside, the subgoals, and what stands in a free place.
fn excused_in_head(
    alloc: Global,
    table: &Table,
    outside: u64,
    depth: u64,
    shape: &[bool],
    ty: &Ty,
) -> Result<Vec<bool>, AllocError>
    requires depth { depth ≡ outside + quantifiers (type_of ty.now) }
    requires shape { shape.now ≡ shape_of_type (type_of ty.now) }
    ensures excuses { IfOk result (λ v. (C : List LfType) (F : ℕ → Bool) → in_marks true depth v.items ≡ excused (marks_in table.now) (record { outer = C; fixed = F; type = type_of ty.now }) 0) }
    ensures len { IfOk result (λ v. length v.items ≡ depth) }
{
    let mut marks = not_variables(alloc, outside, shape)?;
    mark_free_in_head(alloc, table, depth, ty, &mut marks)?;
    Ok(marks)
}

/// Marks the variables in the free places of a head.
fn mark_free_in_head(
    alloc: Global,
    table: &Table,
    depth: u64,
    ty: &Ty,
    marks: &mut [bool],
) -> Result<(), AllocError>
    requires { length marks.old ≤ depth }
    ensures { OnOk result (marks.new ≡ marked depth (λ i. occurs_at (free_places (marks_in table.now (target_of_type (type_of ty.now)))) i (target_arguments (type_of ty.now))) marks.old) }
{
    let free = places_for(alloc, table, target(ty), Mark3::Free)?;
    mark_at(&free, target_spine(ty), depth, marks)
}

/// The marks of what stands outside a type and of its subgoals.
fn not_variables(alloc: Global, outside: u64, shape: &[bool]) -> Result<Vec<bool>, AllocError>
    ensures { IfOk result (λ v. v.items ≡ after_all outside (map not shape.now)) }
{
    let mut marks = Vec::new(alloc);
    for _ in 0..outside {
        marks.push(true)?;
    }
    for is_variable in shape {
        marks.push(!*is_variable)?;
    }
    Ok(marks)
}

/// The types of the leading quantifiers, the outermost first.
fn domains_of<'a>(alloc: Global, ty: &'a Ty) -> Result<Vec<&'a Ty>, AllocError>
    ensures { IfOk result (λ ds. map (λ d. type_of d.now) ds.items ≡ domain_types (type_of ty.now)) }
{
    let mut domains: Vec<&'a Ty> = Vec::new(alloc);
    let mut rest = ty;
    loop {
        match rest {
            Ty::Pi(domain, range) => {
                domains.push(domain)?;
                rest = range;
            }
            Ty::Atom(_, _) => return Ok(domains),
        }
    }
}

/// The first fault of the subgoals, by its argument; its subgoal is the last one that the walk has met.
#[cycle(clause)]
fn subgoals_fault(
    alloc: Global,
    sig: &Signature,
    table: &Table,
    outside: &Outside,
    scope: &Scope,
    shape: &[bool],
    ty: &Ty,
    walk: &mut Walk,
) -> Result<Option<u64>, AllocError>
    requires head { scope.now.bound ≡ 0 }
    requires fixed { length scope.now.fixed.now ≤ scope.now.depth }
    requires same { scope.now.fixed.now ≡ outside.now.fixed.now }
    requires outside { length outside.now.fixed.now ≤ outside.now.depth }
    requires depth { scope.now.depth ≡ outside.now.depth + quantifiers (type_of ty.now) }
    requires shape { shape.now ≡ shape_of_type (type_of ty.now) }
    requires fits { Fits (signature_of sig.now) (type_of ty.now) }
    requires stands { (C : List LfType) → Stands (marks_in table.now) (ground_outside outside.now) (clause_in C outside.now (type_of ty.now)) scope.now.depth walk.old 0 }
    ensures { IfOk result (λ f. SubgoalsOutcome (signature_of sig.now) table.now outside.now (type_of ty.now) scope.now.depth walk.new f) }
{
    let domains = domains_of(alloc, ty)?;
    let mut left = domains.len();
    while left > 0 {
        left -= 1;
        let is_variable = nth_test(shape, left);
        let domain = nth_domain(&domains, left);
        let inside = (domains.len() - left) as u64;
        let fault = quantifier_fault(alloc, sig, table, scope, is_variable, domain, inside, walk)?;
        if fault.is_some() {
            return Ok(fault);
        }
    }
    Ok(None)
}

/// The test at a place.
fn nth_test(tests: &[bool], place: usize) -> bool
    requires { place < length tests.now }
    ensures { result ≡ get_or tests.now place false }
{
    tests[place]
}

/// The type at a place.
fn nth_domain<'a>(domains: &[&'a Ty], place: usize) -> &'a Ty
    requires { place < length domains.now }
    ensures { type_of result.now ≡ get_or (map (λ d. type_of d.now) domains.now) place (atom 0 nil) }
{
    domains[place]
}

/// Meets a quantifier, which is no subgoal where it is a variable: the fault of a subgoal, if it has one. It stands inside as many variables.
#[cycle(clause)]
fn quantifier_fault(
    alloc: Global,
    sig: &Signature,
    table: &Table,
    scope: &Scope,
    is_variable: bool,
    domain: &Ty,
    inside: u64,
    walk: &mut Walk,
) -> Result<Option<u64>, AllocError>
    requires head { scope.now.bound ≡ 0 }
    requires fixed { length scope.now.fixed.now ≤ scope.now.depth }
    requires ground { length walk.old.ground.items ≡ scope.now.depth }
    requires excused { length walk.old.excused.items ≡ scope.now.depth }
    requires fits { Fits (signature_of sig.now) (type_of domain.now) }
    ensures { IfOk result (λ f. QuantifierOutcome (signature_of sig.now) table.now (fixed_in scope.now) scope.now.depth is_variable (rename_type (shift_by inside) (type_of domain.now)) walk.old walk.new f) }
{
    if is_variable {
        return Ok(None);
    }
    let goal = weaken(alloc, domain, inside)?;
    step(alloc, sig, table, scope, &goal, walk)
}

/// Meets a subgoal: its fault, if it has one; else its outputs become ground.
#[cycle(clause)]
fn step(
    alloc: Global,
    sig: &Signature,
    table: &Table,
    scope: &Scope,
    goal: &Ty,
    walk: &mut Walk,
) -> Result<Option<u64>, AllocError>
    requires head { scope.now.bound ≡ 0 }
    requires fixed { length scope.now.fixed.now ≤ scope.now.depth }
    requires ground { length walk.old.ground.items ≡ scope.now.depth }
    requires excused { length walk.old.excused.items ≡ scope.now.depth }
    requires fits { Fits (signature_of sig.now) (type_of goal.now) }
    ensures outcome { IfOk result (λ f. SubgoalOutcome (signature_of sig.now) table.now (fixed_in scope.now) (in_marks true scope.now.depth walk.old.ground.items) (type_of goal.now) f) }
    ensures subgoals { OnOk result (walk.new.subgoals ≡ suc walk.old.subgoals) }
    ensures ground { IfOk result (λ f. f ≡ None → in_marks true scope.now.depth walk.new.ground.items ≡ after (marks_in table.now) (fixed_in scope.now) (type_of goal.now) (in_marks true scope.now.depth walk.old.ground.items)) }
    ensures excuses { IfOk result (λ f. f ≡ None → in_marks true scope.now.depth walk.new.excused.items ≡ with_free (marks_in table.now) (type_of goal.now) (in_marks true scope.now.depth walk.old.excused.items)) }
    ensures each_ground { IfOk result (λ f. f ≡ None → length walk.new.ground.items ≡ scope.now.depth) }
    ensures each_excused { IfOk result (λ f. f ≡ None → length walk.new.excused.items ≡ scope.now.depth) }
{
    walk.subgoals = one_more(walk.subgoals)?;
    let fault = subgoal_fault(alloc, sig, table, scope, &walk.ground, goal)?;
    if fault.is_some() {
        return Ok(fault);
    }
    solve_goal(alloc, table, scope, goal, walk)?;
    Ok(None)
}

/// What a subgoal makes ground, and what it excuses.
fn solve_goal(
    alloc: Global,
    table: &Table,
    scope: &Scope,
    goal: &Ty,
    walk: &mut Walk,
) -> Result<(), AllocError>
    requires head { scope.now.bound ≡ 0 }
    requires fixed { length scope.now.fixed.now ≤ scope.now.depth }
    requires ground { length walk.old.ground.items ≡ scope.now.depth }
    requires excused { length walk.old.excused.items ≡ scope.now.depth }
    ensures subgoals { OnOk result (walk.new.subgoals ≡ walk.old.subgoals) }
    ensures ground { OnOk result (in_marks true scope.now.depth walk.new.ground.items ≡ after (marks_in table.now) (fixed_in scope.now) (type_of goal.now) (in_marks true scope.now.depth walk.old.ground.items)) }
    ensures excuses { OnOk result (in_marks true scope.now.depth walk.new.excused.items ≡ with_free (marks_in table.now) (type_of goal.now) (in_marks true scope.now.depth walk.old.excused.items)) }
    ensures each_ground { OnOk result (length walk.new.ground.items ≡ scope.now.depth) }
    ensures each_excused { OnOk result (length walk.new.excused.items ≡ scope.now.depth) }
{
    mark_outputs(alloc, table, scope, goal, &mut walk.ground)?;
    mark_free(alloc, table, scope.depth, goal, &mut walk.excused)
}

/// Marks what becomes ground after a subgoal.
fn mark_outputs(
    alloc: Global,
    table: &Table,
    scope: &Scope,
    goal: &Ty,
    ground: &mut [bool],
) -> Result<(), AllocError>
    requires head { scope.now.bound ≡ 0 }
    requires fixed { length scope.now.fixed.now ≤ scope.now.depth }
    requires marks { length ground.old ≤ scope.now.depth }
    ensures { OnOk result (in_marks true scope.now.depth ground.new ≡ after (marks_in table.now) (fixed_in scope.now) (type_of goal.now) (in_marks true scope.now.depth ground.old)) }
{
    let places = places_for(alloc, table, target(goal), Mark3::Minus)?;
    mark_strict_goal(alloc, scope, &places, goal, ground)
}

/// Marks what stands in a free place of a subgoal.
fn mark_free(
    alloc: Global,
    table: &Table,
    depth: u64,
    goal: &Ty,
    excused: &mut [bool],
) -> Result<(), AllocError>
    requires { length excused.old ≤ depth }
    ensures { OnOk result (in_marks true depth excused.new ≡ with_free (marks_in table.now) (type_of goal.now) (in_marks true depth excused.old)) }
{
    let places = places_for(alloc, table, target(goal), Mark3::Free)?;
    mark_goal(&places, goal, depth, excused)
}

/// The first fault of a subgoal, by its argument: unsound marks; a variable that isn't ground in a hypothesis' type, and in an input; a hypothesis that isn't
/// well-moded.
#[cycle(clause)]
fn subgoal_fault(
    alloc: Global,
    sig: &Signature,
    table: &Table,
    scope: &Scope,
    ground: &[bool],
    goal: &Ty,
) -> Result<Option<u64>, AllocError>
    requires fixed { length scope.now.fixed.now ≤ scope.now.depth }
    requires ground { length ground.now ≡ scope.now.depth }
    requires fits { Fits (signature_of sig.now) (type_of goal.now) }
    ensures { IfOk result (λ f. SubgoalOutcome (signature_of sig.now) table.now (fixed_in scope.now) (in_marks true scope.now.depth ground.now) (type_of goal.now) f) }
{
    let unsound = unsound_place(alloc, sig, table, target(goal))?;
    if unsound.is_some() {
        return Ok(unsound);
    }
    let needs = unground(alloc, table, scope.depth, ground, goal)?;
    if needs.is_some() {
        return Ok(needs);
    }
    if hypotheses_are_moded(alloc, sig, table, scope, ground, goal)? {
        Ok(None)
    } else {
        Ok(Some(0))
    }
}

/// The first fault of what a subgoal needs.
fn unground(
    alloc: Global,
    table: &Table,
    depth: u64,
    ground: &[bool],
    goal: &Ty,
) -> Result<Option<u64>, AllocError>
    requires { length ground.now ≤ depth }
    ensures { IfOk result (λ f. NeedsOutcome (marks_in table.now) (in_marks true depth ground.now) (type_of goal.now) f) }
{
    let allowed = Allowed {
        marks: ground,
        depth,
        bound: 0,
        other: true,
    };
    if !hypotheses_use(&allowed, goal)? {
        return Ok(Some(0));
    }
    let inputs = places_for(alloc, table, target(goal), Mark3::Plus)?;
    first_outside_goal(&allowed, &inputs, goal)
}

/// Whether each hypothesis of a subgoal whose family has a mode is well-moded.
#[cycle(clause)]
fn hypotheses_are_moded(
    alloc: Global,
    sig: &Signature,
    table: &Table,
    scope: &Scope,
    ground: &[bool],
    goal: &Ty,
) -> Result<bool, AllocError>
    requires fixed { length scope.now.fixed.now ≤ scope.now.depth }
    requires ground { length ground.now ≡ scope.now.depth }
    requires fits { Fits (signature_of sig.now) (type_of goal.now) }
    ensures { IfOk result (λ b. (C : List LfType) → Decides b (EachHypothesis (WellModedFrom (signature_of sig.now) (marks_in table.now) (moded_in table.now)) (moded_in table.now) C (fixed_in scope.now) (in_marks true scope.now.depth ground.now) (type_of goal.now))) }
{
    if let Ty::Atom(_, _) = goal {
        return Ok(true);
    }
    let mut fixed = more_marks(alloc, scope.fixed, scope.depth)?;
    let mut ground = Vec::from_slice(alloc, ground)?;
    each_hypothesis(alloc, sig, table, goal, &mut fixed, &mut ground)
}

/// The same of the quantifiers of a type, each of which is a parameter for those behind it.
#[cycle(clause)]
fn each_hypothesis(
    alloc: Global,
    sig: &Signature,
    table: &Table,
    goal: &Ty,
    fixed: &mut Vec<bool>,
    ground: &mut Vec<bool>,
) -> Result<bool, AllocError>
    requires same { length fixed.old.items ≡ length ground.old.items }
    requires fits { Fits (signature_of sig.now) (type_of goal.now) }
    ensures { IfOk result (λ b. (C : List LfType) → Decides b (EachHypothesis (WellModedFrom (signature_of sig.now) (marks_in table.now) (moded_in table.now)) (moded_in table.now) C (in_marks false (length fixed.old.items) fixed.old.items) (in_marks true (length ground.old.items) ground.old.items) (type_of goal.now))) }
{
    match goal {
        Ty::Pi(domain, range) => {
            if !is_moded(alloc, sig, table, domain, fixed, ground)? {
                return Ok(false);
            }
            fixed.push(true)?;
            ground.push(true)?;
            each_hypothesis(alloc, sig, table, range, fixed, ground)
        }
        Ty::Atom(_, _) => Ok(true),
    }
}

/// Whether a hypothesis is well-moded, if its family has a mode.
#[cycle(clause)]
fn is_moded(
    alloc: Global,
    sig: &Signature,
    table: &Table,
    domain: &Ty,
    fixed: &Vec<bool>,
    ground: &Vec<bool>,
) -> Result<bool, AllocError>
    requires same { length fixed.now.items ≡ length ground.now.items }
    requires fits { Fits (signature_of sig.now) (type_of domain.now) }
    ensures { IfOk result (λ b. (C : List LfType) → Decides b (choose (moded_in table.now (target_of_type (type_of domain.now))) (WellModedFrom (signature_of sig.now) (marks_in table.now) (moded_in table.now) (in_marks true (length ground.now.items) ground.now.items) (record { outer = C; fixed = in_marks false (length fixed.now.items) fixed.now.items; type = type_of domain.now })) (Unit {0}))) }
{
    if !table.has(target(domain)) {
        return Ok(true);
    }
    let outside = outside_of(fixed, ground);
    let fault = clause_fault(alloc, sig, table, &outside, domain)?;
    Ok(fault.is_none())
}
