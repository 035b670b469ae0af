//! What is ground at first, by the head of a clause.
ghost use Rattle.std.specs.Prelude.{◌≡◌, ◌≤◌, ◌+◌, ◌-◌, length, IfOk};
ghost use Rattle.lf.specs.Entries.{quantifiers};
ghost use Rattle.lf.specs.Variables.{nothing, target_arguments};
ghost use Rattle.lf_checks.specs.Marks.{input_places};
ghost use Rattle.lf_checks.specs.Strict.{strict_at};
ghost use Rattle.tw_signature.specs.Marks.{marked};
ghost use Rattle.tw_terms.specs.View.{spine_of, type_of};
ghost use Rattle.tw_mode.specs.Rows.{marks_in};
ghost use Rattle.tw_mode.specs.Scopes.{fixed_in};
ghost use Rattle.tw_mode.specs.Solved.{with_hidden};

use crate::places::mark_strict_at;
use crate::rows::places_for;
use crate::scope::Scope;
use crate::table::Table;
use std::alloc::{AllocError, Global};
use tw_clause::Mark3;
use tw_terms::numbers::one_more;
use tw_terms::{ConstId, Spine, Ty};

/// The marks of what stands outside, and of the variables with a strict occurrence in an input place of a head: a family and its arguments.
pub fn marks_in_head(
    alloc: Global,
    table: &Table,
    scope: &Scope,
    outer: &[bool],
    family: ConstId,
    spine: &Spine,
) -> Result<Vec<bool>, AllocError>
    requires head { scope.now.bound ≡ 0 }
    requires fixed { length scope.now.fixed.now ≤ scope.now.depth }
    requires outer { length outer.now ≤ scope.now.depth }
    ensures marks { IfOk result (λ v. v.items ≡ marked scope.now.depth (λ i. strict_at (input_places (marks_in table.now family.0)) nothing (fixed_in scope.now) i (spine_of spine.now)) (with_hidden outer.now (scope.now.depth - length outer.now))) }
    ensures len { IfOk result (λ v. length v.items ≡ scope.now.depth) }
{
    let mut ground = more_marks(alloc, outer, scope.depth)?;
    let places = places_for(alloc, table, family, Mark3::Plus)?;
    mark_strict_at(alloc, scope, &places, spine, &mut ground)?;
    Ok(ground)
}

/// These marks and then more that say no, so many in all.
pub fn more_marks(alloc: Global, outer: &[bool], depth: u64) -> Result<Vec<bool>, AllocError>
    requires { length outer.now ≤ depth }
    ensures marks { IfOk result (λ v. v.items ≡ with_hidden outer.now (depth - length outer.now)) }
    ensures len { IfOk result (λ v. length v.items ≡ depth) }
{
    let mut marks = Vec::from_slice(alloc, outer)?;
    while (marks.len() as u64) < depth {
        marks.push(false)?;
    }
    Ok(marks)
}

/// The arguments at the end of a type.
pub fn target_spine(ty: &Ty) -> &Spine
    ensures { spine_of result.now ≡ target_arguments (type_of ty.now) }
{
    match ty {
        Ty::Pi(_, range) => target_spine(range),
        Ty::Atom(_, spine) => spine,
    }
}

/// How many quantifiers lead a type. Fails where no context in memory is so long.
pub fn count_quantifiers(ty: &Ty) -> Result<u64, AllocError>
    ensures { IfOk result (λ n. n ≡ quantifiers (type_of ty.now)) }
{
    match ty {
        Ty::Pi(_, range) => one_more(count_quantifiers(range)?),
        Ty::Atom(_, _) => Ok(0),
    }
}

/// The sum of two numbers of variables. Fails where no context in memory is so long.
pub fn sum(a: u64, b: u64) -> Result<u64, AllocError>
    ensures { IfOk result (λ n. n ≡ a + b) }
{
    a.checked_add(b).ok_or(AllocError)
}
