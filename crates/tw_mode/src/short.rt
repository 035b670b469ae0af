//! The short form of a mode: the marks of the explicit places, completed by those of the implicit ones.
ghost use Rattle.std.specs.Prelude.{◌≡◌, ◌≤◌, ◌∷◌, zero, length, map, IfOk, OnOk};
ghost use Rattle.lf_unification.specs.Search.{occurs_type};
ghost use Rattle.lf_checks.specs.ModeForms.{completed_marks, implicit_mark as mark_of_implicit, occurs_in_types};
ghost use Rattle.lf_checks.specs.Tests.{both};
ghost use Rattle.tw_signature.specs.Marks.{marked};
ghost use Rattle.tw_clause.specs.View.{mark_of};
ghost use Rattle.tw_terms.specs.View.{kind_of, type_of};
ghost use Rattle.tw_mode.specs.Rows.{places_with};

use crate::mentions::mark_type;
use crate::rows::{has_mark, nth_mark, past_first};
use std::alloc::{AllocError, Global};
use tw_clause::Mark3;
use tw_terms::numbers::one_more;
use tw_terms::{Kind, Ty};

/// The marks of all places of a family of this kind, from those of its explicit ones. So many implicit places come before these: from the last to the first, a place is `+` where it
/// occurs in the type of a `+` place behind it, else `*` where it occurs in that of a `*` place, else `-`. Goes through the kind once or twice for each implicit place. Fails only for
/// want of memory.
pub fn short_marks(
    alloc: Global,
    kind: &Kind,
    implicit: u32,
    explicit: &[Mark3],
) -> Result<Vec<Mark3>, AllocError>
    ensures { IfOk result (λ v. map mark_of v.items ≡ completed_marks implicit (map mark_of explicit.now) (kind_of kind.now)) }
{
    if implicit == 0 {
        return Vec::from_slice(alloc, explicit);
    }
    match kind {
        Kind::Pi(_, range) => {
            let rest = short_marks(alloc, range, implicit - 1, explicit)?;
            with_first(implicit_mark(&rest, range)?, rest)
        }
        Kind::Star => Vec::from_slice(alloc, explicit),
    }
}

/// The marks, behind one more.
fn with_first(mark: Mark3, marks: Vec<Mark3>) -> Result<Vec<Mark3>, AllocError>
    ensures { IfOk result (λ v. v.items ≡ mark ∷ marks.items) }
{
    let mut all = marks;
    all.insert(0, mark)?;
    Ok(all)
}

/// The mark of an implicit place, where those behind it have these marks in this kind.
fn implicit_mark(marks: &[Mark3], range: &Kind) -> Result<Mark3, AllocError>
    ensures { IfOk result (λ m. mark_of m ≡ mark_of_implicit (map mark_of marks.now) (kind_of range.now)) }
{
    if occurs_for(Mark3::Plus, marks, range)? {
        return Ok(Mark3::Plus);
    }
    if occurs_for(Mark3::Free, marks, range)? {
        return Ok(Mark3::Free);
    }
    Ok(Mark3::Minus)
}

/// Whether the place before occurs in the type of one with this mark.
fn occurs_for(wanted: Mark3, marks: &[Mark3], range: &Kind) -> Result<bool, AllocError>
    ensures { IfOk result (λ b. b ≡ occurs_in_types (places_with wanted (map mark_of marks.now)) zero (kind_of range.now)) }
{
    let mut seen = [false];
    mark_types(wanted, marks, range, 1, &mut seen)?;
    Ok(seen[0])
}

/// Marks the variables that occur in the type of a place with this mark. Fails where no context in memory is so long.
fn mark_types(
    wanted: Mark3,
    marks: &[Mark3],
    kind: &Kind,
    depth: u64,
    seen: &mut [bool],
) -> Result<(), AllocError>
    requires { length seen.old ≤ depth }
    ensures { OnOk result (seen.new ≡ marked depth (λ i. occurs_in_types (places_with wanted (map mark_of marks.now)) i (kind_of kind.now)) seen.old) }
{
    match kind {
        Kind::Pi(domain, range) => {
            if marks.is_empty() {
                return Ok(());
            }
            let inside = one_more(depth)?;
            mark_type_if(has_mark(nth_mark(marks, 0), wanted), domain, depth, seen)?;
            mark_types(wanted, past_first(marks), range, inside, seen)
        }
        Kind::Star => Ok(()),
    }
}

/// Marks the variables that occur in a type, if it is chosen.
fn mark_type_if(chosen: bool, ty: &Ty, depth: u64, seen: &mut [bool]) -> Result<(), AllocError>
    requires { length seen.old ≤ depth }
    ensures { OnOk result (seen.new ≡ marked depth (λ i. both chosen (occurs_type i (type_of ty.now))) seen.old) }
{
    if chosen {
        mark_type(ty, depth, seen)
    } else {
        Ok(())
    }
}
