//! The places of families with a mark.
ghost use Rattle.std.specs.Prelude.{◌≡◌, ◌<◌, ◌∷◌, suc, drop, length, map, IfOk};
ghost use Rattle.tw_clause.specs.View.{mark_of};
ghost use Rattle.tw_mode.specs.Rows.{is_with, marks_in, places_with};

use crate::table::Table;
use std::alloc::{AllocError, Global};
use tw_clause::Mark3;
use tw_terms::ConstId;

/// Which of a family's places have this mark.
pub fn places_for(
    alloc: Global,
    table: &Table,
    family: ConstId,
    wanted: Mark3,
) -> Result<Vec<bool>, AllocError>
    ensures { IfOk result (λ v. v.items ≡ places_with wanted (marks_in table.now family.0)) }
{
    places(alloc, table.marks(family), wanted)
}

/// Which of the places have this mark.
fn places(alloc: Global, marks: &[Mark3], wanted: Mark3) -> Result<Vec<bool>, AllocError>
    ensures { IfOk result (λ v. v.items ≡ places_with wanted (map mark_of marks.now)) }
{
    let mut chosen = Vec::with_capacity(alloc, marks.len())?;
    for mark in marks {
        chosen.push(has_mark(*mark, wanted))?;
    }
    Ok(chosen)
}

/// Whether a mark is this one.
pub fn has_mark(mark: Mark3, wanted: Mark3) -> bool
    ensures { result ≡ is_with wanted (mark_of mark) }
{
    match (mark, wanted) {
        (Mark3::Plus, Mark3::Plus) | (Mark3::Minus, Mark3::Minus) | (Mark3::Free, Mark3::Free) =>
            true,
        _ => false,
    }
}

/// The marks past the first one.
pub fn past_first(marks: &[Mark3]) -> &[Mark3]
    requires { 0 < length marks.now }
    ensures { result.now ≡ drop 1 marks.now }
{
    &marks[1..]
}

/// The mark of a place.
pub fn nth_mark(marks: &[Mark3], place: usize) -> Mark3
    requires { place < length marks.now }
    ensures { map mark_of (drop place marks.now) ≡ mark_of result ∷ map mark_of (drop (suc place) marks.now) }
{
    marks[place]
}
