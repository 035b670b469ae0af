//! The full form of a mode: marks of quantifiers, over a family on their variables.
ghost use Rattle.std.specs.Prelude.{◌≡◌, map, reverse, Some, Decides, IfOk};
ghost use Rattle.lf_checks.specs.ModeForms.{IsFullForm, argument_marks as marks_of_spine, variable_mark as mark_of_variable};
ghost use Rattle.tw_clause.specs.View.{mark_of};
ghost use Rattle.tw_terms.specs.View.{spine_of, type_of};
ghost use Rattle.tw_mode.specs.Forms.{FullFormOutcome};

use crate::head::{count_quantifiers, target_spine};
use std::alloc::{AllocError, Global};
use tw_clause::{Mark3, is_pattern, variable_at_head};
use tw_terms::{Spine, Ty};

/// The marks of a family's places, from those of the quantifiers of a reconstructed type, the first one first. There are any exactly where no quantifier is implicit, and the target's
/// arguments are the quantified variables up to eta, each of them once; a place has the mark of its variable. Takes the square of the number of arguments. Fails only for want of
/// memory.
pub fn full_marks(
    alloc: Global,
    ty: &Ty,
    implicit: u32,
    marks: &[Mark3],
) -> Result<Option<Vec<Mark3>>, AllocError>
    ensures { IfOk result (λ r. FullFormOutcome implicit (map mark_of marks.now) (type_of ty.now) r) }
{
    if implicit != 0 {
        return Ok(None);
    }
    if !is_full_form(alloc, ty)? {
        return Ok(None);
    }
    Ok(Some(argument_marks(alloc, target_spine(ty), marks)?))
}

/// Whether the target's arguments are the quantified variables up to eta, each of them once.
fn is_full_form(alloc: Global, ty: &Ty) -> Result<bool, AllocError>
    ensures { IfOk result (λ b. Decides b (IsFullForm (type_of ty.now))) }
{
    let spine = target_spine(ty);
    if spine.args.len() as u64 != count_quantifiers(ty)? {
        return Ok(false);
    }
    is_pattern(alloc, None, spine)
}

/// Of each argument the mark of its variable.
fn argument_marks(alloc: Global, spine: &Spine, marks: &[Mark3]) -> Result<Vec<Mark3>, AllocError>
    ensures { IfOk result (λ v. map mark_of v.items ≡ marks_of_spine (reverse (map mark_of marks.now)) (spine_of spine.now)) }
{
    let mut placed = Vec::with_capacity(alloc, spine.args.len())?;
    for arg in &spine.args {
        placed.push(variable_mark(variable_at_head(arg)?, marks))?;
    }
    Ok(placed)
}

/// The mark of a variable, where the outermost one has the first mark.
fn variable_mark(variable: Option<u64>, marks: &[Mark3]) -> Mark3
    ensures { mark_of result ≡ mark_of_variable (reverse (map mark_of marks.now)) variable }
{
    match variable {
        Some(newer) => mark_counted(marks, newer),
        None => Mark3::Free,
    }
}

/// The mark that has so many behind it.
fn mark_counted(marks: &[Mark3], newer: u64) -> Mark3
    ensures { mark_of result ≡ mark_of_variable (reverse (map mark_of marks.now)) (Some newer) }
{
    if newer >= marks.len() as u64 {
        return Mark3::Free;
    }
    marks[marks.len() - 1 - newer as usize]
}
