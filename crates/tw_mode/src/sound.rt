//! Whether the marks of a family are sound: the type of an input mentions no output.
ghost use Rattle.std.specs.Prelude.{◌≡◌, ◌+◌, false, length, map, Decides, IfOk};
ghost use Rattle.lf.specs.Entries.{signature_of};
ghost use Rattle.lf.specs.Subordination.{IsDeclared};
ghost use Rattle.lf_checks.specs.Marks.{AreSound, HasSoundMarks};
ghost use Rattle.lf_checks.specs.ModeFaults.{FirstUnsound, HasUnsoundMarks};
ghost use Rattle.tw_clause.specs.View.{mark_of};
ghost use Rattle.tw_terms.specs.View.{kind_of, type_of};
ghost use Rattle.tw_mode.specs.Checks.{MayHave, Outcome};
ghost use Rattle.tw_mode.specs.Rows.{marks_in};
ghost use Rattle.tw_mode.specs.Scopes.{in_marks};

use crate::rows::{has_mark, nth_mark, past_first};
use crate::table::Table;
use crate::uses::{Allowed, uses_type};
use std::alloc::{AllocError, Global};
use tw_clause::Mark3;
use tw_signature::Signature;
use tw_terms::numbers::one_more;
use tw_terms::{ConstId, Kind, Ty};

/// The first place at which the marks of a declared family aren't sound, counted from 1, if there is one. Fails only for want of memory.
pub fn unsound_place(
    alloc: Global,
    sig: &Signature,
    table: &Table,
    family: ConstId,
) -> Result<Option<u64>, AllocError>
    requires { IsDeclared (signature_of sig.now) family.0 }
    ensures { IfOk result (λ place. Outcome (HasSoundMarks (signature_of sig.now) family.0 (marks_in table.now family.0)) (HasUnsoundMarks (signature_of sig.now) family.0 (marks_in table.now family.0)) place) }
{
    match sig.family_kind(family) {
        Some(kind) => {
            let mut usable = Vec::new(alloc);
            first_unsound(kind, table.marks(family), &mut usable)
        }
        None => unreachable!(),
    }
}

/// The same from some place of a kind on. Of the places before it, those are usable that are no outputs.
fn first_unsound(
    kind: &Kind,
    marks: &[Mark3],
    usable: &mut Vec<bool>,
) -> Result<Option<u64>, AllocError>
    ensures { IfOk result (λ place. Outcome (AreSound (in_marks false (length usable.old.items) usable.old.items) (map mark_of marks.now) (kind_of kind.now)) (FirstUnsound (length usable.old.items + 1) (in_marks false (length usable.old.items) usable.old.items) (map mark_of marks.now) (kind_of kind.now)) place) }
{
    match kind {
        Kind::Pi(domain, range) => {
            if marks.is_empty() {
                return Ok(Some(one_more(usable.len() as u64)?));
            }
            let mark = nth_mark(marks, 0);
            if !is_usable(mark, usable, domain)? {
                return Ok(Some(one_more(usable.len() as u64)?));
            }
            usable.push(!has_mark(mark, Mark3::Minus))?;
            first_unsound(range, past_first(marks), usable)
        }
        Kind::Star => {
            if marks.is_empty() {
                Ok(None)
            } else {
                Ok(Some(one_more(usable.len() as u64)?))
            }
        }
    }
}

/// Whether a place of this type may have this mark.
fn is_usable(mark: Mark3, usable: &[bool], domain: &Ty) -> Result<bool, AllocError>
    ensures { IfOk result (λ b. Decides b (MayHave (in_marks false (length usable.now) usable.now) (mark_of mark) (type_of domain.now))) }
{
    if !has_mark(mark, Mark3::Plus) {
        return Ok(true);
    }
    let allowed = Allowed {
        marks: usable,
        depth: usable.len() as u64,
        bound: 0,
        other: false,
    };
    uses_type(&allowed, domain)
}
