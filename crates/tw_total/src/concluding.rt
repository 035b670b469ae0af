//! The record of a group whose checks have passed.
ghost use Rattle.std.specs.Prelude.{◌≡◌, IfOk, map};
ghost use Rattle.lf.specs.Entries.{signature_of};
ghost use Rattle.lf.specs.Subordination.{Member};
ghost use Rattle.lf_checks.specs.ModeRows.{marks_of};
ghost use Rattle.lf_totality.specs.Group.{Checked, GroupChecked, IsRight};
ghost use Rattle.lf_totality.specs.Record.{AreBelow, IsRecordOf};
ghost use Rattle.tw_clause.specs.Tables.{mode_rows_of};
ghost use Rattle.tw_clause.specs.View.{worlds_of};
ghost use Rattle.tw_total.specs.Passed.{HavePassed};
ghost use Rattle.tw_total.specs.View.{checked_of, families_of, numbers_of, order_for, order_row_of, records_of};

use crate::frozen::{below_each, frozen_by};
use crate::record::{TotalRecord, Totals};
use crate::seen::entries_seen;
use std::alloc::{AllocError, Global};
use tw_clause::{Modes, Order, Worlds};
use tw_signature::Signature;
use tw_subord::Subord;
use tw_terms::ConstId;

/// The record of a group whose checks have passed, beside the records made before: each of its families is total in every context of its worlds, and
/// lasts. Makes subordination anew over the signature, the worlds and those of the records. Fails only for want of memory.
pub fn conclude(
    alloc: Global,
    signature: &Signature,
    group: &[(ConstId, Order)],
    modes: &Modes,
    worlds: &Worlds,
    totals: &Totals,
) -> Result<TotalRecord, AllocError>
    requires passed { HavePassed (signature_of signature.now) (map order_row_of group.now) (marks_of (mode_rows_of modes.now)) (worlds_of worlds.now) (records_of totals.now) }
    requires below { AreBelow (signature_of signature.now) (records_of totals.now) }
    ensures record { IfOk result (λ r. IsRecordOf (signature_of signature.now) (families_of (map order_row_of group.now)) (marks_of (mode_rows_of modes.now)) (worlds_of worlds.now) (records_of totals.now) (checked_of r)) }
    ensures checked { IfOk result (λ r. GroupChecked (signature_of signature.now) (checked_of r) (order_for (map order_row_of group.now)) (records_of totals.now)) }
    ensures right { IfOk result (λ r. ((Q : Checked) → Member Q (records_of totals.now) → IsRight (signature_of signature.now) Q) → IsRight (signature_of signature.now) (checked_of r)) }
    ensures order { IfOk result (λ r. map order_row_of r.order.items ≡ map order_row_of group.now) }
{
    signature.is_canonical();
    let mut blocks = Vec::new(alloc);
    blocks.push(entries_seen(alloc, worlds, totals)?)?;
    let subord = Subord::of(alloc, signature, &blocks)?;
    let below = below_each(alloc, &subord, group)?;
    let frozen = frozen_by(alloc, &subord, group, worlds)?;
    Ok(TotalRecord {
        families: families(alloc, group)?,
        modes: modes.copy(alloc)?,
        worlds: worlds.copy(alloc)?,
        below,
        frozen,
        order: copy_group(alloc, group)?,
    })
}

/// The families of a group.
fn families(alloc: Global, group: &[(ConstId, Order)]) -> Result<Vec<ConstId>, AllocError>
    ensures { IfOk result (λ v. numbers_of v.items ≡ families_of (map order_row_of group.now)) }
{
    let mut families = Vec::with_capacity(alloc, group.len())?;
    for (family, _) in group {
        families.push(*family)?;
    }
    Ok(families)
}

/// An equal group.
fn copy_group(
    alloc: Global,
    group: &[(ConstId, Order)],
) -> Result<Vec<(ConstId, Order)>, AllocError>
    ensures { IfOk result (λ v. map order_row_of v.items ≡ map order_row_of group.now) }
{
    let mut copies = Vec::with_capacity(alloc, group.len())?;
    for (family, order) in group {
        copies.push((*family, order.copy(alloc)?))?;
    }
    Ok(copies)
}
