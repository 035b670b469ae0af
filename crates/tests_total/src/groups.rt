//! The groups of these tests, and their records.
ghost use Rattle.std.specs.Prelude.{◌≡◌, [], ◌∷◌, IfOk, map};
ghost use Rattle.lf_totality.specs.Group.{Checked};
ghost use Rattle.tests_total.specs.Declared.{declared, t_type};
ghost use Rattle.tests_total.specs.Groups.{IsFirst, block_named, group_of, mode_rows};
ghost use Rattle.tw_clause.specs.Tables.{mode_rows_of};
ghost use Rattle.tw_clause.specs.View.{worlds_of};
ghost use Rattle.tw_terms.specs.View.{type_of};
ghost use Rattle.tw_total.specs.View.{checked_of, order_row_of, records_of};

use std::alloc::{AllocError, Global};
use tw_clause::{Block, Mark3, Modes, Order, Worlds};
use tw_fixity::Name;
use tw_signature::Signature;
use tw_terms::{ConstId, Context, Spine, Ty};
use tw_total::{TotalRecord, Totals, conclude};

/// The record of ok, in the worlds of b, beside no others.
pub(crate) fn first_record(alloc: Global, signature: &Signature) -> Result<TotalRecord, AllocError>
    requires { signature.now ≡ declared }
    ensures { IfOk result (λ r. IsFirst (checked_of r)) }
{
    let group = group(alloc, 3)?;
    let modes = modes(alloc)?;
    let worlds = worlds(alloc, "b")?;
    let totals = Totals {
        records: Vec::new(alloc),
    };
    let record = conclude(alloc, signature, &group, &modes, &worlds, &totals)?;
    Ok(record)
}

/// The record of yes, in the worlds of d, beside the record of ok.
pub(crate) fn second_record(
    alloc: Global,
    signature: &Signature,
    totals: &Totals,
) -> Result<TotalRecord, AllocError>
    requires declared { signature.now ≡ declared }
    requires first { (Q : Checked) × IsFirst Q × (records_of totals.now ≡ Q ∷ []) }
{
    let group = group(alloc, 5)?;
    let modes = modes(alloc)?;
    let worlds = worlds(alloc, "d")?;
    conclude(alloc, signature, &group, &modes, &worlds, totals)
}

/// A group of one family, by its argument.
fn group(alloc: Global, family: u64) -> Result<Vec<(ConstId, Order)>, AllocError>
    ensures { IfOk result (λ v. map order_row_of v.items ≡ group_of family) }
{
    let mut group = Vec::new(alloc);
    group.push((ConstId(family), Order::Arg(1)))?;
    Ok(group)
}

/// ok +X. yes +X.
fn modes(alloc: Global) -> Result<Modes, AllocError>
    ensures { IfOk result (λ m. mode_rows_of m ≡ mode_rows) }
{
    let mut rows = Vec::new(alloc);
    rows.push((ConstId(3), input(alloc)?))?;
    rows.push((ConstId(5), input(alloc)?))?;
    Ok(Modes { rows })
}

/// The marks of a family with one input.
fn input(alloc: Global) -> Result<Vec<Mark3>, AllocError>
    ensures { IfOk result (λ v. v.items ≡ Mark3.Plus ∷ []) }
{
    let mut marks = Vec::new(alloc);
    marks.push(Mark3::Plus)?;
    Ok(marks)
}

/// The worlds of a block {u:t}.
fn worlds(alloc: Global, label: &str) -> Result<Worlds, AllocError>
    ensures { IfOk result (λ w. worlds_of w ≡ record { label = label.now; some = []; entries = t_type ∷ [] } ∷ []) }
{
    let mut entries = Context::new(alloc);
    entries.push(t_type(alloc))?;
    let mut blocks = Vec::new(alloc);
    blocks.push(Block {
        label: Name::from_text(alloc, label)?,
        some: Context::new(alloc),
        entries,
    })?;
    Ok(Worlds { blocks })
}

/// The type t.
fn t_type(alloc: Global) -> Ty
    ensures { type_of result ≡ t_type }
{
    Ty::Atom(
        ConstId(2),
        Spine {
            args: Vec::new(alloc),
        },
    )
}
