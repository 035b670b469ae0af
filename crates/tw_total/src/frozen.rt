//! The families below each of a group, and those that its record freezes.
ghost use Rattle.std.specs.Prelude.{◌≡◌, ◌++◌, ◌↔◌, ℕ, IfOk, OnOk, map, Contains};
ghost use Rattle.std.specs.List.{flat_map};
ghost use Rattle.tw_clause.specs.View.{block_of, worlds_of};
ghost use Rattle.tw_subord.specs.Rows.{row};
ghost use Rattle.tw_total.specs.Entries.{below_targets, entries_of, rows_below, to_be_frozen};
ghost use Rattle.tw_total.specs.View.{below_row_of, families_of, numbers_of, order_row_of};

use std::alloc::{AllocError, Global};
use tw_clause::{Block, Order, Worlds};
use tw_subord::Subord;
use tw_terms::{ConstId, target};

/// For each family of the group those below it.
pub fn below_each(
    alloc: Global,
    subord: &Subord,
    group: &[(ConstId, Order)],
) -> Result<Vec<(ConstId, Vec<ConstId>)>, AllocError>
    ensures { IfOk result (λ v. map below_row_of v.items ≡ rows_below subord.now (families_of (map order_row_of group.now))) }
{
    let mut rows = Vec::with_capacity(alloc, group.len())?;
    for (family, _) in group {
        rows.push((*family, ids(alloc, subord.families_below(*family))?))?;
    }
    Ok(rows)
}

/// The families below one of the group, or below the target of an entry of a block, each once and in order.
pub fn frozen_by(
    alloc: Global,
    subord: &Subord,
    group: &[(ConstId, Order)],
    worlds: &Worlds,
) -> Result<Vec<ConstId>, AllocError>
    ensures { IfOk result (λ v. (b : ℕ) → (Contains (numbers_of v.items) b) ↔ Contains (to_be_frozen subord.now (families_of (map order_row_of group.now)) (worlds_of worlds.now)) b) }
{
    let mut numbers = Vec::new(alloc);
    note_group(subord, group, &mut numbers)?;
    note_worlds(subord, worlds, &mut numbers)?;
    numbers.sort_unstable();
    numbers.dedup();
    ids(alloc, &numbers)
}

/// Adds the families below each of the group.
fn note_group(
    subord: &Subord,
    group: &[(ConstId, Order)],
    numbers: &mut Vec<u64>,
) -> Result<(), AllocError>
    ensures { OnOk result (numbers.new.items ≡ numbers.old.items ++ flat_map (row subord.now) (families_of (map order_row_of group.now))) }
{
    for (family, _) in group {
        numbers.extend_from_slice(subord.families_below(*family))?;
    }
    Ok(())
}

/// Adds the families below the target of each entry of the blocks.
fn note_worlds(subord: &Subord, worlds: &Worlds, numbers: &mut Vec<u64>) -> Result<(), AllocError>
    ensures { OnOk result (numbers.new.items ≡ numbers.old.items ++ below_targets subord.now (entries_of (worlds_of worlds.now))) }
{
    for block in &worlds.blocks {
        note_block(subord, block, numbers)?;
    }
    Ok(())
}

/// Adds those below the target of each entry of a block.
fn note_block(subord: &Subord, block: &Block, numbers: &mut Vec<u64>) -> Result<(), AllocError>
    ensures { OnOk result (numbers.new.items ≡ numbers.old.items ++ below_targets subord.now (block_of block.now).entries) }
{
    for number in 0..block.entries.len() as u64 {
        let Some(entry) = block.entries.get(number) else {
            unreachable!()
        };
        numbers.extend_from_slice(subord.families_below(target(entry)))?;
    }
    Ok(())
}

/// The numbers as those of constants.
fn ids(alloc: Global, numbers: &[u64]) -> Result<Vec<ConstId>, AllocError>
    ensures { IfOk result (λ v. numbers_of v.items ≡ numbers.now) }
{
    let mut ids = Vec::with_capacity(alloc, numbers.len())?;
    for number in numbers {
        ids.push(ConstId(*number))?;
    }
    Ok(ids)
}
