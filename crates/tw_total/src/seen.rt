//! The entries of blocks over which subordination is looked at.
ghost use Rattle.std.specs.Prelude.{◌≡◌, ◌++◌, IfOk, OnOk, map};
ghost use Rattle.tw_clause.specs.View.{block_of, worlds_of};
ghost use Rattle.tw_terms.specs.View.{type_of};
ghost use Rattle.tw_total.specs.Entries.{entries_of, entries_of_records};
ghost use Rattle.tw_total.specs.View.{records_of};

use crate::record::Totals;
use std::alloc::{AllocError, Global};
use tw_clause::{Block, Worlds};
use tw_subord::BlockTypes;
use tw_terms::Ty;

/// The entries of these worlds and of those of the records, as those of one block: which block has an entry doesn't matter.
pub fn entries_seen(
    alloc: Global,
    worlds: &Worlds,
    totals: &Totals,
) -> Result<BlockTypes, AllocError>
    ensures { IfOk result (λ b. map type_of b.types.items ≡ entries_of (worlds_of worlds.now) ++ entries_of_records (records_of totals.now)) }
{
    let mut types = Vec::new(alloc);
    note_worlds(alloc, worlds, &mut types)?;
    for record in &totals.records {
        note_worlds(alloc, &record.worlds, &mut types)?;
    }
    Ok(BlockTypes { types })
}

/// Adds the entries of the blocks.
fn note_worlds(alloc: Global, worlds: &Worlds, types: &mut Vec<Ty>) -> Result<(), AllocError>
    ensures { OnOk result (map type_of types.new.items ≡ map type_of types.old.items ++ entries_of (worlds_of worlds.now)) }
{
    for block in &worlds.blocks {
        note_block(alloc, block, types)?;
    }
    Ok(())
}

/// Adds the entries of a block, the innermost first.
fn note_block(alloc: Global, block: &Block, types: &mut Vec<Ty>) -> Result<(), AllocError>
    ensures { OnOk result (map type_of types.new.items ≡ map type_of types.old.items ++ (block_of block.now).entries) }
{
    for number in 0..block.entries.len() as u64 {
        let Some(entry) = block.entries.get(number) else {
            unreachable!()
        };
        types.push(entry.copy(alloc)?)?;
    }
    Ok(())
}
