//! The blocks of the worlds of several families, each once.
ghost use Rattle.std.specs.Prelude.{◌∷◌, [], map, IfOk, OnOk};
ghost use Rattle.lf_checks.specs.OrderFaults.{AreJoined};
ghost use Rattle.tw_clause.specs.Tables.{world_rows_of};
ghost use Rattle.tw_clause.specs.View.{block_of, worlds_of};
ghost use Rattle.tw_world.specs.Joined.{TakesIn};

use crate::serving::{is_one_of, known_worlds};
use std::alloc::{AllocError, Global};
use tw_clause::{Block, WorldRows, Worlds};
use tw_terms::ConstId;

/// The blocks of all worlds of these families, those of the first family first, each at its first place only; a family without worlds adds none. Compares each block with those before it. Fails only for
/// want of memory.
pub fn joined_worlds(
    alloc: Global,
    rows: &WorldRows,
    families: &[ConstId],
) -> Result<Worlds, AllocError>
    ensures { IfOk result (λ w. AreJoined (world_rows_of rows.now) (map (λ f. f.0) families.now) (worlds_of w)) }
{
    let mut joined = Worlds {
        blocks: Vec::new(alloc),
    };
    for family in families {
        if let Some(worlds) = known_worlds(rows, *family) {
            take_in(alloc, &mut joined, &worlds.blocks)?;
        }
    }
    Ok(joined)
}

/// Puts blocks behind those that stand, each that isn't there yet.
fn take_in(alloc: Global, joined: &mut Worlds, blocks: &[Block]) -> Result<(), AllocError>
    ensures { OnOk result (TakesIn (worlds_of joined.old) (map block_of blocks.now) (worlds_of joined.new)) }
{
    for block in blocks {
        take_one(alloc, joined, block)?;
    }
    Ok(())
}

/// Puts a block behind those that stand, if it isn't there yet.
fn take_one(alloc: Global, joined: &mut Worlds, block: &Block) -> Result<(), AllocError>
    ensures { OnOk result (TakesIn (worlds_of joined.old) (block_of block.now ∷ []) (worlds_of joined.new)) }
{
    if is_one_of(block, joined) {
        return Ok(());
    }
    let copy = block.copy(alloc)?;
    joined.blocks.push(copy)?;
    Ok(())
}
