//! The check of worlds of a group.
ghost use Rattle.std.specs.Prelude.{◌≡◌, ◌<◌, ◌∷◌, [], suc, Some, cond, drop, length, map, slice_get};
ghost use Rattle.lf.specs.Entries.{signature_of};
ghost use Rattle.lf.specs.Subordination.{AreTypedBlocks, IsTypedBlock};
ghost use Rattle.lf.specs.Syntax.{LfType};
ghost use Rattle.lf.specs.Variables.{onto, same_number, target as target_of_type};
ghost use Rattle.lf_checks.specs.Clauses.{block_clauses, clauses_of, constant_clauses, entry_clauses, group_clauses, named_entry, with_constant};
ghost use Rattle.tw_clause.specs.Tables.{world_rows_of};
ghost use Rattle.tw_clause.specs.View.{block_of, worlds_of};
ghost use Rattle.tw_world.specs.Checks.{Checked, HasTypedBlocks};
ghost use Rattle.tw_world.specs.Outcomes.{WorldOutcome};
ghost use Rattle.tw_world.specs.Serving.{below_in};

use crate::clause::clause_fault;
use crate::fault::WorldFault;
use crate::table::push_type;
use std::alloc::Global;
use tw_clause::{Block, ClauseName, WorldRows, Worlds};
use tw_signature::Signature;
use tw_subord::Subord;
use tw_terms::{ConstId, Context, target};

/// What a check of worlds is over: the signature, subordination, the worlds of families, the group, and the worlds of the group.
#[derive(Clone, Copy)]
pub struct Check<'a> {
    pub sig: &'a Signature,
    pub subord: &'a Subord,
    pub rows: &'a WorldRows,
    pub group: &'a [ConstId],
    pub worlds: &'a Worlds,
}

/// Whether each clause of a group is well-worlded in these worlds, over the given subordination and the worlds of families. The clauses are those of the signature and of the entries of the worlds.
/// Else the first clause with a subgoal that doesn't pass, and in it the first such subgoal in solving order. Answers `TooDeep` where all pass before a subgoal that is left open, since `subgoal_is_worlded`
/// goes too deep there. Takes, for each subgoal, what that call does.
pub fn check_worlds(
    alloc: Global,
    sig: &Signature,
    subord: &Subord,
    rows: &WorldRows,
    group: &[ConstId],
    worlds: &Worlds,
) -> Result<(), WorldFault>
    requires { AreTypedBlocks (signature_of sig.now) (worlds_of worlds.now) }
    ensures { WorldOutcome sig.now (world_rows_of rows.now) (map (λ f. f.0) group.now) (below_in subord.now) (worlds_of worlds.now) result }
{
    let check = Check {
        sig,
        subord,
        rows,
        group,
        worlds,
    };
    check_families(alloc, &check, group)
}

/// The same of some families, in order.
fn check_families(alloc: Global, check: &Check, families: &[ConstId]) -> Result<(), WorldFault>
    requires { HasTypedBlocks check.now }
    ensures { Checked check.now (group_clauses check.now.sig.now (worlds_of check.now.worlds.now) (map (λ f. f.0) families.now)) result }
{
    for family in families {
        check_family(alloc, check, *family)?;
    }
    Ok(())
}

/// The same of the clauses of a family: its constants, the oldest first, and then the entries of the blocks.
fn check_family(alloc: Global, check: &Check, family: ConstId) -> Result<(), WorldFault>
    requires { HasTypedBlocks check.now }
    ensures { Checked check.now (clauses_of check.now.sig.now (worlds_of check.now.worlds.now) family.0) result }
{
    check_constants(alloc, check, check.sig.constants_of(family))?;
    check_blocks(alloc, check, &check.worlds.blocks, family)
}

/// The same of some constants.
fn check_constants(alloc: Global, check: &Check, ids: &[ConstId]) -> Result<(), WorldFault>
    requires { HasTypedBlocks check.now }
    ensures { Checked check.now (constant_clauses (signature_of check.now.sig.now).types (map (λ c. c.0) ids.now)) result }
{
    for id in ids {
        check_constant(alloc, check, *id)?;
    }
    Ok(())
}

/// The same of a constant.
fn check_constant(alloc: Global, check: &Check, id: ConstId) -> Result<(), WorldFault>
    requires { HasTypedBlocks check.now }
    ensures { Checked check.now (with_constant id.0 ((signature_of check.now.sig.now).types id.0) []) result }
{
    let Some(ty) = check.sig.constant_type(id) else {
        return Ok(());
    };
    check.sig.is_canonical();
    match clause_fault(alloc, check, &Context::new(alloc), ty)? {
        Some(subgoal) => Err(WorldFault::Fault {
            clause: ClauseName::Constant(id),
            subgoal,
        }),
        None => Ok(()),
    }
}

/// The same of the entries of some blocks that are clauses of a family.
fn check_blocks(
    alloc: Global,
    check: &Check,
    blocks: &[Block],
    family: ConstId,
) -> Result<(), WorldFault>
    requires blocks { HasTypedBlocks check.now }
    requires typed { AreTypedBlocks (signature_of check.now.sig.now) (map block_of blocks.now) }
    ensures { Checked check.now (block_clauses (map block_of blocks.now) family.0) result }
{
    for block in blocks {
        check_block(alloc, check, block, family)?;
    }
    Ok(())
}

/// The same of those of one block, the oldest first.
fn check_block(
    alloc: Global,
    check: &Check,
    block: &Block,
    family: ConstId,
) -> Result<(), WorldFault>
    requires blocks { HasTypedBlocks check.now }
    requires block { IsTypedBlock (signature_of check.now.sig.now) (block_of block.now) }
    ensures { Checked check.now (entry_clauses (block_of block.now) family.0 block.now.entries) result }
{
    let mut outer = block.some.copy(alloc)?;
    let mut newer = block.entries.len() as u64;
    while newer > 0 {
        newer -= 1;
        check_entry(alloc, check, block, newer, family, &outer)?;
        push_type(alloc, &mut outer, &block.entries, newer)?;
    }
    Ok(())
}

/// The same of the entry that has so many newer ones, if it is a clause of the family.
fn check_entry(
    alloc: Global,
    check: &Check,
    block: &Block,
    newer: u64,
    family: ConstId,
    outer: &Context,
) -> Result<(), WorldFault>
    requires blocks { HasTypedBlocks check.now }
    requires block { IsTypedBlock (signature_of check.now.sig.now) (block_of block.now) }
    requires within { newer < length block.now.entries }
    requires outer { outer.now ≡ onto (drop (suc newer) block.now.entries) block.now.some }
    ensures { (E : LfType) → slice_get block.now.entries newer ≡ Some E → Checked check.now (cond (same_number (target_of_type E) family.0) (named_entry (block_of block.now) (drop (suc newer) block.now.entries) E ∷ []) []) result }
{
    let Some(ty) = block.entries.get(newer) else {
        unreachable!()
    };
    if target(ty).0 != family.0 {
        return Ok(());
    }
    check.sig.is_canonical();
    match clause_fault(alloc, check, outer, ty)? {
        Some(subgoal) => Err(WorldFault::Fault {
            clause: ClauseName::BlockEntry(
                block.label.copy(alloc)?,
                block.entries.len() as u64 - newer,
            ),
            subgoal,
        }),
        None => Ok(()),
    }
}
