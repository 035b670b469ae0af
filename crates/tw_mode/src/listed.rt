//! The clauses of a group, in order.
ghost use Rattle.std.specs.Prelude.{◌≡◌, ◌<◌, ◌++◌, ◌∷◌, suc, List, Some, drop, length, map, slice_get, IfOk, OnOk};
ghost use Rattle.lf.specs.Entries.{Entry as PlainEntry};
ghost use Rattle.lf.specs.Subordination.{Block as PlainBlock};
ghost use Rattle.lf_checks.specs.Clauses.{clauses_of, entry_clauses, group_clauses};
ghost use Rattle.tw_clause.specs.View.{block_of, worlds_of};
ghost use Rattle.tw_mode.specs.Listing.{entry_alone, listed_clauses};

use std::alloc::{AllocError, Global};
use tw_clause::{Block, Worlds};
use tw_signature::Signature;
use tw_terms::{ConstId, target};

/// Where a clause stands: a constant, or an entry of a block of the worlds, by the number of entries that are newer.
#[derive(Clone, Copy)]
pub enum Listed {
    Constant(ConstId),
    Entry(usize, u64),
}

/// The clauses of a group: by its families in order, the constants of each, the oldest first, and then the entries of the blocks. Fails only for want of memory.
pub fn list_group(
    alloc: Global,
    sig: &Signature,
    worlds: &Worlds,
    group: &[ConstId],
) -> Result<Vec<Listed>, AllocError>
    ensures { IfOk result (λ v. listed_clauses sig.now (worlds_of worlds.now) v.items ≡ group_clauses sig.now (worlds_of worlds.now) (map (λ f. f.0) group.now)) }
{
    let mut listed = Vec::new(alloc);
    for family in group {
        list_family(sig, worlds, *family, &mut listed)?;
    }
    Ok(listed)
}

/// Adds those of a family.
fn list_family(
    sig: &Signature,
    worlds: &Worlds,
    family: ConstId,
    listed: &mut Vec<Listed>,
) -> Result<(), AllocError>
    ensures { OnOk result (listed_clauses sig.now (worlds_of worlds.now) listed.new.items ≡ listed_clauses sig.now (worlds_of worlds.now) listed.old.items ++ clauses_of sig.now (worlds_of worlds.now) family.0) }
{
    let ids = sig.constants_of(family);
    let mut next = 0;
    while next < ids.len() {
        listed.push(Listed::Constant(nth_constant(ids, next)))?;
        next += 1;
    }
    for (number, block) in worlds.blocks.iter().enumerate() {
        list_block(block, number, family, listed)?;
    }
    Ok(())
}

/// The constant at a place.
fn nth_constant(ids: &[ConstId], place: usize) -> ConstId
    requires { place < length ids.now }
    ensures { drop place ids.now ≡ result ∷ drop (suc place) ids.now }
{
    ids[place]
}

/// Adds those of a family among the entries of a block.
fn list_block(
    block: &Block,
    number: usize,
    family: ConstId,
    listed: &mut Vec<Listed>,
) -> Result<(), AllocError>
    ensures { OnOk result ((es : List PlainEntry) (W : List PlainBlock) → slice_get W number ≡ Some (block_of block.now) → listed_clauses es W listed.new.items ≡ listed_clauses es W listed.old.items ++ entry_clauses (block_of block.now) family.0 block.now.entries) }
{
    let mut newer = block.entries.len() as u64;
    while newer > 0 {
        newer -= 1;
        list_entry(block, number, newer, family, listed)?;
    }
    Ok(())
}

/// Adds an entry, if its target is the family.
fn list_entry(
    block: &Block,
    number: usize,
    newer: u64,
    family: ConstId,
    listed: &mut Vec<Listed>,
) -> Result<(), AllocError>
    ensures { OnOk result ((es : List PlainEntry) (W : List PlainBlock) → slice_get W number ≡ Some (block_of block.now) → listed_clauses es W listed.new.items ≡ listed_clauses es W listed.old.items ++ entry_alone (block_of block.now) family.0 newer) }
{
    let Some(ty) = block.entries.get(newer) else {
        return Ok(());
    };
    if target(ty).0 != family.0 {
        return Ok(());
    }
    listed.push(Listed::Entry(number, newer))?;
    Ok(())
}
