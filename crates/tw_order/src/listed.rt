//! The clauses of a group, in order.
ghost use Rattle.std.specs.Prelude.{◌≡◌, ◌<◌, ◌++◌, ◌∷◌, [], suc, Some, cond, drop, length, map, slice_get, IfOk, OnOk};
ghost use Rattle.lf.specs.Constants.{constants_of as constants_of_family};
ghost use Rattle.lf.specs.Entries.{signature_of};
ghost use Rattle.lf.specs.Syntax.{LfType};
ghost use Rattle.lf.specs.Variables.{onto, same_number, target as target_of_type};
ghost use Rattle.lf_checks.specs.Clauses.{block_clauses, constant_clauses, entry_clauses, group_clauses, named_entry, with_constant};
ghost use Rattle.tw_clause.specs.View.{block_of, worlds_of};
ghost use Rattle.tw_terms.specs.View.{type_of};
ghost use Rattle.tw_order.specs.Listing.{named_of};
ghost use Rattle.tw_order.specs.Rows.{families_of};

use std::alloc::{AllocError, Global};
use tw_clause::{Block, ClauseName, Order, Worlds};
use tw_signature::Signature;
use tw_terms::{ConstId, Context, Ty, target};

/// A clause with its name and with what stands outside it, of which the newest variables are so many entries of a block.
#[derive(Drop)]
pub struct Listed<'a> {
    pub name: ClauseName,
    pub outer: Context,
    pub entries: u64,
    pub ty: &'a Ty,
}

/// The clauses of a group: by its families in order, the constants of each, the oldest first, and then the entries of the blocks. Fails only for want of memory.
pub fn list_group<'a>(
    alloc: Global,
    sig: &'a Signature,
    worlds: &'a Worlds,
    group: &[(ConstId, Order)],
) -> Result<Vec<Listed<'a>>, AllocError>
    ensures { IfOk result (λ v. map named_of v.items ≡ group_clauses sig.now (worlds_of worlds.now) (families_of group.now)) }
{
    let mut listed = Vec::new(alloc);
    for row in group {
        list_constants(alloc, sig, row.0, &mut listed)?;
        list_blocks(alloc, worlds, row.0, &mut listed)?;
    }
    Ok(listed)
}

/// Adds the constants of a family.
fn list_constants<'a>(
    alloc: Global,
    sig: &'a Signature,
    family: ConstId,
    listed: &mut Vec<Listed<'a>>,
) -> Result<(), AllocError>
    ensures { OnOk result (map named_of listed.new.items ≡ map named_of listed.old.items ++ constant_clauses (signature_of sig.now).types (constants_of_family sig.now family.0)) }
{
    let ids = sig.constants_of(family);
    for id in ids {
        list_constant(alloc, sig, *id, listed)?;
    }
    Ok(())
}

/// Adds a constant.
fn list_constant<'a>(
    alloc: Global,
    sig: &'a Signature,
    id: ConstId,
    listed: &mut Vec<Listed<'a>>,
) -> Result<(), AllocError>
    ensures { OnOk result (map named_of listed.new.items ≡ map named_of listed.old.items ++ with_constant id.0 ((signature_of sig.now).types id.0) []) }
{
    let Some(ty) = sig.constant_type(id) else {
        return Ok(());
    };
    listed.push(Listed {
        name: ClauseName::Constant(id),
        outer: Context::new(alloc),
        entries: 0,
        ty,
    })?;
    Ok(())
}

/// Adds the entries of all blocks that are clauses of a family.
fn list_blocks<'a>(
    alloc: Global,
    worlds: &'a Worlds,
    family: ConstId,
    listed: &mut Vec<Listed<'a>>,
) -> Result<(), AllocError>
    ensures { OnOk result (map named_of listed.new.items ≡ map named_of listed.old.items ++ block_clauses (worlds_of worlds.now) family.0) }
{
    for block in &worlds.blocks {
        list_block(alloc, block, family, listed)?;
    }
    Ok(())
}

/// Adds those of one block.
fn list_block<'a>(
    alloc: Global,
    block: &'a Block,
    family: ConstId,
    listed: &mut Vec<Listed<'a>>,
) -> Result<(), AllocError>
    ensures { OnOk result (map named_of listed.new.items ≡ map named_of listed.old.items ++ entry_clauses (block_of block.now) family.0 block.now.entries) }
{
    let mut outer = block.some.copy(alloc)?;
    let mut newer = block.entries.len() as u64;
    while newer > 0 {
        newer -= 1;
        list_entry(alloc, block, newer, family, &mut outer, listed)?;
    }
    Ok(())
}

/// Adds the entry that has so many newer ones, if it is a clause of the family, and puts it behind the entries before it.
fn list_entry<'a>(
    alloc: Global,
    block: &'a Block,
    newer: u64,
    family: ConstId,
    outer: &mut Context,
    listed: &mut Vec<Listed<'a>>,
) -> Result<(), AllocError>
    requires within { newer < length block.now.entries }
    requires outer { outer.old ≡ onto (drop (suc newer) block.now.entries) block.now.some }
    ensures outer { OnOk result (outer.new ≡ onto (drop newer block.now.entries) block.now.some) }
    ensures listed { OnOk result ((E : LfType) → slice_get block.now.entries newer ≡ Some E → map named_of listed.new.items ≡ map named_of listed.old.items ++ cond (same_number (target_of_type E) family.0) (named_entry (block_of block.now) (drop (suc newer) block.now.entries) E ∷ []) []) }
{
    let Some(ty) = block.entries.get(newer) else {
        unreachable!()
    };
    if target(ty).0 == family.0 {
        listed.push(entry(alloc, block, newer, outer, ty)?)?;
    }
    outer.push(ty.copy(alloc)?)?;
    Ok(())
}

/// The entry that has so many newer ones, where this stands outside it.
fn entry<'a>(
    alloc: Global,
    block: &Block,
    newer: u64,
    outer: &Context,
    ty: &'a Ty,
) -> Result<Listed<'a>, AllocError>
    requires within { newer < length block.now.entries }
    requires outer { outer.now ≡ onto (drop (suc newer) block.now.entries) block.now.some }
    ensures { IfOk result (λ x. named_of x ≡ named_entry (block_of block.now) (drop (suc newer) block.now.entries) (type_of ty.now)) }
{
    let number = block.entries.len() as u64 - newer;
    Ok(Listed {
        name: ClauseName::BlockEntry(block.label.copy(alloc)?, number),
        outer: outer.copy(alloc)?,
        entries: number - 1,
        ty,
    })
}
