//! Blocks, contexts and types that are typed, and the types of blocks.
ghost use Rattle.std.specs.Prelude.{◌≡◌, ◌∷◌, Some, slice_get, IfOk, OnOk};
ghost use Rattle.std.specs.Bool.{OnTrue};
ghost use Rattle.lf.specs.Entries.{signature_of};
ghost use Rattle.lf.specs.Subordination.{AreTypedBlocks, IsTypedBlock};
ghost use Rattle.lf.specs.Syntax.{LfType};
ghost use Rattle.lf.specs.Typing.{IsContext, IsType};
ghost use Rattle.lf.specs.Variables.{onto};
ghost use Rattle.tw_clause.specs.View.{block_of, worlds_of};
ghost use Rattle.tw_terms.specs.View.{type_of};

use crate::reading::read_worlds;
use std::alloc::{AllocError, Global};
use tests_forms::{Case, FormFault, Names};
use tw_clause::{Block, Worlds};
use tw_kernel::{Verdict, check_context, check_type};
use tw_signature::Signature;
use tw_subord::BlockTypes;
use tw_terms::{Context, Ty};

/// The blocks of a case, where each is typed.
pub(crate) fn typed_worlds(
    alloc: Global,
    signature: &Signature,
    names: &mut Names,
    case: &Case,
) -> Result<Worlds, FormFault>
    ensures { IfOk result (λ w. AreTypedBlocks (signature_of signature.now) (worlds_of w)) }
{
    let worlds = read_worlds(alloc, names, case)?;
    if are_typed(alloc, signature, &worlds)? {
        Ok(worlds)
    } else {
        Err(FormFault::NoMeaning)
    }
}

/// Whether each block is typed.
fn are_typed(alloc: Global, signature: &Signature, worlds: &Worlds) -> Result<bool, AllocError>
    ensures { IfOk result (λ b. OnTrue b (AreTypedBlocks (signature_of signature.now) (worlds_of worlds.now))) }
{
    for block in &worlds.blocks {
        if !is_typed(alloc, signature, block)? {
            return Ok(false);
        }
    }
    Ok(true)
}

/// Whether the `some` variables and the entries of a block are a context.
fn is_typed(alloc: Global, signature: &Signature, block: &Block) -> Result<bool, AllocError>
    ensures { IfOk result (λ b. OnTrue b (IsTypedBlock (signature_of signature.now) (block_of block.now))) }
{
    let context = whole(alloc, block)?;
    is_context(alloc, signature, &context)
}

/// Whether the types are a context.
pub(crate) fn is_context(
    alloc: Global,
    signature: &Signature,
    context: &Context,
) -> Result<bool, AllocError>
    ensures { IfOk result (λ b. OnTrue b (IsContext (signature_of signature.now) context.now)) }
{
    let verdict = check_context(alloc, signature, context)?;
    Ok(matches!(verdict, Verdict::Typed))
}

/// Whether the type is one in this context.
pub(crate) fn is_type(
    alloc: Global,
    signature: &Signature,
    context: &Context,
    ty: &Ty,
) -> Result<bool, AllocError>
    requires { IsContext (signature_of signature.now) context.now }
    ensures { IfOk result (λ b. OnTrue b (IsType (signature_of signature.now) context.now (type_of ty.now))) }
{
    let verdict = check_type(alloc, signature, context, ty)?;
    Ok(matches!(verdict, Verdict::Typed))
}

/// The `some` variables and then the entries.
fn whole(alloc: Global, block: &Block) -> Result<Context, AllocError>
    ensures { IfOk result (λ g. g ≡ onto block.now.entries block.now.some) }
{
    let mut context = block.some.copy(alloc)?;
    let mut left = block.entries.len() as u64;
    while left > 0 {
        left -= 1;
        push_entry(alloc, block, left, &mut context)?;
    }
    Ok(context)
}

/// Adds the entry that has so many newer ones.
fn push_entry(
    alloc: Global,
    block: &Block,
    newer: u64,
    context: &mut Context,
) -> Result<(), AllocError>
    ensures { OnOk result ((E : LfType) → slice_get block.now.entries newer ≡ Some E → context.new ≡ E ∷ context.old) }
{
    match block.entries.get(newer) {
        Some(ty) => {
            context.push(ty.copy(alloc)?)?;
            Ok(())
        }
        None => Ok(()),
    }
}

/// The types of the entries of each block.
pub(crate) fn block_types(alloc: Global, worlds: &Worlds) -> Result<Vec<BlockTypes>, AllocError> {
    let mut all = Vec::new(alloc);
    for block in &worlds.blocks {
        all.push(types_of(alloc, block)?)?;
    }
    Ok(all)
}

fn types_of(alloc: Global, block: &Block) -> Result<BlockTypes, AllocError> {
    let mut types = Vec::new(alloc);
    for number in 0..block.entries.len() as u64 {
        add_type(alloc, block, number, &mut types)?;
    }
    Ok(BlockTypes { types })
}

/// Adds the type of the entry that has so many newer ones.
fn add_type(
    alloc: Global,
    block: &Block,
    newer: u64,
    types: &mut Vec<Ty>,
) -> Result<(), AllocError> {
    match block.entries.get(newer) {
        Some(ty) => {
            types.push(ty.copy(alloc)?)?;
            Ok(())
        }
        None => Ok(()),
    }
}
