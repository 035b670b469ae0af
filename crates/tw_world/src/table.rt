//! Whether a local context is a sequence of instances of blocks, by a table of its parts.
ghost use Rattle.std.specs.Prelude.{◌≡◌, ◌<◌, List, ◌≤◌, ◌↔◌, ℕ, suc, cond, length, drop, map, IfOk, IsErrOf, IsTrue, OnOk, false, true};
ghost use Rattle.lf.specs.Entries.{signature_of};
ghost use Rattle.lf.specs.Subordination.{AreTypedBlocks, IsTypedBlock};
ghost use Rattle.lf.specs.Syntax.{LfType};
ghost use Rattle.lf.specs.Typing.{IsContext};
ghost use Rattle.lf.specs.Variables.{onto, same_number};
ghost use Rattle.lf_checks.specs.Worlded.{IsSequence};
ghost use Rattle.tw_clause.specs.View.{block_of, worlds_of};
ghost use Rattle.tw_world.specs.Sequences.{Adds, Extends, SequenceGoesDeep, Stands, StandsDeep, first_said, none_said, says};

use crate::blocks::{is_instance, is_strict_block};
use std::alloc::{AllocError, Global};
use tw_clause::{Block, Worlds};
use tw_hered::HeredFault;
use tw_signature::Signature;
use tw_terms::Context;

/// Whether a local context is a sequence of instances of strict blocks of these worlds, in the context outside it. Takes the length of the local context times the size of the blocks with
/// their `some` terms put in.
/// Answers `TooDeep` only where a sequence ends and a strict block is tried, and the typing of a `some` term goes deeper than 4,096, or the block with it put in is deeper than any number says,
/// and so with each other block that would leave as many types.
pub fn is_sequence(
    alloc: Global,
    sig: &Signature,
    worlds: &Worlds,
    outer: &Context,
    local: &Context,
) -> Result<bool, HeredFault>
    requires blocks { AreTypedBlocks (signature_of sig.now) (worlds_of worlds.now) }
    requires context { IsContext (signature_of sig.now) (onto local.now outer.now) }
    ensures decided { IfOk result (λ b. IsTrue b ↔ IsSequence (signature_of sig.now) (worlds_of worlds.now) outer.now local.now) }
    ensures too_deep { IsErrOf result HeredFault.TooDeep → SequenceGoesDeep (signature_of sig.now) (worlds_of worlds.now) outer.now local.now }
{
    let mut left = local.len() as u64;
    let mut table = first_table(alloc, local.len())?;
    let mut deep = none_deep(alloc, local.len())?;
    let mut whole = outer.copy(alloc)?;
    while left > 0 {
        match extend(
            alloc, sig, worlds, &whole, local, left, &mut table, &mut deep,
        ) {
            Ok(()) => (),
            Err(fault) => return Err(fault),
        }
        left -= 1;
        push_type(alloc, &mut whole, local, left)?;
    }
    is_said(&table, &deep, 0)
}

/// The table of a context with so many types: no type is a sequence.
fn first_table(alloc: Global, count: usize) -> Result<Vec<bool>, AllocError>
    ensures { IfOk result (λ v. v.items ≡ first_said count) }
{
    let mut table = nowhere(alloc, count)?;
    table.push(true)?;
    Ok(table)
}

/// The table of the places that blocks which go deep would reach: there is none.
fn none_deep(alloc: Global, count: usize) -> Result<Vec<bool>, AllocError>
    ensures { IfOk result (λ v. v.items ≡ none_said (suc count)) }
{
    let mut table = nowhere(alloc, count)?;
    table.push(false)?;
    Ok(table)
}

/// A table that says no at so many places.
fn nowhere(alloc: Global, count: usize) -> Result<Vec<bool>, AllocError>
    ensures { IfOk result (λ v. v.items ≡ none_said count) }
{
    let mut table = Vec::new(alloc);
    for _ in 0..count {
        table.push(false)?;
    }
    Ok(table)
}

/// Whether a sequence ends at a place that no block reaches any more. Answers `TooDeep` where only blocks that go deep do.
fn is_said(table: &Vec<bool>, deep: &Vec<bool>, place: u64) -> Result<bool, HeredFault>
    requires size { place < length table.now.items }
    requires deep_size { place < length deep.now.items }
    ensures said { IfOk result (λ b. b ≡ says table.now.items place) }
    ensures settled { IfOk result (λ b. says deep.now.items place ≡ true → says table.now.items place ≡ true) }
    ensures too_deep { IsErrOf result HeredFault.TooDeep → (says deep.now.items place ≡ true) × (says table.now.items place ≡ false) }
{
    if table[place as usize] {
        return Ok(true);
    }
    if deep[place as usize] {
        return Err(HeredFault::TooDeep);
    }
    Ok(false)
}

/// Moves the type of a variable of the local context into the whole one.
pub fn push_type(
    alloc: Global,
    whole: &mut Context,
    local: &Context,
    place: u64,
) -> Result<(), AllocError>
    ensures { OnOk result ((C : List LfType) → place < length local.now → whole.old ≡ onto (drop (suc place) local.now) C → whole.new ≡ onto (drop place local.now) C) }
{
    match local.get(place) {
        Some(ty) => whole.push(ty.copy(alloc)?),
        None => Ok(()),
    }
}

/// What the blocks add to a part that is a sequence. Answers `TooDeep` where it is left open whether it is one.
fn extend(
    alloc: Global,
    sig: &Signature,
    worlds: &Worlds,
    whole: &Context,
    local: &Context,
    left: u64,
    table: &mut Vec<bool>,
    deep: &mut Vec<bool>,
) -> Result<(), HeredFault>
    requires blocks { AreTypedBlocks (signature_of sig.now) (worlds_of worlds.now) }
    requires context { IsContext (signature_of sig.now) whole.now }
    requires some { 0 < left }
    requires within { left ≤ length local.now }
    requires size { length table.old.items ≡ suc (length local.now) }
    requires deep_size { length deep.old.items ≡ suc (length local.now) }
    ensures extended { OnOk result (Extends (signature_of sig.now) (worlds_of worlds.now) whole.now local.now left table.old.items deep.old.items table.new.items deep.new.items) }
    ensures too_deep { IsErrOf result HeredFault.TooDeep → (says deep.old.items left ≡ true) × (says table.old.items left ≡ false) }
{
    if !is_said(table, deep, left)? {
        return Ok(());
    }
    for block in &worlds.blocks {
        add(alloc, sig, block, whole, local, left, table, deep)?;
    }
    Ok(())
}

/// What a block adds to it, or, where it goes deep, to the other table.
fn add(
    alloc: Global,
    sig: &Signature,
    block: &Block,
    whole: &Context,
    local: &Context,
    left: u64,
    table: &mut Vec<bool>,
    deep: &mut Vec<bool>,
) -> Result<(), AllocError>
    requires block { IsTypedBlock (signature_of sig.now) (block_of block.now) }
    requires context { IsContext (signature_of sig.now) whole.now }
    requires within { left ≤ length local.now }
    requires size { length table.old.items ≡ suc (length local.now) }
    requires deep_size { length deep.old.items ≡ suc (length local.now) }
    ensures size { length table.new.items ≡ length table.old.items }
    ensures deep_size { length deep.new.items ≡ length deep.old.items }
    ensures keeps { (k : ℕ) → says table.old.items k ≡ true → says table.new.items k ≡ true }
    ensures added { OnOk result (Adds (signature_of sig.now) (block_of block.now) whole.now local.now left table.old.items deep.old.items table.new.items deep.new.items) }
{
    match stands(alloc, sig, block, whole, local, left) {
        Ok(is_one) => {
            if is_one {
                mark(table, left - block.entries.len() as u64);
            }
            Ok(())
        }
        Err(HeredFault::TooDeep) => {
            mark(deep, left - block.entries.len() as u64);
            Ok(())
        }
        Err(HeredFault::NoMemory) => Err(AllocError),
    }
}

/// Whether the block is strict and has an instance here.
fn stands(
    alloc: Global,
    sig: &Signature,
    block: &Block,
    whole: &Context,
    local: &Context,
    left: u64,
) -> Result<bool, HeredFault>
    requires block { IsTypedBlock (signature_of sig.now) (block_of block.now) }
    requires context { IsContext (signature_of sig.now) whole.now }
    requires within { left ≤ length local.now }
    ensures stands { IfOk result (λ b. IsTrue b ↔ Stands (signature_of sig.now) whole.now local.now left (block_of block.now)) }
    ensures too_deep { IsErrOf result HeredFault.TooDeep → StandsDeep (signature_of sig.now) whole.now local.now left (block_of block.now) }
{
    let size = block.entries.len() as u64;
    if size == 0 {
        return Ok(false);
    }
    if size > left {
        return Ok(false);
    }
    if !is_strict_block(alloc, block)? {
        return Ok(false);
    }
    is_instance(alloc, sig, block, whole, local, left - size)
}

/// Says yes at a place.
fn mark(table: &mut Vec<bool>, place: u64)
    requires { place < length table.old.items }
    ensures size { length table.new.items ≡ length table.old.items }
    ensures marked { (k : ℕ) → says table.new.items k ≡ cond (same_number k place) true (says table.old.items k) }
{
    table[place as usize] = true;
}
