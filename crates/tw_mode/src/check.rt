//! The check of modes of a group.
ghost use Rattle.std.specs.Prelude.{◌≡◌, ◌<◌, ◌-◌, [], ◌∷◌, ℕ, suc, List, drop, length, map, option_map, slice_get, IfOk};
ghost use Rattle.std.specs.FinMap as finite;
ghost use Rattle.lf.specs.Entries.{signature_of};
ghost use Rattle.lf.specs.Subordination.{AreTypedBlocks, IsTypedBlock};
ghost use Rattle.lf.specs.Typing.{Signature as PlainSignature};
ghost use Rattle.lf_checks.specs.Clause.{constant_clause, entry_clause};
ghost use Rattle.lf_checks.specs.Clauses.{NamedClause, of_entry, with_constant};
ghost use Rattle.lf_checks.specs.ModeRows.{ModeRow, row_of};
ghost use Rattle.tw_clause.specs.View.{block_of, mark_of, name_of, worlds_of};
ghost use Rattle.tw_terms.specs.View.{type_of};
ghost use Rattle.tw_mode.specs.Checks.{Fits};
ghost use Rattle.tw_mode.specs.Groups.{FaultsOutcome, GroupOutcome, ModesOutcome, NamedOutcome};
ghost use Rattle.tw_mode.specs.Listing.{as_list, clause_at, in_block, listed_clauses, with_entry};
ghost use Rattle.tw_mode.specs.ModeTables.{mode_rows};
ghost use Rattle.tw_mode.specs.Rows.{marks_in, moded_in, row_in};
ghost use Rattle.tw_mode.specs.Solved.{with_hidden, with_shown};
ghost use Rattle.tw_mode.specs.declared.table.Table.{Table as PlainTable};

use crate::called::unmoded;
use crate::clause::{Place, clause_fault};
use crate::fault::ModeFault;
use crate::listed::{Listed, list_group};
use crate::mode_table::ModeTable;
use crate::outside::{Outside, outside_of};
use crate::table::Table;
use std::alloc::{AllocError, Global};
use tw_clause::{Block, ClauseName, Mark3, Worlds};
use tw_signature::Signature;
use tw_terms::{ConstId, Ty, target};

/// Whether each clause of a group is well-moded. The clauses are those of the signature and of the entries of the worlds. First comes a family without a mode: the first
/// that the check meets, a clause's own before those that it calls. Then comes the first fault of the clauses in order. Takes the size of the clauses.
pub fn check_modes(
    alloc: Global,
    sig: &Signature,
    modes: &ModeTable,
    worlds: &Worlds,
    group: &[ConstId],
) -> Result<(), ModeFault>
    requires { AreTypedBlocks (signature_of sig.now) (worlds_of worlds.now) }
    ensures { GroupOutcome sig.now (mode_rows modes.now) (worlds_of worlds.now) (map (λ f. f.0) group.now) result }
{
    let table = Table::of(modes);
    check_rows(alloc, sig, &table, worlds, group)
}

/// The same of one family in the empty worlds, after these marks of it are set. Nothing is set, and the table isn't copied.
pub fn check_mode(
    alloc: Global,
    sig: &Signature,
    modes: &ModeTable,
    family: ConstId,
    marks: &[Mark3],
) -> Result<(), ModeFault>
    ensures { GroupOutcome sig.now (mode_rows (finite.insert modes.now family.0 (map mark_of marks.now))) [] (family.0 ∷ []) result }
{
    let table = Table::after(modes, family, marks);
    let worlds = Worlds {
        blocks: Vec::new(alloc),
    };
    check_rows(alloc, sig, &table, &worlds, &[family])
}

/// The same of a group by any rows with these marks.
fn check_rows(
    alloc: Global,
    sig: &Signature,
    table: &Table,
    worlds: &Worlds,
    group: &[ConstId],
) -> Result<(), ModeFault>
    requires { AreTypedBlocks (signature_of sig.now) (worlds_of worlds.now) }
    ensures { (rows : List ModeRow) → ((f : ℕ) → row_in table.now f ≡ row_of rows f) → GroupOutcome sig.now rows (worlds_of worlds.now) (map (λ f. f.0) group.now) result }
{
    let listed = list_group(alloc, sig, worlds, group)?;
    all_have_modes(alloc, sig, table, worlds, &listed)?;
    all_are_moded(alloc, sig, table, worlds, &listed)
}

/// Whether the families that clauses meet have modes; else the first without one.
fn all_have_modes(
    alloc: Global,
    sig: &Signature,
    table: &Table,
    worlds: &Worlds,
    listed: &[Listed],
) -> Result<(), ModeFault>
    ensures { ModesOutcome (moded_in table.now) (listed_clauses sig.now (worlds_of worlds.now) listed.now) result }
{
    let mut next = 0;
    while next < listed.len() {
        let at = nth_listed(listed, next);
        have_modes(alloc, sig, table, worlds, at)?;
        next += 1;
    }
    Ok(())
}

/// Whether each clause is well-moded; else the first fault.
fn all_are_moded(
    alloc: Global,
    sig: &Signature,
    table: &Table,
    worlds: &Worlds,
    listed: &[Listed],
) -> Result<(), ModeFault>
    requires { AreTypedBlocks (signature_of sig.now) (worlds_of worlds.now) }
    ensures { FaultsOutcome (signature_of sig.now) (marks_in table.now) (moded_in table.now) (listed_clauses sig.now (worlds_of worlds.now) listed.now) result }
{
    let mut next = 0;
    while next < listed.len() {
        let at = nth_listed(listed, next);
        is_moded(alloc, sig, table, worlds, at)?;
        next += 1;
    }
    Ok(())
}

/// The same of one clause.
fn have_modes(
    alloc: Global,
    sig: &Signature,
    table: &Table,
    worlds: &Worlds,
    at: Listed,
) -> Result<(), ModeFault>
    ensures { ModesOutcome (moded_in table.now) (clause_at sig.now (worlds_of worlds.now) at) result }
{
    match at {
        Listed::Constant(id) => families_have_modes(alloc, table, sig.constant_type(id)),
        Listed::Entry(number, newer) => match worlds.blocks.get(number) {
            Some(block) => families_have_modes(alloc, table, block.entries.get(newer)),
            None => Ok(()),
        },
    }
}

/// The same of a clause of this type, if there is one.
fn families_have_modes(alloc: Global, table: &Table, ty: Option<&Ty>) -> Result<(), ModeFault>
    ensures { (cs : List NamedClause) → map (λ n. n.clause.type) cs ≡ as_list (option_map (λ t. type_of t.now) ty.entry) → ModesOutcome (moded_in table.now) cs result }
{
    let Some(ty) = ty else {
        return Ok(());
    };
    if !table.has(target(ty)) {
        return Err(ModeFault::NoMode(target(ty)));
    }
    match unmoded(alloc, table, ty)? {
        Some(family) => Err(ModeFault::NoMode(family)),
        None => Ok(()),
    }
}

/// The same of one clause.
fn is_moded(
    alloc: Global,
    sig: &Signature,
    table: &Table,
    worlds: &Worlds,
    at: Listed,
) -> Result<(), ModeFault>
    requires { AreTypedBlocks (signature_of sig.now) (worlds_of worlds.now) }
    ensures { FaultsOutcome (signature_of sig.now) (marks_in table.now) (moded_in table.now) (clause_at sig.now (worlds_of worlds.now) at) result }
{
    match at {
        Listed::Constant(id) => constant_is_moded(alloc, sig, table, id),
        Listed::Entry(number, newer) => place_is_moded(alloc, sig, table, worlds, number, newer),
    }
}

/// The place of a list.
fn nth_listed(listed: &[Listed], place: usize) -> Listed
    requires { place < length listed.now }
    ensures { drop place listed.now ≡ result ∷ drop (suc place) listed.now }
{
    listed[place]
}

/// The same of an entry of the block with this number.
fn place_is_moded(
    alloc: Global,
    sig: &Signature,
    table: &Table,
    worlds: &Worlds,
    number: usize,
    newer: u64,
) -> Result<(), ModeFault>
    requires { AreTypedBlocks (signature_of sig.now) (worlds_of worlds.now) }
    ensures { FaultsOutcome (signature_of sig.now) (marks_in table.now) (moded_in table.now) (in_block (slice_get (worlds_of worlds.now) number) newer) result }
{
    for (place, block) in worlds.blocks.iter().enumerate() {
        if place == number {
            return entry_is_moded(alloc, sig, table, block, newer);
        }
    }
    Ok(())
}

/// The same of a constant.
fn constant_is_moded(
    alloc: Global,
    sig: &Signature,
    table: &Table,
    id: ConstId,
) -> Result<(), ModeFault>
    ensures { FaultsOutcome (signature_of sig.now) (marks_in table.now) (moded_in table.now) (with_constant id.0 ((signature_of sig.now).types id.0) []) result }
{
    sig.is_canonical();
    let Some(ty) = sig.constant_type(id) else {
        return Ok(());
    };
    let fault = constant_fault(alloc, sig, table, ty)?;
    told(ClauseName::Constant(id), fault)
}

/// The first fault of a constant.
fn constant_fault(
    alloc: Global,
    sig: &Signature,
    table: &Table,
    ty: &Ty,
) -> Result<Option<Place>, AllocError>
    requires { Fits (signature_of sig.now) (type_of ty.now) }
    ensures { IfOk result (λ f. NamedOutcome (signature_of sig.now) table.now (constant_clause (type_of ty.now)) f) }
{
    let outside = nothing_outside();
    clause_fault(alloc, sig, table, &outside, ty)
}

/// Nothing stands outside.
fn nothing_outside<'a>() -> Outside<'a>
    ensures depth { result.depth ≡ 0 }
    ensures fixed { length result.fixed.now ≡ 0 }
    ensures ground { length result.ground.now ≡ 0 }
{
    Outside {
        depth: 0,
        fixed: &[],
        ground: &[],
    }
}

/// The same of an entry of a block.
fn entry_is_moded(
    alloc: Global,
    sig: &Signature,
    table: &Table,
    block: &Block,
    newer: u64,
) -> Result<(), ModeFault>
    requires { IsTypedBlock (signature_of sig.now) (block_of block.now) }
    ensures { FaultsOutcome (signature_of sig.now) (marks_in table.now) (moded_in table.now) (with_entry (block_of block.now) newer (slice_get block.now.entries newer)) result }
{
    let Some(ty) = block.entries.get(newer) else {
        return Ok(());
    };
    let fault = entry_fault(alloc, sig, table, block, newer, ty)?;
    if fault.is_none() {
        return Ok(());
    }
    told(entry_name(alloc, block, newer)?, fault)
}

/// The name of an entry, by the number of newer ones.
fn entry_name(alloc: Global, block: &Block, newer: u64) -> Result<ClauseName, AllocError>
    requires { newer < length block.now.entries }
    ensures { IfOk result (λ n. name_of n ≡ of_entry (block_of block.now).label (length block.now.entries - newer)) }
{
    let number = block.entries.len() as u64 - newer;
    Ok(ClauseName::BlockEntry(block.label.copy(alloc)?, number))
}

/// The first fault of an entry, where so many entries are newer: outside it stand the entries before it and then the `some` variables.
fn entry_fault(
    alloc: Global,
    sig: &Signature,
    table: &Table,
    block: &Block,
    newer: u64,
    ty: &Ty,
) -> Result<Option<Place>, AllocError>
    requires newer { newer < length block.now.entries }
    requires fits { Fits (signature_of sig.now) (type_of ty.now) }
    ensures { IfOk result (λ f. NamedOutcome (signature_of sig.now) table.now (entry_clause (block_of block.now) (drop (suc newer) block.now.entries) (type_of ty.now)) f) }
{
    let fixed = fixed_outside(alloc, block, newer)?;
    let ground = all_ground(alloc, &fixed)?;
    let outside = outside_of(&fixed, &ground);
    clause_fault(alloc, sig, table, &outside, ty)
}

/// The marks of what is fixed outside an entry.
fn fixed_outside(alloc: Global, block: &Block, newer: u64) -> Result<Vec<bool>, AllocError>
    requires { newer < length block.now.entries }
    ensures { IfOk result (λ v. v.items ≡ with_shown (with_hidden [] (length block.now.some)) (length block.now.entries - newer - 1)) }
{
    let older = block.entries.len() as u64 - newer - 1;
    some_and_entries(alloc, block.some.len() as u64, older)
}

/// As many marks that say yes.
fn all_ground(alloc: Global, fixed: &Vec<bool>) -> Result<Vec<bool>, AllocError>
    ensures { IfOk result (λ v. v.items ≡ with_shown (with_hidden [] 0) (length fixed.now.items)) }
{
    some_and_entries(alloc, 0, fixed.len() as u64)
}

/// So many marks that say no, and then so many that say yes.
pub fn some_and_entries(alloc: Global, some: u64, entries: u64) -> Result<Vec<bool>, AllocError>
    ensures { IfOk result (λ v. v.items ≡ with_shown (with_hidden [] some) entries) }
{
    let mut marks = Vec::new(alloc);
    for _ in 0..some {
        marks.push(false)?;
    }
    for _ in 0..entries {
        marks.push(true)?;
    }
    Ok(marks)
}

/// What the fault of a clause with this name says of it alone.
fn told(name: ClauseName, fault: Option<Place>) -> Result<(), ModeFault>
    ensures { (Σ : PlainSignature) (t : PlainTable) (n : NamedClause) → n.name ≡ name_of name → NamedOutcome Σ t n.clause fault → FaultsOutcome Σ (marks_in t) (moded_in t) (n ∷ []) result }
{
    match fault {
        Some(place) => Err(ModeFault::Fault {
            clause: name,
            subgoal: place.subgoal,
            argument: place.argument,
        }),
        None => Ok(()),
    }
}
