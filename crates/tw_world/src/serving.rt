//! Whether a called family knows the blocks of its caller.
ghost use Rattle.std.specs.Prelude.{◌≡◌, ◌↔◌, ℕ, false, map, option_map, slice_get, IsTrue};
ghost use Rattle.lf.specs.Subordination.{Member};
ghost use Rattle.lf.specs.Syntax.{LfType};
ghost use Rattle.lf.specs.Variables.{target as target_of};
ghost use Rattle.lf_checks.specs.Worlded.{BlocksServe};
ghost use Rattle.lf_checks.specs.WorldFaults.{CalleeIsServed, worlds_of as worlds_of_family};
ghost use Rattle.tw_clause.specs.Tables.{world_rows_of};
ghost use Rattle.tw_clause.specs.View.{block_of, worlds_of};
ghost use Rattle.tw_world.specs.Serving.{BlockServes, below_in, is_below_target};

use tw_clause::{Block, WorldRows, Worlds};
use tw_subord::Subord;
use tw_terms::{ConstId, Context, target};

/// Whether a called family knows the blocks of these worlds: it is one of the group, or has no worlds, or each block is one of its own or holds no entry whose family is below it. Takes
/// no memory.
pub fn is_served(
    subord: &Subord,
    rows: &WorldRows,
    group: &[ConstId],
    worlds: &Worlds,
    family: ConstId,
) -> bool
    ensures { IsTrue result ↔ CalleeIsServed (world_rows_of rows.now) (map (λ f. f.0) group.now) (below_in subord.now) (worlds_of worlds.now) family.0 }
{
    if is_among(group, family) {
        return true;
    }
    match known_worlds(rows, family) {
        Some(known) => blocks_serve(subord, worlds, known, family),
        None => true,
    }
}

/// Whether the family is one of these.
fn is_among(group: &[ConstId], family: ConstId) -> bool
    ensures { IsTrue result ↔ Member family.0 (map (λ f. f.0) group.now) }
{
    for other in group {
        if other.0 == family.0 {
            return true;
        }
    }
    false
}

/// The worlds of a family, if it has a row: the first one counts.
pub fn known_worlds(rows: &WorldRows, family: ConstId) -> Option<&Worlds>
    ensures { option_map (λ w. worlds_of w.now) result ≡ worlds_of_family (world_rows_of rows.now) family.0 }
{
    for (other, worlds) in &rows.rows {
        if other.0 == family.0 {
            return Some(worlds);
        }
    }
    None
}

/// Whether each block of the first worlds is one of the second, or holds no entry whose family is below this one.
fn blocks_serve(subord: &Subord, worlds: &Worlds, known: &Worlds, family: ConstId) -> bool
    ensures { IsTrue result ↔ BlocksServe (worlds_of worlds.now) (worlds_of known.now) (below_in subord.now family.0) }
{
    for block in &worlds.blocks {
        if !block_serves(subord, block, known, family) {
            return false;
        }
    }
    true
}

/// The same of one block.
fn block_serves(subord: &Subord, block: &Block, known: &Worlds, family: ConstId) -> bool
    ensures { IsTrue result ↔ BlockServes (block_of block.now) (worlds_of known.now) (below_in subord.now family.0) }
{
    is_one_of(block, known) || none_below(subord, &block.entries, family)
}

/// Whether the block is one of these worlds: where label, `some` variables and entries are equal.
pub fn is_one_of(block: &Block, known: &Worlds) -> bool
    ensures { IsTrue result ↔ Member (block_of block.now) (worlds_of known.now) }
{
    for other in &known.blocks {
        if same_block(block, other) {
            return true;
        }
    }
    false
}

/// Whether two blocks are equal.
fn same_block(block: &Block, other: &Block) -> bool
    ensures { IsTrue result ↔ (block_of block.now ≡ block_of other.now) }
{
    block.label.same(&other.label)
        && same_context(&block.some, &other.some)
        && same_context(&block.entries, &other.entries)
}

/// Whether two contexts have the same types.
fn same_context(context: &Context, other: &Context) -> bool
    ensures { IsTrue result ↔ (context.now ≡ other.now) }
{
    if context.len() != other.len() {
        return false;
    }
    let count = context.len() as u64;
    let mut next = 0;
    while next < count {
        if !same_at(context, other, next) {
            return false;
        }
        next += 1;
    }
    true
}

/// Whether two contexts have the same type at a place.
fn same_at(context: &Context, other: &Context, place: u64) -> bool
    ensures { IsTrue result ↔ (slice_get context.now place ≡ slice_get other.now place) }
{
    match (context.get(place), other.get(place)) {
        (Some(one), Some(two)) => one.same(two),
        (None, None) => true,
        _ => false,
    }
}

/// Whether no type of a context has a target that is below the family.
fn none_below(subord: &Subord, entries: &Context, family: ConstId) -> bool
    ensures { IsTrue result ↔ ((E : LfType) → Member E entries.now → below_in subord.now family.0 (target_of E) ≡ false) }
{
    let count = entries.len() as u64;
    let mut next = 0;
    while next < count {
        if is_below_at(subord, entries, next, family) {
            return false;
        }
        next += 1;
    }
    true
}

/// Whether there is a type at this place, and its target is below the family.
fn is_below_at(subord: &Subord, entries: &Context, place: u64, family: ConstId) -> bool
    ensures { result ≡ is_below_target (below_in subord.now family.0) (slice_get entries.now place) }
{
    match entries.get(place) {
        Some(ty) => subord.below(target(ty), family),
        None => false,
    }
}
