//! Rows of worlds: those of families give way to newer ones.
ghost use Rattle.std.specs.Prelude.{◌≡◌, ◌++◌, ◌≤◌, drop, length, map, take, IfOk};
ghost use Rattle.lf_checks.specs.Tests.{is_in};
ghost use Rattle.tw_clause.specs.Tables.{world_row_of};
ghost use Rattle.tw_clause.specs.View.{worlds_of};
ghost use Rattle.tw_decl.specs.View.{rows_beside, world_row};

use std::alloc::{AllocError, Global};
use tw_clause::Worlds;
use tw_terms::ConstId;

/// A row with these worlds for each of the families. Fails only for want of memory.
pub fn rows_of(
    alloc: Global,
    families: &[ConstId],
    worlds: &Worlds,
) -> Result<Vec<(ConstId, Worlds)>, AllocError>
    ensures { IfOk result (λ rows. map world_row_of rows.items ≡ map (λ f. world_row (worlds_of worlds.now) f.0) families.now) }
{
    let mut rows = Vec::with_capacity(alloc, families.len())?;
    for family in families {
        rows.push((*family, worlds.copy(alloc)?))?;
    }
    Ok(rows)
}

// Whether the family is one of these.
fn is_one_of(family: ConstId, families: &[ConstId]) -> bool
    ensures { result ≡ is_in family.0 (map (λ f. f.0) families.now) }
{
    for other in families {
        if *other == family {
            return true;
        }
    }
    false
}

/// Takes out the rows of these families that stand from this place on. Compares each with each of the families, and takes no memory.
pub fn take_out(rows: &mut Vec<(ConstId, Worlds)>, from: usize, families: &[ConstId])
    requires { from ≤ length rows.old.items }
    ensures { map world_row_of rows.new.items ≡ map world_row_of (take from rows.old.items) ++ rows_beside (map (λ f. f.0) families.now) (map world_row_of (drop from rows.old.items)) }
{
    let mut at = from;
    while at < rows.len() {
        if is_one_of(rows[at].0, families) {
            rows.remove(at);
        } else {
            at += 1;
        }
    }
}
