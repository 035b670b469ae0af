//! Modes and worlds of families, as rows.
ghost use Rattle.std.specs.Prelude.{◌≡◌, IfOk, map};
ghost use Rattle.tw_clause.specs.Tables.{mode_rows_of, world_rows_of};

use crate::block::Worlds;
use crate::name::Mark3;
use std::alloc::{AllocError, Global};
use tw_terms::ConstId;

/// The marks of families, one for each place, implicit ones included. The first row of a family counts.
#[derive(Drop, Debug)]
pub struct Modes {
    pub rows: Vec<(ConstId, Vec<Mark3>)>,
}

/// The worlds of families. The first row of a family counts.
#[derive(Drop, Debug)]
pub struct WorldRows {
    pub rows: Vec<(ConstId, Worlds)>,
}

impl Modes {
    /// Equal modes. Fails only for want of memory.
    pub fn copy(&self, alloc: Global) -> Result<Modes, AllocError>
        ensures { IfOk result (λ m. mode_rows_of m ≡ mode_rows_of self.now) }
    {
        let mut rows = Vec::with_capacity(alloc, self.rows.len())?;
        for (family, marks) in &self.rows {
            rows.push((*family, Vec::from_slice(alloc, marks)?))?;
        }
        Ok(Modes { rows })
    }
}

impl WorldRows {
    /// Equal rows. Fails only for want of memory.
    pub fn copy(&self, alloc: Global) -> Result<WorldRows, AllocError>
        ensures { IfOk result (λ w. world_rows_of w ≡ world_rows_of self.now) }
    {
        let mut rows = Vec::with_capacity(alloc, self.rows.len())?;
        for (family, worlds) in &self.rows {
            rows.push((*family, worlds.copy(alloc)?))?;
        }
        Ok(WorldRows { rows })
    }
}
