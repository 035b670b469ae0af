//! Names of clauses, and marks of modes.
ghost use Rattle.std.specs.Prelude.{◌≡◌, IfOk};
ghost use Rattle.tw_clause.specs.View.{name_of};

use std::alloc::{AllocError, Global};
use tw_fixity::Name;
use tw_terms::ConstId;

/// What a clause is called: a constant, or the label of a block and the number of its entry, counted from 1.
#[derive(Drop, Debug)]
pub enum ClauseName {
    Constant(ConstId),
    BlockEntry(Name, u64),
}

/// The mark of a place of a family: `+`, `-` or `*`.
#[derive(Clone, Copy, PartialEq, Eq, Debug)]
pub enum Mark3 {
    Plus,
    Minus,
    Free,
}

impl ClauseName {
    /// An equal name. Fails only for want of memory.
    pub fn copy(&self, alloc: Global) -> Result<ClauseName, AllocError>
        ensures { IfOk result (λ n. name_of n ≡ name_of self.now) }
    {
        match self {
            ClauseName::Constant(id) => Ok(ClauseName::Constant(*id)),
            ClauseName::BlockEntry(label, entry) => {
                Ok(ClauseName::BlockEntry(label.copy(alloc)?, *entry))
            }
        }
    }
}
