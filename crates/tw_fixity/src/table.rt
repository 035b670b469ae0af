//! The table of operators.
ghost use Rattle.std.specs.Prelude.{◌≡◌, OnOk, OnErr, None};
ghost use Rattle.std.specs.FinMap as map;

use crate::name::Name;
use indexmap::IndexMap;
use std::alloc::{AllocError, Global};
use std::marker::Model;

/// To which side an infix operator associates.
#[derive(Clone, Copy, Debug, PartialEq, Eq)]
pub enum Assoc {
    Neither,
    Left,
    Right,
}

/// Where an operator stands, with its precedence. A greater precedence binds tighter.
#[derive(Clone, Copy, Debug, PartialEq, Eq)]
pub enum Fix {
    Infix(Assoc, u16),
    Prefix(u16),
    Postfix(u16),
}

/// The operators. Contracts see it as a finite map from names to rows.
#[derive(Drop)]
pub struct FixTable {
    rows: IndexMap<Vec<u8>, Fix>,
}

impl Model for FixTable {
    ghost use Rattle.std.specs.FinMap as map;
    ghost use Rattle.tw_fixity.specs.Rows.{name_order, name_code, fix_code, rows_of};
    ghost use Rattle.tw_fixity.specs.declared.table.Fix.{Fix};

    ghost Value = { map.FinMap name_order Fix };

    ghost coded = { map.code name_code fix_code };

    ghost view = { λ t. rows_of t.rows.entries };
}

impl FixTable {
    /// The table without a row.
    pub fn new(alloc: Global) -> FixTable
        ensures { result ≡ map.empty }
    {
        FixTable {
            rows: IndexMap::new(alloc),
        }
    }

    /// Gives a name this row, in place of the one that it had. Fails only for want of memory at a name without a row, and then
    /// nothing is changed.
    pub fn set(&mut self, name: Name, fix: Fix) -> Result<(), AllocError>
        ensures ok { OnOk result (self.new ≡ map.insert self.old name fix) }
        ensures err { OnErr result (self.new ≡ self.old) }
        ensures absent { OnErr result (map.get self.old name ≡ None) }
    {
        self.rows.insert(name.into_bytes(), fix)?;
        Ok(())
    }

    /// The name's row, if it has one.
    pub fn get(&self, name: &Name) -> Option<Fix>
        ensures { result ≡ map.get self.now name.now }
    {
        self.get_bytes(name.as_bytes())
    }

    /// The row of the name with these bytes, if it has one.
    pub fn get_bytes(&self, name: &[u8]) -> Option<Fix>
        ensures { result ≡ map.get self.now name.now }
    {
        self.rows.get(name).copied()
    }

    /// Takes the name's row away.
    pub fn remove(&mut self, name: &Name)
        ensures { self.new ≡ map.remove self.old name.now }
    {
        self.rows.swap_remove(name.as_bytes());
    }
}
