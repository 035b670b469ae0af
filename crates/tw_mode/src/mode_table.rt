//! The modes of families, as a session keeps them.
ghost use Rattle.std.specs.Prelude.{◌≡◌, map, option_map, OnErr, OnOk};
ghost use Rattle.std.specs.FinMap as finite;
ghost use Rattle.tw_clause.specs.View.{mark_of};

use std::alloc::{AllocError, Global};
use std::collections::BTreeMap;
use std::marker::Model;
use tw_clause::Mark3;
use tw_terms::ConstId;

/// The marks of families, one for each place, implicit ones included. Contracts see a finite map from the numbers of families to their marks. To find those of a family takes
/// one look-up, however many families have marks.
#[derive(Drop)]
pub struct ModeTable {
    rows: BTreeMap<u64, Vec<Mark3>>,
}

impl Model for ModeTable {
    ghost use Rattle.std.specs.Prelude.{List};
    ghost use Rattle.std.specs.FinMap as finite;
    ghost use Rattle.std.specs.Ordering.{nat_cmp};
    ghost use Rattle.std.specs.Coded.{coded_ℕ};
    ghost use Rattle.lf_checks.specs.Marks.{Mark};
    ghost use Rattle.tw_mode.specs.ModeTables.{marks_code, rows_map};

    ghost Value = { finite.FinMap nat_cmp (List Mark) };

    ghost coded = { finite.code coded_ℕ marks_code };

    ghost view = { λ t. rows_map t.rows.entries };
}

impl ModeTable {
    /// No family has marks. Takes no memory.
    pub fn new(alloc: Global) -> ModeTable
        ensures { result ≡ finite.empty }
    {
        ModeTable {
            rows: BTreeMap::new(alloc),
        }
    }

    /// Gives a family these marks, in place of those that it had. Fails only for want of memory, and then nothing is changed.
    pub fn set(&mut self, family: ConstId, marks: Vec<Mark3>) -> Result<(), AllocError>
        ensures ok { OnOk result (self.new ≡ finite.insert self.old family.0 (map mark_of marks.items)) }
        ensures err { OnErr result (self.new ≡ self.old) }
    {
        self.rows.insert(family.0, marks)?;
        Ok(())
    }

    /// The marks of a family, if it has any.
    pub fn marks(&self, family: ConstId) -> Option<&[Mark3]>
        ensures { option_map (λ s. map mark_of s.now) result ≡ finite.get self.now family.0 }
    {
        match self.rows.get(&family.0) {
            Some(marks) => Some(marks.as_slice()),
            None => None,
        }
    }
}
