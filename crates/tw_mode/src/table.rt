//! The rows of modes that a check reads.
ghost use Rattle.std.specs.Prelude.{◌≡◌, ℕ, map, option_map};
ghost use Rattle.std.specs.FinMap as finite;
ghost use Rattle.tw_clause.specs.View.{mark_of};
ghost use Rattle.tw_mode.specs.Rows.{marks_in, moded_in, row_in};

use crate::mode_table::ModeTable;
use tw_clause::Mark3;
use tw_terms::ConstId;

/// The marks of one family.
#[derive(Clone, Copy)]
pub struct Row<'a> {
    pub family: ConstId,
    pub marks: &'a [Mark3],
}

/// The rows of a table, and perhaps one that counts in place of its family's there. Nothing is copied.
#[derive(Clone, Copy)]
pub struct Table<'a> {
    rows: &'a ModeTable,
    over: Option<Row<'a>>,
}

impl<'a> Table<'a> {
    /// The rows of a table.
    pub fn of(rows: &'a ModeTable) -> Table<'a>
        ensures { (f : ℕ) → row_in result f ≡ finite.get rows.now f }
    {
        Table { rows, over: None }
    }

    /// The rows of a table after these marks of a family are set.
    pub fn after(rows: &'a ModeTable, family: ConstId, marks: &'a [Mark3]) -> Table<'a>
        ensures { (f : ℕ) → row_in result f ≡ finite.get (finite.insert rows.now family.0 (map mark_of marks.now)) f }
    {
        Table {
            rows,
            over: Some(Row { family, marks }),
        }
    }

    /// The marks of a family, if it has a row.
    fn find(&self, family: ConstId) -> Option<&[Mark3]>
        ensures { option_map (λ s. map mark_of s.now) result ≡ row_in self.now family.0 }
    {
        match self.over {
            Some(row) if row.family.0 == family.0 => Some(row.marks),
            _ => self.rows.marks(family),
        }
    }

    /// The marks of a family; one without a row has none.
    pub fn marks(&self, family: ConstId) -> &[Mark3]
        ensures { map mark_of result.now ≡ marks_in self.now family.0 }
    {
        match self.find(family) {
            Some(marks) => marks,
            None => &[],
        }
    }

    /// Whether a family has a row.
    pub fn has(&self, family: ConstId) -> bool
        ensures { result ≡ moded_in self.now family.0 }
    {
        self.find(family).is_some()
    }
}
