//! Preferences for the names of variables, as declared by `%name`.
ghost use Rattle.std.specs.Prelude.{◌≡◌, OnOk, OnErr, option_map};
ghost use Rattle.std.specs.FinMap as map;
ghost use Rattle.tw_print.specs.View.{preferences_of};

use std::alloc::{AllocError, Global};
use std::collections::BTreeMap;
use std::marker::Model;
use tw_fixity::Name;
use tw_terms::ConstId;

/// The names preferred for variables whose type has a certain target family: an uppercase one, and perhaps a lowercase one.
#[derive(Debug, Drop)]
pub struct Preference {
    pub upper: Name,
    pub lower: Option<Name>,
}

/// The preferences by family. Contracts see a finite map from the numbers of families to rows.
#[derive(Drop)]
pub struct Names {
    rows: BTreeMap<u64, Preference>,
}

impl Model for Names {
    ghost use Rattle.std.specs.FinMap as map;
    ghost use Rattle.std.specs.Ordering.{nat_cmp};
    ghost use Rattle.std.specs.Coded.{coded_ℕ};
    ghost use Rattle.tw_print.specs.Names.{Preferences};
    ghost use Rattle.tw_print.specs.View.{preference_code, preference_rows};

    ghost Value = { map.FinMap nat_cmp Preferences };

    ghost coded = { map.code coded_ℕ preference_code };

    ghost view = { λ n. preference_rows n.rows.entries };
}

impl Names {
    /// No preferences.
    pub fn new(alloc: Global) -> Names
        ensures { result ≡ map.empty }
    {
        Names {
            rows: BTreeMap::new(alloc),
        }
    }

    /// Gives a family this row, in place of the one that it had. Fails only for want of memory, and then nothing is changed.
    pub fn set(&mut self, family: ConstId, preference: Preference) -> Result<(), AllocError>
        ensures ok { OnOk result (self.new ≡ map.insert self.old family.0 (preferences_of preference)) }
        ensures err { OnErr result (self.new ≡ self.old) }
    {
        self.rows.insert(family.0, preference)?;
        Ok(())
    }

    /// The family's row, if it has one.
    pub fn get(&self, family: ConstId) -> Option<&Preference>
        ensures { option_map (λ p. preferences_of p.now) result ≡ map.get self.now family.0 }
    {
        self.rows.get(&family.0)
    }
}
