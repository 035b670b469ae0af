//! The free variables of a text, by name.
ghost use Rattle.std.specs.Prelude.{◌≡◌, [], ◌∷◌, OnOk, OnErr, map, option_map, slice_get, reverse};
ghost use Rattle.tw_approx.specs.Walks.{variable_named};

use std::alloc::{AllocError, Global};
use std::marker::Model;
use tw_fixity::{Name, Scope};
use tw_shapes::ShapeId;

/// A free variable with the shape variable of its skeleton.
#[derive(Drop)]
pub struct FreeVariable {
    pub name: Name,
    pub shape: ShapeId,
}

/// The free variables so far. Contracts see each name with the number of its shape variable, the newest first. To find a name takes one look-up.
#[derive(Drop)]
pub struct FreeVariables {
    rows: Vec<FreeVariable>,
    /// Their names, in the same order.
    names: Scope,
}

impl Model for FreeVariables {
    ghost use Rattle.std.specs.Prelude.{◌≡◌, ℕ, List, map, reverse, Some};
    ghost use Rattle.std.specs.Coded.{coded_list, coded×, coded_ℕ};
    ghost use Rattle.tw_approx.specs.Walks.{Variables};

    ghost Value = { Variables };

    ghost coded = { coded_list (coded× (coded_list coded_ℕ) coded_ℕ) };

    ghost view = { λ s. reverse (map (λ r. (r.name, r.shape.0)) s.rows.items) };

    ghost invariant = { λ s. s.names ≡ reverse (map (λ r. Some r.name) s.rows.items) };
}

impl FreeVariables {
    /// None. It keeps the allocator.
    pub fn new(alloc: Global) -> FreeVariables
        ensures { result ≡ [] }
    {
        FreeVariables {
            rows: Vec::new(alloc),
            names: Scope::new(alloc),
        }
    }

    /// The shape variable of a name.
    pub fn find(&self, name: &Name) -> Option<ShapeId>
        ensures { option_map (λ m. m.0) result ≡ variable_named self.now name.now }
    {
        match self.names.variable(name.as_bytes()) {
            Some(newer) => self.shape_at(newer),
            None => None,
        }
    }

    // The shape variable of the name behind so many newer ones.
    fn shape_at(&self, newer: u64) -> Option<ShapeId>
        ensures { option_map (λ m. m.0) result ≡ option_map (λ p. p.1) (slice_get self.now newer) }
    {
        let len = self.rows.len();
        if newer as usize >= len {
            return None;
        }
        Some(self.rows[len - 1 - newer as usize].shape)
    }

    /// Adds a name. Without memory nothing changes.
    pub fn push(&mut self, alloc: Global, name: &Name, shape: ShapeId) -> Result<(), AllocError>
        ensures ok { OnOk result (self.new ≡ (name.now, shape.0) ∷ self.old) }
        ensures err { OnErr result (self.new ≡ self.old) }
    {
        self.rows.reserve(1)?;
        let copy = name.copy(alloc)?;
        self.names.push(Some(name.copy(alloc)?))?;
        self.rows.push(FreeVariable { name: copy, shape })?;
        Ok(())
    }

    /// All of them, the oldest first.
    pub fn rows(&self) -> &[FreeVariable]
        ensures { reverse (map (λ r. (r.name, r.shape.0)) result.now) ≡ self.now }
    {
        self.rows.as_slice()
    }
}
