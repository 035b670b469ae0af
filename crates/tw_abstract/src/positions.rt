//! Which variable of a context each metavariable becomes.
ghost use Rattle.std.specs.Prelude.{◌≡◌, [], ◌∷◌, ◌++◌, map, IfOk, OnOk, OnErr};
ghost use Rattle.tw_abstract.specs.Positions.{index};

use std::alloc::{AllocError, Global};
use std::collections::HashMap;
use std::marker::Model;
use tw_terms::MetaId;

/// The metavariables that become the variables of a context. Contracts see the list of their numbers, the outermost first.
#[derive(Drop)]
pub struct Positions {
    metas: Vec<MetaId>,
    /// How many stand outside a metavariable, by its number.
    levels: HashMap<u64, u64>,
}

impl Model for Positions {
    ghost use Rattle.std.specs.Prelude.{ℕ, List, map, nat_eq};
    ghost use Rattle.std.specs.HashMap.{get};
    ghost use Rattle.tw_abstract.specs.Levels.{HasLevels};

    ghost Value = { List ℕ };

    ghost view = { λ p. map (λ m. m.0) p.metas.items };

    ghost invariant = { λ p. HasLevels (map (λ m. m.0) p.metas.items) (get nat_eq p.levels) };
}

impl Positions {
    /// No metavariables. It keeps the allocator.
    pub fn new(alloc: Global) -> Positions
        ensures { result ≡ [] }
    {
        Positions {
            metas: Vec::new(alloc),
            levels: HashMap::new(alloc),
        }
    }

    /// These metavariables, the outermost first. Fails only for want of memory.
    pub fn of(alloc: Global, metas: &[MetaId]) -> Result<Positions, AllocError>
        ensures { IfOk result (λ p. p ≡ map (λ m. m.0) metas.now) }
    {
        let mut positions = Positions::new(alloc);
        for meta in metas {
            positions.push(*meta)?;
        }
        Ok(positions)
    }

    /// One more metavariable, as the innermost; one that is there already counts as the innermost from now on. Without memory nothing changes.
    pub fn push(&mut self, meta: MetaId) -> Result<(), AllocError>
        ensures ok { OnOk result (self.new ≡ self.old ++ meta.0 ∷ []) }
        ensures err { OnErr result (self.new ≡ self.old) }
    {
        self.metas.reserve(1)?;
        let level = self.metas.len() as u64;
        self.levels.insert(meta.0, level)?;
        self.metas.push(meta)?;
        Ok(())
    }

    /// The metavariables, the outermost first.
    pub fn metas(&self) -> &[MetaId]
        ensures { map (λ m. m.0) result.now ≡ self.now }
    {
        &self.metas
    }

    /// The variable that a metavariable becomes outside all binders.
    pub fn variable(&self, meta: MetaId) -> Option<u64>
        ensures { result ≡ index self.now meta.0 }
    {
        match self.levels.get(&meta.0) {
            Some(level) => Some(self.metas.len() as u64 - 1 - *level),
            None => None,
        }
    }
}
