//! The names of the variables in scope. Contracts see a scope as their list, the innermost first.
ghost use Rattle.std.specs.Prelude.{◌≡◌, [], ◌∷◌, OnOk, OnErr, option_map, slice_get, drop};
ghost use Rattle.tw_fixity.specs.Names.{variable_of, is_in_scope};

use crate::name::Name;
use std::alloc::{AllocError, Global};
use std::collections::HashMap;
use std::marker::Model;

/// A variable in scope.
#[derive(Drop)]
struct Binder {
    name: Option<Name>,
    /// Where the next variable of the name stands that is further out.
    shadowed: Option<u64>,
}

/// The names of the variables in scope, the innermost last. A variable may have none. To find a name or to go in or out takes one look-up.
#[derive(Drop)]
pub struct Scope {
    binders: Vec<Binder>,
    /// How many variables stand outside the innermost one of a name.
    newest: HashMap<Vec<u8>, u64>,
}

impl Model for Scope {
    ghost use Rattle.std.specs.Prelude.{ℕ, List, Option, map, reverse};
    ghost use Rattle.std.specs.Coded.{coded_list, coded_option, coded_ℕ};

    ghost Value = { List (Option (List ℕ)) };

    ghost coded = { coded_list (coded_option (coded_list coded_ℕ)) };

    ghost view = { λ s. reverse (map (λ b. b.name) s.binders.items) };

    ghost use Rattle.std.specs.Prelude.{◌≡◌};
    ghost use Rattle.tw_fixity.specs.Newest.{number_at};
    ghost use Rattle.tw_fixity.specs.Places.{place_of, AreShadowed};

    ghost invariant = { λ s. ((name : List ℕ) → number_at s.newest name ≡ place_of (reverse s.binders.items) name) × AreShadowed (reverse s.binders.items) };
}

impl Scope {
    /// The scope with no variable. It keeps the allocator.
    pub fn new(alloc: Global) -> Scope
        ensures { result ≡ [] }
    {
        Scope {
            binders: Vec::new(alloc),
            newest: HashMap::new(alloc),
        }
    }

    /// Adds a variable as the innermost. Without memory the scope stays as it is.
    pub fn push(&mut self, name: Option<Name>) -> Result<(), AllocError>
        ensures ok { OnOk result (self.new ≡ name ∷ self.old) }
        ensures err { OnErr result (self.new ≡ self.old) }
    {
        self.binders.reserve(1)?;
        let Some(name) = name else {
            self.binders.push(Binder {
                name: None,
                shadowed: None,
            })?;
            return Ok(());
        };
        let shadowed = self.newest.get(name.as_bytes()).copied();
        let bytes = Vec::from_slice(*self.binders.allocator(), name.as_bytes())?;
        self.newest.insert(bytes, self.binders.len() as u64)?;
        self.binders.push(Binder {
            name: Some(name),
            shadowed,
        })?;
        Ok(())
    }

    /// Takes the innermost variable away.
    pub fn pop(&mut self)
        ensures { self.new ≡ drop 1 self.old }
    {
        let Some(binder) = self.binders.pop() else {
            return;
        };
        let Binder { name, shadowed } = binder;
        let Some(name) = name else {
            return;
        };
        match shadowed {
            Some(place) => {
                if let Some(newest) = self.newest.get_mut(name.as_bytes()) {
                    *newest = place;
                }
            }
            None => {
                self.newest.remove(name.as_bytes());
            }
        }
    }

    /// The name of a variable, where it is in scope and has one.
    pub fn get(&self, variable: u64) -> Option<&Option<Name>>
        ensures { option_map (λ n. n.now) result ≡ slice_get self.now variable }
    {
        let len = self.binders.len();
        if variable as usize >= len {
            return None;
        }
        Some(&self.binders[len - 1 - variable as usize].name)
    }

    /// The innermost variable of the name.
    pub fn variable(&self, name: &[u8]) -> Option<u64>
        ensures { result ≡ variable_of self.now name.now }
    {
        match self.newest.get(name) {
            Some(outside) => Some(self.binders.len() as u64 - 1 - *outside),
            None => None,
        }
    }

    /// Whether a variable in scope has the name.
    pub fn contains(&self, name: &[u8]) -> bool
        ensures { result ≡ is_in_scope self.now name.now }
    {
        self.newest.get(name).is_some()
    }
}
