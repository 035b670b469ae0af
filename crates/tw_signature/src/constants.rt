//! The declared constants of each family.
ghost use Rattle.std.specs.Prelude.{◌≡◌, ◌<◌, ◌++◌, [], ◌∷◌, OnOk, IfSome, map, length};
ghost use Rattle.std.specs.Vec.{vec_capacity, vec_len};
ghost use Rattle.tw_signature.specs.Constants.{numbers_for, numbers_of, with_constant, HasRoom};

use std::alloc::{AllocError, Global};
use tw_terms::ConstId;

/// For each entry of a signature the declared constants of this family, the oldest first.
#[derive(Drop)]
pub struct Constants {
    lists: Vec<Vec<ConstId>>,
}

impl Constants {
    /// The lists of no entry. They keep the allocator.
    pub fn new(alloc: Global) -> Constants
        ensures { numbers_of result ≡ [] }
    {
        Constants {
            lists: Vec::new(alloc),
        }
    }

    /// The constants of a family, and none of what is no entry.
    pub fn of(&self, family: ConstId) -> &[ConstId]
        ensures { map (λ c. c.0) result.now ≡ numbers_for (numbers_of self.now) family.0 }
    {
        match self.lists.get(family.0 as usize) {
            Some(constants) => constants.as_slice(),
            None => &[],
        }
    }

    /// Makes room for one more entry, which may be a constant of this family.
    pub fn reserve(&mut self, family: Option<ConstId>) -> Result<(), AllocError>
        requires { IfSome family (λ f. f.0 < length (numbers_of self.old)) }
        ensures same { numbers_of self.new ≡ numbers_of self.old }
        ensures room { OnOk result (HasRoom self.new family) }
    {
        self.lists.reserve(1)?;
        if let Some(family) = family {
            self.lists[family.0 as usize].reserve(1)?;
        }
        Ok(())
    }

    /// Adds an entry of this number, which may be a constant of this family.
    pub fn add(&mut self, family: Option<ConstId>, number: ConstId)
        requires { HasRoom self.old family }
        ensures { numbers_of self.new ≡ with_constant (numbers_of self.old) family number.0 ++ [] ∷ [] }
    {
        match family {
            Some(family) => {
                self.lists[family.0 as usize].push(number).unwrap();
                self.add_list();
            }
            None => self.add_list(),
        }
    }

    /// Adds the empty list of one more entry.
    fn add_list(&mut self)
        requires { vec_len self.old.lists < vec_capacity self.old.lists }
        ensures { numbers_of self.new ≡ numbers_of self.old ++ [] ∷ [] }
    {
        self.lists.push(Vec::new(*self.lists.allocator())).unwrap();
    }
}
