//! What is below one family, by the links.
ghost use Rattle.std.specs.Prelude.{◌≡◌, ◌↔◌, ℕ, [], IfOk, OnOk, Contains};
ghost use Rattle.std.specs.List.Sorted.{IsStrictlyIncreasing};
ghost use Rattle.tw_subord.specs.Rows.{row, rows_of};
ghost use Rattle.tw_subord.specs.Leads.{Leads};
ghost use Rattle.tw_subord.specs.Walks.{walked, Adds, InSync};

use crate::links::in_order;
use std::alloc::{AllocError, Global};
use std::collections::HashSet;

/// The numbers that were met; they are looked at in order.
#[derive(Drop)]
pub struct Walk {
    met: HashSet<u64>,
    found: Vec<u64>,
}

/// The numbers from which links lead to this one, itself among them, in order.
pub fn families_below(
    alloc: Global,
    links: &[Vec<u64>],
    family: u64,
) -> Result<Vec<u64>, AllocError>
    ensures families { IfOk result (λ v. (a : ℕ) → (Contains v.items a) ↔ Leads (rows_of links.now) a family) }
    ensures in_order { IfOk result (λ v. IsStrictlyIncreasing v.items) }
{
    let mut walk = Walk::new(alloc);
    walk.meet(family)?;
    for next in 0..u64::MAX {
        if next >= walk.found.len() as u64 {
            let mut found = walk.found;
            in_order(&mut found);
            return Ok(found);
        }
        let number = walk.found[next as usize];
        walk.look_at(links, number)?;
    }
    unreachable!()
}

impl Walk {
    /// A walk that met nothing.
    fn new(alloc: Global) -> Walk
        ensures in_sync { InSync (walked result) }
        ensures found { result.found.items ≡ [] }
    {
        Walk {
            met: HashSet::new(alloc),
            found: Vec::new(alloc),
        }
    }

    /// Meets a number.
    fn meet(&mut self, number: u64) -> Result<(), AllocError>
        requires { InSync (walked self.old) }
        ensures { OnOk result (Adds (λ k. k ≡ number) (walked self.old) (walked self.new)) }
    {
        if self.met.insert(number)? {
            self.found.push(number)?;
        }
        Ok(())
    }

    /// Meets each of these.
    fn meet_all(&mut self, numbers: &[u64]) -> Result<(), AllocError>
        requires { InSync (walked self.old) }
        ensures { OnOk result (Adds (Contains numbers.now) (walked self.old) (walked self.new)) }
    {
        for number in numbers {
            self.meet(*number)?;
        }
        Ok(())
    }

    /// Meets what is directly below a number.
    fn look_at(&mut self, links: &[Vec<u64>], number: u64) -> Result<(), AllocError>
        requires { InSync (walked self.old) }
        ensures { OnOk result (Adds (Contains (row (rows_of links.now) number)) (walked self.old) (walked self.new)) }
    {
        match links.get(number as usize) {
            Some(row) => self.meet_all(row),
            None => Ok(()),
        }
    }
}
