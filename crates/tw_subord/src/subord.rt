//! Subordination over a signature and blocks.
ghost use Rattle.std.specs.Prelude.{◌≡◌, IfOk, map, length, Contains, ◌↔◌, ◌<◌, ℕ, true};
ghost use Rattle.std.specs.List.Sorted.{IsStrictlyIncreasing};
ghost use Rattle.lf.specs.Entries.{signature_of};
ghost use Rattle.lf.specs.Subordination.{Below};
ghost use Rattle.tw_subord.specs.Rows.{row, is_below};
ghost use Rattle.tw_subord.specs.View.{worlds_of_types};

use crate::closure::families_below;
use crate::links::links;
use crate::pairs::all_pairs;
use std::alloc::{AllocError, Global};
use std::marker::Model;
use tw_signature::Signature;
use tw_terms::{ConstId, Ty};

/// The types of a block's entries.
#[derive(Drop, Debug)]
pub struct BlockTypes {
    pub types: Vec<Ty>,
}

/// Which families are below which. Contracts see for each entry those below it, in order.
#[derive(Drop)]
pub struct Subord {
    rows: Vec<Vec<u64>>,
}

impl Model for Subord {
    ghost use Rattle.std.specs.Prelude.{ℕ, List, map};
    ghost use Rattle.std.specs.Coded.{coded_list, coded_ℕ};

    ghost Value = { List (List ℕ) };

    ghost coded = { coded_list (coded_list coded_ℕ) };

    ghost view = { λ s. map (λ v. v.items) s.rows.items };

    ghost use Rattle.tw_subord.specs.Rows.{AreAscending};

    ghost invariant = { λ s. AreAscending (map (λ v. v.items) s.rows.items) };
}

impl Subord {
    /// The least reflexive and transitive relation in which the target of each quantifier's domain is below that of its range, and for a
    /// kind below its family. Takes, for each family, the quantifiers over those below it. Fails only for want of memory.
    pub fn of(
        alloc: Global,
        signature: &Signature,
        blocks: &[BlockTypes],
    ) -> Result<Subord, AllocError>
        ensures decided { IfOk result (λ s. (a b : ℕ) → (is_below s a b ≡ true) ↔ Below (signature_of signature.now) (worlds_of_types blocks.now) a b) }
        ensures listed { IfOk result (λ s. (a b : ℕ) → b < length signature.now → (Contains (row s b) a) ↔ Below (signature_of signature.now) (worlds_of_types blocks.now) a b) }
    {
        let pairs = all_pairs(alloc, signature, blocks)?;
        let links = links(alloc, signature.len(), &pairs)?;
        let mut rows = Vec::with_capacity(alloc, links.len())?;
        for family in 0..links.len() {
            rows.push(families_below(alloc, &links, family as u64)?)?;
        }
        Ok(Subord { rows })
    }

    /// Whether the family a is below b. Takes as many steps as the number of families below b has binary digits.
    pub fn below(&self, a: ConstId, b: ConstId) -> bool
        ensures { result ≡ is_below self.now a.0 b.0 }
    {
        a == b || self.families_below(b).binary_search(&a.0).is_ok()
    }

    /// The numbers of the families below an entry, in order; those of a family begin with the oldest and hold itself.
    pub fn families_below(&self, family: ConstId) -> &[u64]
        ensures families { result.now ≡ row self.now family.0 }
        ensures in_order { IsStrictlyIncreasing result.now }
    {
        // Says nothing to the program: with the rows read, the proof knows of them that they are in order.
        let _ = &self.rows;
        match self.rows.get(family.0 as usize) {
            Some(row) => row.as_slice(),
            None => &[],
        }
    }
}
