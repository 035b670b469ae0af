//! The order of the quantifiers that free metavariables become.
ghost use Rattle.std.specs.Prelude.{◌≡◌, ◌≤◌, true, false, length, map, slice_get, IfOk, MatchOption};
ghost use Rattle.lf.specs.Subordination.{Member};
ghost use Rattle.tw_terms.specs.declared.canonical.MetaId.{MetaId};
ghost use Rattle.tw_terms.specs.OpenView.{open_type_of};
ghost use Rattle.tw_abstract.specs.Occurrences.{type_occurrences};
ghost use Rattle.tw_abstract.specs.Order.{IsNext, IsOrder, IsStuck, NoneIsNext, Waiting};
ghost use Rattle.tw_abstract.specs.OrderView.{AreChosen, AreMet, waiting_of};

use crate::listing::list_type;
use crate::positions::Positions;
use std::alloc::{AllocError, Global};
use tw_terms::{MetaId, OpenTy};

/// A metavariable that becomes a quantifier, and the metavariables that its type mentions.
#[derive(Drop)]
pub struct Candidate {
    pub meta: MetaId,
    pub needs: Vec<MetaId>,
}

impl Candidate {
    /// The candidate with the metavariables of its type, into which the values are put, as its needs. Fails only for want of memory.
    pub fn new(alloc: Global, meta: MetaId, ty: &OpenTy) -> Result<Candidate, AllocError>
        ensures { IfOk result (λ c. waiting_of c ≡ record { of = meta.0; needs = type_occurrences (open_type_of ty.now) }) }
    {
        let mut needs = Vec::new(alloc);
        list_type(&mut needs, ty)?;
        Ok(Candidate { meta, needs })
    }
}

/// The order of the quantifiers, of candidates in order of first occurrence: repeatedly the first whose needs stand. None where this comes to an end
/// before all stand, since what is left needs each other or what isn't a candidate. Fails only for want of memory.
pub fn quantifier_order(
    alloc: Global,
    candidates: &[Candidate],
) -> Result<Option<Positions>, AllocError>
    ensures { IfOk result (λ o. let es = map waiting_of candidates.now in MatchOption o (IsStuck es) (λ p. IsOrder es p)) }
{
    let mut chosen = Positions::new(alloc);
    let mut met = vec![in alloc; 0usize; candidates.len()]?;
    while let Some(meta) = next(&chosen, candidates, &mut met) {
        chosen.push(meta)?;
    }
    if all_stand(&chosen, candidates) {
        Ok(Some(chosen))
    } else {
        Ok(None)
    }
}

/// Whether all candidates are chosen.
fn all_stand(chosen: &Positions, candidates: &[Candidate]) -> bool
    ensures yes { result ≡ true → (e : Waiting) → Member e (map waiting_of candidates.now) → Member e.of chosen.now }
    ensures no { result ≡ false → (e : Waiting) × Member e (map waiting_of candidates.now) × (Member e.of chosen.now → ⊥) }
{
    for candidate in candidates {
        if chosen.variable(candidate.meta).is_none() {
            return false;
        }
    }
    true
}

/// The first candidate that can follow. `met` says how many needs of each are known to be chosen, so that none is looked at again.
fn next(chosen: &Positions, candidates: &[Candidate], met: &mut [usize]) -> Option<MetaId>
    requires len { length met.old ≡ length candidates.now }
    requires known { AreMet chosen.now candidates.now met.old }
    ensures first { let es = map waiting_of candidates.now in MatchOption result (NoneIsNext es chosen.now) (λ m. IsNext es chosen.now m.0) }
    ensures known { AreMet chosen.now candidates.now met.new }
{
    for (at, candidate) in candidates.iter().enumerate() {
        if chosen.variable(candidate.meta).is_none() {
            met[at] = chosen_needs(chosen, &candidate.needs, met[at]);
            if met[at] == candidate.needs.len() {
                return Some(candidate.meta);
            }
        }
    }
    None
}

/// How many needs are chosen before one that isn't; so many are known to be.
fn chosen_needs(chosen: &Positions, needs: &[MetaId], known: usize) -> usize
    requires within { known ≤ length needs.now }
    requires known { AreChosen chosen.now needs.now known }
    ensures within { result ≤ length needs.now }
    ensures chosen { AreChosen chosen.now needs.now result }
    ensures last { (n : MetaId) → slice_get needs.now result ≡ Some n → Member n.0 chosen.now → ⊥ }
{
    let mut count = known;
    while count < needs.len() && chosen.variable(needs[count]).is_some() {
        count += 1;
    }
    count
}
