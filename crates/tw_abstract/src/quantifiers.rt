//! The quantifiers that are read off a store.
ghost use Rattle.std.specs.Prelude.{MatchResult, map};
ghost use Rattle.tw_abstract.specs.Causes.{BlamesQuantifiers};
ghost use Rattle.tw_abstract.specs.Quantifiers.{AreQuantifiers};
ghost use Rattle.tw_abstract.specs.Reading.{IsSettled};

use crate::finding::find;
use crate::typing::{candidates, context_of};
use crate::{Positions, quantifier_order};
use std::alloc::Global;
use tw_hered::HeredFault;
use tw_metas::Store;
use tw_terms::{Context, MetaId};

/// The metavariables that become implicit quantifiers, and the context of their types.
#[derive(Drop)]
pub struct Quantifiers {
    pub positions: Positions,
    pub context: Context,
}

/// The quantifiers of a store that is solved. The metavariables in the values of the sites come first, in order of first occurrence, and then the
/// other free ones; of these, repeatedly the first that mentions only those outside of it.
///
/// Answers `TooDeep` only where the value of a site or the type of a quantifier is deeper than 4,096, with all values put in. A site that isn't a
/// metavariable of the store counts as want of memory.
pub fn read_quantifiers(
    alloc: Global,
    store: &Store,
    sites: &[MetaId],
) -> Result<Quantifiers, HeredFault>
    requires { IsSettled store.now.now }
    ensures { MatchResult result (λ q. AreQuantifiers store.now.now (map (λ m. m.0) sites.now) q.positions q.context) (λ f. BlamesQuantifiers f store.now.now (map (λ m. m.0) sites.now)) }
{
    let found = find(alloc, store, sites)?;
    let candidates = candidates(alloc, store, found.metas())?;
    let positions = quantifier_order(alloc, &candidates)?.unwrap();
    let context = context_of(alloc, store, positions.metas())?;
    Ok(Quantifiers { positions, context })
}
