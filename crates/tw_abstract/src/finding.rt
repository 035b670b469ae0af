//! The metavariables that become quantifiers.
ghost use Rattle.std.specs.Prelude.{◌≡◌, ℕ, List, IfOk, MatchResult, length, map};
ghost use Rattle.tw_abstract.specs.Occurrences.{noted, with_new};
ghost use Rattle.tw_metas.specs.State.{value_of};
ghost use Rattle.tw_abstract.specs.Causes.{BlamesSites, BlamesValue};
ghost use Rattle.tw_abstract.specs.Quantifiers.{AreFound, AreUnbound, SitesHave, ValueHas, unbound_below};
ghost use Rattle.tw_abstract.specs.Reading.{IsSettled};

use crate::{Positions, note_term};
use std::alloc::{AllocError, Global};
use tw_hered::HeredFault;
use tw_metas::Store;
use tw_putting::put_in;
use tw_terms::MetaId;

/// Those in the values of the sites, in order of first occurrence, and then the others of the store that aren't bound, by number.
pub fn find(alloc: Global, store: &Store, sites: &[MetaId]) -> Result<Positions, HeredFault>
    requires { IsSettled store.now.now }
    ensures { MatchResult result (λ p. AreFound store.now.now (map (λ m. m.0) sites.now) p) (λ f. BlamesSites f store.now.now (map (λ m. m.0) sites.now)) }
{
    let mut found = Positions::new(alloc);
    note_sites(alloc, store, &mut found, sites)?;
    note_unbound(store, &mut found)?;
    Ok(found)
}

/// Adds the metavariables in the values of the sites.
fn note_sites(
    alloc: Global,
    store: &Store,
    found: &mut Positions,
    sites: &[MetaId],
) -> Result<(), HeredFault>
    requires settled { IsSettled store.now.now }
    requires unbound { AreUnbound store.now.now found.old }
    ensures noted { MatchResult result (λ _. (ns : List ℕ) × SitesHave store.now.now (map (λ m. m.0) sites.now) ns × (found.new ≡ noted found.old ns)) (λ f. BlamesSites f store.now.now (map (λ m. m.0) sites.now)) }
    ensures unbound { IfOk result (λ _. AreUnbound store.now.now found.new) }
{
    for site in sites {
        note_site(alloc, store, found, *site)?;
    }
    Ok(())
}

/// Adds the metavariables in the value of the site, which is its own where it isn't bound.
fn note_site(
    alloc: Global,
    store: &Store,
    found: &mut Positions,
    site: MetaId,
) -> Result<(), HeredFault>
    requires settled { IsSettled store.now.now }
    requires unbound { AreUnbound store.now.now found.old }
    ensures noted { MatchResult result (λ _. (ns : List ℕ) × ValueHas store.now.now site.0 (value_of store.now.now site.0) ns × (found.new ≡ noted found.old ns)) (λ f. BlamesValue f store.now.now site.0) }
    ensures unbound { IfOk result (λ _. AreUnbound store.now.now found.new) }
{
    match store.value(site) {
        Some(value) => {
            let put = put_in(alloc, store, 0, value)?;
            note_term(found, &put)?;
        }
        None => {
            if store.about(site).is_none() {
                // Sites are declared; no clause of this call asks for it.
                return Err(HeredFault::NoMemory);
            }
            note(found, site)?;
        }
    }
    Ok(())
}

/// Adds the metavariables of the store that aren't bound. The walk over the store ends where as many are found as there are.
fn note_unbound(store: &Store, found: &mut Positions) -> Result<(), AllocError>
    requires settled { IsSettled store.now.now }
    requires unbound { AreUnbound store.now.now found.old }
    ensures { IfOk result (λ _. found.new ≡ noted found.old (unbound_below store.now.now (length store.now.now.declared))) }
{
    let declared = store.declared_count();
    let unbound = declared - store.bound_count();
    for number in 0..declared {
        if found.metas().len() >= unbound {
            return Ok(());
        }
        let meta = MetaId(number as u64);
        if store.value(meta).is_none() {
            note(found, meta)?;
        }
    }
    Ok(())
}

/// Adds one metavariable, where it isn't there yet.
fn note(found: &mut Positions, meta: MetaId) -> Result<(), AllocError>
    ensures { IfOk result (λ _. found.new ≡ with_new found.old meta.0) }
{
    if found.variable(meta).is_none() {
        found.push(meta)?;
    }
    Ok(())
}
