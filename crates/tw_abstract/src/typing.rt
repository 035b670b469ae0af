//! The types of the metavariables that become quantifiers.
ghost use Rattle.std.specs.Prelude.{◌≡◌, [], ◌∷◌, ◌++◌, OnOk, MatchResult, map};
ghost use Rattle.lf.specs.Syntax.{LfType};
ghost use Rattle.tw_abstract.specs.OrderView.{waiting_of};
ghost use Rattle.tw_abstract.specs.Generalizing.{generalized_type};
ghost use Rattle.tw_abstract.specs.Positions.{index};
ghost use Rattle.tw_putting.specs.Stores.{PutsType, types_of};
ghost use Rattle.tw_terms.specs.OpenView.{open_type_of};
ghost use Rattle.tw_terms.specs.View.{type_of};
ghost use Rattle.tw_putting.specs.Fits.{TypesCanTake};
ghost use Rattle.tw_abstract.specs.Causes.{BlamesType, BlamesTypes};
ghost use Rattle.tw_abstract.specs.Quantifiers.{AreCandidates, IsCandidate, IsContextOf};

use crate::{Candidate, Positions, generalized_type};
use std::alloc::{AllocError, Global};
use tw_hered::HeredFault;
use tw_metas::Store;
use tw_putting::put_in_type;
use tw_terms::{Context, MetaId, OpenTy, Ty};

/// The metavariables, each with those that its type mentions.
pub fn candidates(
    alloc: Global,
    store: &Store,
    metas: &[MetaId],
) -> Result<Vec<Candidate>, HeredFault>
    requires { TypesCanTake store.now.now }
    ensures { MatchResult result (λ v. AreCandidates store.now.now (map (λ m. m.0) metas.now) (map waiting_of v.items)) (λ f. BlamesTypes f store.now.now (map (λ m. m.0) metas.now)) }
{
    let mut candidates = Vec::with_capacity(alloc, metas.len())?;
    for meta in metas {
        let candidate = candidate(alloc, store, *meta)?;
        add(&mut candidates, candidate)?;
    }
    Ok(candidates)
}

/// One more, behind the others.
fn add(candidates: &mut Vec<Candidate>, candidate: Candidate) -> Result<(), AllocError>
    ensures { OnOk result (candidates.new.items ≡ candidates.old.items ++ candidate ∷ []) }
{
    candidates.push(candidate)?;
    Ok(())
}

/// One of them.
fn candidate(alloc: Global, store: &Store, meta: MetaId) -> Result<Candidate, HeredFault>
    requires { TypesCanTake store.now.now }
    ensures { MatchResult result (λ c. IsCandidate store.now.now meta.0 (waiting_of c)) (λ f. BlamesType f store.now.now meta.0) }
{
    let ty = put_type(alloc, store, meta)?;
    Ok(Candidate::new(alloc, meta, &ty)?)
}

/// The context of the metavariables, the outermost first in the list: the type of each is over those outside of it.
pub fn context_of(alloc: Global, store: &Store, metas: &[MetaId]) -> Result<Context, HeredFault>
    requires { TypesCanTake store.now.now }
    ensures { MatchResult result (λ g. IsContextOf store.now.now (map (λ m. m.0) metas.now) g) (λ f. BlamesTypes f store.now.now (map (λ m. m.0) metas.now)) }
{
    let mut context = Context::new(alloc);
    let mut outside = Positions::new(alloc);
    for meta in metas {
        let ty = type_over(alloc, store, &outside, *meta)?;
        context.push(ty)?;
        outside.push(*meta)?;
    }
    Ok(context)
}

/// The type of a metavariable over the quantifiers outside of it.
fn type_over(
    alloc: Global,
    store: &Store,
    outside: &Positions,
    meta: MetaId,
) -> Result<Ty, HeredFault>
    requires { TypesCanTake store.now.now }
    ensures { MatchResult result (λ b. (A A' : LfType) × (types_of store.now.now meta.0 ≡ Some A) × PutsType store.now.now 0 A A' × (generalized_type (index outside.now) 0 A' ≡ Some (type_of b))) (λ f. BlamesType f store.now.now meta.0) }
{
    let ty = put_type(alloc, store, meta)?;
    match generalized_type(alloc, outside, 0, &ty)? {
        Some(ty) => Ok(ty),
        // Quantifiers in an order that stands leave no metavariable free; no clause of this call asks for such an order.
        None => Err(HeredFault::NoMemory),
    }
}

/// The type of a metavariable, with the values put in.
fn put_type(alloc: Global, store: &Store, meta: MetaId) -> Result<OpenTy, HeredFault>
    requires { TypesCanTake store.now.now }
    ensures { MatchResult result (λ b. (A : LfType) × (types_of store.now.now meta.0 ≡ Some A) × PutsType store.now.now 0 A (open_type_of b)) (λ f. BlamesType f store.now.now meta.0) }
{
    match store.about(meta) {
        Some((_, ty)) => Ok(put_in_type(alloc, store, 0, ty)?),
        // Sites are declared; no clause of this call asks for it.
        None => Err(HeredFault::NoMemory),
    }
}
