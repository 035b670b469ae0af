//! The equations that an offer leaves: the goal's arguments are gone along beside the head's, and what a new metavariable or the goal's can take at once it takes.
ghost use Rattle.std.specs.Prelude.{◌≡◌, [], IfOk, IfSome, IsErrOf, OnOk, Some};
ghost use Rattle.lf.specs.Entries.{signature_of};
ghost use Rattle.lf.specs.Syntax.{nil};
ghost use Rattle.lf.specs.Variables.{target_arguments as target_arguments_of};
ghost use Rattle.lf_unification.specs.Offering.{local_arguments as local_arguments_of};
ghost use Rattle.tw_putting.specs.Ready.{IsLater};
ghost use Rattle.tw_putting.specs.Whole.{IsConsistent};
ghost use Rattle.tw_terms.specs.OpenView.{open_spine_of};
ghost use Rattle.tw_terms.specs.View.{kind_of, spine_of, term_of};
ghost use Rattle.tw_search.specs.HeadTypes.{head_type_of};
ghost use Rattle.tw_unify.specs.Reaching.{marking_of};
ghost use Rattle.tw_search.specs.Reducing.{IsTaker, KeepsKnown, OfferedAreDeep, ReducesOffer, SettlesAll, SettlesOne, StaysKnown, WasOffered};

use crate::beside::{Pair, Went, indices_beside};
use crate::differing::first_differs;
use crate::giving::{give, is_open_atom, new_for};
use crate::goal::{OpenGoal, indices};
use crate::head_type::{Arguments, HeadType, target_arguments};
use crate::offer::{Offered, equations};
use std::alloc::{AllocError, Global};
use tw_hered::HeredFault;
use tw_metas::{Equation, Store};
use tw_open::is_plain;
use tw_signature::Signature;
use tw_terms::{Kind, MetaId, Spine, Term};
use tw_unify::Walk;

/// What is left of an offer's equations.
#[derive(Drop)]
pub(crate) enum Reduced {
    /// They have no typed unifier.
    Never,
    /// These are left.
    Left(Vec<Equation>),
}

/// Goes along the arguments where neither a local variable nor an equation is there yet, and the family's kind is plain; else all equations are left as they are. Answers `TooDeep` only where the equations are deep.
pub(crate) fn reduce<'a>(
    alloc: Global,
    store: &mut Store,
    signature: &Signature,
    met: &mut Walk,
    goal: &OpenGoal,
    offered: &Offered,
    ty: HeadType<'a>,
) -> Result<Reduced, HeredFault>
    requires was { WasOffered (signature_of signature.now) goal.now (head_type_of ty) offered.now.metas.items store.old.now }
    requires arguments { open_spine_of offered.now.arguments ≡ local_arguments_of goal.now.locals }
    ensures ok { IfOk result (ReducesOffer (signature_of signature.now) goal.now (head_type_of ty.entry) offered.now.metas.items store.old.now store.new.now) }
    ensures too_deep { IsErrOf result HeredFault.TooDeep → OfferedAreDeep (signature_of signature.now) goal.now (head_type_of ty.entry) offered.now.metas.items store.old.now }
    ensures known { OnOk result (StaysKnown offered.now.metas.items store.old.now (marking_of met.old) store.new.now (marking_of met.new)) }
    ensures story { IsLater store.old store.new }
{
    if goal.locals.len() > 0 || !store.equations().is_empty() {
        return as_they_are(alloc, store, signature, goal, offered, ty);
    }
    match (target_arguments(ty), signature.family_kind(goal.family)) {
        (Arguments::Closed(spine), Some(kind)) => {
            reduce_closed(alloc, store, signature, met, goal, offered, ty, spine, kind)
        }
        _ => as_they_are(alloc, store, signature, goal, offered, ty),
    }
}

/// The same of a constant, whose target has these arguments.
fn reduce_closed<'a>(
    alloc: Global,
    store: &mut Store,
    signature: &Signature,
    met: &mut Walk,
    goal: &OpenGoal,
    offered: &Offered,
    ty: HeadType<'a>,
    spine: &Spine,
    kind: &Kind,
) -> Result<Reduced, HeredFault>
    requires was { WasOffered (signature_of signature.now) goal.now (head_type_of ty) offered.now.metas.items store.old.now }
    requires arguments { open_spine_of offered.now.arguments ≡ local_arguments_of goal.now.locals }
    requires locals { goal.now.locals ≡ [] }
    requires none { store.old.now.equations ≡ [] }
    requires spine { spine_of spine.now ≡ target_arguments_of (head_type_of ty) }
    requires kind { Some (kind_of kind.now) ≡ (signature_of signature.now).kinds goal.now.family.0 }
    ensures ok { IfOk result (ReducesOffer (signature_of signature.now) goal.now (head_type_of ty.entry) offered.now.metas.items store.old.now store.new.now) }
    ensures too_deep { IsErrOf result HeredFault.TooDeep → OfferedAreDeep (signature_of signature.now) goal.now (head_type_of ty.entry) offered.now.metas.items store.old.now }
    ensures known { OnOk result (StaysKnown offered.now.metas.items store.old.now (marking_of met.old) store.new.now (marking_of met.new)) }
    ensures story { IsLater store.old store.new }
{
    signature.is_canonical();
    if !is_plain(kind) {
        return as_they_are(alloc, store, signature, goal, offered, ty);
    }
    let room = offered.metas.len().saturating_add(spine.args.len());
    let mut pairs = Vec::with_capacity(alloc, room)?;
    match indices_beside(
        alloc,
        store,
        signature,
        kind,
        indices(store, goal.hole),
        spine,
        &mut pairs,
    )? {
        Went::On => {
            let left = settle(alloc, store, &offered.metas, pairs)?;
            let equations = give(alloc, store, met, &offered.metas, left)?;
            if first_differs(store, signature, &equations) {
                Ok(Reduced::Never)
            } else {
                Ok(Reduced::Left(equations))
            }
        }
        Went::Clash => Ok(Reduced::Never),
        Went::Away => as_they_are(alloc, store, signature, goal, offered, ty),
    }
}

/// All equations, as they are; the store stays as it is.
fn as_they_are<'a>(
    alloc: Global,
    store: &Store,
    signature: &Signature,
    goal: &OpenGoal,
    offered: &Offered,
    ty: HeadType<'a>,
) -> Result<Reduced, HeredFault>
    requires was { WasOffered (signature_of signature.now) goal.now (head_type_of ty) offered.now.metas.items store.now.now }
    requires arguments { open_spine_of offered.now.arguments ≡ local_arguments_of goal.now.locals }
    ensures ok { IfOk result (ReducesOffer (signature_of signature.now) goal.now (head_type_of ty.entry) offered.now.metas.items store.now.now store.now.now) }
    ensures too_deep { IsErrOf result HeredFault.TooDeep → OfferedAreDeep (signature_of signature.now) goal.now (head_type_of ty.entry) offered.now.metas.items store.now.now }
{
    signature.is_canonical();
    Ok(Reduced::Left(equations(alloc, store, signature, goal, offered, ty)?))
}

/// Binds the new metavariables that the pairs allow to be bound at once, in order, and gives the other pairs.
fn settle<'a>(
    alloc: Global,
    store: &mut Store,
    metas: &[MetaId],
    pairs: Vec<Pair<'a>>,
) -> Result<Vec<Pair<'a>>, AllocError>
    requires { IsConsistent store.old.now }
    ensures ok { IfOk result (λ v. SettlesAll metas.now pairs.entry.items v.items store.old.now store.new.now) }
    ensures consistent { IsConsistent store.new.now }
    ensures known { OnOk result (KeepsKnown metas.now store.old.now store.new.now) }
    ensures story { IsLater store.old store.new }
{
    let mut found = Vec::new(alloc);
    let mut rest = pairs;
    rest.reverse();
    while let Some(pair) = rest.pop() {
        settle_one(store, metas, pair, &mut found)?;
    }
    Ok(found)
}

/// Binds the new metavariable that the pair allows to be bound at once, or adds the pair to those that are left.
fn settle_one<'a>(
    store: &mut Store,
    metas: &[MetaId],
    pair: Pair<'a>,
    found: &mut Vec<Pair<'a>>,
) -> Result<(), AllocError>
    requires { IsConsistent store.old.now }
    ensures ok { OnOk result (SettlesOne metas.now pair.entry found.old.items store.old.now found.new.items store.new.now) }
    ensures consistent { IsConsistent store.new.now }
    ensures story { IsLater store.old store.new }
{
    match taker(store, metas, pair.right) {
        Some(meta) => store.bind(meta, pair.left),
        None => {
            found.push(pair)?;
            Ok(())
        }
    }
}

/// The new metavariable that stands for the clause's term, where that is a variable without arguments and of an atom, and not bound yet.
fn taker(store: &Store, metas: &[MetaId], term: &Term) -> Option<MetaId>
    requires { IsConsistent store.now.now }
    ensures { IfSome result (λ m. IsTaker store.now.now metas.now (term_of term.now) m) }
{
    let meta = new_for(metas, term)?;
    if is_open_atom(store, meta) {
        Some(meta)
    } else {
        None
    }
}
