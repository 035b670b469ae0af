//! What a goal's metavariable can take of the clause at once it takes: constants, on new metavariables that aren't bound yet. Where a new one is bound already, the one side takes the other if it is a metavariable.
ghost use Rattle.std.specs.Prelude.{◌≡◌, IfOk, IfSome, OnOk, map};
ghost use Rattle.std.specs.Bool.{OnTrue};
ghost use Rattle.lf.specs.Syntax.{nil};
ghost use Rattle.lf_search.specs.AppliedHeads.{spine_with_applied, with_applied};
ghost use Rattle.lf_unification.specs.OpenTyping.{MetavariablesIn, MetavariablesInSpine};
ghost use Rattle.lf_unification.specs.Outside.{Holds};
ghost use Rattle.tw_metas.specs.State.{IsUnbound, with_value};
ghost use Rattle.tw_metas.specs.View.{equation_of};
ghost use Rattle.tw_putting.specs.Ready.{IsLater};
ghost use Rattle.tw_putting.specs.Stores.{bindings_of};
ghost use Rattle.tw_putting.specs.Whole.{IsConsistent};
ghost use Rattle.tw_terms.specs.OpenView.{open_spine_of, open_term_of, open_type_of};
ghost use Rattle.tw_terms.specs.View.{spine_of, term_of, type_of};
ghost use Rattle.tw_unify.specs.Reaching.{IsKnown, marking_of};
ghost use Rattle.tw_search.specs.Applied.{taken_at};
ghost use Rattle.tw_search.specs.Beside.{LeadsTo};
ghost use Rattle.tw_search.specs.Reducing.{CanTake, GivesAll, GivesOne, GivesSides, IsAtom, IsGiven, IsNewFor, IsOpenAtom, is_loose};

use crate::beside::{Pair, nearest};
use crate::closed_placing::closed_term_over;
use crate::forgetting::pass_over;
use std::alloc::{AllocError, Global};
use tw_metas::{Equation, Store};
use tw_putting::open_type;
use tw_terms::{Head, MetaId, Open, OpenContext, OpenHead, OpenSpine, OpenTy, Spine, Term, Ty};
use tw_unify::{Walk, is_avoided_at_once};

/// Binds the goal's metavariables that the pairs allow to be bound at once, in order, and gives the equations of the other pairs. What the occurs check met before is forgotten where such a metavariable is of it.
pub(crate) fn give<'a>(
    alloc: Global,
    store: &mut Store,
    met: &mut Walk,
    metas: &[MetaId],
    pairs: Vec<Pair<'a>>,
) -> Result<Vec<Equation>, AllocError>
    requires { IsConsistent store.old.now }
    ensures ok { IfOk result (λ v. GivesAll metas.now pairs.entry.items (map equation_of v.items) store.old.now store.new.now) }
    ensures consistent { IsConsistent store.new.now }
    ensures known { OnOk result (IsKnown store.old.now (marking_of met.old) → IsKnown store.new.now (marking_of met.new)) }
    ensures story { IsLater store.old store.new }
{
    let arguments = OpenSpine {
        args: Vec::new(alloc),
    };
    let mut found = Vec::new(alloc);
    let mut rest = pairs;
    rest.reverse();
    while let Some(pair) = rest.pop() {
        give_one(alloc, store, met, &arguments, metas, pair, &mut found)?;
    }
    Ok(found)
}

/// Binds the goal's metavariable that the pair allows to be bound at once, or adds the pair's equation.
fn give_one<'a>(
    alloc: Global,
    store: &mut Store,
    met: &mut Walk,
    arguments: &OpenSpine,
    metas: &[MetaId],
    pair: Pair<'a>,
    found: &mut Vec<Equation>,
) -> Result<(), AllocError>
    requires consistent { IsConsistent store.old.now }
    requires none { open_spine_of arguments.now ≡ nil }
    ensures ok { OnOk result (GivesOne metas.now pair.entry (map equation_of found.old.items) store.old.now (map equation_of found.new.items) store.new.now) }
    ensures consistent { IsConsistent store.new.now }
    ensures known { OnOk result (IsKnown store.old.now (marking_of met.old) → IsKnown store.new.now (marking_of met.new)) }
    ensures story { IsLater store.old store.new }
{
    let right = closed_term_over(alloc, arguments, metas, 0, pair.right)?;
    match given(store, metas, &pair.left, pair.right) {
        Some(meta) => take(alloc, store, met, meta, right),
        None => give_sides(alloc, store, met, pair.left, right, pair.ty, found),
    }
}

/// Binds the one side to the other, where that is a metavariable that allows it at once, or adds the equation of the sides. The right one is taken as far as it leads.
fn give_sides(
    alloc: Global,
    store: &mut Store,
    met: &mut Walk,
    left: Open,
    right: Open,
    ty: &Ty,
    found: &mut Vec<Equation>,
) -> Result<(), AllocError>
    requires { IsConsistent store.old.now }
    ensures ok { OnOk result (GivesSides (open_term_of left) (open_term_of right) (type_of ty.now) (map equation_of found.old.items) store.old.now (map equation_of found.new.items) store.new.now) }
    ensures consistent { IsConsistent store.new.now }
    ensures known { OnOk result (IsKnown store.old.now (marking_of met.old) → IsKnown store.new.now (marking_of met.new)) }
    ensures story { IsLater store.old store.new }
{
    let near = led(alloc, store, right)?;
    if let Some(meta) = taker_of(store, &left, &near) {
        return take(alloc, store, met, meta, near);
    }
    if let Some(meta) = taker_of(store, &near, &left) {
        return take(alloc, store, met, meta, left);
    }
    let ty = open_type(alloc, ty)?;
    found.push(Equation {
        context: OpenContext::new(alloc),
        left,
        right: near,
        ty,
    })?;
    Ok(())
}

/// Binds the metavariable. What was met before is forgotten where it is of it.
fn take(
    alloc: Global,
    store: &mut Store,
    met: &mut Walk,
    meta: MetaId,
    value: Open,
) -> Result<(), AllocError>
    requires consistent { IsConsistent store.old.now }
    requires unbound { IsUnbound store.old.now meta.0 }
    ensures ok { OnOk result (store.new.now ≡ with_value store.old.now meta.0 (open_term_of value)) }
    ensures consistent { IsConsistent store.new.now }
    ensures known { OnOk result (IsKnown store.old.now (marking_of met.old) → IsKnown store.new.now (marking_of met.new)) }
    ensures story { IsLater store.old store.new }
{
    pass_over(alloc, met, meta);
    store.bind(meta, value)
}

/// The last metavariable without arguments to which the term leads, or the term, which moves.
fn led(alloc: Global, store: &Store, term: Open) -> Result<Open, AllocError>
    requires { IsConsistent store.now.now }
    ensures { IfOk result (λ v. LeadsTo (bindings_of store.now.now) (open_term_of term) (open_term_of v)) }
{
    match term {
        Open::Root(OpenHead::Meta(_), _) => nearest(store, &term).copy(alloc),
        _ => Ok(term),
    }
}

/// The metavariable that the side is, where it is of an atom and not bound yet, and a glance shows that it isn't reached from the other side.
fn taker_of(store: &Store, side: &Open, other: &Open) -> Option<MetaId>
    requires { IsConsistent store.now.now }
    ensures { IfSome result (λ m. CanTake store.now.now (open_term_of side.now) (open_term_of other.now) m) }
{
    match side {
        Open::Root(OpenHead::Meta(meta), spine) => {
            if spine.args.is_empty()
                && is_open_atom(store, *meta)
                && is_avoided_at_once(store, other, *meta)
            {
                Some(*meta)
            } else {
                None
            }
        }
        _ => None,
    }
}

/// The metavariable that the goal's term is, where it is of an atom and not bound yet, and the clause's term has no lambda and, as variables, only such as are loose.
fn given(store: &Store, metas: &[MetaId], left: &Open, right: &Term) -> Option<MetaId>
    requires { IsConsistent store.now.now }
    ensures { IfSome result (λ m. IsGiven store.now.now metas.now (open_term_of left.now) (term_of right.now) m) }
{
    match left {
        Open::Root(OpenHead::Meta(meta), spine) => {
            if spine.args.is_empty()
                && is_open_atom(store, *meta)
                && mentions_loose(store, metas, *meta, right)
            {
                Some(*meta)
            } else {
                None
            }
        }
        _ => None,
    }
}

/// Whether the term has no lambda, and each variable in it stands for a new metavariable that is loose.
#[cycle(mentions)]
fn mentions_loose(store: &Store, metas: &[MetaId], goal: MetaId, term: &Term) -> bool
    ensures { OnTrue result (MetavariablesIn (λ k. Holds (is_loose store.now.now goal.0 k)) (with_applied (taken_at nil metas.now 0) (term_of term.now))) }
{
    match term {
        Term::Root(Head::Const(_), spine) => all_mention_loose(store, metas, goal, spine),
        Term::Root(Head::Var(_), _) => match new_for(metas, term) {
            Some(meta) => is_loose_for(store, goal, meta),
            None => false,
        },
        _ => false,
    }
}

/// Whether that holds of each argument.
#[cycle(mentions)]
fn all_mention_loose(store: &Store, metas: &[MetaId], goal: MetaId, spine: &Spine) -> bool
    ensures { OnTrue result (MetavariablesInSpine (λ k. Holds (is_loose store.now.now goal.0 k)) (spine_with_applied (taken_at nil metas.now 0) (spine_of spine.now))) }
{
    for arg in &spine.args {
        if !mentions_loose(store, metas, goal, arg) {
            return false;
        }
    }
    true
}

/// The new metavariable that stands for the clause's term, where that is a variable without arguments.
pub(crate) fn new_for(metas: &[MetaId], term: &Term) -> Option<MetaId>
    ensures { IfSome result (λ m. IsNewFor metas.now (term_of term.now) m) }
{
    match term {
        Term::Root(Head::Var(variable), spine) => {
            if !spine.args.is_empty() {
                return None;
            }
            let count = metas.len() as u64;
            let place = count.checked_sub(*variable)?.checked_sub(1)?;
            let meta = *metas.get(place as usize)?;
            Some(meta)
        }
        _ => None,
    }
}

/// Whether the metavariable isn't bound and its type is an atom.
pub(crate) fn is_open_atom(store: &Store, meta: MetaId) -> bool
    requires { IsConsistent store.now.now }
    ensures { OnTrue result (IsOpenAtom store.now.now meta.0) }
{
    if store.value(meta).is_some() {
        return false;
    }
    match store.about(meta) {
        Some((_, ty)) => is_atom(ty),
        None => false,
    }
}

/// Whether the type is an atom.
pub(crate) fn is_atom(ty: &OpenTy) -> bool
    ensures { OnTrue result (IsAtom (open_type_of ty.now)) }
{
    match ty {
        OpenTy::Atom(_, _) => true,
        OpenTy::Pi(_, _) => false,
    }
}

/// Whether the metavariable is another than the goal's, isn't bound, and its type is an atom without arguments.
fn is_loose_for(store: &Store, goal: MetaId, meta: MetaId) -> bool
    ensures { OnTrue result (Holds (is_loose store.now.now goal.0 meta.0)) }
{
    if meta.0 == goal.0 {
        return false;
    }
    match (store.value(meta), store.about(meta)) {
        (None, Some((_, OpenTy::Atom(_, spine)))) => spine.args.is_empty(),
        _ => false,
    }
}
