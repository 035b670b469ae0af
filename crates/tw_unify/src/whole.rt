//! Metavariables without arguments, bound to a whole side.
ghost use Rattle.std.specs.Prelude.{[], ℕ, ◌⊎◌, IfOk, IfSome, OnOk};
ghost use Rattle.lf.specs.Typing.{Signature};
ghost use Rattle.tw_terms.specs.OpenView.{open_term_of};
ghost use Rattle.tw_metas.specs.State.{State};
ghost use Rattle.tw_metas.specs.View.{equation_of};
ghost use Rattle.tw_putting.specs.Ready.{IsLater};
ghost use Rattle.tw_putting.specs.Whole.{IsConsistent};
ghost use Rattle.tw_unify.specs.Flexible.{BindsWhole, BothHeadsFit, IsReachedFrom, IsTaken, TakenIsMet, TakesWhole};
ghost use Rattle.lf_unification.specs.OpenTyping.{MetavariablesIn};
ghost use Rattle.lf_unification.specs.Reach.{IsReached};
ghost use Rattle.tw_putting.specs.Stores.{bindings_of, types_of};
ghost use Rattle.tw_unify.specs.Moving.{HeadsFit};
ghost use Rattle.tw_unify.specs.Reaching.{IsClosed, IsMarked, Marking, marking_of};
ghost use Rattle.tw_unify.specs.Watching.{BindsOne};

use crate::glance::is_avoided_at_once;
use crate::reach::{Walk, is_reached_now};
use std::alloc::{AllocError, Global};
use tw_metas::{Equation, Store};
use tw_terms::{MetaId, Open, OpenHead};

/// The side that is a metavariable without arguments, and is bound to the whole other side.
#[derive(Clone, Copy, Debug)]
pub enum Taker {
    Left(MetaId),
    Right(MetaId),
}

/// A side that is an unbound metavariable without arguments and can be bound to the other side as it stands. None where there are local variables. What the occurs check met before isn't walked again. Fails only for want of memory.
pub fn find_taker(
    alloc: Global,
    store: &Store,
    met: &mut Walk,
    equation: &Equation,
) -> Result<Option<Taker>, AllocError>
    requires fits { BothHeadsFit store.now.now (equation_of equation.now) }
    requires closed { IsClosed (types_of store.now.now) (bindings_of store.now.now) (marking_of met.old) }
    ensures takes { IfOk result (λ r. IfSome r (λ t. TakesWhole store.now.now (equation_of equation.now) t)) }
    ensures met { IfOk result (λ r. IfSome r (λ t. TakenIsMet (marking_of met.new) (equation_of equation.now) t)) }
    ensures closed { OnOk result (IsClosed (types_of store.now.now) (bindings_of store.now.now) (marking_of met.new)) }
    ensures spread { OnOk result ((k : ℕ) → IsMarked (marking_of met.new) k → IsMarked (marking_of met.old) k ⊎ IsReachedFrom store.now.now (equation_of equation.now).left (equation_of equation.now).right k) }
{
    if equation.context.len() > 0 {
        return Ok(None);
    }
    if let Some(meta) = takes_whole(alloc, store, met, &equation.left, &equation.right)? {
        return Ok(Some(Taker::Left(meta)));
    }
    match takes_whole(alloc, store, met, &equation.right, &equation.left)? {
        Some(meta) => Ok(Some(Taker::Right(meta))),
        None => Ok(None),
    }
}

/// The metavariable that is the left side, where it can be bound to the right one. There are no local variables.
fn takes_whole(
    alloc: Global,
    store: &Store,
    met: &mut Walk,
    left: &Open,
    right: &Open,
) -> Result<Option<MetaId>, AllocError>
    requires fits { HeadsFit store.now.now [] (open_term_of left.now) (open_term_of right.now) }
    requires closed { IsClosed (types_of store.now.now) (bindings_of store.now.now) (marking_of met.old) }
    ensures binds { IfOk result (λ r. IfSome r (λ m. BindsWhole store.now.now (open_term_of left.now) (open_term_of right.now) m)) }
    ensures met { IfOk result (λ r. IfSome r (λ m. IsMarked (marking_of met.new) m.0 → MetavariablesIn (IsMarked (marking_of met.new)) (open_term_of right.now))) }
    ensures closed { OnOk result (IsClosed (types_of store.now.now) (bindings_of store.now.now) (marking_of met.new)) }
    ensures spread { OnOk result ((k : ℕ) → IsMarked (marking_of met.new) k → IsMarked (marking_of met.old) k ⊎ IsReached (types_of store.now.now) (bindings_of store.now.now) (open_term_of right.now) k) }
{
    match left {
        Open::Root(OpenHead::Meta(meta), spine) => {
            if !spine.args.is_empty() {
                return Ok(None);
            }
            if is_avoided_at_once(store, right, *meta) {
                met.forget_with(alloc, *meta);
                return Ok(Some(*meta));
            }
            if is_reached_now(alloc, store, met, right, *meta)? {
                Ok(None)
            } else {
                Ok(Some(*meta))
            }
        }
        _ => Ok(None),
    }
}

/// Binds the metavariable to the other side, which moves into the store.
pub fn take_whole(store: &mut Store, equation: Equation, taker: Taker) -> Result<MetaId, AllocError>
    requires consistent { IsConsistent store.old.now }
    requires takes { TakesWhole store.old.now (equation_of equation) taker }
    ensures done { OnOk result ((Σ : Signature) → IsTaken Σ store.old.now (equation_of equation) store.new.now) }
    ensures bound { IfOk result (λ m. BindsOne store.old.now m store.new.now) }
    ensures closed { OnOk result ((w : Marking) → IsClosed (types_of store.old.now) (bindings_of store.old.now) w → TakenIsMet w (equation_of equation) taker → IsClosed (types_of store.new.now) (bindings_of store.new.now) w) }
    ensures consistent { IsConsistent store.new.now }
    ensures story { IsLater store.old store.new }
{
    match taker {
        Taker::Left(meta) => {
            store.bind(meta, equation.right)?;
            Ok(meta)
        }
        Taker::Right(meta) => {
            store.bind(meta, equation.left)?;
            Ok(meta)
        }
    }
}
