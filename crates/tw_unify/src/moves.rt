//! What can be done at a metavariable on a pattern.
ghost use Rattle.std.specs.Prelude.{◌≡◌, IfOk, IfSome, MatchOption};
ghost use Rattle.lf_unification.specs.OpenTyping.{Declares, MetavariablesIn, skeletons_of};
ghost use Rattle.lf_unification.specs.Pruning.{CanAgree, CanDrop};
ghost use Rattle.lf_unification.specs.Patterns.{lambdas_of};
ghost use Rattle.lf_unification.specs.Putting.{Unbound};
ghost use Rattle.tw_terms.specs.OpenView.{open_term_of, open_spine_of, open_type_of};
ghost use Rattle.tw_putting.specs.Stores.{types_of, bindings_of};
ghost use Rattle.tw_unify.specs.Moving.{SidesFit, AgainstFits, HeadsFit, IsBlocked, IsMoveAgainst, NoMove, NothingInside, IsMove, IsSame, KeepsIt, LosesIt};

use crate::reach::is_reached;
use std::alloc::{AllocError, Global};
use tw_metas::Store;
use tw_prune::{
    Inverted, Loss, Pruned, differences, invert, lambdas_over, losses, occurs_inside, pattern_of,
    prune_type,
};
use tw_terms::{MetaId, Open, OpenContext, OpenHead};

/// What is to be done about an equation one of whose sides is a metavariable on a pattern.
#[derive(Drop)]
pub enum Move {
    /// The metavariable is bound to this value.
    Bind(MetaId, Open),
    /// The metavariable loses an argument: it is bound to a new one of the pruned type, on the arguments that stay.
    Lose(MetaId, Pruned),
    /// There is no typed unifier.
    Refute,
}

/// What can be done where `left` is a metavariable on a pattern; None where it is none, or where nothing can be done.
/// Both sides stand in the local context, have one family, and have the bindings put in. Fails only for want of memory.
pub fn find_move(
    alloc: Global,
    store: &Store,
    context: &OpenContext,
    left: &Open,
    right: &Open,
) -> Result<Option<Move>, AllocError>
    requires { SidesFit store.now.now context.now (open_term_of left.now) (open_term_of right.now) }
    ensures { IfOk result (λ r. MatchOption r (IsBlocked store.now.now context.now (open_term_of left.now) (open_term_of right.now)) (λ v. IsMove store.now.now context.now (open_term_of left.now) (open_term_of right.now) v)) }
{
    match left {
        Open::Root(OpenHead::Meta(meta), spine) => {
            match pattern_of(alloc, context.len() as u64, spine)? {
                Some(pattern) => move_against(alloc, store, context, *meta, &pattern, right),
                None => Ok(None),
            }
        }
        _ => Ok(None),
    }
}

/// A move where `left` is a metavariable on a pattern and the other side can be inverted, or can never be, as it stands. None where it is none, or where the other side has to be
/// looked at with the bindings put in. Fails only for want of memory.
pub fn find_at_once(
    alloc: Global,
    store: &Store,
    context: &OpenContext,
    left: &Open,
    right: &Open,
) -> Result<Option<Move>, AllocError>
    requires { HeadsFit store.now.now context.now (open_term_of left.now) (open_term_of right.now) }
    ensures { IfOk result (λ r. IfSome r (λ v. IsMove store.now.now context.now (open_term_of left.now) (open_term_of right.now) v)) }
{
    match left {
        Open::Root(OpenHead::Meta(meta), spine) => {
            match pattern_of(alloc, context.len() as u64, spine)? {
                Some(pattern) => at_once_against(alloc, store, context, *meta, &pattern, right),
                None => Ok(None),
            }
        }
        _ => Ok(None),
    }
}

/// Such a move of the metavariable on the pattern.
fn at_once_against(
    alloc: Global,
    store: &Store,
    context: &OpenContext,
    meta: MetaId,
    pattern: &[u64],
    right: &Open,
) -> Result<Option<Move>, AllocError>
    requires { AgainstFits store.now.now context.now meta.0 pattern.now (open_term_of right.now) }
    ensures { IfOk result (λ r. IfSome r (λ v. IsMoveAgainst store.now.now context.now meta.0 pattern.now (open_term_of right.now) v)) }
{
    match invert(alloc, pattern, context.len() as u64, right)? {
        Inverted::Inverted(body) => {
            if is_reached(alloc, store, right, meta)? {
                Ok(None)
            } else {
                Ok(Some(Move::Bind(meta, value_over(alloc, store, meta, body)?)))
            }
        }
        Inverted::Never => Ok(Some(Move::Refute)),
        Inverted::Drop(_, _) | Inverted::Outside => Ok(None),
    }
}

/// What can be done at the metavariable on the pattern.
fn move_against(
    alloc: Global,
    store: &Store,
    context: &OpenContext,
    meta: MetaId,
    pattern: &[u64],
    right: &Open,
) -> Result<Option<Move>, AllocError>
    requires fits { AgainstFits store.now.now context.now meta.0 pattern.now (open_term_of right.now) }
    requires unbound { MetavariablesIn (Unbound (bindings_of store.now.now)) (open_term_of right.now) }
    ensures { IfOk result (λ r. MatchOption r (NoMove store.now.now context.now meta.0 pattern.now (open_term_of right.now)) (λ v. IsMoveAgainst store.now.now context.now meta.0 pattern.now (open_term_of right.now) v)) }
{
    match agreement(alloc, store, context, meta, pattern, right)? {
        Some(found) => Ok(Some(found)),
        None => by_inversion(alloc, store, context, meta, pattern, right),
    }
}

/// What can be done where the other side is the same metavariable, on another pattern.
fn agreement(
    alloc: Global,
    store: &Store,
    context: &OpenContext,
    meta: MetaId,
    pattern: &[u64],
    right: &Open,
) -> Result<Option<Move>, AllocError>
    requires { AgainstFits store.now.now context.now meta.0 pattern.now (open_term_of right.now) }
    ensures { IfOk result (λ r. MatchOption r (CanAgree (types_of store.now.now) context.now meta.0 pattern.now (open_term_of right.now) → ⊥) (λ v. IsMoveAgainst store.now.now context.now meta.0 pattern.now (open_term_of right.now) v)) }
{
    match right {
        Open::Root(OpenHead::Meta(other), spine) => {
            if other.0 != meta.0 {
                return Ok(None);
            }
            match pattern_of(alloc, context.len() as u64, spine)? {
                Some(other_pattern) => {
                    differing(alloc, store, context, meta, pattern, &other_pattern, right)
                }
                None => Ok(None),
            }
        }
        _ => Ok(None),
    }
}

/// The first argument at which the two patterns differ that the metavariable can lose.
fn differing(
    alloc: Global,
    store: &Store,
    context: &OpenContext,
    meta: MetaId,
    pattern: &[u64],
    other_pattern: &[u64],
    right: &Open,
) -> Result<Option<Move>, AllocError>
    requires fits { AgainstFits store.now.now context.now meta.0 pattern.now (open_term_of right.now) }
    requires same { IsSame store.now.now context.now meta.0 other_pattern.now (open_term_of right.now) }
    ensures { IfOk result (λ r. MatchOption r (CanAgree (types_of store.now.now) context.now meta.0 pattern.now (open_term_of right.now) → ⊥) (λ v. IsMoveAgainst store.now.now context.now meta.0 pattern.now (open_term_of right.now) v)) }
{
    let places = differences(alloc, pattern, other_pattern)?;
    match store.about(meta) {
        Some((_, ty)) => {
            for place in &places {
                match prune_type(alloc, ty, *place)? {
                    Some(pruned) => return Ok(Some(Move::Lose(meta, pruned))),
                    None => (),
                }
            }
            Ok(None)
        }
        None => unreachable!(),
    }
}

/// What can be done by inverting the other side.
fn by_inversion(
    alloc: Global,
    store: &Store,
    context: &OpenContext,
    meta: MetaId,
    pattern: &[u64],
    right: &Open,
) -> Result<Option<Move>, AllocError>
    requires fits { AgainstFits store.now.now context.now meta.0 pattern.now (open_term_of right.now) }
    requires no_agreement { CanAgree (types_of store.now.now) context.now meta.0 pattern.now (open_term_of right.now) → ⊥ }
    requires unbound { MetavariablesIn (Unbound (bindings_of store.now.now)) (open_term_of right.now) }
    ensures { IfOk result (λ r. MatchOption r (NoMove store.now.now context.now meta.0 pattern.now (open_term_of right.now)) (λ v. IsMoveAgainst store.now.now context.now meta.0 pattern.now (open_term_of right.now) v)) }
{
    match invert(alloc, pattern, context.len() as u64, right)? {
        Inverted::Inverted(body) => {
            if is_reached(alloc, store, right, meta)? {
                inside(alloc, store, context, meta, pattern, right)
            } else {
                Ok(Some(Move::Bind(meta, value_over(alloc, store, meta, body)?)))
            }
        }
        Inverted::Never => Ok(Some(Move::Refute)),
        Inverted::Drop(_, _) | Inverted::Outside => {
            inside(alloc, store, context, meta, pattern, right)
        }
    }
}

/// The body under the lambdas of the metavariable's type.
pub fn value_over(
    alloc: Global,
    store: &Store,
    meta: MetaId,
    body: Open,
) -> Result<Open, AllocError>
    requires { Declares (types_of store.now.now) meta.0 }
    ensures { IfOk result (λ v. open_term_of v ≡ lambdas_of (skeletons_of (types_of store.now.now) meta.0) (open_term_of body)) }
{
    match store.about(meta) {
        Some((_, ty)) => lambdas_over(alloc, ty, body),
        None => unreachable!(),
    }
}

/// What an occurrence inside the other side allows: of the metavariable itself, or of one that can lose an argument.
fn inside(
    alloc: Global,
    store: &Store,
    context: &OpenContext,
    meta: MetaId,
    pattern: &[u64],
    right: &Open,
) -> Result<Option<Move>, AllocError>
    requires fits { AgainstFits store.now.now context.now meta.0 pattern.now (open_term_of right.now) }
    requires unbound { MetavariablesIn (Unbound (bindings_of store.now.now)) (open_term_of right.now) }
    ensures { IfOk result (λ r. MatchOption r (NothingInside store.now.now context.now meta.0 pattern.now (open_term_of right.now)) (λ v. IsMoveAgainst store.now.now context.now meta.0 pattern.now (open_term_of right.now) v)) }
{
    if occurs_inside(alloc, meta, context.len() as u64, right)? {
        Ok(Some(Move::Refute))
    } else {
        losing(alloc, store, context, meta, pattern, right)
    }
}

/// The first metavariable in the other side that must lose an argument and can.
fn losing(
    alloc: Global,
    store: &Store,
    context: &OpenContext,
    meta: MetaId,
    pattern: &[u64],
    right: &Open,
) -> Result<Option<Move>, AllocError>
    requires fits { AgainstFits store.now.now context.now meta.0 pattern.now (open_term_of right.now) }
    requires unbound { MetavariablesIn (Unbound (bindings_of store.now.now)) (open_term_of right.now) }
    ensures { IfOk result (λ r. MatchOption r (CanDrop (types_of store.now.now) context.now (skeletons_of (types_of store.now.now) meta.0) pattern.now (open_term_of right.now) → ⊥) (λ v. IsMoveAgainst store.now.now context.now meta.0 pattern.now (open_term_of right.now) v)) }
{
    let found = losses(alloc, pattern, context.len() as u64, right)?;
    for loss in &found {
        match lost(alloc, store, *loss)? {
            Some(pruned) => return Ok(Some(Move::Lose(loss.meta, pruned))),
            None => (),
        }
    }
    Ok(None)
}

/// The metavariable's type without the argument.
fn lost(alloc: Global, store: &Store, loss: Loss) -> Result<Option<Pruned>, AllocError>
    requires { Declares (types_of store.now.now) loss.meta.0 }
    ensures { IfOk result (λ r. MatchOption r (KeepsIt store.now.now loss.meta.0 loss.place) (λ p. LosesIt store.now.now loss.meta.0 loss.place (open_type_of p.ty) (open_spine_of p.spine))) }
{
    match store.about(loss.meta) {
        Some((_, ty)) => prune_type(alloc, ty, loss.place),
        None => unreachable!(),
    }
}
