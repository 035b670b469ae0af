//! Equations one of whose sides has a metavariable as its head.
ghost use Rattle.std.specs.Prelude.{◌≡◌, ◌∷◌, IfOk, IfSome, OnOk, MatchResult};
ghost use Rattle.lf.specs.Typing.{Signature};
ghost use Rattle.tw_terms.specs.OpenView.{open_term_of, open_spine_of, open_type_of};
ghost use Rattle.tw_metas.specs.State.{IsUnbound};
ghost use Rattle.tw_metas.specs.View.{equation_of};
ghost use Rattle.tw_putting.specs.Fits.{TypesCanTake};
ghost use Rattle.tw_putting.specs.Ready.{IsLater};
ghost use Rattle.tw_putting.specs.Whole.{IsConsistent, whole};
ghost use Rattle.tw_unify.specs.Outcomes.{Advances, stacked};
ghost use Rattle.tw_unify.specs.Moving.{IsRenewal, SidesFit};
ghost use Rattle.tw_unify.specs.Watching.{Changes};
ghost use Rattle.tw_unify.specs.Flexible.{AllowsMove, BlamesReached, BlamesType, BothHeadsFit, FlexibleFits, IsNext, IsRenewed, MoveFits, pruned_state};

use crate::fault::UnifyFault;
use crate::moves::{Move, find_at_once, find_move, value_over};
use crate::stale::find_stale;
use crate::work::{Advance, put_back};
use std::alloc::{AllocError, Global};
use tw_metas::{Equation, Store};
use tw_prune::{Pruned, arity, push_newest};
use tw_putting::put_in_type;
use tw_terms::{MetaId, Open, OpenContext, OpenHead, OpenSpine};

/// What is to be done about an equation one of whose sides has a metavariable as its head.
#[derive(Drop)]
pub enum Next {
    /// The sides are equal, so the equation is dropped.
    Drop,
    /// The left side allows a move against the right one.
    Left(Move),
    /// The right side allows a move against the left one.
    Right(Move),
    /// The type of this metavariable, which is reached from the sides, mentions a bound one: it is renewed, and the equation is looked at again.
    Renew(MetaId),
    /// No step is possible: the equation is outside the pattern fragment.
    Outside,
}

/// A move that one of the sides allows against the other as they stand, without putting any binding in. Fails only for want of memory.
pub fn move_at_once(
    alloc: Global,
    store: &Store,
    equation: &Equation,
) -> Result<Option<Move>, AllocError>
    requires { BothHeadsFit store.now.now (equation_of equation.now) }
    ensures { IfOk result (λ r. IfSome r (λ v. AllowsMove store.now.now (equation_of equation.now) v)) }
{
    let Equation {
        context,
        left,
        right,
        ty: _,
    } = equation;
    match find_at_once(alloc, store, context, left, right)? {
        Some(found) => Ok(Some(found)),
        None => find_at_once(alloc, store, context, right, left),
    }
}

/// What is to be done about the equation between `left` and `right`. Both stand in the local context, have one family, and have the bindings put in.
/// Fails only for want of memory.
pub fn find_next(
    alloc: Global,
    store: &Store,
    context: &OpenContext,
    left: &Open,
    right: &Open,
) -> Result<Next, AllocError>
    requires { SidesFit store.now.now context.now (open_term_of left.now) (open_term_of right.now) }
    ensures { IfOk result (λ n. IsNext store.now.now context.now (open_term_of left.now) (open_term_of right.now) n) }
{
    if left.same(right) {
        return Ok(Next::Drop);
    }
    if let Some(found) = find_move(alloc, store, context, left, right)? {
        return Ok(Next::Left(found));
    }
    if let Some(found) = find_move(alloc, store, context, right, left)? {
        return Ok(Next::Right(found));
    }
    if let Some(meta) = find_stale(alloc, store, left, right)? {
        return Ok(Next::Renew(meta));
    }
    Ok(Next::Outside)
}

/// Does what is to be done about an equation one of whose sides has a metavariable as its head. It has the bindings put in. Where no step is possible it is postponed.
///
/// Answers `TooDeep` only where the type of a metavariable that is reached from the sides is deep with the bindings put in.
pub fn do_flexible(
    alloc: Global,
    store: &mut Store,
    work: &mut Vec<Equation>,
    equation: Equation,
) -> Result<Advance, UnifyFault>
    requires fits { FlexibleFits store.old.now (equation_of equation) (stacked work.old.items) }
    requires types { TypesCanTake store.old.now }
    ensures done { MatchResult result (λ a. (Σ : Signature) → Advances a Σ (whole (equation_of equation ∷ stacked work.old.items) store.old.now) (whole (stacked work.new.items) store.new.now)) (λ f. BlamesReached f store.old.now (open_term_of equation.left) (open_term_of equation.right)) }
    ensures change { IfOk result (λ a. Changes a store.old.now store.new.now) }
    ensures consistent { IsConsistent store.new.now }
    ensures story { IsLater store.old store.new }
{
    let next = find_next(
        alloc,
        store,
        &equation.context,
        &equation.left,
        &equation.right,
    )?;
    match next {
        Next::Drop => Ok(Advance::Went),
        Next::Left(found) => Ok(make_move(alloc, store, work, equation, found)?),
        Next::Right(found) => Ok(make_move(alloc, store, work, equation, found)?),
        Next::Renew(meta) => {
            renew(alloc, store, meta)?;
            put_back(work, equation)?;
            Ok(Advance::Bound(meta))
        }
        Next::Outside => {
            store.postpone(alloc, equation)?;
            Ok(Advance::Postponed)
        }
    }
}

/// Makes a move that one side of the equation allows.
pub fn make_move(
    alloc: Global,
    store: &mut Store,
    work: &mut Vec<Equation>,
    equation: Equation,
    found: Move,
) -> Result<Advance, AllocError>
    requires { MoveFits store.old.now (equation_of equation) (stacked work.old.items) found }
    ensures done { IfOk result (λ a. (Σ : Signature) → Advances a Σ (whole (equation_of equation ∷ stacked work.old.items) store.old.now) (whole (stacked work.new.items) store.new.now)) }
    ensures change { IfOk result (λ a. Changes a store.old.now store.new.now) }
    ensures consistent { IsConsistent store.new.now }
    ensures story { IsLater store.old store.new }
{
    match found {
        Move::Bind(meta, value) => {
            store.bind(meta, value)?;
            Ok(Advance::Bound(meta))
        }
        Move::Lose(meta, pruned) => {
            lose(alloc, store, meta, pruned)?;
            put_back(work, equation)?;
            Ok(Advance::Bound(meta))
        }
        Move::Refute => Ok(Advance::Refuted),
    }
}

/// Binds the metavariable to a new one of the pruned type, on the arguments that stay.
fn lose(alloc: Global, store: &mut Store, meta: MetaId, pruned: Pruned) -> Result<(), AllocError>
    requires consistent { IsConsistent store.old.now }
    requires unbound { IsUnbound store.old.now meta.0 }
    ensures done { OnOk result (store.new.now ≡ pruned_state store.old.now meta.0 (open_type_of pruned.ty) (open_spine_of pruned.spine)) }
    ensures consistent { IsConsistent store.new.now }
    ensures story { IsLater store.old store.new }
{
    let Pruned { ty, spine } = pruned;
    let new = store.fresh(OpenContext::new(alloc), ty)?;
    let kept = Open::Root(OpenHead::Meta(new), spine);
    let value = value_over(alloc, store, meta, kept)?;
    store.bind(meta, value)?;
    Ok(())
}

/// Binds the metavariable to a new one of its type with the bindings put in. `TooDeep` only where that type is deep.
fn renew(alloc: Global, store: &mut Store, meta: MetaId) -> Result<(), UnifyFault>
    requires consistent { IsConsistent store.old.now }
    requires unbound { IsUnbound store.old.now meta.0 }
    requires types { TypesCanTake store.old.now }
    ensures done { MatchResult result (λ _. IsRenewed store.old.now meta.0 store.new.now) (λ f. BlamesType f store.old.now meta.0) }
    ensures consistent { IsConsistent store.new.now }
    ensures story { IsLater store.old store.new }
{
    let renewed = renewed_type(alloc, store, meta)?;
    lose(alloc, store, meta, renewed)?;
    Ok(())
}

/// The metavariable's type with the bindings put in, and the variables of the lambdas of its value.
fn renewed_type(alloc: Global, store: &Store, meta: MetaId) -> Result<Pruned, UnifyFault>
    requires unbound { IsUnbound store.now.now meta.0 }
    requires consistent { IsConsistent store.now.now }
    requires types { TypesCanTake store.now.now }
    ensures { MatchResult result (λ p. IsRenewal store.now.now meta.0 (open_type_of p.ty) (open_spine_of p.spine)) (λ f. BlamesType f store.now.now meta.0) }
{
    match store.about(meta) {
        Some((_, ty)) => {
            let put = put_in_type(alloc, store, 0, ty)?;
            let mut args = Vec::new(alloc);
            push_newest(alloc, ty, arity(ty)?, &mut args)?;
            Ok(Pruned {
                ty: put,
                spine: OpenSpine { args },
            })
        }
        None => unreachable!(),
    }
}
