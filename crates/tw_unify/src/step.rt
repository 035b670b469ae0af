//! One equation at work.
ghost use Rattle.std.specs.Prelude.{◌∷◌, IfOk, OnOk, MatchResult};
ghost use Rattle.lf.specs.Entries.{signature_of, IsCanonicalSignature};
ghost use Rattle.tw_metas.specs.View.{equation_of};
ghost use Rattle.tw_putting.specs.Ready.{IsLater, IsReady};
ghost use Rattle.tw_putting.specs.Whole.{IsConsistent, whole};
ghost use Rattle.tw_unify.specs.Outcomes.{Advances, Explains, stacked};
ghost use Rattle.tw_unify.specs.Reaching.{IsKnown, marking_of};
ghost use Rattle.tw_unify.specs.Sides.{HeadsStay, IsFlexibleEquation};
ghost use Rattle.tw_unify.specs.Watching.{Changes};

use crate::fault::UnifyFault;
use crate::flexible::{do_flexible, make_move, move_at_once};
use crate::reach::Walk;
use crate::rigid::{decompose, open_lambdas};
use crate::sides::{Shape, are_apart, put_both, shape_of, unfold_sides};
use crate::whole::{find_taker, take_whole};
use crate::work::Advance;
use std::alloc::Global;
use tw_metas::{Equation, Store};
use tw_signature::Signature;

/// Makes steps at an equation, which stands in front of those at work. Where it is `fresh` its sides are compared first; they were where it is a part of one that was.
pub fn advance(
    alloc: Global,
    store: &mut Store,
    signature: &Signature,
    work: &mut Vec<Equation>,
    met: &mut Walk,
    equation: Equation,
    fresh: bool,
) -> Result<Advance, UnifyFault>
    requires canonical { IsCanonicalSignature signature.now }
    requires ready { IsReady (signature_of signature.now) (equation_of equation ∷ stacked work.old.items) store.old.now }
    requires known { IsKnown store.old.now (marking_of met.old) }
    ensures done { MatchResult result (λ a. Advances a (signature_of signature.now) (whole (equation_of equation ∷ stacked work.old.items) store.old.now) (whole (stacked work.new.items) store.new.now)) (λ f. Explains f (signature_of signature.now) (whole (equation_of equation ∷ stacked work.old.items) store.old.now)) }
    ensures change { IfOk result (λ a. Changes a store.old.now store.new.now) }
    ensures known { OnOk result (IsKnown store.new.now (marking_of met.new)) }
    ensures consistent { IsConsistent store.new.now }
    ensures story { IsLater store.old store.new }
{
    if are_apart(store, &equation) {
        return Ok(Advance::Refuted);
    }
    if fresh && equation.left.same(&equation.right) {
        return Ok(Advance::Went);
    }
    let unfolded = unfold_sides(alloc, store, equation)?;
    make_steps(alloc, store, signature, work, met, unfolded)
}

/// Makes steps at an equation of which no head is bound.
fn make_steps(
    alloc: Global,
    store: &mut Store,
    signature: &Signature,
    work: &mut Vec<Equation>,
    met: &mut Walk,
    equation: Equation,
) -> Result<Advance, UnifyFault>
    requires canonical { IsCanonicalSignature signature.now }
    requires ready { IsReady (signature_of signature.now) (equation_of equation ∷ stacked work.old.items) store.old.now }
    requires stay { HeadsStay store.old.now (equation_of equation) }
    requires known { IsKnown store.old.now (marking_of met.old) }
    ensures done { MatchResult result (λ a. Advances a (signature_of signature.now) (whole (equation_of equation ∷ stacked work.old.items) store.old.now) (whole (stacked work.new.items) store.new.now)) (λ f. Explains f (signature_of signature.now) (whole (equation_of equation ∷ stacked work.old.items) store.old.now)) }
    ensures change { IfOk result (λ a. Changes a store.old.now store.new.now) }
    ensures known { OnOk result (IsKnown store.new.now (marking_of met.new)) }
    ensures consistent { IsConsistent store.new.now }
    ensures story { IsLater store.old store.new }
{
    match shape_of(&equation.left, &equation.right) {
        Shape::Lambdas => {
            open_lambdas(work, equation)?;
            Ok(Advance::Went)
        }
        Shape::Alike => {
            decompose(alloc, signature, work, equation)?;
            Ok(Advance::Went)
        }
        Shape::Apart => Ok(Advance::Refuted),
        Shape::Flexible => at_flexible(alloc, store, signature, work, met, equation),
        Shape::Mixed => unreachable!(),
    }
}

/// Makes steps at an equation one of whose sides has a metavariable as its head: a side without arguments takes the other one, or there is a move that the sides allow as they stand,
/// or else one that they allow with the bindings put in.
fn at_flexible(
    alloc: Global,
    store: &mut Store,
    signature: &Signature,
    work: &mut Vec<Equation>,
    met: &mut Walk,
    equation: Equation,
) -> Result<Advance, UnifyFault>
    requires canonical { IsCanonicalSignature signature.now }
    requires ready { IsReady (signature_of signature.now) (equation_of equation ∷ stacked work.old.items) store.old.now }
    requires stay { HeadsStay store.old.now (equation_of equation) }
    requires flexible { IsFlexibleEquation (equation_of equation) }
    requires known { IsKnown store.old.now (marking_of met.old) }
    ensures done { MatchResult result (λ a. Advances a (signature_of signature.now) (whole (equation_of equation ∷ stacked work.old.items) store.old.now) (whole (stacked work.new.items) store.new.now)) (λ f. Explains f (signature_of signature.now) (whole (equation_of equation ∷ stacked work.old.items) store.old.now)) }
    ensures change { IfOk result (λ a. Changes a store.old.now store.new.now) }
    ensures known { OnOk result (IsKnown store.new.now (marking_of met.new)) }
    ensures consistent { IsConsistent store.new.now }
    ensures story { IsLater store.old store.new }
{
    match find_taker(alloc, store, met, &equation)? {
        Some(taker) => {
            let taken = take_whole(store, equation, taker)?;
            Ok(Advance::Bound(taken))
        }
        None => {
            met.forget(alloc);
            at_patterns(alloc, store, signature, work, equation)
        }
    }
}

/// The same where no side moves into the store.
fn at_patterns(
    alloc: Global,
    store: &mut Store,
    signature: &Signature,
    work: &mut Vec<Equation>,
    equation: Equation,
) -> Result<Advance, UnifyFault>
    requires canonical { IsCanonicalSignature signature.now }
    requires ready { IsReady (signature_of signature.now) (equation_of equation ∷ stacked work.old.items) store.old.now }
    requires stay { HeadsStay store.old.now (equation_of equation) }
    requires flexible { IsFlexibleEquation (equation_of equation) }
    ensures done { MatchResult result (λ a. Advances a (signature_of signature.now) (whole (equation_of equation ∷ stacked work.old.items) store.old.now) (whole (stacked work.new.items) store.new.now)) (λ f. Explains f (signature_of signature.now) (whole (equation_of equation ∷ stacked work.old.items) store.old.now)) }
    ensures change { IfOk result (λ a. Changes a store.old.now store.new.now) }
    ensures consistent { IsConsistent store.new.now }
    ensures story { IsLater store.old store.new }
{
    match move_at_once(alloc, store, &equation)? {
        Some(found) => Ok(make_move(alloc, store, work, equation, found)?),
        None => {
            let put = put_both(alloc, store, equation)?;
            do_flexible(alloc, store, work, put)
        }
    }
}
