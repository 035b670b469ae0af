//! The equations that are postponed.
ghost use Rattle.std.specs.Prelude.{◌≡◌, ◌<◌, [], ◌∷◌, length, IfOk, MatchOption, MatchResult};
ghost use Rattle.std.specs.Bool.{OnTrue};
ghost use Rattle.lf.specs.Entries.{signature_of, IsCanonicalSignature};
ghost use Rattle.lf_unification.specs.ReachedRuns.{ReachedRun};
ghost use Rattle.tw_metas.specs.View.{equation_of};
ghost use Rattle.tw_putting.specs.Whole.{IsConsistent, whole};
ghost use Rattle.tw_putting.specs.Ready.{IsLater, IsReady};
ghost use Rattle.tw_unify.specs.Outcomes.{Explains};
ghost use Rattle.tw_unify.specs.Sides.{AllLeft, BlamesDepth, BlamesSome, IsLeft, MayBeLeft};
ghost use Rattle.tw_unify.specs.Watching.{CanGoOver, IsPast, KeepsBindings, Known, Watches, diary_of};

use crate::fault::UnifyFault;
use crate::flexible::{Next, find_next};
use crate::sides::{Shape, put_sides, shape_of};
use crate::watch::{Watch, is_untouched};
use std::alloc::Global;
use tw_metas::{Equation, Store};
use tw_signature::Signature;

/// Takes a postponed equation at which a step is possible out of the store; None where there is none. It goes on from where the last one stood, and looks only at equations that
/// aren't known to be left.
pub fn wake(
    alloc: Global,
    store: &mut Store,
    signature: &Signature,
    watch: &mut Watch,
) -> Result<Option<Equation>, UnifyFault>
    requires canonical { IsCanonicalSignature signature.now }
    requires ready { IsReady (signature_of signature.now) [] store.old.now }
    requires watches { Watches store.old.now (diary_of watch.old) }
    ensures woken { MatchResult result (λ r. MatchOption r (AllLeft store.old.now store.old.now.equations × (store.new ≡ store.old)) (λ e. ReachedRun (signature_of signature.now) (whole [] store.old.now) (whole (equation_of e ∷ []) store.new.now))) (λ f. Explains f (signature_of signature.now) (whole [] store.old.now)) }
    ensures keeps { IfOk result (λ r. KeepsBindings store.old.now store.new.now) }
    ensures watches { IfOk result (λ r. Watches store.new.now (diary_of watch.new)) }
    ensures consistent { IsConsistent store.new.now }
    ensures story { IsLater store.old store.new }
{
    match find_awake(alloc, store, watch)? {
        None => Ok(None),
        Some(at) => {
            let equation = store.equations()[at].copy(alloc)?;
            store.settle(at)?;
            watch.forget(at);
            Ok(Some(equation))
        }
    }
}

/// The place of a postponed equation at which a step is possible.
fn find_awake(alloc: Global, store: &Store, watch: &mut Watch) -> Result<Option<usize>, UnifyFault>
    requires over { CanGoOver store.now.now }
    requires watches { Watches store.now.now (diary_of watch.old) }
    ensures found { MatchResult result (λ r. MatchOption r (AllLeft store.now.now store.now.now.equations) (λ at. at < length store.now.now.equations)) (λ f. BlamesSome f store.now.now store.now.now.equations) }
    ensures watches { IfOk result (λ r. Watches store.now.now (diary_of watch.new)) }
{
    let next = watch.next;
    match find_from(alloc, store, watch, next)? {
        Some(at) => Ok(Some(at)),
        None => find_from(alloc, store, watch, 0),
    }
}

/// The first such place from this one on.
fn find_from(
    alloc: Global,
    store: &Store,
    watch: &mut Watch,
    from: usize,
) -> Result<Option<usize>, UnifyFault>
    requires over { CanGoOver store.now.now }
    requires watches { Watches store.now.now (diary_of watch.old) }
    ensures found { MatchResult result (λ r. MatchOption r (from ≡ 0 → AllLeft store.now.now store.now.now.equations) (λ at. at < length store.now.now.equations)) (λ f. BlamesSome f store.now.now store.now.now.equations) }
    ensures watches { IfOk result (λ r. Watches store.now.now (diary_of watch.new)) }
{
    let equations = store.equations();
    for at in from..equations.len() {
        let found = watch.found[at];
        let equation = &equations[at];
        let left = is_left_still(alloc, store, watch, equation, found)?;
        if !left {
            return Ok(Some(at));
        }
        watch.renew(at);
    }
    Ok(None)
}

/// Whether the equation is outside the pattern fragment, with the bindings put in: it was found so, and nothing that it hangs on was bound since, or it is found so now.
fn is_left_still(
    alloc: Global,
    store: &Store,
    watch: &Watch,
    equation: &Equation,
    found: Option<u64>,
) -> Result<bool, UnifyFault>
    requires consistent { IsConsistent store.now.now }
    requires may { MayBeLeft store.now.now (equation_of equation.now) }
    requires past { IsPast (diary_of watch.now) }
    requires known { Known store.now.now (diary_of watch.now) found (equation_of equation.now) }
    ensures { MatchResult result (λ b. OnTrue b (IsLeft store.now.now (equation_of equation.now))) (λ f. BlamesDepth f store.now.now (equation_of equation.now)) }
{
    match found {
        Some(since) => {
            let untouched = is_untouched(alloc, store, watch, equation, since)?;
            if untouched {
                return Ok(true);
            }
            is_left(alloc, store, equation)
        }
        None => is_left(alloc, store, equation),
    }
}

/// Whether the equation is outside the pattern fragment, with the bindings put in.
fn is_left(alloc: Global, store: &Store, equation: &Equation) -> Result<bool, UnifyFault>
    requires { MayBeLeft store.now.now (equation_of equation.now) }
    ensures { MatchResult result (λ b. OnTrue b (IsLeft store.now.now (equation_of equation.now))) (λ f. BlamesDepth f store.now.now (equation_of equation.now)) }
{
    let (left, right) = put_sides(alloc, store, equation)?;
    match shape_of(&left, &right) {
        Shape::Flexible => match find_next(alloc, store, &equation.context, &left, &right)? {
            Next::Outside => Ok(true),
            Next::Drop | Next::Left(_) | Next::Right(_) | Next::Renew(_) => Ok(false),
        },
        Shape::Lambdas | Shape::Alike | Shape::Apart | Shape::Mixed => Ok(false),
    }
}
