//! Solving: steps of unification until nothing is left, no step is possible, or there is no typed unifier.
ghost use Rattle.std.specs.Prelude.{◌≡◌, [], ◌∷◌, map, IfOk, OnOk, MatchOption, MatchResult};
ghost use Rattle.lf.specs.Entries.{signature_of, IsCanonicalSignature};
ghost use Rattle.tw_metas.specs.View.{equation_of};
ghost use Rattle.tw_putting.specs.Whole.{IsConsistent, whole};
ghost use Rattle.tw_putting.specs.Ready.{IsLater, IsReady};
ghost use Rattle.tw_unify.specs.Outcomes.{Explains, stacked};
ghost use Rattle.tw_unify.specs.Reaching.{IsKnown, marking_of};
ghost use Rattle.tw_unify.specs.Answers.{Answers, KeepsSides, RenewsOnlyReached, RestIs, StaysReady};
ghost use Rattle.tw_unify.specs.Sides.{AllLeft};
ghost use Rattle.tw_unify.specs.Watching.{KeepsBindings, Watches, diary_of};
ghost use Rattle.lf_unification.specs.ReachedRuns.{ReachedRun};

use crate::fault::UnifyFault;
use crate::postponed::wake;
use crate::reach::Walk;
use crate::step::advance;
use crate::watch::Watch;
use crate::work::Advance;
use std::alloc::Global;
use tw_metas::{Equation, Store};
use tw_signature::Signature;

/// What solving comes to.
#[derive(Clone, Copy, PartialEq, Eq, Debug)]
pub enum Unified {
    /// The bindings are a most general unifier among typed ones, and no equation is left.
    Solved,
    /// No typed unifier exists.
    Never,
    /// The same as solved, relative to the equations that are postponed; each is outside the pattern fragment.
    Left,
}

/// Solves the equations, and those that are postponed in the store.
///
/// An equation that is left has on its left side what came of the left side of one that was handed in or stood. Answers `TooDeep` only where the equations are deep. After `Never` or a fault the store may hold new bindings; a mark taken before still leads back.
pub fn solve(
    alloc: Global,
    store: &mut Store,
    signature: &Signature,
    equations: Vec<Equation>,
) -> Result<Unified, UnifyFault>
    requires { IsReady (signature_of signature.now) (map equation_of equations.items) store.old.now }
    ensures answer { MatchResult result (λ a. Answers a (signature_of signature.now) (whole (map equation_of equations.items) store.old.now) (whole [] store.new.now)) (λ f. Explains f (signature_of signature.now) (whole (map equation_of equations.items) store.old.now)) }
    ensures renews { IfOk result (λ a. RenewsOnlyReached a (signature_of signature.now) (whole (map equation_of equations.items) store.old.now) (whole [] store.new.now)) }
    ensures sides { IfOk result (λ a. KeepsSides a (whole (map equation_of equations.items) store.old.now) (whole [] store.new.now)) }
    ensures ready { IfOk result (λ a. StaysReady a (signature_of signature.now) store.new.now) }
    ensures consistent { IsConsistent store.new.now }
    ensures story { IsLater store.old store.new }
{
    let mut watch = Watch::new(alloc, store.equations(), None)?;
    let mut met = Walk::new(alloc);
    solve_watched(alloc, store, signature, equations, &mut watch, &mut met)
}

/// The same where all equations that are postponed in the store are left, as `solve` leaves them. Of these it looks only at such as hang on a metavariable that it binds. What the occurs check
/// met in earlier calls it doesn't walk again, until an equation comes at which no side takes the other whole, and unless what is bound is of it; after a fault what it met is of no more use.
pub fn solve_more(
    alloc: Global,
    store: &mut Store,
    signature: &Signature,
    equations: Vec<Equation>,
    met: &mut Walk,
) -> Result<Unified, UnifyFault>
    requires ready { IsReady (signature_of signature.now) (map equation_of equations.items) store.old.now }
    requires left { AllLeft store.old.now store.old.now.equations }
    requires known { IsKnown store.old.now (marking_of met.old) }
    ensures answer { MatchResult result (λ a. Answers a (signature_of signature.now) (whole (map equation_of equations.items) store.old.now) (whole [] store.new.now)) (λ f. Explains f (signature_of signature.now) (whole (map equation_of equations.items) store.old.now)) }
    ensures renews { IfOk result (λ a. RenewsOnlyReached a (signature_of signature.now) (whole (map equation_of equations.items) store.old.now) (whole [] store.new.now)) }
    ensures sides { IfOk result (λ a. KeepsSides a (whole (map equation_of equations.items) store.old.now) (whole [] store.new.now)) }
    ensures ready { IfOk result (λ a. StaysReady a (signature_of signature.now) store.new.now) }
    ensures consistent { IsConsistent store.new.now }
    ensures story { IsLater store.old store.new }
    ensures known { OnOk result (IsKnown store.new.now (marking_of met.new)) }
{
    let mut watch = Watch::new(alloc, store.equations(), Some(0))?;
    solve_watched(alloc, store, signature, equations, &mut watch, met)
}

/// The same with what is known of the postponed equations.
fn solve_watched(
    alloc: Global,
    store: &mut Store,
    signature: &Signature,
    equations: Vec<Equation>,
    watch: &mut Watch,
    met: &mut Walk,
) -> Result<Unified, UnifyFault>
    requires ready { IsReady (signature_of signature.now) (map equation_of equations.items) store.old.now }
    requires watches { Watches store.old.now (diary_of watch.old) }
    requires known { IsKnown store.old.now (marking_of met.old) }
    ensures answer { MatchResult result (λ a. Answers a (signature_of signature.now) (whole (map equation_of equations.items) store.old.now) (whole [] store.new.now)) (λ f. Explains f (signature_of signature.now) (whole (map equation_of equations.items) store.old.now)) }
    ensures renews { IfOk result (λ a. RenewsOnlyReached a (signature_of signature.now) (whole (map equation_of equations.items) store.old.now) (whole [] store.new.now)) }
    ensures sides { IfOk result (λ a. KeepsSides a (whole (map equation_of equations.items) store.old.now) (whole [] store.new.now)) }
    ensures ready { IfOk result (λ a. StaysReady a (signature_of signature.now) store.new.now) }
    ensures consistent { IsConsistent store.new.now }
    ensures story { IsLater store.old store.new }
    ensures known { OnOk result (IsKnown store.new.now (marking_of met.new)) }
{
    signature.is_canonical();
    let mut work = equations;
    work.reverse();
    let mut fresh = work.len();
    for _ in 0..u64::MAX {
        let next = next_equation(alloc, store, signature, &mut work, watch)?;
        match next {
            None => return Ok(rest(store)),
            Some(equation) => {
                let is_fresh = work.len() < fresh;
                fresh = fresh.min(work.len());
                let outcome = advance(alloc, store, signature, &mut work, met, equation, is_fresh)?;
                match outcome {
                    Advance::Refuted => return Ok(Unified::Never),
                    came => watch.note(came)?,
                }
            }
        }
    }
    // Each turn makes steps or postpones; no measure of the equations is proved to fall, so the turns are counted.
    Err(UnifyFault::NoMemory)
}

/// The next equation at work, or one that was postponed and at which a step is possible.
fn next_equation(
    alloc: Global,
    store: &mut Store,
    signature: &Signature,
    work: &mut Vec<Equation>,
    watch: &mut Watch,
) -> Result<Option<Equation>, UnifyFault>
    requires canonical { IsCanonicalSignature signature.now }
    requires ready { IsReady (signature_of signature.now) (stacked work.old.items) store.old.now }
    requires watches { Watches store.old.now (diary_of watch.old) }
    ensures next { MatchResult result (λ r. MatchOption r ((stacked work.old.items ≡ []) × AllLeft store.old.now store.old.now.equations × (store.new ≡ store.old)) (λ e. ReachedRun (signature_of signature.now) (whole (stacked work.old.items) store.old.now) (whole (equation_of e ∷ stacked work.new.items) store.new.now))) (λ f. Explains f (signature_of signature.now) (whole (stacked work.old.items) store.old.now)) }
    ensures keeps { IfOk result (λ r. KeepsBindings store.old.now store.new.now) }
    ensures watches { IfOk result (λ r. Watches store.new.now (diary_of watch.new)) }
    ensures consistent { IsConsistent store.new.now }
    ensures story { IsLater store.old store.new }
{
    match work.pop() {
        Some(equation) => Ok(Some(equation)),
        None => wake(alloc, store, signature, watch),
    }
}

/// The answer where no step is possible any more.
fn rest(store: &Store) -> Unified
    ensures { RestIs result store.now.now.equations }
{
    if store.equations().is_empty() {
        Unified::Solved
    } else {
        Unified::Left
    }
}
