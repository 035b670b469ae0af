//! One try: a head is offered to a goal, and the equations are solved.
ghost use Rattle.std.specs.Prelude.{◌≡◌, MatchResult, OnOk};
ghost use Rattle.std.specs.Bool.{OnTrue};
ghost use Rattle.lf.specs.Entries.{signature_of};
ghost use Rattle.tw_putting.specs.Ready.{IsLater};
ghost use Rattle.tw_terms.specs.View.{head_of};
ghost use Rattle.tw_unify.specs.Reaching.{IsKnown, marking_of};
ghost use Rattle.lf_checks.specs.Parts.{shape};
ghost use Rattle.lf_unification.specs.Search.{OfferedHeadHasType};
ghost use Rattle.tw_search.specs.Goals.{IsHeadFor, StandsAtGoal};
ghost use Rattle.tw_search.specs.HeadTypes.{head_type_of};
ghost use Rattle.tw_search.specs.Tries.{IsTried, NeverFits, TriesDeep};

use crate::clash::{clashes, local_clashes};
use crate::forgetting::pass_over;
use crate::goal::{OpenGoal, indices};
use crate::head_type::HeadType;
use crate::occurs::open_shape_of;
use crate::offer::offer;
use crate::reducing::{Reduced, reduce};
use std::alloc::{AllocError, Global};
use tw_metas::Store;
use tw_putting::shift_type;
use tw_signature::Signature;
use tw_terms::{Head, MetaId};
use tw_unify::{Unified, UnifyFault, Walk, all_left_over_are_left, solve_more};

/// Tries the head at the goal. None where it gives no child; else the holes of its subgoals, in the order of the head's quantifiers. Heads that clash (`heads_clash`) are passed
/// over before, without an allocation. Of the equations that were postponed it looks only at such as hang on a metavariable that it binds; what the occurs check met before isn't walked again, unless what is to be bound is of it. Answers `TooDeep` only where the equations of the store with those of the head are deep.
#[tactic(auto, using(tw_open::proofs::Steps::steps))]
pub(crate) fn attempt(
    alloc: Global,
    store: &mut Store,
    signature: &Signature,
    met: &mut Walk,
    goal: &OpenGoal,
    head: Head,
) -> Result<Option<Vec<MetaId>>, UnifyFault>
    requires goal { StandsAtGoal (signature_of signature.now) store.old.now goal.now }
    requires head { IsHeadFor (signature_of signature.now) goal.now (head_of head) }
    requires known { IsKnown store.old.now (marking_of met.old) }
    ensures tried { MatchResult result (λ t. IsTried (signature_of signature.now) store.old.now goal.now (head_of head) t store.new.now) (λ f. TriesDeep f (signature_of signature.now) store.old.now goal.now (head_of head)) }
    ensures story { IsLater store.old store.new }
    ensures known { OnOk result (IsKnown store.new.now (marking_of met.new)) }
{
    signature.is_canonical();
    match head {
        Head::Const(id) => match (signature.constant_type(id), signature.constant_marks(id)) {
            (Some(ty), Some(variables)) => attempt_at(
                alloc,
                store,
                signature,
                met,
                goal,
                head,
                HeadType::Closed(ty),
                variables,
            ),
            _ => unreachable!(),
        },
        Head::Var(variable) => match goal.locals.get(variable) {
            Some(ty) => {
                let by = variable.checked_add(1).ok_or(AllocError)?;
                let moved = shift_type(alloc, ty, by, 0)?;
                let variables = open_shape_of(alloc, &moved)?;
                attempt_at(
                    alloc,
                    store,
                    signature,
                    met,
                    goal,
                    head,
                    HeadType::Open(&moved),
                    &variables,
                )
            }
            None => unreachable!(),
        },
    }
}

/// The same with the head's type, and which of its quantifiers are variables.
fn attempt_at<'a>(
    alloc: Global,
    store: &mut Store,
    signature: &Signature,
    met: &mut Walk,
    goal: &OpenGoal,
    head: Head,
    ty: HeadType<'a>,
    variables: &[bool],
) -> Result<Option<Vec<MetaId>>, UnifyFault>
    requires goal { StandsAtGoal (signature_of signature.now) store.old.now goal.now }
    requires head { IsHeadFor (signature_of signature.now) goal.now (head_of head) }
    requires typed { OfferedHeadHasType (signature_of signature.now) goal.now.locals (head_of head) (head_type_of ty) }
    requires variables { variables.now ≡ shape (head_type_of ty) }
    requires known { IsKnown store.old.now (marking_of met.old) }
    ensures tried { MatchResult result (λ t. IsTried (signature_of signature.now) store.old.now goal.now (head_of head) t store.new.now) (λ f. TriesDeep f (signature_of signature.now) store.old.now goal.now (head_of head)) }
    ensures story { IsLater store.old store.new }
    ensures known { OnOk result (IsKnown store.new.now (marking_of met.new)) }
{
    signature.is_canonical();
    let offered = offer(alloc, store, signature, goal, head, ty, variables)?;
    pass_over(alloc, met, goal.hole);
    match reduce(alloc, store, signature, met, goal, &offered, ty)? {
        Reduced::Never => Ok(None),
        Reduced::Left(equations) => {
            if equations.is_empty() && store.equations().is_empty() {
                return Ok(Some(offered.subgoals));
            }
            all_left_over_are_left();
            match solve_more(alloc, store, signature, equations, met)? {
                Unified::Never => Ok(None),
                Unified::Solved => Ok(Some(offered.subgoals)),
                Unified::Left => Ok(Some(offered.subgoals)),
            }
        }
    }
}

/// Whether the heads of the goal's arguments and of the clause's clash.
pub(crate) fn heads_clash(store: &Store, signature: &Signature, goal: &OpenGoal, head: Head) -> bool
    requires goal { StandsAtGoal (signature_of signature.now) store.now.now goal.now }
    requires head { IsHeadFor (signature_of signature.now) goal.now (head_of head) }
    ensures { OnTrue result (NeverFits (signature_of signature.now) store.now.now goal.now (head_of head)) }
{
    signature.is_canonical();
    match head {
        Head::Const(id) => match signature.constant_type(id) {
            Some(ty) => clashes(store, indices(store, goal.hole), ty),
            None => false,
        },
        Head::Var(variable) => match goal.locals.get(variable) {
            Some(ty) => match variable.checked_add(1) {
                Some(by) => local_clashes(store, indices(store, goal.hole), ty, by),
                None => false,
            },
            None => false,
        },
    }
}
