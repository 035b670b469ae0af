//! The first equation of a leaf that is left over.
ghost use Rattle.std.specs.Prelude.{◌≡◌, ◌∷◌, [], List, MatchResult};
ghost use Rattle.lf.specs.Entries.{signature_of};
ghost use Rattle.lf_unification.specs.Unifiers as unifiers;
ghost use Rattle.tw_putting.specs.Ready.{IsReady};
ghost use Rattle.tw_signature.specs.Goal.{goal_of};
ghost use Rattle.tw_search.specs.Left.{BlamesFirst, ShowsFirst};

use crate::names::names;
use std::alloc::Global;
use tw_metas::{LeftEquation, Store};
use tw_signature::{Goal, Signature};
use tw_unify::{UnifyFault, left_equation};

/// The first equation that is postponed, as it can be shown: metavariables have the names of the goal's variables. Answers `TooDeep` only where what is shown is deeper than 4,096, or the
/// value of a variable is.
pub(crate) fn first_equation(
    alloc: Global,
    signature: &Signature,
    store: &Store,
    goal: &Goal,
) -> Result<LeftEquation, UnifyFault>
    requires ready { IsReady (signature_of signature.now) [] store.now.now }
    requires first { (e : unifiers.Equation) × (es : List unifiers.Equation) × (store.now.now.equations ≡ e ∷ es) }
    ensures { MatchResult result (λ left. ShowsFirst store.now.now (goal_of goal.now) left) (λ f. BlamesFirst f store.now.now (goal_of goal.now)) }
{
    signature.is_canonical();
    let names = names(alloc, store, goal)?;
    let left = left_equation(alloc, store, signature, 0, &names)?;
    Ok(left)
}
