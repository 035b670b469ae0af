//! The run of a query.
ghost use Rattle.std.specs.Prelude.{IfErr, IfOk};
ghost use Rattle.lf.specs.Entries.{signature_of};
ghost use Rattle.lf.specs.Typing.{IsContext, IsType};
ghost use Rattle.tw_signature.specs.Goal.{goal_of};
ghost use Rattle.tw_terms.specs.View.{type_of};
ghost use Rattle.tw_query.specs.Runs.{HasCause, IsRunOf};
ghost use Rattle.tw_query.specs.View.{bound_of};

use crate::run::{Bound, QueryFault, QueryRun};
use crate::running::Running;
use std::alloc::Global;
use tw_signature::{Goal, Signature};

/// Searches for so many answers of the goal, with a budget of tries for the whole run. A bound of 0 makes no try.
///
/// Answers `Budget` exactly where the budget's tries were made with fewer answers than are asked for, and one more is due; and `TooDeep` only where the equations of the next try are deeper than
/// 4,096, an answer is, or what is shown of a leaf that is left over.
pub fn run_query(
    alloc: Global,
    signature: &Signature,
    goal: &Goal,
    bound: Bound,
    budget: u64,
) -> Result<QueryRun, QueryFault>
    requires context { IsContext (signature_of signature.now) goal.now.variables }
    requires goal { IsType (signature_of signature.now) goal.now.variables (type_of goal.now.goal) }
    ensures run { IfOk result (λ r. IsRunOf signature.now (goal_of goal.now) (bound_of bound) budget r.leaves.items r.end r.tries) }
    ensures fault { IfErr result (λ f. HasCause signature.now (goal_of goal.now) (bound_of bound) budget f) }
{
    let mut running = Running::new(alloc, signature, goal)?;
    loop {
        if let Some(end) = running.step(alloc, signature, goal, bound, budget)? {
            let tries = running.search.tries();
            return Ok(QueryRun {
                leaves: running.leaves,
                end,
                tries,
            });
        }
    }
}
