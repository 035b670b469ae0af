//! The goal of a query.
ghost use Rattle.std.specs.Prelude.{◌≡◌, List, None, IfErr, IfOk, reverse};
ghost use Rattle.lf.specs.Entries.{Entry, signature_of};
ghost use Rattle.tw_approx.specs.Answer.{HasQueryCause, rows_of};
ghost use Rattle.tw_parse.specs.Queries.{query_of};
ghost use Rattle.tw_parse.specs.Syntax.{Term};
ghost use Rattle.tw_parse.specs.View.{term_of};
ghost use Rattle.tw_written.specs.View.{written_body_of};
ghost use Rattle.tw_recon.specs.Queries.{HasGoalCause, IsCanonicalGoal, IsGoalOf, IsGoalWrittenAs};
ghost use Rattle.tw_signature.specs.Goal.{goal_of};

use crate::begun::Told;
use crate::completing::{Completed, complete};
use crate::fault::ReconFault;
use crate::within::is_within;
use std::alloc::Global;
use tw_approx::{Approx, ApproxFault, approximate_query};
use tw_fixity::copy_option;
use tw_parse::{ExtQuery, ExtTerm};
use tw_resolve::resolve_goal;
use tw_signature::{Body, Goal, Signature};

/// The goal that a query asks for, with all that it leaves out filled in the most general way.
pub fn reconstruct_query(
    alloc: Global,
    signature: &Signature,
    query: &ExtQuery,
) -> Result<Goal, ReconFault>
    ensures reconstructed { IfOk result (λ g. IsGoalOf signature.now (query_of query.now) (goal_of g)) }
    ensures canonical { IfOk result (λ g. IsCanonicalGoal (signature_of signature.now) (goal_of g)) }
    ensures refused { IfErr result (λ f. HasGoalCause signature.now (term_of query.now.goal) f) }
{
    let told = match tell_goal(alloc, signature, query) {
        Ok(told) => told,
        Err(fault) => return Err(fault),
    };
    let completed = match complete(alloc, signature, told) {
        Ok(completed) => completed,
        Err(fault) => return Err(fault),
    };
    let Completed {
        quantifiers,
        hints,
        shown,
        body,
    } = completed;
    let Body::Constant(goal) = body else {
        unreachable!()
    };
    if !is_within(&quantifiers, &goal) {
        return Err(ReconFault::TooDeep);
    }
    let mut names = hints;
    names.reverse();
    Ok(Goal {
        variables: quantifiers,
        names,
        shown,
        proof: copy_option(alloc, &query.proof)?,
        goal,
    })
}

/// The goal that a type asks for, without a name for its proof: what `reconstruct_query` gives for a query of it. It takes the type, of which there is no copy.
pub fn reconstruct_goal(
    alloc: Global,
    signature: &Signature,
    goal: ExtTerm,
) -> Result<Goal, ReconFault>
    ensures reconstructed { IfOk result (λ g. IsGoalOf signature.now (record { proof = None; goal = term_of goal }) (goal_of g)) }
    ensures canonical { IfOk result (λ g. IsCanonicalGoal (signature_of signature.now) (goal_of g)) }
    ensures refused { IfErr result (λ f. HasGoalCause signature.now (term_of goal) f) }
{
    let query = ExtQuery { proof: None, goal };
    reconstruct_query(alloc, signature, &query)
}

/// Finds the skeletons of what isn't written in the goal, and resolves its names.
fn tell_goal(alloc: Global, signature: &Signature, query: &ExtQuery) -> Result<Told, ReconFault>
    ensures written { IfOk result (λ t. IsGoalWrittenAs signature.now (term_of query.now.goal) (rows_of t.rows.items) (written_body_of t.written)) }
    ensures refused { IfErr result (λ f. HasGoalCause signature.now (term_of query.now.goal) f) }
{
    let Approx { free, omitted } = match approximate_query(alloc, signature, query) {
        Ok(approx) => approx,
        Err(fault) => return Err(of_skeletons(fault)),
    };
    signature.is_canonical();
    let Some(written) = resolve_goal(alloc, signature, &query.goal, &free, omitted)? else {
        unreachable!()
    };
    Ok(Told {
        rows: free,
        written,
    })
}

/// A fault of the skeleton pass. A clash of skeletons is a mismatch.
fn of_skeletons(fault: ApproxFault) -> ReconFault
    ensures { (es : List Entry) (A : Term) → HasQueryCause es A fault → HasGoalCause es A result }
{
    match fault {
        ApproxFault::Unknown(name, at) => ReconFault::Unknown(name, at),
        ApproxFault::TypeLevel(at) => ReconFault::TypeLevel(at),
        ApproxFault::Clash => ReconFault::Mismatch,
        ApproxFault::Loose => ReconFault::Loose,
        ApproxFault::TooDeep => ReconFault::TooDeep,
        ApproxFault::NoMemory => ReconFault::NoMemory,
    }
}
