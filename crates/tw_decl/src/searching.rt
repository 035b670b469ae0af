//! What `%query` and `%solve` share: the goal that is asked for, its search, and the leaves of it.
ghost use Rattle.std.specs.Prelude.{◌≡◌, IfErr, IfOk, option_map};
ghost use Rattle.lf.specs.Entries.{signature_of};
ghost use Rattle.lf.specs.Typing.{IsContext, IsType};
ghost use Rattle.tw_parse.specs.Queries.{query_of};
ghost use Rattle.tw_query.specs.Runs.{IsRunOf};
ghost use Rattle.tw_query.specs.View.{bound_of};
ghost use Rattle.tw_signature.specs.Goal.{goal_of};
ghost use Rattle.tw_terms.specs.View.{type_of};
ghost use Rattle.tw_decl.specs.Searching.{IsAsked, first_left};
ghost use Rattle.tw_decl.specs.Unanswered.{HasNoRun, IsNotAsked};

use crate::entering::not_reconstructed;
use crate::refusal::Refusal;
use crate::session::Session;
use std::alloc::Global;
use tw_lexer::Place;
use tw_metas::LeftEquation;
use tw_parse::ExtQuery;
use tw_query::{Bound, Leaf, QueryFault, QueryRun, run_query};
use tw_recon::reconstruct_query;
use tw_signature::Goal;

/// The goal of what is asked, in a declaration whose first token stands here.
pub fn asked(
    alloc: Global,
    session: &Session,
    first: Place,
    query: &ExtQuery,
) -> Result<Goal, Refusal>
    ensures asked { IfOk result (λ g. IsAsked session.now.signature (query_of query.now) (goal_of g)) }
    ensures cause { IfErr result (IsNotAsked session.now (query_of query.now).goal first) }
{
    match reconstruct_query(alloc, session.signature(), query) {
        Ok(goal) => Ok(goal),
        Err(fault) => Err(not_reconstructed(alloc, session, first, fault)),
    }
}

/// The run of a goal with a bound on its answers and the session's budget.
pub fn run(
    alloc: Global,
    session: &Session,
    first: Place,
    goal: &Goal,
    bound: Bound,
) -> Result<QueryRun, Refusal>
    requires context { IsContext (signature_of session.now.signature) goal.now.variables }
    requires goal { IsType (signature_of session.now.signature) goal.now.variables (type_of goal.now.goal) }
    ensures run { IfOk result (λ r. IsRunOf session.now.signature (goal_of goal.now) (bound_of bound) session.now.parameters.steps r.leaves.items r.end r.tries) }
    ensures cause { IfErr result (HasNoRun session.now (goal_of goal.now) (bound_of bound) first) }
{
    let steps = session.parameters().steps;
    match run_query(alloc, session.signature(), goal, bound, steps) {
        Ok(run) => Ok(run),
        Err(QueryFault::Budget(tries)) => Err(Refusal::Budget(first, tries)),
        Err(QueryFault::TooDeep) => Err(Refusal::TooDeep(first)),
        Err(QueryFault::NoMemory) => Err(Refusal::Memory),
    }
}

/// The first equation among the leaves.
pub fn first_left(leaves: &[Leaf]) -> Option<&LeftEquation>
    ensures { option_map (λ l. l.now) result ≡ first_left leaves.now }
{
    for leaf in leaves {
        if let Leaf::Outside(left) = leaf {
            return Some(left);
        }
    }
    None
}
