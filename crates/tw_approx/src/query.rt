//! The skeletons of a query.
ghost use Rattle.std.specs.Prelude.{◌≡◌, ◌≤◌, [], map, false, None, IfOk, IfErr};
ghost use Rattle.lf.specs.Depth.{depth_limit};
ghost use Rattle.tw_approx.specs.Answer.{rows_of, IsQueryOfObjects, HasQuerySkeletons, HasQueryCause};
ghost use Rattle.tw_approx.specs.Nesting.{text_depth};
ghost use Rattle.tw_names.specs.Texts.{ends_in_type};
ghost use Rattle.tw_names.specs.Earliest.{earliest as first_mention};
ghost use Rattle.tw_names.specs.Unknown.{unknown_names};
ghost use Rattle.tw_parse.specs.View.{term_of};
ghost use Rattle.tw_terms.specs.View.{skeleton_of};

use crate::approximation::{Approx, constant, solved};
use crate::fault::ApproxFault;
use crate::lambdas::{Part, first_lambda};
use crate::nesting::nests_deeply;
use std::alloc::{AllocError, Global};
use tw_names::{Mention, first_mention};
use tw_parse::{ExtQuery, ExtTerm};
use tw_signature::Signature;

/// The skeletons of a query's free variables, holes and untyped binders, with the causes of `approximate` in its order.
///
/// The goal has to be a type. What ends in `type` has no skeleton: it clashes.
pub fn approximate_query(
    alloc: Global,
    signature: &Signature,
    query: &ExtQuery,
) -> Result<Approx, ApproxFault>
    ensures ty { IfOk result (λ _. ends_in_type (term_of query.now.goal) ≡ false) }
    ensures within { IfOk result (λ _. text_depth signature.now (term_of query.now.goal) ≤ depth_limit) }
    ensures objects { IfOk result (λ _. IsQueryOfObjects signature.now (term_of query.now.goal)) }
    ensures skeletons { IfOk result (λ a. HasQuerySkeletons signature.now (term_of query.now.goal) (rows_of a.free.items) (map skeleton_of a.omitted.items)) }
    ensures refused { IfErr result (λ f. HasQueryCause signature.now (term_of query.now.goal) f) }
{
    of_objects(alloc, signature, &query.goal)?;
    match constant(alloc, signature, &query.goal)? {
        Some(walk) => solved(alloc, &walk),
        None => Err(ApproxFault::Clash),
    }
}

/// Fails at the first name that is unknown, or else where the goal nests too deep, or else where a lambda stands at the level of types.
fn of_objects(alloc: Global, signature: &Signature, goal: &ExtTerm) -> Result<(), ApproxFault>
    ensures within { IfOk result (λ _. text_depth signature.now (term_of goal.now) ≤ depth_limit) }
    ensures objects { IfOk result (λ _. IsQueryOfObjects signature.now (term_of goal.now)) }
    ensures refused { IfErr result (λ f. HasQueryCause signature.now (term_of goal.now) f) }
{
    known(alloc, signature, goal)?;
    if nests_deeply(alloc, signature, goal)? {
        return Err(ApproxFault::TooDeep);
    }
    match first_lambda(alloc, Part::Type(goal), None)? {
        Some(place) => Err(ApproxFault::TypeLevel(Some(place))),
        None => Ok(()),
    }
}

/// Fails at the first name that is unknown.
fn known(alloc: Global, signature: &Signature, goal: &ExtTerm) -> Result<(), ApproxFault>
    ensures known { IfOk result (λ _. unknown_names signature.now [] (term_of goal.now) ≡ []) }
    ensures refused { IfErr result (λ f. HasQueryCause signature.now (term_of goal.now) f) }
{
    match first_unknown(alloc, signature, goal)? {
        Some(Mention { name, at }) => Err(ApproxFault::Unknown(name, at)),
        None => Ok(()),
    }
}

/// The first name that is unknown.
fn first_unknown(
    alloc: Global,
    signature: &Signature,
    goal: &ExtTerm,
) -> Result<Option<Mention>, AllocError>
    ensures { IfOk result (λ m. m ≡ first_mention None (unknown_names signature.now [] (term_of goal.now))) }
{
    first_mention(alloc, signature, &None, goal)
}
