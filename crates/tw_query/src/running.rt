//! A run of a query that is under way.
ghost use Rattle.std.specs.Prelude.{◌≡◌, ◌∷◌, ◌++◌, ◌+◌, ◌≤◌, [], ℕ, List, IfErr, IfOk, OnOk, length};
ghost use Rattle.lf.specs.Entries.{signature_of};
ghost use Rattle.lf.specs.Typing.{IsContext, IsType};
ghost use Rattle.lf_search.specs.Bounded.{Bound as AnswerBound};
ghost use Rattle.tw_signature.specs.Goal.{goal_of};
ghost use Rattle.tw_terms.specs.View.{type_of};
ghost use Rattle.tw_query.specs.Runs.{HasCause, end_in};
ghost use Rattle.tw_query.specs.UnderWay.{GoesOn, IsUnderWay};
ghost use Rattle.tw_query.specs.View.{bound_of};
ghost use Rattle.tw_query.specs.declared.run.Leaf.TheVariants as leaves;

use crate::run::{Bound, Leaf, QueryEnd, QueryFault};
use std::alloc::{AllocError, Global};
use tw_search::{Answer, Search, Step};
use tw_signature::{Goal, Signature};

/// The search, the leaves so far, and how many of them are answers.
#[derive(Drop)]
pub(crate) struct Running {
    pub(crate) search: Search,
    pub(crate) leaves: Vec<Leaf>,
    pub(crate) answers: u64,
}

impl Running {
    /// A run at the root of the goal's tree.
    pub(crate) fn new(
        alloc: Global,
        signature: &Signature,
        goal: &Goal,
    ) -> Result<Running, AllocError>
        requires context { IsContext (signature_of signature.now) goal.now.variables }
        requires goal { IsType (signature_of signature.now) goal.now.variables (type_of goal.now.goal) }
        ensures { IfOk result (λ r. (b : AnswerBound) (n : ℕ) → IsUnderWay signature.now (goal_of goal.now) b n r) }
    {
        signature.is_canonical();
        let search = Search::new(alloc, goal)?;
        Ok(Running {
            search,
            leaves: Vec::new(alloc),
            answers: 0,
        })
    }

    /// One more leaf, unless the run ends. How it ends is given where it does.
    pub(crate) fn step(
        &mut self,
        alloc: Global,
        signature: &Signature,
        goal: &Goal,
        bound: Bound,
        budget: u64,
    ) -> Result<Option<QueryEnd>, QueryFault>
        requires { IsUnderWay signature.now (goal_of goal.now) (bound_of bound) budget self.old }
        ensures goes_on { IfOk result (λ o. GoesOn signature.now (goal_of goal.now) (bound_of bound) budget self.old self.new o) }
        ensures fault { IfErr result (λ f. HasCause signature.now (goal_of goal.now) (bound_of bound) budget f) }
    {
        if bound.is_reached(self.answers) {
            return Ok(Some(QueryEnd::Stopped));
        }
        signature.is_canonical();
        let left = budget - self.search.tries();
        match self.search.next(alloc, signature, left)? {
            Step::Answer(answer) => {
                self.add_answer(answer)?;
                Ok(None)
            }
            Step::Leftover(left) => {
                self.add(Leaf::Outside(left))?;
                Ok(None)
            }
            Step::Exhausted => Ok(Some(end_of(&self.leaves))),
            Step::Budget => Err(QueryFault::Budget(budget)),
            Step::TooDeep => Err(QueryFault::TooDeep),
        }
    }

    /// One answer more.
    fn add_answer(&mut self, answer: Answer) -> Result<(), AllocError>
        requires { self.old.answers ≤ length self.old.leaves.items }
        ensures leaves { OnOk result (self.new.leaves.items ≡ self.old.leaves.items ++ leaves.Answer answer ∷ []) }
        ensures answers { OnOk result (self.new.answers ≡ self.old.answers + 1) }
        ensures search { self.new.search ≡ self.old.search }
    {
        self.add(Leaf::Answer(answer))?;
        self.answers += 1;
        Ok(())
    }

    /// One leaf more.
    fn add(&mut self, leaf: Leaf) -> Result<(), AllocError>
        ensures leaves { OnOk result (self.new.leaves.items ≡ self.old.leaves.items ++ leaf ∷ []) }
        ensures answers { self.new.answers ≡ self.old.answers }
        ensures search { self.new.search ≡ self.old.search }
    {
        self.leaves.push(leaf)?;
        Ok(())
    }
}

/// The end of a run that comes to the end of its tree with these leaves.
fn end_of(leaves: &[Leaf]) -> QueryEnd
    ensures { result ≡ end_in leaves.now }
{
    for leaf in leaves {
        if let Leaf::Outside(_) = leaf {
            return QueryEnd::Incomplete;
        }
    }
    QueryEnd::Exhausted
}
