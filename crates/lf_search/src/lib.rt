//! The laws of a search for the proofs of a goal. They have no code: each function carries one law as its contract.
#![tactic(auto)]

ghost use Rattle.lf_search.specs.AppliedHeads.{NextHeadIsPutIn};
ghost use Rattle.lf_search.specs.Laws.{QueryIsWellFormed, OfferIsThere, ClashIsNever, HeadsAreSkipped, ChildIsNode, HolesStayOpen, AnswerOfLeaf, ClosedIsFound, SearchesCompose, EndsAreDetermined, QueryStandsAtEnd, BudgetsAdd, CallsGiveRun};

/// A typed goal has a query, whose root is a node with a well-formed store.
pub fn query_is_well_formed()
    ensures { QueryIsWellFormed }
{}

/// A head of the goal's target has an offer.
pub fn offer_is_there()
    ensures { OfferIsThere }
{}

/// Where the heads of the goal's arguments and of the clause's clash, what is offered has no typed unifier.
pub fn clash_is_never()
    ensures { ClashIsNever }
{}

/// Heads of other targets are passed over without a try.
pub fn heads_are_skipped()
    ensures { HeadsAreSkipped }
{}

/// A child of a node is a node.
pub fn child_is_node()
    ensures { ChildIsNode }
{}

/// The holes of a search stay open, as long as its steps renew only what is reached from an equation.
pub fn holes_stay_open()
    ensures { HolesStayOpen }
{}

/// What is read off a leaf without equations is an answer of the goal, and something can be read off.
pub fn answer_of_leaf()
    ensures { AnswerOfLeaf }
{}

/// Where a search ended and each leaf is without equations, each closed answer is an instance of what is read off one of them.
pub fn closed_is_found()
    ensures { ClosedIsFound }
{}

/// Runs go on where others stopped.
pub fn searches_compose()
    ensures { SearchesCompose }
{}

/// One run of a search has one end, and a step from within the bounds stays within them or is at the end of the budget.
pub fn ends_are_determined()
    ensures { EndsAreDetermined }
{}

/// A query that runs within its budget, or runs out, stands at its end.
pub fn query_stands_at_end()
    ensures { QueryStandsAtEnd }
{}

/// A budget cut into pieces comes to what one budget does.
pub fn budgets_add()
    ensures { BudgetsAdd }
{}

/// Calls of a search one after another give the run of a query.
pub fn calls_give_run()
    ensures { CallsGiveRun }
{}

/// The eta-long form of the next metavariable, put in, is one head more among those that are put in at once.
pub fn next_head_is_put_in()
    ensures { NextHeadIsPutIn }
{}
