//! The search for the proofs of a goal, to its end.
ghost use Rattle.std.specs.Prelude.{IfOk, IsTrue};
ghost use Rattle.lf.specs.Entries.{signature_of};
ghost use Rattle.lf.specs.Typing.{IsContext, IsType};
ghost use Rattle.tw_terms.specs.View.{type_of};
ghost use Rattle.tw_search.specs.Standing.{IsSearch};

use std::alloc::{AllocError, Global};
use tests_forms::{Form, FormFault, Names, read_closed_context, read_closed_type, read_forms};
use tw_fixity::Name;
use tw_kernel::{Verdict, check_context, check_type};
use tw_search::{Search, Step};
use tw_signature::{Goal, Signature};

/// How a search came to its end.
#[derive(Clone, Copy, PartialEq, Eq, Debug)]
pub(crate) enum End {
    Exhausted,
    Budget,
    Other,
}

/// The tries and answers of a search, and its end.
#[derive(Clone, Copy, Debug)]
pub(crate) struct Told {
    pub(crate) tries: u64,
    pub(crate) answers: u64,
    pub(crate) end: End,
}

/// The goal that the text means, with a list R as its variable and this name for its proof, which the kernel finds typed.
pub(crate) fn read_goal(
    alloc: Global,
    signature: &Signature,
    names: &mut Names,
    text: &str,
    proof: Option<Name>,
) -> Result<Goal, FormFault>
    ensures { IfOk result (λ g. IsContext (signature_of signature.now) g.variables × IsType (signature_of signature.now) g.variables (type_of g.goal)) }
{
    let variables = read_forms(alloc, "R list")?;
    let forms = read_forms(alloc, text)?;
    let goal = goal_in(alloc, names, &variables, &forms, proof)?;
    if !is_typed(alloc, signature, &goal)? {
        return Err(FormFault::NoMeaning);
    }
    Ok(goal)
}

// the goal of the first form over the variables of the others
fn goal_in(
    alloc: Global,
    names: &mut Names,
    variables: &[Form],
    forms: &[Form],
    proof: Option<Name>,
) -> Result<Goal, FormFault> {
    let Some(form) = forms.first() else {
        return Err(FormFault::NoMeaning);
    };
    let variables = read_closed_context(alloc, names, variables)?;
    let goal = read_closed_type(alloc, names, form)?;
    Ok(Goal {
        variables,
        names: Vec::new(alloc),
        shown: Vec::new(alloc),
        proof,
        goal,
    })
}

// whether the kernel finds the goal typed
fn is_typed(alloc: Global, signature: &Signature, goal: &Goal) -> Result<bool, AllocError>
    ensures { IfOk result (λ b. IsTrue b → IsContext (signature_of signature.now) goal.now.variables × IsType (signature_of signature.now) goal.now.variables (type_of goal.now.goal)) }
{
    signature.is_canonical();
    let Verdict::Typed = check_context(alloc, signature, &goal.variables)? else {
        return Ok(false);
    };
    let Verdict::Typed = check_type(alloc, signature, &goal.variables, &goal.goal)? else {
        return Ok(false);
    };
    Ok(true)
}

/// A search for the proofs of a goal that is typed.
pub(crate) fn begun(alloc: Global, signature: &Signature, goal: &Goal) -> Result<Search, AllocError>
    requires context { IsContext (signature_of signature.now) goal.now.variables }
    requires goal { IsType (signature_of signature.now) goal.now.variables (type_of goal.now.goal) }
    ensures { IfOk result (λ s. IsSearch signature.now s) }
{
    signature.is_canonical();
    let search = Search::new(alloc, goal)?;
    Ok(search)
}

/// Calls the search until its tree or the budget ends.
pub(crate) fn to_the_end(
    alloc: Global,
    signature: &Signature,
    search: &mut Search,
    budget: u64,
) -> Result<Told, AllocError>
    requires { IsSearch signature.now search.old }
{
    let mut answers: u64 = 0;
    for _ in 0..u64::MAX {
        match call(alloc, signature, search, budget)? {
            None => answers = answers.saturating_add(1),
            Some(end) => return Ok(ended(search, answers, end)),
        }
    }
    Ok(ended(search, answers, End::Other))
}

fn ended(search: &Search, answers: u64, end: End) -> Told {
    Told {
        tries: search.tries(),
        answers,
        end,
    }
}

// one call with what is left of the budget; nothing where it gave an answer
fn call(
    alloc: Global,
    signature: &Signature,
    search: &mut Search,
    budget: u64,
) -> Result<Option<End>, AllocError>
    requires { IsSearch signature.now search.old }
    ensures { IsSearch signature.now search.new }
{
    let Some(left) = budget.checked_sub(search.tries()) else {
        return Ok(Some(End::Other));
    };
    let step = search.next(alloc, signature, left)?;
    Ok(end_of(&step))
}

fn end_of(step: &Step) -> Option<End> {
    match step {
        Step::Answer(_) => None,
        Step::Exhausted => Some(End::Exhausted),
        Step::Budget => Some(End::Budget),
        Step::Leftover(_) => Some(End::Other),
        Step::TooDeep => Some(End::Other),
    }
}
