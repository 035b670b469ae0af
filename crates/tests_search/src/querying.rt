//! The run of a query: the text of each answer, each equation that is left, and how the run ended.
ghost use Rattle.lf.specs.Entries.{signature_of};
ghost use Rattle.lf.specs.Typing.{IsContext, IsType};
ghost use Rattle.tw_signature.specs.Goal.{goal_of};
ghost use Rattle.tw_terms.specs.View.{type_of};
ghost use Rattle.tests_search.specs.Shown.{AreAllShown, IsShown};

use crate::goals::read_goal;
use crate::showing::{add_text, show_left};
use std::alloc::{AllocError, Global};
use tests_forms::{Case, FormFault, Names, number_of};
use tw_fixity::FixTable;
use tw_print::{Names as Preferences, ShowEnv};
use tw_query::{Bound, Leaf, QueryEnd, QueryFault, QueryRun, run_query, show_answer};
use tw_signature::{Goal, Signature};

/// What the run of the case comes to.
pub fn queried(
    alloc: Global,
    signature: &Signature,
    names: &mut Names,
    case: &Case,
) -> Result<String, FormFault> {
    case.has_only(&["context", "shown", "proof", "goal", "bound", "budget"])?;
    let goal = read_goal(alloc, signature, names, case)?;
    let bound = bound_of(case.text("bound")?)?;
    let budget = number_of(case.text("budget")?)?;
    let mut line = String::new(alloc);
    ask(alloc, signature, &goal, bound, budget, &mut line)?;
    Ok(line)
}

/// The number, or a star.
fn bound_of(word: &str) -> Result<Bound, FormFault> {
    if word == "*" {
        return Ok(Bound::Star);
    }
    Ok(Bound::Number(number_of(word)?))
}

/// Runs the query, and shows what it comes to.
fn ask(
    alloc: Global,
    signature: &Signature,
    goal: &Goal,
    bound: Bound,
    budget: u64,
    line: &mut String,
) -> Result<(), AllocError>
    requires context { IsContext (signature_of signature.now) goal.now.variables }
    requires goal { IsType (signature_of signature.now) goal.now.variables (type_of goal.now.goal) }
{
    match run_query(alloc, signature, goal, bound, budget) {
        Ok(run) => show_run(alloc, signature, goal, &run, line),
        Err(QueryFault::Budget(tries)) => write!(line, " budget {tries}"),
        Err(QueryFault::TooDeep) => line.push_str(" too deep"),
        Err(QueryFault::NoMemory) => Err(AllocError),
    }
}

/// The leaves in order, and the end.
fn show_run(
    alloc: Global,
    signature: &Signature,
    goal: &Goal,
    run: &QueryRun,
    line: &mut String,
) -> Result<(), AllocError>
    requires context { IsContext (signature_of signature.now) goal.now.variables }
    requires goal { IsType (signature_of signature.now) goal.now.variables (type_of goal.now.goal) }
    requires shown { AreAllShown signature.now (goal_of goal.now) run.now.leaves.items }
{
    let mut number = 0u64;
    for leaf in &run.leaves {
        if let Leaf::Answer(_) = leaf {
            number = number.saturating_add(1);
        }
        line.push_str("\n")?;
        show_leaf(alloc, signature, goal, number, leaf, line)?;
    }
    let end = match run.end {
        QueryEnd::Stopped => "stopped",
        QueryEnd::Exhausted => "exhausted",
        QueryEnd::Incomplete => "incomplete",
    };
    write!(
        line,
        "\n{end}, {} answers, {} tries",
        run.answers(),
        run.tries
    )
}

/// The text of an answer with this number, or an equation that is left.
fn show_leaf(
    alloc: Global,
    signature: &Signature,
    goal: &Goal,
    number: u64,
    leaf: &Leaf,
    line: &mut String,
) -> Result<(), AllocError>
    requires context { IsContext (signature_of signature.now) goal.now.variables }
    requires goal { IsType (signature_of signature.now) goal.now.variables (type_of goal.now.goal) }
    requires shown { IsShown signature.now (goal_of goal.now) leaf.now }
{
    match leaf {
        Leaf::Answer(answer) => {
            let fixities = FixTable::new(alloc);
            let names = Preferences::new(alloc);
            let env = ShowEnv {
                sig: signature,
                fixities: &fixities,
                names: &names,
                implicit: false,
            };
            add_text(line, &show_answer(alloc, &env, goal, number, answer)?)
        }
        Leaf::Outside(left) => show_left(alloc, signature, line, left),
    }
}
