//! A search for the proofs of a goal, with one call for each budget of a case.
ghost use Rattle.std.specs.Prelude.{IfOk};
ghost use Rattle.lf.specs.Entries.{signature_of};
ghost use Rattle.lf.specs.Typing.{IsContext, IsType};
ghost use Rattle.tw_terms.specs.View.{type_of};
ghost use Rattle.tw_search.specs.Standing.{IsSearch};

use crate::goals::read_goal;
use crate::showing::show_step;
use std::alloc::{AllocError, Global};
use tests_forms::{Case, FormFault, Names, number_of};
use tw_search::Search;
use tw_signature::{Goal, Signature};

/// What the calls show, one behind the other.
pub fn searched(
    alloc: Global,
    signature: &Signature,
    names: &mut Names,
    case: &Case,
) -> Result<String, FormFault> {
    case.has_only(&["context", "shown", "proof", "goal", "budgets"])?;
    let goal = read_goal(alloc, signature, names, case)?;
    let mut search = begun(alloc, signature, &goal)?;
    let mut line = String::new(alloc);
    for word in case.text("budgets")?.split(' ') {
        call(
            alloc,
            signature,
            names,
            &mut search,
            &mut line,
            number_of(word)?,
        )?;
    }
    Ok(line)
}

/// A search for the proofs of a goal that is typed.
fn begun(alloc: Global, signature: &Signature, goal: &Goal) -> Result<Search, AllocError>
    requires context { IsContext (signature_of signature.now) goal.now.variables }
    requires goal { IsType (signature_of signature.now) goal.now.variables (type_of goal.now.goal) }
    ensures { IfOk result (λ s. IsSearch signature.now s) }
{
    signature.is_canonical();
    let search = Search::new(alloc, goal)?;
    Ok(search)
}

/// One call, and what it shows, with the tries so far.
fn call(
    alloc: Global,
    signature: &Signature,
    names: &mut Names,
    search: &mut Search,
    line: &mut String,
    budget: u64,
) -> Result<(), FormFault>
    requires { IsSearch signature.now search.old }
    ensures { IsSearch signature.now search.new }
{
    if budget > 1_000_000 || search.tries() > 1_000_000_000 {
        return Err(FormFault::NoMeaning);
    }
    let step = search.next(alloc, signature, budget)?;
    Ok(show_step(alloc, signature, names, line, &step, search.tries())?)
}
