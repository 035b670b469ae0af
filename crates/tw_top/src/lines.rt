//! The lines of a round.
ghost use Rattle.std.specs.Prelude.{◌≡◌, ◌++◌, OnOk, codes, decimal, map};
ghost use Rattle.lf.specs.Entries.{signature_of};
ghost use Rattle.lf.specs.Typing.{IsContext, IsType};
ghost use Rattle.tw_print.specs.ShowEnv.{scene_of};
ghost use Rattle.tw_query.specs.Runs.{IsTypedAnswer};
ghost use Rattle.tw_signature.specs.Goal.{goal_of};
ghost use Rattle.tw_terms.specs.View.{type_of};
ghost use Rattle.tw_top.specs.Lines.{answer_lines, budget_lines, more_line, outside_line, tries_line};

use std::alloc::{AllocError, Global};
use tw_equation::show_equation;
use tw_metas::LeftEquation;
use tw_print::ShowEnv;
use tw_query::show_answer;
use tw_search::Answer;
use tw_signature::Goal;

/// The line behind which the loop asks whether the search goes on.
const MORE: &[u8] = b"More?\n";

/// Adds the lines of the answer with this number, and `More?`.
pub(crate) fn add_answer(
    alloc: Global,
    env: &ShowEnv,
    goal: &Goal,
    number: u64,
    answer: &Answer,
    text: &mut Vec<u8>,
) -> Result<(), AllocError>
    requires context { IsContext (signature_of env.now.sig.now) goal.now.variables }
    requires goal { IsType (signature_of env.now.sig.now) goal.now.variables (type_of goal.now.goal) }
    requires answer { IsTypedAnswer (signature_of env.now.sig.now) (goal_of goal.now) answer.now }
    ensures { OnOk result (text.new.items ≡ text.old.items ++ answer_lines (scene_of env.now) (goal_of goal.now) number answer.now) }
{
    let lines = show_answer(alloc, env, goal, number, answer)?;
    text.extend_from_slice(&lines)?;
    text.push(b'\n')?;
    text.extend_from_slice(MORE)
}

/// Adds the line of a leaf that is left over, by its first equation.
pub(crate) fn add_outside(
    alloc: Global,
    env: &ShowEnv,
    left: &LeftEquation,
    text: &mut Vec<u8>,
) -> Result<(), AllocError>
    ensures { OnOk result (text.new.items ≡ text.old.items ++ outside_line (scene_of env.now) left.now) }
{
    let shown = show_equation(alloc, env, left)?;
    text.extend_from_slice(b"outside ")?;
    text.extend_from_slice(&shown)?;
    text.push(b'\n')?;
    Ok(())
}

/// Adds a line with a word and a number of tries.
pub(crate) fn add_tries(
    alloc: Global,
    word: &[u8],
    tries: u64,
    text: &mut Vec<u8>,
) -> Result<(), AllocError>
    ensures { OnOk result (text.new.items ≡ text.old.items ++ tries_line word.now tries) }
{
    let digits = tries.to_string(alloc)?;
    text.extend_from_slice(word)?;
    text.extend_from_slice(b" tries ")?;
    text.extend_from_slice(digits.as_bytes())?;
    text.push(b'\n')?;
    Ok(())
}

/// Adds the lines of a budget whose tries were made, and `More?`.
pub(crate) fn add_budget(alloc: Global, tries: u64, text: &mut Vec<u8>) -> Result<(), AllocError>
    ensures { OnOk result (text.new.items ≡ text.old.items ++ budget_lines tries) }
{
    add_tries(alloc, b"budget", tries, text)?;
    text.extend_from_slice(MORE)
}
