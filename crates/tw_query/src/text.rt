//! The text of an answer.
ghost use Rattle.std.specs.Prelude.{◌≡◌, ◌++◌, ◌∷◌, [], IfOk, OnOk, codes, decimal, map, option_map};
ghost use Rattle.lf.specs.Entries.{signature_of};
ghost use Rattle.lf.specs.Typing.{IsContext, IsType};
ghost use Rattle.tw_print.specs.ShowEnv.{scene_of};
ghost use Rattle.tw_print.specs.Showable.{IsShowableContext};
ghost use Rattle.tw_signature.specs.Goal.{goal_of};
ghost use Rattle.tw_terms.specs.View.{term_of, type_of};
ghost use Rattle.tw_query.specs.Rows.{AreShowable, row_of};
ghost use Rattle.tw_query.specs.Runs.{IsTypedAnswer};
ghost use Rattle.tw_query.specs.Text.{answer_text, lines_of, lines_or_empty};

use crate::free::{free_names, scope_of};
use crate::rows::{Row, rows};
use std::alloc::{AllocError, Global};
use tw_fixity::Name;
use tw_print::{ShowEnv, show_term_in_scope};
use tw_search::Answer;
use tw_signature::Goal;
use tw_terms::Context;

/// The text of the answer with this number: `solution n`, and a line for each variable of the query that is shown, the proof last, or that there is none. It has no line feed at its end. Fails
/// only for want of memory.
pub fn show_answer(
    alloc: Global,
    env: &ShowEnv,
    goal: &Goal,
    number: u64,
    answer: &Answer,
) -> Result<Vec<u8>, AllocError>
    requires context { IsContext (signature_of env.now.sig.now) goal.now.variables }
    requires goal { IsType (signature_of env.now.sig.now) goal.now.variables (type_of goal.now.goal) }
    requires answer { IsTypedAnswer (signature_of env.now.sig.now) (goal_of goal.now) answer.now }
    ensures { IfOk result (λ t. t.items ≡ answer_text (scene_of env.now) (goal_of goal.now) number answer.now.free (map term_of answer.now.values.items) (option_map term_of answer.now.proof)) }
{
    env.sig.is_canonical();
    let rows = rows(alloc, goal, answer)?;
    let names = free_names(alloc, env, goal, &answer.free, &rows)?;
    let mut text = heading(alloc, number)?;
    add_lines(alloc, env, &answer.free, &names, &rows, &mut text)?;
    Ok(text)
}

/// `solution n`.
fn heading(alloc: Global, number: u64) -> Result<Vec<u8>, AllocError>
    ensures { IfOk result (λ t. t.items ≡ codes "solution " ++ decimal number) }
{
    let mut text = Vec::from_slice(alloc, b"solution ")?;
    let digits = number.to_string(alloc)?;
    text.extend_from_slice(digits.as_bytes())?;
    Ok(text)
}

/// The lines, each behind a line feed, or that there is none.
fn add_lines(
    alloc: Global,
    env: &ShowEnv,
    free: &Context,
    names: &[Option<Name>],
    rows: &[Row],
    text: &mut Vec<u8>,
) -> Result<(), AllocError>
    requires context { IsShowableContext (signature_of env.now.sig.now) free.now }
    requires rows { AreShowable (signature_of env.now.sig.now) free.now (map row_of rows.now) }
    ensures { OnOk result (text.new.items ≡ text.old.items ++ lines_or_empty (scene_of env.now) free.now names.now (map row_of rows.now)) }
{
    if rows.is_empty() {
        text.extend_from_slice(b"\nEmpty Substitution.")?;
        return Ok(());
    }
    for row in rows {
        add_line(alloc, env, free, names, row, text)?;
    }
    Ok(())
}

/// The line of a variable, behind a line feed.
fn add_line(
    alloc: Global,
    env: &ShowEnv,
    free: &Context,
    names: &[Option<Name>],
    row: &Row,
    text: &mut Vec<u8>,
) -> Result<(), AllocError>
    requires context { IsShowableContext (signature_of env.now.sig.now) free.now }
    requires row { AreShowable (signature_of env.now.sig.now) free.now (row_of row.now ∷ []) }
    ensures { OnOk result (text.new.items ≡ text.old.items ++ lines_of (scene_of env.now) free.now names.now (row_of row.now ∷ [])) }
{
    let context = free.copy(alloc)?;
    let scope = scope_of(alloc, names)?;
    let value = show_term_in_scope(alloc, env, context, scope, row.value, &row.ty)?;
    text.push(b'\n')?;
    text.extend_from_slice(row.name.as_bytes())?;
    text.extend_from_slice(b" = ")?;
    text.extend_from_slice(&value)?;
    Ok(())
}
