//! What a call of a search shows, as a part of a line. The free variables of an answer have names that are made for them, from the outermost.
use std::alloc::{AllocError, Global};
use std::str;
use tests_forms::{Names, opened_type, show_closed_term, show_type};
use tw_equation::show_equation;
use tw_fixity::FixTable;
use tw_metas::LeftEquation;
use tw_print::{Names as Preferences, ShowEnv};
use tw_search::{Answer, Step};
use tw_signature::Signature;
use tw_terms::Context;

/// The step, behind ` | `, and in front of the number of tries so far.
pub(crate) fn show_step(
    alloc: Global,
    signature: &Signature,
    names: &mut Names,
    line: &mut String,
    step: &Step,
    tries: u64,
) -> Result<(), AllocError> {
    line.push_str(" | ")?;
    match step {
        Step::Answer(answer) => show_answer(alloc, names, line, answer)?,
        Step::Leftover(left) => show_left(alloc, signature, line, left)?,
        Step::Exhausted => line.push_str("exhausted")?,
        Step::Budget => line.push_str("budget")?,
        Step::TooDeep => line.push_str("too deep")?,
    }
    write!(line, " @{tries}")
}

/// The free variables with their types, the values, and the proof, where it was read.
fn show_answer(
    alloc: Global,
    names: &mut Names,
    line: &mut String,
    answer: &Answer,
) -> Result<(), AllocError> {
    let count = answer.free.len() as u64;
    for depth in 0..count {
        show_free(alloc, names, line, &answer.free, count - 1 - depth)?;
    }
    for value in &answer.values {
        show_closed_term(alloc, line, names, value)?;
        line.push_str("; ")?;
    }
    match &answer.proof {
        Some(proof) => show_closed_term(alloc, line, names, proof)?,
        None => line.push_str("unread")?,
    }
    names.leave_scope(0);
    Ok(())
}

/// A free variable with its type, and it comes into scope.
fn show_free(
    alloc: Global,
    names: &mut Names,
    line: &mut String,
    free: &Context,
    variable: u64,
) -> Result<(), AllocError> {
    match free.get(variable) {
        Some(ty) => {
            line.push_str("[")?;
            show_type(alloc, line, names, &opened_type(alloc, ty)?)?;
            line.push_str("] ")?;
            names.push_made(alloc)
        }
        None => line.push_str("?"),
    }
}

/// The text of an equation that is left.
pub(crate) fn show_left(
    alloc: Global,
    signature: &Signature,
    line: &mut String,
    left: &LeftEquation,
) -> Result<(), AllocError> {
    let fixities = FixTable::new(alloc);
    let names = Preferences::new(alloc);
    let env = ShowEnv {
        sig: signature,
        fixities: &fixities,
        names: &names,
        implicit: false,
    };
    line.push_str("outside ")?;
    add_text(line, &show_equation(alloc, &env, left)?)
}

/// Adds a text.
pub(crate) fn add_text(line: &mut String, text: &[u8]) -> Result<(), AllocError> {
    line.push_str(str::from_utf8(text).unwrap_or("?"))
}
