//! What cases of all kinds have in common.
use std::alloc::Global;
use tests_forms::{Case, Field, Form, FormFault, Names, begin_part, read_forms};

/// The forms that a word of the case says; none where it doesn't stand.
pub fn forms(alloc: Global, case: &Case, word: &str) -> Result<Vec<Form>, FormFault> {
    read_forms(alloc, case.text(word)?)
}

/// The text as an outcome.
pub fn said(alloc: Global, text: &str) -> Result<String, FormFault> {
    Ok(String::from_str(alloc, text)?)
}

/// Something that is changed and asked step by step.
pub trait Steps {
    /// Takes the step that the word names, and gives what came out: nothing where it only changes something.
    fn step(
        &mut self,
        alloc: Global,
        names: &mut Names,
        word: &str,
        forms: &[Form],
    ) -> Result<String, FormFault>;
}

/// What comes out of the steps of the case, in order.
pub fn run<S: Steps + Drop>(
    alloc: Global,
    names: &mut Names,
    case: &Case,
    mut steps: S,
) -> Result<String, FormFault> {
    let mut line = String::new(alloc);
    for field in &case.fields {
        take(alloc, names, field, &mut steps, &mut line)?;
    }
    Ok(line)
}

// Takes a step, and adds what comes out.
fn take<S: Steps>(
    alloc: Global,
    names: &mut Names,
    field: &Field,
    steps: &mut S,
    line: &mut String,
) -> Result<(), FormFault> {
    let forms = read_forms(alloc, field.text.as_str())?;
    let outcome = steps.step(alloc, names, field.word.as_str(), &forms)?;
    if !outcome.is_empty() {
        begin_part(line)?;
        line.push_str(outcome.as_str())?;
    }
    Ok(())
}
