//! Marks, and the modes of families.
use std::alloc::{AllocError, Global};
use tests_forms::{Case, FormFault, Names};
use tw_clause::Mark3;
use tw_mode::ModeTable;
use tw_terms::ConstId;

/// The table of `modes`: families and their marks in turn, as `plus ++- nat .`, where a later row of a family replaces an earlier one.
pub(crate) fn read_modes(
    alloc: Global,
    names: &Names,
    case: &Case,
) -> Result<ModeTable, FormFault> {
    let text = case.text("modes")?;
    let mut modes = ModeTable::new(alloc);
    add_modes(alloc, names, text, &mut modes)?;
    Ok(modes)
}

fn add_modes(
    alloc: Global,
    names: &Names,
    text: &str,
    modes: &mut ModeTable,
) -> Result<(), FormFault> {
    let mut family = None;
    for word in text.split_ascii_whitespace() {
        family = after_word(alloc, names, word, family, modes)?;
    }
    Ok(())
}

// Sets the marks of the family before the word, or gives the family that the word names.
fn after_word(
    alloc: Global,
    names: &Names,
    word: &str,
    family: Option<ConstId>,
    modes: &mut ModeTable,
) -> Result<Option<ConstId>, FormFault> {
    match family {
        None => Ok(Some(names.constant(word)?)),
        Some(id) => {
            modes.set(id, marks_of(alloc, word)?)?;
            Ok(None)
        }
    }
}

/// The marks that `marks` says.
pub(crate) fn read_marks(alloc: Global, case: &Case) -> Result<Vec<Mark3>, FormFault> {
    marks_of(alloc, case.text("marks")?)
}

// Marks, as `++-`, where `.` is none.
fn marks_of(alloc: Global, word: &str) -> Result<Vec<Mark3>, FormFault> {
    let mut marks = Vec::new(alloc);
    for letter in word.chars() {
        add_mark(letter, &mut marks)?;
    }
    Ok(marks)
}

fn add_mark(letter: char, marks: &mut Vec<Mark3>) -> Result<(), FormFault> {
    if letter != '.' {
        marks.push(mark_of(letter)?)?;
    }
    Ok(())
}

fn mark_of(letter: char) -> Result<Mark3, FormFault> {
    match letter {
        '+' => Ok(Mark3::Plus),
        '-' => Ok(Mark3::Minus),
        '*' => Ok(Mark3::Free),
        _ => Err(FormFault::NoMeaning),
    }
}

/// Adds the marks.
pub(crate) fn put_marks(line: &mut String, marks: &[Mark3]) -> Result<(), AllocError> {
    for mark in marks {
        line.push(letter_of(*mark))?;
    }
    Ok(())
}

fn letter_of(mark: Mark3) -> char {
    match mark {
        Mark3::Plus => '+',
        Mark3::Minus => '-',
        Mark3::Free => '*',
    }
}
