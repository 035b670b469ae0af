//! Terms and types that are moved over variables, opened and closed.
use crate::reading::{read_arguments, read_number, read_term, read_type};
use std::alloc::{AllocError, Global};
use tests_forms::{
    Case, FormFault, Names, begin_part, read_closed_type, show_closed_spine, show_closed_term,
    show_closed_type, show_skeleton, show_term, show_type,
};
use tw_putting::{
    closed_spine, closed_term, closed_type, open_skeleton, open_type, shift, shift_type,
};
use tw_terms::{Open, OpenTy, Spine, Term, Ty};

/// Adds a part for each term, type or arguments of a case that needs no typing.
pub(crate) fn put_answer(
    alloc: Global,
    names: &mut Names,
    case: &Case,
    line: &mut String,
) -> Result<(), FormFault> {
    case.has_only(&["term", "type", "arguments", "by", "from"])?;
    for field in &case.fields {
        put_part(alloc, names, case, field.word.as_str(), line)?;
    }
    Ok(())
}

fn put_part(
    alloc: Global,
    names: &mut Names,
    case: &Case,
    word: &str,
    line: &mut String,
) -> Result<(), FormFault> {
    match (case.kind.as_str(), word) {
        ("shift", "by" | "from") => Ok(()),
        ("shift", "term") => put_moved_term(alloc, names, case, line),
        ("shift", "type") => put_moved_type(alloc, names, case, line),
        ("open", "type") => put_opened_type(alloc, names, case, line),
        ("close", "term") => put_closed_term(alloc, names, case, line),
        ("close", "arguments") => put_closed_arguments(alloc, names, case, line),
        ("close", "type") => put_closed_type(alloc, names, case, line),
        _ => Err(FormFault::NoMeaning),
    }
}

fn put_moved_term(
    alloc: Global,
    names: &mut Names,
    case: &Case,
    line: &mut String,
) -> Result<(), FormFault> {
    let term = moved_term(alloc, names, case)?;
    begin_part(line)?;
    Ok(show_term(alloc, line, names, &term)?)
}

// The term, moved over so many variables from the one with this number on.
fn moved_term(alloc: Global, names: &mut Names, case: &Case) -> Result<Open, FormFault> {
    let by = read_number(case, "by")?;
    let from = read_number(case, "from")?;
    let term = read_term(alloc, names, case, "term")?;
    Ok(shift(alloc, &term, by, from)?)
}

fn put_moved_type(
    alloc: Global,
    names: &mut Names,
    case: &Case,
    line: &mut String,
) -> Result<(), FormFault> {
    let ty = moved_type(alloc, names, case)?;
    begin_part(line)?;
    Ok(show_type(alloc, line, names, &ty)?)
}

fn moved_type(alloc: Global, names: &mut Names, case: &Case) -> Result<OpenTy, FormFault> {
    let by = read_number(case, "by")?;
    let from = read_number(case, "from")?;
    let ty = read_type(alloc, names, case, "type")?;
    Ok(shift_type(alloc, &ty, by, from)?)
}

// Adds the type as an open one, and its skeleton.
fn put_opened_type(
    alloc: Global,
    names: &mut Names,
    case: &Case,
    line: &mut String,
) -> Result<(), FormFault> {
    let ty = opened(alloc, names, case)?;
    begin_part(line)?;
    show_type(alloc, line, names, &ty)?;
    begin_part(line)?;
    Ok(put_skeleton(alloc, names, &ty, line)?)
}

fn opened(alloc: Global, names: &mut Names, case: &Case) -> Result<OpenTy, FormFault> {
    let form = case.form(alloc, "type")?;
    let ty = read_closed_type(alloc, names, &form)?;
    Ok(open_type(alloc, &ty)?)
}

fn put_skeleton(
    alloc: Global,
    names: &Names,
    ty: &OpenTy,
    line: &mut String,
) -> Result<(), AllocError> {
    let skeleton = open_skeleton(alloc, ty)?;
    show_skeleton(line, names, &skeleton)
}

fn put_closed_term(
    alloc: Global,
    names: &mut Names,
    case: &Case,
    line: &mut String,
) -> Result<(), FormFault> {
    let term = read_term(alloc, names, case, "term")?;
    let closed = closed_term(alloc, &term)?;
    Ok(put_term_or_none(alloc, names, &closed, line)?)
}

fn put_term_or_none(
    alloc: Global,
    names: &mut Names,
    closed: &Option<Term>,
    line: &mut String,
) -> Result<(), AllocError> {
    begin_part(line)?;
    match closed {
        Some(term) => show_closed_term(alloc, line, names, term),
        None => line.push_str("no term"),
    }
}

fn put_closed_arguments(
    alloc: Global,
    names: &mut Names,
    case: &Case,
    line: &mut String,
) -> Result<(), FormFault> {
    let spine = read_arguments(alloc, names, case)?;
    let closed = closed_spine(alloc, &spine)?;
    Ok(put_arguments_or_none(alloc, names, &closed, line)?)
}

fn put_arguments_or_none(
    alloc: Global,
    names: &mut Names,
    closed: &Option<Spine>,
    line: &mut String,
) -> Result<(), AllocError> {
    begin_part(line)?;
    line.push_str("arguments")?;
    match closed {
        Some(spine) => show_closed_spine(alloc, line, names, spine),
        None => line.push_str(" are none"),
    }
}

fn put_closed_type(
    alloc: Global,
    names: &mut Names,
    case: &Case,
    line: &mut String,
) -> Result<(), FormFault> {
    let ty = read_type(alloc, names, case, "type")?;
    let closed = closed_type(alloc, &ty)?;
    Ok(put_type_or_none(alloc, names, &closed, line)?)
}

fn put_type_or_none(
    alloc: Global,
    names: &mut Names,
    closed: &Option<Ty>,
    line: &mut String,
) -> Result<(), AllocError> {
    begin_part(line)?;
    match closed {
        Some(ty) => show_closed_type(alloc, line, names, ty),
        None => line.push_str("no type"),
    }
}
