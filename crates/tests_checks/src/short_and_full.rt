//! The two forms of a mode.
use crate::marks::{put_marks, read_marks};
use crate::reading::{read_family, read_type};
use std::alloc::{AllocError, Global};
use tests_forms::{Case, FormFault, Names, number_of};
use tw_clause::Mark3;
use tw_mode::{full_marks, short_marks};
use tw_signature::Signature;
use tw_terms::Kind;

/// Adds the marks that the short form gives the places of a family.
pub(crate) fn short(
    alloc: Global,
    signature: &Signature,
    names: &Names,
    case: &Case,
    line: &mut String,
) -> Result<(), FormFault> {
    match signature.family_kind(read_family(names, case, "family")?) {
        Some(kind) => short_of_kind(alloc, kind, case, line),
        None => Err(FormFault::NoMeaning),
    }
}

fn short_of_kind(
    alloc: Global,
    kind: &Kind,
    case: &Case,
    line: &mut String,
) -> Result<(), FormFault> {
    let implicit = implicit_of(case)?;
    let explicit = read_marks(alloc, case)?;
    let marks = short_marks(alloc, kind, implicit, &explicit)?;
    Ok(put_marks(line, &marks)?)
}

/// Adds the marks that the full form gives, or that it is none.
pub(crate) fn full(
    alloc: Global,
    names: &mut Names,
    case: &Case,
    line: &mut String,
) -> Result<(), FormFault> {
    let implicit = implicit_of(case)?;
    let ty = read_type(alloc, names, case, "type")?;
    let marks = read_marks(alloc, case)?;
    let full = full_marks(alloc, &ty, implicit, &marks)?;
    Ok(put_full(line, &full)?)
}

fn put_full(line: &mut String, full: &Option<Vec<Mark3>>) -> Result<(), AllocError> {
    match full {
        Some(marks) => put_marks(line, marks),
        None => line.push_str("no full form"),
    }
}

// How many quantifiers are implicit.
fn implicit_of(case: &Case) -> Result<u32, FormFault> {
    u32::try_from(number_of(case.text("implicit")?)?).map_err(|_| FormFault::NoMeaning)
}
