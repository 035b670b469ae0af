//! What a call gave, as a part of a line.
use crate::substitution::Asked;
use std::alloc::Global;
use tests_forms::{FormFault, Names, show_spine, show_term, show_type};
use tw_putting::HeredFault;
use tw_terms::{Open, OpenSpine, OpenTy};

/// Says that skeletons don't type what is asked for.
pub(crate) fn put_not_asked(line: &mut String) -> Result<(), FormFault> {
    Ok(line.push_str("can't be asked")?)
}

/// Adds the term that a call gave.
pub(crate) fn put_found(
    alloc: Global,
    line: &mut String,
    names: &mut Names,
    found: &Asked<Open>,
) -> Result<(), FormFault> {
    match found {
        Ok(Some(term)) => Ok(show_term(alloc, line, names, term)?),
        Ok(None) => put_not_asked(line),
        Err(fault) => put_fault(line, *fault),
    }
}

/// Adds the type that a call gave.
pub(crate) fn put_found_type(
    alloc: Global,
    line: &mut String,
    names: &mut Names,
    found: &Asked<OpenTy>,
) -> Result<(), FormFault> {
    match found {
        Ok(Some(ty)) => Ok(show_type(alloc, line, names, ty)?),
        Ok(None) => put_not_asked(line),
        Err(fault) => put_fault(line, *fault),
    }
}

/// Adds the arguments that a call gave.
pub(crate) fn put_found_arguments(
    alloc: Global,
    line: &mut String,
    names: &mut Names,
    found: &Asked<OpenSpine>,
) -> Result<(), FormFault> {
    match found {
        Ok(Some(spine)) => put_arguments(alloc, line, names, spine),
        Ok(None) => put_not_asked(line),
        Err(fault) => put_fault(line, *fault),
    }
}

fn put_arguments(
    alloc: Global,
    line: &mut String,
    names: &mut Names,
    spine: &OpenSpine,
) -> Result<(), FormFault> {
    line.push_str("arguments")?;
    Ok(show_spine(alloc, line, names, spine)?)
}

fn put_fault(line: &mut String, fault: HeredFault) -> Result<(), FormFault> {
    match fault {
        HeredFault::TooDeep => Ok(line.push_str("too deep")?),
        HeredFault::NoMemory => Err(FormFault::NoMemory),
    }
}
