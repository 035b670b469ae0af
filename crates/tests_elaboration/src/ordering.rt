//! The order of metavariables and of free variables in the text.
use crate::writing::{read_body, read_frees};
use std::alloc::{AllocError, Global};
use tests_forms::{Case, FormFault, Names, number_of};
use tw_signature::Signature;
use tw_terms::{MetaId, Skeleton};
use tw_written::{WrittenBody, frees_in_text_order, sites};

/// The numbers of the metavariables, or of the free variables, in the order of the text; where the word `shown` says `count`, how many there are.
pub(crate) fn ordered(
    alloc: Global,
    signature: &Signature,
    names: &mut Names,
    case: &Case,
) -> Result<String, FormFault> {
    case.has_only(&["free", "kind", "type", "term", "on", "of", "count", "shown"])?;
    let skeletons = read_frees(alloc, names, case)?;
    ordered_over(alloc, signature, names, case, &skeletons)
}

// The same over the skeletons of the free variables.
fn ordered_over(
    alloc: Global,
    signature: &Signature,
    names: &mut Names,
    case: &Case,
    skeletons: &[Skeleton],
) -> Result<String, FormFault> {
    let body = read_body(alloc, names, case)?;
    numbers_of(alloc, signature, case, skeletons, &body)
}

fn numbers_of(
    alloc: Global,
    signature: &Signature,
    case: &Case,
    skeletons: &[Skeleton],
    body: &WrittenBody,
) -> Result<String, FormFault> {
    let mut numbers = Vec::new(alloc);
    match order(alloc, signature, case, skeletons, body, &mut numbers) {
        Ok(()) => shown(alloc, case, &numbers),
        Err(fault) => Err(fault),
    }
}

// The numbers, in order.
fn order(
    alloc: Global,
    signature: &Signature,
    case: &Case,
    skeletons: &[Skeleton],
    body: &WrittenBody,
    numbers: &mut Vec<u64>,
) -> Result<(), FormFault> {
    if case.kind.as_str() == "sites" {
        add_metas(numbers, &sites(alloc, signature, skeletons, body)?)
    } else {
        let count = number_of(case.text("count")?)? as usize;
        add_places(numbers, &frees_in_text_order(alloc, body, count)?)
    }
}

fn add_metas(numbers: &mut Vec<u64>, metas: &[MetaId]) -> Result<(), FormFault> {
    for meta in metas {
        numbers.push(meta.0)?;
    }
    Ok(())
}

fn add_places(numbers: &mut Vec<u64>, places: &[usize]) -> Result<(), FormFault> {
    for place in places {
        numbers.push(*place as u64)?;
    }
    Ok(())
}

fn shown(alloc: Global, case: &Case, numbers: &[u64]) -> Result<String, FormFault> {
    let mut line = String::new(alloc);
    match show(&mut line, case.text("shown")?, numbers) {
        Ok(()) => Ok(line),
        Err(_) => Err(FormFault::NoMemory),
    }
}

fn show(line: &mut String, shown: &str, numbers: &[u64]) -> Result<(), AllocError> {
    if shown == "count" {
        return write!(line, "{} of them", numbers.len());
    }
    for number in numbers {
        line.push_str(if line.is_empty() { "" } else { " " })?;
        write!(line, "{}", *number)?;
    }
    Ok(())
}
