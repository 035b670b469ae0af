//! Clauses read off types, signatures and blocks.
use crate::reading::{read_block, read_context, read_family, read_type};
use crate::showing::put_clause;
use std::alloc::Global;
use tests_forms::{Case, FormFault, Names, number_of};
use tw_clause::{Block, clause_of, clause_of_entry, clauses};
use tw_signature::Signature;
use tw_terms::Ty;

/// Adds what comes out of a case of clauses.
pub(crate) fn put_answer(
    alloc: Global,
    signature: &Signature,
    names: &mut Names,
    case: &Case,
    line: &mut String,
) -> Result<(), FormFault> {
    match case.kind.as_str() {
        "clause" => clause(alloc, signature, names, case, line),
        "constants" => constants(alloc, signature, names, case, line),
        "entry" => entry(alloc, names, case, line),
        _ => Err(FormFault::NoMeaning),
    }
}

// The clause of a constant's type, or of a type in a context.
fn clause(
    alloc: Global,
    signature: &Signature,
    names: &mut Names,
    case: &Case,
    line: &mut String,
) -> Result<(), FormFault> {
    if case.text("of")?.is_empty() {
        return clause_in_context(alloc, names, case, line);
    }
    match signature.constant_type(read_family(names, case, "of")?) {
        Some(ty) => clause_of_type(alloc, names, ty, line),
        None => Err(FormFault::NoMeaning),
    }
}

fn clause_in_context(
    alloc: Global,
    names: &mut Names,
    case: &Case,
    line: &mut String,
) -> Result<(), FormFault> {
    read_context(alloc, names, case, "context")?;
    let ty = read_type(alloc, names, case, "type")?;
    clause_of_type(alloc, names, &ty, line)
}

fn clause_of_type(
    alloc: Global,
    names: &mut Names,
    ty: &Ty,
    line: &mut String,
) -> Result<(), FormFault> {
    let clause = clause_of(alloc, ty)?;
    Ok(put_clause(alloc, line, names, &clause)?)
}

// The numbers of the constants of a family.
fn constants(
    alloc: Global,
    signature: &Signature,
    names: &Names,
    case: &Case,
    line: &mut String,
) -> Result<(), FormFault> {
    let family = read_family(names, case, "family")?;
    for id in &clauses(alloc, signature, family)? {
        write!(line, "{} ", id.0)?;
    }
    Ok(())
}

// The clause of an entry of a block, whose label is of no account.
fn entry(
    alloc: Global,
    names: &mut Names,
    case: &Case,
    line: &mut String,
) -> Result<(), FormFault> {
    let block = read_block(alloc, names, case, ["label", "some", "entries"])?;
    let number = number_of(case.text("number")?)?;
    entry_of(alloc, names, &block, number, line)
}

fn entry_of(
    alloc: Global,
    names: &mut Names,
    block: &Block,
    number: u64,
    line: &mut String,
) -> Result<(), FormFault> {
    if number == 0 || number > block.entries.len() as u64 || number > 1_000 {
        return Err(FormFault::NoMeaning);
    }
    let clause = clause_of_entry(alloc, block, number as u32)?;
    names.leave_scope(block.some.len().saturating_add(number as usize - 1));
    Ok(put_clause(alloc, line, names, &clause)?)
}
