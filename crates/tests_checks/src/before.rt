//! What is ground before a subgoal.
use crate::marks::read_modes;
use crate::reading::{read_type, read_worlds};
use std::alloc::{AllocError, Global};
use tests_forms::{Case, FormFault, Names, number_of};
use tw_clause::{Block, Clause, clause_of, clause_of_entry};
use tw_mode::ground_before;

/// Adds for each variable of the clause, the outermost first, `y` or `n`: whether it is ground before the subgoal.
pub(crate) fn put_before(
    alloc: Global,
    names: &mut Names,
    case: &Case,
    line: &mut String,
) -> Result<(), FormFault> {
    let clause = read_clause(alloc, names, case)?;
    before_subgoal(alloc, names, case, &clause, line)
}

fn before_subgoal(
    alloc: Global,
    names: &Names,
    case: &Case,
    clause: &Clause,
    line: &mut String,
) -> Result<(), FormFault> {
    let subgoal = number_of(case.text("subgoal")?)?;
    let modes = read_modes(alloc, names, case)?;
    let answers = ground_before(alloc, &modes, clause, subgoal)?;
    Ok(put_answers(line, &answers)?)
}

// The clause of the last entry of a block, or of a type where there is no block.
fn read_clause(alloc: Global, names: &mut Names, case: &Case) -> Result<Clause, FormFault> {
    let worlds = read_worlds(alloc, names, case)?;
    match worlds.blocks.first() {
        Some(block) => last_clause(alloc, block),
        None => typed_clause(alloc, names, case),
    }
}

fn last_clause(alloc: Global, block: &Block) -> Result<Clause, FormFault> {
    let count = block.entries.len();
    if count == 0 || count > 1_000 {
        return Err(FormFault::NoMeaning);
    }
    Ok(clause_of_entry(alloc, block, count as u32)?)
}

fn typed_clause(alloc: Global, names: &mut Names, case: &Case) -> Result<Clause, FormFault> {
    let ty = read_type(alloc, names, case, "type")?;
    Ok(clause_of(alloc, &ty)?)
}

fn put_answers(line: &mut String, answers: &[bool]) -> Result<(), AllocError> {
    for answer in answers {
        line.push(if *answer { 'y' } else { 'n' })?;
    }
    Ok(())
}
