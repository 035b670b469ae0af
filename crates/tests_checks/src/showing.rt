//! Clauses and their names as parts of lines. The variables of a clause have names that are made for them, from the outermost.
use std::alloc::{AllocError, Global};
use tests_forms::{Names, begin_part, opened_spine, opened_type, show_domain, show_type};
use tw_clause::{Clause, ClauseName, Subgoal};
use tw_terms::{ConstId, Context, OpenTy, Spine};

/// Adds the name of a clause and the number of one of its subgoals.
pub(crate) fn put_fault(
    line: &mut String,
    names: &Names,
    clause: &ClauseName,
    subgoal: u64,
) -> Result<(), AllocError> {
    put_name(line, names, clause)?;
    write!(line, " {subgoal}")
}

fn put_name(line: &mut String, names: &Names, name: &ClauseName) -> Result<(), AllocError> {
    match name {
        ClauseName::Constant(id) => names.show_constant(line, *id),
        ClauseName::BlockEntry(label, entry) => {
            line.push_str(std::str::from_utf8(label.as_bytes()).unwrap_or("?"))?;
            write!(line, "/{entry}")
        }
    }
}

/// Adds the clause: its variables, its shape, its head and its subgoals.
pub(crate) fn put_clause(
    alloc: Global,
    line: &mut String,
    names: &mut Names,
    clause: &Clause,
) -> Result<(), AllocError> {
    put_variables(alloc, line, names, &clause.variables)?;
    put_shape(line, &clause.shape)?;
    begin_part(line)?;
    put_atom(alloc, line, names, clause.family, &clause.head)?;
    for subgoal in &clause.subgoals {
        put_subgoal(alloc, line, names, subgoal)?;
    }
    Ok(())
}

fn put_variables(
    alloc: Global,
    line: &mut String,
    names: &mut Names,
    variables: &Context,
) -> Result<(), AllocError> {
    for depth in 0..variables.len() as u64 {
        begin_part(line)?;
        put_variable(alloc, line, names, variables, depth)?;
    }
    Ok(())
}

// Adds the type of the variable with so many older ones, which comes into scope.
fn put_variable(
    alloc: Global,
    line: &mut String,
    names: &mut Names,
    variables: &Context,
    depth: u64,
) -> Result<(), AllocError> {
    match variables.get(newer(variables, depth)) {
        Some(ty) => {
            show_type(alloc, line, names, &opened_type(alloc, ty)?)?;
            names.push_made(alloc)
        }
        None => line.push('?'),
    }
}

// How many types of the context are newer than the one with so many older ones.
fn newer(context: &Context, depth: u64) -> u64 {
    (context.len() as u64)
        .saturating_sub(depth)
        .saturating_sub(1)
}

// Adds for each quantifier whether it is a variable or a subgoal.
fn put_shape(line: &mut String, shape: &[bool]) -> Result<(), AllocError> {
    begin_part(line)?;
    line.push_str("shape ")?;
    for is_variable in shape {
        line.push(if *is_variable { 'v' } else { 's' })?;
    }
    Ok(())
}

fn put_atom(
    alloc: Global,
    line: &mut String,
    names: &mut Names,
    family: ConstId,
    spine: &Spine,
) -> Result<(), AllocError> {
    let spine = opened_spine(alloc, spine)?;
    show_type(alloc, line, names, &OpenTy::Atom(family, spine))
}

// Adds a subgoal, closed over its local context.
fn put_subgoal(
    alloc: Global,
    line: &mut String,
    names: &mut Names,
    subgoal: &Subgoal,
) -> Result<(), AllocError> {
    line.push_str(" <- ")?;
    let count = subgoal.context.len() as u64;
    for depth in 0..count {
        put_hypothesis(alloc, line, names, &subgoal.context, depth)?;
    }
    put_atom(alloc, line, names, subgoal.family, &subgoal.args)?;
    for _ in 0..count {
        names.pop_made();
        line.push(')')?;
    }
    Ok(())
}

// Adds the hypothesis with so many older ones, which comes into scope.
fn put_hypothesis(
    alloc: Global,
    line: &mut String,
    names: &mut Names,
    context: &Context,
    depth: u64,
) -> Result<(), AllocError> {
    match context.get(newer(context, depth)) {
        Some(ty) => show_domain(alloc, line, names, &opened_type(alloc, ty)?),
        None => line.push('?'),
    }
}
