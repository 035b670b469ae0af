//! Declarations and queries, and what they are reconstructed to.
use crate::line::Line;
use crate::reading::{line_of, read_decl, read_query};
use crate::skeletons::put_unknown;
use crate::world::World;
use std::alloc::{AllocError, Global};
use tests_forms::FormFault;
use tw_names::Mention;
use tw_parse::{ExtQuery, ExtTerm};
use tw_print::{ShowEnv, show_entry};
use tw_recon::{
    Goal, ReconFault, first_free_variable, reconstruct, reconstruct_goal, reconstruct_query,
};

fn fault_line(alloc: Global, fault: &ReconFault) -> Result<String, FormFault> {
    let mut line = Line::new(alloc);
    put_fault(&mut line, fault);
    Ok(line.whole()?)
}

fn put_fault(line: &mut Line, fault: &ReconFault) {
    match fault {
        ReconFault::Unknown(name, at) => put_unknown(line, name, *at),
        ReconFault::TypeLevel(Some(at)) => {
            line.put("type level");
            line.put_place(*at);
        }
        ReconFault::TypeLevel(None) => line.put("type level"),
        ReconFault::Loose => line.put("loose"),
        ReconFault::Mismatch => line.put("mismatch"),
        ReconFault::Leftover(_) => line.put("left over"),
        ReconFault::TooDeep => line.put("too deep"),
        ReconFault::NoMemory => line.put("no memory"),
    }
}

/// The line of the entry that the declaration gives, or what its fault is.
pub(crate) fn entry(alloc: Global, world: &World, text: &str) -> Result<String, FormFault> {
    let decl = read_decl(alloc, &world.fixities, text)?;
    match reconstruct(alloc, &world.signature, &decl) {
        Ok(entry) => {
            let env = ShowEnv {
                sig: &world.signature,
                fixities: &world.fixities,
                names: &world.preferences,
                implicit: world.implicit,
            };
            line_of(alloc, &show_entry(alloc, &env, &entry)?)
        }
        Err(fault) => fault_line(alloc, &fault),
    }
}

/// Whether the declaration gives an entry, or what its fault is.
pub(crate) fn is_declared(alloc: Global, world: &World, text: &str) -> Result<String, FormFault> {
    let decl = read_decl(alloc, &world.fixities, text)?;
    match reconstruct(alloc, &world.signature, &decl) {
        Ok(_) => Ok(String::from_str(alloc, "declared")?),
        Err(fault) => fault_line(alloc, &fault),
    }
}

// The names of the variables, the newest first; those that are shown; and the name of the proof.
fn goal_line(alloc: Global, goal: &Goal) -> Result<String, FormFault> {
    if goal.variables.len() != goal.names.len() {
        return Ok(String::from_str(alloc, "there aren't as many names as variables")?);
    }
    let mut line = Line::new(alloc);
    put_goal(&mut line, goal);
    Ok(line.whole()?)
}

fn put_goal(line: &mut Line, goal: &Goal) {
    for name in &goal.names {
        line.put_name_or(name, "_");
        line.put(" ");
    }
    line.put("|");
    for variable in &goal.shown {
        line.put(" ");
        line.put_number(*variable);
    }
    line.put(" | ");
    line.put_name_or(&goal.proof, "_");
}

/// What is asked by the query, or what its fault is.
pub(crate) fn asked(alloc: Global, world: &World, text: &str) -> Result<String, FormFault> {
    let query = read_query(alloc, &world.fixities, text)?;
    match reconstruct_query(alloc, &world.signature, &query) {
        Ok(goal) => goal_line(alloc, &goal),
        Err(fault) => fault_line(alloc, &fault),
    }
}

fn goal_of(query: ExtQuery) -> ExtTerm {
    let ExtQuery { proof: _, goal } = query;
    goal
}

/// What is asked by the type alone, or what its fault is.
pub(crate) fn goal(alloc: Global, world: &World, text: &str) -> Result<String, FormFault> {
    let query = read_query(alloc, &world.fixities, text)?;
    match reconstruct_goal(alloc, &world.signature, goal_of(query)) {
        Ok(goal) => goal_line(alloc, &goal),
        Err(fault) => fault_line(alloc, &fault),
    }
}

/// The free variable that stands first in the type, with its place.
pub(crate) fn first_free(alloc: Global, world: &World, text: &str) -> Result<String, FormFault> {
    let query = read_query(alloc, &world.fixities, text)?;
    let found = first_free_variable(alloc, &world.signature, &query.goal)?;
    Ok(mention_line(alloc, &found)?)
}

/// The name that is mentioned, and where it stands; `none` where there is none.
pub(crate) fn mention_line(alloc: Global, found: &Option<Mention>) -> Result<String, AllocError> {
    let mut line = Line::new(alloc);
    match found {
        Some(mention) => {
            line.put_name(&mention.name);
            line.put_place(mention.at);
        }
        None => line.put("none"),
    }
    line.whole()
}
