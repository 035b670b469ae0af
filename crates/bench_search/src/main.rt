//! Searches that are to be timed. With the words KIND SIZE WORK it builds a program and a goal, searches to the end of the tree or of the budget where WORK is `search`, and prints a line;
//! without them, nothing.
#![tactic(auto)]

ghost use Rattle.lf.specs.Entries.{signature_of};
ghost use Rattle.lf.specs.Typing.{IsContext, IsType};
ghost use Rattle.tw_terms.specs.View.{type_of};

mod programs;
mod searches;

use crate::programs::{budget_of, goal_of, program_of, proof_of};
use crate::searches::{Told, begun, read_goal, to_the_end};
use std::alloc::{AllocError, Global};
use std::env;
use tests_forms::{FormFault, read_signature};
use tw_signature::{Goal, Signature};

fn main(rt: HostRuntime) -> anyhow::Result<()> {
    let mut words = env::args(&rt)?;
    words.next();
    match (words.next(), words.next(), words.next()) {
        (Some(kind), Some(size), Some(work)) => {
            measured(&rt, &kind, size.parse()?, work.as_str() == "search")
        }
        _ => Ok(()),
    }
}

// does the work, and says what came of it
fn measured(rt: &HostRuntime, kind: &str, size: u64, searching: bool) -> anyhow::Result<()> {
    match run(rt.alloc(), kind, size, searching) {
        Ok(
            Some(
                Told {
                    tries,
                    answers,
                    end,
                },
            ),
        ) => println!(rt; "{kind} {size} {tries} {answers} {end:?}")?,
        Ok(None) => println!(rt; "{kind} {size} built")?,
        Err(FormFault::NoMeaning) => println!(rt; "{kind} {size} can't be read")?,
        Err(FormFault::NoMemory) => println!(rt; "{kind} {size} wants memory")?,
    }
    Ok(())
}

// builds the program, and searches where that is asked
fn run(alloc: Global, kind: &str, size: u64, searching: bool) -> Result<Option<Told>, FormFault> {
    let program = program_of(alloc, kind, size)?;
    let (signature, mut names) = read_signature(alloc, program.as_str())?;
    let text = goal_of(alloc, kind, size)?;
    let goal = read_goal(
        alloc,
        &signature,
        &mut names,
        text.as_str(),
        proof_of(alloc, kind)?,
    )?;
    Ok(searched(alloc, &signature, &goal, budget_of(kind, size), searching)?)
}

// the search for the proofs of the goal
fn searched(
    alloc: Global,
    signature: &Signature,
    goal: &Goal,
    budget: u64,
    searching: bool,
) -> Result<Option<Told>, AllocError>
    requires context { IsContext (signature_of signature.now) goal.now.variables }
    requires goal { IsType (signature_of signature.now) goal.now.variables (type_of goal.now.goal) }
{
    if !searching {
        return Ok(None);
    }
    let mut search = begun(alloc, signature, goal)?;
    Ok(Some(to_the_end(alloc, signature, &mut search, budget)?))
}
