//! Problems of unification to be timed. With the words KIND SIZE WORK it builds a problem, solves it where WORK is `solve`, and prints a line;
//! without them, nothing.
#![tactic(auto)]

mod lists;
mod problems;
mod proofs_under;
mod tree;

use crate::problems::{Problem, problem_of, signature};
use crate::tree::walk;
use std::alloc::{AllocError, Global};
use std::env;
use tests_ready::{are_ready, declared};
use tw_metas::Store;
use tw_unify::{Unified, UnifyFault, solve};

// what came of a problem
#[derive(Clone, Copy, PartialEq, Eq, Debug)]
enum Outcome {
    IllTyped,
    Ready,
    Answer(Unified),
    Fault(UnifyFault),
}

// builds the problem, and solves it where that is asked
fn run(alloc: Global, kind: &str, size: u64, solving: bool) -> Result<Outcome, AllocError> {
    let signature = signature(alloc, kind, size)?;
    let Problem { types, equations } = problem_of(alloc, kind, size)?;
    let mut store = declared(alloc, &types)?;
    if !are_ready(alloc, &signature, &store, &equations)? {
        return Ok(Outcome::IllTyped);
    }
    if !solving {
        return Ok(Outcome::Ready);
    }
    match solve(alloc, &mut store, &signature, equations) {
        Ok(unified) => Ok(Outcome::Answer(unified)),
        Err(fault) => Ok(Outcome::Fault(fault)),
    }
}

fn main(rt: HostRuntime) -> anyhow::Result<()> {
    let mut words = env::args(&rt)?;
    words.next();
    match (words.next(), words.next(), words.next()) {
        (Some(kind), Some(size), Some(work)) => {
            measured(&rt, &kind, size.parse()?, work.as_str() == "solve")
        }
        _ => Ok(()),
    }
}

// does the work, and says what came of it
fn measured(rt: &HostRuntime, kind: &str, size: u64, solving: bool) -> anyhow::Result<()> {
    let alloc = rt.alloc();
    if kind == "tree" {
        let mut store = Store::new(alloc);
        walk(alloc, &mut store, size)?;
        println!(rt; "tree {size}")?;
    } else {
        let outcome = run(alloc, kind, size, solving)?;
        println!(rt; "{kind} {size} {outcome:?}")?;
    }
    Ok(())
}
