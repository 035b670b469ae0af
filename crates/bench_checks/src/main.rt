//! Signatures whose checks are to be timed. With the words KIND SIZE WORK it builds a signature, checks it where WORK is `modes`, `order`, `subord`, or `worlds1`, `worlds10` or `worlds100`
//! for worlds of so many blocks, and prints a line; without them, nothing.
#![tactic(auto)]

mod blocks;
mod signatures;

use crate::blocks::many_blocks;
use crate::signatures::{families_of, signature};
use std::alloc::{AllocError, Global};
use std::env;
use tw_clause::{Mark3, Order, WorldRows, Worlds};
use tw_mode::{ModeFault, ModeTable, check_modes};
use tw_order::{OrderFault, check_order};
use tw_signature::Signature;
use tw_subord::Subord;
use tw_terms::ConstId;
use tw_world::{WorldFault, check_worlds};

// what came of the work
#[derive(Clone, Copy, PartialEq, Eq, Debug)]
enum Outcome {
    Built,
    Passed,
    Refused,
}

// the first place of each family is its input, and the second its output
fn modes(alloc: Global, signature: &Signature, group: &[ConstId]) -> Result<Outcome, AllocError> {
    let mut table = ModeTable::new(alloc);
    for family in group {
        let marks = Vec::from_slice(alloc, &[Mark3::Plus, Mark3::Minus])?;
        table.set(*family, marks)?;
    }
    let worlds = Worlds {
        blocks: Vec::new(alloc),
    };
    match check_modes(alloc, signature, &table, &worlds, group) {
        Ok(()) => Ok(Outcome::Passed),
        Err(ModeFault::NoMemory) => Err(AllocError),
        Err(_) => Ok(Outcome::Refused),
    }
}

// each family descends by its first place
fn order(alloc: Global, signature: &Signature, group: &[ConstId]) -> Result<Outcome, AllocError> {
    let mut orders = Vec::with_capacity(alloc, group.len())?;
    for family in group {
        orders.push((*family, Order::Arg(1)))?;
    }
    let worlds = Worlds {
        blocks: Vec::new(alloc),
    };
    match check_order(alloc, signature, &orders, &worlds) {
        Ok(()) => Ok(Outcome::Passed),
        Err(OrderFault::NoMemory) => Err(AllocError),
        Err(_) => Ok(Outcome::Refused),
    }
}

// each family is below itself
fn subord(alloc: Global, signature: &Signature, group: &[ConstId]) -> Result<Outcome, AllocError> {
    let below = Subord::of(alloc, signature, &[])?;
    for family in group {
        if !below.below(*family, *family) {
            return Ok(Outcome::Refused);
        }
    }
    Ok(Outcome::Passed)
}

// in worlds of so many blocks; each family that is called is one of the group, so nothing is asked of subordination
fn worlds(
    alloc: Global,
    signature: &Signature,
    group: &[ConstId],
    kind: &str,
    count: u64,
) -> Result<Outcome, AllocError> {
    let worlds = many_blocks(alloc, signature, kind, count)?;
    let below = Subord::of(alloc, &Signature::new(alloc), &[])?;
    let rows = WorldRows {
        rows: Vec::new(alloc),
    };
    match check_worlds(alloc, signature, &below, &rows, group, &worlds) {
        Ok(()) => Ok(Outcome::Passed),
        Err(WorldFault::NoMemory) => Err(AllocError),
        Err(_) => Ok(Outcome::Refused),
    }
}

// builds the signature, and does the work
fn run(alloc: Global, kind: &str, size: u64, work: &str) -> Result<Outcome, AllocError> {
    let signature = signature(alloc, kind, size)?;
    let group = families_of(alloc, kind, size)?;
    match work {
        "modes" => modes(alloc, &signature, &group),
        "order" => order(alloc, &signature, &group),
        "subord" => subord(alloc, &signature, &group),
        "worlds1" => worlds(alloc, &signature, &group, kind, 1),
        "worlds10" => worlds(alloc, &signature, &group, kind, 10),
        "worlds100" => worlds(alloc, &signature, &group, kind, 100),
        _ => Ok(Outcome::Built),
    }
}

fn main(rt: HostRuntime) -> anyhow::Result<()> {
    let mut words = env::args(&rt)?;
    words.next();
    match (words.next(), words.next(), words.next()) {
        (Some(kind), Some(size), Some(work)) => measured(&rt, &kind, size.parse()?, &work),
        _ => Ok(()),
    }
}

// does the work, and says what came of it
fn measured(rt: &HostRuntime, kind: &str, size: u64, work: &str) -> anyhow::Result<()> {
    let outcome = run(rt.alloc(), kind, size, work)?;
    println!(rt; "{kind} {size} {work} {outcome:?}")?;
    Ok(())
}
