//! Clauses, the checks of modes, orders and worlds, and subordination, on the cases of files: a line for what came out of each, after its name.
#![tactic(auto)]

mod before;
mod blocks;
mod clauses;
mod marks;
mod modes;
mod orders;
mod reading;
mod setting;
mod short_and_full;
mod showing;
mod subordination;
mod worlds;

use std::alloc::Global;
use std::{fs, io};
use tests_forms::{Case, FormFault, Names, read_cases, read_signature};
use tw_signature::Signature;

/// What the cases of a file are about.
#[derive(Clone, Copy)]
enum Subject {
    Clauses,
    Modes,
    Orders,
    Worlds,
}

// Adds what comes out of a case to the line.
fn put_answer(
    alloc: Global,
    subject: Subject,
    signature: &Signature,
    names: &mut Names,
    case: &Case,
    line: &mut String,
) -> Result<(), FormFault> {
    match subject {
        Subject::Clauses => clauses::put_answer(alloc, signature, names, case, line),
        Subject::Modes => modes::put_answer(alloc, signature, names, case, line),
        Subject::Orders => orders::put_answer(alloc, signature, names, case, line),
        Subject::Worlds => worlds::put_answer(alloc, signature, names, case, line),
    }
}

// Prints the line of a case, or why there is none.
fn tell(
    rt: &HostRuntime,
    name: &str,
    line: &str,
    outcome: Result<(), FormFault>,
) -> io::Result<()> {
    match outcome {
        Ok(()) => println!(rt; "{name}: {line}"),
        Err(fault) => tell_fault(rt, name, fault),
    }
}

fn tell_fault(rt: &HostRuntime, name: &str, fault: FormFault) -> io::Result<()> {
    match fault {
        FormFault::NoMeaning => println!(rt; "{name} can't be read"),
        FormFault::NoMemory => println!(rt; "{name} wants memory"),
    }
}

fn run_case(
    rt: &HostRuntime,
    subject: Subject,
    signature: &Signature,
    names: &mut Names,
    case: &Case,
) -> io::Result<()> {
    let alloc = rt.alloc();
    names.forget_all_but_constants(alloc);
    let mut line = String::new(alloc);
    let outcome = put_answer(alloc, subject, signature, names, case, &mut line);
    tell(rt, case.name.as_str(), line.as_str(), outcome)
}

fn run_cases(
    rt: &HostRuntime,
    subject: Subject,
    signature: &Signature,
    names: &mut Names,
    cases: &[Case],
) -> io::Result<()> {
    for case in cases {
        run_case(rt, subject, signature, names, case)?;
    }
    Ok(())
}

// Runs the cases of a file over the signature.
fn run_file(
    rt: &HostRuntime,
    subject: Subject,
    signature: &Signature,
    names: &mut Names,
    file: &str,
) -> io::Result<()> {
    let text = fs::read_to_string(rt, file)?;
    match read_cases(rt.alloc(), text.as_str()) {
        Ok(cases) => run_cases(rt, subject, signature, names, &cases),
        Err(fault) => tell_fault(rt, file, fault),
    }
}

// Runs the cases of a file over the signature of another.
fn run(rt: &HostRuntime, subject: Subject, declared: &str, file: &str) -> io::Result<()> {
    let text = fs::read_to_string(rt, declared)?;
    match read_signature(rt.alloc(), text.as_str()) {
        Ok((signature, mut names)) => run_file(rt, subject, &signature, &mut names, file),
        Err(fault) => tell_fault(rt, declared, fault),
    }
}

fn main(rt: HostRuntime) -> io::Result<()> {
    run(
        &rt,
        Subject::Clauses,
        "clauses_signature.txt",
        "clauses.txt",
    )?;
    run(&rt, Subject::Modes, "modes_signature.txt", "modes.txt")?;
    run(&rt, Subject::Orders, "orders_signature.txt", "orders.txt")?;
    run(&rt, Subject::Worlds, "worlds_signature.txt", "worlds.txt")
}
