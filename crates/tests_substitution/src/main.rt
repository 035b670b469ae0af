//! Substitution, values put in, and terms that are moved, opened and closed, on the cases of files: a line for what came out of each, after its name.
#![tactic(auto)]

#[tactic(auto, using(tw_putting::proofs::Environments::environments))]
mod binding;
mod filling;
mod moving;
#[tactic(auto, using(tw_putting::proofs::Environments::environments))]
mod putting;
mod reading;
mod showing;
#[tactic(auto, using(tw_putting::proofs::Openings::openings))]
mod skeletons;
#[tactic(auto, using(tw_putting::proofs::Environments::environments))]
mod stores;
mod substituting;
#[tactic(auto, using(tw_putting::proofs::Environments::environments))]
mod substitution;
#[tactic(auto, using(tw_putting::proofs::Openings::openings))]
mod typing;
mod values;

use std::alloc::Global;
use std::{fs, io};
use tests_forms::{Case, FormFault, Names, read_cases, read_signature};
use tw_signature::Signature;

// Adds what comes out of a case to the line.
fn put_answer(
    alloc: Global,
    signature: &Signature,
    names: &mut Names,
    case: &Case,
    line: &mut String,
) -> Result<(), FormFault> {
    match case.kind.as_str() {
        "shift" | "open" | "close" => moving::put_answer(alloc, names, case, line),
        "substitute" | "instantiate" | "apply" | "put" => {
            values::put_answer(alloc, signature, names, case, line)
        }
        _ => Err(FormFault::NoMeaning),
    }
}

// Prints the line of a case, or why there is none.
fn tell(
    rt: &HostRuntime,
    name: &str,
    line: &str,
    outcome: Result<(), FormFault>,
) -> io::Result<()> {
    match outcome {
        Ok(()) => println!(rt; "{name}: {line}"),
        Err(fault) => tell_fault(rt, name, fault),
    }
}

fn tell_fault(rt: &HostRuntime, name: &str, fault: FormFault) -> io::Result<()> {
    match fault {
        FormFault::NoMeaning => println!(rt; "{name} can't be read"),
        FormFault::NoMemory => println!(rt; "{name} wants memory"),
    }
}

fn run_case(
    rt: &HostRuntime,
    signature: &Signature,
    names: &mut Names,
    case: &Case,
) -> io::Result<()> {
    let alloc = rt.alloc();
    names.forget_all_but_constants(alloc);
    let mut line = String::new(alloc);
    let outcome = put_answer(alloc, signature, names, case, &mut line);
    tell(rt, case.name.as_str(), line.as_str(), outcome)
}

fn run_cases(
    rt: &HostRuntime,
    signature: &Signature,
    names: &mut Names,
    cases: &[Case],
) -> io::Result<()> {
    for case in cases {
        run_case(rt, signature, names, case)?;
    }
    Ok(())
}

// Prints the name of the file, and a line for each of its cases.
fn run_file(
    rt: &HostRuntime,
    signature: &Signature,
    names: &mut Names,
    file: &str,
) -> io::Result<()> {
    let text = fs::read_to_string(rt, file)?;
    match read_cases(rt.alloc(), text.as_str()) {
        Ok(cases) => {
            println!(rt; "{file}")?;
            run_cases(rt, signature, names, &cases)
        }
        Err(fault) => tell_fault(rt, file, fault),
    }
}

fn main(rt: HostRuntime) -> io::Result<()> {
    let text = fs::read_to_string(&rt, "numbers.txt")?;
    match read_signature(rt.alloc(), text.as_str()) {
        Ok((signature, mut names)) => run(&rt, &signature, &mut names),
        Err(fault) => tell_fault(&rt, "numbers.txt", fault),
    }
}

fn run(rt: &HostRuntime, signature: &Signature, names: &mut Names) -> io::Result<()> {
    run_file(rt, signature, names, "substitution.txt")?;
    run_file(rt, signature, names, "depth.txt")
}
