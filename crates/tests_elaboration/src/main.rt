//! Elaboration of written declarations, and the order of their metavariables in the text, on the cases of files: a line for what came out of each, after its name.
#![tactic(auto)]

mod elaborating;
mod ordering;
mod writing;

use crate::elaborating::elaborated;
use crate::ordering::ordered;
use std::alloc::Global;
use std::{fs, io};
use tests_forms::{Case, FormFault, Names, read_cases, read_signature};
use tw_signature::Signature;

/// The files of cases, in order.
const FILES: [&str; 3] = ["elaboration.txt", "places.txt", "depth.txt"];

// what came out of the case
fn answer(
    alloc: Global,
    signature: &Signature,
    names: &mut Names,
    case: &Case,
) -> Result<String, FormFault> {
    match case.kind.as_str() {
        "elaborate" => elaborated(alloc, signature, names, case),
        "sites" | "frees" => ordered(alloc, signature, names, case),
        _ => Err(FormFault::NoMeaning),
    }
}

// Tells the case's name and what came out of it.
fn run_case(
    rt: &HostRuntime,
    signature: &Signature,
    names: &mut Names,
    case: &Case,
) -> io::Result<()> {
    let name = &case.name;
    match answer(rt.alloc(), signature, names, case) {
        Ok(line) => println!(rt; "{name}: {line}"),
        Err(FormFault::NoMeaning) => println!(rt; "{name} can't be read"),
        Err(FormFault::NoMemory) => println!(rt; "{name} wants memory"),
    }
}

fn run_cases(
    rt: &HostRuntime,
    signature: &Signature,
    names: &mut Names,
    cases: &[Case],
) -> io::Result<()> {
    for case in cases {
        names.forget_all_but_constants(rt.alloc());
        run_case(rt, signature, names, case)?;
    }
    Ok(())
}

fn run_text(
    rt: &HostRuntime,
    signature: &Signature,
    names: &mut Names,
    file: &str,
    text: &str,
) -> io::Result<()> {
    match read_cases(rt.alloc(), text) {
        Ok(cases) => {
            println!(rt; "{file}")?;
            run_cases(rt, signature, names, &cases)
        }
        Err(_) => println!(rt; "{file} can't be read"),
    }
}

fn run_files(rt: &HostRuntime, signature: &Signature, names: &mut Names) -> io::Result<()> {
    for file in FILES {
        let text = fs::read_to_string(rt, file)?;
        run_text(rt, signature, names, file, text.as_str())?;
    }
    Ok(())
}

fn run(rt: &HostRuntime, text: &str) -> io::Result<()> {
    match read_signature(rt.alloc(), text) {
        Ok((signature, mut names)) => run_files(rt, &signature, &mut names),
        Err(_) => println!(rt; "vectors.txt can't be read"),
    }
}

fn main(rt: HostRuntime) -> io::Result<()> {
    let text = fs::read_to_string(&rt, "vectors.txt")?;
    run(&rt, text.as_str())
}
