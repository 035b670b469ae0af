//! Searches for the proofs of goals, call by call, and runs of queries, on the cases of a file: what came out of each, after its name.
#![tactic(auto)]

mod goals;
mod querying;
mod searching;
mod showing;

use crate::querying::queried;
use crate::searching::searched;
use std::alloc::Global;
use std::{fs, io};
use tests_forms::{Case, FormFault, Names, read_cases, read_signature};
use tw_signature::Signature;

fn main(rt: HostRuntime) -> io::Result<()> {
    let alloc = rt.alloc();
    let text = fs::read_to_string(&rt, "signature.txt")?;
    let Ok((signature, mut names)) = read_signature(alloc, text.as_str()) else {
        return println!(rt; "signature.txt can't be read");
    };
    let text = fs::read_to_string(&rt, "searches.txt")?;
    let Ok(cases) = read_cases(alloc, text.as_str()) else {
        return println!(rt; "searches.txt can't be read");
    };
    for case in &cases {
        names.forget_all_but_constants(alloc);
        let name = &case.name;
        match outcome(alloc, &signature, &mut names, case) {
            Ok(line) => println!(rt; "{name}:{line}")?,
            Err(FormFault::NoMeaning) => println!(rt; "{name} can't be read")?,
            Err(FormFault::NoMemory) => println!(rt; "{name} wants memory")?,
        }
    }
    Ok(())
}

/// What a search or a query comes to.
fn outcome(
    alloc: Global,
    signature: &Signature,
    names: &mut Names,
    case: &Case,
) -> Result<String, FormFault> {
    match case.kind.as_str() {
        "search" => searched(alloc, signature, names, case),
        "query" => queried(alloc, signature, names, case),
        _ => Err(FormFault::NoMeaning),
    }
}
