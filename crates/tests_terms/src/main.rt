//! Runs the cases of terms, signatures, operators, scopes, substitution, shapes, metavariables and the kernel that stand in files, and prints a line for each: its kind, its
//! name, and what came out. A case that can't be read says so.
#![tactic(auto)]

mod cases;
#[tactic(auto, using(tw_kernel::proofs::Rules::kernel))]
mod kernel;
mod metavariables;
#[tactic(auto, using(tw_shapes::proofs::Views::shapes))]
mod shapes;
mod substitution;
mod tables;
mod terms;
#[tactic(auto, using(tw_hered::proofs::Environments::environments))]
mod typed;

use std::alloc::Global;
use std::{fs, io};
use tests_forms::{Case, FormFault, Names, read_cases, read_signature};
use tw_signature::Signature;

const FILES: [&str; 6] = [
    "kernel.txt",
    "metavariables.txt",
    "shapes.txt",
    "substitution.txt",
    "tables.txt",
    "terms.txt",
];

fn main(rt: HostRuntime) -> anyhow::Result<()> {
    let text = fs::read_to_string(&rt, "signature.txt")?;
    run(&rt, text.as_str())?;
    Ok(())
}

fn run(rt: &HostRuntime, text: &str) -> io::Result<()> {
    match read_signature(rt.alloc(), text) {
        Ok((signature, mut names)) => run_files(rt, &signature, &mut names),
        Err(fault) => println!(rt; "signature.txt: {}", words_of(fault)),
    }
}

fn run_files(rt: &HostRuntime, signature: &Signature, names: &mut Names) -> io::Result<()> {
    println!(rt; "signature.txt: {} entries", signature.len())?;
    for file in FILES {
        run_file(rt, signature, names, file)?;
    }
    Ok(())
}

// prints a line for each case of the file
fn run_file(
    rt: &HostRuntime,
    signature: &Signature,
    names: &mut Names,
    file: &str,
) -> io::Result<()> {
    let text = fs::read_to_string(rt, file)?;
    match read_cases(rt.alloc(), text.as_str()) {
        Ok(cases) => run_cases(rt, signature, names, &cases),
        Err(fault) => println!(rt; "{file}: {}", words_of(fault)),
    }
}

fn run_cases(
    rt: &HostRuntime,
    signature: &Signature,
    names: &mut Names,
    cases: &[Case],
) -> io::Result<()> {
    for case in cases {
        run_case(rt, signature, names, case)?;
    }
    Ok(())
}

fn run_case(
    rt: &HostRuntime,
    signature: &Signature,
    names: &mut Names,
    case: &Case,
) -> io::Result<()> {
    let kind = case.kind.as_str();
    let name = case.name.as_str();
    match outcome(rt.alloc(), signature, names, case) {
        Ok(outcome) => println!(rt; "{kind} {name}: {outcome}"),
        Err(fault) => println!(rt; "{kind} {name}: {}", words_of(fault)),
    }
}

fn words_of(fault: FormFault) -> &'static str {
    match fault {
        FormFault::NoMeaning => "CAN'T BE READ",
        FormFault::NoMemory => "OUT OF MEMORY",
    }
}

// what comes out of a case
fn outcome(
    alloc: Global,
    signature: &Signature,
    names: &mut Names,
    case: &Case,
) -> Result<String, FormFault> {
    names.forget_all_but_constants(alloc);
    match case.kind.as_str() {
        "typing" => kernel::typing(alloc, signature, names, case),
        "type" => kernel::ty(alloc, signature, names, case),
        "kind" => kernel::kind(alloc, signature, names, case),
        "store" => metavariables::store(alloc, names, case),
        "bind" => metavariables::bind(alloc, names, case),
        "shapes" => shapes::shapes(alloc, names, case),
        "substitute" => substitution::term(alloc, signature, names, case),
        "substitute-type" => substitution::ty(alloc, signature, names, case, false),
        "instantiate" => substitution::ty(alloc, signature, names, case, true),
        "apply" => substitution::apply(alloc, signature, names, case),
        "expand" => substitution::expand(alloc, names, case),
        "signature" => tables::signature(alloc, names, case),
        "operators" => tables::operators(alloc, names, case),
        "scope" => tables::scope(alloc, names, case),
        "name" => tables::name(alloc, case),
        "copy" => terms::copy(alloc, names, case),
        "compare" => terms::compare(alloc, names, case),
        "skeleton" => terms::skeleton(alloc, names, case),
        "context" => terms::context(alloc, names, case),
        "open-context" => terms::open_context(alloc, names, case),
        "move" => terms::moved(alloc, names, case),
        _ => Err(FormFault::NoMeaning),
    }
}
