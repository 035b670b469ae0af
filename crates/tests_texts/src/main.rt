//! The passes over texts, there and back, on the cases of files: a line for what came out of each question, after the question itself.
#![tactic(auto)]

#[tactic(auto, using(tw_terms::proofs::Args::types))]
mod entries;
mod equations;
mod line;
mod names;
mod parsing;
#[tactic(auto, using(tw_terms::proofs::Args::types))]
mod printing;
mod reading;
mod reconstruction;
mod resolution;
#[tactic(auto, using(tw_terms::proofs::Args::types))]
mod shown;
mod skeletons;
mod steps;
mod texts;
mod tokens;
#[tactic(auto, using(tw_terms::proofs::Args::types))]
mod typed;
mod world;
mod written;

use crate::steps::done;
use crate::world::World;
use std::{fs, io};
use tests_forms::{Case, Field, FormFault, read_cases};

/// The files of cases, in order.
const FILES: [&str; 11] = [
    "tokens.txt",
    "parsing.txt",
    "faults_of_abbreviations.txt",
    "names.txt",
    "skeletons.txt",
    "resolution.txt",
    "reconstruction.txt",
    "printing.txt",
    "equations.txt",
    "shown.txt",
    "depth.txt",
];

// Prints what came out of a question, behind the question.
fn tell(
    rt: &HostRuntime,
    field: &Field,
    answer: &Result<Option<String>, FormFault>,
) -> io::Result<()> {
    let (word, text) = (&field.word, &field.text);
    match answer {
        Ok(Some(line)) => println!(rt; "  {word} {text} ⇒ {line}"),
        Ok(None) => Ok(()),
        Err(FormFault::NoMeaning) => println!(rt; "  {word} {text} can't be read"),
        Err(FormFault::NoMemory) => println!(rt; "  {word} {text} wants memory"),
    }
}

fn run_field(rt: &HostRuntime, cases: &[Case], world: &mut World, field: &Field) -> io::Result<()> {
    let answer = done(rt.alloc(), cases, world, field);
    tell(rt, field, &answer)
}

fn run_fields(rt: &HostRuntime, cases: &[Case], case: &Case) -> io::Result<()> {
    let mut world = World::new(rt.alloc());
    for field in &case.fields {
        run_field(rt, cases, &mut world, field)?;
    }
    Ok(())
}

fn run_case(rt: &HostRuntime, cases: &[Case], case: &Case) -> io::Result<()> {
    let name = &case.name;
    match case.kind.as_str() {
        "setting" => Ok(()),
        "case" => {
            println!(rt; "{name}")?;
            run_fields(rt, cases, case)
        }
        _ => println!(rt; "{name} can't be read"),
    }
}

fn run_file(rt: &HostRuntime, file: &str) -> io::Result<()> {
    let text = fs::read_to_string(rt, file)?;
    let Ok(cases) = read_cases(rt.alloc(), text.as_str()) else {
        return println!(rt; "{file} can't be read");
    };
    println!(rt; "{file}")?;
    for case in &cases {
        run_case(rt, &cases, case)?;
    }
    Ok(())
}

fn main(rt: HostRuntime) -> io::Result<()> {
    for file in FILES {
        run_file(&rt, file)?;
    }
    Ok(())
}
