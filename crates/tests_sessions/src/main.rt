//! Serves the sessions of the transcripts that its words name, and says which of them don't go as it is wanted.
#![tactic(auto)]

mod case;
mod checking;
mod escapes;
mod serving;
mod transcript;

use crate::case::Case;
use crate::checking::holds;
use crate::transcript::read_line;
use std::{env, fs, io};
use tw_server::{Status, exit_code};

/// How many sessions were served, and how many of them differ.
#[derive(Clone, Copy, Drop)]
struct Counts {
    sessions: u64,
    differing: u64,
}

// Reads a line of a transcript behind these sessions. Of one that is not written as a line is, this says so.
fn read_into(rt: &HostRuntime, cases: &mut Vec<Case>, path: &str, line: &str) -> io::Result<()> {
    if !read_line(rt, cases, line)? {
        println!(rt; "{path}: no line is written so: {line}")?;
    }
    Ok(())
}

// The sessions of a transcript.
fn read(rt: &HostRuntime, path: &str) -> io::Result<Vec<Case>> {
    let text = fs::read_to_string(rt, path)?;
    let mut cases = Vec::new(rt.alloc());
    for line in text.lines() {
        read_into(rt, &mut cases, path, line)?;
    }
    Ok(cases)
}

// Serves the session, and counts it.
fn count(rt: &HostRuntime, counts: &mut Counts, case: &Case) -> io::Result<()> {
    counts.sessions = counts.sessions.saturating_add(1);
    if !holds(rt, case)? {
        counts.differing = counts.differing.saturating_add(1);
    }
    Ok(())
}

// The same for each session of a transcript.
fn count_all(rt: &HostRuntime, counts: &mut Counts, path: &str) -> io::Result<()> {
    let cases = read(rt, path)?;
    for case in &cases {
        count(rt, counts, case)?;
    }
    Ok(())
}

// Says what was counted, and what the statuses are that no session of a transcript ends with.
fn tell(rt: &HostRuntime, counts: &Counts) -> io::Result<()> {
    let sessions = counts.sessions;
    let differing = counts.differing;
    let long = exit_code(&Status::InputLong);
    let memory = exit_code(&Status::NoMemory);
    println!(rt;
        "{sessions} sessions, {differing} differ; an input that is too long ends with {long}, want of memory with {memory}"
    )
}

fn main(rt: HostRuntime) -> io::Result<()> {
    let mut counts = Counts {
        sessions: 0,
        differing: 0,
    };
    for path in env::args(&rt)?.skip(1) {
        count_all(&rt, &mut counts, path.as_str())?;
    }
    tell(&rt, &counts)
}
