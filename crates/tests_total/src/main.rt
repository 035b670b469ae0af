//! The records of two groups whose checks have passed, each part on a line.
#![tactic(auto)]

#[tactic(auto, using(tw_terms::proofs::Args::types))]
mod declared;
#[tactic(auto, using(tw_terms::proofs::Args::types, tw_clause::proofs::OrderViews::orders))]
mod groups;
mod showing;

use crate::declared::declared;
use crate::groups::{first_record, second_record};
use crate::showing::show_record;
use std::alloc::{AllocError, Global};
use std::io;
use tw_total::Totals;

/// The record of ok, and then that of yes, which calls it.
fn records(alloc: Global) -> Result<Totals, AllocError> {
    let signature = declared(alloc)?;
    let mut totals = Totals {
        records: Vec::new(alloc),
    };
    totals.records.push(first_record(alloc, &signature)?)?;
    let second = second_record(alloc, &signature, &totals)?;
    totals.records.push(second)?;
    Ok(totals)
}

fn shown(alloc: Global) -> Result<String, AllocError> {
    let totals = records(alloc)?;
    let mut text = String::new(alloc);
    for record in &totals.records {
        show_record(&mut text, record)?;
    }
    Ok(text)
}

fn main(rt: HostRuntime) -> io::Result<()> {
    match shown(rt.alloc()) {
        Ok(text) => print!(rt; "{text}"),
        Err(_) => println!(rt; "wants memory"),
    }
}
