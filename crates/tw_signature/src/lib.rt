//! Signatures: the entries of canonical LF in order, found by number and by name, and what is asked over them.
#![tactic(auto)]

mod constants;
mod entry;
mod goal;
#[tactic(auto, using(tw_terms::proofs::Args::types))]
mod shape;
mod signature;

pub use entry::{Body, Entry};
pub use goal::Goal;
pub use shape::{mark_spine, mark_term, shape_of};
pub use signature::Signature;
