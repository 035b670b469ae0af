//! Subordination: which families are below which, over a signature and blocks.
#![tactic(auto)]

#[tactic(auto, using(crate::proofs::Walks::walks))]
mod closure;
mod laws;
mod links;
#[tactic(auto, using(crate::proofs::Quantifiers::quantifiers))]
mod pairs;
mod subord;

pub use laws::{entries_alone_matter, rows_are_subordination, terms_use_what_is_below};
pub use subord::{BlockTypes, Subord};
