//! The variables of a context in the order of implicit quantifiers: by dependency, and where that leaves it open by first occurrence.
//!
//! `variables` notes the free variables of terms and types, `waiting` what each needs and their order, and `moving` moves types, terms and the context there.
#![tactic(auto)]

#[tactic(auto, using(crate::proofs::Walks::walks))]
mod moving;
mod reordering;
#[tactic(auto, using(crate::proofs::Walks::walks))]
mod variables;
mod waiting;

pub use reordering::{Reordered, reorder};
