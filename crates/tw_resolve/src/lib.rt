//! Names resolved: written terms, types and kinds as elaboration takes them.
#![tactic(auto)]

#[tactic(auto, using(crate::proofs::Spines::texts))]
mod bodies;
pub mod laws;
#[tactic(auto, using(crate::proofs::Spines::texts))]
mod resolution;
#[tactic(auto, using(crate::proofs::Rests::rests))]
mod resolving;
#[tactic(auto, using(crate::proofs::Spines::texts))]
mod rows;
mod texts;

pub use bodies::{resolve, resolve_goal};
pub use resolving::Resolving;
pub use texts::{resolve_kind, resolve_term, resolve_type};
