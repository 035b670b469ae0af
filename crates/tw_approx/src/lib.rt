//! Skeletons of declarations and queries: the first pass of reconstruction.
//!
//! A skeleton is a type without its indices. What is written tells some skeletons, and equations between them tell more; what isn't written has a variable until then.
#![tactic(auto)]

#[tactic(auto, using(crate::proofs::Nested::nested))]
mod annotations;
#[tactic(auto, using(crate::proofs::Places::places))]
mod approximation;
#[tactic(auto, using(crate::proofs::Spines::spines))]
mod chains;
#[tactic(auto, using(crate::proofs::Views::shapes))]
mod family;
mod fault;
mod frames;
#[tactic(auto, using(crate::proofs::Behind::gone_over))]
mod lambdas;
pub mod laws;
#[tactic(auto, using(crate::proofs::Places::places))]
mod levels;
#[tactic(auto, using(crate::proofs::Nested::nested))]
mod nesting;
#[tactic(auto, using(crate::proofs::Places::places))]
mod query;
#[tactic(auto, using(crate::proofs::Spines::spines))]
mod skeletons;
#[tactic(auto, using(crate::proofs::Views::shapes))]
mod solving;
mod variables;
#[tactic(auto, using(crate::proofs::Nested::nested))]
mod waiting;
#[tactic(auto, using(crate::proofs::Views::shapes))]
mod walk;

pub use approximation::{Approx, Row, approximate};
pub use chains::ascriptions;
pub use fault::ApproxFault;
pub use query::approximate_query;
