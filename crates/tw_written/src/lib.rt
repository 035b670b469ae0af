//! What is written, with its names resolved: the values that resolving makes and elaboration reads; and where the metavariables and the free variables of a
//! declaration stand in its text.
#![tactic(auto)]

#[tactic(auto, using(crate::proofs::Steps::steps))]
mod counts;
#[tactic(auto, using(crate::proofs::Steps::steps))]
mod dropping;
#[tactic(auto, using(crate::proofs::Steps::steps))]
mod first;
#[tactic(auto, using(crate::proofs::Steps::steps))]
mod occurrences;
#[tactic(auto, using(crate::proofs::Steps::steps))]
mod order;
#[tactic(auto, using(crate::proofs::Steps::steps))]
mod part;
#[tactic(auto, using(crate::proofs::Steps::steps))]
mod places;
#[tactic(auto, using(crate::proofs::Steps::steps))]
mod site;
#[tactic(auto, using(crate::proofs::Steps::steps))]
mod spots;
#[tactic(auto, using(crate::proofs::Steps::steps))]
mod written;

pub use places::{frees_in_text_order, sites};
pub use written::{Written, WrittenBody, WrittenDomain, WrittenKind, WrittenType};
