//! Skeletons with variables, and their first-order unification.
//!
//! Contracts see a shape as plain syntax, and a store by its bindings: `Solves θ s` says that the assignment θ makes each binding of the store s hold.
#![tactic(auto)]

#[tactic(auto, using(crate::proofs::Views::shapes))]
mod bindings;
#[tactic(auto, using(crate::proofs::Closing::building))]
mod building;
#[tactic(auto, using(crate::proofs::Views::shapes))]
mod equations;
mod laws;
#[tactic(auto, using(crate::proofs::Closing::building))]
mod shape;
#[tactic(auto, using(crate::proofs::Views::shapes))]
mod store;

pub use laws::{skeleton_stays, stays_within, unifying_narrows};
pub use shape::{Parts, Shape, ShapeId};
pub use store::Shapes;
