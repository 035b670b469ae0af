//! The store of metavariables: their types and values, the equations that are postponed, and the way back to an earlier mark.
#![tactic(auto)]

mod change;
mod contents;
mod equation;
mod laws;
mod left;
mod store;

pub use equation::Equation;
pub use laws::mark_is_kept;
pub use left::LeftEquation;
pub use store::{Mark, Store};
