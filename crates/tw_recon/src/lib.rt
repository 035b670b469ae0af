//! Reconstruction: what a declaration leaves out is completed in the most general way.
//!
//! The passes: the skeletons of what isn't written (`tw_approx`), names (`tw_resolve`), metavariables and equations (`tw_elaborate`), where these stand in the
//! text (`tw_written`), most general bindings (`tw_unify`), and what is read off (`tw_abstract`), which the kernel checks once more.
#![tactic(auto)]

#[tactic(auto, using(crate::proofs::Steps::steps))]
mod begun;
#[tactic(auto, using(crate::proofs::Steps::steps))]
mod bodies;
#[tactic(auto, using(crate::proofs::Closed::closings))]
mod closing;
mod completing;
mod entry;
mod fault;
#[tactic(auto, using(crate::proofs::FreeNames::frees))]
mod free;
#[tactic(auto, using(crate::proofs::Steps::steps))]
mod hints;
mod kernel;
mod laws;
mod leftover;
mod names;
mod query;
mod reconstruction;
mod solving;
#[tactic(auto, using(crate::proofs::FreeNames::frees))]
mod waiting;
#[tactic(auto, using(crate::proofs::Steps::steps))]
mod within;

pub use closing::{closed_body, closed_kind, closed_term, closed_type};
pub use fault::ReconFault;
pub use free::first_free_variable;
pub use laws::{completed_kind_is_as_written, family_is_as_written};
pub use query::{reconstruct_goal, reconstruct_query};
pub use reconstruction::reconstruct;
pub use tw_signature::Goal;
