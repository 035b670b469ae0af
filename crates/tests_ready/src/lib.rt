//! Problems of unification that are ready to be solved: signatures, stores and equations whose typing is decided. It serves tests and figures; no program stands on it.
//!
//! Each call answers yes only where typing holds, whatever the bindings. It may answer no of what is typed: types are compared as they stand, metavariables stand in the
//! empty context, and a family has one index at most.
#![tactic(auto)]

#[tactic(auto, using(tw_terms::proofs::Args::types))]
mod entries;
#[tactic(auto, using(tw_terms::proofs::OpenArgs::open_types))]
mod heads;
#[tactic(auto, using(tw_terms::proofs::OpenArgs::open_types))]
mod readiness;
#[tactic(auto, using(tw_terms::proofs::OpenArgs::open_types))]
mod terms;
#[tactic(auto, using(tw_terms::proofs::OpenArgs::open_types))]
mod types;

pub use entries::{add_constant, add_family};
pub use readiness::{are_ready, declared};
