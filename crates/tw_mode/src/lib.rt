//! The check of modes: what is strict, what is ground, and whether clauses compute their outputs from their inputs.
#![tactic(auto)]

#[tactic(auto, using(tw_terms::proofs::Args::types))]
mod before;
#[tactic(auto, using(tw_terms::proofs::Args::types))]
mod called;
mod check;
#[tactic(auto, using(tw_terms::proofs::Args::types))]
mod clause;
mod end;
mod fault;
mod full;
#[tactic(auto, using(tw_terms::proofs::Args::types))]
mod head;
#[tactic(auto, using(tw_terms::proofs::Args::types))]
mod inputs;
mod listed;
mod marks;
#[tactic(auto, using(tw_terms::proofs::Args::types))]
mod mentions;
mod mode_table;
mod outside;
mod places;
mod rows;
mod scope;
#[tactic(auto, using(tw_terms::proofs::Args::types))]
mod short;
#[tactic(auto, using(tw_terms::proofs::Args::types))]
mod sound;
mod strict;
mod table;
#[tactic(auto, using(tw_terms::proofs::Args::types))]
mod uses;

pub use before::{clauses_are_read, ground_before};
pub use check::{check_mode, check_modes};
pub use fault::ModeFault;
pub use full::full_marks;
pub use mode_table::ModeTable;
pub use places::{mark_strict_at, mark_strict_goal};
pub use scope::Scope;
pub use short::short_marks;
pub use strict::mark_strict;
