//! Clauses as data: a type, or an entry of a block, as its variables, head and subgoals; blocks, worlds and cases, over which clauses are looked at.
#![tactic(auto)]

mod block;
mod case;
mod clause;
mod collected;
#[tactic(auto, using(tw_terms::proofs::OpenArgs::open_spines))]
mod copies;
mod counts;
#[tactic(auto, using(tw_terms::proofs::Args::types))]
mod eta;
mod laws;
mod modes;
mod name;
#[tactic(auto, using(crate::proofs::OrderViews::orders))]
mod order;
mod pattern;
#[tactic(auto, using(tw_terms::proofs::Args::types))]
mod reading;
#[tactic(auto, using(crate::proofs::Renumbered::renumbered))]
mod renumbering;

pub use block::{Block, Origin, Worlds};
pub use case::{BlockVar, Case};
pub use clause::{Clause, Subgoal};
pub use eta::{is_eta_variable, variable_at_head};
pub use laws::{entries_are_listed, parts_are_of_type, subgoals_are_read};
pub use modes::{Modes, WorldRows};
pub use name::{ClauseName, Mark3};
pub use order::Order;
pub use pattern::{is_newest, is_pattern, pattern_variables};
pub use reading::{clause_of, clause_of_entry, clauses};
