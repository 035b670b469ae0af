//! Blocks and worlds: whether local contexts are sequences of instances of blocks, whether callees know the blocks of their callers, and whether all clauses of a group pass.
#![tactic(auto)]

#[tactic(auto, using(tw_terms::proofs::Args::types))]
mod blocks;
mod check;
mod clause;
mod fault;
#[tactic(auto, using(tw_terms::proofs::Args::types))]
mod finding;
mod joined;
#[tactic(auto, using(tw_terms::proofs::Args::types))]
mod matching;
#[tactic(auto, using(tw_terms::proofs::Weakened::weakened))]
mod moving;
mod serving;
#[tactic(auto, using(tw_terms::proofs::Args::types))]
mod subgoal;
mod table;

pub use blocks::{is_instance, is_strict_block};
pub use check::check_worlds;
pub use fault::WorldFault;
pub use joined::joined_worlds;
pub use serving::is_served;
pub use subgoal::subgoal_is_worlded;
pub use table::is_sequence;
