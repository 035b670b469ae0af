//! Termination orders: whether each call of a group is smaller than the head of its clause.
#![tactic(auto)]

#[tactic(auto, using(tw_terms::proofs::Args::types))]
mod atoms;
mod calls;
mod check;
mod fault;
#[tactic(auto, using(tw_terms::proofs::Args::types))]
mod goals;
mod leading;
mod listed;
#[tactic(auto, using(tw_clause::proofs::OrderViews::orders))]
mod orders;
#[tactic(auto, using(tw_terms::proofs::Args::types))]
mod places;
#[tactic(auto, using(crate::proofs::Renamed::put_views))]
mod put;
mod rows;
mod scope;
#[tactic(auto, using(tw_terms::proofs::Args::types))]
mod smaller;
#[tactic(auto, using(tw_terms::proofs::Args::types))]
mod taking;

pub use check::check_order;
pub use fault::OrderFault;
