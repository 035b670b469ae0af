//! The text of an equation that is left.
//!
//! Its metavariables become variables of a context (`laid`), which get their names beforehand (`naming`), and the sides are printed as terms of this context.
//! Printing needs that skeletons type what is shown. In a store that is ready they do; here this is tested (`fits`), and where they don't, memory counts as used up.
#![tactic(auto)]

mod equation;
#[tactic(auto, using(tw_terms::proofs::Args::types_and_skeletons))]
mod fits;
mod laid;
mod locals;
#[tactic(auto, using(tw_terms::proofs::OpenArgs::open_types))]
mod naming;

pub use equation::show_equation;
