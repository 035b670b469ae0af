//! Inversion of patterns, and pruning, over open terms.
//!
//! A metavariable on a pattern, a spine of distinct variables of the local context up to eta, is solved by inverting the other side of its equation:
//! its value is a term of which the pattern makes that side. Where there is none, the answer says what is in the way: a variable that can never go,
//! an argument that another metavariable must lose, or a metavariable on arguments that are no pattern.
//!
//! Contracts speak of the definitions of `lf_unification`, for all declarations of metavariables and local contexts that fit the call.
//! Walks nest as deep as the terms that they are handed. A call fails only for want of memory; numbers that no term in memory reaches count as such.
#![tactic(auto)]

mod compare;
#[tactic(auto, using(crate::proofs::Walking::walks))]
mod drops;
#[tactic(auto, using(crate::proofs::Walking::expanding))]
mod expand;
#[tactic(auto, using(crate::proofs::Walking::walks))]
mod inverse;
#[tactic(auto, using(crate::proofs::Walking::walks))]
mod inversion;
mod laws;
#[tactic(auto, using(crate::proofs::Walking::walks))]
mod occurs;
#[tactic(auto, using(crate::proofs::Walking::walks))]
mod patterns;
#[tactic(auto, using(crate::proofs::Walking::expanding))]
mod prune;
#[tactic(auto, using(crate::proofs::Walking::walks))]
mod unrename;

pub use compare::differences;
pub use drops::{Loss, losses};
pub use expand::{arity, expand_variable, lambdas_over, push_newest};
pub use inversion::{Inverted, invert};
pub use laws::drops_variable_of_place;
pub use occurs::occurs_inside;
pub use patterns::{are_newest, pattern_of};
pub use prune::{Pruned, prune_type};
