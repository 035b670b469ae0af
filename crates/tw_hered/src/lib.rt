//! Hereditary substitution: what is put in for a variable is applied to the variable's arguments at once, so that the result is canonical again.
//!
//! Nothing is put in that does not stand in the result: a term is walked in an environment that says what stands for each variable, and a variable
//! that stands for a closure is replaced by the closure's body, with its arguments as closures in the environment. Then the head of the result is known,
//! and its arguments are made in turn. What stands around them waits on the heap, so the machine's stack doesn't nest, however deep a term comes out.
//!
//! A call answers `TooDeep` where its result is deeper than 4,096, `instantiate` where it is deeper than its caller says, and `NoMemory` where memory is wanting.
#![tactic(auto)]

#[tactic(auto, using(crate::proofs::Environments::environments))]
mod environment;
#[tactic(auto, using(crate::proofs::Expanded::expanded))]
mod expand;
mod fault;
#[tactic(auto, using(crate::proofs::Environments::environments))]
mod head;
#[tactic(auto, using(crate::proofs::Environments::environments))]
mod hereditary;
#[tactic(auto, using(crate::proofs::Environments::environments, crate::proofs::Arguments::arguments))]
mod normal;
#[tactic(auto, using(crate::proofs::Environments::environments, crate::proofs::Arguments::arguments))]
mod waiting;

pub use expand::eta;
pub use fault::HeredFault;
pub use hereditary::{apply_spine, instantiate, substitute, substitute_ty};
