//! Open terms: renaming, hereditary substitution, and the values of metavariables put in.
//!
//! Nothing is put in that does not stand in the result: a term is walked in an environment that says what stands for each variable. A variable that
//! stands for a closure is replaced by the closure's body, and a metavariable that is bound by its value's body, with the arguments as closures in the
//! environment. Then the head of the result is known, and its arguments are made in turn. So the stack nests as deep as the result, and no deeper.
//!
//! A call answers `TooDeep` where its result is deeper than 4,096 (`instantiate` and `domains` where a type comes out deeper than 8,500), and `NoMemory` where memory is
//! wanting. No depth is told as want of memory.
#![tactic(auto)]

#[tactic(auto, using(crate::proofs::Openings::openings))]
mod closing;
#[tactic(auto, using(crate::proofs::Environments::environments))]
mod environment;
#[tactic(auto, using(crate::proofs::Environments::environments))]
mod head;
#[tactic(auto, using(crate::proofs::Environments::environments))]
mod hereditary;
mod laws;
#[tactic(auto, using(crate::proofs::Environments::environments, crate::proofs::Arguments::arguments))]
mod normal;
#[tactic(auto, using(crate::proofs::Openings::openings))]
mod opening;
#[tactic(auto, using(crate::proofs::Environments::environments))]
mod parts;
#[tactic(auto, using(crate::proofs::Environments::environments))]
mod plain;
#[tactic(auto, using(crate::proofs::Environments::environments))]
mod put;
#[tactic(auto, using(crate::proofs::Shifts::shifts))]
mod shifting;
#[tactic(auto, using(crate::proofs::Environments::environments))]
mod telescope;
#[tactic(auto, using(crate::proofs::Environments::environments))]
mod unfolding;

pub use closing::{closed_spine, closed_term, closed_type};
pub use hereditary::{apply, instantiate, substitute, substitute_type};
pub use laws::{
    all_in_stays, binding_keeps_skeletons, declaring_keeps_skeletons, deep_results_are_deep,
    open_typing_gives_skeletons, putting_has_one_result,
};
pub use opening::{open_skeleton, open_spine, open_term, open_type};
pub use plain::{is_all_in, is_spine_all_in, is_type_all_in};
pub use put::{put_in, put_in_spine, put_in_type};
pub use shifting::{shift, shift_spine, shift_type};
pub use telescope::domains;
pub use tw_hered::HeredFault;
pub use unfolding::{constant_head, unfold};
