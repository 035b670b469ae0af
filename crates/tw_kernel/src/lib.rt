//! The kernel: decides the judgements of canonical LF over a signature.
//!
//! A definition is no head. Types are equal only where they are the same text.
#![tactic(auto, using(crate::proofs::Rules::kernel))]

mod calls;
mod fault;
mod heads;
mod kinds;
mod terms;
mod types;

pub use calls::{Verdict, check_context, check_kind, check_term, check_type};
