//! Open terms, types and kinds that elaboration and search are built of: eta-long heads, new metavariables, kinds put into, and the equations of two atoms.
#![tactic(auto)]

#[tactic(auto, using(crate::proofs::Steps::steps))]
mod fresh;
#[tactic(auto, using(crate::proofs::Steps::steps))]
mod indices;
#[tactic(auto, using(crate::proofs::Steps::steps))]
mod kinds;
#[tactic(auto, using(crate::proofs::Steps::steps))]
mod plain;
#[tactic(auto, using(crate::proofs::Steps::steps))]
mod raising;

pub use fresh::{new_term, new_term_of};
pub use indices::{Wanted, index_equations};
pub use kinds::{OpenKind, instantiate_kind, kind_pi, open_kind, shift_kind};
pub use plain::{is_plain, is_plain_type, kind_equations};
pub use raising::{closed_over, expanded, lambda, local_arguments, pi, with_argument};
