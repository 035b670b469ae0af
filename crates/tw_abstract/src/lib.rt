//! Abstraction over free metavariables: what stays free in a store that unification has solved becomes implicit quantifiers, and terms and types closed ones.
//!
//! The values of the bound metavariables are put in before (`tw_putting`), so that one walk over the term is left (`generalizing`).
//! The quantifiers come in order of first occurrence at the sites of a declaration, each inside of those that its type mentions. Their context is that of
//! the theory in another order, and what is read off is its filling, renamed (`reading_laws`).
#![tactic(auto)]

mod finding;
#[tactic(auto, using(crate::proofs::Walks::walks))]
mod generalizing;
mod generalizing_laws;
#[tactic(auto, using(crate::proofs::Walks::walks))]
mod listing;
#[tactic(auto, using(tw_terms::proofs::OpenArgs::open_types))]
mod naming;
#[tactic(auto, using(crate::proofs::Walks::walks))]
mod occurrences;
mod order;
mod positions;
mod quantifiers;
mod reading;
mod reading_laws;
mod typing;

pub use generalizing::{generalized_spine, generalized_term, generalized_type};
pub use generalizing_laws::{
    another_order_renames, context_is_generalized, each_follows_its_needs, generalizing_is_filling,
    stuck_has_no_order,
};
pub use naming::sole_metavariable;
pub use occurrences::{note_spine, note_term, note_type};
pub use order::{Candidate, quantifier_order};
pub use positions::Positions;
pub use quantifiers::{Quantifiers, read_quantifiers};
pub use reading::{read_term, read_type};
pub use reading_laws::{quantifiers_are_reordered, reading_is_filling};
