//! Names in what is written: what a name names where it stands, the first that names nothing, and the names of binders.
#![tactic(auto)]

mod scope;
#[tactic(auto, using(crate::proofs::Views::written))]
mod texts;
#[tactic(auto, using(crate::proofs::Unknowns::unknowns))]
mod unknown;
#[tactic(auto, using(crate::proofs::Unknowns::unknowns))]
mod waiting;

pub use scope::{binder_name, named};
pub use texts::{ends_in_type, first_mention, hints};
pub use tw_terms::numbers::nested;
pub use unknown::{Mention, is_no_later, is_uppercase};
