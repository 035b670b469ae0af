//! Which variables the text of a term or a type shows, as they come from the left.
//!
//! A text shows less than the term has: implicit arguments are hidden. It also shows more: the type of a lambda's variable, which the term doesn't have.
//! Free variables and metavariables take names in the order in which they are first shown (`naming`).
#![tactic(auto)]

#[tactic(auto, using(tw_terms::proofs::Args::types))]
mod due;
mod laws;
#[tactic(auto, using(tw_terms::proofs::Args::types))]
mod naming;
#[tactic(auto, using(tw_terms::proofs::Args::types))]
mod showing;
mod shown;
#[tactic(auto, using(tw_terms::proofs::Args::types))]
mod walk;

pub use laws::texts_show_what_is_listed;
pub use naming::{name_shown, outside, shown_marks};
pub use shown::{shown_in_term, shown_in_type};
