//! Tokens as the declarations of checks.
#![tactic(auto)]

mod binders;
#[tactic(auto, using(tw_parse::proofs::Views::views))]
mod binding;
mod block;
mod bound;
mod calls;
mod check;
mod heads;
mod laws;
mod marks;
mod modes;
#[tactic(auto, using(crate::proofs::OrderViews::orders))]
mod orders;
mod parse;
mod quantifiers;
#[tactic(auto, using(crate::proofs::OrderViews::orders))]
mod rules;

pub use check::{CheckForm, ExtCheck, ExtMark, ExtOrder, ExtPattern};
pub use laws::one_check;
pub use marks::is_check;
pub use parse::parse_check;
