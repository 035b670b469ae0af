//! The session, and one declaration: read, completed, kept and reported.
#![tactic(auto)]

mod applications;
mod below;
#[tactic(auto, using(tw_terms::proofs::Args::types))]
mod blocks;
mod declaration;
mod entering;
mod labels;
mod laws;
mod modes;
mod moding;
mod operators;
mod orders;
mod parameters;
mod preferences;
mod querying;
mod question;
mod reading;
mod refusal;
mod report;
mod searching;
mod session;
#[tactic(auto, using(tw_terms::proofs::Args::types_and_skeletons))]
mod solution;
mod solving;
mod terminating;
mod world_rows;
mod worlding;
mod worlds;

pub use below::subordination;
pub use declaration::{Next, declare, declare_one};
pub use laws::{
    accepting_from_keeps_sound, accepting_keeps_sound, definition_is_good, family_is_good,
    good_from_is_accepted, good_is_accepted,
};
pub use parameters::Parameters;
pub use question::{Question, read_query};
pub use refusal::{Refusal, show_refusal};
pub use report::Report;
pub use session::Session;
