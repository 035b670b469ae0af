//! What is concluded of a group whose checks have passed: its record.
#![tactic(auto)]

mod concluding;
mod frozen;
mod laws;
mod record;
mod seen;

pub use concluding::conclude;
pub use laws::answers_pass;
pub use record::{TotalRecord, Totals};
