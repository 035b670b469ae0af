//! The loop of answers: the search of a query, gone through round by round, with the text of each round.
//!
//! `asking` is the search as a value, and goes through its rounds; `lines` has the lines that a round shows, and `pause` what comes behind them.
#![tactic(auto)]

mod asking;
mod lines;
mod pause;

pub use asking::Asking;
pub use pause::{Pause, Round};
