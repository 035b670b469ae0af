//! The words behind the program's name.
#![tactic(auto)]

mod read;
mod words;

pub use read::read_words;
pub use words::{Words, WordsFault};
