//! What the words say.
use thiserror::Error;

/// What the words behind the program's name say.
#[derive(Debug, Drop)]
pub struct Words {
    /// How many tries a search may make, where the words say so: from 1 to 1,000,000,000.
    pub steps: Option<u64>,
    /// The files to be loaded, in their order.
    pub files: Vec<String>,
}

/// Why words were refused.
#[derive(Clone, Copy, Debug, PartialEq, Eq, Drop, Error)]
pub enum WordsFault {
    /// The words aren't those of the command.
    #[error("the words are not those of the command")]
    Bad,
    /// Memory was wanting.
    #[error("memory is wanting")]
    NoMemory,
}
