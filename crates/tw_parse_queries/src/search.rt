//! Declarations that search, as they are written.
use tw_fixity::Name;
use tw_lexer::Place;
use tw_parse::{ExtQuery, ExtTerm};

/// A bound of a query.
#[derive(Clone, Copy, Debug, PartialEq, Eq)]
pub enum ExtBound {
    Number(u64),
    /// `*`: any number.
    Star,
}

/// A declaration that searches, as it is written.
#[derive(Debug, Drop)]
pub enum ExtSearch {
    /// `%query e t A.`: how many answers there have to be, how many are looked for, and what is asked.
    Query(ExtBound, ExtBound, ExtQuery),
    /// `%solve c : A.`: the name with its place, and the goal.
    Solve(Name, Place, ExtTerm),
}
