//! What parts of a sequence are read as.
use crate::term::ExtTerm;
use crate::words::Binder;
use tw_fixity::Name;
use tw_lexer::Place;

/// What a part of a sequence is read as.
#[derive(Debug, Drop)]
pub enum Part {
    Term(ExtTerm),
    /// A sequence in it has not one reading; the first such one begins here.
    AtFault(Place),
}

/// A binder without its body: its kind, its name, the place of its bracket, and its type, if it is written.
#[derive(Debug, Drop)]
pub struct Head {
    pub binder: Binder,
    pub name: Name,
    pub at: Place,
    pub domain: Option<Part>,
}
