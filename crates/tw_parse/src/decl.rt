//! External declarations.
use crate::term::ExtTerm;
use tw_fixity::{Fix, Name};
use tw_lexer::Place;

/// A name that is looked up, with its place.
#[derive(Debug, Drop)]
pub struct ExtName {
    pub name: Name,
    pub at: Place,
}

/// A declaration as it is written.
#[derive(Debug, Drop)]
pub enum ExtDecl {
    /// `c : U.`, with the place of `c`.
    Declare(Name, Place, ExtTerm),
    /// `d : U = M.` or `d = M.`, without a name for `_`. The truth value is true for an abbreviation.
    Define(Option<Name>, Option<ExtTerm>, ExtTerm, bool),
    /// `%name a X x.`: the family, the name for variables that stand for its terms, and the one for bound variables, if it is written.
    NamePref(ExtName, Name, Option<Name>),
    /// `%infix`, `%prefix` or `%postfix`: the row, and the names that get it.
    Fixity(Fix, Vec<ExtName>),
}
