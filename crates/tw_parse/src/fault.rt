//! Why tokens are no declaration.
ghost use Rattle.std.specs.Prelude.{◌≡◌};
ghost use Rattle.tw_parse.specs.declared.fault.SyntaxFault.TheVariants.{NoMemory};

use std::alloc::AllocError;
use thiserror::Error;
use tw_fixity::Name;
use tw_lexer::Place;

/// Why tokens are no declaration, and where. Of several causes the first in this order is told.
#[derive(Debug, Drop, Error)]
pub enum SyntaxFault {
    /// A keyword stands first whose declarations are not read; in place of a query, one that is not of the language.
    #[error("a keyword at line {} and column {} is not supported", .1.line, .1.column)]
    Unsupported(Name, Place),
    /// This bracket is nested too deep.
    #[error("nested too deep at line {} and column {}", .0.line, .0.column)]
    Nesting(Place),
    /// No declaration begins with the tokens through this one.
    #[error("no declaration has this token at line {} and column {}", .0.line, .0.column)]
    Syntax(Place),
    /// The sequence that begins here has no reading, or more than one.
    #[error("the sequence at line {} and column {} has not one reading", .0.line, .0.column)]
    Fixity(Place),
    /// The arguments of a keyword break its rules.
    #[error("the declaration at line {} and column {} breaks a rule of its keyword", .0.line, .0.column)]
    BadDecl(Place),
    /// Memory is wanting.
    #[error("memory is wanting")]
    NoMemory,
}

impl From<AllocError> for SyntaxFault {
    ghost from_gives = { λ _ e. e ≡ NoMemory };

    fn from(_: AllocError) -> Self {
        SyntaxFault::NoMemory
    }
}
