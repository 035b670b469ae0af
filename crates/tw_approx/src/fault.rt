//! Why a declaration has no skeletons.
ghost use Rattle.std.specs.Prelude.{◌≡◌};
ghost use Rattle.tw_approx.specs.declared.fault.ApproxFault.TheVariants.{NoMemory};

use std::alloc::AllocError;
use thiserror::Error;
use tw_fixity::Name;
use tw_lexer::Place;

/// Why a declaration has no skeletons, or more than one choice of them. Of several causes the first in this order is told.
#[derive(Debug, Drop, Error)]
pub enum ApproxFault {
    /// The first lowercase name, with its place, that is neither bound where it stands nor declared.
    #[error("a name at line {} and column {} is neither bound nor declared", .1.line, .1.column)]
    Unknown(Name, Place),
    /// A definition stands at the level of types (without a place), or else a lambda does: the first, with the place of its bracket.
    #[error("a definition or a lambda stands at the level of types")]
    TypeLevel(Option<Place>),
    /// No choice of skeletons for what isn't written fits what is.
    #[error("the declaration has no skeletons")]
    Clash,
    /// More than one choice fits.
    #[error("the skeletons of the declaration are left open")]
    Loose,
    /// The text nests deeper than 4,096, which is told right behind an unknown name; or a skeleton of what isn't written is deeper than that, and so are the types that have it.
    #[error("the text nests too deep, or a skeleton of what isn't written does")]
    TooDeep,
    /// Memory is wanting, the machine's stack included.
    #[error("memory is wanting")]
    NoMemory,
}

impl From<AllocError> for ApproxFault {
    ghost from_gives = { λ _ e. e ≡ NoMemory };

    fn from(_: AllocError) -> Self {
        ApproxFault::NoMemory
    }
}
