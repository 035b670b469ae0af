//! Why a declaration isn't reconstructed.
ghost use Rattle.std.specs.Prelude.{◌≡◌};
ghost use Rattle.tw_recon.specs.declared.fault.ReconFault.TheVariants.{NoMemory};

use std::alloc::AllocError;
use thiserror::Error;
use tw_fixity::Name;
use tw_lexer::Place;
use tw_metas::LeftEquation;

/// Why a declaration isn't reconstructed.
#[derive(Debug, Drop, Error)]
pub enum ReconFault {
    /// The first lowercase name, with its place, that is neither bound where it stands nor declared.
    #[error("a name at line {} and column {} is neither bound nor declared", .1.line, .1.column)]
    Unknown(Name, Place),
    /// A definition stands at the level of types (without a place), or else a lambda does: the first, with the place of its bracket.
    #[error("a definition or a lambda stands at the level of types")]
    TypeLevel(Option<Place>),
    /// The skeletons of what isn't written are left open.
    #[error("the skeletons of the declaration are left open")]
    Loose,
    /// No completion is typed.
    #[error("no completion of the declaration is typed")]
    Mismatch,
    /// This equation between indices is left: under most general bindings it is outside the pattern fragment.
    #[error("an equation of the declaration is left")]
    Leftover(LeftEquation),
    /// A skeleton of what isn't written, or a term of the declaration's typing, is deeper than 4,096.
    #[error("a term of the declaration is too deep")]
    TooDeep,
    /// Memory is wanting, the machine's stack included.
    #[error("memory is wanting")]
    NoMemory,
}

impl From<AllocError> for ReconFault {
    ghost from_gives = { λ _ e. e ≡ NoMemory };

    fn from(_: AllocError) -> Self {
        ReconFault::NoMemory
    }
}
