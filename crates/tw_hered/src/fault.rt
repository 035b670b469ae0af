//! Why a term isn't made.
ghost use Rattle.tw_hered.specs.declared.fault.HeredFault.TheVariants.{NoMemory};
ghost use Rattle.std.specs.Prelude.{◌≡◌};

use std::alloc::AllocError;
use thiserror::Error;

/// Why a term isn't made, or a call that makes terms has no answer.
#[derive(Clone, Copy, PartialEq, Eq, Debug, Error)]
pub enum HeredFault {
    /// A term that is made, or one that is met in making it, is deeper than 4,096.
    #[error("a term is deeper than 4,096")]
    TooDeep,
    /// Memory is wanting, the machine's stack included.
    #[error("out of memory")]
    NoMemory,
}

impl From<AllocError> for HeredFault {
    ghost from_gives = { λ _ e. e ≡ NoMemory };

    fn from(_error: AllocError) -> HeredFault {
        HeredFault::NoMemory
    }
}
