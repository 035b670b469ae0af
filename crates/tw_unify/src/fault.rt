//! Why a call has no answer.
ghost use Rattle.std.specs.Prelude.{◌≡◌};
ghost use Rattle.tw_unify.specs.Faults.{fault_of};
ghost use Rattle.tw_unify.specs.declared.fault.UnifyFault.TheVariants.{NoMemory};

use std::alloc::{AllocError, AllocFailed};
use thiserror::Error;
use tw_putting::HeredFault;

/// Why unification has no answer.
#[derive(Clone, Copy, PartialEq, Eq, Debug, Error)]
pub enum UnifyFault {
    /// The equations are deep: a step of unification reaches a term or type deeper than 4,096.
    #[error("a term is deeper than 4,096")]
    TooDeep,
    /// Memory is wanting, the machine's stack included.
    #[error("out of memory")]
    NoMemory,
}

impl From<AllocError> for UnifyFault {
    ghost from_gives = { λ _ e. e ≡ NoMemory };

    fn from(_error: AllocError) -> UnifyFault {
        UnifyFault::NoMemory
    }
}

impl<T: Drop> From<AllocFailed<T>> for UnifyFault {
    ghost use Rattle.tw_unify.specs.declared.fault.UnifyFault.TheVariants.{NoMemory};

    ghost from_gives = { λ _ e. e ≡ NoMemory };

    fn from(_: AllocFailed<T>) -> UnifyFault {
        UnifyFault::NoMemory
    }
}

impl From<HeredFault> for UnifyFault {
    ghost from_gives = { λ fault e. e ≡ fault_of fault };

    fn from(fault: HeredFault) -> UnifyFault {
        match fault {
            HeredFault::TooDeep => UnifyFault::TooDeep,
            HeredFault::NoMemory => UnifyFault::NoMemory,
        }
    }
}
