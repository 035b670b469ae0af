//! Why a judgement is not shown.
ghost use Rattle.std.specs.Prelude.{◌≡◌};
ghost use Rattle.tw_kernel.specs.declared.fault.Fault.TheVariants.{NoMemory};
ghost use Rattle.tw_kernel.specs.Outcome.{fault_of};

use std::alloc::AllocError;
use tw_hered::HeredFault;

/// Why a judgement is not shown.
#[derive(Clone, Copy, Debug)]
pub enum Fault {
    /// It does not hold.
    IllTyped,
    /// A term above the limit of depth was reached.
    TooDeep,
    /// Memory is wanting.
    NoMemory,
}

impl From<AllocError> for Fault {
    ghost from_gives = { λ _ fault. fault ≡ NoMemory };

    fn from(_error: AllocError) -> Fault {
        Fault::NoMemory
    }
}

impl From<HeredFault> for Fault {
    ghost from_gives = { λ cause fault. fault ≡ fault_of cause };

    fn from(cause: HeredFault) -> Fault {
        match cause {
            HeredFault::TooDeep => Fault::TooDeep,
            HeredFault::NoMemory => Fault::NoMemory,
        }
    }
}
