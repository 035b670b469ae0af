//! Why a group isn't well-worlded.
ghost use Rattle.std.specs.Prelude.{◌≡◌};
ghost use Rattle.tw_world.specs.Faults.{fault_of};
ghost use Rattle.tw_world.specs.declared.fault.WorldFault.TheVariants.{NoMemory};

use std::alloc::AllocError;
use tw_clause::ClauseName;
use tw_hered::HeredFault;

/// The first clause with a subgoal that doesn't pass, with the number of its first such subgoal, in solving order from 1. Or a subgoal that is left open, since the typing of a `some` term
/// goes deeper than 4,096, or a block with it put in is deeper than any number says. Or want of memory.
#[derive(Debug, Drop)]
pub enum WorldFault {
    Fault { clause: ClauseName, subgoal: u64 },
    TooDeep,
    NoMemory,
}

impl From<AllocError> for WorldFault {
    ghost from_gives = { λ _ e. e ≡ NoMemory };

    fn from(_: AllocError) -> WorldFault {
        WorldFault::NoMemory
    }
}

impl From<HeredFault> for WorldFault {
    ghost from_gives = { λ cause e. e ≡ fault_of cause };

    fn from(cause: HeredFault) -> WorldFault {
        match cause {
            HeredFault::TooDeep => WorldFault::TooDeep,
            HeredFault::NoMemory => WorldFault::NoMemory,
        }
    }
}
