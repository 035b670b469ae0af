//! Why a group isn't well-moded.
ghost use Rattle.std.specs.Prelude.{◌≡◌};
ghost use Rattle.tw_mode.specs.declared.fault.ModeFault.TheVariants.{NoMemory};

use std::alloc::AllocError;
use tw_clause::ClauseName;
use tw_terms::ConstId;

/// A clause that doesn't compute its outputs from its inputs, with the numbers of its first fault: the subgoal in solving order from 1, 0 being the head; the argument
/// from 1, implicit ones included, 0 being none of them. Or a family without a mode. Or want of memory.
#[derive(Debug, Drop)]
pub enum ModeFault {
    Fault {
        clause: ClauseName,
        subgoal: u64,
        argument: u64,
    },
    NoMode(ConstId),
    NoMemory,
}

impl From<AllocError> for ModeFault {
    ghost from_gives = { λ _ e. e ≡ NoMemory };

    fn from(_: AllocError) -> ModeFault {
        ModeFault::NoMemory
    }
}
