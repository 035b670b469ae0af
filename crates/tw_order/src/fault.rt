//! Why a group doesn't descend.
ghost use Rattle.std.specs.Prelude.{◌≡◌};
ghost use Rattle.tw_order.specs.declared.fault.OrderFault.TheVariants.{NoMemory};

use std::alloc::AllocError;
use tw_clause::ClauseName;

/// The first clause with a call that doesn't descend, with the number of its first such subgoal, in solving order from 1. Or want of memory.
#[derive(Debug, Drop)]
pub enum OrderFault {
    Fault { clause: ClauseName, subgoal: u64 },
    NoMemory,
}

impl From<AllocError> for OrderFault {
    ghost from_gives = { λ _ e. e ≡ NoMemory };

    fn from(_: AllocError) -> OrderFault {
        OrderFault::NoMemory
    }
}
