//! Why tasks were not dispatched.
ghost use Rattle.std.specs.Prelude.{◌≡◌};
ghost use Rattle.kfifo_dispatch.specs.Faults.{dispatch_fault_number};

use std::alloc::AllocError;
use thiserror::Error;

/// Why tasks were not dispatched. Nothing is kept after a refusal.
#[derive(Clone, Copy, PartialEq, Eq, Debug, Error)]
pub enum DispatchFault {
    /// 1: there are over 1,024 tasks.
    #[error("there are over 1,024 tasks")]
    TooManyTasks,
    /// 2: two tasks have one number.
    #[error("two tasks have the same number")]
    RepeatedId,
    /// 3: an allocation failed.
    #[error("out of memory")]
    Memory,
    /// 4: the number of workers is not 1 to 63.
    #[error("the number of workers is not 1 to 63")]
    WorkersOutOfRange,
}

impl DispatchFault {
    /// The fault's number, 1 to 4.
    pub fn number(self) -> u32
        ensures { result ≡ dispatch_fault_number self }
    {
        match self {
            DispatchFault::TooManyTasks => 1,
            DispatchFault::RepeatedId => 2,
            DispatchFault::Memory => 3,
            DispatchFault::WorkersOutOfRange => 4,
        }
    }
}

impl From<AllocError> for DispatchFault {
    ghost use Rattle.kfifo_dispatch.specs.declared.fault.DispatchFault.TheVariants.{Memory};

    ghost from_gives = { λ _ fault. fault ≡ Memory };

    fn from(_: AllocError) -> DispatchFault {
        DispatchFault::Memory
    }
}
