//! Why there is no state.
ghost use Rattle.std.specs.Prelude.{◌≡◌};
ghost use Rattle.kfifo_machine.specs.Faults.{start_fault_number, run_fault_number};

use std::alloc::AllocError;
use thiserror::Error;

/// Why a machine was not started.
#[derive(Clone, Copy, PartialEq, Eq, Debug, Error)]
pub enum StartFault {
    /// 1: the number of threads is not 1 to 64.
    #[error("the number of threads is not 1 to 64")]
    ThreadsOutOfRange,
    /// 2: an allocation failed.
    #[error("out of memory")]
    Memory,
}

impl StartFault {
    /// The fault's number, 1 or 2.
    pub fn number(self) -> u32
        ensures { result ≡ start_fault_number self }
    {
        match self {
            StartFault::ThreadsOutOfRange => 1,
            StartFault::Memory => 2,
        }
    }
}

impl From<AllocError> for StartFault {
    ghost use Rattle.kfifo_machine.specs.declared.fault.StartFault.TheVariants.{Memory};

    ghost from_gives = { λ _ fault. fault ≡ Memory };

    fn from(_: AllocError) -> StartFault {
        StartFault::Memory
    }
}

/// Why events give no state.
#[derive(Clone, Copy, PartialEq, Eq, Debug, Error)]
pub enum RunFault {
    /// 1: the number of threads is not 1 to 64.
    #[error("the number of threads is not 1 to 64")]
    ThreadsOutOfRange,
    /// 2: an allocation failed.
    #[error("out of memory")]
    Memory,
    /// 3: the event at this place is the first that is not enabled.
    #[error("event {0} is not enabled where it stands in the schedule")]
    NotASchedule(usize),
}

impl RunFault {
    /// The fault's number, from 1 to 3.
    pub fn number(self) -> u32
        ensures { result ≡ run_fault_number self }
    {
        match self {
            RunFault::ThreadsOutOfRange => 1,
            RunFault::Memory => 2,
            RunFault::NotASchedule(_) => 3,
        }
    }
}

impl From<StartFault> for RunFault {
    ghost use Rattle.kfifo_machine.specs.Faults.{run_fault_of};

    ghost from_gives = { λ start run. run ≡ run_fault_of start };

    fn from(fault: StartFault) -> RunFault {
        match fault {
            StartFault::ThreadsOutOfRange => RunFault::ThreadsOutOfRange,
            StartFault::Memory => RunFault::Memory,
        }
    }
}

impl From<AllocError> for RunFault {
    ghost use Rattle.kfifo_machine.specs.declared.fault.RunFault.TheVariants.{Memory};

    ghost from_gives = { λ _ fault. fault ≡ Memory };

    fn from(_: AllocError) -> RunFault {
        RunFault::Memory
    }
}
