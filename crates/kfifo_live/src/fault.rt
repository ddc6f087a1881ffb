//! Why a queue was not opened, or not closed.
ghost use Rattle.std.specs.Prelude.{◌≡◌};
ghost use Rattle.kfifo_live.specs.Faults.{open_fault_number, close_fault_number, gather_fault_number};

use std::alloc::AllocError;
use thiserror::Error;

/// Why a queue was not opened. Nothing is kept after a refusal.
#[derive(Clone, Copy, PartialEq, Eq, Debug, Error)]
pub enum OpenFault {
    /// 1: the number of threads is not 1 to 64.
    #[error("the number of threads is not 1 to 64")]
    ThreadsOutOfRange,
    /// 2: an allocation failed.
    #[error("out of memory")]
    Memory,
    /// 3: the number of tokens of a pass is not 1 to 1,024. Queues of payloads alone refuse it.
    #[error("the number of tokens of a pass is not 1 to 1,024")]
    TokensOutOfRange,
    /// 4: the number of stamped calls of a pass is not 1 to 1,024. Stamped queues alone refuse it.
    #[error("the number of calls of a pass is not 1 to 1,024")]
    CallsOutOfRange,
}

impl OpenFault {
    /// The fault's number, 1 to 4.
    pub fn number(self) -> u32
        ensures { result ≡ open_fault_number self }
    {
        match self {
            OpenFault::ThreadsOutOfRange => 1,
            OpenFault::Memory => 2,
            OpenFault::TokensOutOfRange => 3,
            OpenFault::CallsOutOfRange => 4,
        }
    }
}

impl From<AllocError> for OpenFault {
    ghost use Rattle.kfifo_live.specs.declared.fault.OpenFault.TheVariants.{Memory};

    ghost from_gives = { λ _ fault. fault ≡ Memory };

    fn from(_: AllocError) -> OpenFault {
        OpenFault::Memory
    }
}

/// Why a queue was lost at its end.
#[derive(Clone, Copy, PartialEq, Eq, Debug, Error)]
pub enum CloseFault {
    /// 1: an allocation failed.
    #[error("out of memory")]
    Memory,
    /// 2: not each pass of the opening is there once.
    #[error("not each pass of the queue's opening was given back once")]
    MissingPass,
}

impl CloseFault {
    /// The fault's number, 1 or 2.
    pub fn number(self) -> u32
        ensures { result ≡ close_fault_number self }
    {
        match self {
            CloseFault::Memory => 1,
            CloseFault::MissingPass => 2,
        }
    }
}

impl From<AllocError> for CloseFault {
    ghost use Rattle.kfifo_live.specs.declared.fault.CloseFault.TheVariants.{Memory};

    ghost from_gives = { λ _ fault. fault ≡ Memory };

    fn from(_: AllocError) -> CloseFault {
        CloseFault::Memory
    }
}

/// Why the logs of a stamped queue were lost at its end.
#[derive(Clone, Copy, PartialEq, Eq, Debug, Error)]
pub enum GatherFault {
    /// 1: not each pass of the opening is there once.
    #[error("not each pass of the queue's opening was given back once")]
    MissingPass,
    /// 2: an allocation failed.
    #[error("out of memory")]
    Memory,
}

impl GatherFault {
    /// The fault's number, 1 or 2.
    pub fn number(self) -> u32
        ensures { result ≡ gather_fault_number self }
    {
        match self {
            GatherFault::MissingPass => 1,
            GatherFault::Memory => 2,
        }
    }
}

impl From<AllocError> for GatherFault {
    ghost use Rattle.kfifo_live.specs.declared.fault.GatherFault.TheVariants.{Memory};

    ghost from_gives = { λ _ fault. fault ≡ Memory };

    fn from(_: AllocError) -> GatherFault {
        GatherFault::Memory
    }
}
