//! Why a replay does not go on.
ghost use Rattle.std.specs.Prelude.{◌≡◌};
ghost use Rattle.kfifo_replay.specs.Faults.{replay_fault_number};

use std::alloc::AllocError;
use thiserror::Error;

/// Why a replay does not go on.
#[derive(Clone, Copy, PartialEq, Eq, Debug, Error)]
pub enum ReplayFault {
    /// 1: the pick at this place, from 0, is the first that names no script, or a thread whose script
    /// has ended.
    #[error("pick {0} names no script, or a thread whose script has ended")]
    BadPick(usize),
    /// 2: an allocation failed.
    #[error("out of memory")]
    Memory,
    /// 3: there is no script, or there are over 64; a script has over 64 calls, a tick or a seal, or a call out of
    /// range: its start has to be below k, its turns at least 1, its item 1 to 2^24 - 1. Or no script
    /// has the number of the thread that is to be stopped.
    #[error("the scripts are not 1 to 64 of up to 64 calls in range, or the stopped thread has none")]
    BadScript,
}

impl ReplayFault {
    /// The fault's number, from 1 to 3.
    pub fn number(self) -> u32
        ensures { result ≡ replay_fault_number self }
    {
        match self {
            ReplayFault::BadPick(_) => 1,
            ReplayFault::Memory => 2,
            ReplayFault::BadScript => 3,
        }
    }
}

impl From<AllocError> for ReplayFault {
    ghost use Rattle.kfifo_replay.specs.declared.fault.ReplayFault.TheVariants.{Memory};

    ghost from_gives = { λ _ fault. fault ≡ Memory };

    fn from(_: AllocError) -> ReplayFault {
        ReplayFault::Memory
    }
}
