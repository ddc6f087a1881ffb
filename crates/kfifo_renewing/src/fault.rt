//! Why a renewing queue was not opened.
use kfifo_live::{OpenFault, SizesFault};
use std::alloc::AllocError;
use thiserror::Error;

/// Why a renewing queue was not opened. Nothing is kept after a refusal.
#[derive(Clone, Copy, PartialEq, Eq, Debug, Error)]
pub enum RenewFault {
    /// Its first generation was not opened.
    #[error("{0}")]
    Open(OpenFault),
    /// The reserve is not below the greatest version.
    #[error("the reserve is not below the greatest version")]
    ReserveOutOfRange,
    /// The number of generations is not 1 to this number, the greatest for so many threads.
    #[error("the number of generations is not 1 to {0}")]
    GenerationsOutOfRange(u32),
}

impl From<AllocError> for RenewFault {
    fn from(_: AllocError) -> RenewFault {
        RenewFault::Open(OpenFault::Memory)
    }
}

impl From<OpenFault> for RenewFault {
    fn from(fault: OpenFault) -> RenewFault {
        RenewFault::Open(fault)
    }
}

/// Why a renewing queue was not opened by its capacity. Nothing is kept after a refusal.
#[derive(Clone, Copy, PartialEq, Eq, Debug, Error)]
pub enum CapacityFault {
    /// There is no such queue.
    #[error("{0}")]
    Sizes(SizesFault),
    /// An allocation failed.
    #[error("out of memory")]
    Memory,
}

impl From<AllocError> for CapacityFault {
    fn from(_: AllocError) -> CapacityFault {
        CapacityFault::Memory
    }
}

impl From<SizesFault> for CapacityFault {
    fn from(fault: SizesFault) -> CapacityFault {
        CapacityFault::Sizes(fault)
    }
}
