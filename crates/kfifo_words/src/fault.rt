//! Why a shape is refused.
ghost use Rattle.std.specs.Prelude.{◌≡◌};

use thiserror::Error;

/// What is wrong with the sizes of a shape: the first of these faults that applies.
#[derive(Clone, Copy, PartialEq, Eq, Debug, Error)]
pub enum ShapeFault {
    /// 1: k is not 1 to 64.
    #[error("k, the slots of a segment, is not 1 to 64")]
    KOutOfRange,
    /// 2: n is not 2 to 1,024.
    #[error("n, the number of segments, is not 2 to 1,024")]
    SegmentsOutOfRange,
    /// 3: `last` is not 2 to 2^40 - 1.
    #[error("the greatest version is not 2 to 1,099,511,627,775")]
    LastOutOfRange,
    /// 4: `probes` is not 1 to k.
    #[error("the number of probes is not 1 to k")]
    ProbesOutOfRange,
}

impl ShapeFault {
    ghost use Rattle.kfifo_words.specs.Sizes.{shape_fault_number};

    /// The fault's number, from 1 to 4.
    pub fn number(self) -> u32
        ensures { result ≡ shape_fault_number self }
    {
        match self {
            ShapeFault::KOutOfRange => 1,
            ShapeFault::SegmentsOutOfRange => 2,
            ShapeFault::LastOutOfRange => 3,
            ShapeFault::ProbesOutOfRange => 4,
        }
    }
}
