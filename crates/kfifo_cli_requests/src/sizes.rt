//! The shape of a queue, as a command is given it.
ghost use Rattle.std.specs.Prelude.{IfErr, IfOk};

use kfifo_words::{Shape, ShapeFault};

/// The sizes of a shape. Any numbers: `shape` says whether there is such a shape.
#[derive(Clone, Copy, PartialEq, Eq, Debug)]
pub struct Sizes {
    /// Slots in a segment.
    pub k: u32,
    /// Segments in the ring.
    pub segments: u32,
    /// The greatest version.
    pub last: u64,
    /// Slots of a segment that an enqueue looks at; all k where it is left out.
    pub probes: Option<u32>,
    /// Whether an enqueue that could not hold the head tries again before it takes its item out.
    pub hold_again: bool,
}

impl Sizes {
    ghost use Rattle.kfifo_cli_requests.specs.Sizes.{IsShapeFault, IsShapeOf};

    /// The shape of these sizes, or the first fault of them.
    pub fn shape(self) -> Result<Shape, ShapeFault>
        ensures ok { IfOk result (IsShapeOf self) }
        ensures err { IfErr result (IsShapeFault self) }
    {
        let probes = self.probes.unwrap_or(self.k);
        let shape = Shape::with_probes(self.k, self.segments, self.last, probes)?;
        Ok(if self.hold_again {
            shape.holding_again()
        } else {
            shape
        })
    }
}
