//! The shape of the queues of items.
ghost use Rattle.std.specs.Prelude.{◌≡◌, Some, true, MatchResult};
ghost use Rattle.kfifo_words.specs.Sizes.{fault_of};

use kfifo_words::{Shape, ShapeFault};

/// The shape of these sizes, whose enqueues hold again, or their first fault.
pub(crate) fn shape_of(k: u32, segments: u32, last: u64, probes: u32) -> Result<Shape, ShapeFault>
    ensures { MatchResult result (λ s. (s.k ≡ k) × (s.n ≡ segments) × (s.last ≡ last) × (s.probes ≡ probes)
        × (s.holds_again ≡ true)) (λ f. fault_of k segments last probes ≡ Some f) }
{
    match Shape::with_probes(k, segments, last, probes) {
        Ok(shape) => Ok(shape.holding_again()),
        Err(fault) => Err(fault),
    }
}
