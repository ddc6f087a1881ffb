//! The shape of a ring.
ghost use Rattle.std.specs.Prelude.{◌≡◌, ℕ, ◌+◌, ◌*◌, ◌^◌, ◌<◌, ◌≤◌, Some, None, true, false, MatchResult};
ghost use Rattle.kfifo_words.specs.declared.shape.TheConstants.{MAX_K, MAX_SEGMENTS};

use crate::{MAX_VERSION, ShapeFault};

/// The most slots of a segment.
pub const MAX_K: u32 = 64;

/// The most segments of a ring.
pub const MAX_SEGMENTS: u32 = 1_024;

/// The sizes of a ring: n segments of k slots, the greatest version, how many slots an enqueue looks at, and what it
/// does where it could not hold the head.
///
/// `Shape::new` and `Shape::with_probes` make shapes. A ring holds at most n * k items, and the table of a queue of
/// this shape has n * k + 2 words of 64 bits.
#[derive(Clone, Copy, PartialEq, Eq, Debug)]
pub struct Shape {
    /// Slots in a segment, 1 to 64.
    pub k: u32,
    /// Segments in the ring, 2 to 1,024.
    pub n: u32,
    /// The greatest version, 2 to 2^40 - 1.
    pub last: u64,
    /// Slots of a segment that an enqueue probes from its start, 1 to k.
    pub probes: u32,
    /// Whether an enqueue that could not hold the head tries again before it takes its item out.
    pub holds_again: bool,
    pub ghost some_slot: { 1 ≤ k },
    pub ghost few_slots: { k ≤ MAX_K },
    pub ghost some_segments: { 2 ≤ n },
    pub ghost few_segments: { n ≤ MAX_SEGMENTS },
    pub ghost some_versions: { 2 ≤ last },
    pub ghost few_versions: { last < 2 ^ 40 },
    pub ghost some_probe: { 1 ≤ probes },
    pub ghost few_probes: { probes ≤ k },
}

impl Shape {
    ghost use Rattle.kfifo_words.specs.Ring.{next_segment, distance, slot_at, clock_at};
    ghost use Rattle.kfifo_words.specs.Sizes.{fault_of};

    /// Returns the shape of n segments of k slots whose enqueues probe all k slots.
    ///
    /// ```rust
    /// let shape = Shape::new(4, 256, MAX_VERSION)?; // k, segments, greatest version
    /// ```
    ///
    /// A dequeue may return any of the k oldest items, so k = 1 is a plain queue. For many threads begin with as many
    /// slots as threads call at once: a greater k gives up more order and makes an Empty dearer. Take at least 4
    /// segments, and twice as many slots in all as items are ever in the queue. A greatest version below `MAX_VERSION`
    /// only makes a queue return Worn sooner.
    ///
    /// Refuses the first size that is out of range: KOutOfRange where k is not 1 to 64, SegmentsOutOfRange where n is
    /// not 2 to 1,024, LastOutOfRange where `last` is not 2 to 2^40 - 1.
    pub fn new(k: u32, n: u32, last: u64) -> Result<Shape, ShapeFault>
        ensures { MatchResult result (λ s. (s.k ≡ k) × (s.n ≡ n) × (s.last ≡ last) × (s.probes ≡ k)
            × (s.holds_again ≡ false)) (λ f. fault_of k n last k ≡ Some f) }
    {
        Shape::with_probes(k, n, last, k)
    }

    /// Returns the shape of n segments of k slots whose enqueues probe the first `probes` slots from their start.
    ///
    /// ```rust
    /// let shape = Shape::with_probes(k, n, MAX_VERSION, probes)?;
    /// ```
    ///
    /// With fewer probes than k an enqueue sooner goes on to the next segment, and may return Full while slots of the
    /// tail's segment are empty.
    ///
    /// Refuses as `new` does, and then ProbesOutOfRange where `probes` is not 1 to k.
    pub fn with_probes(k: u32, n: u32, last: u64, probes: u32) -> Result<Shape, ShapeFault>
        ensures { MatchResult result (λ s. (s.k ≡ k) × (s.n ≡ n) × (s.last ≡ last) × (s.probes ≡ probes)
            × (s.holds_again ≡ false)) (λ f. fault_of k n last probes ≡ Some f) }
    {
        if k < 1 || k > MAX_K {
            return Err(ShapeFault::KOutOfRange);
        }
        if n < 2 || n > MAX_SEGMENTS {
            return Err(ShapeFault::SegmentsOutOfRange);
        }
        if last < 2 || last > MAX_VERSION {
            return Err(ShapeFault::LastOutOfRange);
        }
        if probes < 1 || probes > k {
            return Err(ShapeFault::ProbesOutOfRange);
        }
        Ok(Shape {
            k,
            n,
            last,
            probes,
            holds_again: false,
        })
    }

    /// Returns this shape with enqueues that try again to hold the head.
    ///
    /// An enqueue that puts its item into the head's segment raises the version of the ends, so that no dequeue moves
    /// the head past the item. Another thread may change the ends first. Then the enqueue of a plain shape takes its
    /// item out and begins anew. That of this shape looks at its slot and at the ends again, and takes the item out
    /// only where its segment no longer lies between head and tail, or where it has no round left. Each try costs a
    /// round.
    ///
    /// ```rust
    /// let shape = Shape::new(4, 256, MAX_VERSION)?.holding_again();
    /// ```
    pub fn holding_again(self) -> Shape
        ensures { (result.k ≡ self.k) × (result.n ≡ self.n) × (result.last ≡ self.last)
            × (result.probes ≡ self.probes) × (result.holds_again ≡ true) }
    {
        Shape {
            k: self.k,
            n: self.n,
            last: self.last,
            probes: self.probes,
            holds_again: true,
        }
    }

    /// Slots in a segment.
    pub fn k(&self) -> u32
        ensures { result ≡ self.now.k }
    {
        self.k
    }

    /// Segments in the ring.
    pub fn n(&self) -> u32
        ensures { result ≡ self.now.n }
    {
        self.n
    }

    /// The greatest version.
    pub fn last(&self) -> u64
        ensures { result ≡ self.now.last }
    {
        self.last
    }

    /// Slots of a segment that an enqueue probes.
    pub fn probes(&self) -> u32
        ensures { result ≡ self.now.probes }
    {
        self.probes
    }

    /// Whether an enqueue that could not hold the head tries again before it takes its item out.
    pub fn holds_again(&self) -> bool
        ensures { result ≡ self.now.holds_again }
    {
        self.holds_again
    }

    /// The next segment round the ring.
    #[tactic(auto, unfolding(crate::specs::Ring::next_segment))]
    pub fn next(&self, segment: u32) -> u32
        requires { segment < self.now.n }
        ensures value { result ≡ next_segment self.now.n segment }
        ensures below { result < self.now.n }
    {
        if segment + 1 == self.n {
            0
        } else {
            segment + 1
        }
    }

    /// How many steps forward round the ring lead from one segment to another, 0 to n - 1.
    #[tactic(auto, unfolding(crate::specs::Ring::distance))]
    pub fn dist(&self, from: u32, to: u32) -> u32
        requires from_in { from < self.now.n }
        requires to_in { to < self.now.n }
        ensures value { result ≡ distance self.now.n from to }
        ensures below { result < self.now.n }
    {
        if from <= to {
            to - from
        } else {
            to + self.n - from
        }
    }

    /// The index of a slot's word in the table.
    ///
    /// Distinct slots have distinct indexes, and no slot has the ends word's or the clock's.
    pub fn slot_index(&self, segment: u32, slot: u32) -> usize
        requires segment_in { segment < self.now.n }
        requires slot_in { slot < self.now.k }
        ensures value { result ≡ slot_at self.now.k segment slot }
        ensures not_ends { 0 < result }
        ensures below_clock { result < clock_at self.now.k self.now.n }
        ensures distinct { (s i : ℕ) → s < self.now.n → i < self.now.k → slot_at self.now.k s i ≡ result → (s ≡ segment)
            × (i ≡ slot) }
    {
        1 + segment as usize * self.k as usize + slot as usize
    }

    /// The index of the clock in the table, the last one.
    pub fn clock_index(&self) -> usize
        ensures { result ≡ clock_at self.now.k self.now.n }
    {
        1 + self.n as usize * self.k as usize
    }
}
