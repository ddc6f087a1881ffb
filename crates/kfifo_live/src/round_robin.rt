//! Starts of scans that move on by themselves.
ghost use Rattle.std.specs.Prelude.{◌≡◌, ◌<◌, ◌≤◌};
ghost use Rattle.kfifo_live.specs.Handles.{Cycle, StartsDiffer, first_start, moved, stride};

use std::marker::Model;

/// The starts of a thread's scans: each is a stride further than the one before, round the k slots of a segment.
///
/// ```rust
/// let mut starts = RoundRobin::spread(1, 4, 8); // the second of four threads: 2, 5, 0, 3, 6, 1, 4, 7, 2, ..
/// let first = starts.next();
/// ```
///
/// Clauses see it as k, the stride and the start that comes next.
#[derive(Drop)]
pub struct RoundRobin {
    k: u32,
    stride: u32,
    start: u32,
}

impl Model for RoundRobin {
    ghost Value = { Cycle };

    ghost view = { λ r. record { k = r.k; stride = r.stride; start = r.start } };

    ghost invariant = { λ r. (r.start < r.k) × (r.stride < r.k) × (r.k ≤ 64) };
}

/// The stride of the threads of a queue, modulo k, which is 1 to 64.
// A thread that catches up with another follows it slot by slot, both on one cache line, as long as each starts one
// slot further: a scan goes on by one too. A longer stride lets it step aside. Two threads that only put and only take
// never meet on a side, and for them nothing beats the next slot, which is on the same line.
fn stride_of(threads: u32, k: u32) -> u32
    requires k { (1 ≤ k) × (k ≤ 64) }
    ensures stride { result ≡ stride threads k }
    ensures differ { StartsDiffer threads k }
{
    let slots = if threads < 3 {
        1
    } else if k % 3 != 0 {
        3
    } else if k % 5 != 0 {
        5
    } else {
        7
    };
    slots % k
}

impl RoundRobin {
    /// Begins at slot `first`. Each start is `stride` slots further than the one before. Both are below k, which is 1
    /// to 64.
    pub fn new(first: u32, stride: u32, k: u32) -> RoundRobin
        requires k { k ≤ 64 }
        requires first { first < k }
        requires stride { stride < k }
        ensures { result ≡ record { k = k; stride = stride; start = first } }
    {
        RoundRobin {
            k,
            stride,
            start: first,
        }
    }

    /// The starts of a thread of a queue. It begins at slot `thread * k / threads`, rounded down, so that the threads
    /// begin at slots that lie apart. Its stride is 1 where `threads` is at most 2, else the least of 3, 5 and 7 that
    /// does not divide k, modulo k. So any k starts in a row are k different slots.
    ///
    /// The thread is less than `threads`, and k is 1 to 64.
    pub fn spread(thread: u32, threads: u32, k: u32) -> RoundRobin
        requires thread { thread < threads }
        requires k { (1 ≤ k) × (k ≤ 64) }
        ensures spread { result ≡ record { k = k; stride = stride threads k; start = first_start thread threads k } }
        ensures differ { StartsDiffer threads k }
    {
        let first = u64::from(thread) * u64::from(k) / u64::from(threads);
        RoundRobin::new(first as u32, stride_of(threads, k), k)
    }

    /// How many slots a segment has.
    pub fn k(&self) -> u32
        ensures { result ≡ self.now.k }
    {
        self.k
    }

    /// How many slots further each start is than the one before, modulo k.
    pub fn stride(&self) -> u32
        ensures { result ≡ self.now.stride }
    {
        self.stride
    }

    /// The start that comes next.
    pub fn start(&self) -> u32
        ensures { result ≡ self.now.start }
    {
        self.start
    }

    /// Returns the start that comes next, and moves on by the stride, round the k slots.
    #[inline(always)]
    pub fn next(&mut self) -> u32
        ensures start { result ≡ self.old.start }
        ensures below { result < self.old.k }
        ensures moves { self.new ≡ moved self.old }
    {
        let start = self.start;
        let further = start + self.stride;
        // A subtraction that may fail: a division would cost more than all else that a handle adds to a call.
        self.start = further.checked_sub(self.k).unwrap_or(further);
        start
    }
}
