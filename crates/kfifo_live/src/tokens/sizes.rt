//! The sizes of a queue of tokens that is opened by how many items it is to hold.
ghost use Rattle.std.specs.Prelude.{◌≡◌, ◌<◌, ◌≤◌, ◌*◌, ◌^◌, IfOk, MatchResult, None, Some, false};
ghost use Rattle.kfifo_words.specs.declared.shape.TheConstants.{MAX_K};
ghost use Rattle.kfifo_live.specs.Capacities.{HasRoom, greatest_capacity, segments_for, sizes_fault, tokens_for};

use kfifo_machine::MAX_THREADS;
use kfifo_words::{MAX_K, MAX_SEGMENTS, MAX_VERSION, Shape};
use thiserror::Error;

/// How many tokens more than its part of the capacity each thread opens a queue with. A thread may keep so many for
/// itself, and the others still find as many as the queue is to hold.
pub const SPARE_TOKENS: u32 = 32;

/// What a queue of tokens is opened with.
#[derive(Clone, Copy, PartialEq, Eq, Debug)]
pub struct Sizes {
    /// The sizes of the ring.
    pub shape: Shape,
    /// For how many threads it is.
    pub threads: u32,
    /// How many tokens each of them opens it with.
    pub tokens: u32,
}

/// Why there are no such sizes.
#[derive(Clone, Copy, PartialEq, Eq, Debug, Error)]
pub enum SizesFault {
    /// The number of threads is not 1 to 64.
    #[error("the number of threads is not 1 to 64")]
    ThreadsOutOfRange,
    /// k is not 1 to 64.
    #[error("k is not 1 to 64")]
    KOutOfRange,
    /// The greatest version is not 2 to 2^40 - 1.
    #[error("the greatest version is not 2 to 2^40 - 1")]
    LastOutOfRange,
    /// The capacity is not 1 to this number, the greatest with this k for so many threads. No capacity fits where it
    /// is 0.
    #[error("the capacity is not 1 to {0}")]
    CapacityOutOfRange(u32),
}

/// The greatest capacity of a queue with this k for so many threads.
fn greatest_for(k: u32, threads: u32) -> u32
    requires k { (1 ≤ k) × (k ≤ MAX_K) }
    requires threads { 1 ≤ threads }
    ensures { result ≡ greatest_capacity k threads }
{
    let tokens = (MAX_SEGMENTS - 2) * k / threads;
    threads * tokens.saturating_sub(SPARE_TOKENS)
}

/// How many segments of k slots a ring for so many tokens has.
fn segments_of(tokens: u32, k: u32) -> u32
    requires tokens { tokens < 2 ^ 20 }
    requires k { 1 ≤ k }
    ensures { result ≡ segments_for tokens k }
{
    let least = tokens.div_ceil(k) + 2;
    let twice = (2 * tokens).div_ceil(k);
    least.max(twice.min(MAX_SEGMENTS))
}

impl Sizes {
    /// The sizes of a queue with room for so many items, 1 or more, with this k and greatest version.
    ///
    /// ```rust
    /// let sizes = Sizes::for_capacity(16, 1_024, 4, MAX_VERSION)?; // k, capacity, threads, greatest version
    /// let (queue, passes, tokens) = TokenQueue::open(alloc, sizes.shape, sizes.threads, sizes.tokens)?;
    /// ```
    ///
    /// Each thread opens the queue with its part of the capacity, rounded up, and `SPARE_TOKENS` more. So `capacity`
    /// tokens are left where each thread keeps as many as that for itself. The ring has twice as many slots as there
    /// are tokens where 1,024 segments allow it, and two segments more than hold the tokens in any case.
    ///
    /// Refuses the first size that is out of its range: ThreadsOutOfRange where the number of threads is not 1 to 64;
    /// KOutOfRange where k is not 1 to 64; LastOutOfRange where `last` is not 2 to 2^40 - 1; CapacityOutOfRange, with
    /// the greatest capacity, where the capacity is 0 or greater than that.
    pub fn for_capacity(k: u32, capacity: u32, threads: u32, last: u64) -> Result<Sizes, SizesFault>
        ensures sizes { MatchResult result
            (λ s. (sizes_fault k capacity threads last ≡ None) × (s.threads ≡ threads)
            × (s.tokens ≡ tokens_for capacity threads) × (s.shape.k ≡ k)
            × (s.shape.n ≡ segments_for (threads * tokens_for capacity threads) k) × (s.shape.last ≡ last)
            × (s.shape.probes ≡ k) × (s.shape.holds_again ≡ false))
            (λ f. sizes_fault k capacity threads last ≡ Some f) }
        ensures room { IfOk result (λ s. HasRoom capacity s) }
    {
        if threads == 0 || threads > MAX_THREADS {
            return Err(SizesFault::ThreadsOutOfRange);
        }
        if k == 0 || k > MAX_K {
            return Err(SizesFault::KOutOfRange);
        }
        if last < 2 || last > MAX_VERSION {
            return Err(SizesFault::LastOutOfRange);
        }
        let greatest = greatest_for(k, threads);
        if capacity == 0 || capacity > greatest {
            return Err(SizesFault::CapacityOutOfRange(greatest));
        }
        let tokens = capacity.div_ceil(threads) + SPARE_TOKENS;
        let segments = segments_of(threads * tokens, k);
        let Ok(shape) = Shape::new(k, segments, last) else {
            unreachable!()
        };
        Ok(Sizes {
            shape,
            threads,
            tokens,
        })
    }
}
