//! How many batches lie in the places of a pool.
use std::alloc::{AllocError, Global};
use std::sync::atomic::{AtomicU64, Ordering};

/// How many words the block of the count has, and which of them counts: a line of memory of its own, so that calls,
/// which read the fields of the queue, do not lose their line where a batch is laid down or taken out.
const WORDS: usize = 16;

const COUNT: usize = 8;

/// A count of the batches in the places of a pool. Where it is 0, a look into the pool need not go through all places.
///
/// A batch counts from when it has been laid down to when it has been taken out. One may be taken out before it counts:
/// then the count is one too low, or below 0, for as long as the call runs that laid it down.
#[derive(Drop)]
pub(crate) struct Laid {
    words: Vec<AtomicU64>,
}

impl Laid {
    /// None so far.
    pub(crate) fn new(alloc: Global) -> Result<Laid, AllocError> {
        let mut words = Vec::with_capacity(alloc, WORDS)?;
        for _ in 0..WORDS {
            words.push(AtomicU64::new(0))?;
        }
        Ok(Laid { words })
    }

    /// Whether no batch lies in the pool but those that calls are about to lay down.
    pub(crate) fn is_none(&self) -> bool {
        match self.words.get(COUNT) {
            Some(count) => count.load(Ordering::SeqCst) == 0,
            None => false,
        }
    }

    /// One more was laid down.
    pub(crate) fn add(&self) {
        if let Some(count) = self.words.get(COUNT) {
            count.fetch_add(1, Ordering::SeqCst);
        }
    }

    /// One was taken out.
    pub(crate) fn remove(&self) {
        if let Some(count) = self.words.get(COUNT) {
            count.fetch_sub(1, Ordering::SeqCst);
        }
    }
}
