//! The states of the search that led nowhere.

use std::alloc::{AllocError, Global};

/// The most states that are kept: 8 MB.
const MAX_KEPT: usize = 1_048_576;

/// How many states are kept for each call.
const KEPT_PER_CALL: usize = 16;

/// States that the search has been in, by numbers that tell them apart. A state may be forgotten where another one has
/// its slot: then it is searched once more.
#[derive(Drop)]
pub(crate) struct Seen {
    /// The number of a state in each slot, or 0. There are none before the first state is kept.
    slots: Vec<u64>,
    /// How many slots there are to be.
    count: usize,
}

/// A number that looks random, of another.
pub(crate) fn scattered(number: u64) -> u64 {
    let a = number.wrapping_add(0x9e37_79b9_7f4a_7c15);
    let b = (a ^ (a >> 30)).wrapping_mul(0xbf58_476d_1ce4_e5b9);
    let c = (b ^ (b >> 27)).wrapping_mul(0x94d0_49bb_1331_11eb);
    c ^ (c >> 31)
}

impl Seen {
    /// None yet.
    pub(crate) fn new(alloc: Global, calls: usize) -> Seen {
        Seen {
            slots: Vec::new(alloc),
            count: calls.saturating_mul(KEPT_PER_CALL).min(MAX_KEPT),
        }
    }

    /// Keeps the state; returns whether it was there before.
    pub(crate) fn meet(&mut self, alloc: Global, state: u64) -> Result<bool, AllocError> {
        if self.slots.is_empty() {
            self.slots = vec![in alloc; 0; self.count]?;
        }
        let count = self.slots.len();
        if count == 0 {
            return Ok(false);
        }
        let slot = (state % count as u64) as usize;
        if slot >= count {
            return Ok(false);
        }
        let met = self.slots[slot] == state;
        self.slots[slot] = state;
        Ok(met)
    }
}
