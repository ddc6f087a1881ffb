//! The queue and the free tokens that no handle has.
ghost use Rattle.std.specs.Prelude.{◌≡◌, ◌≤◌, ◌<◌, ◌*◌, ◌%◌, ◌++◌, All, IfOk, IfSome, List, [], None, reverse};
ghost use Rattle.std.specs.Prelude.{vec_capacity};
ghost use Rattle.counted_slot.specs.Counting.{IsTurn, readers};
ghost use Rattle.kfifo_live.specs.Pass.{OpenQueue};
ghost use Rattle.kfifo_live.specs.Payloads.{TokenView};
ghost use Rattle.kfifo_pool.specs.Pooled.{AreOf, in_list};
ghost use Rattle.kfifo_pool.specs.declared.pool.TheConstants.{BATCH};

use crate::laid::Laid;
use counted_slot::{Claim, Counted, FREE, Fits, PRESENT, TAKEN};
use kfifo_exclusive::Exclusive;
use kfifo_live::{Token, TokenQueue};
use std::alloc::{AllocError, Global};
use std::marker::Model;

/// The most tokens that go to the pool or come from it at once.
pub const BATCH: u32 = 14;

/// For how many tokens more than a batch a list has room. A handle that finds no empty place keeps some more.
const MORE: u32 = 2;

/// A list of free tokens, which goes to the pool and comes from it as a whole.
///
/// Clauses see it as these tokens.
#[derive(Drop)]
pub(crate) struct Batch<T> {
    pub(crate) tokens: Vec<Token<T>>,
}

impl<T> Model for Batch<T> {
    ghost Value = { List TokenView };

    ghost view = { λ b. b.tokens.items };

    ghost invariant = { λ b. BATCH ≤ vec_capacity b.tokens };
}

impl<T: Drop> Batch<T> {
    /// An empty list, with room for a batch.
    pub(crate) fn new(alloc: Global) -> Result<Batch<T>, AllocError>
        ensures { IfOk result (λ b. b ≡ []) }
    {
        let tokens = Vec::with_capacity(alloc, BATCH as usize + MORE as usize)?;
        Ok(Batch { tokens })
    }

    /// Moves the last of these tokens into the list, until it has a batch.
    pub(crate) fn fill(&mut self, tokens: &mut Vec<Token<T>>)
        ensures { (moved : List TokenView) × (tokens.old.items ≡ tokens.new.items ++ moved)
            × (self.new ≡ self.old ++ reverse moved) }
    {
        while self.tokens.len() < BATCH as usize {
            let Some(token) = tokens.pop() else {
                return;
            };
            self.tokens.push_reserved(token);
        }
    }
}

/// A list that lies in a place.
// Handles of all threads share the places. What is shared may be read by any thread unless nothing can be.
#[derive(Drop)]
pub(crate) struct Resting<T: Drop> {
    batch: Exclusive<Batch<T>>,
}

impl<T: Drop> Fits for Resting<T> {
    type Tag = TokenQueue<T>;

    ghost fits = { λ queue resting. AreOf queue resting.batch.inner };
}

impl<T: Drop> Resting<T> {
    /// This list, out of reach.
    pub(crate) fn new(batch: Batch<T>) -> Resting<T>
        ensures { result.batch.inner ≡ batch }
    {
        Resting {
            batch: Exclusive::new(batch),
        }
    }

    /// The list.
    fn into_batch(self) -> Batch<T>
        ensures { result ≡ self.batch.inner }
    {
        let Resting { batch } = self;
        batch.into_inner()
    }
}

/// A running queue of tokens, with places in which batches of its free tokens lie.
///
/// In each place lies a list: one with tokens, or an empty one where the place is empty. Who lays a batch down
/// exchanges it for an empty list, and who takes one out leaves an empty list there. So neither allocates.
///
/// Clauses see it as the queue of tokens.
#[derive(Drop)]
pub struct PooledQueue<T: Drop> {
    pub(crate) queue: TokenQueue<T>,
    pub(crate) places: Vec<Counted<Option<Resting<T>>>>,
    pub(crate) laid: Laid,
}

impl<T: Drop> Model for PooledQueue<T> {
    ghost Value = { OpenQueue };

    ghost view = { λ q. q.queue };

    ghost invariant = { λ q. All (λ place. place ≡ q.queue) q.places.items };
}

/// This list, out of reach.
fn put_out_of_reach<T: Drop>(list: Option<Batch<T>>) -> Option<Resting<T>>
    ensures { (queue : OpenQueue) → AreOf queue (in_list list)
        → IfSome result (λ resting. AreOf queue resting.batch.inner) }
{
    let batch = list?;
    Some(Resting::new(batch))
}

/// Leaves this list in a place, under this state, and returns the one that lay there.
fn exchange<T: Drop>(
    claim: Claim<'_, Option<Resting<T>>>,
    list: Option<Batch<T>>,
    state: u64,
) -> Option<Batch<T>>
    requires claim { (claim.right ≡ 2) × (state % 4 < 3) × (readers state ≡ 0) }
    requires of { AreOf claim.tag (in_list list) }
    ensures { AreOf claim.entry.tag (in_list result) }
{
    let found = claim.put(put_out_of_reach(list), state)?;
    Some(found.into_batch())
}

impl<T: Drop> PooledQueue<T> {
    /// How many versions the ends word has left, as `TokenQueue::versions_left` finds it.
    pub fn versions_left(&self) -> u64
        ensures { result ≤ self.now.opened.shape.last }
    {
        self.queue.versions_left()
    }

    /// About how many tokens are in the queue, as `TokenQueue::len` counts them.
    pub fn len(&self) -> usize
        ensures { result ≤ self.now.opened.shape.n * self.now.opened.shape.k }
    {
        self.queue.len()
    }

    /// The right to write to this place, if it is in this state.
    fn claim(&self, index: usize, state: u64) -> Option<Claim<'_, Option<Resting<T>>>>
        requires { IsTurn state 3 }
        ensures { IfSome result (λ claim. (claim.right ≡ 2) × (claim.tag ≡ self.now)) }
    {
        let place = self.places.get(index)?;
        // Handles that look at a place that is of no use to them only read it, and so do not take its line from each
        // other.
        if place.load() != state {
            return None;
        }
        let (found, claim) = place.turn(state, TAKEN);
        if found != state {
            claim.done();
            return None;
        }
        Some(claim)
    }

    /// The first of the places from this one up to that one that is in this state, and the right to write to it.
    fn claim_among(
        &self,
        from: usize,
        end: usize,
        state: u64,
    ) -> Option<(usize, Claim<'_, Option<Resting<T>>>)>
        requires { IsTurn state 3 }
        ensures { IfSome result (λ r. (r.1.right ≡ 2) × (r.1.tag ≡ self.now)) }
    {
        for index in from..end {
            if let Some(claim) = self.claim(index, state) {
                return Some((index, claim));
            }
        }
        None
    }

    /// The same of all places. The look begins at this place, and comes to each place once.
    fn claim_any(&self, from: usize, state: u64) -> Option<(usize, Claim<'_, Option<Resting<T>>>)>
        requires { IsTurn state 3 }
        ensures { IfSome result (λ r. (r.1.right ≡ 2) × (r.1.tag ≡ self.now)) }
    {
        match self.claim_among(from, self.places.len(), state) {
            Some(found) => Some(found),
            None => self.claim_among(0, from, state),
        }
    }

    /// Lays a list of tokens into an empty place, and returns that place. The empty list that lay there is then the
    /// caller's. The look begins at this place.
    ///
    /// There are places for all batches, so one is empty at any time. It returns None, and exchanges nothing, only
    /// where others fill each empty place before this look comes to it.
    #[cold]
    #[inline(never)]
    pub(crate) fn lay(&self, from: usize, list: &mut Option<Batch<T>>) -> Option<usize>
        requires { AreOf self.now (in_list list.old) }
        ensures of { AreOf self.now (in_list list.new) }
        ensures none { result ≡ None → list.new ≡ list.old }
    {
        let (index, claim) = self.claim_any(from, FREE)?;
        *list = exchange(claim, list.take(), PRESENT);
        self.laid.add();
        Some(index)
    }

    /// Takes a list of tokens out of a place, which it returns, if one lies there. The list of the caller, which is
    /// empty, is left there. The look begins at this place.
    #[cold]
    #[inline(never)]
    pub(crate) fn find(&self, from: usize, list: &mut Option<Batch<T>>) -> Option<usize>
        requires { AreOf self.now (in_list list.old) }
        ensures of { AreOf self.now (in_list list.new) }
        ensures none { result ≡ None → list.new ≡ list.old }
    {
        // Without this a give that is refused would look at all places, of which a queue of 16,384 has over a thousand.
        if self.laid.is_none() {
            return None;
        }
        let (index, claim) = self.claim_any(from, PRESENT)?;
        *list = exchange(claim, list.take(), FREE);
        self.laid.remove();
        Some(index)
    }
}
