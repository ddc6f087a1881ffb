//! Calls of a queue with a pool of free tokens.
ghost use Rattle.std.specs.Prelude.{◌≡◌, IfOk, IfSome, None, Some, [], false, true};
ghost use Rattle.kfifo_live.specs.declared.handle.TheConstants.{MAX_TURNS};
ghost use Rattle.kfifo_live.specs.Calls.{IsDisturbed};
ghost use Rattle.kfifo_live.specs.Handles.{first_of, further};
ghost use Rattle.kfifo_live.specs.Pass.{IsPassOf, IsSamePass, IsSealedEmpty, PassKeepsPromise};
ghost use Rattle.kfifo_live.specs.Payloads.{TokenView};
ghost use Rattle.kfifo_live.specs.Tokens.{Puts, TakesToken, TakesTokenOrSeals};
ghost use Rattle.kfifo_pool.specs.Pooled.{AreOf, GivesOne, KeepsOne, Pooled, ReceivesOne, ReceivesOneOrSeals, TakesOne};
ghost use Rattle.kfifo_pool.specs.Pooled.{AreCellsOf, all_free, no_cells, pass_of, queue_in};

use crate::cells::Cells;
use crate::free::FreeTokens;
use crate::pool::PooledQueue;
use kfifo_live::{
    Given, Published, Put, Received, ReceivedOrSealed, Taken, TakenOrSealed, Token, TokenHandle,
    TokenPass,
};
use std::alloc::{AllocError, Global};
use std::marker::Model;

/// A pass of a queue of tokens that chooses the starts and the rounds of its calls, with free tokens of its own: two
/// batches at most, and a few more where others fill each empty place of the pool before it comes there.
///
/// Clauses see it as its pass and starts, its free tokens, the one that it takes next last, and its cells.
#[derive(Drop)]
pub struct PooledHandle<T: Drop> {
    pub(crate) handle: TokenHandle<T>,
    pub(crate) free: FreeTokens<T>,
    pub(crate) cells: Cells<T>,
}

impl<T: Drop> Model for PooledHandle<T> {
    ghost Value = { Pooled T };

    ghost view = { λ h. record { held = h.handle; free = all_free h.free; cells = h.cells } };

    ghost invariant = { λ h. AreOf (queue_in h.handle) (all_free h.free) × AreCellsOf (queue_in h.handle) h.cells };
}

impl<T: Drop> PooledHandle<T> {
    /// The handle of a pass, which has no free token yet. Its first look into the pool begins at this place.
    pub(crate) fn new(
        alloc: Global,
        queue: &PooledQueue<T>,
        pass: TokenPass<T>,
        look_from: usize,
    ) -> Result<PooledHandle<T>, AllocError>
        requires { IsPassOf queue.now pass.pass }
        ensures { IfOk result (λ h. h ≡ record {
          held = record { pass = pass; put_start = first_of pass.pass; take_start = first_of pass.pass };
          free = [];
          cells = no_cells;
        }) }
    {
        let free = FreeTokens::new(alloc, look_from)?;
        let handle = TokenHandle::new(&queue.queue, pass);
        let cells = Cells::none();
        Ok(PooledHandle {
            handle,
            free,
            cells,
        })
    }

    /// The pass.
    pub fn pass(&self) -> &TokenPass<T>
        ensures { result.now ≡ self.now.held.pass }
    {
        self.handle.pass()
    }

    /// Gives the pass back. The free tokens and the cells of the handle are gone with it.
    pub(crate) fn into_pass(self) -> TokenPass<T>
        ensures { result ≡ self.held.pass }
    {
        self.handle.into_pass()
    }

    /// Reserves a free token: the one that the handle kept last, or else one of a batch of the pool.
    ///
    /// Returns None where the handle has none and one look at each place of the pool found none. The token is then the
    /// caller's alone, until it gives it back, by `put` or `release`. It never allocates, waits or locks.
    #[inline(always)]
    pub fn reserve(&mut self, queue: &PooledQueue<T>) -> Option<Token<T>>
        requires of { IsPassOf queue.now (pass_of self.old.held) }
        ensures takes { TakesOne result self.old.free self.new.free }
        ensures of { IfSome result (λ token. token.queue ≡ queue.now) }
        ensures same { self.new.held ≡ self.old.held }
        ensures cells { self.new.cells ≡ self.old.cells }
    {
        self.free.take(queue)
    }

    /// Gives a token back: it is free again, and the next one that the handle reserves. Where the handle has two
    /// batches, it lays one into the pool. The token is lost only where no place of the pool was empty and memory is
    /// refused.
    #[inline(always)]
    pub fn release(&mut self, queue: &PooledQueue<T>, token: Token<T>)
        requires of { IsPassOf queue.now (pass_of self.old.held) }
        requires token { token.queue ≡ queue.now }
        ensures keeps { KeepsOne token self.old.free self.new.free }
        ensures same { self.new.held ≡ self.old.held }
        ensures cells { self.new.cells ≡ self.old.cells }
    {
        self.free.put(queue, token);
    }

    /// Puts a token into a bare queue, as `TokenHandle::put` does.
    ///
    /// Returns Done; or Full, Worn or Busy with the token. Busy comes only where another thread won an exchange during
    /// the call. It never allocates, waits or locks.
    #[inline(always)]
    pub fn put(&mut self, queue: &PooledQueue<T>, token: Token<T>) -> Put<T>
        requires of { IsPassOf queue.now (pass_of self.old.held) }
        requires bare { queue.now.opened.bare ≡ true }
        requires token { token.queue ≡ queue.now }
        ensures same { IsSamePass (pass_of self.old.held) (pass_of self.new.held) }
        ensures puts { Puts token self.old.held.put_start MAX_TURNS result self.old.held.pass self.new.held.pass }
        ensures busy { (back : TokenView) → result ≡ Put.Busy back
            → IsDisturbed (pass_of self.old.held) (pass_of self.new.held) }
        ensures starts { (self.new.held.put_start ≡ further (pass_of self.old.held) self.old.held.put_start)
            × (self.new.held.take_start ≡ self.old.held.take_start) }
        ensures free { self.new.free ≡ self.old.free }
        ensures cells { self.new.cells ≡ self.old.cells }
        ensures promise { PassKeepsPromise (pass_of self.new.held) }
    {
        self.handle.put(&queue.queue, token)
    }

    /// Takes one of the k oldest tokens out of a bare queue, as `TokenHandle::take` does. The token is then the
    /// caller's, until it gives it back, by `put` or `release`.
    ///
    /// Returns Got with the token, Empty, Worn or Busy. Busy comes only where another thread won an exchange during the
    /// call. It never allocates, waits or locks.
    #[inline(always)]
    pub fn take(&mut self, queue: &PooledQueue<T>) -> Taken<Token<T>>
        requires of { IsPassOf queue.now (pass_of self.old.held) }
        requires bare { queue.now.opened.bare ≡ true }
        ensures same { IsSamePass (pass_of self.old.held) (pass_of self.new.held) }
        ensures takes { TakesToken self.old.held.take_start MAX_TURNS result self.old.held.pass self.new.held.pass }
        ensures busy { result ≡ Taken.Busy → IsDisturbed (pass_of self.old.held) (pass_of self.new.held) }
        ensures starts { (self.new.held.take_start ≡ further (pass_of self.old.held) self.old.held.take_start)
            × (self.new.held.put_start ≡ self.old.held.put_start) }
        ensures free { self.new.free ≡ self.old.free }
        ensures cells { self.new.cells ≡ self.old.cells }
        ensures promise { PassKeepsPromise (pass_of self.new.held) }
    {
        self.handle.take(&queue.queue)
    }

    /// Takes one of the k oldest tokens out of a bare queue, or seals it where it is empty, as
    /// `TokenHandle::take_or_seal` does.
    ///
    /// Returns Got with the token, Empty, Sealed, Worn or Busy. Busy comes only where another thread won an exchange
    /// during the call. It never allocates, waits or locks.
    pub fn take_or_seal(&mut self, queue: &PooledQueue<T>) -> TakenOrSealed<Token<T>>
        requires of { IsPassOf queue.now (pass_of self.old.held) }
        requires bare { queue.now.opened.bare ≡ true }
        ensures same { IsSamePass (pass_of self.old.held) (pass_of self.new.held) }
        ensures takes { TakesTokenOrSeals self.old.held.take_start MAX_TURNS result self.old.held.pass
            self.new.held.pass }
        ensures sealed { result ≡ TakenOrSealed.Sealed → IsSealedEmpty (pass_of self.new.held) }
        ensures busy { result ≡ TakenOrSealed.Busy → IsDisturbed (pass_of self.old.held) (pass_of self.new.held) }
        ensures starts { (self.new.held.take_start ≡ further (pass_of self.old.held) self.old.held.take_start)
            × (self.new.held.put_start ≡ self.old.held.put_start) }
        ensures free { self.new.free ≡ self.old.free }
        ensures cells { self.new.cells ≡ self.old.cells }
        ensures promise { PassKeepsPromise (pass_of self.new.held) }
    {
        self.handle.take_or_seal(&queue.queue)
    }

    /// Puts a payload into a queue with payloads, with a free token of the handle, or one of the pool.
    ///
    /// Returns Done; or Full, Worn, Busy or NoToken with the payload. NoToken comes where `reserve` finds none: then at
    /// least as many payloads as the queue is to hold are in it or on their way. Busy comes only where another thread
    /// won an exchange during the call. It never allocates, waits or locks.
    #[inline(always)]
    pub fn give(&mut self, queue: &PooledQueue<T>, payload: T) -> Given<T>
        requires of { IsPassOf queue.now (pass_of self.old.held) }
        requires payloads { queue.now.opened.bare ≡ false }
        ensures same { IsSamePass (pass_of self.old.held) (pass_of self.new.held) }
        ensures gives { GivesOne payload result self.old self.new }
        ensures cells { self.new.cells ≡ self.old.cells }
    {
        let Some(token) = self.reserve(queue) else {
            return Given::NoToken(payload);
        };
        let (answer, token) = match self.handle.give(&queue.queue, token, payload) {
            Published::Done => return Given::Done,
            Published::Full(back, token) => (Given::Full(back), token),
            Published::Busy(back, token) => (Given::Busy(back), token),
            Published::Worn(back, token) => (Given::Worn(back), token),
        };
        self.release(queue, token);
        answer
    }

    /// Takes one of the k oldest payloads out of a queue with payloads, and keeps its token.
    ///
    /// Returns Got with the payload, Empty, Worn or Busy. Busy comes only where another thread won an exchange during
    /// the call. It never waits or locks.
    #[inline(always)]
    pub fn receive(&mut self, queue: &PooledQueue<T>) -> Taken<T>
        requires of { IsPassOf queue.now (pass_of self.old.held) }
        requires payloads { queue.now.opened.bare ≡ false }
        ensures same { IsSamePass (pass_of self.old.held) (pass_of self.new.held) }
        ensures receives { ReceivesOne result self.old self.new }
        ensures cells { self.new.cells ≡ self.old.cells }
        ensures busy { result ≡ Taken.Busy → IsDisturbed (pass_of self.old.held) (pass_of self.new.held) }
        ensures starts { (self.new.held.take_start ≡ further (pass_of self.old.held) self.old.held.take_start)
            × (self.new.held.put_start ≡ self.old.held.put_start) }
        ensures promise { PassKeepsPromise (pass_of self.new.held) }
    {
        match self.handle.receive(&queue.queue) {
            Received::Got(payload, token) => {
                self.release(queue, token);
                Taken::Got(payload)
            }
            Received::Empty => Taken::Empty,
            Received::Busy => Taken::Busy,
            Received::Worn => Taken::Worn,
        }
    }

    /// Takes one of the k oldest payloads, as `receive` does, or seals the queue where it is empty, as
    /// `TokenHandle::receive_or_seal` does.
    ///
    /// Returns Got with the payload, Empty, Sealed, Worn or Busy. Busy comes only where another thread won an exchange
    /// during the call. It never waits or locks.
    pub fn receive_or_seal(&mut self, queue: &PooledQueue<T>) -> TakenOrSealed<T>
        requires of { IsPassOf queue.now (pass_of self.old.held) }
        requires payloads { queue.now.opened.bare ≡ false }
        ensures same { IsSamePass (pass_of self.old.held) (pass_of self.new.held) }
        ensures receives { ReceivesOneOrSeals result self.old self.new }
        ensures cells { self.new.cells ≡ self.old.cells }
        ensures sealed { result ≡ TakenOrSealed.Sealed → IsSealedEmpty (pass_of self.new.held) }
        ensures busy { result ≡ TakenOrSealed.Busy → IsDisturbed (pass_of self.old.held) (pass_of self.new.held) }
        ensures starts { (self.new.held.take_start ≡ further (pass_of self.old.held) self.old.held.take_start)
            × (self.new.held.put_start ≡ self.old.held.put_start) }
        ensures promise { PassKeepsPromise (pass_of self.new.held) }
    {
        match self.handle.receive_or_seal(&queue.queue) {
            ReceivedOrSealed::Got(payload, token) => {
                self.release(queue, token);
                TakenOrSealed::Got(payload)
            }
            ReceivedOrSealed::Empty => TakenOrSealed::Empty,
            ReceivedOrSealed::Sealed => TakenOrSealed::Sealed,
            ReceivedOrSealed::Busy => TakenOrSealed::Busy,
            ReceivedOrSealed::Worn => TakenOrSealed::Worn,
        }
    }
}
