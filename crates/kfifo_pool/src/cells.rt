//! The cells of a handle, and the calls that reserve, publish, receive and release them.
ghost use Rattle.std.specs.Prelude.{◌≡◌, ◌↔◌, None, false, true};
ghost use Rattle.kfifo_live.specs.Calls.{IsDisturbed};
ghost use Rattle.kfifo_live.specs.Handles.{further};
ghost use Rattle.kfifo_live.specs.Pass.{IsPassOf, IsSamePass, IsSealedEmpty, PassKeepsPromise};
ghost use Rattle.kfifo_pool.specs.Cells.{CancelsCell, PublishesCell, ReceivesCell, ReceivesCellOrSeals, ReleasesCell};
ghost use Rattle.kfifo_pool.specs.Cells.{ReservesCell, cell_in, cells_of, cells_or_sealed, token_or_sealed};
ghost use Rattle.kfifo_pool.specs.Cells.{token_taken, with_received, with_reserved};
ghost use Rattle.kfifo_pool.specs.Pooled.{CellsInHand, no_cells, pass_of};

use crate::handle::PooledHandle;
use crate::pool::PooledQueue;
use kfifo_live::{Given, Put, Taken, TakenOrSealed, Token};
use std::marker::Model;

/// The cells that a handle has: one that it reserved, and one that it received.
#[derive(Drop)]
pub(crate) struct Cells<T: Drop> {
    reserved: Option<Token<T>>,
    received: Option<Token<T>>,
}

impl<T: Drop> Model for Cells<T> {
    ghost Value = { CellsInHand };

    ghost view = { λ c. record { reserved = c.reserved; received = c.received } };
}

impl<T: Drop> Cells<T> {
    /// No cell.
    pub(crate) fn none() -> Cells<T>
        ensures { result ≡ no_cells }
    {
        Cells {
            reserved: None,
            received: None,
        }
    }

    /// Takes the token of the cell that is reserved.
    #[inline(always)]
    fn take_reserved(&mut self) -> Option<Token<T>>
        ensures { (result ≡ self.old.reserved) × (self.new ≡ with_reserved None self.old) }
    {
        self.reserved.take()
    }

    /// Keeps the token of a cell that is reserved. None was.
    #[inline(always)]
    fn keep_reserved(&mut self, token: Option<Token<T>>)
        ensures { self.new ≡ with_reserved token self.old }
    {
        self.reserved = token;
    }

    /// Takes the token of the cell that was received.
    #[inline(always)]
    fn take_received(&mut self) -> Option<Token<T>>
        ensures { (result ≡ self.old.received) × (self.new ≡ with_received None self.old) }
    {
        self.received.take()
    }

    /// Keeps the token of a cell that was received. None was.
    #[inline(always)]
    fn keep_received(&mut self, token: Option<Token<T>>)
        ensures { self.new ≡ with_received token self.old }
    {
        self.received = token;
    }
}

/// The cell of a token, if there is one.
#[inline(always)]
fn cell_of_token<T: Drop>(token: &Option<Token<T>>) -> Option<u32>
    ensures { result ≡ cell_in token.now }
{
    match token {
        Some(token) => Some(token.number() - 1),
        None => None,
    }
}

/// The cell of what a take came to, and the cell's token.
#[inline(always)]
fn of_taken<T: Drop>(taken: Taken<Token<T>>) -> (Taken<u32>, Option<Token<T>>)
    ensures { (result.0 ≡ cells_of taken) × (result.1 ≡ token_taken taken) }
{
    match taken {
        Taken::Got(token) => (Taken::Got(token.number() - 1), Some(token)),
        Taken::Empty => (Taken::Empty, None),
        Taken::Busy => (Taken::Busy, None),
        Taken::Worn => (Taken::Worn, None),
    }
}

/// The same of a take that may seal.
fn of_taken_or_sealed<T: Drop>(
    taken: TakenOrSealed<Token<T>>,
) -> (TakenOrSealed<u32>, Option<Token<T>>)
    ensures { (result.0 ≡ cells_or_sealed taken) × (result.1 ≡ token_or_sealed taken) }
{
    match taken {
        TakenOrSealed::Got(token) => (TakenOrSealed::Got(token.number() - 1), Some(token)),
        TakenOrSealed::Empty => (TakenOrSealed::Empty, None),
        TakenOrSealed::Sealed => (TakenOrSealed::Sealed, None),
        TakenOrSealed::Busy => (TakenOrSealed::Busy, None),
        TakenOrSealed::Worn => (TakenOrSealed::Worn, None),
    }
}

impl<T: Drop> PooledHandle<T> {
    /// Whether the handle has a cell, reserved or received.
    pub fn has_cell(&self) -> bool
        ensures { result ≡ false ↔ (self.now.cells ≡ no_cells) }
    {
        self.cells.reserved.is_some() || self.cells.received.is_some()
    }

    /// The cell that the handle has reserved.
    pub fn reserved_cell(&self) -> Option<u32>
        ensures { result ≡ cell_in self.now.cells.reserved }
    {
        cell_of_token(&self.cells.reserved)
    }

    /// Reserves the cell of a free token.
    #[inline(always)]
    fn reserve_next(&mut self, queue: &PooledQueue<T>) -> Option<u32>
        requires of { IsPassOf queue.now (pass_of self.old.held) }
        requires none { self.old.cells.reserved ≡ None }
        ensures same { IsSamePass (pass_of self.old.held) (pass_of self.new.held) }
        ensures did { ReservesCell result self.old self.new }
    {
        let token = self.free.take(queue);
        let cell = cell_of_token(&token);
        self.cells.keep_reserved(token);
        cell
    }

    /// The cell that the handle has reserved: the cell of its token, a number from 0. Where it has none it reserves
    /// one: that of a free token, as `reserve` finds one.
    ///
    /// Until it is published or cancelled the cell is this handle's alone. Returns None where `reserve` does. It never
    /// allocates, waits or locks.
    ///
    /// ```rust
    /// let cell = giver.reserve_cell(&queue); // this handle's alone, until it is published
    /// let given = giver.publish_cell(&queue); // Done
    /// let taken = taker.receive_cell(&queue); // Got(cell), this handle's until it is released
    /// let released = taker.release_cell(&queue); // true
    /// ```
    #[inline(always)]
    pub fn reserve_cell(&mut self, queue: &PooledQueue<T>) -> Option<u32>
        requires of { IsPassOf queue.now (pass_of self.old.held) }
        ensures same { IsSamePass (pass_of self.old.held) (pass_of self.new.held) }
        ensures did { ReservesCell result self.old self.new }
    {
        if self.cells.reserved.is_none() {
            return self.reserve_next(queue);
        }
        cell_of_token(&self.cells.reserved)
    }

    /// Puts the cell that is reserved into a bare queue, as `put` does its token. A refusal leaves it reserved.
    ///
    /// Returns Done, Full, Worn or Busy; NoToken, with nothing done, where no cell is reserved. Busy comes only where
    /// another thread won an exchange during the call. It never allocates, waits or locks.
    #[inline(always)]
    pub fn publish_cell(&mut self, queue: &PooledQueue<T>) -> Given<()>
        requires of { IsPassOf queue.now (pass_of self.old.held) }
        requires bare { queue.now.opened.bare ≡ true }
        ensures same { IsSamePass (pass_of self.old.held) (pass_of self.new.held) }
        ensures did { PublishesCell result self.old self.new }
    {
        let Some(token) = self.cells.take_reserved() else {
            return Given::NoToken(());
        };
        match self.handle.put(&queue.queue, token) {
            Put::Done => Given::Done,
            Put::Full(back) => {
                self.cells.keep_reserved(Some(back));
                Given::Full(())
            }
            Put::Busy(back) => {
                self.cells.keep_reserved(Some(back));
                Given::Busy(())
            }
            Put::Worn(back) => {
                self.cells.keep_reserved(Some(back));
                Given::Worn(())
            }
        }
    }

    /// Gives the cell that is reserved back, as `release` does its token. Returns false where none is.
    #[inline(always)]
    pub fn cancel_cell(&mut self, queue: &PooledQueue<T>) -> bool
        requires of { IsPassOf queue.now (pass_of self.old.held) }
        ensures same { IsSamePass (pass_of self.old.held) (pass_of self.new.held) }
        ensures did { CancelsCell result self.old self.new }
    {
        let Some(token) = self.cells.take_reserved() else {
            return false;
        };
        self.free.put(queue, token);
        true
    }

    /// Releases the cell that was received, as `release` does its token. Returns false where none was, or it was
    /// released.
    #[inline(always)]
    pub fn release_cell(&mut self, queue: &PooledQueue<T>) -> bool
        requires of { IsPassOf queue.now (pass_of self.old.held) }
        ensures same { IsSamePass (pass_of self.old.held) (pass_of self.new.held) }
        ensures did { ReleasesCell result self.old self.new }
    {
        let Some(token) = self.cells.take_received() else {
            return false;
        };
        self.free.put(queue, token);
        true
    }

    /// Releases the cell that was received before, and takes one of the k oldest cells out of a bare queue, as `take`
    /// does its token. The cell is then this handle's alone, until it receives another one or releases it.
    ///
    /// Returns Got with the cell's number, Empty, Worn or Busy. Busy comes only where another thread won an exchange
    /// during the call. It never waits or locks.
    #[inline(always)]
    pub fn receive_cell(&mut self, queue: &PooledQueue<T>) -> Taken<u32>
        requires of { IsPassOf queue.now (pass_of self.old.held) }
        requires bare { queue.now.opened.bare ≡ true }
        ensures same { IsSamePass (pass_of self.old.held) (pass_of self.new.held) }
        ensures receives { ReceivesCell result self.old self.new }
        ensures busy { result ≡ Taken.Busy → IsDisturbed (pass_of self.old.held) (pass_of self.new.held) }
        ensures starts { (self.new.held.take_start ≡ further (pass_of self.old.held) self.old.held.take_start)
            × (self.new.held.put_start ≡ self.old.held.put_start) }
        ensures promise { PassKeepsPromise (pass_of self.new.held) }
    {
        self.release_cell(queue);
        let (taken, token) = of_taken(self.handle.take(&queue.queue));
        self.cells.keep_received(token);
        taken
    }

    /// Takes one of the k oldest cells out of a bare queue, as `receive_cell` does, or seals the queue where it is
    /// empty, as `TokenHandle::take_or_seal` does.
    ///
    /// Returns Got with the cell's number, Empty, Sealed, Worn or Busy. Busy comes only where another thread won an
    /// exchange during the call. It never waits or locks.
    pub fn receive_cell_or_seal(&mut self, queue: &PooledQueue<T>) -> TakenOrSealed<u32>
        requires of { IsPassOf queue.now (pass_of self.old.held) }
        requires bare { queue.now.opened.bare ≡ true }
        ensures same { IsSamePass (pass_of self.old.held) (pass_of self.new.held) }
        ensures receives { ReceivesCellOrSeals result self.old self.new }
        ensures sealed { result ≡ TakenOrSealed.Sealed → IsSealedEmpty (pass_of self.new.held) }
        ensures busy { result ≡ TakenOrSealed.Busy → IsDisturbed (pass_of self.old.held) (pass_of self.new.held) }
        ensures starts { (self.new.held.take_start ≡ further (pass_of self.old.held) self.old.held.take_start)
            × (self.new.held.put_start ≡ self.old.held.put_start) }
        ensures promise { PassKeepsPromise (pass_of self.new.held) }
    {
        let _ = self.release_cell(queue);
        let (taken, token) = of_taken_or_sealed(self.handle.take_or_seal(&queue.queue));
        self.cells.keep_received(token);
        taken
    }
}
