//! Calls of a renewing queue whose generations have cells.
ghost use Rattle.std.specs.Prelude.{◌≡◌, MatchBool, None, true};
ghost use Rattle.kfifo_live.specs.Pass.{IsPassOf, IsSamePass};
ghost use Rattle.kfifo_pool.specs.Cells.{ReservesCell, cell_in};
ghost use Rattle.kfifo_renewing.specs.Cells.{CallsCell, CallsFirst, CallsNewest, CallsOnce, PublishesNext};
ghost use Rattle.kfifo_renewing.specs.Cells.{ReceivesOldest, ReservesNewest, ReservesOne, TriesToReserve};
ghost use Rattle.kfifo_renewing.specs.Joining.{IsSamePart};
ghost use Rattle.kfifo_renewing.specs.Memory.{cell_reserved};
ghost use Rattle.kfifo_renewing.specs.Renewing.{with_older};

use crate::generation::Generation;
use crate::handle::RenewingHandle;
use crate::joined::Joined;
use crate::kind::Cells;
use crate::leaving::Leaving;
use crate::memory::CellAt;
use kfifo_live::{Given, Taken};
use kfifo_pool::{PooledHandle, PooledQueue};

/// A call with the cell that a handle has in a generation.
#[derive(Clone, Copy)]
pub enum CellCall {
    /// Puts the cell that is reserved into the queue.
    Publish,
    /// Gives the cell that is reserved back.
    Cancel,
    /// Releases the cell that was received.
    Release,
}

/// What a call came to that only does something where there is such a cell.
fn done_if(did: bool) -> Given<()>
    ensures { MatchBool did (result ≡ Given.Done) (result ≡ Given.NoToken tt) }
{
    if did { Given::Done } else { Given::NoToken(()) }
}

/// Makes this call in a generation, whose queue this is. NoToken where the handle has no such cell there.
#[inline(always)]
fn call_cell(handle: &mut PooledHandle<()>, queue: &PooledQueue<()>, call: CellCall) -> Given<()>
    requires of { IsPassOf queue.now handle.old.held.pass.pass }
    requires bare { queue.now.opened.bare ≡ true }
    ensures same { IsSamePass handle.old.held.pass.pass handle.new.held.pass.pass }
    ensures calls { CallsCell call result handle.old handle.new }
{
    match call {
        CellCall::Publish => handle.publish_cell(queue),
        CellCall::Cancel => done_if(handle.cancel_cell(queue)),
        CellCall::Release => done_if(handle.release_cell(queue)),
    }
}

impl Leaving<Joined<()>> {
    /// The cell that is reserved in the generation.
    #[inline(always)]
    pub(crate) fn reserved(&self) -> Option<CellAt>
        ensures { cell_reserved result ≡ cell_in self.now.handle.cells.reserved }
    {
        let cell = self.part.handle.reserved_cell();
        self.part.generation.memory().reserved(cell)
    }

    /// Reserves a cell of this generation, which is its own.
    #[inline(always)]
    fn reserve(&mut self, generation: &Generation<()>) -> Option<CellAt>
        requires { IsPassOf generation.now.queue self.old.handle.held.pass.pass }
        ensures same { IsSamePart self.old self.new }
        ensures reserves { ReservesCell (cell_reserved result) self.old.handle self.new.handle }
    {
        let cell = self.part.handle.reserve_cell(generation.queue());
        generation.memory().reserved(cell)
    }

    /// Makes this call in the generation, whose queue this is.
    #[inline(always)]
    fn call(&mut self, queue: &PooledQueue<()>, call: CellCall) -> Given<()>
        requires of { IsPassOf queue.now self.old.handle.held.pass.pass }
        requires bare { queue.now.opened.bare ≡ true }
        ensures same { IsSamePart self.old self.new }
        ensures calls { CallsCell call result self.old.handle self.new.handle }
    {
        call_cell(&mut self.part.handle, queue, call)
    }

    /// Makes this call in the generation.
    pub(crate) fn call_here(&mut self, call: CellCall) -> Given<()>
        requires { self.old.handle.held.pass.pass.opened.bare ≡ true }
        ensures same { IsSamePart self.old self.new }
        ensures calls { CallsCell call result self.old.handle self.new.handle }
    {
        call_cell(&mut self.part.handle, self.part.generation.queue(), call)
    }
}

impl RenewingHandle<(), Cells> {
    /// Makes this call in the first of the older generations in which the handle has such a cell.
    #[inline(always)]
    fn call_older(&mut self, call: CellCall) -> Given<()>
        ensures same { self.new ≡ with_older self.old self.new.older }
        ensures calls { CallsFirst call result self.old.older self.new.older }
    {
        self.older.call(call)
    }

    /// Makes this call in the newest generation. If that has no version left, it opens the next one.
    #[inline(always)]
    fn call_newest(&mut self, call: CellCall) -> Given<()>
        ensures { CallsNewest call result self.old self.new }
    {
        let answer = self.newest.call(self.generation.queue(), call);
        if let Given::Worn(()) = answer {
            self.renew();
        }
        answer
    }

    /// Makes this call in the generation in which the handle has such a cell.
    #[inline(always)]
    fn call(&mut self, call: CellCall) -> Given<()>
        ensures { CallsOnce call result self.old self.new }
    {
        match self.call_older(call) {
            Given::NoToken(()) => self.call_newest(call),
            answer => answer,
        }
    }

    /// Reserves a cell of the newest generation, once the handle has followed others to it.
    #[inline(always)]
    fn try_to_reserve(&mut self) -> Option<CellAt>
        ensures { TriesToReserve (cell_reserved result) self.old self.new }
    {
        if !self.keep_up() {
            return None;
        }
        self.newest.reserve(&self.generation)
    }

    /// Reserves a cell of the newest generation, or of the next one where that has none and the queue may have more.
    #[inline(always)]
    fn reserve_newest(&mut self) -> Option<CellAt>
        ensures { ReservesNewest (cell_reserved result) self.old self.new }
    {
        self.count_give();
        match self.try_to_reserve() {
            Some(cell) => Some(cell),
            None => {
                if !self.shared.grows() {
                    return None;
                }
                self.reserve_more()
            }
        }
    }

    /// Reserves a cell of the next generation, where the queue may have more.
    #[cold]
    #[inline(never)]
    fn reserve_more(&mut self) -> Option<CellAt>
        ensures { TriesToReserve (cell_reserved result) self.old self.new }
    {
        self.open_more();
        self.try_to_reserve()
    }

    /// Reserves a cell, which is this handle's alone until it is published or cancelled. Where one is reserved already,
    /// it is that one.
    ///
    /// The handle first follows others that have opened a newer generation, and reserves a cell of that. Returns None
    /// where no cell is free: then the queue's capacity is in it or in hands. Where the queue may grow, it opens the
    /// next generation first: `lacks_memory` says whether memory was missing for that. Returns None as well where
    /// others opened generations all the time. It never waits or locks, and allocates only where it opens a generation,
    /// or joins a tenth one that growth has not opened.
    #[inline(always)]
    pub fn reserve(&mut self) -> Option<CellAt>
        ensures { ReservesOne (cell_reserved result) self.old self.new }
    {
        // The look at the newest comes before the handle follows others: then that is an older one.
        match self.older.reserved() {
            Some(cell) => Some(cell),
            None => match self.newest.reserved() {
                Some(cell) => Some(cell),
                None => self.reserve_newest(),
            },
        }
    }

    /// Puts the cell that is reserved into the queue of its generation, as `PooledHandle::publish_cell` does. A refusal
    /// leaves it reserved.
    ///
    /// Returns Done, Full, Busy or Worn; NoToken, with nothing done, where no cell is reserved. Worn comes where the
    /// generation has no version left: reserve a cell of the next generation then with `reserve_next`, copy what is in
    /// this one into it, and publish that with `publish_next`.
    #[inline(always)]
    pub fn publish(&mut self) -> Given<()>
        ensures { CallsOnce CellCall.Publish result self.old self.new }
    {
        self.call(CellCall::Publish)
    }

    /// Reserves a cell of the newest generation, as `reserve` does, but beside one that is reserved in an older
    /// generation. So that one stays as it is while what is in it is copied.
    ///
    /// Where a cell of the newest generation is reserved already, it is that one. Returns None where `reserve` does.
    pub fn reserve_next(&mut self) -> Option<CellAt>
        ensures { ReservesNewest (cell_reserved result) self.old self.new }
    {
        self.reserve_newest()
    }

    /// Puts the cell that is reserved in the newest generation into the queue. If that is done, it gives the cell back
    /// that is reserved in an older generation. Otherwise it gives back that of the newest one, so the older one is
    /// still reserved.
    ///
    /// Returns what `publish` does. Worn comes where the newest generation has no version left either.
    pub fn publish_next(&mut self) -> Given<()>
        ensures { PublishesNext result self.old self.new }
    {
        let answer = self.call_newest(CellCall::Publish);
        if let Given::Done = answer {
            self.call(CellCall::Cancel);
        } else {
            self.call_newest(CellCall::Cancel);
        }
        answer
    }

    /// Gives the cell that is reserved back. Returns Done, or NoToken, with nothing done, where none is.
    pub fn cancel(&mut self) -> Given<()>
        ensures { CallsOnce CellCall.Cancel result self.old self.new }
    {
        self.call(CellCall::Cancel)
    }

    /// Releases the cell that was received. Returns Done, or NoToken, with nothing done, where none was, or it was
    /// released.
    #[inline(always)]
    pub fn release(&mut self) -> Given<()>
        ensures { CallsOnce CellCall.Release result self.old self.new }
    {
        self.call(CellCall::Release)
    }

    /// Releases the cell that was received before, and takes one of the k oldest cells of the oldest generation that
    /// has one. The cell is then this handle's alone, until it receives another one or releases it.
    ///
    /// Returns Got with the cell, Empty, Busy or Worn, as `take` does for payloads.
    #[inline(always)]
    pub fn receive(&mut self) -> Taken<CellAt>
        ensures { ReceivesOldest result self.old self.new }
    {
        self.release();
        self.take_in_order()
    }
}
