//! What a handle of a queue of cells stands for.
ghost use Rattle.std.specs.Prelude.{◌≡◌};
ghost use Rattle.kfifo_renewing.specs.Cells.{CallsOnce, PublishesNext, ReceivesOldest, ReservesNewest, ReservesOne};
ghost use Rattle.kfifo_renewing.specs.Renewing.{Counts};
ghost use Rattle.kfifo_renewing.specs.Memory.{cell_reserved};
ghost use Rattle.kfifo_renewing.specs.declared.cells.CellCall.TheVariants.{Cancel, Publish, Release};
ghost use Rattle.kfifo_c.specs.CellSeats.{CellSeated};

use kfifo_live::{Given, Taken};
use kfifo_renewing::{CellAt, Cells, RenewingHandle};
use std::marker::Model;

/// A handle of a queue of cells that does not wear out, with how many handles its queue has.
#[derive(Drop)]
pub struct CellSeat {
    pub(crate) handle: RenewingHandle<(), Cells>,
    pub(crate) threads: u32,
    // Each call writes to its seat. This keeps the seats of two threads from lying in one line of the cache.
    pub(crate) apart: [u64; 8],
}

impl Model for CellSeat {
    ghost Value = { CellSeated };

    ghost view = { λ s. s.handle };

    ghost invariant = { λ s. s.threads ≡ s.handle.opened.threads };
}

impl CellSeat {
    /// A seat for this handle of a queue with so many.
    pub(crate) fn new(handle: RenewingHandle<(), Cells>, threads: u32) -> CellSeat
        requires { threads ≡ handle.opened.threads }
        ensures { result ≡ handle }
    {
        CellSeat {
            handle,
            threads,
            apart: [0; 8],
        }
    }

    /// The number of the queue's handles.
    pub(crate) fn threads(&self) -> u32
        ensures { result ≡ self.now.opened.threads }
    {
        self.threads
    }

    /// About how many cells are in the queue, once the handle has followed others.
    pub(crate) fn len(&mut self) -> usize
        ensures { Counts result self.old self.new }
    {
        self.handle.len()
    }

    /// As `RenewingHandle::lacks_memory`.
    pub(crate) fn lacks_memory(&mut self) -> bool
        ensures { self.new ≡ self.old }
    {
        self.handle.lacks_memory()
    }

    /// Where the queue is.
    pub(crate) fn address(&self) -> *mut u8 {
        self.handle.address()
    }

    /// The handle.
    pub(crate) fn into_handle(self) -> RenewingHandle<(), Cells>
        ensures { result ≡ self }
    {
        let CellSeat { handle, .. } = self;
        handle
    }

    /// Reserves a cell, or finds the one that is reserved.
    #[inline(always)]
    pub(crate) fn reserve(&mut self) -> Option<CellAt>
        ensures { ReservesOne (cell_reserved result) self.old self.new }
    {
        self.handle.reserve()
    }

    /// Puts the cell that is reserved into the queue.
    #[inline(always)]
    pub(crate) fn publish(&mut self) -> Given<()>
        ensures { CallsOnce Publish result self.old self.new }
    {
        self.handle.publish()
    }

    /// Reserves a cell of the newest generation, or finds the one that is reserved there.
    pub(crate) fn reserve_next(&mut self) -> Option<CellAt>
        ensures { ReservesNewest (cell_reserved result) self.old self.new }
    {
        self.handle.reserve_next()
    }

    /// Puts the cell that is reserved in the newest generation into the queue, in place of an older one.
    pub(crate) fn publish_next(&mut self) -> Given<()>
        ensures { PublishesNext result self.old self.new }
    {
        self.handle.publish_next()
    }

    /// Gives the cell that is reserved back.
    pub(crate) fn cancel(&mut self) -> Given<()>
        ensures { CallsOnce Cancel result self.old self.new }
    {
        self.handle.cancel()
    }

    /// Releases the cell that was received before, and takes one of the k oldest cells of the oldest generation that
    /// has one.
    #[inline(always)]
    pub(crate) fn receive(&mut self) -> Taken<CellAt>
        ensures { ReceivesOldest result self.old self.new }
    {
        self.handle.receive()
    }

    /// Releases the cell that was received.
    #[inline(always)]
    pub(crate) fn release(&mut self) -> Given<()>
        ensures { CallsOnce Release result self.old self.new }
    {
        self.handle.release()
    }
}
