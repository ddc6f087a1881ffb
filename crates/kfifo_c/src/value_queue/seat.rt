//! What a handle of a queue of values stands for.
ghost use Rattle.std.specs.Prelude.{◌≡◌, ◌*◌, IfSome, length};
ghost use Rattle.kfifo_renewing.specs.Renewing.{Counts, Follows, GivesToNewest, TakesFromOldest, all_of};
ghost use Rattle.kfifo_c.specs.ValueSeats.{ValueSeated};

use kfifo_live::{Given, Taken};
use kfifo_renewing::RenewingHandle;
use kfifo_words::Shape;
use std::marker::Model;

/// A handle of a queue that does not wear out, with the sizes of each of its generations.
#[derive(Drop)]
pub struct ValueSeat {
    pub(crate) handle: RenewingHandle<u64>,
    pub(crate) shape: Shape,
    pub(crate) threads: u32,
    // Each call writes to its seat. This keeps the seats of two threads from lying in one line of the cache.
    pub(crate) apart: [u64; 8],
}

impl Model for ValueSeat {
    ghost Value = { ValueSeated };

    ghost view = { λ s. s.handle };

    ghost invariant = { λ s. (s.shape ≡ s.handle.opened.shape) × (s.threads ≡ s.handle.opened.threads) };
}

impl ValueSeat {
    /// A seat for this handle of a queue of such sizes.
    pub(crate) fn new(handle: RenewingHandle<u64>, shape: Shape, threads: u32) -> ValueSeat
        requires { (shape ≡ handle.opened.shape) × (threads ≡ handle.opened.threads) }
        ensures { result ≡ handle }
    {
        ValueSeat {
            handle,
            shape,
            threads,
            apart: [0; 8],
        }
    }

    /// The number of the queue's handles.
    pub(crate) fn threads(&self) -> u32
        ensures { result ≡ self.now.opened.threads }
    {
        self.threads
    }

    /// About how many values are in the queue, once the handle has followed others.
    pub(crate) fn len(&mut self) -> usize
        ensures { Counts result self.old self.new }
    {
        self.handle.len()
    }

    /// As `RenewingHandle::lacks_memory`.
    pub(crate) fn lacks_memory(&mut self) -> bool
        ensures { self.new ≡ self.old }
    {
        self.handle.lacks_memory()
    }

    /// Where the queue is.
    pub(crate) fn address(&self) -> *mut u8 {
        self.handle.address()
    }

    /// How many slots each generation of the queue has.
    pub(crate) fn slots(&self) -> usize
        ensures { result ≡ self.now.opened.shape.n * self.now.opened.shape.k }
    {
        self.shape.n() as usize * self.shape.k() as usize
    }

    /// In how many generations the handle is, once it has followed others. None where others opened new ones all the
    /// time.
    pub(crate) fn generations(&mut self) -> Option<usize>
        ensures follows { Follows self.old self.new }
        ensures count { IfSome result (λ count. count ≡ length (all_of self.new)) }
    {
        self.handle.generations()
    }

    /// The handle.
    pub(crate) fn into_handle(self) -> RenewingHandle<u64>
        ensures { result ≡ self }
    {
        let ValueSeat { handle, .. } = self;
        handle
    }

    /// Gives a value to the queue.
    #[inline(always)]
    pub(crate) fn give(&mut self, value: u64) -> Given<u64>
        ensures { GivesToNewest value result self.old self.new }
    {
        self.handle.give(value)
    }

    /// Takes one of the k oldest values of the oldest generation that has one.
    #[inline(always)]
    pub(crate) fn take(&mut self) -> Taken<u64>
        ensures { TakesFromOldest result self.old self.new }
    {
        self.handle.take()
    }
}
