//! What C holds for each thread.
ghost use Rattle.std.specs.Prelude.{◌≡◌, ◌<◌, ◌↔◌, Some, IsTrue, MatchOption};
ghost use Rattle.kfifo_c.specs.Behind.{kind_of, starts_of};
ghost use Rattle.kfifo_c.specs.Fields.{AreNew};

use crate::address::no_address;
use crate::held::Held;
use crate::seating::Seating;
use std::alloc::Global;
use std::mem::replace;

/// A handle of C's, closed or open with a seat behind it. All bytes 0 is a closed one.
#[repr(C)]
#[derive(Drop)]
pub struct Handle {
    pub(crate) held: Held,
    /// Where the queue is. C tells the handles of two queues apart by it.
    pub address: *mut u8,
    /// k of a queue of items; 0 where the handle is closed, or of another kind. So the test of a start tells these too.
    pub starts: u32,
    /// ITEMS, VALUES or CELLS, and 0 where the handle is closed.
    pub kind: u32,
    /// The caller's: 0 at an opening and a close, and not read.
    pub mark: u32,
    /// Of a cell, in bytes, and 0 of another kind.
    pub size: u32,
    /// Of a cell, in bytes, and 0 of another kind.
    pub alignment: u32,
    pub ghost starts_are: { starts ≡ starts_of held.value },
    pub ghost kind_is: { kind ≡ kind_of held.value },
}

impl Handle {
    ghost use Rattle.kfifo_c.specs.Handles.{IsClosed, WasClosed, fields_of};

    /// A handle with nothing behind it.
    pub(crate) fn closed() -> Handle
        ensures { IsClosed result }
    {
        Handle {
            held: Held::empty(),
            address: no_address(),
            starts: 0,
            kind: 0,
            mark: 0,
            size: 0,
            alignment: 0,
        }
    }

    /// A handle with this seat behind it, of a queue at this address whose cells have this size and alignment.
    pub(crate) fn of<S: Seating>(
        seat: Box<S, Global>,
        address: *mut u8,
        size: u32,
        alignment: u32,
    ) -> Handle
        ensures seat { result.held.value ≡ Some (S.behind seat.value) }
        ensures fields { AreNew address S.KIND size alignment (fields_of result) }
    {
        let starts = seat.starts();
        Handle {
            held: Held::of(seat),
            address,
            starts,
            kind: S::KIND,
            mark: 0,
            size,
            alignment,
        }
    }

    /// Whether a scan by the handle may begin at this slot; by a closed handle it may at none.
    #[inline(always)]
    pub(crate) fn has_start(&self, start: u32) -> bool
        ensures { IsTrue result ↔ (start < starts_of self.now.held.value) }
    {
        start < self.starts
    }

    /// The seat behind a handle of this kind, which is then closed. Another handle stays as it is.
    pub(crate) fn take<S: Seating>(&mut self, alloc: Global) -> Option<Box<S, Global>>
        ensures value { MatchOption result (¬ (self.old.kind ≡ S.KIND))
            (λ seat. self.old.held.value ≡ Some (S.behind seat.value)) }
        ensures closed { WasClosed S.KIND self.old self.new }
    {
        if self.kind != S::KIND {
            return None;
        }
        let Handle { held, .. } = replace(self, Handle::closed());
        Some(held.into_seat(alloc))
    }
}
