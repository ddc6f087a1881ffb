//! What C holds of the cells that were left in a closed queue.
ghost use Rattle.std.specs.Prelude.{◌≡◌, ⊤, None, Option, Some, MatchOption};
ghost use Rattle.kfifo_renewing.specs.declared.memory.CellAt.{CellAt as HasCellAt};
ghost use Rattle.kfifo_c.specs.Behind.{Left, left_holds_of, left_in};
ghost use Rattle.kfifo_c.specs.CellCalls.{TakesNext, cell_after_reserve, next_number};
ghost use Rattle.kfifo_c.specs.Exports.{Tries};

use crate::cell_queue::left_seat::LeftSeat;
use crate::held::Held;
use crate::status::{BAD_CALL, DONE, EMPTY};
use kfifo_renewing::CellAt;
use std::alloc::Global;
use std::mem::replace;

/// What C holds of the cells that were left. All bytes 0 is nothing.
#[repr(C)]
#[derive(Drop)]
pub struct LeftHandle {
    pub(crate) held: Held,
    // 1, and 0 where there is nothing.
    pub(crate) holds: u32,
    pub ghost holds_are: { holds ≡ left_holds_of held.value },
}

impl LeftHandle {
    /// Nothing.
    pub(crate) fn closed() -> LeftHandle
        ensures { result.held.value ≡ None }
    {
        LeftHandle {
            held: Held::empty(),
            holds: 0,
        }
    }

    /// These cells.
    pub(crate) fn of(seat: Box<LeftSeat, Global>) -> LeftHandle
        ensures { result.held.value ≡ Some (Left seat.value) }
    {
        LeftHandle {
            held: Held::of(seat),
            holds: 1,
        }
    }

    /// The cells, of which nothing is held any more.
    pub(crate) fn take(&mut self, alloc: Global) -> Option<Box<LeftSeat, Global>>
        ensures value { MatchOption result (left_in self.old.held.value ≡ None)
            (λ seat. self.old.held.value ≡ Some (Left seat.value)) }
        ensures closed { self.new.held.value ≡ None }
    {
        let LeftHandle { held, holds } = replace(self, LeftHandle::closed());
        if holds == 0 {
            return None;
        }
        Some(held.into_seat(alloc))
    }
}

/// Writes where the next one of the cells lies that were left, those of the oldest generation first, and returns DONE.
/// It stays there until `kfifo_c_free_left`. Returns EMPTY, and writes nothing, where there is none any more; BAD_CALL
/// where nothing is held.
#[unsafe(no_mangle)]
pub extern "C" fn kfifo_c_next_left(left: &mut LeftHandle, cell: &mut CellAt) -> u32
    ensures { (answer : Option (Option HasCellAt)) × (result ≡ next_number answer)
        × (cell.new ≡ cell_after_reserve cell.old answer)
        × Tries Left (λ _. ⊤) TakesNext answer left.old.held.value left.new.held.value }
{
    if left.holds == 0 {
        return BAD_CALL;
    }
    let Some(next) = left.held.seat_mut::<LeftSeat>().take_next() else {
        return EMPTY;
    };
    *cell = next;
    DONE
}

/// Frees the memory of the cells that were left. What is in them is lost.
#[unsafe(no_mangle)]
pub extern "C" fn kfifo_c_free_left(alloc: Global, left: &mut LeftHandle)
    ensures { left.new.held.value ≡ None }
{
    let _seat = left.take(alloc);
}
