//! A seat, put behind a pointer, taken back and lent. In a file of its own, since clauses name the rows of both.
ghost use Rattle.std.specs.Prelude.{◌≡◌, Some};
ghost use Rattle.std.specs.Borrow.{sem, follows};
ghost use Rattle.kfifo_c.specs.SeatPointer.{held_with};
ghost use Rattle.kfifo_c.specs.contracts.held.Held.{the_row as held_row};

use crate::fits::Fits;
use crate::held::Held;
use crate::loose::Loose;
use crate::seating::Seating;
use std::alloc::Global;

/// The pointer to the block of this seat.
fn hold<S: Seating>(loose: Loose<S, Global>, fits: Fits<S>) -> Held
    ensures { result.value ≡ Some (S.behind loose.value) }
{
    let Loose { at, alloc: _ } = loose;
    let Fits { of: _ } = fits;
    Held { at: at as *mut u8 }
}

/// The seat's block again.
fn release<S: Seating>(held: Held, fits: Fits<S>, alloc: Global) -> Loose<S, Global>
    requires { (seat : S) × (held.value ≡ Some (S.behind seat)) }
    ensures { held.value ≡ Some (S.behind result.value) }
{
    let Held { at } = held;
    let Fits { of: _ } = fits;
    Loose {
        at: at as *mut S,
        alloc,
    }
}

/// The seat. When the borrow ends, it is behind the pointer with what was done by it.
#[inline(always)]
fn lend<S: Seating>(held: &mut Held, fits: Fits<S>) -> &mut S
    requires { (seat : S) × (held.old.value ≡ Some (S.behind seat)) }
    ensures* writes_back { sem 𝓛 (follows held_row S.row held.entry.ghost_name result.ghost_name
        (held_with S.behind held.old)) }
    ensures value { held.old.value ≡ Some (S.behind result.now) }
{
    let Fits { of: _ } = fits;
    unsafe { &mut *(held.at as *mut S) }
}

impl Held {
    /// The pointer to the block of this seat.
    pub(crate) fn of<S: Seating>(seat: Box<S, Global>) -> Held
        ensures { result.value ≡ Some (S.behind seat.value) }
    {
        hold(Loose::of(seat), S::fits())
    }

    /// The seat's block again.
    pub(crate) fn into_seat<S: Seating>(self, alloc: Global) -> Box<S, Global>
        requires { (seat : S) × (self.value ≡ Some (S.behind seat)) }
        ensures { self.value ≡ Some (S.behind result.value) }
    {
        release(self, S::fits(), alloc).into_box()
    }

    /// The seat. When the borrow ends, it is behind the pointer with what was done by it.
    #[inline(always)]
    pub(crate) fn seat_mut<S: Seating>(&mut self) -> &mut S
        requires { (seat : S) × (self.old.value ≡ Some (S.behind seat)) }
        ensures* writes_back { sem 𝓛 (follows held_row S.row self.entry.ghost_name result.ghost_name
            (held_with S.behind self.old)) }
        ensures value { self.old.value ≡ Some (S.behind result.now) }
    {
        lend(self, S::fits())
    }
}
