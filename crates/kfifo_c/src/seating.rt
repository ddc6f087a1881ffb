//! What may stand behind a pointer of C's.
ghost use Rattle.std.specs.Prelude.{◌≡◌, ℕ, Option, Some};
ghost use Rattle.kfifo_c.specs.Behind.{Behind, Items, Values, Cells, Left, kind_of, starts_of};
ghost use Rattle.kfifo_c.specs.Behind.{items_found, values_found, cells_found, left_found};
ghost use mathlib.Core.Path.{refl};

use crate::cell_queue::left_seat::LeftSeat;
use crate::cell_queue::seat::CellSeat;
use crate::fits::Fits;
use crate::kind::{CELLS, ITEMS, LEFT, VALUES};
use crate::seat::Seat;
use crate::value_queue::seat::ValueSeat;
use std::marker::PhantomData;

/// A seat of one kind.
pub trait Seating: Drop + Sized {
    ghost behind: { Self → Behind };

    ghost KIND: { ℕ };

    /// The kind of its handles.
    const KIND: u32;

    /// From how many slots a scan may begin by a handle with it.
    fn starts(&self) -> u32
        ensures { result ≡ starts_of (Some (behind self.now)) };

    /// That the block of such a seat is what a `Held` owns.
    fn fits() -> Fits<Self>;

    ghost found: { (o : Option Behind) → kind_of o ≡ KIND → (seat : Self) × (o ≡ Some (behind seat)) };

    ghost kind_is: { (seat : Self) → kind_of (Some (behind seat)) ≡ KIND };
}

impl Seating for Seat {
    ghost behind = { λ seat. Items seat };

    ghost KIND = { 1 };

    const KIND: u32 = ITEMS;

    fn starts(&self) -> u32 {
        self.k()
    }

    fn fits() -> Fits<Seat> {
        Fits { of: PhantomData }
    }

    ghost found = { items_found };

    ghost kind_is = { λ seat. refl };
}

impl Seating for ValueSeat {
    ghost behind = { λ seat. Values seat };

    ghost KIND = { 2 };

    const KIND: u32 = VALUES;

    fn starts(&self) -> u32 {
        0
    }

    fn fits() -> Fits<ValueSeat> {
        Fits { of: PhantomData }
    }

    ghost found = { values_found };

    ghost kind_is = { λ seat. refl };
}

impl Seating for CellSeat {
    ghost behind = { λ seat. Cells seat };

    ghost KIND = { 3 };

    const KIND: u32 = CELLS;

    fn starts(&self) -> u32 {
        0
    }

    fn fits() -> Fits<CellSeat> {
        Fits { of: PhantomData }
    }

    ghost found = { cells_found };

    ghost kind_is = { λ seat. refl };
}

impl Seating for LeftSeat {
    ghost behind = { λ seat. Left seat };

    ghost KIND = { 4 };

    const KIND: u32 = LEFT;

    fn starts(&self) -> u32 {
        0
    }

    fn fits() -> Fits<LeftSeat> {
        Fits { of: PhantomData }
    }

    ghost found = { left_found };

    ghost kind_is = { λ seat. refl };
}
