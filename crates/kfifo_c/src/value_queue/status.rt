//! The numbers that C gets from the calls with values.
ghost use Rattle.std.specs.Prelude.{◌≡◌, Some};
ghost use Rattle.kfifo_c.specs.Values.{given_number, taken_number};

use crate::status::{DONE, FULL};
use kfifo_live::{Given, Taken};

/// The number of what a give came to.
#[inline(always)]
pub(crate) fn given_status<T>(given: &Given<T>) -> u32
    ensures { result ≡ given_number (Some given.now) }
{
    match given {
        Given::Done => DONE,
        Given::Full(_) | Given::NoToken(_) => FULL,
        Given::Busy(_) => 4,
        Given::Worn(_) => 5,
    }
}

/// The number of a take that came to a value.
pub(crate) const GOT: u32 = 2;

/// The number of what a take came to.
#[inline(always)]
pub(crate) fn taken_status<T>(taken: &Taken<T>) -> u32
    ensures { result ≡ taken_number (Some taken.now) }
{
    match taken {
        Taken::Got(_) => GOT,
        Taken::Empty => 3,
        Taken::Busy => 4,
        Taken::Worn => 5,
    }
}

/// The same for a take that came to no value.
// Out of line, it leaves a take that came to a value a single test.
#[cold]
#[inline(never)]
pub(crate) fn nothing_status(taken: Taken<u64>) -> u32
    ensures { result ≡ taken_number (Some taken) }
{
    taken_status(&taken)
}
