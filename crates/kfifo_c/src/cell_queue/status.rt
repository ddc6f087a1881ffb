//! The numbers that C gets from the calls with cells.
ghost use Rattle.std.specs.Prelude.{◌≡◌, Some};
ghost use Rattle.kfifo_c.specs.CellCalls.{call_number};

use crate::status::BAD_CALL;
use crate::value_queue::status::given_status;
use kfifo_live::Given;

/// The number of what a call with a cell came to.
#[inline(always)]
pub(crate) fn call_status(given: &Given<()>) -> u32
    ensures { result ≡ call_number (Some given.now) }
{
    match given {
        Given::NoToken(()) => BAD_CALL,
        given => given_status(given),
    }
}
