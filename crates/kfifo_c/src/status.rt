//! The numbers that C gets: the members of `enum kfifo_status` in `c/include/kfifo.h`.
ghost use Rattle.std.specs.Prelude.{◌≡◌};
ghost use Rattle.kfifo_c.specs.Exports.{number_of, shape_number, open_number};
ghost use Rattle.kfifo_c.specs.Openings.{renew_number, sizes_number};

use kfifo_live::{OpenFault, SizesFault};
use kfifo_model::Answer;
use kfifo_renewing::RenewFault;
use kfifo_words::ShapeFault;

/// The call did what it is for; of an enqueue: its item is in the queue, or was already taken.
pub(crate) const DONE: u32 = 0;
/// The ring was seen full, or there is no room for a value, or no cell is free.
pub(crate) const FULL: u32 = 1;
/// Nothing is left.
pub(crate) const EMPTY: u32 = 3;
/// The call may not be made, and nothing was done.
pub(crate) const BAD_CALL: u32 = 6;
/// An allocation failed.
pub(crate) const NO_MEMORY: u32 = 7;
/// The number of threads is not 1 to 64.
pub(crate) const BAD_THREADS: u32 = 8;
/// k is not 1 to 64.
pub(crate) const BAD_K: u32 = 11;
/// The greatest version is not 2 to 2^40 - 1.
pub(crate) const BAD_LAST: u32 = 13;
/// The reserve of versions is not below the greatest version.
pub(crate) const BAD_RESERVE: u32 = 18;
/// The capacity is 0, or greater than a queue of so many threads with this k can have.
pub(crate) const BAD_CAPACITY: u32 = 19;
/// The alignment of a cell is no power of two from 1 to 4,096, or its size is 0 or no multiple of that.
pub(crate) const BAD_LAYOUT: u32 = 20;
/// The queue was closed, and an allocation failed, so the items that were left are lost.
pub(crate) const LOST: u32 = 9;

/// The number of a call's answer, if it was made. In this order it is how the compiler stores the answer, so it costs
/// nothing.
#[inline(always)]
pub(crate) fn status(answer: Option<Answer>) -> u32
    ensures { result ≡ number_of answer }
{
    match answer {
        Some(Answer::Done) => DONE,
        Some(Answer::Full) => 1,
        Some(Answer::Got(_)) => 2,
        Some(Answer::Empty) => 3,
        Some(Answer::Busy) => 4,
        Some(Answer::Worn) => 5,
        None => BAD_CALL,
    }
}

/// The number of a shape that there is not.
pub(crate) fn shape_status(fault: ShapeFault) -> u32
    ensures { result ≡ shape_number fault }
{
    10 + fault.number()
}

/// The number of sizes that there are not.
pub(crate) fn sizes_status(fault: SizesFault) -> u32
    ensures { result ≡ sizes_number fault }
{
    match fault {
        SizesFault::ThreadsOutOfRange => BAD_THREADS,
        SizesFault::KOutOfRange => BAD_K,
        SizesFault::LastOutOfRange => BAD_LAST,
        SizesFault::CapacityOutOfRange(_) => BAD_CAPACITY,
    }
}

/// The number of an opening that was refused.
pub(crate) fn open_status(fault: OpenFault) -> u32
    ensures { result ≡ open_number fault }
{
    match fault {
        OpenFault::ThreadsOutOfRange => BAD_THREADS,
        // No queue of C's is refused for a number of tokens or of stamped calls.
        OpenFault::Memory | OpenFault::TokensOutOfRange | OpenFault::CallsOutOfRange => NO_MEMORY,
    }
}

/// The number of an opening by capacity that was refused.
pub(crate) fn renew_status(fault: RenewFault) -> u32
    ensures { result ≡ renew_number fault }
{
    match fault {
        RenewFault::Open(fault) => open_status(fault),
        RenewFault::ReserveOutOfRange => BAD_RESERVE,
        RenewFault::GenerationsOutOfRange(_) => BAD_CALL,
    }
}
