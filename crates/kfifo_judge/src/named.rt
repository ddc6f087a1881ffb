//! The calls that a reason names, as data.
ghost use Rattle.std.specs.Prelude.{◌≡◌};
ghost use Rattle.kfifo_judge.specs.Named as specs;

use crate::calls::{call_at, item_in, logged_at, occurrence_of};
use kfifo_model::{Call, Effect, History, LoggedCall};

/// A call that a reason names. Its line, its times and its item are as its log has them if it is one of a log.
#[derive(Clone, Copy, Debug, PartialEq, Eq)]
pub struct NamedCall {
    /// The number of the call, from 0.
    pub number: usize,
    /// The line of the log that it stands in, from 1; none of a call of a record.
    pub line: Option<u64>,
    /// The item that it put or got, 0 where it did neither.
    pub item: u64,
    /// When it began.
    pub first: u64,
    /// When it ended; none of an unfinished call.
    pub last: Option<u64>,
    /// The call in the history.
    pub call: Call,
}

/// The item that is put or taken, 0 where none is.
fn moved(effect: Effect) -> u32
    ensures { result ≡ specs.moved effect }
{
    match effect {
        Effect::Adds(item) | Effect::Takes(item) => item,
        _ => 0,
    }
}

/// Returns the call with this number. `logged` has what the log says of each call, where the history is the record of a
/// log.
pub fn named_call(history: &History, logged: &[LoggedCall], number: usize) -> NamedCall
    ensures { result ≡ specs.named_call logged.now history.now number }
{
    let call = call_at(history, number);
    let occurrence = occurrence_of(logged, &call, number);
    NamedCall {
        number,
        line: occurrence.line,
        item: item_in(logged_at(logged, number), moved(call.effect())),
        first: occurrence.first,
        last: occurrence.last,
        call,
    }
}
