//! The tests, by what they are about.

use kfifo_model::{Answer, Call, End, Op};

mod draw;
mod explain;
mod import;
mod judge;
mod plain;
mod verdict;

/// A finished call.
fn ended(thread: u32, op: Op, first: u64, last: u64, answer: Answer) -> Call {
    Call {
        thread,
        op,
        first,
        end: Some(End { last, answer }),
    }
}

/// A call that has not ended.
fn begun(thread: u32, op: Op, first: u64) -> Call {
    Call {
        thread,
        op,
        first,
        end: None,
    }
}
