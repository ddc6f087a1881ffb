//! The calls that a reason names, as C has them.
ghost use Rattle.std.specs.Prelude.{◌≡◌, IfOk};
ghost use Rattle.kfifo_judge_c.specs.Named as specs;
ghost use Rattle.kfifo_judge_c.specs.Named.{answer_number, calls_named, op_number};

use crate::calls::{BUSY, DONE, EMPTY, FULL, GET, GOT, LogCall, PUT, UNFINISHED, WORN};
use kfifo_judge::named_call;
use kfifo_model::{Answer, End, History, LoggedCall, Op};
use std::alloc::{AllocError, Global};

/// A call that a reason names: `kfifo_judge_named` in `c/include/kfifo_judge.h`.
#[repr(C)]
#[derive(Clone, Copy)]
pub struct NamedCall {
    /// Its number, from 0.
    pub number: usize,
    /// The line of the log that it stands in, from 1; 0 of a record.
    pub line: u64,
    /// The call; its item is 0 where it put and got none.
    pub call: LogCall,
}

/// What a call was to do, as C has it.
fn op_number(op: Op) -> u8
    ensures { result ≡ op_number op }
{
    match op {
        Op::Enqueue(_) => PUT,
        Op::Dequeue => GET,
    }
}

/// What a call answered, as C has it.
fn answer_number(end: Option<End>) -> u8
    ensures { result ≡ answer_number end }
{
    let Some(end) = end else {
        return UNFINISHED;
    };
    match end.answer {
        Answer::Done => DONE,
        Answer::Full => FULL,
        Answer::Got(_) => GOT,
        Answer::Empty => EMPTY,
        Answer::Busy => BUSY,
        Answer::Worn => WORN,
    }
}

/// The call with this number.
fn named_of(history: &History, logged: &[LoggedCall], number: usize) -> NamedCall
    ensures { result ≡ specs.named_of logged.now history.now number }
{
    let named = named_call(history, logged, number);
    NamedCall {
        number,
        line: named.line.unwrap_or(0),
        call: LogCall {
            first: named.first,
            last: named.last.unwrap_or(0),
            item: named.item,
            thread: named.call.thread,
            op: op_number(named.call.op),
            answer: answer_number(named.call.end),
        },
    }
}

/// The calls with these numbers.
pub(crate) fn calls_named(
    alloc: Global,
    history: &History,
    logged: &[LoggedCall],
    numbers: &[usize],
) -> Result<Vec<NamedCall>, AllocError>
    ensures { IfOk result (λ named. named.items ≡ calls_named logged.now history.now numbers.now) }
{
    let mut named = Vec::new(alloc);
    for number in numbers {
        named.push(named_of(history, logged, *number))?;
    }
    Ok(named)
}
