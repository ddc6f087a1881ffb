//! Calls as C has them, and the log that they are.
ghost use Rattle.std.specs.Prelude.{◌≡◌, IfOk, MatchResult, position};
ghost use Rattle.kfifo_judge_c.specs.Lines as specs;
ghost use Rattle.kfifo_judge_c.specs.Lines.{IsCallsFault, IsLogOfCalls, answer_of, end_of, is_unknown, item_of, op_of};
ghost use Rattle.kfifo_judge_c.specs.Lines.{word_of};

use kfifo_import::{
    ImportFault, Line, Log, MAX_LOG_CALLS, log_to_judge, put_answer, small, take_answer,
};
use kfifo_model::{Answer, AnswerWord, Call, End, Op};
use std::alloc::{AllocError, Global};

/// The operation of a put.
pub(crate) const PUT: u8 = 0;
/// The operation of a get.
pub(crate) const GET: u8 = 1;

/// The call has not returned.
pub(crate) const UNFINISHED: u8 = 0;
/// The item is in the queue.
pub(crate) const DONE: u8 = 1;
/// The queue was full.
pub(crate) const FULL: u8 = 2;
/// An item was taken.
pub(crate) const GOT: u8 = 3;
/// The queue was empty.
pub(crate) const EMPTY: u8 = 4;
/// The call gave up because of others.
pub(crate) const BUSY: u8 = 5;
/// The queue can never again take such a call.
pub(crate) const WORN: u8 = 6;

/// A call of a log, as C has it: `kfifo_judge_call` in `c/include/kfifo_judge.h`.
#[repr(C)]
#[derive(Clone, Copy)]
pub struct LogCall {
    /// When it began.
    pub first: u64,
    /// When it ended; of an unfinished call it is not read.
    pub last: u64,
    /// The item of a put, or that a get got; of other calls it is not read.
    pub item: u64,
    /// The thread.
    pub thread: u32,
    /// PUT or GET.
    pub op: u8,
    /// What it answered.
    pub answer: u8,
}

/// The word of an answer, Other of a number that is none.
fn word_of(answer: u8) -> AnswerWord
    ensures { result ≡ word_of answer }
{
    match answer {
        DONE => AnswerWord::Done,
        FULL => AnswerWord::Full,
        GOT => AnswerWord::Got,
        EMPTY => AnswerWord::Empty,
        BUSY => AnswerWord::Busy,
        WORN => AnswerWord::Worn,
        _ => AnswerWord::Other,
    }
}

/// The answer of a call that has ended.
fn answer_of(call: LogCall) -> Answer
    ensures { result ≡ answer_of call }
{
    let word = word_of(call.answer);
    if call.op == PUT {
        put_answer(word)
    } else {
        take_answer(word, small(call.item))
    }
}

/// What a call was to do.
fn op_of(call: LogCall) -> Op
    ensures { result ≡ op_of call }
{
    if call.op == PUT {
        Op::Enqueue(small(call.item))
    } else {
        Op::Dequeue
    }
}

/// How a call ended, if it did.
fn end_of(call: LogCall) -> Option<End>
    ensures { result ≡ end_of call }
{
    if call.answer == UNFINISHED {
        None
    } else {
        Some(End {
            last: call.last,
            answer: answer_of(call),
        })
    }
}

/// The item that stands in the line of a call.
fn item_of(call: LogCall) -> Option<u64>
    ensures { result ≡ item_of call }
{
    if call.op == PUT || call.answer == GOT {
        Some(call.item)
    } else {
        None
    }
}

/// The line with this number of a log.
fn line_of(number: u64, call: LogCall) -> Line
    ensures { result ≡ specs.line_of number call }
{
    Line {
        number,
        call: Call {
            thread: call.thread,
            op: op_of(call),
            first: call.first,
            end: end_of(call),
        },
        item: item_of(call),
    }
}

/// The lines of a log that has a line for each call, after its header.
fn lines_of(alloc: Global, calls: &[LogCall]) -> Result<Vec<Line>, AllocError>
    ensures { IfOk result (λ lines. lines.items ≡ specs.lines_of calls.now) }
{
    calls
        .iter()
        .enumerate()
        .map(|(place, call)| line_of(place as u64 + 2, *call))
        .collect(alloc)
}

/// The first call that is neither a put nor a get.
fn first_unknown(calls: &[LogCall]) -> Option<usize>
    ensures { result ≡ position is_unknown calls.now }
{
    calls.iter().position(|call| call.op > GET)
}

/// The log that these calls are, to be judged. The first of these faults is reported: a call that is neither a put nor
/// a get, among the first MAX_LOG_CALLS; more than MAX_LOG_CALLS calls; and then the first fault of the lines.
pub(crate) fn log_from(alloc: Global, calls: &[LogCall]) -> Result<Log, ImportFault>
    ensures { MatchResult result (λ log. IsLogOfCalls calls.now log.history log.calls.items)
        (IsCallsFault calls.now) }
{
    if let Some(place) = first_unknown(calls) {
        if place < MAX_LOG_CALLS {
            return Err(ImportFault::NotACall(place as u64 + 2));
        }
    }
    if calls.len() > MAX_LOG_CALLS {
        return Err(ImportFault::TooMany);
    }
    let lines = lines_of(alloc, calls)?;
    log_to_judge(alloc, lines)
}
