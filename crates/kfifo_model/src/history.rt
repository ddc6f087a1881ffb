//! Histories: lists of calls that a queue's threads can have made.
ghost use Rattle.std.specs.Prelude.{ℕ, ◌≡◌, ◌<◌, ◌↔◌, Option, List, length, IsTrue, MatchOption, MatchResult};
ghost use Rattle.kfifo_model.specs.Validity.{IsItem, IsInRange, Answers, EndsFrom, IsHistory, IsFault};
ghost use Rattle.kfifo_model.specs.FaultNumbers.{fault_number, fault_call};

use crate::calls::{Answer, Call, End, MAX_ITEM, MAX_THREADS, Op};
use crate::so_far::CallsSoFar;
use std::alloc::{AllocError, AllocFailed};
use std::marker::Model;
use thiserror::Error;

/// What is wrong with a record, or with a list of calls: the first fault. A fault of one call carries its number.
#[derive(Clone, Copy, Debug, PartialEq, Eq, Error)]
pub enum RecordFault {
    /// 1: the record is no array.
    #[error("the record is no array")]
    NotAList,
    /// 2: there are over 65,536 calls.
    #[error("the record has over 65,536 calls")]
    TooMany,
    /// 3: no object; a key that is missing or not allowed there; a value of the wrong kind; an unknown operation.
    #[error("call {0} is no call: an object with the keys thread, op and first; item in an enq and where the answer is \
        got; last and answer both or neither; no other key; op enq or deq; whole numbers")]
    NotACall(usize),
    /// 4: the thread is not 0 to 63, or an item not 1 to 2^24 - 1.
    #[error("call {0} has a thread that is not 0 to 63 or an item that is not 1 to 16,777,215")]
    NumberOutOfRange(usize),
    /// 5: the answer is none of the operation's.
    #[error("call {0} has an answer that is none of its operation's: done, full, busy or worn of an enqueue, got, \
        empty, busy or worn of a dequeue")]
    WrongAnswer(usize),
    /// 6: the last step is less than the first.
    #[error("call {0} has a last step below its first")]
    EndsEarly(usize),
    /// 7: the first step is not greater than the one of the call before.
    #[error("call {0} has a first step that is not above that of the call before it")]
    OutOfOrder(usize),
    /// 8: an earlier call of the thread is unfinished, or does not end before this first step.
    #[error("call {0} begins before an earlier call of its thread has ended")]
    Overlap(usize),
    /// 9: an allocation failed.
    #[error("out of memory")]
    Memory,
}

impl RecordFault {
    /// The fault's number, from 1 to 9.
    pub fn number(self) -> u32
        ensures { result ≡ fault_number self }
    {
        match self {
            RecordFault::NotAList => 1,
            RecordFault::TooMany => 2,
            RecordFault::NotACall(_) => 3,
            RecordFault::NumberOutOfRange(_) => 4,
            RecordFault::WrongAnswer(_) => 5,
            RecordFault::EndsEarly(_) => 6,
            RecordFault::OutOfOrder(_) => 7,
            RecordFault::Overlap(_) => 8,
            RecordFault::Memory => 9,
        }
    }

    /// The number of the faulty call, where the fault is one of a call.
    pub fn call(self) -> Option<usize>
        ensures { result ≡ fault_call self }
    {
        match self {
            RecordFault::NotAList | RecordFault::TooMany | RecordFault::Memory => None,
            RecordFault::NotACall(call)
            | RecordFault::NumberOutOfRange(call)
            | RecordFault::WrongAnswer(call)
            | RecordFault::EndsEarly(call)
            | RecordFault::OutOfOrder(call)
            | RecordFault::Overlap(call) => Some(call),
        }
    }
}

impl From<AllocError> for RecordFault {
    ghost use Rattle.kfifo_model.specs.declared.history.RecordFault.TheVariants.{Memory};

    ghost from_gives = { λ _ fault. fault ≡ Memory };

    fn from(_: AllocError) -> RecordFault {
        RecordFault::Memory
    }
}

impl<T: Drop> From<AllocFailed<T>> for RecordFault {
    ghost use Rattle.kfifo_model.specs.declared.history.RecordFault.TheVariants.{Memory};

    ghost from_gives = { λ _ fault. fault ≡ Memory };

    fn from(_failed: AllocFailed<T>) -> RecordFault {
        RecordFault::Memory
    }
}

/// Calls in ascending order of first step. Calls of one thread do not overlap.
#[derive(Drop)]
pub struct History {
    calls: Vec<Call>,
}

impl Model for History {
    ghost use Rattle.std.specs.Prelude.{List};
    ghost use Rattle.kfifo_model.specs.declared.calls.Call.{Call};
    ghost use Rattle.kfifo_model.specs.Validity.{IsHistory};

    ghost Value = { List Call };

    ghost view = { λ a. a.calls.items };

    ghost invariant = { λ a. IsHistory a.calls.items };
}

/// Whether an item may be enqueued: it is 1 to 2^24 - 1.
pub(crate) fn is_item(x: u32) -> bool
    ensures { IsTrue result ↔ IsItem x }
{
    0 < x && x <= MAX_ITEM
}

/// Whether the thread is 0 to 63 and the items are 1 to 2^24 - 1.
fn is_in_range(call: &Call) -> bool
    ensures { IsTrue result ↔ IsInRange call.now }
{
    let op = match call.op {
        Op::Enqueue(x) => is_item(x),
        Op::Dequeue => true,
    };
    let end = match call.end {
        Some(
            End {
                answer: Answer::Got(x),
                ..
            },
        ) => is_item(x),
        _ => true,
    };
    call.thread < MAX_THREADS && op && end
}

/// Whether the answer is one of the operation's.
fn answers(call: &Call) -> bool
    ensures { IsTrue result ↔ Answers call.now.op call.now.end }
{
    match (call.op, call.end) {
        (Op::Enqueue(_), Some(end)) => match end.answer {
            Answer::Done | Answer::Full | Answer::Busy | Answer::Worn => true,
            Answer::Got(_) | Answer::Empty => false,
        },
        (Op::Dequeue, Some(end)) => match end.answer {
            Answer::Got(_) | Answer::Empty | Answer::Busy | Answer::Worn => true,
            Answer::Done | Answer::Full => false,
        },
        (_, None) => true,
    }
}

/// Whether the last step is no less than the first.
pub(crate) fn ends_from(call: &Call) -> bool
    ensures { IsTrue result ↔ EndsFrom call.now.first call.now.end }
{
    match &call.end {
        Some(end) => call.first <= end.last,
        None => true,
    }
}

/// The first fault of a list of calls.
fn first_fault(calls: &[Call]) -> Option<RecordFault>
    ensures { MatchOption result (IsHistory calls.now) (IsFault calls.now) }
{
    let mut so_far = CallsSoFar::new();
    for (n, call) in calls.iter().enumerate() {
        if !is_in_range(call) {
            return Some(RecordFault::NumberOutOfRange(n));
        }
        if !answers(call) {
            return Some(RecordFault::WrongAnswer(n));
        }
        if !ends_from(call) {
            return Some(RecordFault::EndsEarly(n));
        }
        if !so_far.rises(call) {
            return Some(RecordFault::OutOfOrder(n));
        }
        if !so_far.lets(call) {
            return Some(RecordFault::Overlap(n));
        }
        so_far.note(call);
    }
    None
}

impl History {
    /// Returns the calls as a history. They have to be in ascending order of first step. It takes no memory.
    ///
    /// ```rust
    /// let history = History::new(made)?;
    /// ```
    ///
    /// Refuses the calls for the first call that has a fault, and for its first fault. Each fault carries the number of
    /// the call, from 0: NumberOutOfRange where the thread is not 0 to 63 or an item not 1 to 2^24 - 1; WrongAnswer
    /// where the operation has no such answer; EndsEarly where the last step is below the first; OutOfOrder where the
    /// first step is not above the one of the call before; Overlap where an earlier call of the thread has not ended
    /// before it.
    pub fn new(calls: Vec<Call>) -> Result<Self, RecordFault>
        ensures { MatchResult result (λ h. (h ≡ calls.items) × IsHistory calls.items) (IsFault calls.items) }
    {
        match first_fault(&calls) {
            Some(fault) => Err(fault),
            None => Ok(History { calls }),
        }
    }

    /// Calls that are known to be a history.
    pub(crate) fn of_valid(calls: Vec<Call>) -> Self
        requires { IsHistory calls.items }
        ensures { result ≡ calls.items }
    {
        History { calls }
    }

    /// The calls, by their numbers.
    pub fn calls(&self) -> &[Call]
        ensures calls { result.now ≡ self.now }
        ensures valid { IsHistory self.now }
    {
        &self.calls
    }

    /// The calls, given back without taking memory.
    pub fn into_calls(self) -> Vec<Call>
        ensures calls { result.items ≡ self }
        ensures valid { IsHistory self }
    {
        let History { calls } = self;
        calls
    }
}
