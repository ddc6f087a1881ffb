//! A call of a queue, and what it returned.
ghost use Rattle.std.specs.Prelude.{◌≡◌};
ghost use Rattle.kfifo_model.specs.Histories.{effect_of};
ghost use Rattle.kfifo_model.specs.Words.{answer_word, op_word};

use crate::effects::Effect;

/// The most threads, numbered from 0.
pub const MAX_THREADS: u32 = 64;

/// The greatest item; the least is 1.
pub const MAX_ITEM: u32 = 16_777_215;

/// What a call asks for.
#[derive(Clone, Copy, Debug, PartialEq, Eq)]
pub enum Op {
    /// Put this item, from 1 to 2^24 - 1, into the queue.
    Enqueue(u32),
    /// Take one of the k oldest items.
    Dequeue,
}

impl Op {
    /// The word that records and logs have for it, whatever its item: `enq` or `deq`.
    pub fn word(self) -> &'static str
        ensures { result.now ≡ op_word self }
    {
        match self {
            Op::Enqueue(_) => "enq",
            Op::Dequeue => "deq",
        }
    }
}

/// What a call returned.
#[derive(Clone, Copy, Debug, PartialEq, Eq)]
pub enum Answer {
    /// An enqueue's item is in the queue, or was already taken.
    Done,
    /// An enqueue saw the ring full in one round.
    Full,
    /// A dequeue took this item.
    Got(u32),
    /// A dequeue found the queue empty.
    Empty,
    /// All rounds of the call ended without an answer.
    Busy,
    /// The next step would need a version above the greatest one.
    Worn,
}

impl Answer {
    /// The word that records, logs, reports and pictures have for it, whatever its item: `done`, `full`, `got`,
    /// `empty`, `busy` or `worn`.
    pub fn word(self) -> &'static str
        ensures { result.now ≡ answer_word self }
    {
        match self {
            Answer::Done => "done",
            Answer::Full => "full",
            Answer::Got(_) => "got",
            Answer::Empty => "empty",
            Answer::Busy => "busy",
            Answer::Worn => "worn",
        }
    }
}

/// The end of a finished call: its last step and its answer.
#[derive(Clone, Copy, Debug, PartialEq, Eq)]
pub struct End {
    /// The place of the call's last step.
    pub last: u64,
    /// What the call returned.
    pub answer: Answer,
}

/// A call, from its first step on. It is unfinished where it has no end.
///
/// ```rust
/// let end = End { last, answer };
/// Call {
///     thread,
///     op,
///     first,
///     end: Some(end),
/// }
/// ```
///
/// Steps are numbers of one clock that all threads share. A call precedes another if its last step is below the other's
/// first.
#[derive(Clone, Copy, Debug, PartialEq, Eq)]
pub struct Call {
    /// The number of the thread that makes the call.
    pub thread: u32,
    /// What the call asks for.
    pub op: Op,
    /// The place of the call's first step.
    pub first: u64,
    /// The last step and the answer, where the call is finished.
    pub end: Option<End>,
}

impl Call {
    /// Returns what the call does to the list of items. An unfinished enqueue puts its item in.
    pub fn effect(&self) -> Effect
        ensures { result ≡ effect_of self.now }
    {
        match (self.op, self.end.map(|end| end.answer)) {
            (Op::Enqueue(item), None | Some(Answer::Done)) => Effect::Adds(item),
            (Op::Dequeue, Some(Answer::Got(item))) => Effect::Takes(item),
            (Op::Dequeue, Some(Answer::Empty)) => Effect::FindsNone,
            (Op::Enqueue(_), Some(Answer::Full)) => Effect::Refused,
            (_, Some(Answer::Busy | Answer::Worn)) => Effect::Refused,
            _ => Effect::Wrong,
        }
    }
}
