//! Events of a schedule.
ghost use Rattle.std.specs.Prelude.{◌≡◌};

use kfifo_model::Answer;
use thiserror::Error;

/// What an idle thread begins.
#[derive(Clone, Copy, PartialEq, Eq, Debug)]
pub enum Begin {
    /// An enqueue of an item, 1 to 2^24 - 1, that scans from slot `start`, below k, in at most
    /// `turns` rounds, at least 1.
    Enqueue { item: u32, start: u32, turns: u16 },
    /// A dequeue that scans from slot `start`, below k, in at most `turns` rounds, at least 1.
    Dequeue { start: u32, turns: u16 },
    /// One fetch-and-add of 1 on the clock. It is no call.
    Tick,
    /// One compare-and-exchange of the ends word that is won, from a word whose head and tail are in one segment to the
    /// same with the last version. No end moves after it. It is no call, and where it would be lost it is no event.
    Seal,
}

/// One atomic step of one thread. A dequeue of an empty queue with k = 1 loads the ends word, a slot and the ends word:
///
/// ```rust
/// let first = Event {
///     thread: 0,
///     begin: Some(Begin::Dequeue { start: 0, turns: 1 }),
/// };
/// let next = Event {
///     thread: 0,
///     begin: None,
/// };
/// let events = [first, next, next];
/// ```
#[derive(Clone, Copy, PartialEq, Eq, Debug)]
pub struct Event {
    /// The thread that makes the step.
    pub thread: u32,
    /// What an idle thread begins with this step; nothing for a thread inside a call.
    pub begin: Option<Begin>,
}

/// What an event that was made comes to.
#[derive(Clone, Copy, PartialEq, Eq, Debug)]
pub enum Outcome {
    /// The call goes on, the clock has ticked, or the ends are sealed.
    Went,
    /// The call ended with this answer.
    Ended(Answer),
}

/// Why an event cannot be made: the first of these faults that applies.
#[derive(Clone, Copy, PartialEq, Eq, Debug, Error)]
pub enum NotEnabled {
    /// 1: no thread has this number.
    #[error("no thread has this number")]
    NoSuchThread,
    /// 2: the thread is idle, and the event begins nothing.
    #[error("the thread is in no call, and the event begins none")]
    Idle,
    /// 3: the thread is inside a call, and the event begins another.
    #[error("the thread is in a call, and the event begins another")]
    InCall,
    /// 4: the start is not below k, there are no turns, or the item is out of range.
    #[error("the call's start is not 0 to k - 1, its turns are 0, or its item is not 1 to 16,777,215")]
    BadCall,
    /// 5: a tick, where the clock is 2^64 - 1.
    #[error("the clock stands at its greatest value, 2^64 - 1")]
    ClockSpent,
    /// 6: a seal, where head and tail are in two segments or the ends word has its last version.
    #[error("the head and the tail are in two segments, or the ends word has its last version")]
    NotSealable,
}

impl NotEnabled {
    ghost use Rattle.kfifo_machine.specs.Faults.{not_enabled_number};

    /// The fault's number, from 1 to 6.
    pub fn number(self) -> u32
        ensures { result ≡ not_enabled_number self }
    {
        match self {
            NotEnabled::NoSuchThread => 1,
            NotEnabled::Idle => 2,
            NotEnabled::InCall => 3,
            NotEnabled::BadCall => 4,
            NotEnabled::ClockSpent => 5,
            NotEnabled::NotSealable => 6,
        }
    }
}
