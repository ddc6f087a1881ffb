//! A thread's place in its call: the step that it makes next, and what it has read for it.

ghost use Rattle.std.specs.Prelude.{◌≡◌, IfOk, None, map};
ghost use Rattle.std.specs.List.{range_with_len};
ghost use Rattle.kfifo_machine.specs.Program.{accessed};

use kfifo_model::Answer;
use kfifo_words::{Ends, Word};
use std::alloc::{AllocError, Global};

/// What a scan of a segment came to.
#[derive(Clone, Copy, PartialEq, Eq, Debug)]
pub enum Found {
    /// It stopped at a slot: the index of its word in the table, and the word that was there.
    Slot { index: usize, word: Word },
    /// It saw all its slots and stopped at none.
    Nothing,
}

/// The step that an enqueue makes next. `ends` is the ends word that the enqueue loaded before it scanned the segment.
#[derive(Clone, Copy, PartialEq, Eq, Debug)]
pub enum EnqueuePhase {
    /// Loads the ends word.
    LoadEnds,
    /// Loads a slot of the tail's segment, the next one from the start after `offset` slots.
    ScanTail {
        ends: Ends,
        offset: u32,
    },
    /// Loads the ends word again, with the empty slot that was found.
    Recheck {
        ends: Ends,
        found: Found,
    },
    /// Puts the item into the empty slot.
    Put {
        ends: Ends,
        index: usize,
        empty: Word,
    },
    /// Loads the slot again.
    ReloadSlot {
        ends: Ends,
        index: usize,
        filled: Word,
    },
    /// Loads the ends word again, the item being in its slot.
    ReloadEnds {
        ends: Ends,
        index: usize,
        filled: Word,
    },
    /// Raises the version of the ends word `held`.
    HoldHead {
        ends: Ends,
        index: usize,
        filled: Word,
        held: Ends,
    },
    /// Takes the item out again; a won undo returns Worn where `worn` says so.
    Undo {
        index: usize,
        filled: Word,
        worn: bool,
    },
    /// Loads a slot of the head's segment.
    ScanHead {
        ends: Ends,
        offset: u32,
    },
    /// Loads the ends word again, after a filled slot of the head's segment.
    ConfirmFull {
        ends: Ends,
    },
    /// Moves the head on.
    MoveHead {
        ends: Ends,
    },
    /// Moves the tail on.
    MoveTail {
        ends: Ends,
    },
}

/// The step that a dequeue makes next. `ends` is the ends word with which its round began.
#[derive(Clone, Copy, PartialEq, Eq, Debug)]
pub enum DequeuePhase {
    /// Loads the ends word.
    LoadEnds,
    /// Loads a slot of the head's segment, the next one from the start after `offset` slots.
    ScanHead {
        ends: Ends,
        offset: u32,
    },
    /// Loads the ends word again, with the filled slot that was found.
    Recheck {
        ends: Ends,
        found: Found,
    },
    /// Moves the tail on, off the segment of the filled slot.
    MoveTail {
        ends: Ends,
        index: usize,
        filled: Word,
    },
    /// Takes the item out of the filled slot.
    Take {
        ends: Ends,
        index: usize,
        filled: Word,
    },
    /// Moves the head on.
    MoveHead {
        ends: Ends,
    },
}

/// A thread's place in its call. `left` counts the rounds that are left, this one among them.
#[derive(Clone, Copy, PartialEq, Eq, Debug)]
pub enum Running {
    /// In an enqueue.
    Enqueue {
        item: u32,
        start: u32,
        left: u16,
        phase: EnqueuePhase,
    },
    /// In a dequeue.
    Dequeue {
        start: u32,
        left: u16,
        phase: DequeuePhase,
    },
}

/// One atomic step on one word of the table.
#[derive(Clone, Copy, PartialEq, Eq, Debug)]
pub enum Access {
    /// A load.
    Load { index: usize },
    /// A compare-and-exchange: the word becomes `to` where it is `from`.
    Exchange { index: usize, from: Word, to: Word },
}

impl Access {
    /// The index of the word.
    pub fn index(&self) -> usize
        ensures { result ≡ accessed self.now }
    {
        match *self {
            Access::Load { index } | Access::Exchange { index, .. } => index,
        }
    }
}

/// What a thread does after a step.
#[derive(Clone, Copy, PartialEq, Eq, Debug)]
pub enum Next {
    /// Its call goes on from this place.
    Goes(Running),
    /// Its call returns.
    Answers(Answer),
}

/// The place of each of these threads, which is in no call.
pub(crate) fn idle_places(alloc: Global, threads: u32) -> Result<Vec<Option<Running>>, AllocError>
    ensures { IfOk result (λ v. v.items ≡ map (λ _. None) (range_with_len 0 threads)) }
{
    (0..threads).map(|_thread| None).collect(alloc)
}
