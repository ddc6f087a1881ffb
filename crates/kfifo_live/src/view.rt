//! What the seats of a table know. No value of `Part` or `View` is ever made: they live in proofs alone.
//!
//! `T` is what the slots of the table may carry, a payload. A plain queue has no slot, and its `T` is `()`.
use crate::rule::QueueRule;
use atomic_table::{Seat, Shared};
use kfifo_machine::Event;
use kfifo_words::Shape;
use std::collections::LinkedList;

/// The words of a queue, which its threads share.
pub type Words<T> = Shared<Option<T>, View<T>, Opening, QueueRule>;

/// What a thread makes its steps with.
pub type ThreadSeat<T> = Seat<Option<T>, View<T>>;

/// What a queue was opened with.
#[derive(Clone, Copy)]
pub struct Opening {
    /// The sizes of its ring.
    pub shape: Shape,
    /// How many passes it has.
    pub threads: u32,
    /// How many stamped calls each of them may make: none of a plain queue.
    pub calls: u32,
    /// How many tokens each of them begins with; each names a slot. A plain queue has none.
    pub tokens: u32,
    /// Whether its tokens go through it with nothing in their slots.
    pub bare: bool,
}

/// The tokens of a thread.
pub struct Hand<T> {
    /// Those whose slots are at home.
    pub at_home: LinkedList<u32>,
    /// The one whose slot is out with the thread's seat, or 0.
    pub out: u32,
    /// What that slot holds, in a call.
    pub payload: Option<T>,
}

/// What was seen of the schedule on behalf of a thread.
pub struct Part<T> {
    /// The thread.
    pub thread: u32,
    /// A beginning of the schedule, with all events of the thread.
    pub seen: LinkedList<Event>,
    /// For each enqueue that begins in it, in turn, its item and what the slot held that its thread had taken last.
    pub gifts: LinkedList<(u32, Option<T>)>,
    /// Its tokens.
    pub hand: Hand<T>,
}

/// The threads that a seat may act for.
pub struct View<T> {
    /// The opening of the queue.
    pub opened: Opening,
    /// A part for each thread.
    pub parts: LinkedList<Part<T>>,
}
