//! What one thread does with its handle.
ghost use Rattle.std.specs.Prelude.{◌≡◌, ◌<◌, ◌≤◌, ◌+◌, ◌%◌, ◌^◌};
ghost use Rattle.kfifo_live.specs.Pass.{IsPassOf, IsSamePass};

use kfifo_live::{Handle, Queue};
use kfifo_model::Answer;
use std::fmt;
use std::thread::yield_now;

/// How many items a thread puts.
const ITEMS: u32 = 10_000;

/// How often a put is tried: far more often than others can come before it, since each of them puts so many items. No
/// proof says that they let a call through.
const TRIES: u32 = 16_777_216;

/// How many items there were, and their sum.
#[derive(Clone, Copy, Default)]
pub struct Tally {
    pub items: u64,
    pub sum: u64,
}

impl Tally {
    /// Counts an item.
    pub fn add(&mut self, item: u32)
        ensures items { self.new.items ≡ (self.old.items + 1) % 2 ^ 64 }
        ensures sum { self.new.sum ≡ (self.old.sum + item) % 2 ^ 64 }
    {
        self.items = self.items.wrapping_add(1);
        self.sum = self.sum.wrapping_add(u64::from(item));
    }

    /// Counts what another tally has counted.
    pub fn add_all(&mut self, other: Tally)
        ensures items { self.new.items ≡ (self.old.items + other.items) % 2 ^ 64 }
        ensures sum { self.new.sum ≡ (self.old.sum + other.sum) % 2 ^ 64 }
    {
        self.items = self.items.wrapping_add(other.items);
        self.sum = self.sum.wrapping_add(other.sum);
    }
}

impl fmt::Display for Tally {
    fn fmt<W: fmt::Write>(&self, f: &mut fmt::Formatter<W>) -> fmt::Result {
        write!(f, "{} items with the sum {}", self.items, self.sum)
    }
}

/// The handle of a pass, and what was put and taken with it.
#[derive(Drop)]
pub struct Worker {
    pub handle: Handle,
    pub put: Tally,
    pub taken: Tally,
}

impl Worker {
    /// One that has done nothing.
    pub fn new(handle: Handle) -> Worker
        ensures { result.handle ≡ handle }
    {
        Worker {
            handle,
            put: Tally::default(),
            taken: Tally::default(),
        }
    }

    /// Puts the numbers 1 to 10,000, and takes an item after each.
    pub fn work(&mut self, queue: &Queue)
        requires { IsPassOf queue.now self.old.handle.pass }
        ensures { IsSamePass self.old.handle.pass self.new.handle.pass }
    {
        for item in 1..ITEMS + 1 {
            self.put(queue, item);
            self.take(queue);
        }
    }

    /// Puts an item. While the queue is full, takes others to make room. An item that the queue does not take is not
    /// counted.
    fn put(&mut self, queue: &Queue, item: u32)
        requires of { IsPassOf queue.now self.old.handle.pass }
        requires item { (1 ≤ item) × (item < 2 ^ 24) }
        ensures { IsSamePass self.old.handle.pass self.new.handle.pass }
    {
        for _try in 0..TRIES {
            match self.handle.enqueue(queue, item) {
                Answer::Done => return self.put.add(item),
                Answer::Full => self.take(queue),
                // No version is left: the queue should be closed, and another opened.
                Answer::Worn => return,
                // Busy: others were faster.
                _ => yield_now(),
            }
        }
    }

    /// Takes one of the k oldest items, if there is one.
    fn take(&mut self, queue: &Queue)
        requires { IsPassOf queue.now self.old.handle.pass }
        ensures { IsSamePass self.old.handle.pass self.new.handle.pass }
    {
        if let Answer::Got(item) = self.handle.dequeue(queue) {
            self.taken.add(item);
        }
    }
}
