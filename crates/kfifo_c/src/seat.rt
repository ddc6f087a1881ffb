//! What a handle stands for.
ghost use Rattle.std.specs.Prelude.{◌≡◌, ◌<◌, ◌≤◌, ◌*◌, ◌^◌, MatchOption, IfOk};
ghost use Rattle.kfifo_machine.specs.declared.event.Begin.TheVariants.{Enqueue, Dequeue};
ghost use Rattle.kfifo_live.specs.Pass.{IsPassOf};
ghost use Rattle.kfifo_c.specs.Seats.{Seated, seated, IsOpenPassOf};
ghost use Rattle.kfifo_c.specs.Exports.{MayEnqueue, MayDequeue, MayRead, CalledFrom, Puts, Gets, HasRead};

use crate::address::address_of;
use kfifo_live::{Handle, Pass, Queue};
use kfifo_model::Answer;
use std::alloc::{AllocError, Global};
use std::marker::Model;
use std::sync::Arc;

/// A handle of the queue, a part in the queue that it is of, and the number of that queue's passes.
#[derive(Drop)]
pub struct Seat {
    pub(crate) queue: Arc<Queue, Global>,
    pub(crate) handle: Handle,
    pub(crate) threads: u32,
    // Each call writes to its seat. This keeps the seats of two threads from lying in one line of the cache.
    pub(crate) apart: [u64; 8],
}

impl Model for Seat {
    ghost Value = { Seated };

    ghost view = { λ s. record {
      queue = s.queue.value;
      pass = s.handle.pass;
      put_start = s.handle.enqueue_start;
      get_start = s.handle.dequeue_start;
    } };

    ghost invariant = { λ s. IsPassOf s.queue.value s.handle.pass × (s.threads ≡ s.queue.value.opened.threads) };
}

impl Seat {
    /// A seat for this pass of a queue of so many.
    pub(crate) fn new(queue: Arc<Queue, Global>, pass: Pass, threads: u32) -> Seat
        requires of { IsOpenPassOf queue.value pass }
        requires threads { threads ≡ queue.value.opened.threads }
        ensures { result ≡ seated queue.value pass }
    {
        let handle = Handle::new(&queue, pass);
        Seat {
            queue,
            handle,
            threads,
            apart: [0; 8],
        }
    }

    /// The number of the pass.
    pub(crate) fn thread(&self) -> u32
        ensures { result ≡ self.now.pass.thread }
    {
        self.handle.pass().thread()
    }

    /// The number of the queue's passes.
    pub(crate) fn threads(&self) -> u32
        ensures { result ≡ self.now.queue.opened.threads }
    {
        self.threads
    }

    /// Slots in a segment of the queue.
    pub(crate) fn k(&self) -> u32
        ensures { result ≡ self.now.queue.opened.shape.k }
    {
        self.queue.shape().k()
    }

    /// Where the queue is.
    pub(crate) fn address(&self) -> *mut u8 {
        address_of(&self.queue)
    }

    /// One more part in the queue.
    pub(crate) fn share(&self) -> Result<Arc<Queue, Global>, AllocError>
        ensures { IfOk result (λ queue. queue.value ≡ self.now.queue) }
    {
        Arc::try_clone(&self.queue)
    }

    /// The pass, with the part in the queue given up.
    pub(crate) fn into_pass(self) -> Pass
        ensures pass { result ≡ self.pass }
        ensures of { IsPassOf self.queue result }
    {
        let Seat {
            queue: _queue,
            handle,
            ..
        } = self;
        handle.into_pass()
    }

    /// The enqueue of the pass, if it may be made with so many turns.
    #[inline(always)]
    pub(crate) fn enqueue(&mut self, item: u32, start: u32, turns: u16) -> Option<Answer>
        requires item { (1 ≤ item) × (item < 2 ^ 24) }
        requires start { start < self.old.queue.opened.shape.k }
        ensures { MatchOption result ((self.new ≡ self.old) × (¬ MayEnqueue item start turns self.old))
            (λ answer. MayEnqueue item start turns self.old
            × CalledFrom (Enqueue item start turns) answer self.old self.new) }
    {
        if turns < 1 {
            return None;
        }
        Some(self.handle.enqueue_from(&self.queue, item, start, turns))
    }

    /// The dequeue of the pass, if it may be made with so many turns.
    #[inline(always)]
    pub(crate) fn dequeue(&mut self, start: u32, turns: u16) -> Option<Answer>
        requires { start < self.old.queue.opened.shape.k }
        ensures { MatchOption result ((self.new ≡ self.old) × (¬ MayDequeue start turns self.old))
            (λ answer. MayDequeue start turns self.old × CalledFrom (Dequeue start turns) answer self.old self.new) }
    {
        if turns < 1 {
            return None;
        }
        Some(self.handle.dequeue_from(&self.queue, start, turns))
    }

    /// The enqueue of the pass from the handle's start.
    #[inline(always)]
    pub(crate) fn put(&mut self, item: u32) -> Answer
        requires { (1 ≤ item) × (item < 2 ^ 24) }
        ensures { Puts item result self.old self.new }
    {
        self.handle.enqueue(&self.queue, item)
    }

    /// The dequeue of the pass from the handle's start.
    #[inline(always)]
    pub(crate) fn get(&mut self) -> Answer
        ensures { Gets result self.old self.new }
    {
        self.handle.dequeue(&self.queue)
    }

    /// About how many items are in the queue.
    pub(crate) fn len(&self) -> usize
        ensures { result ≤ self.now.queue.opened.shape.n * self.now.queue.opened.shape.k }
    {
        self.queue.len()
    }

    /// The word of this index, if there is one.
    pub(crate) fn word(&mut self, index: usize) -> Option<u64>
        ensures { MatchOption result ((self.new ≡ self.old) × (¬ MayRead index self.old))
            (λ word. MayRead index self.old × HasRead index word self.old self.new) }
    {
        let shape = self.queue.shape();
        if index >= 2 + shape.n() as usize * shape.k() as usize {
            return None;
        }
        Some(self.handle.word(&self.queue, index))
    }
}
