//! Calls of the running queue with nothing to choose.
ghost use Rattle.std.specs.Prelude.{◌≡◌, ◌<◌, ◌≤◌, ◌+◌, ◌*◌, ◌^◌};
ghost use Rattle.kfifo_machine.specs.declared.event.Begin.TheVariants.{Enqueue, Dequeue};
ghost use Rattle.kfifo_live.specs.Pass.{Finds, IsPassOf, IsSamePass, PassKeepsPromise};
ghost use Rattle.kfifo_live.specs.Calls.{IsDisturbed, MakesCall};
ghost use Rattle.kfifo_live.specs.Handles.{HandleView, cycle_at, first_of, further};
ghost use Rattle.kfifo_live.specs.declared.handle.TheConstants.{MAX_TURNS};

use crate::queue::{Pass, Queue};
use crate::round_robin::RoundRobin;
use kfifo_model::Answer;
use std::marker::Model;

/// The most rounds that a call can make, and those that the calls of a handle make.
///
/// A call that nobody disturbs needs n + 2 at most, n being the number of segments, so Busy is always another thread's
/// doing. In a queue that holds again and has more than twice as many segments as threads, or more segments than
/// threads and 29 threads at most, they are also enough for progress: a call returns Busy only where another one
/// returned another answer meanwhile.
pub const MAX_TURNS: u16 = 65_535;

/// A pass that chooses the starts and the rounds of its calls.
///
/// Each enqueue begins its scan a stride further than the enqueue before it, and so do dequeues, apart from enqueues:
/// as `RoundRobin::spread` says. A call makes up to `MAX_TURNS` rounds.
///
/// ```rust
/// let mut handle = Handle::new(&queue, pass);
/// let put = handle.enqueue(&queue, 7);
/// let took = handle.dequeue(&queue);
/// ```
///
/// Clauses see it as its pass, and the slots at which its next enqueue and its next dequeue begin.
#[derive(Drop)]
pub struct Handle {
    pass: Pass,
    enqueues: RoundRobin,
    dequeues: RoundRobin,
}

impl Model for Handle {
    ghost Value = { HandleView };

    ghost view = { λ h. record { pass = h.pass; enqueue_start = h.enqueues.start; dequeue_start = h.dequeues.start } };

    ghost invariant = { λ h. (h.enqueues ≡ cycle_at h.pass h.enqueues.start)
        × (h.dequeues ≡ cycle_at h.pass h.dequeues.start) };
}

/// The starts of the calls of a pass: where there are no more threads than slots, each thread begins at a slot of its
/// own.
fn starts_of(queue: &Queue, pass: &Pass) -> RoundRobin
    requires { IsPassOf queue.now pass.now }
    ensures { result ≡ cycle_at pass.now (first_of pass.now) }
{
    RoundRobin::spread(pass.thread, queue.threads, queue.shape.k)
}

impl Handle {
    /// The handle of a pass. Its first enqueue and its first dequeue begin at slot `thread * k / threads`, rounded
    /// down.
    pub fn new(queue: &Queue, pass: Pass) -> Handle
        requires { IsPassOf queue.now pass }
        ensures { result ≡ record { pass = pass; enqueue_start = first_of pass; dequeue_start = first_of pass } }
    {
        let enqueues = starts_of(queue, &pass);
        let dequeues = starts_of(queue, &pass);
        Handle {
            pass,
            enqueues,
            dequeues,
        }
    }

    /// The pass.
    pub fn pass(&self) -> &Pass
        ensures { result.now ≡ self.now.pass }
    {
        &self.pass
    }

    /// Gives the pass back, for `meet` and `close`.
    pub fn into_pass(self) -> Pass
        ensures { result ≡ self.pass }
    {
        self.pass
    }

    /// Puts an item, from 1 to 2^24 - 1, into the queue, as `Pass::enqueue` does.
    ///
    /// Returns Done, Full, Worn or Busy. Busy comes only where another thread won an exchange during the call. It never
    /// allocates, waits or locks.
    #[inline(always)]
    pub fn enqueue(&mut self, queue: &Queue, item: u32) -> Answer
        requires of { IsPassOf queue.now self.old.pass }
        requires item { (1 ≤ item) × (item < 2 ^ 24) }
        ensures same { IsSamePass self.old.pass self.new.pass }
        ensures call { MakesCall (Enqueue item self.old.enqueue_start MAX_TURNS) result self.old.pass
            self.new.pass }
        ensures busy { result ≡ Answer.Busy → IsDisturbed self.old.pass self.new.pass }
        ensures starts { (self.new.enqueue_start ≡ further self.old.pass self.old.enqueue_start)
            × (self.new.dequeue_start ≡ self.old.dequeue_start) }
        ensures promise { PassKeepsPromise self.new.pass }
    {
        let start = self.enqueues.next();
        self.pass.enqueue(queue, item, start, MAX_TURNS)
    }

    /// Takes one of the k oldest items, as `Pass::dequeue` does.
    ///
    /// Returns Got with the item, Empty, Worn or Busy. Busy comes only where another thread won an exchange during the
    /// call. It never allocates, waits or locks.
    #[inline(always)]
    pub fn dequeue(&mut self, queue: &Queue) -> Answer
        requires of { IsPassOf queue.now self.old.pass }
        ensures same { IsSamePass self.old.pass self.new.pass }
        ensures call { MakesCall (Dequeue self.old.dequeue_start MAX_TURNS) result self.old.pass
            self.new.pass }
        ensures busy { result ≡ Answer.Busy → IsDisturbed self.old.pass self.new.pass }
        ensures starts { (self.new.dequeue_start ≡ further self.old.pass self.old.dequeue_start)
            × (self.new.enqueue_start ≡ self.old.enqueue_start) }
        ensures promise { PassKeepsPromise self.new.pass }
    {
        let start = self.dequeues.next();
        self.pass.dequeue(queue, start, MAX_TURNS)
    }

    /// Puts an item, as `Pass::enqueue` does, with a start and turns of the caller's. The handle's own starts stay.
    #[inline(always)]
    pub fn enqueue_from(&mut self, queue: &Queue, item: u32, start: u32, turns: u16) -> Answer
        requires of { IsPassOf queue.now self.old.pass }
        requires item { (1 ≤ item) × (item < 2 ^ 24) }
        requires start { start < queue.now.opened.shape.k }
        requires turns { 1 ≤ turns }
        ensures same { IsSamePass self.old.pass self.new.pass }
        ensures call { MakesCall (Enqueue item start turns) result self.old.pass self.new.pass }
        ensures starts { (self.new.enqueue_start ≡ self.old.enqueue_start)
            × (self.new.dequeue_start ≡ self.old.dequeue_start) }
        ensures promise { PassKeepsPromise self.new.pass }
    {
        self.pass.enqueue(queue, item, start, turns)
    }

    /// Takes one of the k oldest items, as `Pass::dequeue` does, with a start and turns of the caller's. The handle's
    /// own starts stay.
    #[inline(always)]
    pub fn dequeue_from(&mut self, queue: &Queue, start: u32, turns: u16) -> Answer
        requires of { IsPassOf queue.now self.old.pass }
        requires start { start < queue.now.opened.shape.k }
        requires turns { 1 ≤ turns }
        ensures same { IsSamePass self.old.pass self.new.pass }
        ensures call { MakesCall (Dequeue start turns) result self.old.pass self.new.pass }
        ensures starts { (self.new.enqueue_start ≡ self.old.enqueue_start)
            × (self.new.dequeue_start ≡ self.old.dequeue_start) }
        ensures promise { PassKeepsPromise self.new.pass }
    {
        self.pass.dequeue(queue, start, turns)
    }

    /// One load of the word with this index, as `Pass::word` makes it.
    pub fn word(&mut self, queue: &Queue, index: usize) -> u64
        requires of { IsPassOf queue.now self.old.pass }
        requires index { index < 2 + queue.now.opened.shape.n * queue.now.opened.shape.k }
        ensures same { IsSamePass self.old.pass self.new.pass }
        ensures finds { Finds self.old.pass self.new.pass index result }
        ensures starts { (self.new.enqueue_start ≡ self.old.enqueue_start)
            × (self.new.dequeue_start ≡ self.old.dequeue_start) }
        ensures promise { PassKeepsPromise self.new.pass }
    {
        self.pass.word(queue, index)
    }
}
