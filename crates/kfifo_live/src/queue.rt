//! A running queue and its passes.
ghost use Rattle.std.specs.Prelude.{◌≡◌, ◌<◌, ◌≤◌, ◌+◌, ◌*◌, ◌^◌};
ghost use Rattle.kfifo_live.specs.declared.stamped.TheConstants.{MAX_STAMPED_CALLS};
ghost use Rattle.kfifo_model.specs.declared.calls.TheConstants.{MAX_THREADS};
ghost use Rattle.kfifo_machine.specs.declared.event.Begin.TheVariants.{Enqueue, Dequeue};
ghost use Rattle.kfifo_live.specs.Schedule.{stamped_opening};
ghost use Rattle.kfifo_live.specs.Calls.{MakesCall};
ghost use Rattle.kfifo_live.specs.Pass.{OpenQueue, PassView, queue_of, pass_view, IsPass, IsPassOf, IsSamePass, Finds};
ghost use Rattle.kfifo_live.specs.Pass.{PassKeepsPromise};

use crate::ring::Ring;
use crate::rule::QueueRule;
use crate::seats::observe;
use crate::view::{Opening, ThreadSeat, View};
use atomic_table::Table;
use kfifo_model::Answer;
use kfifo_words::Shape;
use std::alloc::Global;
use std::marker::Model;

/// A running queue: the ends word, the slots and the clock, as atomic words.
///
/// Clauses see it as its table and what it was opened with.
#[derive(Drop)]
pub struct Queue {
    pub(crate) table: Table<Option<()>, View<()>, Opening, QueueRule, Global>,
    pub(crate) shape: Shape,
    pub(crate) threads: u32,
    pub(crate) calls: u32,
}

impl Model for Queue {
    ghost Value = { OpenQueue };

    ghost view = { λ q. queue_of q.table.shared.table_id (stamped_opening q.shape q.threads q.calls) };

    ghost invariant = { λ q. (q.table.shared.key ≡ stamped_opening q.shape q.threads q.calls)
        × (q.table.shared.table_id.words ≡ 2 + q.shape.n * q.shape.k) × (q.table.shared.table_id.slots ≡ 0)
        × (0 < q.threads)
        × (q.threads ≤ MAX_THREADS) × (q.calls ≤ MAX_STAMPED_CALLS) };
}

/// What a thread makes its calls with. It may go to another thread between two calls.
///
/// Clauses see it as the schedule that it has seen: a schedule of the machine that holds all events
/// which this pass made up to now. Each call that adds to it says that it keeps the queue's promise:
/// the calls in it stand in a legal order, one that has all finished calls, keeps each return before
/// a call and is a run of the k-relaxed queue; in it, where the items are distinct, none is
/// overtaken k times.
#[derive(Drop)]
pub struct Pass {
    pub(crate) thread: u32,
    pub(crate) seat: ThreadSeat<()>,
}

impl Model for Pass {
    ghost Value = { PassView };

    ghost view = { λ p. pass_view p.seat.table_id p.thread p.seat.me.0 };

    ghost invariant = { λ p. IsPass p.thread p.seat.me };
}

impl Queue {
    /// The sizes of the ring.
    pub fn shape(&self) -> Shape
        ensures { result ≡ self.now.opened.shape }
    {
        self.shape
    }

    /// About how many items are in the queue: those that lie in the segments of head and tail, and k for each segment
    /// between them, in which a call may have taken one back. Calls that run meanwhile are counted or not. It makes
    /// 2k + 1 loads at most, and writes nothing.
    pub fn len(&self) -> usize
        ensures { result ≤ self.now.opened.shape.n * self.now.opened.shape.k }
    {
        let ring = Ring {
            words: &self.table.shared,
            shape: &self.shape,
        };
        ring.count()
    }
}

impl Pass {
    /// The number of the pass: its thread's in the schedule.
    pub fn thread(&self) -> u32
        ensures { result ≡ self.now.thread }
    {
        self.thread
    }

    /// Puts an item, from 1 to 2^24 - 1, into the queue. `Handle::enqueue` does so with nothing to choose.
    ///
    /// ```rust
    /// let put = pass.enqueue(&queue, 7, 0, 258); // item, start slot, turns
    /// ```
    ///
    /// Scans begin at slot `start`, below k. Returns Done, Full where the ring was seen full, Busy where each of
    /// `turns` rounds, at least 1, was lost, or Worn where a version would pass the greatest one. After Full, Busy and
    /// Worn the item is not in the queue and never comes out. It never allocates, waits or locks.
    ///
    /// What the pass has seen grows by events of others and by one complete execution of the call, whose last event
    /// comes last. The laws of such executions stand beside it: how many events of its own a call has at most, and what
    /// a call saw that returned Full, Worn or Busy. Busy after n + 2 rounds or more is another thread's doing.
    ///
    /// What the pass has then seen keeps the promise: a legal order of its calls, this one among them, in which no item
    /// is overtaken k times where items are distinct.
    #[inline(always)]
    pub fn enqueue(&mut self, queue: &Queue, item: u32, start: u32, turns: u16) -> Answer
        requires of { IsPassOf queue.now self.old }
        requires item { (1 ≤ item) × (item < 2 ^ 24) }
        requires start { start < queue.now.opened.shape.k }
        requires turns { 1 ≤ turns }
        ensures same { IsSamePass self.old self.new }
        ensures call { MakesCall (Enqueue item start turns) result self.old self.new }
        ensures promise { PassKeepsPromise self.new }
    {
        let ring = Ring {
            words: &queue.table.shared,
            shape: &queue.shape,
        };
        ring.enqueue(&mut self.seat, item, start, turns)
    }

    /// Takes one of the k oldest items. `Handle::dequeue` does so with nothing to choose.
    ///
    /// ```rust
    /// let took = pass.dequeue(&queue, 0, 258);
    /// ```
    ///
    /// Scans begin at slot `start`, below k. Returns Got with the item, Empty where the queue was empty, Busy where
    /// each of `turns` rounds, at least 1, was lost, or Worn where a version would pass the greatest one. It never
    /// allocates, waits or locks.
    ///
    /// What the pass has seen grows by events of others and by one complete execution of the call, whose last event
    /// comes last. The laws of such executions stand beside it, as at `enqueue`.
    ///
    /// What the pass has then seen keeps the promise: a legal order of its calls, this one among them, in which no item
    /// is overtaken k times where items are distinct.
    #[inline(always)]
    pub fn dequeue(&mut self, queue: &Queue, start: u32, turns: u16) -> Answer
        requires of { IsPassOf queue.now self.old }
        requires start { start < queue.now.opened.shape.k }
        requires turns { 1 ≤ turns }
        ensures same { IsSamePass self.old self.new }
        ensures call { MakesCall (Dequeue start turns) result self.old self.new }
        ensures promise { PassKeepsPromise self.new }
    {
        let ring = Ring {
            words: &queue.table.shared,
            shape: &queue.shape,
        };
        ring.dequeue(&mut self.seat, start, turns)
    }

    /// One load of the word with this index: 0 is the ends word, then come the slots, segment by
    /// segment, and last the clock. The load is no event. The pass has then seen a schedule, in which
    /// events of others alone are new to it, that leaves this word, and that keeps the promise.
    pub fn word(&mut self, queue: &Queue, index: usize) -> u64
        requires of { IsPassOf queue.now self.old }
        requires index { index < 2 + queue.now.opened.shape.n * queue.now.opened.shape.k }
        ensures same { IsSamePass self.old self.new }
        ensures finds { Finds self.old self.new index result }
        ensures promise { PassKeepsPromise self.new }
    {
        observe(&queue.table.shared, &mut self.seat, index)
    }
}
