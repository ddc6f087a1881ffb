//! Stamped calls, for records of real runs.
//!
//! The clock is one of the queue's own words. A stamped call draws a stamp from it, makes the plain
//! call, and draws another.
ghost use Rattle.std.specs.Prelude.{◌≡◌, ◌<◌, ◌≤◌, ◌*◌, ◌+◌, ◌^◌, true, false, All, IfNone, IfOk, IfSome};
ghost use Rattle.std.specs.Prelude.{IsErrOf, length, vec_capacity};
ghost use Rattle.kfifo_machine.specs.declared.event.Begin.TheVariants as B;
ghost use Rattle.kfifo_machine.specs.Runs.{own};
ghost use Rattle.kfifo_live.specs.Schedule.{IsSmall, stamped_opening, ticks};
ghost use Rattle.kfifo_live.specs.Pass.{OpenQueue, IsPassOf, IsSamePass, IsZeroed, new_passes, PassKeepsPromise};
ghost use Rattle.kfifo_live.specs.Stamps.{Draws, IsLog, Logged, MakesStamped, logged_by, new_logs};
ghost use Rattle.kfifo_live.specs.Refusals.{RefusesCalls, RefusesThreads};
ghost use Rattle.kfifo_live.specs.declared.fault.OpenFault.TheVariants.{TokensOutOfRange};

pub(crate) mod gathering;

use crate::fault::OpenFault;
use crate::queue::{Pass, Queue};
use crate::rule::DrawStamp;
use kfifo_machine::MAX_THREADS;
use kfifo_model::{Answer, Call, End, Op};
use kfifo_words::Shape;
use std::alloc::{AllocError, Global};
use std::marker::Model;

/// The greatest number of stamped calls of a pass.
pub const MAX_STAMPED_CALLS: u32 = 1_024;

/// A running queue whose calls are stamped.
///
/// Clauses see it as its table and what it was opened with.
#[derive(Drop)]
pub struct StampQueue {
    pub(crate) queue: Queue,
}

impl Model for StampQueue {
    ghost Value = { OpenQueue };

    ghost view = { λ q. q.queue };
}

/// What a thread makes its stamped calls with, and the log of these calls.
///
/// Clauses see it as the schedule that it has seen, beside the log: the calls of this pass in that
/// schedule, in turn, each with two stamps, one drawn before its first event and one after its last.
#[derive(Drop)]
pub struct StampPass {
    pub(crate) pass: Pass,
    pub(crate) log: Vec<Call>,
}

impl Model for StampPass {
    ghost Value = { Logged };

    ghost view = { λ p. logged_by p.pass p.log.items };

    ghost invariant = { λ p. IsLog p.pass p.log.items × PassKeepsPromise p.pass
        × (p.pass.opened.calls ≤ vec_capacity p.log) };
}

impl Pass {
    /// Draws a stamp, which is one tick of the clock: it returns how often the clock had ticked before.
    #[inline(always)]
    fn draw_stamp(&mut self, queue: &Queue) -> u64
        requires of { IsPassOf queue.now self.old }
        requires room { ticks (own self.old.thread self.old.seen) < 2 * self.old.opened.calls }
        ensures draws { Draws result self.old self.new }
        ensures small { IsSmall self.old.opened }
        ensures promise { PassKeepsPromise self.new }
    {
        let clock = queue.shape.clock_index();
        queue
            .table
            .shared
            .fetch_add::<DrawStamp>(&mut self.seat, clock, 1)
    }
}

/// Passes with room for so many calls in the log of each.
fn add_logs(alloc: Global, queue: &Queue, passes: Vec<Pass>) -> Result<Vec<StampPass>, AllocError>
    requires passes { passes.items ≡ new_passes queue.now 0 queue.now.opened.threads }
    requires few { queue.now.opened.threads ≤ MAX_THREADS }
    ensures { IfOk result (λ ps. ps.items ≡ new_logs passes.items) }
{
    let mut stamped = Vec::with_capacity(alloc, passes.len())?;
    for pass in passes {
        let log = Vec::with_capacity(alloc, queue.calls as usize)?;
        stamped.push(StampPass { pass, log })?;
    }
    Ok(stamped)
}

impl StampQueue {
    /// Opens a queue, with one pass for each thread, numbered from 0, which may make `calls` stamped calls. The passes
    /// have seen the empty schedule, after which all words are 0, and their logs are empty.
    ///
    /// ```rust
    /// let (queue, mut passes) = StampQueue::open(alloc, shape, 1, 2)?; // room for two calls in each log
    /// ```
    ///
    /// Refuses: ThreadsOutOfRange where the number of threads is not 1 to 64; then CallsOutOfRange where the number of
    /// calls is not 1 to 1,024; Memory where an allocation failed. Nothing is kept after a refusal.
    pub fn open(
        alloc: Global,
        shape: Shape,
        threads: u32,
        calls: u32,
    ) -> Result<(StampQueue, Vec<StampPass>), OpenFault>
        ensures ok { IfOk result (λ r. (r.0.opened ≡ stamped_opening shape threads calls)
            × (r.1.items ≡ new_logs (new_passes r.0 0 threads))) }
        ensures of { IfOk result (λ r. All (λ p. IsPassOf r.0 p.pass) r.1.items) }
        ensures threads { RefusesThreads threads result }
        ensures calls { RefusesCalls threads calls result }
        ensures tokens { ¬ IsErrOf result TokensOutOfRange }
        ensures zeroed { IfOk result (λ r. IsZeroed r.0.opened) }
    {
        if threads == 0 || threads > MAX_THREADS {
            return Err(OpenFault::ThreadsOutOfRange);
        }
        if calls == 0 || calls > MAX_STAMPED_CALLS {
            return Err(OpenFault::CallsOutOfRange);
        }
        let (queue, passes) = Queue::open_for(alloc, shape, threads, calls)?;
        let stamped = add_logs(alloc, &queue, passes)?;
        Ok((StampQueue { queue }, stamped))
    }

    /// The sizes of the ring.
    pub fn shape(&self) -> Shape
        ensures { result ≡ self.now.opened.shape }
    {
        self.queue.shape()
    }
}

impl StampPass {
    /// The number of the pass: its thread's.
    pub fn thread(&self) -> u32
        ensures { result ≡ self.now.pass.thread }
    {
        self.pass.thread()
    }

    /// The calls that the pass has made, in turn. The stamps of a call are what the clock had before
    /// and after it.
    pub fn log(&self) -> &[Call]
        ensures { result.now ≡ self.now.log }
    {
        self.log.as_slice()
    }

    /// Whether the log has as many calls as it can have.
    #[inline(always)]
    fn is_full(&self, queue: &StampQueue) -> bool
        requires { IsPassOf queue.now self.now.pass }
        ensures full { result ≡ true → length self.now.log ≡ self.now.pass.opened.calls }
        ensures room { result ≡ false → length self.now.log < self.now.pass.opened.calls }
    {
        self.log.len() == queue.queue.calls as usize
    }

    /// Puts an item into the queue, as `Pass::enqueue` does, between two stamps, and logs the call.
    ///
    /// None where the log is full, with no event: it has as many calls as `StampQueue::open` made room for.
    #[inline(always)]
    pub fn enqueue(
        &mut self,
        queue: &StampQueue,
        item: u32,
        start: u32,
        turns: u16,
    ) -> Option<Answer>
        requires of { IsPassOf queue.now self.old.pass }
        requires item { (1 ≤ item) × (item < 2 ^ 24) }
        requires start { start < queue.now.opened.shape.k }
        requires turns { 1 ≤ turns }
        ensures same { IsSamePass self.old.pass self.new.pass }
        ensures none { IfNone result ((length self.old.log ≡ self.old.pass.opened.calls) × (self.new ≡ self.old)) }
        ensures some { IfSome result (λ answer. MakesStamped (B.Enqueue item start turns) answer self.old self.new) }
        ensures promise { PassKeepsPromise self.new.pass }
    {
        if self.is_full(queue) {
            return None;
        }
        // Each stamp is drawn outside the call. Drawn within it, this call could seem to follow or to precede one
        // that it overlapped, and the record of the run could have no legal order.
        let first = self.pass.draw_stamp(&queue.queue);
        let answer = self.pass.enqueue(&queue.queue, item, start, turns);
        let last = self.pass.draw_stamp(&queue.queue);
        self.log.push_reserved(Call {
            thread: self.pass.thread(),
            op: Op::Enqueue(item),
            first,
            end: Some(End { last, answer }),
        });
        Some(answer)
    }

    /// Takes one of the k oldest items, as `Pass::dequeue` does, between two stamps, and logs the call.
    ///
    /// None where the log is full, with no event.
    #[inline(always)]
    pub fn dequeue(&mut self, queue: &StampQueue, start: u32, turns: u16) -> Option<Answer>
        requires of { IsPassOf queue.now self.old.pass }
        requires start { start < queue.now.opened.shape.k }
        requires turns { 1 ≤ turns }
        ensures same { IsSamePass self.old.pass self.new.pass }
        ensures none { IfNone result ((length self.old.log ≡ self.old.pass.opened.calls) × (self.new ≡ self.old)) }
        ensures some { IfSome result (λ answer. MakesStamped (B.Dequeue start turns) answer self.old self.new) }
        ensures promise { PassKeepsPromise self.new.pass }
    {
        if self.is_full(queue) {
            return None;
        }
        // The stamps are drawn outside the call, as in `enqueue`.
        let first = self.pass.draw_stamp(&queue.queue);
        let answer = self.pass.dequeue(&queue.queue, start, turns);
        let last = self.pass.draw_stamp(&queue.queue);
        self.log.push_reserved(Call {
            thread: self.pass.thread(),
            op: Op::Dequeue,
            first,
            end: Some(End { last, answer }),
        });
        Some(answer)
    }
}
