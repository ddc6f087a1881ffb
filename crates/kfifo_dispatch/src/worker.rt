//! What a worker does.
ghost use Rattle.std.specs.Prelude.{◌≡◌, ◌<◌, ◌≤◌, ◌++◌, IfOk, map};
ghost use Rattle.kfifo_live.specs.Pass.{IsPassOf, IsSamePass};
ghost use Rattle.kfifo_dispatch.specs.Running.{IsTurn, TellsOfKept, Works, WorksAt, kept_after, place_kept};
ghost use Rattle.kfifo_dispatch.specs.Working.{MayWork, TellsOf};

use crate::job::{Done, Job, Tasks};
use crate::starts::Starts;
use crate::station::Station;
use crate::work_gate::WorkGate;
use kfifo_live::{Given, PayQueue, Taken};
use std::alloc::{AllocError, Global};

/// A worker calls to take a task so many times at most.
const MAX_TAKES: u32 = 65_536;

/// What a worker works with.
#[derive(Drop)]
pub(crate) struct Worker<P> {
    pub(crate) pass: P,
    pub(crate) starts: Starts,
    pub(crate) turns: u16,
}

/// What came of a take: whether the worker goes on, and the task that it then finished, if it did.
#[derive(Drop)]
pub(crate) enum Turn<D> {
    Over,
    On(Option<D>),
}

/// What a worker came back with: its pass, and the tasks that it finished.
#[derive(Drop)]
pub(crate) struct Back<L: Tasks, P> {
    pub(crate) pass: P,
    pub(crate) kept: Result<Vec<Done<L>>, AllocError>,
}

impl<P> Worker<P> {
    /// Works until the queue is empty, or a version is used up, or the worker has called often enough.
    pub(crate) fn run<L: Tasks, G: WorkGate>(
        mut self,
        alloc: Global,
        queue: &PayQueue<Job<L>>,
        gate: &G,
    ) -> Back<L, P>
    where
        P: Station<Job<L>, G> + Drop,
        requires { MayWork queue.now (P.known self.pass) self.starts self.turns }
        ensures same { IsSamePass (P.known self.pass) (P.known result.pass) }
        ensures works { IfOk result.kept (λ kept. Works (P.passes gate.now)
            (λ s. TellsOf (G.told gate.now) L.tasks (P.known s).thread) P.takes P.gives self.turns MAX_TAKES 1
            self.pass self.starts result.pass
            (map (λ done. done.place) kept.items)) }
    {
        let kept = self.work(alloc, queue, gate);
        Back {
            pass: self.pass,
            kept,
        }
    }

    /// Takes tasks, one after the other, and does a unit of work on each.
    fn work<L: Tasks, G: WorkGate>(
        &mut self,
        alloc: Global,
        queue: &PayQueue<Job<L>>,
        gate: &G,
    ) -> Result<Vec<Done<L>>, AllocError>
    where
        P: Station<Job<L>, G> + Drop,
        requires { MayWork queue.now (P.known self.old.pass) self.old.starts self.old.turns }
        ensures same { IsSamePass (P.known self.old.pass) (P.known self.new.pass) }
        ensures works { IfOk result (λ kept. Works (P.passes gate.now)
            (λ s. TellsOf (G.told gate.now) L.tasks (P.known s).thread) P.takes P.gives self.old.turns MAX_TAKES 1
            self.old.pass self.old.starts self.new.pass
            (map (λ done. done.place) kept.items)) }
    {
        let mut kept = Vec::new(alloc);
        for call in 0..MAX_TAKES {
            match self.take_once(call + 1, queue, gate) {
                Turn::Over => return Ok(kept),
                Turn::On(finished) => keep(&mut kept, finished)?,
            }
        }
        Ok(kept)
    }

    /// Passes the gate, takes a task, and does a unit of work on it.
    fn take_once<L: Tasks, G: WorkGate>(
        &mut self,
        call: u32,
        queue: &PayQueue<Job<L>>,
        gate: &G,
    ) -> Turn<Done<L>>
    where
        P: Station<Job<L>, G> + Drop,
        requires { MayWork queue.now (P.known self.old.pass) self.old.starts self.old.turns }
        ensures same { IsSamePass (P.known self.old.pass) (P.known self.new.pass)
            × (self.new.starts.k ≡ self.old.starts.k) × (self.new.turns ≡ self.old.turns) }
        ensures turn { IsTurn (P.passes gate.now) (λ s. TellsOf (G.told gate.now) L.tasks (P.known s).thread)
            P.takes P.gives self.old.turns call self.old.pass self.old.starts result self.new.pass self.new.starts }
    {
        self.pass.pass_gate(gate, call);
        let start = self.starts.draw();
        match self.pass.take(queue, start, self.turns) {
            Taken::Got(job) => Turn::On(self.work_at(job, queue, gate)),
            Taken::Busy => Turn::On(None),
            Taken::Empty | Taken::Worn => Turn::Over,
        }
    }

    /// Does a unit of work on the task. Gives it back to the queue if more is left, and returns it if it is finished.
    /// It finishes a task that the queue refuses.
    fn work_at<L: Tasks, G: WorkGate>(
        &mut self,
        mut job: Job<L>,
        queue: &PayQueue<Job<L>>,
        gate: &G,
    ) -> Option<Done<L>>
    where
        P: Station<Job<L>, G> + Drop,
        requires { MayWork queue.now (P.known self.old.pass) self.old.starts self.old.turns }
        ensures same { IsSamePass (P.known self.old.pass) (P.known self.new.pass)
            × (self.new.starts.k ≡ self.old.starts.k) × (self.new.turns ≡ self.old.turns) }
        ensures works { WorksAt (P.passes gate.now) (λ s. TellsOf (G.told gate.now) L.tasks (P.known s).thread)
            P.takes P.gives self.old.turns job self.old.pass self.old.starts self.new.pass self.new.starts
            (place_kept result) }
    {
        let worker = self.pass.worker();
        job.work_once(worker, gate);
        if job.is_finished() {
            return Some(job.work_off(worker, gate));
        }
        let start = self.starts.draw();
        let given = self.pass.give(queue, job, start, self.turns);
        work_off_refused(given, worker, gate)
    }
}

/// Finishes a task that the queue refused, and tells of it.
pub(crate) fn work_off_refused<L: Tasks, G: WorkGate>(
    given: Given<Job<L>>,
    worker: u32,
    gate: &G,
) -> Option<Done<L>>
    ensures kept { place_kept result ≡ kept_after given }
    ensures told { TellsOfKept (TellsOf (G.told gate.now) L.tasks worker) given }
{
    match given {
        Given::Done => None,
        Given::Full(job) | Given::Busy(job) | Given::Worn(job) | Given::NoToken(job) => {
            Some(job.work_off(worker, gate))
        }
    }
}

/// Adds a finished task, if there is one, to the ones that are kept.
pub(crate) fn keep<L: Tasks>(
    kept: &mut Vec<Done<L>>,
    finished: Option<Done<L>>,
) -> Result<(), AllocError>
    ensures { IfOk result (λ _. map (λ done. done.place) kept.new.items
        ≡ map (λ done. done.place) kept.old.items ++ place_kept finished) }
{
    if let Some(done) = finished {
        kept.push(done)?;
    }
    Ok(())
}
