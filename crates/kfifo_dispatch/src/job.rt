//! A task on its way from worker to worker.
ghost use Rattle.std.specs.Prelude.{◌≡◌, ◌==◌, ◌<◌, ◌+◌, ◌-◌, ◌^◌, List, [], Some, slice_get, length};
ghost use Rattle.kfifo_dispatch.specs.declared.task.Task.{Task};
ghost use Rattle.kfifo_dispatch.specs.Jobs.{JobView, IsOn, IsWorked, id_at, total_at};
ghost use Rattle.kfifo_dispatch.specs.Working.{TellsOf};

use crate::task::Task;
use crate::work_gate::WorkGate;
use std::marker::{Brand, Model, PhantomData};

/// The tasks of a dispatch. Each dispatch picks its own.
pub trait Tasks {
    ghost tasks: { List Task };
}

impl Tasks for Brand {
    ghost tasks = { [] };
}

/// A task on its way to being finished. Whatever way it takes between workers, its sum and the work that is left come
/// to what its task comes to: its type says so.
#[derive(Drop)]
pub(crate) struct Job<L: Tasks> {
    // The task's place in the list of all tasks.
    place: u16,
    left: u16,
    id: u32,
    sum: u64,
    of: PhantomData<L>,
}

impl<L: Tasks> Model for Job<L> {
    ghost Value = { JobView };

    ghost view = { λ j. record { place = j.place; left = j.left; sum = j.sum } };

    ghost invariant = { λ j. IsOn L.tasks (record { place = j.place; left = j.left; sum = j.sum })
        × (j.id ≡ id_at L.tasks j.place) };
}

/// A job with nothing left.
#[derive(Drop)]
pub(crate) struct Done<L: Tasks> {
    place: u16,
    sum: u64,
    of: PhantomData<L>,
}

impl<L: Tasks> Model for Done<L> {
    ghost Value = { JobView };

    ghost view = { λ d. record { place = d.place; left = 0; sum = d.sum } };

    ghost invariant = { λ d. IsOn L.tasks (record { place = d.place; left = 0; sum = d.sum }) };
}

impl<L: Tasks> Job<L> {
    /// The job of the task at this place in the list, which has this number, so much left and this sum.
    pub(crate) fn new(place: u16, id: u32, left: u16, sum: u32) -> Job<L>
        requires { slice_get L.tasks place ≡ Some (record { id = id; left = left; sum = sum }) }
        ensures { result ≡ record { place = place; left = left; sum = sum } }
    {
        Job {
            place,
            left,
            id,
            sum: u64::from(sum),
            of: PhantomData,
        }
    }

    /// Whether nothing is left of it.
    pub(crate) fn is_finished(&self) -> bool
        ensures { result ≡ (self.now.left == 0) }
    {
        self.left == 0
    }

    /// Does a unit of work.
    fn work(&mut self)
        requires { 0 < self.old.left }
        ensures { IsWorked self.old self.new }
    {
        self.sum += u64::from(self.left);
        self.left -= 1;
    }

    /// Does a unit of work where one is left, and tells the gate.
    pub(crate) fn work_once<G: WorkGate>(&mut self, worker: u32, gate: &G)
        ensures worked { IsWorked self.old self.new }
        ensures told { 0 < self.old.left → TellsOf (G.told gate.now) L.tasks worker self.old.place }
    {
        if !self.is_finished() {
            self.work();
            gate.unit(worker, self.id);
        }
    }

    /// Does all units that are left, and tells the gate of each.
    pub(crate) fn work_off<G: WorkGate>(mut self, worker: u32, gate: &G) -> Done<L>
        ensures place { result.place ≡ self.place }
        ensures told { 0 < self.left → TellsOf (G.told gate.now) L.tasks worker self.place }
    {
        for _unit in 0..self.left {
            self.work_once(worker, gate);
        }
        Done {
            place: self.place,
            sum: self.sum,
            of: PhantomData,
        }
    }
}

impl<L: Tasks> Done<L> {
    /// The place of its task in the list of all tasks.
    pub(crate) fn place(&self) -> usize
        ensures place { result ≡ self.now.place }
        ensures there { result < length L.tasks }
    {
        usize::from(self.place)
    }

    /// What its task comes to.
    pub(crate) fn sum(&self) -> u64
        ensures { result ≡ total_at L.tasks self.now.place }
    {
        self.sum
    }
}
