//! Tasks, and what they come to.
ghost use Rattle.std.specs.Prelude.{◌≡◌, ◌<◌, ◌+◌, ◌^◌, IsTrue};
ghost use Rattle.kfifo_dispatch.specs.Tasks.{finished, total, work};

/// A task: so many units of work are left of it.
///
/// A unit of work adds `left` to the sum, and takes 1 from `left`. A task with nothing left is finished.
#[derive(Clone, Copy, PartialEq, Eq, Debug)]
pub struct Task {
    /// Its number, which no other task of a dispatch has.
    pub id: u32,
    /// How many units of work are left of it.
    pub left: u16,
    /// What it has come to so far.
    pub sum: u32,
}

/// A finished task.
#[derive(Clone, Copy, PartialEq, Eq, Debug)]
pub struct Finished {
    /// The task's number.
    pub id: u32,
    /// What it came to.
    pub sum: u64,
}
