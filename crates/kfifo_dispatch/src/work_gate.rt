//! What workers tell of their work.
ghost use Rattle.std.specs.Prelude.{ℕ};

use kfifo_live::{Gate, OpenGate};

/// A gate that workers also tell of each unit of work. The workers share it: they pass it before each of their calls to
/// take a task.
///
/// A test can see who does what. The call always returns.
pub trait WorkGate: Gate {
    // This worker has told of a unit of work on the task of this number. A gate may leave out what that means: a
    // dispatch is proved for any meaning.
    ghost told: { Self → ℕ → ℕ → Type 0 } = { λ _ _ _. Unit {0} };

    /// This worker has done one unit of work on the task of this number. The workers of a dispatch are numbered from 1;
    /// worker 0 is the caller of `dispatch`.
    fn unit(&self, worker: u32, id: u32)
        ensures { told self.now worker id };
}

impl WorkGate for OpenGate {
    fn unit(&self, _worker: u32, _id: u32) {}
}
