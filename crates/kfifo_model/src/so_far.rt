//! What the calls of a record so far leave open to the next one.
ghost use Rattle.std.specs.Prelude.{ℕ, ◌≡◌, ◌<◌, ◌↔◌, Option, Some, None, List, IsTrue, length, slice_set};
ghost use Rattle.std.specs.Prelude.{slice_index_or};
ghost use Rattle.kfifo_model.specs.declared.calls.TheConstants.{MAX_THREADS};
ghost use Rattle.kfifo_model.specs.SoFar.{LetsBegin, RisesFrom, state_after};

use crate::calls::{Call, End};

/// How far a thread has come with its calls.
#[derive(Clone, Copy)]
pub enum ThreadState {
    /// It has begun no call.
    Fresh,
    /// Its latest call ended with this step.
    Ended(u64),
    /// Its latest call is unfinished.
    InCall,
}

/// The calls so far: the first step of the latest one, and how far each thread has come.
#[derive(Clone, Copy)]
pub struct CallsSoFar {
    /// The first step of the latest call.
    pub latest: Option<u64>,
    /// The state of each thread, by its number.
    pub threads: [ThreadState; 64],
}

/// The state of a thread whose latest call has this end.
fn state_of(end: Option<End>) -> ThreadState
    ensures { result ≡ state_after end }
{
    match end {
        Some(end) => ThreadState::Ended(end.last),
        None => ThreadState::InCall,
    }
}

/// Whether a thread in this state may begin a call at this step.
fn lets_begin(state: ThreadState, step: u64) -> bool
    ensures { IsTrue result ↔ LetsBegin state step }
{
    match state {
        ThreadState::Fresh => true,
        ThreadState::Ended(last) => last < step,
        ThreadState::InCall => false,
    }
}

impl CallsSoFar {
    /// No call yet.
    pub fn new() -> CallsSoFar
        ensures sized { length result.threads ≡ 64 }
        ensures latest { result.latest ≡ None }
        ensures threads { (t : ℕ) (d : ThreadState) → t < 64 → slice_index_or result.threads t d ≡ ThreadState.Fresh }
    {
        CallsSoFar {
            latest: None,
            threads: [ThreadState::Fresh; 64],
        }
    }

    /// Whether the call begins after the latest one began.
    pub fn rises(&self, call: &Call) -> bool
        ensures { IsTrue result ↔ RisesFrom self.now.latest call.now.first }
    {
        match self.latest {
            Some(latest) => latest < call.first,
            None => true,
        }
    }

    /// Whether the call's thread may begin it.
    pub fn lets(&self, call: &Call) -> bool
        requires { call.now.thread < MAX_THREADS }
        ensures { (d : ThreadState) → IsTrue result
            ↔ LetsBegin (slice_index_or self.now.threads call.now.thread d) call.now.first }
    {
        lets_begin(self.threads[call.thread as usize], call.first)
    }

    /// Adds the call.
    pub fn note(&mut self, call: &Call)
        requires { call.now.thread < MAX_THREADS }
        ensures latest { self.new.latest ≡ Some call.now.first }
        ensures threads { self.new.threads ≡ slice_set self.old.threads call.now.thread (state_after call.now.end) }
    {
        self.latest = Some(call.first);
        self.threads[call.thread as usize] = state_of(call.end);
    }
}
