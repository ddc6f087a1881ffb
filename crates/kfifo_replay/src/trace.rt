//! What the first events of a replay did, in room that is made once.
ghost use Rattle.std.specs.Prelude.{◌≡◌, ◌<◌, ◌≤◌, [], ◌∷◌, ◌++◌, length, true, false, vec_capacity, IfOk};

use crate::steps::Step;
use std::alloc::{AllocError, Global};
use std::marker::Model;

/// What the first events of a replay did, and the greatest number of them that it keeps.
#[derive(Drop)]
pub struct Trace {
    most: usize,
    steps: Vec<Step>,
}

impl Model for Trace {
    ghost use Rattle.std.specs.Prelude.{◌≤◌, length, vec_capacity};
    ghost use Rattle.kfifo_replay.specs.Player.{Trace};

    ghost Value = { Trace };

    ghost view = { λ t. record {
      most = t.most;
      steps = t.steps.items;
    } };

    ghost invariant = { λ t. (length t.steps.items ≤ t.most) × (t.most ≤ vec_capacity t.steps) };
}

/// Adds one more, where there is room.
fn push_within<T: Copy>(items: &mut Vec<T>, item: T)
    requires { length items.old.items < vec_capacity items.old }
    ensures items { items.new.items ≡ items.old.items ++ item ∷ [] }
    ensures room { vec_capacity items.old ≤ vec_capacity items.new }
{
    items.push(item).unwrap();
}

impl Trace {
    /// Makes the trace of no event, with room for this many steps.
    pub fn new(alloc: Global, most: usize) -> Result<Trace, AllocError>
        ensures most { IfOk result (λ t. t.most ≡ most) }
        ensures none { IfOk result (λ t. t.steps ≡ []) }
    {
        let steps = Vec::with_capacity(alloc, most)?;
        Ok(Trace { most, steps })
    }

    /// Whether it keeps as many as it may.
    pub fn is_full(&self) -> bool
        ensures full { result ≡ true → length self.now.steps ≡ self.now.most }
        ensures room { result ≡ false → length self.now.steps < self.now.most }
    {
        self.steps.len() >= self.most
    }

    /// Keeps one more.
    pub fn keep(&mut self, step: Step)
        requires { length self.old.steps < self.old.most }
        ensures most { self.new.most ≡ self.old.most }
        ensures steps { self.new.steps ≡ self.old.steps ++ step ∷ [] }
    {
        push_within(&mut self.steps, step);
    }

    /// What is kept, one after the other.
    pub fn steps(&self) -> &[Step]
        ensures { result.now ≡ self.now.steps }
    {
        self.steps.as_slice()
    }
}
