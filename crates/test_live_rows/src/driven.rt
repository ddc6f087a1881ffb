//! What rows do with the passes of a queue of any kind.
ghost use Rattle.std.specs.Prelude.{◌≡◌, All, IfOk};
ghost use Rattle.kfifo_live.specs.Pass.{IsPassOf, IsSamePass, OpenQueue, PassView};

use crate::begin::{has, place_of};
use serde_json::Value;
use std::alloc::{AllocError, Global};

/// A pass of a queue, whose calls are the steps of a row.
pub trait Driven: Drop + Sized {
    /// The queue of the pass.
    type Queue;

    /// What steps change beside the queue.
    type Beside;

    // What is known of the queue.
    ghost opened: { Self.Queue → OpenQueue };

    // What is known of the pass.
    ghost known: { Self → PassView };

    /// The thread of the pass.
    fn number(&self) -> u32;

    /// The line of a step by this pass.
    fn line_by(
        &mut self,
        alloc: Global,
        queue: &Self::Queue,
        beside: &mut Self::Beside,
        step: &Value,
    ) -> Result<String, AllocError>
        requires { IsPassOf (opened queue.now) (known self.old) }
        ensures { IsSamePass (known self.old) (known self.new) };
}

/// A pass of a queue that a row goes on with by steps.
// It is a trait of its own: the borrow checker covers no method that leads back to its own trait.
pub trait Stepped: Driven {
    /// The line of a step.
    fn line_of(
        alloc: Global,
        queue: &Self::Queue,
        passes: &mut Vec<Self>,
        beside: &mut Self::Beside,
        step: &Value,
    ) -> Result<String, AllocError>
        requires { All (λ p. IsPassOf (Self.opened queue.now) (Self.known p)) passes.old.items }
        ensures { IfOk result (λ _. All (λ p. IsPassOf (Self.opened queue.now) (Self.known p)) passes.new.items) };
}

/// The line of a step by the pass that it names.
pub fn line_of_call<P: Driven>(
    alloc: Global,
    queue: &P::Queue,
    passes: &mut Vec<P>,
    beside: &mut P::Beside,
    step: &Value,
) -> Result<String, AllocError>
    requires { All (λ p. IsPassOf (P.opened queue.now) (P.known p)) passes.old.items }
    ensures { IfOk result (λ _. All (λ p. IsPassOf (P.opened queue.now) (P.known p)) passes.new.items) }
{
    let place = place_of(step, 1);
    if place >= passes.len() {
        return "no such pass".to_string(alloc);
    }
    passes[place].line_by(alloc, queue, beside, step)
}

/// Adds the line of each step.
pub fn add_steps<P: Stepped>(
    alloc: Global,
    queue: &P::Queue,
    passes: &mut Vec<P>,
    beside: &mut P::Beside,
    steps: &[Value],
    lines: &mut Vec<String>,
) -> Result<(), AllocError>
    requires { All (λ p. IsPassOf (P.opened queue.now) (P.known p)) passes.old.items }
    ensures { IfOk result (λ _. All (λ p. IsPassOf (P.opened queue.now) (P.known p)) passes.new.items) }
{
    for step in steps {
        lines.push(P::line_of(alloc, queue, passes, beside, step)?)?;
    }
    Ok(())
}

/// Gives back all passes, or those of some threads, the last one first.
pub fn pick<P: Driven>(
    alloc: Global,
    queue: &P::Queue,
    mut passes: Vec<P>,
    threads: &Value,
) -> Result<Vec<P>, AllocError>
    requires { All (λ p. IsPassOf (P.opened queue.now) (P.known p)) passes.items }
    ensures { IfOk result (λ picked. All (λ p. IsPassOf (P.opened queue.now) (P.known p)) picked.items) }
{
    let _of = queue;
    if threads.as_bool().unwrap_or(false) {
        return Ok(passes);
    }
    let mut picked = Vec::new(alloc);
    while let Some(pass) = passes.pop() {
        if has(threads, pass.number()) {
            picked.push(pass)?;
        }
    }
    Ok(picked)
}
