//! The running queue by many threads, and where memory is refused. Its calls by one thread are rows of
//! `test_live_rows`.
ghost use Rattle.std.specs.Prelude.{◌≡◌, ◌<◌, ◌≤◌};
ghost use Rattle.kfifo_live.specs.Pass.{IsPassOf, IsSamePass};

use super::record::is_call;
use super::{dequeue, draw, enqueue, plain};
use kfifo_live::{Pass, Queue};
use kfifo_machine::Begin;
use kfifo_model::Answer;

mod handles;
mod payloads;
mod seals;
mod stamps;
mod threads;

/// Makes a call on the queue, if it is one that may be made.
fn call(queue: &Queue, pass: &mut Pass, begin: Begin) -> Option<Answer>
    requires { IsPassOf queue.now pass.old }
    ensures { IsSamePass pass.old pass.new }
{
    if !is_call(&queue.shape(), begin) {
        return None;
    }
    match begin {
        Begin::Enqueue { item, start, turns } => {
            Some(plain::enqueue(queue, pass, item, start, turns))
        }
        Begin::Dequeue { start, turns } => Some(plain::dequeue(queue, pass, start, turns)),
        Begin::Tick | Begin::Seal => None,
    }
}
