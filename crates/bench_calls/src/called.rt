//! The same calls, each by a function that is not inlined, as a program has them that calls from many places.
ghost use Rattle.std.specs.Prelude.{◌≡◌, ◌<◌, ◌≤◌, ◌*◌, ◌^◌};
ghost use Rattle.kfifo_machine.specs.declared.event.Begin.TheVariants.{Enqueue, Dequeue};
ghost use Rattle.kfifo_live.specs.Calls.{Makes};
ghost use Rattle.kfifo_live.specs.Pass.{IsPassOf, IsSamePass};

use crate::{Starts, TURNS};
use kfifo_live::{Pass, Queue};
use kfifo_model::Answer;

/// `Pass::enqueue`, not inlined.
#[inline(never)]
fn enqueue(pass: &mut Pass, queue: &Queue, item: u32, start: u32, turns: u16) -> Answer
    requires of { IsPassOf queue.now pass.old }
    requires item { (1 ≤ item) × (item < 2 ^ 24) }
    requires start { start < queue.now.opened.shape.k }
    requires turns { 1 ≤ turns }
    ensures same { IsSamePass pass.old pass.new }
    ensures run { Makes (Enqueue item start turns) result pass.old pass.new }
{
    pass.enqueue(queue, item, start, turns)
}

/// `Pass::dequeue`, not inlined.
#[inline(never)]
fn dequeue(pass: &mut Pass, queue: &Queue, start: u32, turns: u16) -> Answer
    requires of { IsPassOf queue.now pass.old }
    requires start { start < queue.now.opened.shape.k }
    requires turns { 1 ≤ turns }
    ensures same { IsSamePass pass.old pass.new }
    ensures run { Makes (Dequeue start turns) result pass.old pass.new }
{
    pass.dequeue(queue, start, turns)
}

/// Puts and takes an item in turn, and counts the calls that did so.
pub(crate) fn put_and_take(queue: &Queue, pass: &mut Pass, starts: &mut Starts, calls: u32) -> u64
    requires of { IsPassOf queue.now pass.old }
    requires k { starts.old.k ≡ queue.now.opened.shape.k }
    ensures wanted { result ≤ 2 * calls }
    ensures same { IsSamePass pass.old pass.new }
{
    let mut wanted: u64 = 0;
    for item in 0..calls {
        if let Answer::Done = enqueue(pass, queue, (item & 65_535) + 1, starts.next(), TURNS) {
            wanted += 1;
        }
        if let Answer::Got(_) = dequeue(pass, queue, starts.next(), TURNS) {
            wanted += 1;
        }
    }
    wanted
}

/// Takes from an empty queue, and counts the calls that found it empty.
pub(crate) fn take_none(queue: &Queue, pass: &mut Pass, starts: &mut Starts, calls: u32) -> u64
    requires of { IsPassOf queue.now pass.old }
    requires k { starts.old.k ≡ queue.now.opened.shape.k }
    ensures wanted { result ≤ calls }
    ensures same { IsSamePass pass.old pass.new }
{
    let mut wanted: u64 = 0;
    for call in 0..calls {
        if let Answer::Empty = dequeue(pass, queue, starts.next(), TURNS) {
            wanted += 1;
        }
    }
    wanted
}
