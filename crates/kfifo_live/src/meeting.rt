//! Passes tell each other what they have seen.
ghost use Rattle.std.specs.Prelude.{◌≡◌, List};
ghost use Rattle.kfifo_machine.specs.declared.event.Event.{Event};
ghost use Rattle.kfifo_machine.specs.Runs.{Begins, own};
ghost use Rattle.kfifo_live.specs.Pass.{IsPassOf, IsSamePass, PassKeepsPromise, StartsWith};

use crate::queue::{Pass, Queue};
use crate::seats::{give_all, give_rest, join_seats, observe};
use std::marker::Brand;

/// The second pass has then seen all that the first had, by one load of the ends word, which is no
/// event. What the first has seen stays as it was.
///
/// What is new to the second is no event of its own, and no event of the first that the first has not
/// seen. So a schedule that the second had seen before, and that begins with what the first has seen,
/// holds exactly the events that the first has seen of its own.
///
/// What each of them has seen keeps the promise of the queue: its calls stand in a legal order, in
/// which no item is overtaken k times where items are distinct.
pub fn meet(queue: &Queue, first: &mut Pass, second: &mut Pass)
    requires first { IsPassOf queue.now first.old }
    requires second { IsPassOf queue.now second.old }
    ensures first { first.new ≡ first.old }
    ensures same { IsSamePass second.old second.new }
    ensures all_of_first { Begins first.old.thread first.old.seen second.new.seen }
    ensures others { Begins second.old.thread second.old.seen second.new.seen }
    ensures exactly { (before : List Event) → StartsWith second.old.seen before → StartsWith before first.old.seen
        → own first.old.thread before ≡ own first.old.thread first.old.seen }
    ensures promise { PassKeepsPromise first.new × PassKeepsPromise second.new }
{
    let shared = &queue.table.shared;
    let whole = give_all(shared, &mut first.seat);
    join_seats::<_, Brand>(shared, &mut second.seat, whole);
    observe(shared, &mut second.seat, 0);
    let rest = give_rest(shared, &mut second.seat);
    join_seats::<_, Brand>(shared, &mut first.seat, rest);
}
