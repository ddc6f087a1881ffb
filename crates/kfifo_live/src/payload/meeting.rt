//! Passes of a payload queue tell each other what they have seen.
ghost use Rattle.std.specs.Prelude.{◌≡◌};
ghost use Rattle.kfifo_machine.specs.Runs.{Begins};
ghost use Rattle.kfifo_live.specs.Pass.{IsPassOf, IsSamePass, PassKeepsPromise};
ghost use Rattle.kfifo_live.specs.Payloads.{GivesOn};

use crate::payload::{PayPass, PayQueue};
use crate::seats::{give_all, give_rest, join_seats, observe};
use std::marker::Brand;

impl<T: Drop> PayQueue<T> {
    /// The second pass has then seen all that the first had, by one load of the ends word, which is no event. The first
    /// stays as it was, and each keeps its tokens. What each has seen keeps the promise of the queue.
    pub fn meet(&self, first: &mut PayPass<T>, second: &mut PayPass<T>)
        requires first { IsPassOf self.now first.old.pass }
        requires second { IsPassOf self.now second.old.pass }
        ensures first { first.new ≡ first.old }
        ensures same { IsSamePass second.old.pass second.new.pass × (second.new.tokens ≡ second.old.tokens) }
        ensures all_of_first { Begins first.old.pass.thread first.old.pass.seen second.new.pass.seen }
        ensures others { Begins second.old.pass.thread second.old.pass.seen second.new.pass.seen }
        ensures gifts { GivesOn first.old second.new × GivesOn second.old second.new }
        ensures promise { PassKeepsPromise first.new.pass × PassKeepsPromise second.new.pass }
    {
        let shared = &self.table.shared;
        let whole = give_all(shared, &mut first.seat);
        join_seats::<_, Brand>(shared, &mut second.seat, whole);
        observe(shared, &mut second.seat, 0);
        let rest = give_rest(shared, &mut second.seat);
        join_seats::<_, Brand>(shared, &mut first.seat, rest);
    }
}
