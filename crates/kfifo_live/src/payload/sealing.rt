//! Taking a payload, or sealing the queue where none is left.
ghost use Rattle.std.specs.Prelude.{◌≡◌, ◌<◌, ◌≤◌, true, false};
ghost use Rattle.kfifo_words.specs.declared.ends.TheConstants.{ENDS_INDEX};
ghost use Rattle.kfifo_live.specs.Pass.{Finds, IsPassOf, IsSamePass, IsSealedEmpty, PassKeepsPromise};
ghost use Rattle.kfifo_live.specs.Seals.{FailsToSeal, KeepsTokens, SealsFrom, TakesOrSeals, WasSeen};

use crate::payload::{PayPass, PayQueue, Taken};
use crate::sealing::seal_ends;
use crate::seats::observe;
use kfifo_words::{ENDS_INDEX, Ends};

/// What `take_or_seal` returns.
#[derive(Clone, Copy, PartialEq, Eq, Debug, Drop)]
pub enum TakenOrSealed<T> {
    /// One of the k oldest payloads, whose token the pass then has.
    Got(T),
    /// The queue was empty, but is not sealed: head or tail moved meanwhile, or an enqueue held the head.
    Empty,
    /// The queue was empty, and stays so: no payload comes out of it any more.
    Sealed,
    /// Each round was lost.
    Busy,
    /// A version would pass the greatest one.
    Worn,
}

impl<T: Drop> PayPass<T> {
    /// The ends, as one load finds them. It is no event.
    fn look_at_ends(&mut self, queue: &PayQueue<T>) -> Ends
        requires of { IsPassOf queue.now self.old.pass }
        ensures same { IsSamePass self.old.pass self.new.pass }
        ensures finds { Finds self.old.pass self.new.pass ENDS_INDEX result }
        ensures keeps { KeepsTokens self.old self.new }
    {
        Ends::of_bits(observe(&queue.table.shared, &mut self.seat, ENDS_INDEX))
    }

    /// Seals the ends where they still stand as they were when the pass loaded them. Returns whether they are sealed.
    fn seal_from(&mut self, queue: &PayQueue<T>, ends: Ends) -> bool
        requires of { IsPassOf queue.now self.old.pass }
        requires seen { WasSeen self.old.pass.opened ends self.old.pass.seen }
        ensures same { IsSamePass self.old.pass self.new.pass }
        ensures sealed { result ≡ true
            → SealsFrom self.old.pass.opened self.old.pass.thread ends self.old.pass.seen self.new.pass.seen }
        ensures open { result ≡ false
            → FailsToSeal self.old.pass.opened self.old.pass.thread ends self.old.pass.seen self.new.pass.seen }
        ensures keeps { KeepsTokens self.old self.new }
        ensures promise { PassKeepsPromise self.new.pass }
    {
        seal_ends(&queue.table.shared, &mut self.seat, &queue.shape, ends)
    }

    /// Takes one of the k oldest payloads, as `take` does, and seals the queue where it is empty: from then on, however
    /// calls go on or begin, where all have ended no payload is in it.
    ///
    /// ```rust
    /// let taken = pass.take_or_seal(&queue, 0, 258); // start slot, turns
    /// ```
    ///
    /// Returns as `take` does; and in place of Empty, Sealed where the ends word was the same from before the take up
    /// to the seal, or was sealed before. Empty then says that it was not the same, or that an enqueue held the head.
    /// It never allocates, waits or locks.
    pub fn take_or_seal(&mut self, queue: &PayQueue<T>, start: u32, turns: u16) -> TakenOrSealed<T>
        requires of { IsPassOf queue.now self.old.pass }
        requires start { start < queue.now.opened.shape.k }
        requires turns { 1 ≤ turns }
        ensures same { IsSamePass self.old.pass self.new.pass }
        ensures takes { TakesOrSeals start turns result self.old self.new }
        ensures sealed { result ≡ TakenOrSealed.Sealed → IsSealedEmpty self.new.pass }
        ensures promise { PassKeepsPromise self.new.pass }
    {
        let ends = self.look_at_ends(queue);
        match self.take(queue, start, turns) {
            Taken::Got(payload) => TakenOrSealed::Got(payload),
            Taken::Empty => {
                if self.seal_from(queue, ends) {
                    TakenOrSealed::Sealed
                } else {
                    TakenOrSealed::Empty
                }
            }
            Taken::Busy => TakenOrSealed::Busy,
            Taken::Worn => TakenOrSealed::Worn,
        }
    }
}
