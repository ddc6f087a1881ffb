//! Sealing a queue that was found empty.
ghost use Rattle.std.specs.Prelude.{◌≡◌, ◌<◌, ◌≤◌, ◌++◌, None, true, false};
ghost use Rattle.kfifo_live.specs.Hands.{Gifts};
ghost use Rattle.kfifo_live.specs.Pass.{IsPassOf, IsSamePass, IsSealedEmpty, PassKeepsPromise};
ghost use Rattle.kfifo_live.specs.Schedule.{GiftsFit, gifts_of, hand_of, seen_of, thread_of, with_seen};
ghost use Rattle.kfifo_live.specs.Seals.{Dequeues, FailsToSeal, SealsFrom, WasSeen};
ghost use Rattle.kfifo_live.specs.Step.{IsAt};
ghost use Rattle.kfifo_model.specs.declared.calls.Answer.{Answer};

use crate::queue::{Pass, Queue};
use crate::seats::try_seal;
use crate::view::{ThreadSeat, Words};
use kfifo_model::Answer;
use kfifo_words::{ENDS_INDEX, Ends, Shape};

/// What it came to that a pass sealed a queue.
#[derive(Clone, Copy, PartialEq, Eq, Debug)]
pub enum Sealing {
    /// The queue was empty, and stays so: no item comes out of it any more.
    Sealed,
    /// The queue is not sealed. The dequeue that was to find it empty returned this: Got with an item, which is the
    /// caller's; Busy; Worn; or Empty where head and tail moved, or an enqueue held the head, before the seal.
    Open(Answer),
}

/// Seals the ends where they still stand as they were at a load before. Returns whether they are sealed.
pub(crate) fn seal_ends<T>(
    shared: &Words<T>,
    seat: &mut ThreadSeat<T>,
    shape: &Shape,
    ends: Ends,
) -> bool
    requires table { (seat.old.table_id ≡ shared.now.table_id) × (0 < shared.now.table_id.words) }
    requires shape { seat.old.me.0.opened.shape ≡ shape.now }
    requires idle { IsAt None seat.old.me }
    requires seen { WasSeen seat.old.me.0.opened ends (seen_of seat.old.me.0) }
    ensures same { (seat.new.table_id ≡ seat.old.table_id) × (seat.new.me.1 ≡ seat.old.me.1) }
    ensures idle { IsAt None seat.new.me }
    ensures sealed { result ≡ true → SealsFrom seat.old.me.0.opened (thread_of seat.old.me.0) ends
        (seen_of seat.old.me.0) (seen_of seat.new.me.0) }
    ensures open { result ≡ false → FailsToSeal seat.old.me.0.opened (thread_of seat.old.me.0) ends
        (seen_of seat.old.me.0) (seen_of seat.new.me.0) }
    ensures gifts { (given : Gifts T) × (seat.new.me.0 ≡ with_seen seat.old.me.0 (seen_of seat.new.me.0)
        (gifts_of seat.old.me.0 ++ given) (hand_of seat.old.me.0)) }
    ensures in_turn { GiftsFit seat.old.me.0.opened (seen_of seat.old.me.0) (gifts_of seat.old.me.0)
        → GiftsFit seat.old.me.0.opened (seen_of seat.new.me.0) (gifts_of seat.new.me.0) }
{
    if ends.head() != ends.tail() {
        return false;
    }
    if ends.version() >= shape.last() {
        return true;
    }
    // A seal that does not compare would seal ends that moved since the queue was found empty, and items in it.
    try_seal(shared, seat, shape, ends) == ends
}

impl Pass {
    /// Seals the ends where they still stand as they were when the pass loaded them.
    fn seal_from(&mut self, queue: &Queue, ends: Ends) -> bool
        requires of { IsPassOf queue.now self.old }
        requires seen { WasSeen self.old.opened ends self.old.seen }
        requires promise { PassKeepsPromise self.old }
        ensures same { IsSamePass self.old self.new }
        ensures sealed { result ≡ true → SealsFrom self.old.opened self.old.thread ends self.old.seen self.new.seen }
        ensures open { result ≡ false → FailsToSeal self.old.opened self.old.thread ends self.old.seen self.new.seen }
        ensures promise { PassKeepsPromise self.new }
    {
        seal_ends(&queue.table.shared, &mut self.seat, &queue.shape, ends)
    }

    /// Seals the queue where it is found empty: from then on, however calls go on or begin, where all have ended the
    /// queue is empty. It makes one dequeue, whose scan begins at slot `start`, in at most `turns` rounds.
    ///
    /// ```rust
    /// let sealing = pass.seal(&queue, 0, 258);
    /// ```
    ///
    /// Returns Sealed where the dequeue returned Empty and the ends word was the same over the whole of it up to the
    /// seal, or was sealed before; else Open with what the dequeue returned. It never allocates, waits or locks.
    pub fn seal(&mut self, queue: &Queue, start: u32, turns: u16) -> Sealing
        requires of { IsPassOf queue.now self.old }
        requires start { start < queue.now.opened.shape.k }
        requires turns { 1 ≤ turns }
        ensures same { IsSamePass self.old self.new }
        ensures sealed { result ≡ Sealing.Sealed → IsSealedEmpty self.new }
        ensures open { (answer : Answer) → result ≡ Sealing.Open answer
            → Dequeues start turns answer self.old self.new }
        ensures promise { PassKeepsPromise self.new }
    {
        let ends = Ends::of_bits(self.word(queue, ENDS_INDEX));
        let answer = self.dequeue(queue, start, turns);
        match answer {
            Answer::Empty => {
                if self.seal_from(queue, ends) {
                    Sealing::Sealed
                } else {
                    Sealing::Open(answer)
                }
            }
            _ => Sealing::Open(answer),
        }
    }
}
