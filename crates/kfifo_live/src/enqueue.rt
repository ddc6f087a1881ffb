//! The enqueue of the running queue, step by step.
//!
//! Each call of a method of `ring` that takes the seat is one atomic step, and a scan one for each slot.
ghost use Rattle.std.specs.Prelude.{◌≡◌, ℕ, ◌<◌, ◌≤◌, ◌^◌, Some};
ghost use Rattle.kfifo_live.specs.Step.{Comes, Rests, Runs, Stands};
ghost use Rattle.kfifo_live.specs.Rounds.{enqueue_at, enqueue_round, put_next, rounds_next, LeavesAtMost};

use crate::ring::Ring;
use crate::scan::{Empty, Filled};
use crate::view::ThreadSeat;
use kfifo_machine::{Begin, EnqueuePhase, Found, Next};
use kfifo_model::Answer;
use kfifo_words::{ENDS_INDEX, Ends, Word};
use std::alloc::AllocError;
use std::marker::Brand;

/// An enqueue in one of its rounds. `left` counts the rounds that are left, this one among them.
pub(crate) struct Enqueue<'a, T> {
    ring: Ring<'a, T>,
    item: u32,
    start: u32,
    left: u16,
}

impl<'a, T> Clone for Enqueue<'a, T> {
    fn clone(&self) -> Result<Enqueue<'a, T>, AllocError> {
        Ok(*self)
    }
}

impl<'a, T> Copy for Enqueue<'a, T> {}

/// What an enqueue comes to once its item is put.
enum PutOutcome {
    /// The call returns.
    Answered(Answer),
    /// The item is out again, and the round lost.
    TakenOut,
    /// Another thread changed the ends before the head was held, which costs the round. The item is in its slot, or was
    /// taken.
    NotHeld,
}

/// What rounds of an enqueue come to.
enum RoundOutcome {
    /// The call returns.
    Answered(Answer),
    /// The last of them is lost, with `left` rounds left, that one among them.
    Lost { left: u16 },
}

impl<T> Enqueue<'_, T> {
    /// Takes the item out again.
    #[inline(always)]
    fn undo(self, seat: &mut ThreadSeat<T>, index: usize, filled: Word, worn: bool) -> PutOutcome
        requires { Stands self.ring seat.old (enqueue_at self (EnqueuePhase.Undo index filled worn)) }
        ensures { (ends : ℕ) → Comes seat.old (put_next self.entry ends index filled result) seat.new }
    {
        // The version rises. If it went back to the empty slot's, an enqueue that has read the slot as empty could put
        // its item long after, in a segment that is no longer the tail's (ABA).
        let emptied = Word::pack(0, filled.version() + 1);
        if self.ring.compare_exchange(seat, index, filled, emptied) != filled {
            return PutOutcome::Answered(Answer::Done);
        }
        if worn {
            PutOutcome::Answered(Answer::Worn)
        } else {
            PutOutcome::TakenOut
        }
    }

    /// Holds the head at the item's segment, or takes the item out again.
    #[inline(always)]
    fn hold_head(
        self,
        seat: &mut ThreadSeat<T>,
        ends: Ends,
        now: Ends,
        index: usize,
        filled: Word,
    ) -> PutOutcome
        requires { Stands self.ring seat.old (enqueue_at self (EnqueuePhase.HoldHead ends index filled now)) }
        ensures { Comes seat.old (put_next self.entry ends index filled result) seat.new }
    {
        // A dequeue may have seen this slot empty, before the put, and be about to move the head on. It
        // would pass the item: raising the version makes its compare-and-swap fail.
        let held = Ends::pack(now.head(), now.tail(), now.version() + 1);
        let found = self
            .ring
            .compare_exchange(seat, ENDS_INDEX, now.into(), held.into());
        if found == now.into() {
            return PutOutcome::Answered(Answer::Done);
        }
        // If each such loss took the item out, two threads could keep each other busy for ever.
        if self.ring.shape.holds_again() && self.left != 1 {
            return PutOutcome::NotHeld;
        }
        self.undo(seat, index, filled, false)
    }

    /// Sees to it that the head will not pass the item, or takes the item out again.
    #[inline(always)]
    fn settle(self, seat: &mut ThreadSeat<T>, ends: Ends, index: usize, filled: Word) -> PutOutcome
        requires { Stands self.ring seat.old (enqueue_at self (EnqueuePhase.ReloadEnds ends index filled)) }
        ensures { Comes seat.old (put_next self.entry ends index filled result) seat.new }
    {
        let shape = self.ring.shape;
        let segment = ends.tail();
        let now = self.ring.load_ends(seat);
        let head = now.head();
        if segment == head {
            if now.version() == shape.last() {
                return self.undo(seat, index, filled, true);
            }
            return self.hold_head(seat, ends, now, index, filled);
        }
        // Between the look at the ends and the put, others may have filled and emptied the segment, and the head have
        // moved on past it. Done would then leave the item behind the head: a dequeue could return Empty while it is
        // there.
        let tail = now.tail();
        if segment == tail || shape.dist(head, segment) <= shape.dist(head, tail) {
            return PutOutcome::Answered(Answer::Done);
        }
        self.undo(seat, index, filled, false)
    }

    /// Puts the item into an empty slot.
    #[inline(always)]
    fn put(self, seat: &mut ThreadSeat<T>, ends: Ends, index: usize, empty: Word) -> RoundOutcome
        requires { Stands self.ring seat.old (enqueue_at self (EnqueuePhase.Put ends index empty)) }
        ensures comes { Comes seat.old (rounds_next self.entry result) seat.new }
        ensures left { LeavesAtMost self.entry.left result }
    {
        let filled = Word::pack(self.item, empty.version() + 1);
        if self.ring.compare_exchange(seat, index, empty, filled) != empty {
            return RoundOutcome::Lost { left: self.left };
        }
        self.keep(seat, ends, index, filled)
    }

    /// Sees to it that the item stays, once more after each hold of the head that was lost.
    #[inline(always)]
    fn keep(self, seat: &mut ThreadSeat<T>, ends: Ends, index: usize, filled: Word) -> RoundOutcome
        requires { Stands self.ring seat.old (enqueue_at self (EnqueuePhase.ReloadSlot ends index filled)) }
        ensures comes { Comes seat.old (rounds_next self.entry result) seat.new }
        ensures left { LeavesAtMost self.entry.left result }
    {
        let mut left = self.left;
        'holds: loop {
            let call = Enqueue {
                ring: self.ring,
                item: self.item,
                start: self.start,
                left,
            };
            match call.see_put(seat, ends, index, filled) {
                PutOutcome::Answered(answer) => return RoundOutcome::Answered(answer),
                PutOutcome::TakenOut => return RoundOutcome::Lost { left },
                PutOutcome::NotHeld => {}
            }
            left -= 1;
        }
    }

    /// Looks at the slot again, the item being put.
    #[inline(always)]
    fn see_put(self, seat: &mut ThreadSeat<T>, ends: Ends, index: usize, filled: Word) -> PutOutcome
        requires { Stands self.ring seat.old (enqueue_at self (EnqueuePhase.ReloadSlot ends index filled)) }
        ensures { Comes seat.old (put_next self.entry ends index filled result) seat.new }
    {
        // Where a dequeue has taken the item already, no place in the queue is left to be made sure of.
        if self.ring.load(seat, index) != filled {
            return PutOutcome::Answered(Answer::Done);
        }
        self.settle(seat, ends, index, filled)
    }

    /// Moves the head on off an empty segment, or sees that the ring is full.
    #[inline(always)]
    fn make_room(self, seat: &mut ThreadSeat<T>, ends: Ends) -> Option<Answer>
        requires { Stands self.ring seat.old (enqueue_at self (EnqueuePhase.ScanHead ends 0)) }
        ensures { Comes seat.old (enqueue_round self.entry result) seat.new }
    {
        let shape = self.ring.shape;
        if let Found::Slot { .. } = self.ring.scan::<Filled>(seat, ends.head(), 0, shape.k()) {
            return self.confirm_full(seat, ends);
        }
        if ends.version() == shape.last() {
            return Some(Answer::Worn);
        }
        // The round ends here, won or lost. Moving the tail as well, after a move of the head that was
        // lost, would let the tail meet the head: a full ring would look empty.
        self.ring.move_head(seat, ends);
        None
    }

    /// Sees that head and tail stand where all slots were seen filled.
    #[inline(always)]
    fn confirm_full(self, seat: &mut ThreadSeat<T>, ends: Ends) -> Option<Answer>
        requires { Stands self.ring seat.old (enqueue_at self (EnqueuePhase.ConfirmFull ends)) }
        ensures { Comes seat.old (enqueue_round self.entry result) seat.new }
    {
        // The slots were looked at one after the other. Only if head and tail have not moved since, they were slots of
        // the tail's and the head's segment, all in one round.
        if self.ring.load_ends(seat) == ends {
            Some(Answer::Full)
        } else {
            None
        }
    }

    /// Goes on from a tail's segment in which no probed slot was empty, if head and tail stand as before.
    #[inline(always)]
    fn leave_segment(self, seat: &mut ThreadSeat<T>, ends: Ends) -> Option<Answer>
        requires { Stands self.ring seat.old (enqueue_at self (EnqueuePhase.Recheck ends Found.Nothing)) }
        ensures { Comes seat.old (enqueue_round self.entry result) seat.new }
    {
        let shape = self.ring.shape;
        // The segment was seen filled while it was the tail's only if head and tail stand as before.
        if self.ring.load_ends(seat) != ends {
            return None;
        }
        if shape.next(ends.tail()) == ends.head() {
            return self.make_room(seat, ends);
        }
        if ends.version() == shape.last() {
            return Some(Answer::Worn);
        }
        self.ring.move_tail(seat, ends);
        None
    }

    /// Goes on to an empty slot of the tail's segment, if head and tail stand as before.
    #[inline(always)]
    fn fill_slot(
        self,
        seat: &mut ThreadSeat<T>,
        ends: Ends,
        index: usize,
        empty: Word,
    ) -> RoundOutcome
        requires { Stands self.ring seat.old (enqueue_at self (EnqueuePhase.Recheck ends (Found.Slot index empty))) }
        ensures comes { Comes seat.old (rounds_next self.entry result) seat.new }
        ensures left { LeavesAtMost self.entry.left result }
    {
        // The segment may no longer be the tail's. An item put there would stand behind items that came
        // later, and be overtaken by them.
        if self.ring.load_ends(seat) != ends {
            return RoundOutcome::Lost { left: self.left };
        }
        // A put needs a version, and the one that empties the slot again another.
        if self.ring.shape.last() < empty.version() + 2 {
            return RoundOutcome::Answered(Answer::Worn);
        }
        self.put(seat, ends, index, empty)
    }

    /// One round, after its first load of the ends word, and those in which it tries again to hold the head.
    #[inline(always)]
    fn round(self, seat: &mut ThreadSeat<T>, ends: Ends) -> RoundOutcome
        requires { Stands self.ring seat.old (enqueue_at self (EnqueuePhase.ScanTail ends 0)) }
        ensures comes { Comes seat.old (rounds_next self.entry result) seat.new }
        ensures left { LeavesAtMost self.entry.left result }
    {
        let probes = self.ring.shape.probes();
        match self
            .ring
            .scan::<Empty>(seat, ends.tail(), self.start, probes)
        {
            Found::Slot { index, word } => self.fill_slot(seat, ends, index, word),
            Found::Nothing => match self.leave_segment(seat, ends) {
                Some(answer) => RoundOutcome::Answered(answer),
                None => RoundOutcome::Lost { left: self.left },
            },
        }
    }
}

impl<T> Ring<'_, T> {
    /// Puts an item into the queue.
    #[inline(always)]
    pub(crate) fn enqueue(
        self,
        seat: &mut ThreadSeat<T>,
        item: u32,
        start: u32,
        turns: u16,
    ) -> Answer
        requires item { (1 ≤ item) × (item < 2 ^ 24) }
        requires start { start < self.shape.now.k }
        requires turns { 1 ≤ turns }
        requires rests { Rests self (Some (Begin.Enqueue item start turns)) seat.old }
        ensures { Runs (Some (Begin.Enqueue item start turns)) seat.old (Next.Answers result) seat.new }
    {
        let mut ends = self.begin::<Brand>(seat, Begin::Enqueue { item, start, turns });
        let mut left = turns;
        'rounds: loop {
            let call = Enqueue {
                ring: self,
                item,
                start,
                left,
            };
            match call.round(seat, ends) {
                RoundOutcome::Answered(answer) => return answer,
                RoundOutcome::Lost { left: lost } => left = lost,
            }
            if left == 1 {
                return Answer::Busy;
            }
            left -= 1;
            ends = self.load_ends(seat);
        }
    }
}
