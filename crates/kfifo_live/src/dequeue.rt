//! The dequeue of the running queue, step by step.
//!
//! Each call of a method of `ring` that takes the seat is one atomic step, and a scan one for each slot.
ghost use Rattle.std.specs.Prelude.{◌≡◌, ◌<◌, ◌≤◌, Some};
ghost use Rattle.kfifo_live.specs.Step.{Comes, Rests, Runs, Stands};
ghost use Rattle.kfifo_live.specs.Rounds.{dequeue_at, dequeue_round};

use crate::ring::Ring;
use crate::scan::Filled;
use crate::view::ThreadSeat;
use kfifo_machine::{Begin, DequeuePhase, Found, Next};
use kfifo_model::Answer;
use kfifo_words::{Ends, Word};
use std::alloc::AllocError;
use std::marker::Brand;

/// A dequeue in one of its rounds. `left` counts the rounds that are left, this one among them.
pub(crate) struct Dequeue<'a, T> {
    ring: Ring<'a, T>,
    start: u32,
    left: u16,
}

impl<'a, T> Clone for Dequeue<'a, T> {
    fn clone(&self) -> Result<Dequeue<'a, T>, AllocError> {
        Ok(*self)
    }
}

impl<'a, T> Copy for Dequeue<'a, T> {}

impl<T> Dequeue<'_, T> {
    /// Takes the item out of a filled slot.
    #[inline(always)]
    fn take(
        self,
        seat: &mut ThreadSeat<T>,
        ends: Ends,
        index: usize,
        filled: Word,
    ) -> Option<Answer>
        requires { Stands self.ring seat.old (dequeue_at self (DequeuePhase.Take ends index filled)) }
        ensures { Comes seat.old (dequeue_round self.entry result) seat.new }
    {
        // The version rises with each take, so one of two dequeues that read the item loses.
        let emptied = Word::pack(0, filled.version() + 1);
        if self.ring.compare_exchange(seat, index, filled, emptied) != filled {
            return None;
        }
        Some(Answer::Got(filled.value()))
    }

    /// Moves the tail on, and then takes the item.
    #[inline(always)]
    fn close_segment(
        self,
        seat: &mut ThreadSeat<T>,
        ends: Ends,
        index: usize,
        filled: Word,
    ) -> Option<Answer>
        requires { Stands self.ring seat.old (dequeue_at self (DequeuePhase.MoveTail ends index filled)) }
        ensures { Comes seat.old (dequeue_round self.entry result) seat.new }
    {
        if self.ring.move_tail(seat, ends) != ends {
            return None;
        }
        self.take(seat, ends, index, filled)
    }

    /// Goes on to a filled slot of the head's segment, if head and tail stand as before.
    #[inline(always)]
    fn empty_slot(
        self,
        seat: &mut ThreadSeat<T>,
        ends: Ends,
        index: usize,
        filled: Word,
    ) -> Option<Answer>
        requires { Stands self.ring seat.old (dequeue_at self (DequeuePhase.Recheck ends (Found.Slot index filled))) }
        ensures { Comes seat.old (dequeue_round self.entry result) seat.new }
    {
        // The segment may no longer be the head's: the item would not be one of the k oldest.
        if self.ring.load_ends(seat) != ends {
            return None;
        }
        // Head and tail in one segment: while enqueues still fill it, more than k items could go through
        // it, and overtake one that stays. So the tail leaves the segment before an item is taken.
        if ends.tail() != ends.head() {
            return self.take(seat, ends, index, filled);
        }
        if ends.version() == self.ring.shape.last() {
            return Some(Answer::Worn);
        }
        self.close_segment(seat, ends, index, filled)
    }

    /// Goes on from a head's segment in which no slot was filled, if head and tail stand as before.
    #[inline(always)]
    fn leave_segment(self, seat: &mut ThreadSeat<T>, ends: Ends) -> Option<Answer>
        requires { Stands self.ring seat.old (dequeue_at self (DequeuePhase.Recheck ends Found.Nothing)) }
        ensures { Comes seat.old (dequeue_round self.entry result) seat.new }
    {
        // An item may have been put into a slot after it was seen empty. It is not Done before the head is held, which
        // changes the ends word: without this look the call would return Empty though it is there.
        if self.ring.load_ends(seat) != ends {
            return None;
        }
        if ends.tail() == ends.head() {
            return Some(Answer::Empty);
        }
        if ends.version() == self.ring.shape.last() {
            return Some(Answer::Worn);
        }
        self.ring.move_head(seat, ends);
        None
    }

    /// One round, after its first load of the ends word. None where it is lost.
    #[inline(always)]
    fn round(self, seat: &mut ThreadSeat<T>, ends: Ends) -> Option<Answer>
        requires { Stands self.ring seat.old (dequeue_at self (DequeuePhase.ScanHead ends 0)) }
        ensures { Comes seat.old (dequeue_round self.entry result) seat.new }
    {
        let slots = self.ring.shape.k();
        match self
            .ring
            .scan_all::<Filled>(seat, ends.head(), self.start, slots)
        {
            Found::Slot { index, word } => self.empty_slot(seat, ends, index, word),
            Found::Nothing => self.leave_segment(seat, ends),
        }
    }
}

impl<T> Ring<'_, T> {
    /// Takes one of the oldest items.
    #[inline(always)]
    pub(crate) fn dequeue(self, seat: &mut ThreadSeat<T>, start: u32, turns: u16) -> Answer
        requires start { start < self.shape.now.k }
        requires turns { 1 ≤ turns }
        requires rests { Rests self (Some (Begin.Dequeue start turns)) seat.old }
        ensures { Runs (Some (Begin.Dequeue start turns)) seat.old (Next.Answers result) seat.new }
    {
        let mut ends = self.begin::<Brand>(seat, Begin::Dequeue { start, turns });
        let mut left = turns;
        'rounds: loop {
            let call = Dequeue {
                ring: self,
                start,
                left,
            };
            if let Some(answer) = call.round(seat, ends) {
                return answer;
            }
            if left == 1 {
                return Answer::Busy;
            }
            left -= 1;
            ends = self.load_ends(seat);
        }
    }
}
