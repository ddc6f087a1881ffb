//! The atomic steps that the calls of a queue are made of.
//!
//! Each of them is one event of the schedule, the one that the thread's place in its call asks for.
ghost use Rattle.std.specs.Prelude.{◌≡◌, ◌<◌, Some, None};
ghost use Rattle.kfifo_words.specs.Words.{version_of};
ghost use Rattle.kfifo_words.specs.declared.ends.TheConstants.{ENDS_INDEX};
ghost use Rattle.kfifo_machine.specs.declared.place.Access.TheVariants.{Load, Exchange};
ghost use Rattle.kfifo_machine.specs.Places.{IsEnds};
ghost use Rattle.kfifo_machine.specs.Program.{advance, head_moved, tail_moved};
ghost use Rattle.kfifo_machine.specs.Runs.{going};
ghost use Rattle.kfifo_machine.specs.declared.place.Running.{Running};
ghost use Rattle.kfifo_live.specs.Step.{Awaits, BeginsAtEnds, Rests, Runs, Stepped};

use crate::rule::{BegunCall, FirstStep, NextStep};
use crate::view::{ThreadSeat, Words};
use kfifo_machine::Begin;
use kfifo_words::{ENDS_INDEX, Ends, Shape, Word};
use std::alloc::AllocError;

/// The words of a queue, and the sizes of its ring.
pub(crate) struct Ring<'a, T> {
    pub(crate) words: &'a Words<T>,
    pub(crate) shape: &'a Shape,
}

impl<'a, T> Clone for Ring<'a, T> {
    fn clone(&self) -> Result<Ring<'a, T>, AllocError> {
        Ok(*self)
    }
}

impl<'a, T> Copy for Ring<'a, T> {}

impl<T> Ring<'_, T> {
    /// Loads a word.
    #[inline(always)]
    pub(crate) fn load(self, seat: &mut ThreadSeat<T>, index: usize) -> Word
        requires { Awaits self seat.old (Load index) }
        ensures { Stepped self.entry seat.old result seat.new }
    {
        Word::of_bits(self.words.load::<NextStep>(seat, index))
    }

    /// Puts `to` in the place of `from`, and returns the word that it found: `from` where it was won.
    #[inline(always)]
    pub(crate) fn compare_exchange(
        self,
        seat: &mut ThreadSeat<T>,
        index: usize,
        from: Word,
        to: Word,
    ) -> Word
        requires { Awaits self seat.old (Exchange index from to) }
        ensures { Stepped self.entry seat.old result seat.new }
    {
        let found = self
            .words
            .compare_exchange::<NextStep>(seat, index, from.bits(), to.bits());
        Word::of_bits(found)
    }

    /// Loads the ends word, with which the call begins.
    #[inline(always)]
    pub(crate) fn begin<C: BegunCall>(self, seat: &mut ThreadSeat<T>, begin: Begin) -> Ends
        requires picked { C.begin ≡ begin }
        requires rests { Rests self (Some begin) seat.old }
        requires first { BeginsAtEnds self.shape.now begin }
        ensures { (place : Running) → going self.entry.shape.now None (Some begin) ≡ Some place
            → Runs (Some begin) seat.old (advance self.entry.shape.now place result) seat.new }
    {
        Ends::of_bits(self.words.load::<FirstStep<C>>(seat, ENDS_INDEX))
    }

    /// Loads the ends word.
    #[inline(always)]
    pub(crate) fn load_ends(self, seat: &mut ThreadSeat<T>) -> Ends
        requires { Awaits self seat.old (Load ENDS_INDEX) }
        ensures { Stepped self.entry seat.old result seat.new }
    {
        self.load(seat, ENDS_INDEX).into()
    }

    /// Moves the head on to the next segment, and returns the ends that it found: `ends` where it was won.
    #[inline(always)]
    pub(crate) fn move_head(self, seat: &mut ThreadSeat<T>, ends: Ends) -> Ends
        requires ends { IsEnds self.shape.now ends }
        requires version { version_of ends < self.shape.now.last }
        requires next { Awaits self seat.old (Exchange ENDS_INDEX ends (head_moved self.shape.now ends)) }
        ensures { Stepped self.entry seat.old result seat.new }
    {
        let head = self.shape.next(ends.head());
        let moved = Ends::pack(head, ends.tail(), ends.version() + 1);
        self.compare_exchange(seat, ENDS_INDEX, ends.into(), moved.into())
            .into()
    }

    /// Moves the tail on to the next segment, and returns the ends that it found: `ends` where it was won.
    #[inline(always)]
    pub(crate) fn move_tail(self, seat: &mut ThreadSeat<T>, ends: Ends) -> Ends
        requires ends { IsEnds self.shape.now ends }
        requires version { version_of ends < self.shape.now.last }
        requires next { Awaits self seat.old (Exchange ENDS_INDEX ends (tail_moved self.shape.now ends)) }
        ensures { Stepped self.entry seat.old result seat.new }
    {
        let tail = self.shape.next(ends.tail());
        let moved = Ends::pack(ends.head(), tail, ends.version() + 1);
        self.compare_exchange(seat, ENDS_INDEX, ends.into(), moved.into())
            .into()
    }
}
