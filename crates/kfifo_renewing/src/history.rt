//! The history of a queue's generations, and the words that tell of it.
//!
//! The history lives in proofs alone: a `History` is a beginning of it that was seen, and has no bytes.
ghost use Rattle.std.specs.Prelude.{◌≡◌, ◌≢◌, ◌+◌, ◌++◌, ◌^◌, ◌<◌, ◌≤◌, ℕ, List, [], ◌∷◌, IfOk, IfSome, length, true};
ghost use Rattle.logbook.specs.Pages.{may_make, may_write, nib};
ghost use mathlib.Core.List.{IsPrefix};
ghost use Rattle.kfifo_renewing.specs.History.{AreLabels, Finds, HasRisen, IsMade, IsNextToLeave, IsPlaced};
ghost use Rattle.kfifo_renewing.specs.History.{WasNewest, key_of};
ghost use Rattle.kfifo_renewing.specs.History.{left_of, made_by, newest_of, next_in as next_of, opens_more};
ghost use Rattle.kfifo_renewing.specs.History.{place_count, sight_of};
ghost use Rattle.kfifo_renewing.specs.declared.change.Change.{Change as HasChanged};

use crate::change::Change;
use crate::joined::Joined;
use crate::label::{Label, PLACES, label_all};
use crate::leaving::Leaving;
use kfifo_pool::PooledQueue;
use logbook::{Gain, Offer, Opening, Pen, Plain, Play, Rule, Seen, Start, Word};
use std::alloc::{AllocError, Global};
use std::marker::Model;

/// How often a step on a word is tried that other threads change meanwhile.
const TRIES: u32 = 1_024;

/// What holds of the history and the words at each moment.
pub struct HistoryRule;

impl Rule<Change, u64> for HistoryRule {
    ghost use Rattle.std.specs.Prelude.{[]};
    ghost use base.Fml.{ftrue};
    ghost use Rattle.kfifo_renewing.specs.History.{IsKept, WasNewest};

    ghost holds = { λ cells log. IsKept cells log };

    ghost first = { [] };

    ghost hinted = { λ n log. WasNewest log n };

    ghost shows = { λ log. [] };

    ghost keeps = { λ names log. ftrue };

    ghost moves = { λ ask before after answer. Unit {0} };
}

/// A beginning of the history that was seen.
pub type History = Seen<Change, u64, HistoryRule>;

/// Handles trade nothing in a step.
pub struct NoGain;

impl Gain<Change, u64> for NoGain {
    ghost use base.Fml.{ftrue};

    ghost after = { λ names about answer. ftrue };
}

/// A step of which its number tells all.
pub struct Naming;

impl Plain<u32, Change, u64> for Naming {
    ghost use Rattle.std.specs.Prelude.{None};
    ghost use Rattle.kfifo_renewing.specs.declared.change.Change.TheVariants as C;

    ghost ask = { λ number. C.Newest number };

    ghost state = { λ number. None };
}

/// A look at the word of a generation, by the part of a handle in its newest one.
pub struct Looking;

impl<T: Drop> Plain<Leaving<Joined<T>>, Change, u64> for Looking {
    ghost use Rattle.std.specs.Prelude.{None};
    ghost use Rattle.kfifo_renewing.specs.declared.change.Change.TheVariants as C;
    ghost use Rattle.kfifo_renewing.specs.History.{sight_of};

    ghost ask = { λ part. C.Look (sight_of part.handle.held.pass.pass) };

    ghost state = { λ part. None };
}

impl Play<Change, u64> for Looking {
    ghost use Rattle.kfifo_renewing.specs.History.{Looks};

    ghost then = { Looks };
}

/// A step that makes a generation the newest.
pub struct Renewing;

impl Play<Change, u64> for Renewing {
    ghost use Rattle.kfifo_renewing.specs.History.{Renews};

    ghost then = { Renews };
}

/// A look at the word of a place.
pub struct LookingThere;

impl Play<Change, u64> for LookingThere {
    ghost use Rattle.kfifo_renewing.specs.History.{LooksThere};

    ghost then = { LooksThere };
}

/// A step that shows a generation in a place.
pub struct Filling;

impl Play<Change, u64> for Filling {
    ghost use Rattle.kfifo_renewing.specs.History.{Fills};

    ghost then = { Fills };
}

/// A step that takes a generation from its place.
pub struct Emptying;

/// It is taken by the part of a handle that has seen the generation sealed empty.
impl<T: Drop> Plain<Leaving<Joined<T>>, Change, u64> for Emptying {
    ghost use Rattle.std.specs.Prelude.{None};
    ghost use Rattle.kfifo_renewing.specs.declared.change.Change.TheVariants as C;
    ghost use Rattle.kfifo_renewing.specs.History.{sealed_by};

    ghost ask = { λ part. C.Gone (sealed_by part.number part.handle.held.pass.pass) };

    ghost state = { λ part. None };
}

impl Play<Change, u64> for Emptying {
    ghost use Rattle.kfifo_renewing.specs.History.{Empties};

    ghost then = { Empties };
}

/// A step by which a pass leaves its generation.
pub struct Departing;

impl<T: Drop> Plain<Leaving<Joined<T>>, Change, u64> for Departing {
    ghost use Rattle.std.specs.Prelude.{None};
    ghost use Rattle.kfifo_renewing.specs.declared.change.Change.TheVariants as C;
    ghost use Rattle.kfifo_renewing.specs.History.{sight_of};

    ghost ask = { λ part. C.Left part.number (sight_of part.handle.held.pass.pass) };

    ghost state = { λ part. None };
}

impl Play<Change, u64> for Departing {
    ghost use Rattle.kfifo_renewing.specs.History.{Leaves};

    ghost then = { Leaves };
}

/// A step that gives a queue its number as a generation.
pub struct Numbering;

impl<T: Drop> Plain<PooledQueue<T>, Change, u64> for Numbering {
    ghost use Rattle.std.specs.Prelude.{None};
    ghost use Rattle.kfifo_renewing.specs.History.{making_of};
    ghost use Rattle.std.specs.Prelude.{true};

    ghost ask = { λ queue. making_of queue true };

    ghost state = { λ queue. None };
}

impl Play<Change, u64> for Numbering {
    ghost use Rattle.kfifo_renewing.specs.History.{GivesNumber};

    ghost then = { GivesNumber };
}

/// The queue of the first generation, and whether further ones may follow it.
#[derive(Drop)]
pub struct First<T: Drop> {
    pub queue: PooledQueue<T>,
    pub opens_more: bool,
}

/// A history begins with its first generation.
impl<T: Drop> Opening<First<T>, Change> for Numbering {
    ghost use Rattle.std.specs.Prelude.{[], ◌∷◌};
    ghost use Rattle.kfifo_renewing.specs.History.{making_of};

    ghost log = { λ count first. making_of first.queue first.opens_more ∷ [] };
}

/// What each pass that leaves a generation adds to its word.
const ONE_LEFT: u64 = 0x1_0000_0000;

/// What a generation says of the next one, its number once there is one, and 0 before; and how many passes have left
/// the generation.
///
/// Clauses see the generation's number, and the book that has the word.
#[derive(Drop)]
pub(crate) struct Next {
    number: u32,
    word: Word<Change, u64, HistoryRule>,
}

impl Model for Next {
    ghost use Rattle.std.specs.Prelude.{◌≡◌};
    ghost use Rattle.kfifo_renewing.specs.History.{NextView, key_of, word_of};

    ghost Value = { NextView };

    ghost view = { λ n. record { number = n.number; book = n.word.book } };

    ghost invariant = { λ n. n.word ≡ word_of n.word.book (key_of n.number) };
}

/// The number of the newest generation, as far as its maker or another handle has said so, and the greatest number that
/// was given.
///
/// Clauses see them as the book that has the history.
#[derive(Drop)]
pub(crate) struct Numbers {
    /// The number of a generation that was the newest.
    newest: Word<Change, u64, HistoryRule>,
    /// The greatest number of a generation that was made.
    greatest: Word<Change, u64, HistoryRule>,
}

impl Model for Numbers {
    ghost use Rattle.std.specs.Prelude.{◌≡◌, false};
    ghost use Rattle.logbook.specs.Pages.{Book};
    ghost use Rattle.kfifo_renewing.specs.History.{word_of};

    ghost Value = { Book };

    ghost view = { λ n. n.greatest.book };

    ghost invariant = { λ n. (n.greatest ≡ word_of n.greatest.book 0) × (n.newest.tracked ≡ false)
        × (n.newest.book ≡ n.greatest.book) };
}

impl Next {
    /// The word of the generation with this number, which the pen may make.
    fn new(number: u32, pen: &mut Pen) -> Next
        requires { pen.old.nib ≡ nib may_make (key_of number) 0 }
        ensures next { (result.number ≡ number) × (result.book ≡ pen.old.book) }
        ensures pen { (pen.new.book ≡ pen.old.book) × (pen.new.nib ≡ nib may_write (key_of number) 0) }
    {
        let word = Word::tracked(0, pen);
        Next { number, word }
    }

    /// The number of the generation.
    pub(crate) fn number(&self) -> u32
        ensures { result ≡ self.now.number }
    {
        self.number
    }

    /// The number of a later generation, or 0 while this one is the newest, as one load finds it, which is a look by
    /// this part.
    #[inline(always)]
    pub(crate) fn look<T: Drop>(&self, part: &Leaving<Joined<T>>, history: &mut History) -> u64
        requires book { history.old.book ≡ self.now.book }
        requires newest { WasNewest history.old.log self.now.number }
        ensures book { history.new.book ≡ history.old.book }
        ensures finds { Finds (sight_of part.now.handle.held.pass.pass) self.now.number result history.old.log
            history.new.log }
    {
        next_in(self.read(part, history))
    }

    /// The word, as one load finds it, which is a look by this part.
    #[inline(always)]
    fn read<T: Drop>(&self, part: &Leaving<Joined<T>>, history: &mut History) -> u64
        requires book { history.old.book ≡ self.now.book }
        requires newest { WasNewest history.old.log self.now.number }
        ensures later { (history.new.book ≡ history.old.book) × IsPrefix history.old.log history.new.log }
        ensures finds { Finds (sight_of part.now.handle.held.pass.pass) self.now.number (next_of result) history.old.log
            history.new.log }
    {
        let mut offer: Offer<Change, u64, HistoryRule, NoGain> = history.plain::<
            NoGain,
            Leaving<Joined<T>>,
            Looking,
        >(part);
        self.word.load::<Looking, NoGain>(history, &mut offer)
    }

    /// Makes a later generation the newest, if this one is, which was shown in a place. The pen may write the word of
    /// the later one. Returns whether it did. If not, the pen still may.
    pub(crate) fn renew(&self, number: u32, pen: &mut Pen, history: &mut History) -> bool
        requires books { (history.old.book ≡ self.now.book) × (pen.old.book ≡ self.now.book) }
        requires newest { WasNewest history.old.log self.now.number }
        requires there { (place : ℕ) × (place < place_count) × IsPlaced history.old.log self.now.number place }
        requires later { self.now.number < number }
        requires more { opens_more history.old.log ≡ true }
        requires pen { pen.old.nib ≡ nib may_write (key_of number) 0 }
        ensures books { (history.new.book ≡ history.old.book) × (pen.new.book ≡ pen.old.book) }
        ensures newest { result ≡ true → WasNewest history.new.log number }
        ensures pen { result ≢ true → pen.new.nib ≡ pen.old.nib }
    {
        let mut offer: Offer<Change, u64, HistoryRule, NoGain> = history.plain::<
            NoGain,
            u32,
            Naming,
        >(&number);
        let found = self
            .word
            .compare_exchange::<Renewing, NoGain>(0, u64::from(number), history, &mut offer, pen);
        found == 0
    }

    /// Counts the pass of this part among those that have left the generation, if exactly `count` have left it before.
    /// The generation is no longer the newest, and one schedule has what all these did there. Returns whether it
    /// counted the pass.
    pub(crate) fn depart<T: Drop>(
        &self,
        count: u64,
        part: &Leaving<Joined<T>>,
        history: &mut History,
    ) -> bool
        requires book { history.old.book ≡ self.now.book }
        requires newest { WasNewest history.old.log self.now.number }
        requires over { self.now.number < newest_of history.old.log }
        requires number { part.now.number ≡ self.now.number }
        requires together { IsNextToLeave history.old.log self.now.number count
            (sight_of part.now.handle.held.pass.pass) }
        ensures later { (history.new.book ≡ history.old.book) × IsPrefix history.old.log history.new.log }
        ensures few { result ≡ true → count < 2 ^ 32 }
        ensures left { result ≡ true → (before : List HasChanged) → IsPrefix before history.old.log
            → length (left_of self.now.number before) ≡ count
            → left_of self.now.number history.new.log
            ≡ left_of self.now.number before ++ sight_of part.now.handle.held.pass.pass ∷ [] }
    {
        let word = self.read(part, history);
        let Some(new) = word.checked_add(ONE_LEFT) else {
            return false;
        };
        if word / ONE_LEFT != count {
            return false;
        }
        let mut offer: Offer<Change, u64, HistoryRule, NoGain> = history.plain::<
            NoGain,
            Leaving<Joined<T>>,
            Departing,
        >(part);
        let mut pen = history.no_pen();
        let found = self
            .word
            .compare_exchange::<Departing, NoGain>(word, new, history, &mut offer, &mut pen);
        found == word
    }
}

/// The lower half of the word of a generation: the number of a later one, or 0.
#[inline(always)]
fn next_in(word: u64) -> u64
    ensures { result ≡ next_of word }
{
    word % ONE_LEFT
}

impl Numbers {
    /// The history of a queue with one generation, which has the number 0, and the words that tell of it.
    #[tactic(auto, using(crate::proofs::Histories::was_first))]
    pub(crate) fn open<T: Drop>(
        alloc: Global,
        first: &First<T>,
    ) -> Result<(Numbers, Vec<Label>, Next, History), AllocError>
        ensures books { IfOk result (λ r. (r.3.book ≡ r.0) × AreLabels r.0 r.1.items × (r.2.book ≡ r.0)) }
        ensures first { IfOk result (λ r. (r.2.number ≡ 0) × IsMade r.3.log 0 (made_by first.now.queue)
            × WasNewest r.3.log 0) }
        ensures more { IfOk result (λ r. opens_more r.3.log ≡ first.now.opens_more) }
    {
        let (history, mut pens) = History::open_row::<First<T>, Numbering>(
            first,
            Start::alone(),
            PLACES as usize + 2,
        );
        let newest = Word::hint(&history);
        let greatest = Word::tracked(0, &mut pens.take());
        let labels = label_all(alloc, &mut pens)?;
        let word = Word::tracked(0, &mut pens.take());
        Ok((
            Numbers { newest, greatest },
            labels,
            Next { number: 0, word },
            history,
        ))
    }

    /// The number of a generation that was the newest: of the newest one, but for the time of a change.
    pub(crate) fn newest(&self, history: &mut History) -> u64
        requires { history.old.book ≡ self.now }
        ensures later { (history.new.book ≡ history.old.book) × IsPrefix history.old.log history.new.log }
        ensures newest { WasNewest history.new.log result }
        ensures risen { HasRisen history.new.log }
    {
        let number = self.newest.load_hint(history);
        let copy = history.again();
        history.learn(&copy);
        number
    }

    /// Says that the generation with the number `next` was the newest after the one with the number `old`, unless a
    /// later one was said to be. With 0 for `next` it says nothing.
    pub(crate) fn advance(&self, old: u32, next: u64, history: &History)
        requires book { history.now.book ≡ self.now }
        requires newest { 0 < next → WasNewest history.now.log next }
    {
        if next == 0 {
            return;
        }
        self.newest
            .compare_exchange_hint(u64::from(old), next, history);
    }

    /// Gives this queue a number as a generation, greater than those of all others: the word of the generation, and the
    /// pen that may write it. Returns None where others take numbers all the time, or no more are left.
    pub(crate) fn number<T: Drop>(
        &self,
        queue: &PooledQueue<T>,
        history: &mut History,
    ) -> Option<(Next, Pen)>
        requires { history.old.book ≡ self.now }
        ensures book { history.new.book ≡ history.old.book }
        ensures made { IfSome result (λ r. (r.0.book ≡ self.now)
            × IsMade history.new.log r.0.number (made_by queue.now)) }
        ensures pen { IfSome result (λ r. (r.1.book ≡ self.now) × (r.1.nib ≡ nib may_write (key_of r.0.number) 0)) }
    {
        let mut last = 0u32;
        for _ in 0..TRIES {
            let number = last.checked_add(1)?;
            let mut pen = history.no_pen();
            let found = self.step_to(number, queue, history, &mut pen);
            if found == u64::from(last) {
                return Some((Next::new(number, &mut pen), pen));
            }
            last = u32::try_from(found).ok()?;
        }
        None
    }

    /// Gives this queue this number as a generation, if the greatest one is one less. Returns the greatest.
    fn step_to<T: Drop>(
        &self,
        number: u32,
        queue: &PooledQueue<T>,
        history: &mut History,
        pen: &mut Pen,
    ) -> u64
        requires book { (history.old.book ≡ self.now) × (pen.old.book ≡ self.now) }
        requires number { 1 ≤ number }
        ensures book { (history.new.book ≡ history.old.book) × (pen.new.book ≡ pen.old.book) }
        ensures made { result + 1 ≡ number → IsMade history.new.log number (made_by queue.now) }
        ensures pen { result + 1 ≡ number → pen.new.nib ≡ nib may_make (key_of number) 0 }
    {
        let mut offer: Offer<Change, u64, HistoryRule, NoGain> = history.plain::<
            NoGain,
            PooledQueue<T>,
            Numbering,
        >(queue);
        let new = u64::from(number);
        self.greatest
            .compare_exchange::<Numbering, NoGain>(new - 1, new, history, &mut offer, pen)
    }
}
