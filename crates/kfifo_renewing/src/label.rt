//! The words of the places in which generations are.
ghost use Rattle.std.specs.Prelude.{◌≡◌, ◌<◌, ◌≤◌, ◌+◌, ◌%◌, ◌^◌, ℕ, List, IfOk, IfSome, Some};
ghost use mathlib.Core.List.{IsPrefix};
ghost use Rattle.logbook.specs.Pages.{Cell, may_make_home, nib};
ghost use Rattle.kfifo_renewing.specs.History.{AreLabels, FindsThere, IsGone, IsKept, IsPlaced, WasNewest, key_of};
ghost use Rattle.kfifo_renewing.specs.History.{TellsPlace, label_of, newest_of, place_count, shows};
ghost use Rattle.kfifo_renewing.specs.Joining.{IsPart, IsSealedPart};

use crate::change::Change;
use crate::history::{Emptying, Filling, History, HistoryRule, LookingThere, Naming, NoGain};
use crate::joined::Joined;
use crate::leaving::Leaving;
use logbook::{Offer, Pen, Pens, Word};
use std::alloc::{AllocError, Global};
use std::marker::Model;

/// How many places a queue has labels for: enough for 64 threads.
pub(crate) const PLACES: u32 = 130;

/// What a place says of the generation that is in it: twice its number and 1, or an even word where there is none.
///
/// Clauses see the place, and the book that has the word.
#[derive(Drop)]
pub(crate) struct Label {
    place: u32,
    word: Word<Change, u64, HistoryRule>,
}

impl Model for Label {
    ghost use Rattle.std.specs.Prelude.{◌≡◌, ◌<◌};
    ghost use Rattle.kfifo_renewing.specs.History.{LabelView, label_of, place_count, word_of};

    ghost Value = { LabelView };

    ghost view = { λ l. record { place = l.place; book = l.word.book } };

    ghost invariant = { λ l. (l.word ≡ word_of l.word.book (label_of l.place)) × (l.place < place_count) };
}

impl Label {
    /// The label of this place, which the pen may make. No generation is there.
    pub(crate) fn new(place: u32, pen: &mut Pen) -> Label
        requires place { place < place_count }
        requires pen { pen.old.nib ≡ nib may_make_home (label_of place) 0 }
        ensures { (result.place ≡ place) × (result.book ≡ pen.old.book) }
    {
        let word = Word::tracked(0, pen);
        Label { place, word }
    }

    /// The word of the place, as one load finds it.
    fn read(&self, history: &mut History) -> u64
        requires { history.old.book ≡ self.now.book }
        ensures later { (history.new.book ≡ history.old.book) × IsPrefix history.old.log history.new.log }
        ensures tells { TellsPlace history.new.log self.now.place result }
        ensures kept { (cells : List Cell) × IsKept cells history.new.log }
    {
        let mut offer: Offer<Change, u64, HistoryRule, NoGain> = history.plain::<
            NoGain,
            u32,
            Naming,
        >(&self.place);
        self.word.load::<LookingThere, NoGain>(history, &mut offer)
    }

    /// The number of the generation that is in the place, as one load finds it.
    pub(crate) fn look(&self, history: &mut History) -> Option<u32>
        requires { history.old.book ≡ self.now.book }
        ensures later { (history.new.book ≡ history.old.book) × IsPrefix history.old.log history.new.log }
        ensures finds { FindsThere self.now.place result history.old.log history.new.log }
        ensures kept { (cells : List Cell) × IsKept cells history.new.log }
    {
        number_in(self.read(history))
    }

    /// What the word of the place is, as one load finds it, if no generation is there, and the one with this number was
    /// not there before.
    pub(crate) fn look_before(&self, number: u32, history: &mut History) -> Option<u64>
        requires { history.old.book ≡ self.now.book }
        ensures later { (history.new.book ≡ history.old.book) × IsPrefix history.old.log history.new.log }
        ensures none { IfSome result (λ word. word % 2 ≡ 0) }
    {
        let found = self.read(history);
        // Numbers rise, so each generation that was there has a lower one, unless this one was and has gone.
        if found % 2 == 0 && found < showing(number) {
            Some(found)
        } else {
            None
        }
    }

    /// Shows the generation with this number, which was the newest, in the place, if the word there is still this one,
    /// by which no generation is there.
    pub(crate) fn show(&self, none: u64, number: u32, history: &mut History)
        requires book { history.old.book ≡ self.now.book }
        requires none { none % 2 ≡ 0 }
        requires newest { WasNewest history.old.log number }
        ensures later { (history.new.book ≡ history.old.book) × IsPrefix history.old.log history.new.log }
    {
        let mut offer: Offer<Change, u64, HistoryRule, NoGain> = history.plain::<
            NoGain,
            u32,
            Naming,
        >(&number);
        let mut pen = history.no_pen();
        self.word
            .compare_exchange::<Filling, NoGain>(
                none,
                showing(number),
                history,
                &mut offer,
                &mut pen,
            );
    }

    /// Takes the generation of this part out of the place, if no other handle has. It is the newest no more, and the
    /// part has seen it sealed empty.
    pub(crate) fn leave<T: Drop>(&self, part: &Leaving<Joined<T>>, history: &mut History)
        requires book { history.old.book ≡ self.now.book }
        requires part { IsPart history.old.log part.now }
        requires over { part.now.number < newest_of history.old.log }
        requires empty { IsSealedPart part.now }
        ensures later { (history.new.book ≡ history.old.book) × IsPrefix history.old.log history.new.log }
        ensures gone { IsPlaced history.old.log part.now.number self.now.place
            → IsGone history.new.log part.now.number }
    {
        let mut offer: Offer<Change, u64, HistoryRule, NoGain> = history.plain::<
            NoGain,
            Leaving<Joined<T>>,
            Emptying,
        >(part);
        let mut pen = history.no_pen();
        let shown = showing(part.number());
        // Each generation leaves a word of its own. Were it the same one each time, a handle that looked at the place
        // long ago could show a generation there that has gone since.
        self.word
            .compare_exchange::<Emptying, NoGain>(shown, shown + 1, history, &mut offer, &mut pen);
    }
}

/// What a label says where the generation with this number is in the place.
fn showing(number: u32) -> u64
    ensures { (result ≡ shows number) × (result < 2 ^ 33) }
{
    2 * u64::from(number) + 1
}

/// The number of the generation of which a label says this.
fn number_in(word: u64) -> Option<u32>
    requires { word ≤ 2 ^ 33 }
    ensures some { (n : ℕ) → result ≡ Some n → word ≡ shows n }
    ensures word { (n : ℕ) → word ≡ shows n → result ≡ Some n }
{
    if word % 2 == 0 {
        None
    } else {
        Some((word / 2) as u32)
    }
}

/// The labels of all places, which these pens may make.
pub(crate) fn label_all(alloc: Global, pens: &mut Pens) -> Result<Vec<Label>, AllocError>
    requires { (pens.old.next ≡ label_of 0) × (place_count ≤ pens.old.left) }
    ensures labels { IfOk result (λ labels. AreLabels pens.old.book labels.items) }
    ensures pens { IfOk result (λ _. (pens.new.book ≡ pens.old.book) × (pens.new.next ≡ key_of 0)
        × (pens.new.left + place_count ≡ pens.old.left)) }
{
    let mut labels = Vec::with_capacity(alloc, PLACES as usize)?;
    for place in 0..PLACES {
        labels.push(Label::new(place, &mut pens.take()))?;
    }
    Ok(labels)
}
