//! Where the generations of a queue are that threads may still need, for each to find those that are new to it.
//!
//! A place has a word, which says whether a generation is there, its number and how many readers look at it. A
//! generation is put there before it becomes the newest. Its label says the number too, and proofs speak of labels: a
//! label is written once the generation was the newest, by any handle, and before a later one becomes that. It is
//! cleared before the place is emptied.
ghost use Rattle.std.specs.Prelude.{◌≡◌, ◌<◌, ◌≤◌, ◌+◌, ◌%◌, ℕ, All, IfOk, IfSome, List, MatchBool, Some};
ghost use Rattle.std.specs.Prelude.{length, true};
ghost use mathlib.Core.List.{IsPrefix};
ghost use Rattle.counted_slot.specs.Counting.{readers};
ghost use Rattle.logbook.specs.Pages.{Cell};
ghost use Rattle.kfifo_renewing.specs.declared.places.Lineage.{Lineage};
ghost use Rattle.kfifo_renewing.specs.History.{AreLabels, FindsThere, HasRisen, IsGone, IsKept, IsPlaced};
ghost use Rattle.kfifo_renewing.specs.History.{WasNewest, newest_of, place_count};
ghost use Rattle.kfifo_renewing.specs.Joining.{AreAmong, HasNumber, IsPart, IsSealedPart};
ghost use Rattle.kfifo_renewing.specs.Renewing.{IsOfLineage};

use crate::generation::Generation;
use crate::history::History;
use crate::joined::Joined;
use crate::label::{Label, PLACES};
use crate::leaving::Leaving;
use counted_slot::{Claim, Counted, FREE, Fits, MARKED, MOST_READERS, ONE_READER, PRESENT, TAKEN};
use kfifo_live::Sizes;
use std::alloc::{AllocError, Global};
use std::marker::Model;
use std::sync::Arc;

/// How often a step on a word is tried that other threads change meanwhile.
const TRIES: u32 = 1_024;

/// What the generations of a queue have in common: what each is opened with, and the history in which they have their
/// numbers.
#[derive(Drop)]
pub struct Lineage {
    pub sizes: Sizes,
    /// Whether each is bare.
    pub bare: bool,
    pub history: History,
}

/// A generation that the place shares with those that found it there.
#[derive(Drop)]
pub(crate) struct Occupant<T: Drop> {
    generation: Arc<Generation<T>, Global>,
}

impl<T: Drop> Fits for Occupant<T> {
    type Tag = Lineage;

    ghost fits = { λ lineage held. IsOfLineage lineage held.generation.value };
}

/// The places of a queue's generations. Each has a label, which says which generation is there.
#[derive(Drop)]
pub(crate) struct Places<T: Drop> {
    places: Vec<Counted<Option<Occupant<T>>>>,
    labels: Vec<Label>,
    pub(crate) lineage: Lineage,
}

impl<T: Drop> Model for Places<T> {
    ghost use Rattle.std.specs.Prelude.{◌≡◌, ◌≤◌, All, length};
    ghost use Rattle.kfifo_renewing.specs.declared.places.Lineage.{Lineage};
    ghost use Rattle.kfifo_renewing.specs.History.{AreLabels, place_count};

    ghost Value = { Lineage };

    ghost view = { λ p. p.lineage };

    ghost invariant = { λ p. All (λ lineage. lineage ≡ p.lineage) p.places.items × (length p.places.items ≤ place_count)
        × AreLabels p.lineage.history.book p.labels.items };
}

fn number_in(word: u64) -> u32 {
    (word >> 32) as u32
}

fn state_in(word: u64) -> u64
    ensures { result ≡ word % 4 }
{
    word % 4
}

fn readers_in(word: u64) -> u64
    ensures { result ≡ readers word }
{
    word % 0x1_0000_0000 / 4
}

impl<T: Drop> Places<T> {
    /// So many empty places, with these labels.
    pub(crate) fn new(
        alloc: Global,
        lineage: Lineage,
        labels: Vec<Label>,
        count: usize,
    ) -> Result<Places<T>, AllocError>
        requires labels { AreLabels lineage.history.book labels.items }
        requires few { count ≤ place_count }
        ensures { IfOk result (λ p. p ≡ lineage) }
    {
        let mut places = Vec::with_capacity(alloc, count)?;
        for _ in 0..count {
            places.push(Counted::new(None, &lineage))?;
        }
        Ok(Places {
            places,
            labels,
            lineage,
        })
    }

    /// The history of the queue, as far as its opening had seen it.
    pub(crate) fn history(&self) -> &History
        ensures { result.now ≡ self.now.history }
    {
        &self.lineage.history
    }

    /// How many places there are.
    pub(crate) fn count(&self) -> usize {
        self.places.len()
    }

    /// Whether a place is empty.
    pub(crate) fn has_room(&self) -> bool {
        self.places.iter().any(|place| place.load() == FREE)
    }

    /// Puts a generation with this number into an empty place, which it returns. It drops the generation, and returns
    /// None, where there is none.
    pub(crate) fn put(&self, number: u32, generation: Arc<Generation<T>, Global>) -> Option<usize>
        requires { IsOfLineage self.now generation.value }
        ensures { IfSome result (λ index. index < place_count) }
    {
        for index in 0..self.places.len() {
            let (found, claim) = self.places[index].turn(FREE, TAKEN);
            if found == FREE {
                let _ = claim.put(
                    Some(Occupant { generation }),
                    (u64::from(number) << 32) + PRESENT,
                );
                return Some(index);
            }
            claim.done();
        }
        None
    }

    /// Shows the generation with this number, which was the newest, in this place, if it is there and was not shown.
    pub(crate) fn show(&self, index: usize, number: u32, history: &mut History)
        requires book { history.old.book ≡ self.now.history.book }
        requires inside { index < place_count }
        requires newest { WasNewest history.old.log number }
        ensures later { (history.new.book ≡ history.old.book) × IsPrefix history.old.log history.new.log }
    {
        let Some(none) = self.labels[index].look_before(number, history) else {
            return;
        };
        // The look at the label comes first. Else the generation could be shown, and go, between the two.
        if self.number_at(index) == Some(number) {
            self.labels[index].show(none, number, history);
        }
    }

    /// The number of the generation that lies in this place, whether it is shown there or not.
    fn number_at(&self, index: usize) -> Option<u32> {
        let word = self.places.get(index)?.load();
        if state_in(word) == PRESENT {
            Some(number_in(word))
        } else {
            None
        }
    }

    /// The number of the generation that is shown in this place.
    fn look(&self, index: usize, history: &mut History) -> Option<u32>
        requires book { history.old.book ≡ self.now.history.book }
        requires inside { index < place_count }
        ensures later { (history.new.book ≡ history.old.book) × IsPrefix history.old.log history.new.log }
        ensures finds { FindsThere index result history.old.log history.new.log }
        ensures kept { (cells : List Cell) × IsKept cells history.new.log }
    {
        self.labels[index].look(history)
    }

    /// Whether the generation with this number is shown in this place.
    pub(crate) fn has(&self, index: usize, number: u32, history: &mut History) -> bool
        requires book { history.old.book ≡ self.now.history.book }
        requires inside { index < place_count }
        ensures later { (history.new.book ≡ history.old.book) × IsPrefix history.old.log history.new.log }
        ensures finds { MatchBool result (IsPlaced history.new.log number index)
            (IsPlaced history.old.log number index → IsGone history.new.log number) }
        ensures kept { (cells : List Cell) × IsKept cells history.new.log }
    {
        match self.look(index, history) {
            Some(found) => found == number,
            None => false,
        }
    }

    /// The place of the generation with this number, if it is shown in one.
    fn find_shown(&self, number: u32, history: &mut History) -> Option<usize>
        requires book { history.old.book ≡ self.now.history.book }
        ensures later { (history.new.book ≡ history.old.book) × IsPrefix history.old.log history.new.log }
        ensures there { IfSome result (λ index. (index < place_count) × IsPlaced history.new.log number index) }
    {
        for index in 0..self.places.len() {
            if self.has(index, number, history) {
                return Some(index);
            }
        }
        None
    }

    /// The place of the generation with this number, which was the newest, if it is in one. It is shown there.
    pub(crate) fn find(&self, number: u32, history: &mut History) -> Option<usize>
        requires book { history.old.book ≡ self.now.history.book }
        requires newest { WasNewest history.old.log number }
        ensures later { (history.new.book ≡ history.old.book) × IsPrefix history.old.log history.new.log }
        ensures there { IfSome result (λ index. (index < place_count) × IsPlaced history.new.log number index) }
    {
        if let Some(index) = self.find_shown(number, history) {
            return Some(index);
        }
        // Its maker may not have shown it yet, and nobody waits for that.
        for index in 0..self.places.len() {
            self.show(index, number, history);
        }
        self.find_shown(number, history)
    }

    /// The place and the number of the first generation whose number is above `number`, and below `end`.
    pub(crate) fn next_after(
        &self,
        number: u32,
        end: u64,
        history: &mut History,
    ) -> Option<(usize, u32)>
        requires book { history.old.book ≡ self.now.history.book }
        ensures later { (history.new.book ≡ history.old.book) × IsPrefix history.old.log history.new.log }
        ensures between { IfSome result (λ r. (r.0 < place_count) × (number < r.1) × (r.1 < end)) }
    {
        let mut next = None;
        let mut least = end;
        for index in 0..self.places.len() {
            let Some(other) = self.look(index, history) else {
                continue;
            };
            if number < other && u64::from(other) < least {
                next = Some((index, other));
                least = u64::from(other);
            }
        }
        next
    }

    /// Whether each generation that is shown in a place, with a number above `number` and below `end`, which was the
    /// newest, is among these.
    pub(crate) fn has_no_other(
        &self,
        number: u32,
        end: u64,
        joined: &[Leaving<Joined<T>>],
        history: &mut History,
    ) -> bool
        requires book { history.old.book ≡ self.now.history.book }
        requires newest { WasNewest history.old.log end }
        ensures later { (history.new.book ≡ history.old.book) × IsPrefix history.old.log history.new.log }
        ensures others { result ≡ true → AreAmong number end joined.now history.old.log history.new.log }
    {
        let seen = history.again();
        history.learn(&seen);
        for index in 0..PLACES as usize {
            let found = self.look(index, history);
            if !is_known(joined, number, end, found) {
                return false;
            }
        }
        true
    }

    /// Empties the places of the generations that were never the newest, though their numbers are below this one, which
    /// was: others were faster than their makers.
    pub(crate) fn clear_below(&self, number: u32, history: &mut History)
        requires book { history.old.book ≡ self.now.history.book }
        requires risen { HasRisen history.old.log }
        ensures later { (history.new.book ≡ history.old.book) × IsPrefix history.old.log history.new.log }
        ensures risen { HasRisen history.new.log }
    {
        for index in 0..self.places.len() {
            let Some(other) = self.number_at(index) else {
                continue;
            };
            if other >= number {
                continue;
            }
            // One that was the newest was shown before the next one became that, and is so until it goes.
            if self.has(index, other, history) {
                continue;
            }
            self.empty(index, other);
        }
    }

    /// The generation with this number at this place, if it is still there.
    pub(crate) fn read(&self, index: usize, number: u32) -> Option<Arc<Generation<T>, Global>>
        ensures { IfSome result (λ g. IsOfLineage self.now g.value) }
    {
        let place = self.places.get(index)?;
        for _ in 0..TRIES {
            let word = place.load();
            if state_in(word) != PRESENT
                || number_in(word) != number
                || readers_in(word) >= MOST_READERS
            {
                return None;
            }
            let (found, claim) = place.turn(word, word + ONE_READER);
            if found == word {
                let copy = match claim.get() {
                    Some(held) => Arc::try_clone(&held.generation).ok(),
                    None => None,
                };
                leave(place, claim);
                return copy;
            }
            claim.done();
        }
        None
    }

    /// Takes the generation of this part out of its place: it is the newest no more, and the part has seen it sealed
    /// empty.
    pub(crate) fn retire(&self, part: &Leaving<Joined<T>>, history: &mut History)
        requires book { history.old.book ≡ self.now.history.book }
        requires part { IsPart history.old.log part.now }
        requires over { part.now.number < newest_of history.old.log }
        requires empty { IsSealedPart part.now }
        ensures later { (history.new.book ≡ history.old.book) × IsPrefix history.old.log history.new.log }
        ensures gone { IsGone history.new.log part.now.number }
        ensures risen { HasRisen history.new.log }
    {
        // The label goes first: who finds a label finds the generation, unless it goes meanwhile.
        self.labels[part.place()].leave(part, history);
        self.empty(part.place(), part.number());
        let seen = history.again();
        history.learn(&seen);
    }

    /// Empties a place, if the generation with this number is still there, which is not shown. Where others look at it,
    /// the last of them empties the place.
    pub(crate) fn empty(&self, index: usize, number: u32) {
        let Some(place) = self.places.get(index) else {
            return;
        };
        for _ in 0..TRIES {
            let word = place.load();
            if state_in(word) != PRESENT || number_in(word) != number {
                return;
            }
            if readers_in(word) == 0 {
                if clear(place, word) {
                    return;
                }
            } else {
                let (found, claim) = place.turn(word, word + (MARKED - PRESENT));
                claim.done();
                if found == word {
                    return;
                }
            }
        }
    }
}

/// Empties a place whose word is this one, unless another thread changed it. The generation may go with it.
fn clear<T: Drop>(place: &Counted<Option<Occupant<T>>>, word: u64) -> bool
    requires { (word % 4 < 3) × (readers word ≡ 0) }
{
    let (found, claim) = place.turn(word, word - state_in(word) + TAKEN);
    if found != word {
        claim.done();
        return false;
    }
    let _ = claim.put(None, FREE);
    true
}

/// Ends a look at a place. The last reader of a place that was to be emptied empties it.
fn leave<T: Drop>(place: &Counted<Option<Occupant<T>>>, claim: Claim<'_, Option<Occupant<T>>>)
    requires { claim.right ≡ 1 }
{
    let word = claim.leave();
    if state_in(word) == MARKED && readers_in(word) == 1 {
        clear(place, word - ONE_READER);
    }
}

/// Whether the generation with this number is among these.
fn has_number<T: Drop>(joined: &[Leaving<Joined<T>>], number: u32) -> bool
    ensures { MatchBool result (HasNumber joined.now number) (HasNumber joined.now number → ⊥) }
{
    let Some((first, rest)) = joined.split_first() else {
        return false;
    };
    if first.number() == number {
        return true;
    }
    has_number(rest, number)
}

/// Whether what was found in a place is one of these generations, or its number is not between these.
fn is_known<T: Drop>(
    joined: &[Leaving<Joined<T>>],
    number: u32,
    end: u64,
    found: Option<u32>,
) -> bool
    ensures { result ≡ true → (n : ℕ) → found ≡ Some n → number < n → n < end → HasNumber joined.now n }
{
    let Some(other) = found else {
        return true;
    };
    if other <= number || u64::from(other) >= end {
        return true;
    }
    has_number(joined, other)
}
