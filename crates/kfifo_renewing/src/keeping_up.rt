//! How a handle follows others to newer generations, and leaves those that have gone.
ghost use Rattle.std.specs.Prelude.{◌≡◌, ◌<◌, ◌+◌, ◌*◌, false, true, [], All, IfSome, MatchBool, if◌then◌else◌, length};
ghost use mathlib.Core.List.{IsPrefix};
ghost use Rattle.kfifo_live.specs.Pass.{IsPassOf};
ghost use Rattle.kfifo_renewing.specs.History.{WasNewest, place_count};
ghost use Rattle.kfifo_renewing.specs.Joining.{AreAmong, HasSealedAt, IsPart, IsPartOf, IsUnused, LeavesAt};
ghost use Rattle.kfifo_renewing.specs.Renewing.{Follows, HasAll, IsAtNewest, IsBehind, IsFresh, IsLater, IsUntouched};
ghost use Rattle.kfifo_renewing.specs.Renewing.{LeavesGone, with_older, with_seen};

use crate::generation::Generation;
use crate::handle::RenewingHandle;
use crate::history::History;
use crate::joined::Joined;
use crate::kind::Kind;
use crate::label::PLACES;
use crate::leaving::Leaving;
use std::alloc::Global;
use std::mem::replace;
use std::sync::Arc;

/// How often a handle tries to follow others to a generation that is newer still.
const TRIES: u32 = 64;

/// How often a handle looks for the next generation that it has not joined. A queue that grows may have one in each of
/// its places, and some of these go meanwhile: with fewer looks than places, a handle that fell behind would be so for
/// ever.
const LOOKS: u32 = 4 * PLACES;

impl<T: Drop, K: Kind<T>> RenewingHandle<T, K> {
    /// The generation with this number in this place, and the part of the thread in it, if it is still there.
    fn enter(
        &self,
        place: usize,
        number: u32,
        history: &mut History,
    ) -> Option<(Arc<Generation<T>, Global>, Leaving<Joined<T>>)>
        requires book { history.old.book ≡ self.now.book }
        requires inside { place < place_count }
        ensures later { (history.new.book ≡ history.old.book) × IsPrefix history.old.log history.new.log }
        ensures of { IfSome result (λ r. IsPartOf self.now.opened self.now.book r.1
            × IsPassOf r.0.value.queue r.1.handle.held.pass.pass × (r.0.value.book ≡ self.now.book)) }
        ensures part { IfSome result (λ r. (r.0.value.number ≡ number) × (r.1.number ≡ number)
            × IsPart history.new.log r.1 × IsFresh self.now.thread r.1.handle) }
    {
        if !self.shared.places().has(place, number, history) {
            return None;
        }
        let generation = self.shared.places().read(place, number)?;
        if generation.number() != number {
            return None;
        }
        history.learn(generation.history());
        let part = Arc::try_clone(&generation).ok()?;
        let joined = Joined::join(part, place, self.thread)?;
        Some((generation, joined))
    }

    /// The same for the generation with this number, which was the newest, in whichever place it is, if it comes after
    /// that of the handle.
    fn enter_numbered(
        &self,
        number: u64,
        history: &mut History,
    ) -> Option<(Arc<Generation<T>, Global>, Leaving<Joined<T>>)>
        requires book { history.old.book ≡ self.now.book }
        requires newest { WasNewest history.old.log number }
        ensures later { (history.new.book ≡ history.old.book) × IsPrefix history.old.log history.new.log }
        ensures of { IfSome result (λ r. IsPartOf self.now.opened self.now.book r.1
            × IsPassOf r.0.value.queue r.1.handle.held.pass.pass × (r.0.value.book ≡ self.now.book)) }
        ensures part { IfSome result (λ r. (r.0.value.number ≡ number) × (r.1.number ≡ number)
            × IsPart history.new.log r.1 × (self.now.number < number)
            × IsFresh self.now.thread r.1.handle) }
    {
        let number = u32::try_from(number).ok()?;
        if number <= self.number() {
            return None;
        }
        let place = self.shared.places().find(number, history)?;
        self.enter(place, number, history)
    }

    /// Adds the part of the thread in each generation that it has not joined and whose number is below this one, in the
    /// order of their numbers. Returns false where it could not join all that are there.
    fn enter_below(
        &self,
        end: u64,
        between: &mut Vec<Leaving<Joined<T>>>,
        history: &mut History,
    ) -> bool
        requires book { history.old.book ≡ self.now.book }
        requires none { between.old.items ≡ [] }
        requires newest { WasNewest history.old.log end }
        ensures later { (history.new.book ≡ history.old.book) × IsPrefix history.old.log history.new.log }
        ensures opened { All (IsPartOf self.now.opened self.now.book) between.new.items }
        ensures parts { All (IsPart history.new.log) between.new.items }
        ensures below { All (λ p. p.number < end) between.new.items }
        ensures unused { All (IsUnused self.now.thread self.now.number) between.new.items }
        ensures all { result ≡ true → AreAmong self.now.number end between.new.items history.old.log history.new.log }
    {
        let mut number = self.number();
        for _ in 0..LOOKS {
            let Some((place, next)) = self.shared.places().next_after(number, end, history) else {
                return self
                    .shared
                    .places()
                    .has_no_other(self.number(), end, between.as_slice(), history);
            };
            let Some((_, joined)) = self.enter(place, next, history) else {
                // If it has gone, the next look does not find it.
                continue;
            };
            let Ok(()) = between.reserve(1) else {
                joined.leave_unused();
                return false;
            };
            between.push_reserved(joined);
            number = next;
        }
        false
    }

    /// The room for those that the handle is about to join.
    fn take_spare(&mut self) -> Vec<Leaving<Joined<T>>>
        ensures same { self.new ≡ self.old }
        ensures none { result.items ≡ [] }
    {
        let mut spare = replace(&mut self.spare, Vec::new(self.shared.allocator()));
        spare.clear();
        spare
    }

    /// Joins the generation with this number, which was the newest, and each before it that the handle has not joined.
    /// Joins none where it cannot join all.
    fn join_up_to(&mut self, last: u64)
        requires { WasNewest self.old.seen last }
        ensures { Follows self.old self.new }
    {
        let mut history = self.history.again();
        let Some((generation, newest)) = self.enter_numbered(last, &mut history) else {
            return;
        };
        let mut between = self.take_spare();
        if !self.enter_below(last, &mut between, &mut history) {
            leave_unused(&mut between);
            newest.leave_unused();
            self.spare = between;
            return;
        }
        self.join(generation, newest, between, &history);
    }

    /// Joins the generation with this part, and before it those with these parts. Joins none where memory is missing.
    fn join(
        &mut self,
        generation: Arc<Generation<T>, Global>,
        newest: Leaving<Joined<T>>,
        mut between: Vec<Leaving<Joined<T>>>,
        history: &History,
    )
        requires books { (history.now.book ≡ self.old.book) × (generation.value.book ≡ self.old.book) }
        requires of { IsPartOf self.old.opened self.old.book newest
            × IsPassOf generation.value.queue newest.handle.held.pass.pass }
        requires part { (newest.number ≡ generation.value.number) × IsPart history.now.log newest }
        requires later { self.old.number < generation.value.number }
        requires was { WasNewest self.old.seen generation.value.number }
        requires opened { All (IsPartOf self.old.opened self.old.book) between.items }
        requires parts { All (IsPart history.now.log) between.items }
        requires below { All (λ p. p.number < generation.value.number) between.items }
        requires unused { IsFresh self.old.thread newest.handle
            × All (IsUnused self.old.thread self.old.number) between.items }
        requires all { AreAmong self.old.number generation.value.number between.items self.old.seen history.now.log }
        ensures { Follows self.old self.new }
    {
        if !self.older.make_room(between.len()) {
            leave_unused(&mut between);
            newest.leave_unused();
            self.spare = between;
            return;
        }
        self.history.learn(history);
        self.generation = generation;
        let before = replace(&mut self.newest, newest);
        self.older.add(before, &mut between);
        self.spare = between;
    }

    /// The number of a generation that was the newest after that of the handle, or of the handle's where that is the
    /// newest still.
    fn latest(&mut self) -> u64
        ensures same { self.new ≡ with_seen self.old self.new.seen }
        ensures later { IsLater self.old self.new }
        ensures newest { WasNewest self.new.seen result }
    {
        let found = self.generation.next().look(&self.newest, &mut self.history);
        // The handle that made it the newest may not have said so yet, and nobody waits for that.
        self.shared
            .numbers()
            .advance(self.generation.number(), found, &self.history);
        self.shared.numbers().newest(&mut self.history)
    }

    /// Whether the older generation at this index is still shown in its place.
    fn is_shown(&mut self, index: usize) -> bool
        requires { index < length self.old.older }
        ensures same { self.new ≡ with_seen self.old self.new.seen }
        ensures later { IsLater self.old self.new }
    {
        let joined = &self.older.parts()[index];
        let (place, number) = (joined.place(), joined.number());
        self.shared.places().has(place, number, &mut self.history)
    }

    /// Tries to leave the older generation at this index, if the handle has no cell there. Returns whether it left. The
    /// first pass to leave it has to have seen it sealed empty.
    pub(crate) fn leave(&mut self, index: usize, is_sealed: bool) -> bool
        requires index { index < length self.old.older }
        requires sealed { is_sealed ≡ true → HasSealedAt self.old.older index }
        ensures same { self.new ≡ with_older (with_seen self.old self.new.seen) self.new.older }
        ensures later { IsLater self.old self.new }
        ensures left { MatchBool result (LeavesAt self.new.seen index self.old.older self.new.older)
            (self.new.older ≡ self.old.older) }
    {
        if self.older.parts()[index].has_cell() {
            return false;
        }
        let places = self.shared.places();
        let has_left = self
            .older
            .leave(places, index, is_sealed, &mut self.history);
        let seen = self.history.again();
        self.history.learn(&seen);
        has_left
    }

    /// Tries to leave the older generation at this index, if that is no longer shown in its place. Returns whether it
    /// left.
    fn leave_if_gone(&mut self, index: usize) -> bool
        requires { index < length self.old.older }
        ensures same { self.new ≡ with_older (with_seen self.old self.new.seen) self.new.older }
        ensures later { IsLater self.old self.new }
        ensures older { LeavesGone self.new.seen self.old.older self.new.older }
        ensures fewer { length self.new.older + (if result then 1 else 0) ≡ length self.old.older }
    {
        // While it is shown nobody has left it, and a look costs less than a try.
        if self.is_shown(index) {
            return false;
        }
        self.leave(index, false)
    }

    /// Leaves each older generation that has gone, that another pass has left, and in which the handle has no cell. It
    /// stays where another thread is leaving.
    pub(crate) fn leave_gone(&mut self)
        ensures same { self.new ≡ with_older (with_seen self.old self.new.seen) self.new.older }
        ensures later { IsLater self.old self.new }
        ensures older { LeavesGone self.new.seen self.old.older self.new.older }
    {
        let mut index = 0;
        while index < self.older.len() {
            if !self.leave_if_gone(index) {
                index += 1;
            }
        }
    }

    /// Empties the places of generations before the handle's newest one that were never the newest.
    fn clear_below(&mut self)
        ensures same { self.new ≡ with_seen self.old self.new.seen }
        ensures later { IsLater self.old self.new }
    {
        self.shared
            .places()
            .clear_below(self.generation.number(), &mut self.history);
    }

    /// Counts the handle among those that give to the generation that it joined last, if that one is still the newest
    /// of the queue. Returns whether it is.
    fn start_giving(&mut self) -> bool
        ensures same { self.new ≡ with_seen self.old self.new.seen }
        ensures later { IsLater self.old self.new }
        ensures newest { MatchBool result (IsAtNewest self.old self.new) (IsBehind self.old self.new) }
        ensures all { HasAll self.new }
    {
        // Who sees a later generation, and then nobody that gives, takes this one for over: so count first.
        self.newest.start_giving();
        if self.is_behind() {
            self.newest.stop_giving();
            return false;
        }
        true
    }

    /// Joins each generation up to the one that is the newest now, and gives to that. Returns false where it could not,
    /// or another one was the newest meanwhile.
    fn try_to_follow(&mut self) -> bool
        ensures follows { Follows self.old self.new }
        ensures newest { MatchBool result (IsAtNewest self.old self.new) (IsBehind self.old self.new) }
        ensures all { HasAll self.new }
    {
        let last = self.latest();
        self.join_up_to(last);
        self.start_giving()
    }

    /// Joins the newest generation, and each before it that the handle has not joined. Returns false where it did not
    /// come to that, since others opened newer ones all the time.
    #[cold]
    #[inline(never)]
    fn follow(&mut self) -> bool
        ensures follows { Follows self.old self.new }
        ensures newest { MatchBool result (IsAtNewest self.old self.new) (IsBehind self.old self.new) }
        ensures all { HasAll self.new }
    {
        self.newest.stop_giving();
        self.leave_gone();
        self.clear_below();
        for _ in 1..TRIES {
            if self.try_to_follow() {
                return true;
            }
        }
        self.try_to_follow()
    }

    /// Follows others if they have opened a generation. Returns false where it did not come to that.
    #[inline(always)]
    pub(crate) fn keep_up(&mut self) -> bool
        ensures follows { Follows self.old self.new }
        ensures newest { MatchBool result (IsAtNewest self.old self.new) (IsBehind self.old self.new) }
        ensures all { HasAll self.new }
    {
        if self.is_behind() {
            return self.follow();
        }
        true
    }

    /// Leaves generations as `leave_gone` does, and then follows others as `keep_up` does.
    pub(crate) fn catch_up(&mut self) -> bool
        ensures follows { Follows self.old self.new }
        ensures newest { MatchBool result (IsAtNewest self.old self.new) (IsBehind self.old self.new) }
        ensures all { HasAll self.new }
    {
        self.leave_gone();
        self.keep_up()
    }
}

/// Leaves these generations, in which their thread has begun no call and which it may join again.
fn leave_unused<T: Drop>(parts: &mut Vec<Leaving<Joined<T>>>)
    requires { All (λ p. IsUntouched p.handle) parts.old.items }
    ensures { parts.new.items ≡ [] }
{
    while let Some(part) = parts.pop() {
        part.leave_unused();
    }
}
