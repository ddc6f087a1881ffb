//! How a handle takes: from the oldest of its generations that is not empty.
ghost use Rattle.std.specs.Prelude.{◌≡◌, ◌<◌, ◌+◌, List, MatchBool, length, true};
ghost use Rattle.kfifo_renewing.specs.Joining.{HasSealedAt, LeavesAt, TakesAt};
ghost use Rattle.kfifo_renewing.specs.Renewing.{HeldIn};
ghost use Rattle.kfifo_renewing.specs.Renewing.{IsLater};
ghost use Rattle.kfifo_renewing.specs.Renewing.{LeavesGone, LooksAgain};
ghost use Rattle.kfifo_renewing.specs.Renewing.{TakesBy, TakesFirst, TakesNewest, TakesOldest};
ghost use Rattle.kfifo_renewing.specs.Renewing.{with_older};
ghost use Rattle.kfifo_renewing.specs.Renewing.{with_seen};

use crate::generation::Generation;
use crate::handle::RenewingHandle;
use crate::kind::Kind;
use kfifo_live::Taken;

impl<T: Drop, K: Kind<T>> RenewingHandle<T, K> {
    /// Takes from the older generation at this index. Returns None where that was found empty, and says whether it is
    /// sealed.
    #[inline(always)]
    fn take_at(&mut self, index: usize, is_sealed: &mut bool) -> Option<Taken<K::Got>>
        requires { index < length self.old.older }
        ensures same { self.new ≡ with_older self.old self.new.older }
        ensures takes { TakesAt K.takes K.seals index result is_sealed.new self.old.older self.new.older }
    {
        self.older.take_at::<K>(index, is_sealed)
    }

    /// Tries to leave the older generation at this index, if the handle has seen it sealed empty. Returns whether it
    /// left.
    fn leave_sealed(&mut self, index: usize, is_sealed: bool) -> bool
        requires index { index < length self.old.older }
        requires sealed { is_sealed ≡ true → HasSealedAt self.old.older index }
        ensures same { self.new ≡ with_older (with_seen self.old self.new.seen) self.new.older }
        ensures later { IsLater self.old self.new }
        ensures left { MatchBool result (LeavesAt self.new.seen index self.old.older self.new.older)
            (self.new.older ≡ self.old.older) }
    {
        if !is_sealed {
            return false;
        }
        self.leave(index, is_sealed)
    }

    /// Takes from the first of the older generations that is not found empty. Returns None where each was, and says
    /// whether one was. The handle leaves those that it found sealed.
    fn take_first(&mut self, found_empty: &mut bool) -> Option<Taken<K::Got>>
        ensures same { self.new ≡ with_older (with_seen self.old self.new.seen) self.new.older }
        ensures later { IsLater self.old self.new }
        ensures takes { (looked : List (HeldIn T)) × TakesFirst K.takes K.seals result self.old.older looked
            × LeavesGone self.new.seen looked self.new.older }
    {
        *found_empty = false;
        let mut index = 0;
        while index < self.older.len() {
            let mut is_sealed = false;
            let taken = self.take_at(index, &mut is_sealed);
            if let Some(taken) = taken {
                return Some(taken);
            }
            *found_empty = true;
            // Each sealed one is left at once. Its place is then free for the next generation.
            if !self.leave_sealed(index, is_sealed) {
                index += 1;
            }
        }
        None
    }

    /// Takes as `take_first` does. The handle leaves those that are over.
    fn take_older(&mut self) -> Option<Taken<K::Got>>
        ensures same { self.new ≡ with_older (with_seen self.old self.new.seen) self.new.older }
        ensures later { IsLater self.old self.new }
        ensures takes { (looked : List (HeldIn T)) × TakesFirst K.takes K.seals result self.old.older looked
            × LeavesGone self.new.seen looked self.new.older }
    {
        let mut found_empty = false;
        let taken = self.take_first(&mut found_empty);
        // Else none has gone, and in a queue that has grown a look at each place would cost more than the take.
        if !found_empty {
            return taken;
        }
        self.leave_gone();
        taken
    }

    /// What a take returns that came to this in the newest generation: Busy in place of Empty where another one is the
    /// newest by now.
    #[cold]
    #[inline(never)]
    fn look_again(&mut self, taken: Taken<K::Got>) -> Taken<K::Got>
        ensures same { self.new ≡ with_seen self.old self.new.seen }
        ensures later { IsLater self.old self.new }
        ensures looks { LooksAgain taken result self.old self.new }
    {
        if let Taken::Empty = taken {
            // A value may lie in the generation that others have opened meanwhile.
            if self.is_behind() {
                return Taken::Busy;
            }
        }
        taken
    }

    /// Takes from the newest generation, where each older one is empty.
    fn take_newest(&mut self) -> Taken<K::Got>
        ensures later { IsLater self.old self.new }
        ensures same { (self.new.older ≡ self.old.older) × (self.new.number ≡ self.old.number) }
        ensures takes { TakesNewest K.takes result self.old self.new }
    {
        let taken = self.newest.take::<K>(&self.generation);
        self.look_again(taken)
    }

    /// Takes from the oldest generation that is not empty.
    fn take_oldest(&mut self) -> Taken<K::Got>
        ensures { TakesOldest K.takes K.seals result self.old self.new }
    {
        match self.take_older() {
            Some(taken) => taken,
            None => self.take_newest(),
        }
    }

    /// The same as `take`, where the handle has older generations, or others to follow.
    #[cold]
    #[inline(never)]
    fn take_late(&mut self) -> Taken<K::Got>
        ensures { TakesBy K.takes K.seals result self.old self.new }
    {
        if !self.keep_up() {
            return Taken::Busy;
        }
        self.take_oldest()
    }

    /// Takes from the oldest generation that is not found empty, once the handle has followed others.
    #[inline(always)]
    pub(crate) fn take_in_order(&mut self) -> Taken<K::Got>
        ensures { TakesBy K.takes K.seals result self.old self.new }
    {
        let generation: &Generation<T> = &self.generation;
        let later = generation.next().look(&self.newest, &mut self.history);
        // One test for both.
        // What is rare goes out of line, and its answer into a local: written where the result is to be, it would keep
        // each result in memory, copied from place to place.
        if later + self.older.len() as u64 != 0 {
            let taken = self.take_late();
            return taken;
        }
        match self.newest.take::<K>(generation) {
            Taken::Got(got) => Taken::Got(got),
            taken => {
                let taken = self.look_again(taken);
                taken
            }
        }
    }
}
