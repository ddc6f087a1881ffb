//! The calls of a queue of payloads.
ghost use Rattle.std.specs.Prelude.{◌≡◌};
ghost use Rattle.kfifo_renewing.specs.Renewing.{GivesToNewest, GoesOn, TakesFromOldest, TriesAgain, TriesToGive};

use crate::generation::Generation;
use crate::handle::RenewingHandle;
use crate::kind::Payloads;
use kfifo_live::{Given, Taken};

impl<T: Drop> RenewingHandle<T, Payloads> {
    /// Gives to the newest generation, once it has followed others to it.
    fn try_to_give(&mut self, payload: T) -> Given<T>
        ensures { TriesToGive payload result self.old self.new }
    {
        if !self.keep_up() {
            return Given::Busy(payload);
        }
        self.newest.give(self.generation.queue(), payload)
    }

    /// Gives a payload that this generation has refused, the one that the handle joined last, where there is a next one
    /// to that.
    fn try_next(&mut self, refused: u32, payload: T) -> Given<T>
        requires { refused ≡ self.old.number }
        ensures { TriesAgain payload result self.old self.new }
    {
        let given = self.try_to_give(payload);
        if self.number() == refused {
            return given;
        }
        match given {
            // Others have used up the next one meanwhile, so there may be one behind it.
            Given::Worn(back) => Given::Busy(back),
            given => given,
        }
    }

    /// Gives a payload for which the newest generation had no version left, to the next one.
    fn give_to_next(&mut self, payload: T) -> Given<T>
        ensures { TriesAgain payload result self.old self.new }
    {
        let worn = self.number();
        self.renew();
        self.try_next(worn, payload)
    }

    /// Gives a payload for which the newest generation had no room, to the next one, which it opens where the queue has
    /// fewer generations than it may have.
    fn give_to_more(&mut self, payload: T) -> Given<T>
        ensures { TriesAgain payload result self.old self.new }
    {
        let full = self.number();
        self.open_more();
        self.try_next(full, payload)
    }

    /// What a give returns whose first try came to this.
    // Out of line, it leaves a give that was done a single test.
    #[cold]
    #[inline(never)]
    fn go_on(&mut self, first: Given<T>) -> Given<T>
        ensures { GoesOn first result self.old self.new }
    {
        match first {
            Given::Worn(back) => self.give_to_next(back),
            Given::Full(back) => {
                if self.shared.grows() {
                    return self.give_to_more(back);
                }
                Given::Full(back)
            }
            Given::NoToken(back) => {
                if self.shared.grows() {
                    return self.give_to_more(back);
                }
                Given::NoToken(back)
            }
            Given::Busy(back) => Given::Busy(back),
            Given::Done => Given::Done,
        }
    }

    /// The same as `give`, where the handle is to look at the versions that are left, or has others to follow.
    // Out of line, it leaves the other calls without a call before the give, and so with more registers.
    #[cold]
    #[inline(never)]
    fn give_late(&mut self, payload: T) -> Given<T>
        ensures { GivesToNewest payload result self.old self.new }
    {
        self.look_at_versions();
        let first = self.try_to_give(payload);
        self.go_on(first)
    }

    /// Gives a payload to the newest generation, as `PooledHandle::give` does.
    ///
    /// The handle first follows others that have opened a newer one, so its generation was the newest of the queue at a
    /// moment of the call. Each 4,096th call looks at the versions that the generation has left, and opens the next
    /// one where they are fewer than the reserve. So does a call that comes to a generation with no version left, which
    /// then tries once more. Where the queue may grow, a call that finds no room does the same: `lacks_memory` says
    /// whether memory was missing for that.
    ///
    /// Returns Done, or NoToken, Full, Busy or Worn with the payload. Busy comes where others changed the queue during
    /// the call. Worn comes only where both tries went to one generation, which was still the newest, and the second
    /// found no version left: memory is missing for the next one, old generations have all places, or the queue does
    /// not renew. It never waits or locks, and allocates only where it opens a generation, or joins a tenth one that
    /// growth has not opened.
    #[inline(always)]
    pub fn give(&mut self, payload: T) -> Given<T>
        ensures { GivesToNewest payload result self.old self.new }
    {
        self.gives_left = self.gives_left.wrapping_sub(1);
        if self.gives_left == 0 {
            return self.give_late(payload);
        }
        // One reference for the look and the call: else the compiler loads the pointer again after the look.
        let generation: &Generation<T> = &self.generation;
        if generation.next().look(&self.newest, &mut self.history) != 0 {
            return self.give_late(payload);
        }
        match self.newest.give(generation.queue(), payload) {
            Given::Done => Given::Done,
            first => self.go_on(first),
        }
    }

    /// Takes one of the k oldest payloads of the oldest generation that has one, as `PooledHandle::receive` does.
    ///
    /// The handle first follows others that have opened a newer generation. It looks into the older generations first,
    /// and into the next one only where it found one empty. It leaves an older one that it found empty when nobody gave
    /// to it any more.
    ///
    /// Returns Got with the payload; Empty where it found each generation empty that had been the newest and had not
    /// gone, and the newest was still the newest after that; Busy where others changed the queue during the call, or
    /// opened a generation; or Worn where a generation used up all its versions, its reserve too. It never waits or
    /// locks, and allocates only where it joins a tenth generation that growth has not opened.
    #[inline(always)]
    pub fn take(&mut self) -> Taken<T>
        ensures { TakesFromOldest result self.old self.new }
    {
        self.take_in_order()
    }
}
