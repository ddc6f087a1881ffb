//! A generation that a handle has joined.
ghost use Rattle.std.specs.Prelude.{◌≡◌, ◌↔◌, IfSome, MatchOption, false, true};
ghost use Rattle.kfifo_live.specs.Groups.{Meets};
ghost use Rattle.kfifo_live.specs.Pass.{IsPassOf};
ghost use Rattle.kfifo_pool.specs.Pooled.{GivesOne, no_cells};
ghost use mathlib.Core.List.{IsPrefix};
ghost use Rattle.kfifo_renewing.specs.Joining.{IsSamePart, IsSealedPart, MayLeave, PartView, held_in};
ghost use Rattle.kfifo_renewing.specs.Renewing.{HasLeft, IsFresh, IsUntouched, MaySeal, SealsThere, TakesOlder};
ghost use Rattle.kfifo_renewing.specs.Renewing.{TakesThere};
ghost use Rattle.kfifo_renewing.specs.Renewing.{got_or_sealed_of};

use crate::generation::Generation;
use crate::history::History;
use crate::kind::Kind;
use crate::leaving::{Leave, Leaving};
use crate::places::Places;
use kfifo_live::{Given, Taken, TakenOrSealed, TokenGroup, TokenPass};
use kfifo_pool::{PooledHandle, PooledQueue};
use std::alloc::Global;
use std::marker::Model;
use std::sync::Arc;

/// A part in a generation, and the handle that gives to it and takes from it.
///
/// Clauses see it as that handle, with the number and the place of the generation.
#[derive(Drop)]
pub(crate) struct Joined<T: Drop> {
    place: usize,
    thread: u32,
    /// Whether the handle counts among those that give to the generation.
    gives: bool,
    pub(crate) generation: Arc<Generation<T>, Global>,
    pub(crate) handle: PooledHandle<T>,
}

impl<T: Drop> Model for Joined<T> {
    ghost Value = { PartView T };

    ghost view = { λ j. record {
      handle = j.handle;
      number = j.generation.value.number;
      place = j.place;
      book = j.generation.value.book;
    } };

    ghost invariant = { λ j. IsPassOf j.generation.value.queue j.handle.held.pass.pass };
}

impl<T: Drop> Joined<T> {
    /// The handle of this thread in a generation, unless its thread has joined it before.
    pub(crate) fn join(
        generation: Arc<Generation<T>, Global>,
        place: usize,
        thread: u32,
    ) -> Option<Leaving<Joined<T>>>
        ensures of { IfSome result (λ p. IsPassOf generation.value.queue p.handle.held.pass.pass
            × IsFresh thread p.handle) }
        ensures at { IfSome result (λ p. (p.number ≡ generation.value.number) × (p.place ≡ place)
            × (p.book ≡ generation.value.book)) }
    {
        let handle = generation.take_handle(thread)?;
        let part = Joined {
            place,
            thread,
            gives: false,
            generation,
            handle,
        };
        Some(Leaving { part })
    }

    /// Counts the handle no longer among those that give to the generation, unless it has a cell reserved there.
    fn stop_giving(&mut self)
        ensures { self.new ≡ self.old }
    {
        // Else the generation could be taken for over before the cell is published.
        if self.handle.reserved_cell().is_none() {
            self.end_giving();
        }
    }

    /// Counts the handle no longer among those that give to the generation.
    fn end_giving(&mut self)
        ensures { self.new ≡ self.old }
    {
        if self.gives {
            self.generation.remove_giver();
            self.gives = false;
        }
    }

    /// The part in the generation, and the handle there.
    pub(crate) fn into_parts(self) -> (Arc<Generation<T>, Global>, PooledHandle<T>)
        ensures handle { result.1 ≡ self.handle }
        ensures of { IsPassOf result.0.value.queue result.1.held.pass.pass }
    {
        let Joined {
            generation,
            handle,
            ..
        } = self;
        (generation, handle)
    }
}

impl<T: Drop> Leave for Joined<T> {
    /// Leaves the generation for good: its handle is given back.
    fn leave(mut self) {
        self.end_giving();
        let thread = self.thread;
        let (generation, handle) = self.into_parts();
        generation.give_back(thread, handle, false);
    }
}

impl<T: Drop> Leaving<Joined<T>> {
    /// Leaves the generation, in which its thread has begun no call and which it may join again.
    pub(crate) fn leave_unused(self)
        requires { IsUntouched self.handle }
    {
        let mut part = self.into_part();
        part.end_giving();
        let thread = part.thread;
        let (generation, handle) = part.into_parts();
        generation.give_back(thread, handle, true);
    }

    /// The handle in the generation, which is given up.
    pub(crate) fn into_handle(self) -> PooledHandle<T>
        ensures { result ≡ self.handle }
    {
        let (_, handle) = self.into_part().into_parts();
        handle
    }

    /// The handle in the generation, which is given up, and no longer counts among those that give to it.
    pub(crate) fn end(self) -> PooledHandle<T>
        ensures { result ≡ self.handle }
    {
        let mut part = self.into_part();
        part.end_giving();
        let (_, handle) = part.into_parts();
        handle
    }

    /// The pass in the generation.
    pub(crate) fn pass(&self) -> &TokenPass<T>
        ensures { result.now ≡ self.now.handle.held.pass }
    {
        self.part.handle.pass()
    }

    /// Has a group of the generation's queue, which is this, see what the pass has seen. The part stays as it is.
    pub(crate) fn meet(&mut self, queue: &PooledQueue<T>, group: &mut TokenGroup<T>)
        requires of { IsPassOf queue.now self.old.handle.held.pass.pass }
        requires group { IsPassOf queue.now group.old.first.pass }
        ensures same { self.new ≡ self.old }
        ensures meets { Meets self.old.handle.held.pass group.old group.new }
    {
        queue.meet(group, &mut self.part.handle);
    }

    /// Tries to leave the generation, which is no longer the newest, as `Generation::depart` does. Returns the part if
    /// it stays.
    pub(crate) fn depart(
        self,
        places: &Places<T>,
        is_sealed: bool,
        history: &mut History,
    ) -> Option<Leaving<Joined<T>>>
        requires book { history.old.book ≡ places.now.history.book }
        requires may { MayLeave history.old.book history.old.log is_sealed self }
        ensures later { (history.new.book ≡ history.old.book) × IsPrefix history.old.log history.new.log }
        ensures left { MatchOption result (HasLeft history.new.log (held_in self)) (λ back. back ≡ self) }
    {
        let Ok(generation) = Arc::try_clone(&self.part.generation) else {
            return Some(self);
        };
        generation.depart(places, self, is_sealed, history)
    }

    /// Whether the handle has a cell of the generation.
    pub(crate) fn has_cell(&self) -> bool
        ensures { result ≡ false ↔ (self.now.handle.cells ≡ no_cells) }
    {
        self.part.handle.has_cell()
    }

    /// The place of the generation.
    pub(crate) fn place(&self) -> usize
        ensures { result ≡ self.now.place }
    {
        self.part.place
    }

    /// The number of the generation.
    pub(crate) fn number(&self) -> u32
        ensures { result ≡ self.now.number }
    {
        self.part.generation.number()
    }

    /// The generation.
    pub(crate) fn generation(&self) -> &Generation<T>
        ensures { IsPassOf result.now.queue self.now.handle.held.pass.pass }
    {
        &self.part.generation
    }

    /// Counts the handle among those that give to the generation.
    pub(crate) fn start_giving(&mut self)
        ensures { self.new ≡ self.old }
    {
        if !self.part.gives {
            self.part.generation.add_giver();
            self.part.gives = true;
        }
    }

    /// Counts the handle no longer among them.
    pub(crate) fn stop_giving(&mut self)
        ensures { self.new ≡ self.old }
    {
        self.part.stop_giving();
    }

    /// Gives to the generation, whose queue this is, as `PooledHandle::give`.
    #[inline(always)]
    pub(crate) fn give(&mut self, queue: &PooledQueue<T>, payload: T) -> Given<T>
        requires of { IsPassOf queue.now self.old.handle.held.pass.pass }
        requires payloads { queue.now.opened.bare ≡ false }
        ensures same { IsSamePart self.old self.new }
        ensures gives { GivesOne payload result self.old.handle self.new.handle }
    {
        self.part.handle.give(queue, payload)
    }

    /// Takes from this generation, which is its own.
    #[inline(always)]
    pub(crate) fn take<K: Kind<T>>(&mut self, generation: &Generation<T>) -> Taken<K::Got>
        requires of { IsPassOf generation.now.queue self.old.handle.held.pass.pass }
        requires bare { generation.now.queue.opened.bare ≡ K.bare }
        ensures same { IsSamePart self.old self.new }
        ensures takes { TakesThere K.takes result self.old.handle self.new.handle }
    {
        K::take(
            &mut self.part.handle,
            generation.queue(),
            generation.memory(),
        )
    }

    /// Takes from the generation.
    fn take_here<K: Kind<T>>(&mut self) -> Taken<K::Got>
        requires { self.old.handle.held.pass.pass.opened.bare ≡ K.bare }
        ensures same { IsSamePart self.old self.new }
        ensures takes { TakesThere K.takes result self.old.handle self.new.handle }
    {
        let generation: &Generation<T> = &self.part.generation;
        K::take(
            &mut self.part.handle,
            generation.queue(),
            generation.memory(),
        )
    }

    /// The same, and seals the generation where it is empty: nothing is given to it any more.
    fn take_or_seal_here<K: Kind<T>>(&mut self) -> TakenOrSealed<K::Got>
        requires { self.old.handle.held.pass.pass.opened.bare ≡ K.bare }
        ensures same { IsSamePart self.old self.new }
        ensures seals { SealsThere K.seals result self.old.handle self.new.handle }
    {
        let generation: &Generation<T> = &self.part.generation;
        K::take_or_seal(
            &mut self.part.handle,
            generation.queue(),
            generation.memory(),
        )
    }

    /// Takes from the generation, which is the newest no more. Where that is empty, and nobody gave to it before, it
    /// takes again and seals it. Returns None where it was empty, and says whether it is sealed.
    #[inline(always)]
    pub(crate) fn take_older<K: Kind<T>>(&mut self, is_sealed: &mut bool) -> Option<Taken<K::Got>>
        requires { self.old.handle.held.pass.pass.opened.bare ≡ K.bare }
        ensures same { IsSamePart self.old self.new }
        ensures takes { TakesOlder K.takes K.seals result self.old.handle self.new.handle }
        ensures sealed { is_sealed.new ≡ true → IsSealedPart self.new }
    {
        *is_sealed = false;
        // A handle that has a reserved cell gives it here. Were the generation sealed, it could not.
        let may_seal = !self.generation().has_givers();
        let taken = self.take_here::<K>();
        match taken {
            Taken::Empty => self.seal_if::<K>(may_seal, is_sealed),
            taken => Some(taken),
        }
    }

    /// Takes again from the generation, which was found empty, and seals it, if it may. Says whether it is sealed.
    #[cold]
    #[inline(never)]
    fn seal_if<K: Kind<T>>(&mut self, may_seal: bool, is_sealed: &mut bool) -> Option<Taken<K::Got>>
        requires { self.old.handle.held.pass.pass.opened.bare ≡ K.bare }
        ensures same { IsSamePart self.old self.new }
        ensures seals { MaySeal K.seals result self.old.handle self.new.handle }
        ensures sealed { is_sealed.new ≡ true → IsSealedPart self.new }
    {
        *is_sealed = false;
        if !may_seal {
            return None;
        }
        // The take before may have moved the head, and with it the ends. So the look at them comes after it.
        let taken = self.take_or_seal_here::<K>();
        *is_sealed = matches!(taken, TakenOrSealed::Sealed);
        got_or_sealed(taken)
    }
}

/// What is to be returned of a take that may seal an older generation: nothing where it found that empty.
fn got_or_sealed<G>(taken: TakenOrSealed<G>) -> Option<Taken<G>>
    ensures { result ≡ got_or_sealed_of taken }
{
    match taken {
        TakenOrSealed::Got(got) => Some(Taken::Got(got)),
        TakenOrSealed::Empty => None,
        TakenOrSealed::Sealed => None,
        TakenOrSealed::Busy => Some(Taken::Busy),
        TakenOrSealed::Worn => Some(Taken::Worn),
    }
}
