//! The older generations of a handle: those before the newest one that it has joined.
ghost use Rattle.std.specs.Prelude.{◌≡◌, ◌≤◌, ◌<◌, ◌+◌, ◌*◌, ◌^◌, ◌⊎◌, ◌++◌, ◌∷◌, [], ℕ, All, IfOk, IfSome, Some};
ghost use Rattle.std.specs.Prelude.{drop, false};
ghost use Rattle.std.specs.Prelude.{if◌then◌else◌, length, slice_get, take, true};
ghost use Rattle.std.specs.Prelude.{vec_capacity};
ghost use mathlib.Core.List.{IsPrefix};
ghost use Rattle.kfifo_live.specs.declared.view.Opening.{Opening};
ghost use Rattle.kfifo_renewing.specs.Cells.{CallsFirst, reserved_in};
ghost use Rattle.kfifo_renewing.specs.Joining.{AreSameParts, HasNoCell, MayLeave, OlderView, PartView, TakesAt};
ghost use Rattle.kfifo_renewing.specs.Joining.{held_by, held_in};
ghost use Rattle.kfifo_renewing.specs.Memory.{cell_reserved};
ghost use Rattle.kfifo_renewing.specs.Renewing.{HasLeft, IsOpenedAs, slots_of};

use crate::cells::CellCall;
use crate::history::History;
use crate::joined::Joined;
use crate::kind::Kind;
use crate::leaving::Leaving;
use crate::memory::CellAt;
use crate::places::Places;
use kfifo_live::{Given, Taken};
use std::alloc::{AllocError, Global};
use std::marker::Model;

/// The older generations of a handle, the oldest first. They may still have values, and the handle a cell in some.
///
/// Clauses see its parts, and for how many it has room.
#[derive(Drop)]
pub(crate) struct Older<T: Drop> {
    parts: Vec<Leaving<Joined<T>>>,
    /// The handle has a cell in none of the parts from this index on. While a queue grows it may have joined many, and
    /// a look into each at each call would cost more than the call.
    with_cells: usize,
}

impl<T: Drop> Model for Older<T> {
    ghost Value = { OlderView T };

    ghost view = { λ o. record { items = o.parts.items; capacity = vec_capacity o.parts } };

    ghost invariant = { λ o. All HasNoCell (drop o.with_cells o.parts.items) };
}

impl<T: Drop> Older<T> {
    /// None, and room for so many.
    pub(crate) fn new(alloc: Global, room: usize) -> Result<Older<T>, AllocError>
        ensures { IfOk result (λ older. older.items ≡ []) }
    {
        let parts = Vec::with_capacity(alloc, room)?;
        Ok(Older {
            parts,
            with_cells: 0,
        })
    }

    /// How many there are.
    #[inline(always)]
    pub(crate) fn len(&self) -> usize
        ensures count { result ≡ length self.now.items }
        ensures small { result < 2 ^ 63 }
    {
        self.parts.len()
    }

    /// The parts of the handle in them.
    pub(crate) fn parts(&self) -> &[Leaving<Joined<T>>]
        ensures { result.now ≡ self.now.items }
    {
        self.parts.as_slice()
    }

    /// The parts of the handle in them, the newest last.
    pub(crate) fn into_parts(self) -> Vec<Leaving<Joined<T>>>
        ensures { result.items ≡ self.items }
    {
        self.parts
    }

    /// Makes room for so many generations, and for one besides. Returns whether there is.
    pub(crate) fn make_room(&mut self, count: usize) -> bool
        ensures items { self.new.items ≡ self.old.items }
        ensures room { result ≡ true → length self.new.items + count + 1 ≤ self.new.capacity }
    {
        let Some(more) = count.checked_add(1) else {
            return false;
        };
        self.parts.reserve(more).is_ok()
    }

    /// Adds the generation with this part, and those with these, in which the handle has no cell. There is room.
    pub(crate) fn add(&mut self, part: Leaving<Joined<T>>, between: &mut Vec<Leaving<Joined<T>>>)
        requires room { length self.old.items + length between.old.items + 1 ≤ self.old.capacity }
        requires none { All HasNoCell between.old.items }
        ensures { self.new.items ≡ (self.old.items ++ part ∷ []) ++ between.old.items }
    {
        let has_cell = part.has_cell();
        self.parts.push_reserved(part);
        if has_cell {
            self.with_cells = self.parts.len();
        }
        // There is room for them, so all are moved.
        let _ = self.parts.append(between);
    }

    /// Tries to leave the generation at this index, which is no longer the newest. Returns whether it left. Else all is
    /// as before.
    pub(crate) fn leave(
        &mut self,
        places: &Places<T>,
        index: usize,
        is_sealed: bool,
        history: &mut History,
    ) -> bool
        requires book { history.old.book ≡ places.now.history.book }
        requires may { (p : PartView T) × (slice_get self.old.items index ≡ Some p)
            × MayLeave history.old.book history.old.log is_sealed p }
        ensures later { (history.new.book ≡ history.old.book) × IsPrefix history.old.log history.new.log }
        ensures left { result ≡ true → (p : PartView T) → slice_get self.old.items index ≡ Some p
            → HasLeft history.new.log (held_in p) }
        ensures items { self.new.items ≡ (if result then take index self.old.items ++ drop (index + 1) self.old.items
            else self.old.items) }
    {
        let part = self.parts.remove(index);
        let Some(back) = part.depart(places, is_sealed, history) else {
            return true;
        };
        // There is room, as it was there before.
        let _ = self.parts.insert(index, back);
        false
    }

    /// Takes from the one at this index. Returns None where that was found empty, and says whether it is sealed.
    #[inline(always)]
    pub(crate) fn take_at<K: Kind<T>>(
        &mut self,
        index: usize,
        is_sealed: &mut bool,
    ) -> Option<Taken<K::Got>>
        requires index { index < length self.old.items }
        requires bare { All (λ p. p.handle.held.pass.pass.opened.bare ≡ K.bare) self.old.items }
        ensures same { AreSameParts self.old.items self.new.items }
        ensures takes { TakesAt K.takes K.seals index result is_sealed.new (held_by self.old.items)
            (held_by self.new.items) }
    {
        self.with_cells = self.with_cells.max(index + 1);
        self.parts[index].take_older::<K>(is_sealed)
    }

    /// Lowers the index past parts in which the handle has no cell.
    fn trim(&mut self)
        ensures { self.new ≡ self.old }
    {
        while self.with_cells > 0 {
            let last = self.with_cells - 1;
            if last < self.parts.len() && self.parts[last].has_cell() {
                return;
            }
            self.with_cells = last;
        }
    }

    /// About how many values are in them.
    pub(crate) fn count(&self) -> usize
        ensures { (o : Opening) → All (λ p. IsOpenedAs o p.handle) self.now.items
            → result ≤ length self.now.items * slots_of o }
    {
        count_in(self.parts.as_slice())
    }
}

impl Older<()> {
    /// Makes this call in the first in which the handle has such a cell.
    #[inline(always)]
    pub(crate) fn call(&mut self, call: CellCall) -> Given<()>
        requires { All (λ p. p.handle.held.pass.pass.opened.bare ≡ true) self.old.items }
        ensures same { AreSameParts self.old.items self.new.items }
        ensures calls { CallsFirst call result (held_by self.old.items) (held_by self.new.items) }
    {
        if self.with_cells == 0 {
            return Given::NoToken(());
        }
        self.call_first(call)
    }

    /// The same, where there may be one.
    #[cold]
    #[inline(never)]
    fn call_first(&mut self, call: CellCall) -> Given<()>
        requires { All (λ p. p.handle.held.pass.pass.opened.bare ≡ true) self.old.items }
        ensures same { AreSameParts self.old.items self.new.items }
        ensures calls { CallsFirst call result (held_by self.old.items) (held_by self.new.items) }
    {
        let answer = call_first(self.parts.as_mut_slice(), self.with_cells, call);
        self.trim();
        answer
    }

    /// The cell that is reserved in the first that has one.
    #[inline(always)]
    pub(crate) fn reserved(&self) -> Option<CellAt>
        ensures { cell_reserved result ≡ reserved_in (held_by self.now.items) }
    {
        if self.with_cells == 0 {
            return None;
        }
        first_reserved(self.parts.as_slice(), self.with_cells)
    }
}

/// About how many values are in these generations.
fn count_in<T: Drop>(parts: &[Leaving<Joined<T>>]) -> usize
    ensures { (o : Opening) → All (λ p. IsOpenedAs o p.handle) parts.now → result ≤ length parts.now * slots_of o }
{
    let Some((first, rest)) = parts.split_first() else {
        return 0;
    };
    count_in(rest).saturating_add(first.generation().queue().len())
}

/// Makes this call in the first of these generations in which the handle has such a cell. It has none in those from
/// this index on.
fn call_first(parts: &mut [Leaving<Joined<()>>], with_cells: usize, call: CellCall) -> Given<()>
    requires bare { All (λ p. p.handle.held.pass.pass.opened.bare ≡ true) parts.old }
    requires none { All HasNoCell (drop with_cells parts.old) }
    ensures same { AreSameParts parts.old parts.new }
    ensures calls { CallsFirst call result (held_by parts.old) (held_by parts.new) }
    ensures none { All HasNoCell (drop with_cells parts.new) }
{
    if with_cells == 0 {
        return Given::NoToken(());
    }
    let Some((first, rest)) = parts.split_first_mut() else {
        return Given::NoToken(());
    };
    let answer = first.call_here(call);
    // A handle gives to an older generation only while it has a cell reserved there.
    first.stop_giving();
    match answer {
        Given::NoToken(()) => call_first(rest, with_cells - 1, call),
        answer => answer,
    }
}

/// The cell that is reserved in the first of these generations that has one. It is in none from this index on.
#[cold]
fn first_reserved(parts: &[Leaving<Joined<()>>], with_cells: usize) -> Option<CellAt>
    requires { All HasNoCell (drop with_cells parts.now) }
    ensures { cell_reserved result ≡ reserved_in (held_by parts.now) }
{
    if with_cells == 0 {
        return None;
    }
    let (first, rest) = parts.split_first()?;
    match first.reserved() {
        Some(cell) => Some(cell),
        None => first_reserved(rest, with_cells - 1),
    }
}
