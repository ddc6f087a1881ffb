//! The end of a renewing queue: all its handles are given up, and each of its generations is closed by their parts.
ghost use Rattle.std.specs.Prelude.{◌≡◌, ◌≤◌, ◌+◌, ◌==◌, ◌++◌, [], ◌∷◌, All, IfOk, List, MatchOption, false, filter};
ghost use Rattle.std.specs.Prelude.{map, not};
ghost use Rattle.std.specs.List.{Contains};
ghost use mathlib.Core.List.{IsPrefix};
ghost use Rattle.kfifo_live.specs.Pass.{IsPassOf};
ghost use Rattle.kfifo_pool.specs.Pooled.{Pooled};
ghost use Rattle.kfifo_live.specs.declared.view.Opening.{Opening};
ghost use Rattle.kfifo_renewing.specs.History.{EachLeftTogether};
ghost use Rattle.kfifo_renewing.specs.Joining.{HaveParts, IsBeside, IsPart, PartView, held_by, held_in};
ghost use Rattle.kfifo_renewing.specs.declared.change.Change.{Change};
ghost use Rattle.kfifo_renewing.specs.Renewing.{AreOfOneQueue, ClosesAll, ClosesEach, EndsGone, Gathers, Generations};
ghost use Rattle.kfifo_renewing.specs.Renewing.{HasLeft, HaveEnded, HaveOwnAmong, HaveSeen, IsOpenedAs, WereLeft};
ghost use Rattle.kfifo_renewing.specs.Renewing.{opening_with, other_threads};

use crate::handle::{JoinedAll, RenewingHandle};
use crate::history::History;
use crate::joined::Joined;
use crate::kind::Kind;
use crate::leaving::Leaving;
use crate::memory::CellMemory;
use crate::places::Places;
use kfifo_live::{CloseFault, Sizes};
use kfifo_pool::{PooledHandle, PooledQueue};
use std::alloc::{AllocError, Global};
use std::mem::replace;
use std::sync::Arc;

/// The parts of the other handles of a queue that is closed, in generations that are not closed yet.
#[derive(Drop)]
pub(crate) struct Theirs<T: Drop> {
    parts: Vec<Leaving<Joined<T>>>,
    /// The least number that such a generation may have.
    least: u64,
}

impl<T: Drop> Theirs<T> {
    /// The handles of these parts in the generation with this number, which are then no longer among them.
    ///
    /// MissingPass where a generation with this number, or a greater one, was closed before.
    pub(crate) fn take(
        &mut self,
        alloc: Global,
        number: u32,
    ) -> Result<Vec<PooledHandle<T>>, CloseFault>
        ensures least { IfOk result (λ _. (self.old.least ≤ number) × (self.new.least ≡ number + 1)) }
        ensures taken { IfOk result (λ here. here.items
            ≡ map (λ p. p.handle) (filter (λ p. p.number == number) self.old.parts.items)) }
        ensures rest { IfOk result (λ _. self.new.parts.items
            ≡ filter (λ p. not (p.number == number)) self.old.parts.items) }
    {
        // Generations come in the order of their numbers. No clause says so, and a look does.
        if u64::from(number) < self.least {
            return Err(CloseFault::MissingPass);
        }
        self.least = u64::from(number) + 1;
        let here = take_numbered(alloc, &mut self.parts, number)?;
        Ok(here)
    }

    /// MissingPass where one is left: its generation was neither left nor closed.
    pub(crate) fn end(self) -> Result<(), CloseFault>
        ensures { IfOk result (λ _. self.parts.items ≡ []) }
    {
        if self.parts.is_empty() {
            Ok(())
        } else {
            Err(CloseFault::MissingPass)
        }
    }
}

/// The handles of these parts in the generation with this number, which are then no longer among them.
fn take_numbered<T: Drop>(
    alloc: Global,
    parts: &mut Vec<Leaving<Joined<T>>>,
    number: u32,
) -> Result<Vec<PooledHandle<T>>, AllocError>
    ensures taken { IfOk result (λ here. here.items
        ≡ map (λ p. p.handle) (filter (λ p. p.number == number) parts.old.items)) }
    ensures rest { IfOk result (λ _. parts.new.items ≡ filter (λ p. not (p.number == number)) parts.old.items) }
{
    let mut here = Vec::new(alloc);
    let mut rest = Vec::new(alloc);
    for part in replace(parts, Vec::new(alloc)) {
        if part.number() == number {
            here.push(part.into_handle())?;
            continue;
        }
        rest.push(part)?;
    }
    *parts = rest;
    Ok(here)
}

/// What is needed to close a queue: the parts of its last handle, the oldest generation first, those of its other
/// handles, what each generation was opened with, and what the last handle has seen of the history.
#[derive(Drop)]
pub(crate) struct Gathered<T: Drop> {
    pub(crate) all: Vec<Leaving<Joined<T>>>,
    pub(crate) theirs: Theirs<T>,
    pub(crate) sizes: Sizes,
    pub(crate) history: History,
}

/// What is left of a closed queue, and the history that its last handle had seen, which has no bytes. The clauses of a
/// close speak of it, so a made-up history cannot meet them.
#[derive(Drop)]
pub struct Closed<L: Drop> {
    /// What is left, that of the oldest generation first.
    pub left: Vec<L>,
    /// What the last handle had seen of the queue's history.
    pub history: History,
}

/// A generation that is to be closed: its queue, the handle of one thread, those of all others, and the memory of its
/// cells.
#[derive(Drop)]
pub(crate) struct Ended<T: Drop> {
    pub(crate) queue: PooledQueue<T>,
    pub(crate) handle: PooledHandle<T>,
    pub(crate) others: Vec<PooledHandle<T>>,
    pub(crate) memory: CellMemory,
}

/// The parts of these handles, but for those that leave their generations, and what they have seen of the history.
fn take_apart<T: Drop, K: Kind<T>>(
    alloc: Global,
    places: &Places<T>,
    handles: Vec<RenewingHandle<T, K>>,
    history: &mut History,
) -> Result<Vec<Leaving<Joined<T>>>, AllocError>
    requires book { history.old.book ≡ places.now.history.book }
    requires of { All (λ g. g.book ≡ history.old.book) handles.items }
    ensures later { (history.new.book ≡ history.old.book) × IsPrefix history.old.log history.new.log }
    ensures seen { IfOk result (λ _. HaveSeen handles.items history.new.log) }
    ensures parts { IfOk result (λ parts. All (IsPart history.new.log) parts.items) }
    ensures opened { IfOk result (λ parts. (o : Opening) → All (λ g. g.opened ≡ o) handles.items
        → All (λ p. IsOpenedAs o p.handle) parts.items) }
    ensures all { IfOk result (λ parts. HaveParts history.new.log handles.items parts.items) }
{
    let mut theirs = Vec::new(alloc);
    for handle in handles {
        let JoinedAll {
            history: seen,
            parts,
            ..
        } = handle.into_joined()?;
        history.learn(&seen);
        let mut kept = leave_gone(alloc, places, parts, history)?;
        theirs.append(&mut kept)?;
    }
    Ok(theirs)
}

/// Returns this part if its generation has not gone, or its pass cannot leave that. Otherwise the pass leaves it.
fn stay<T: Drop>(
    places: &Places<T>,
    part: Leaving<Joined<T>>,
    history: &mut History,
) -> Option<Leaving<Joined<T>>>
    requires book { history.old.book ≡ places.now.history.book }
    requires part { IsPart history.old.log part × (part.book ≡ history.old.book) }
    ensures later { (history.new.book ≡ history.old.book) × IsPrefix history.old.log history.new.log }
    ensures left { MatchOption result (HasLeft history.new.log (held_in part)) (λ back. back ≡ part) }
{
    if places.has(part.place(), part.number(), history) {
        return Some(part);
    }
    part.depart(places, false, history)
}

/// Returns those of these parts whose generation has not gone, or that cannot leave it. The others leave theirs.
fn leave_gone<T: Drop>(
    alloc: Global,
    places: &Places<T>,
    parts: Vec<Leaving<Joined<T>>>,
    history: &mut History,
) -> Result<Vec<Leaving<Joined<T>>>, AllocError>
    requires book { history.old.book ≡ places.now.history.book }
    requires parts { All (IsPart history.old.log) parts.items × All (λ p. p.book ≡ history.old.book) parts.items }
    ensures later { (history.new.book ≡ history.old.book) × IsPrefix history.old.log history.new.log }
    ensures left { IfOk result (λ kept. EndsGone history.new.log (held_by parts.items) (held_by kept.items)) }
    ensures among { IfOk result (λ kept. (p : PartView T) → Contains kept.items p → Contains parts.items p) }
{
    let mut kept = Vec::new(alloc);
    for part in parts {
        let Some(part) = stay(places, part, history) else {
            continue;
        };
        kept.push(part)?;
    }
    Ok(kept)
}

/// The parts of all handles of a queue: those of the last one, which has followed the others, and theirs. With them it
/// returns what the last one has then seen of the history.
pub(crate) fn gather<T: Drop, K: Kind<T>>(
    alloc: Global,
    mut handles: Vec<RenewingHandle<T, K>>,
) -> Result<Gathered<T>, CloseFault>
    requires { AreOfOneQueue handles.items }
    ensures all { IfOk result (λ r. (last : Generations T) × (others : List (Generations T))
        × (handles.items ≡ others ++ last ∷ []) × Gathers others last (held_by r.all.items) r.history.log
        × HaveParts r.history.log others r.theirs.parts.items) }
    ensures book { IfOk result (λ r. All (λ g. g.book ≡ r.history.book) handles.items) }
    ensures together { IfOk result (λ r. EachLeftTogether r.history.log) }
    ensures parts { IfOk result (λ r. (log : List Change) × All (IsPart log) r.all.items
        × All (IsPart log) r.theirs.parts.items) }
    ensures opened { IfOk result (λ r. All (λ p. IsOpenedAs (opening_with K.bare r.sizes) p.handle) r.all.items
        × All (λ p. IsOpenedAs (opening_with K.bare r.sizes) p.handle) r.theirs.parts.items) }
{
    let Some(mut last) = handles.pop() else {
        return Err(CloseFault::MissingPass);
    };
    // Were the look older than what the others have seen, it could miss a generation that one of them has joined.
    let mut seen = last.history().again();
    // A generation that one handle has left has gone, and cannot be closed any more: so each handle leaves it.
    let theirs = take_apart(alloc, last.places(), handles, &mut seen)?;
    last.learn(&seen);
    if !last.catch_up() {
        return Err(CloseFault::Memory);
    }
    let JoinedAll {
        shared,
        mut history,
        parts,
    } = last.into_joined()?;
    // With a cell in hand a handle stays in a generation that has gone. If others have left that generation, it cannot
    // be closed, so the last handle leaves it now.
    let parts = leave_gone(alloc, shared.places(), parts, &mut history)?;
    // To learn anything of a history tells its rule, which has one schedule for those that have left a generation.
    let seen = history.again();
    history.learn(&seen);
    let Some(shared) = Arc::into_inner(shared) else {
        return Err(CloseFault::MissingPass);
    };
    // With the places the last other parts in the generations go.
    let sizes = shared.sizes();
    drop(shared);
    Ok(Gathered {
        all: parts,
        theirs: Theirs {
            parts: theirs,
            least: 0,
        },
        sizes,
        history,
    })
}

/// The generation of this part, with the handles of all threads in it: that of the part, these, and those that wait
/// there.
pub(crate) fn end<T: Drop>(
    alloc: Global,
    joined: Leaving<Joined<T>>,
    theirs: Vec<PooledHandle<T>>,
    threads: u32,
) -> Result<Ended<T>, CloseFault>
    requires { All (λ h. IsBeside joined.handle h) theirs.items }
    ensures handle { IfOk result (λ r. r.handle ≡ joined.handle) }
    ensures of { IfOk result (λ r. IsPassOf r.queue r.handle.held.pass.pass
        × All (λ h. IsPassOf r.queue h.held.pass.pass) r.others.items) }
    ensures others { IfOk result (λ r. map (λ h. h.held.pass.pass.thread) r.others.items
        ≡ other_threads joined.handle.held.pass.pass.thread threads) }
    ensures theirs { IfOk result (λ r. (h : Pooled T) → Contains theirs.items h → Contains r.others.items h) }
{
    let (generation, handle) = joined.into_part().into_parts();
    let Some(generation) = Arc::into_inner(generation) else {
        return Err(CloseFault::MissingPass);
    };
    let own = handle.pass().thread();
    let (queue, others, memory) = generation.into_parts(alloc, threads, own, theirs)?;
    Ok(Ended {
        queue,
        handle,
        others,
        memory,
    })
}

/// The payloads that are left in a generation, by the handle of this part, and by these and those that wait there.
fn close_one<T: Drop>(
    alloc: Global,
    joined: Leaving<Joined<T>>,
    theirs: Vec<PooledHandle<T>>,
    sizes: &Sizes,
) -> Result<Vec<T>, CloseFault>
    requires opened { IsOpenedAs (opening_with false sizes.now) joined.handle }
    requires theirs { All (λ h. IsBeside joined.handle h) theirs.items }
    ensures { IfOk result (λ left. (log : List Change) (handles : List (Generations T))
        → HaveOwnAmong log handles joined.number theirs.items → WereLeft log handles (held_in joined) left.items) }
{
    let Ended {
        queue,
        handle,
        others,
        ..
    } = end(alloc, joined, theirs, sizes.threads)?;
    let left = queue.close_with(alloc, handle, others)?;
    Ok(left)
}

/// The payloads that are left in these generations, those of the first one first.
fn close_each<T: Drop>(alloc: Global, gathered: Gathered<T>) -> Result<Vec<T>, CloseFault>
    requires opened { All (λ p. IsOpenedAs (opening_with false gathered.sizes) p.handle) gathered.all.items
        × All (λ p. IsOpenedAs (opening_with false gathered.sizes) p.handle) gathered.theirs.parts.items }
    requires parts { (log : List Change) × All (IsPart log) gathered.all.items
        × All (IsPart log) gathered.theirs.parts.items }
    ensures { IfOk result (λ left. (log : List Change) (handles : List (Generations T))
        → HaveParts log handles gathered.theirs.parts.items
        → ClosesEach log handles (held_by gathered.all.items) left.items
        × HaveEnded log handles (held_by gathered.all.items)) }
{
    let Gathered {
        all,
        mut theirs,
        sizes,
        ..
    } = gathered;
    let mut left = Vec::new(alloc);
    for joined in all {
        let here = theirs.take(alloc, joined.number())?;
        let mut values = close_one(alloc, joined, here, &sizes)?;
        left.append(&mut values)?;
    }
    theirs.end()?;
    Ok(left)
}

/// Closes a queue by all its handles, and returns the payloads that are left, those of the oldest generation first, and
/// what was seen of its history.
///
/// Each handle first leaves what has gone. The last one learns what the others have seen, and follows them. Of each
/// generation that it is then in, these payloads are what is left after the one schedule of all calls there, in the
/// order of `PayQueue::close`. All that the handles that are given did there is in that schedule. Each of them has left
/// each of its other generations, which have gone: what it gave there has come out.
///
/// The handles are of one queue. MissingPass where one of its handles is still elsewhere, or none is given; Memory
/// where an allocation failed. The payloads are then dropped.
pub fn close<T: Drop>(
    alloc: Global,
    handles: Vec<RenewingHandle<T>>,
) -> Result<Closed<T>, CloseFault>
    requires { AreOfOneQueue handles.items }
    ensures closes { IfOk result (λ closed. ClosesAll handles.items closed.left.items closed.history.log) }
    ensures book { IfOk result (λ closed. All (λ g. g.book ≡ closed.history.book) handles.items) }
{
    let gathered = gather(alloc, handles)?;
    let history = gathered.history.again();
    let left = close_each(alloc, gathered)?;
    Ok(Closed { left, history })
}
