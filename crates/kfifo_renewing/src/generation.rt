//! A generation: a queue of payloads, with the handles that wait in it for their threads.
ghost use Rattle.std.specs.Prelude.{◌≡◌, ◌<◌, ◌≤◌, ◌+◌, ◌++◌, ◌⊎◌, [], ◌∷◌, All, IfOk, IfSome, MatchOption, Some};
ghost use Rattle.std.specs.Prelude.{length, map, true, vec_capacity};
ghost use Rattle.std.specs.List.{Contains};
ghost use Rattle.kfifo_pool.specs.Pooled.{Pooled};
ghost use Rattle.kfifo_live.specs.Pass.{IsPassOf};
ghost use mathlib.Core.List.{IsPrefix};
ghost use Rattle.kfifo_renewing.specs.Departed.{HaveDeparted};
ghost use Rattle.kfifo_renewing.specs.History.{IsMade, made_by};
ghost use Rattle.kfifo_renewing.specs.Joining.{IsPartIn, MayLeave, held_in};
ghost use Rattle.kfifo_renewing.specs.Renewing.{HasLeft, IsFresh, IsUntouched, Numbered, other_threads, without};

use crate::departed::Departed;
use crate::history::{History, Next};
use crate::joined::Joined;
use crate::leaving::Leaving;
use crate::memory::CellMemory;
use crate::places::Places;
use counted_slot::{Counted, FREE, Fits, PRESENT, TAKEN};
use kfifo_exclusive::Exclusive;
use kfifo_live::CloseFault;
use kfifo_pool::{PooledHandle, PooledQueue};
use std::alloc::{AllocError, Global};
use std::marker::Model;
use std::sync::atomic::AtomicU64;
use std::sync::atomic::Ordering::SeqCst;

/// A handle that waits for its thread, or was given back by it.
// Handles of all threads share those that wait. What is shared may be read by any thread unless nothing can be.
#[derive(Drop)]
pub(crate) struct Waiting<T: Drop> {
    handle: Exclusive<PooledHandle<T>>,
    /// Whether its thread has begun no call with it.
    is_unused: bool,
}

impl<T: Drop> Waiting<T> {
    /// This handle, which waits.
    fn new(handle: PooledHandle<T>, is_unused: bool) -> Waiting<T>
        ensures { (result.handle.inner ≡ handle) × (result.is_unused ≡ is_unused) }
    {
        Waiting {
            handle: Exclusive::new(handle),
            is_unused,
        }
    }

    /// The handle.
    fn into_handle(self) -> PooledHandle<T>
        ensures { result ≡ self.handle.inner }
    {
        let Waiting { handle, .. } = self;
        handle.into_inner()
    }
}

impl<T: Drop> Fits for Waiting<T> {
    type Tag = PooledQueue<T>;

    ghost fits = { λ queue waiting. IsPassOf queue waiting.handle.inner.held.pass.pass
        × (waiting.is_unused ≡ true → IsUntouched waiting.handle.inner) };
}

/// A queue of payloads with its number and what it says of the next one.
///
/// Clauses see it as its queue and its number, with a beginning of the history, in which it has that number.
#[derive(Drop)]
pub(crate) struct Core<T: Drop> {
    pub(crate) queue: PooledQueue<T>,
    pub(crate) next: Next,
    pub(crate) history: History,
}

impl<T: Drop> Model for Core<T> {
    ghost Value = { Numbered };

    ghost view = { λ c. record {
      queue = c.queue;
      number = c.next.number;
      book = c.history.book;
      seen = c.history.log;
    } };

    ghost invariant = { λ c. IsMade c.history.log c.next.number (made_by c.queue)
        × (c.next.book ≡ c.history.book) };
}

/// A generation with the handles that wait in it, how many handles may give to it, and the passes that have left it.
///
/// Clauses see it as its queue and its number, with a beginning of the history, in which it has that number.
#[derive(Drop)]
pub(crate) struct Generation<T: Drop> {
    core: Core<T>,
    waiting: Vec<Counted<Option<Waiting<T>>>>,
    departed: Counted<Option<Departed<T>>>,
    givers: AtomicU64,
    /// The memory of its cells.
    memory: CellMemory,
}

impl<T: Drop> Model for Generation<T> {
    ghost Value = { Numbered };

    ghost view = { λ g. g.core };

    ghost invariant = { λ g. All (λ queue. queue ≡ g.core.queue) g.waiting.items × (g.departed ≡ g.core) };
}

/// A place for each of these handles, in which it waits, in their order.
fn seat_all<T: Drop>(
    alloc: Global,
    queue: &PooledQueue<T>,
    handles: Vec<PooledHandle<T>>,
) -> Result<Vec<Counted<Option<Waiting<T>>>>, AllocError>
    requires { All (λ h. IsPassOf queue.now h.held.pass.pass × IsUntouched h) handles.items }
    ensures { IfOk result (λ waiting. All (λ q. q ≡ queue.now) waiting.items) }
{
    let mut waiting = Vec::with_capacity(alloc, handles.len())?;
    for handle in handles {
        let waits = Waiting::new(handle, true);
        waiting.push(Counted::new(Some(waits), queue))?;
    }
    Ok(waiting)
}

/// The handle of this thread, if it waits in this place.
fn handle_in<T: Drop>(place: Counted<Option<Waiting<T>>>, thread: u32) -> Option<PooledHandle<T>>
    ensures { IfSome result (λ h. IsPassOf place h.held.pass.pass × (h.held.pass.pass.thread ≡ thread)) }
{
    let waiting = place.into_inner()?;
    let handle = waiting.into_handle();
    if handle.pass().thread() == thread {
        Some(handle)
    } else {
        None
    }
}

/// The handle of this thread, if it is among these. It is then no longer there.
fn take_of<T: Drop>(handles: &mut Vec<PooledHandle<T>>, thread: u32) -> Option<PooledHandle<T>>
    ensures thread { IfSome result (λ h. h.held.pass.pass.thread ≡ thread) }
    ensures found { IfSome result (Contains handles.old.items) }
    ensures fewer { (h : Pooled T) → Contains handles.new.items h → Contains handles.old.items h }
    ensures others { (h : Pooled T) → Contains handles.old.items h → Contains handles.new.items h ⊎ (result ≡ Some h) }
{
    let mut index = 0;
    while index < handles.len() {
        if handles[index].pass().thread() == thread {
            return Some(handles.remove(index));
        }
        index += 1;
    }
    None
}

/// The handle of this thread: the one that is among these, and then no longer is, or else the one that waits in this
/// place.
fn handle_of<T: Drop>(
    theirs: &mut Vec<PooledHandle<T>>,
    place: Counted<Option<Waiting<T>>>,
    thread: u32,
) -> Result<PooledHandle<T>, CloseFault>
    requires { All (λ h. IsPassOf place h.held.pass.pass) theirs.old.items }
    ensures of { IfOk result (λ h. IsPassOf place h.held.pass.pass × (h.held.pass.pass.thread ≡ thread)) }
    ensures fewer { (h : Pooled T) → Contains theirs.new.items h → Contains theirs.old.items h }
    ensures others { IfOk result (λ r. (h : Pooled T) → Contains theirs.old.items h
        → Contains theirs.new.items h ⊎ (r ≡ h)) }
{
    if let Some(handle) = take_of(theirs, thread) {
        return Ok(handle);
    }
    let handle = handle_in(place, thread).ok_or(CloseFault::MissingPass)?;
    Ok(handle)
}

/// Adds the handle of this thread to those of the others, unless the thread is the own one.
fn add_other<T: Drop>(
    others: &mut Vec<PooledHandle<T>>,
    theirs: &mut Vec<PooledHandle<T>>,
    place: Counted<Option<Waiting<T>>>,
    thread: u32,
    own: u32,
) -> Result<(), CloseFault>
    requires room { length others.old.items < vec_capacity others.old }
    requires of { All (λ h. IsPassOf place h.held.pass.pass) theirs.old.items }
    ensures room { IfOk result (λ _. (vec_capacity others.new ≡ vec_capacity others.old)
        × (length others.new.items ≤ length others.old.items + 1)) }
    ensures of { IfOk result (λ _. All (λ h. IsPassOf place h.held.pass.pass) others.old.items
        → All (λ h. IsPassOf place h.held.pass.pass) others.new.items) }
    ensures threads { IfOk result (λ _. map (λ h. h.held.pass.pass.thread) others.new.items
        ≡ map (λ h. h.held.pass.pass.thread) others.old.items ++ without own (thread ∷ [])) }
    ensures fewer { (h : Pooled T) → Contains theirs.new.items h → Contains theirs.old.items h }
    ensures moved { IfOk result (λ _. (h : Pooled T) → Contains others.old.items h ⊎ Contains theirs.old.items h
        → Contains others.new.items h ⊎ Contains theirs.new.items h) }
{
    if thread == own {
        return Ok(());
    }
    let handle = handle_of(theirs, place, thread)?;
    others.push_reserved(handle);
    Ok(())
}

impl<T: Drop> Generation<T> {
    /// The generation with this queue, its handles, and its word in the history. No handle gives to it yet.
    pub(crate) fn new(
        alloc: Global,
        queue: PooledQueue<T>,
        handles: Vec<PooledHandle<T>>,
        next: Next,
        history: History,
        memory: CellMemory,
    ) -> Result<Generation<T>, AllocError>
        requires handles { All (λ h. IsPassOf queue h.held.pass.pass × IsUntouched h) handles.items }
        requires number { IsMade history.log next.number (made_by queue) × (next.book ≡ history.book) }
        ensures { IfOk result (λ g. (g.queue ≡ queue) × (g.number ≡ next.number) × (g.book ≡ history.book)
            × (g.seen ≡ history.log)) }
    {
        let waiting = seat_all(alloc, &queue, handles)?;
        let core = Core {
            queue,
            next,
            history,
        };
        let departed = Counted::new(None, &core);
        Ok(Generation {
            core,
            waiting,
            departed,
            givers: AtomicU64::new(0),
            memory,
        })
    }

    /// The queue.
    #[inline(always)]
    pub(crate) fn queue(&self) -> &PooledQueue<T>
        ensures { result.now ≡ self.now.queue }
    {
        &self.core.queue
    }

    /// The memory of its cells.
    #[inline(always)]
    pub(crate) fn memory(&self) -> &CellMemory {
        &self.memory
    }

    /// The number.
    pub(crate) fn number(&self) -> u32
        ensures { result ≡ self.now.number }
    {
        self.core.next.number()
    }

    /// What it says of the next generation.
    #[inline(always)]
    pub(crate) fn next(&self) -> &Next
        ensures { (result.now.number ≡ self.now.number) × (result.now.book ≡ self.now.book) }
    {
        &self.core.next
    }

    /// What its maker had seen of the history.
    pub(crate) fn history(&self) -> &History
        ensures book { (result.now.book ≡ self.now.book) × (result.now.log ≡ self.now.seen) }
        ensures made { IsMade result.now.log self.now.number (made_by self.now.queue) }
    {
        &self.core.history
    }

    /// The handle of this thread, unless its thread has it already, or has given it back.
    pub(crate) fn take_handle(&self, thread: u32) -> Option<PooledHandle<T>>
        ensures { IfSome result (λ h. IsPassOf self.now.queue h.held.pass.pass × IsFresh thread h) }
    {
        let place = self.waiting.get(thread as usize)?;
        let (found, claim) = place.turn(FREE, TAKEN);
        if found != FREE {
            claim.done();
            return None;
        }
        let waiting = claim.put(None, FREE)?;
        let is_unused = waiting.is_unused;
        let handle = waiting.into_handle();
        // In its place waits the handle of this thread. No clause says so, and a look does.
        if is_unused && handle.pass().thread() == thread {
            return Some(handle);
        }
        self.give_back(thread, handle, false);
        None
    }

    /// Gives the handle of this thread back, which takes it again only where it is unused: where its thread has begun
    /// no call with it.
    pub(crate) fn give_back(&self, thread: u32, handle: PooledHandle<T>, is_unused: bool)
        requires of { IsPassOf self.now.queue handle.held.pass.pass }
        requires unused { is_unused ≡ true → IsUntouched handle }
    {
        let Some(place) = self.waiting.get(thread as usize) else {
            return;
        };
        let (found, claim) = place.turn(FREE, TAKEN);
        if found != FREE {
            claim.done();
            return;
        }
        let _ = claim.put(Some(Waiting::new(handle, is_unused)), FREE);
    }

    /// One handle more gives to it.
    pub(crate) fn add_giver(&self) {
        self.givers.fetch_add(1, SeqCst);
    }

    /// One handle less gives to it.
    pub(crate) fn remove_giver(&self) {
        self.givers.fetch_sub(1, SeqCst);
    }

    /// Whether a handle may still give to it.
    pub(crate) fn has_givers(&self) -> bool {
        self.givers.load(SeqCst) != 0
    }

    /// The queue, the handles of all its threads but this one, in their order, and the memory of its cells: those of
    /// `theirs`, and of the other threads those that wait here.
    ///
    /// MissingPass where one is elsewhere, or a thread has two.
    pub(crate) fn into_parts(
        self,
        alloc: Global,
        threads: u32,
        own: u32,
        mut theirs: Vec<PooledHandle<T>>,
    ) -> Result<(PooledQueue<T>, Vec<PooledHandle<T>>, CellMemory), CloseFault>
        requires { All (λ h. IsPassOf self.queue h.held.pass.pass) theirs.items }
        ensures queue { IfOk result (λ r. r.0 ≡ self.queue) }
        ensures of { IfOk result (λ r. All (λ h. IsPassOf self.queue h.held.pass.pass) r.1.items) }
        ensures others { IfOk result (λ r. map (λ h. h.held.pass.pass.thread) r.1.items ≡ other_threads own threads) }
        ensures theirs { IfOk result (λ r. (h : Pooled T) → Contains theirs.items h → Contains r.1.items h) }
    {
        let Generation {
            core,
            waiting,
            memory,
            ..
        } = self;
        let mut others = Vec::with_capacity(alloc, threads as usize)?;
        let mut thread = 0;
        for place in waiting {
            if thread >= threads {
                return Err(CloseFault::MissingPass);
            }
            add_other(&mut others, &mut theirs, place, thread, own)?;
            thread += 1;
        }
        if thread < threads || !theirs.is_empty() {
            return Err(CloseFault::MissingPass);
        }
        let Core { queue, .. } = core;
        Ok((queue, others, memory))
    }

    /// Tries to have the pass of this part leave the generation for good, and join those that have left it.
    ///
    /// Returns the part if it stays: nobody has left yet and this pass has not seen the generation sealed, another
    /// thread is leaving, or another pass was counted first.
    pub(crate) fn depart(
        &self,
        places: &Places<T>,
        part: Leaving<Joined<T>>,
        is_sealed: bool,
        history: &mut History,
    ) -> Option<Leaving<Joined<T>>>
        requires book { history.old.book ≡ places.now.history.book }
        requires part { IsPartIn self.now part }
        requires may { MayLeave history.old.book history.old.log is_sealed part }
        ensures later { (history.new.book ≡ history.old.book) × IsPrefix history.old.log history.new.log }
        ensures left { MatchOption result (HasLeft history.new.log (held_in part)) (λ back. back ≡ part) }
    {
        let (found, claim) = self.departed.turn(FREE, TAKEN);
        if found != FREE {
            claim.done();
            return Some(part);
        }
        // With `PRESENT` the place is this thread's alone: nobody reads there, and others leave it as it is.
        let before = claim.put(None, PRESENT);
        let (after, back) = match before {
            Some(departed) => {
                let (departed, back) = self.core.join(departed, part, history);
                (Some(departed), back)
            }
            None if is_sealed => {
                // Others try to leave once the label is cleared. Were that done before this thread had the place of
                // those that have left, one of the others could hold it just now, and nobody would begin.
                places.retire(&part, history);
                self.core.begin(part, history)
            }
            // The first to leave has to have seen the generation sealed empty.
            None => (None, Some(part)),
        };
        self.put_back(after);
        back
    }

    /// Gives back what this thread took out of the place of those that have left.
    fn put_back(&self, departed: Option<Departed<T>>)
        requires { IfSome departed (λ d. HaveDeparted self.now d.history.book d.history.log d.count d.passes.inner) }
    {
        let (found, claim) = self.departed.turn(PRESENT, TAKEN);
        if found != PRESENT {
            claim.done();
            return;
        }
        let _ = claim.put(departed, FREE);
    }
}
