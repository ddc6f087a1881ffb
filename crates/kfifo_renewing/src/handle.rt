//! The handle of a queue that does not wear out.
ghost use Rattle.std.specs.Prelude.{◌≡◌, ◌<◌, ◌+◌, ◌↔◌, false, true, [], All, IfOk, MatchBool, MatchOption, length};
ghost use Rattle.std.specs.Ptr.{as_ptr};
ghost use mathlib.Core.List.{IsPrefix};
ghost use Rattle.kfifo_live.specs.Pass.{IsPassOf};
ghost use Rattle.kfifo_renewing.specs.History.{HasRisen, opens_more};
ghost use Rattle.kfifo_renewing.specs.Joining.{HasJoined, IsPart, held_by};
ghost use Rattle.kfifo_renewing.specs.Renewing.{Follows, Generations, HasAll, IsAtNewest, IsBehind, IsFresh, IsLater};
ghost use Rattle.kfifo_renewing.specs.Renewing.{IsOpenedAs, LeavesGone, all_of, opening_in, with_older, with_seen};

use crate::generation::Generation;
use crate::history::History;
use crate::joined::Joined;
use crate::kind::{Kind, Payloads};
use crate::leaving::Leaving;
use crate::older::Older;
use crate::places::Places;
use crate::queue::Shared;
use std::alloc::{AllocError, Global};
use std::marker::{Model, PhantomData};
use std::sync::Arc;

/// For how many old generations a handle has room from its opening, beside those of growth. A change adds one, which
/// goes once it is empty, so there are more only where as many handles stopped, each in a generation of its own. For
/// these a handle asks for memory.
const KEPT: usize = 9;

/// What a caller gives and takes values with, in a queue that does not wear out: payloads, or cells.
///
/// A handle that is dropped leaves the queue: nobody waits for it, and what it gave is still taken.
///
/// ```rust
/// let mut handles = open::<u64>(alloc, 4, 32, 2)?; // k, capacity, threads
/// let (Some(mut taker), Some(mut giver)) = (handles.pop(), handles.pop()) else {
///     unreachable!()
/// };
/// let given = giver.give(7); // Done
/// let taken = taker.take(); // Got(7)
/// let left = close(alloc, vec![in alloc; giver, taker]?)?.left; // the payloads that are left: none
/// ```
///
/// Clauses see it as the generations that it has joined, its handle in each, and what it has seen of the history of the
/// queue: which generations were made, and which became the newest.
#[derive(Drop)]
pub struct RenewingHandle<T: Drop, K: Kind<T> = Payloads> {
    pub(crate) shared: Arc<Shared<T>, Global>,
    pub(crate) history: History,
    pub(crate) newest: Leaving<Joined<T>>,
    /// The same generation. The handle counts among those that give to it, unless that says that there is a later one.
    pub(crate) generation: Arc<Generation<T>, Global>,
    /// Those before it that may still have values.
    pub(crate) older: Older<T>,
    /// Room for those that the handle is about to join, so that it seldom needs memory to follow others. Else empty.
    pub(crate) spare: Vec<Leaving<Joined<T>>>,
    pub(crate) thread: u32,
    /// Whether memory was missing for the last generation that the handle tried to open because there was no room.
    lacks_memory: bool,
    pub(crate) gives_left: u64,
    gives_between_looks: u64,
    kind: PhantomData<K>,
}

impl<T: Drop, K: Kind<T>> Model for RenewingHandle<T, K> {
    ghost Value = { Generations T };

    ghost view = { λ h. record {
      opened = opening_in h.shared.value;
      thread = h.thread;
      book = h.history.book;
      seen = h.history.log;
      older = held_by h.older.items;
      newest = h.newest.handle;
      number = h.generation.value.number;
    } };

    ghost invariant = { λ h. HasJoined (opening_in h.shared.value) h.shared.value.history.book h.history.book
        h.history.log h.generation.value h.newest h.older.items × (h.shared.value.bare ≡ K.bare) };
}

impl<T: Drop, K: Kind<T>> RenewingHandle<T, K> {
    /// The handle of this thread, which has joined the first generation.
    pub(crate) fn new(
        alloc: Global,
        shared: Arc<Shared<T>, Global>,
        history: History,
        generation: Arc<Generation<T>, Global>,
        mut newest: Leaving<Joined<T>>,
        thread: u32,
    ) -> Result<RenewingHandle<T, K>, AllocError>
        requires opened { IsOpenedAs (opening_in shared.value) newest.handle }
        requires bare { shared.value.bare ≡ K.bare }
        requires books { (history.book ≡ shared.value.history.book) × (generation.value.book ≡ history.book)
            × (newest.book ≡ history.book) }
        requires first { (generation.value.number ≡ 0) × (newest.number ≡ 0) }
        requires part { IsPart history.log newest }
        requires of { IsPassOf generation.value.queue newest.handle.held.pass.pass }
        requires fresh { IsFresh thread newest.handle }
        requires risen { HasRisen history.log }
        ensures same { IfOk result (λ h. (h.opened ≡ opening_in shared.value) × (h.thread ≡ thread)
            × (h.book ≡ history.book) × (h.seen ≡ history.log)) }
        ensures one { IfOk result (λ h. (h.older ≡ []) × (h.newest ≡ newest.handle) × (h.number ≡ 0)) }
        ensures fresh { IfOk result (λ h. IsFresh h.thread h.newest) }
    {
        let room = shared.most_older().saturating_add(KEPT);
        let room = room.min(shared.places().count());
        let older = Older::new(alloc, room)?;
        let spare = Vec::with_capacity(alloc, room)?;
        newest.start_giving();
        let gives_between_looks = shared.gives_between_looks();
        Ok(RenewingHandle {
            shared,
            history,
            newest,
            generation,
            older,
            spare,
            thread,
            lacks_memory: false,
            gives_left: gives_between_looks,
            gives_between_looks,
            kind: PhantomData,
        })
    }

    /// What it has seen of the history.
    pub(crate) fn history(&self) -> &History
        ensures { (result.now.book ≡ self.now.book) × (result.now.log ≡ self.now.seen) }
    {
        &self.history
    }

    /// The places of the queue's generations.
    pub(crate) fn places(&self) -> &Places<T>
        ensures { result.now.history.book ≡ self.now.book }
    {
        self.shared.places()
    }

    /// Learns what another handle of the queue has seen of the history.
    pub(crate) fn learn(&mut self, seen: &History)
        requires book { seen.now.book ≡ self.old.book }
        ensures same { self.new ≡ with_seen self.old self.new.seen }
        ensures later { IsLater self.old self.new }
        ensures seen { IsPrefix seen.now.log self.new.seen }
    {
        self.history.learn(seen);
    }

    /// The number of the generation that the handle joined last.
    pub(crate) fn number(&self) -> u32
        ensures { result ≡ self.now.number }
    {
        self.generation.number()
    }

    /// Whether another generation than the one that the handle joined last is the newest of the queue.
    #[inline(always)]
    pub(crate) fn is_behind(&mut self) -> bool
        ensures same { self.new ≡ with_seen self.old self.new.seen }
        ensures later { IsLater self.old self.new }
        ensures newest { MatchBool result (IsBehind self.old self.new) (IsAtNewest self.old self.new) }
        ensures all { HasAll self.new }
    {
        let found = self.generation.next().look(&self.newest, &mut self.history);
        found != 0
    }

    /// Opens the generation after the newest one, unless another handle has done so, or memory or room is missing.
    /// Returns false where memory is missing.
    pub(crate) fn renew(&self) -> bool {
        self.shared
            .renew::<K>(&self.generation, &self.newest, self.history.again())
    }

    /// Counts a give, and looks at the versions that are left at each so many of them.
    #[inline(always)]
    pub(crate) fn count_give(&mut self)
        ensures { self.new ≡ self.old }
    {
        self.gives_left = self.gives_left.wrapping_sub(1);
        if self.gives_left == 0 {
            self.look_at_versions();
        }
    }

    /// Opens the generation after the newest one, which has no room, where the queue has fewer than it may have.
    pub(crate) fn open_more(&mut self)
        ensures same { self.new ≡ with_older (with_seen self.old self.new.seen) self.new.older }
        ensures later { IsLater self.old self.new }
        ensures older { LeavesGone self.new.seen self.old.older self.new.older }
    {
        self.leave_gone();
        let may_open = self.older.len() < self.shared.most_older();
        self.lacks_memory = may_open && !self.renew();
    }

    /// Looks at the versions that the newest generation has left, once the handle has made so many gives, and opens the
    /// next one where they are too few.
    #[cold]
    #[inline(never)]
    pub(crate) fn look_at_versions(&mut self)
        ensures { self.new ≡ self.old }
    {
        if self.gives_left != 0 {
            return;
        }
        self.gives_left = self.gives_between_looks;
        if self.shared.is_spent(&self.generation) {
            self.renew();
        }
    }

    /// Whether the queue may open further generations: because versions run out, or because it grows. If not, it has
    /// its first generation alone.
    pub fn may_open_more(&self) -> bool
        ensures more { result ≡ opens_more self.now.seen }
        ensures one { result ≡ false → self.now.number ≡ 0 }
    {
        let mut history = self.history.again();
        history.learn(self.shared.places().history());
        self.shared.opens_more()
    }

    /// Follows others that have opened a newer generation, and returns in how many generations the handle then is.
    ///
    /// That is 1, but for the time of a change: an older one stays until it is found empty and is sealed, which it is
    /// not while a handle counts among those that give to it. Returns None where others opened new ones all the time.
    pub fn generations(&mut self) -> Option<usize>
        ensures follows { Follows self.old self.new }
        ensures count { MatchOption result (IsBehind self.old self.new)
            (λ n. (n ≡ length (all_of self.new)) × IsAtNewest self.old self.new) }
        ensures all { HasAll self.new }
    {
        if !self.keep_up() {
            return None;
        }
        Some(self.older.len() + 1)
    }

    /// Whether the last call of this handle that found no room would have opened a generation, for which memory was
    /// missing: then a later call may find room though no value was taken.
    ///
    /// It tells the two reasons apart for which a queue that may grow refuses a value. In one that may not grow it is
    /// always false.
    pub fn lacks_memory(&self) -> bool {
        self.lacks_memory
    }

    /// Whether the generation to which this handle gives is that to which another handle of its queue gives, as far as
    /// they have followed others.
    pub fn is_beside(&self, other: &RenewingHandle<T, K>) -> bool
        requires { other.now.book ≡ self.now.book }
        ensures number { result ≡ true ↔ (self.now.number ≡ other.now.number) }
        ensures same { self.now.number ≡ other.now.number
            → self.now.newest.held.pass.pass.table ≡ other.now.newest.held.pass.pass.table }
    {
        // What both have seen of the history has one generation at a number.
        let mut history = self.history.again();
        history.learn(&other.history);
        self.number() == other.number()
    }

    /// Where its queue is: the same address for all handles of a queue, and another one for each other queue that is
    /// open. Nothing is read or written through it.
    pub fn address(&self) -> *mut u8 {
        address_of(&self.shared)
    }

    /// Gives the handle up.
    pub(crate) fn into_joined(self) -> Result<JoinedAll<T>, AllocError>
        ensures shared { IfOk result (λ r. (opening_in r.shared.value ≡ self.opened) × (r.shared.value.bare ≡ K.bare)) }
        ensures history { IfOk result (λ r. (r.history.book ≡ self.book) × (r.history.log ≡ self.seen)
            × All (IsPart r.history.log) r.parts.items) }
        ensures joined { IfOk result (λ r. held_by r.parts.items ≡ all_of self) }
        ensures books { IfOk result (λ r. (r.history.book ≡ r.shared.value.history.book)
            × All (λ p. p.book ≡ r.history.book) r.parts.items) }
        ensures of { IfOk result (λ r. All (λ p. IsOpenedAs (opening_in r.shared.value) p.handle) r.parts.items) }
    {
        let Self {
            shared,
            history,
            newest,
            older,
            ..
        } = self;
        let mut parts = older.into_parts();
        parts.push(newest)?;
        Ok(JoinedAll {
            shared,
            history,
            parts,
        })
    }
}

/// What a handle had that was given up: what the handles of its queue share, what it has seen of the history, and the
/// generations that it has joined, the oldest first.
#[derive(Drop)]
pub(crate) struct JoinedAll<T: Drop> {
    pub(crate) shared: Arc<Shared<T>, Global>,
    pub(crate) history: History,
    pub(crate) parts: Vec<Leaving<Joined<T>>>,
}

/// The address of what the handles of a queue share.
fn address_of<T: Drop>(shared: &Shared<T>) -> *mut u8
    ensures { result ≡ as_ptr shared.entry }
{
    std::ptr::from_ref(shared) as *mut u8
}
