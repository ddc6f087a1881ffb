//! What the handles of a renewing queue share.
ghost use Rattle.std.specs.Prelude.{◌≡◌, ◌<◌, ◌≤◌, ◌+◌, ◌*◌, ◌==◌, ◌&&◌, All, IfOk, IfSome, false, length, not, true};
ghost use Rattle.kfifo_live.specs.Pass.{IsPassOf};
ghost use Rattle.logbook.specs.Pages.{may_write, nib};
ghost use Rattle.kfifo_renewing.specs.History.{AreLabels, IsPlaced, WasNewest, key_of, made, opens_more};
ghost use Rattle.kfifo_renewing.specs.History.{place_count};
ghost use Rattle.kfifo_renewing.specs.Joining.{IsPart};
ghost use Rattle.kfifo_renewing.specs.declared.places.Lineage.{Lineage};
ghost use Rattle.kfifo_renewing.specs.Renewing.{AreInRange, IsOfLineage, IsPlan, IsUntouched, opening_in};
ghost use Rattle.kfifo_renewing.specs.Renewing.{may_open_more, opening_with, room_of};
ghost use Rattle.kfifo_renewing.specs.declared.queue.TheConstants.{DEFAULT_RESERVE, NO_RENEWAL};

use crate::generation::Generation;
use crate::history::{History, Numbers};
use crate::joined::Joined;
use crate::kind::Kind;
use crate::label::Label;
use crate::leaving::Leaving;
use crate::memory::{CellLayout, CellMemory};
use crate::places::{Lineage, Places};
use kfifo_live::{SPARE_TOKENS, Sizes};
use kfifo_pool::{PooledHandle, PooledQueue};
use logbook::Pen;
use std::alloc::{AllocError, Global};
use std::marker::Model;
use std::sync::Arc;

/// The reserve of versions that a queue has unless it is opened with another: with fewer left, a generation is followed
/// by the next one.
pub const DEFAULT_RESERVE: u64 = 0x1_0000_0000;

/// The reserve of a queue that does not renew: unless it grows, it returns Worn for ever once its versions are used up.
pub const NO_RENEWAL: u64 = 0;

/// The most gives of a handle from one look at the versions that are left to the next.
const GIVES_BETWEEN_LOOKS: u64 = 4_096;

/// What the handles of a queue share.
#[derive(Drop)]
pub(crate) struct Shared<T: Drop> {
    places: Places<T>,
    numbers: Numbers,
    reserve: u64,
    /// How many generations the queue may have before its newest one while it grows.
    most_older: u32,
    layout: CellLayout,
    alloc: Global,
}

impl<T: Drop> Model for Shared<T> {
    ghost Value = { Lineage };

    ghost view = { λ s. s.places };

    ghost invariant = { λ s. (s.numbers ≡ s.places.history.book) × AreInRange s.places.sizes
        × (opens_more s.places.history.log ≡ not ((s.reserve == NO_RENEWAL) && (s.most_older == 0)))
        × (0 < length (made s.places.history.log)) };
}

impl<T: Drop> Shared<T> {
    /// The places.
    pub(crate) fn places(&self) -> &Places<T>
        ensures { result.now ≡ self.now }
    {
        &self.places
    }

    /// The numbers of the generations.
    #[inline(always)]
    pub(crate) fn numbers(&self) -> &Numbers
        ensures { result.now ≡ self.now.history.book }
    {
        &self.numbers
    }

    /// The allocator of its generations.
    pub(crate) fn allocator(&self) -> Global {
        self.alloc
    }

    /// Whether the queue opens a next generation while the newest one has versions left, but no room.
    pub(crate) fn grows(&self) -> bool {
        self.most_older != 0
    }

    /// How many generations the queue may have before its newest one while it grows.
    pub(crate) fn most_older(&self) -> usize {
        self.most_older as usize
    }

    /// Whether the queue opens a next generation where the newest one has too few versions left.
    fn renews(&self) -> bool {
        self.reserve != NO_RENEWAL
    }

    /// Whether the queue may open further generations: for its versions, or because it grows.
    pub(crate) fn opens_more(&self) -> bool
        ensures more { result ≡ opens_more self.now.history.log }
        ensures some { 0 < length (made self.now.history.log) }
    {
        self.reserve != NO_RENEWAL || self.most_older != 0
    }

    /// Whether a generation has too few versions left.
    pub(crate) fn is_spent(&self, generation: &Generation<T>) -> bool {
        generation.queue().versions_left() < self.reserve
    }

    /// How many gives a handle makes from one look at the versions to the next: at least 1.
    // Meanwhile the handles together use fewer versions up than an eighth of the reserve, two for each pair of calls.
    pub(crate) fn gives_between_looks(&self) -> u64 {
        if !self.renews() {
            return GIVES_BETWEEN_LOOKS;
        }
        let each = self.reserve / 16 / u64::from(self.places.lineage.sizes.threads).max(1);
        each.saturating_add(1).min(GIVES_BETWEEN_LOOKS)
    }

    /// A new generation, with a number of its own, and the pen that may write its word. None where there is no number
    /// for it.
    fn make<K: Kind<T>>(
        &self,
        history: &mut History,
    ) -> Result<Option<(Generation<T>, Pen)>, AllocError>
        requires book { history.old.book ≡ self.now.history.book }
        requires bare { self.now.bare ≡ K.bare }
        ensures book { history.new.book ≡ history.old.book }
        ensures of { IfOk result (λ made. IfSome made (λ r. IsOfLineage self.now r.0)) }
        ensures pen { IfOk result (λ made. IfSome made
            (λ r. (r.1.book ≡ r.0.book) × (r.1.nib ≡ nib may_write (key_of r.0.number) 0))) }
    {
        let sizes = &self.places.lineage.sizes;
        let (queue, handles, memory) = open_parts::<T, K>(self.alloc, sizes, self.layout)?;
        let Some((next, pen)) = self.numbers.number(&queue, history) else {
            return Ok(None);
        };
        let seen = history.again();
        let generation = Generation::new(self.alloc, queue, handles, next, seen, memory)?;
        Ok(Some((generation, pen)))
    }

    /// Opens the generation after this one, which was the newest, by the handle with this part. It does not where
    /// another handle has opened that, memory or room is missing, or the queue opens none. Returns false where memory
    /// is missing.
    pub(crate) fn renew<K: Kind<T>>(
        &self,
        newest: &Generation<T>,
        part: &Leaving<Joined<T>>,
        mut history: History,
    ) -> bool
        requires books { (newest.now.book ≡ self.now.history.book) × (history.book ≡ self.now.history.book) }
        requires newest { WasNewest history.log newest.now.number }
        requires part { (part.now.number ≡ newest.now.number) × IsPart history.log part.now }
        requires bare { self.now.bare ≡ K.bare }
    {
        let seen = history.again();
        let is_newest = newest.next().look(part, &mut history) == 0;
        if !self.opens_more() || !is_newest || !self.places.has_room() {
            return true;
        }
        let Ok(made) = self.make::<K>(&mut history) else {
            return false;
        };
        let Some((generation, mut pen)) = made else {
            return true;
        };
        history.learn(&seen);
        history.learn(generation.history());
        history.learn(self.places.history());
        let number = generation.number();
        let Ok(generation) = Arc::new(self.alloc, generation) else {
            return false;
        };
        if number <= newest.number() {
            return true;
        }
        let Some(place) = self.places.put(number, generation) else {
            return true;
        };
        if newest.next().renew(number, &mut pen, &mut history) {
            self.places.show(place, number, &mut history);
            self.numbers
                .advance(newest.number(), u64::from(number), &history);
        } else {
            // Another handle was faster. Nobody has given to this one, and nobody will.
            self.places.empty(place, number);
        }
        true
    }

    /// What each generation is opened with.
    pub(crate) fn sizes(&self) -> Sizes
        ensures { result ≡ self.now.sizes }
    {
        self.places.lineage.sizes
    }

    /// For how many values a generation has room, whatever the handles keep for themselves.
    pub(crate) fn capacity(&self) -> usize
        ensures { result ≡ room_of (opening_in self.now) }
    {
        let sizes = self.sizes();
        sizes.threads as usize * sizes.tokens.saturating_sub(SPARE_TOKENS) as usize
    }
}

/// When a queue opens its next generation.
#[derive(Clone, Copy, PartialEq, Eq, Debug)]
pub struct Renewals {
    /// With fewer versions left than this, the newest generation is followed by the next one: `DEFAULT_RESERVE`, or
    /// less for tests. It has to last until the generation is empty, which takes a version for each segment and each
    /// call that is under way. With `NO_RENEWAL` it is followed only once its versions are used up, in a queue that
    /// grows: takes then return Worn if payloads are left in it.
    pub reserve: u64,
    /// How many generations the queue may have at the same time because it grows: where the newest one has no room, it
    /// is followed by the next one as long as there are fewer. With 1 the queue does not grow.
    pub generations: u32,
}

impl Renewals {
    /// Whether a queue with them may open further generations.
    pub(crate) fn opens_more(&self) -> bool
        ensures { result ≡ may_open_more self.now }
    {
        self.reserve != NO_RENEWAL || self.generations != 1
    }

    /// Those of a queue with `DEFAULT_RESERVE` that does not grow.
    pub fn none() -> Renewals
        ensures { (result.reserve ≡ DEFAULT_RESERVE) × (result.generations ≡ 1) }
    {
        Renewals {
            reserve: DEFAULT_RESERVE,
            generations: 1,
        }
    }
}

/// What a queue is opened with, once it was tested.
#[derive(Clone, Copy)]
pub(crate) struct Plan {
    pub(crate) sizes: Sizes,
    pub(crate) layout: CellLayout,
    pub(crate) renewals: Renewals,
}

/// What a generation is made of: its queue, the handles of all threads, and the memory of its cells.
pub(crate) fn open_parts<T: Drop, K: Kind<T>>(
    alloc: Global,
    sizes: &Sizes,
    layout: CellLayout,
) -> Result<(PooledQueue<T>, Vec<PooledHandle<T>>, CellMemory), AllocError>
    requires { AreInRange sizes.now }
    ensures opened { IfOk result (λ r. r.0.opened ≡ opening_with K.bare sizes.now) }
    ensures of { IfOk result (λ r. All (λ h. IsPassOf r.0 h.held.pass.pass × IsUntouched h) r.1.items) }
    ensures room { IfOk result
        (λ r. sizes.now.threads * sizes.now.tokens * layout.size + layout.alignment ≤ 8 * r.2) }
{
    let memory = CellMemory::new(alloc, layout, sizes.threads * sizes.tokens)?;
    let (queue, handles) = K::open(alloc, sizes)?;
    Ok((queue, handles, memory))
}

/// The state that the handles share, with a first generation, the place of that, and what was seen of the history.
pub(crate) fn share<T: Drop>(
    alloc: Global,
    generation: &Arc<Generation<T>, Global>,
    numbers: Numbers,
    labels: Vec<Label>,
    bare: bool,
    plan: Plan,
) -> Result<(Arc<Shared<T>, Global>, usize, History), AllocError>
    requires plan { IsPlan plan.sizes plan.renewals }
    requires of { generation.now.value.queue.opened ≡ opening_with bare plan.sizes }
    requires numbers { (numbers ≡ generation.now.value.book) × AreLabels numbers labels.items }
    requires first { generation.now.value.number ≡ 0 }
    requires more { opens_more generation.now.value.seen ≡ may_open_more plan.renewals }
    ensures shared { IfOk result (λ r. (r.0.value.sizes ≡ plan.sizes) × (r.0.value.bare ≡ bare)
        × (r.0.value.history.book ≡ generation.now.value.book)) }
    ensures there { IfOk result (λ r. (r.2.book ≡ generation.now.value.book) × (r.1 < place_count)
        × IsPlaced r.2.log generation.now.value.number r.1) }
{
    let Plan {
        sizes,
        layout,
        renewals,
    } = plan;
    let lineage = Lineage {
        sizes,
        bare,
        history: generation.history().again(),
    };
    // Handles keep at most one old generation each, and two are there while a change goes on: so there is room for a
    // generation that comes too late too.
    let mut history = generation.history().again();
    let count = renewals.generations + 2 * sizes.threads + 1;
    let places = Places::new(alloc, lineage, labels, count as usize)?;
    let number = generation.number();
    places
        .put(number, Arc::try_clone(generation)?)
        .ok_or(AllocError)?;
    let place = places.find(number, &mut history).ok_or(AllocError)?;
    let shared = Shared {
        places,
        numbers,
        reserve: renewals.reserve,
        most_older: renewals.generations - 1,
        layout,
        alloc,
    };
    Ok((Arc::new(alloc, shared)?, place, history))
}
