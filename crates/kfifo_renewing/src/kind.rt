//! What the generations of a queue hold: payloads, or the tokens of cells.
ghost use Rattle.std.specs.Prelude.{◌≡◌, Bool, All, IfOk, false, true};
ghost use Rattle.kfifo_live.specs.Pass.{IsPassOf, IsSamePass};
ghost use Rattle.kfifo_live.specs.declared.payload.Taken.{Taken as HasTaken};
ghost use Rattle.kfifo_live.specs.declared.payload.sealing.TakenOrSealed.{TakenOrSealed as OrSealed};
ghost use Rattle.kfifo_pool.specs.Pooled.{Pooled, ReceivesOne, ReceivesOneOrSeals};
ghost use Rattle.kfifo_renewing.specs.Memory.{ReceivesAt, ReceivesAtOrSeals};
ghost use Rattle.kfifo_renewing.specs.Renewing.{AreInRange, IsUntouched, SealsThere, TakesThere, opening_with};

use crate::memory::{CellAt, CellMemory};
use kfifo_live::{Sizes, Taken, TakenOrSealed};
use kfifo_pool::{PooledHandle, PooledQueue};
use std::alloc::{AllocError, Global};

/// What the generations of a queue hold, and how a take gets it out of one.
pub trait Kind<T: Drop> {
    /// What a take gets.
    type Got: Drop;

    // whether the queue of a generation is bare
    ghost bare: { Bool };

    // what a take did in a generation
    ghost takes: { HasTaken Self.Got → Pooled T → Pooled T → Type 0 };

    // and one that may seal it
    ghost seals: { OrSealed Self.Got → Pooled T → Pooled T → Type 0 };

    /// Whether the queue of a generation is bare.
    fn is_bare() -> bool
        ensures { result ≡ bare };

    /// The queue of a generation, with the handles of all threads.
    fn open(
        alloc: Global,
        sizes: &Sizes,
    ) -> Result<(PooledQueue<T>, Vec<PooledHandle<T>>), AllocError>
        requires { AreInRange sizes.now }
        ensures opened { IfOk result (λ r. r.0.opened ≡ opening_with bare sizes.now) }
        ensures of { IfOk result (λ r. All (λ h. IsPassOf r.0 h.held.pass.pass × IsUntouched h) r.1.items) };

    /// Takes from a generation, whose queue this is, and whose cells lie in this memory.
    fn take(
        handle: &mut PooledHandle<T>,
        queue: &PooledQueue<T>,
        memory: &CellMemory,
    ) -> Taken<Self::Got>
        requires of { IsPassOf queue.now handle.old.held.pass.pass }
        requires bare { queue.now.opened.bare ≡ bare }
        ensures same { IsSamePass handle.old.held.pass.pass handle.new.held.pass.pass }
        ensures takes { TakesThere takes result handle.old handle.new };

    /// The same, and seals the generation where it is empty: nothing is given to it any more.
    fn take_or_seal(
        handle: &mut PooledHandle<T>,
        queue: &PooledQueue<T>,
        memory: &CellMemory,
    ) -> TakenOrSealed<Self::Got>
        requires of { IsPassOf queue.now handle.old.held.pass.pass }
        requires bare { queue.now.opened.bare ≡ bare }
        ensures same { IsSamePass handle.old.held.pass.pass handle.new.held.pass.pass }
        ensures seals { SealsThere seals result handle.old handle.new };
}

/// Generations of queues with payloads.
pub struct Payloads;

impl<T: Drop> Kind<T> for Payloads {
    type Got = T;

    ghost bare = { false };

    ghost takes = { ReceivesOne };

    ghost seals = { ReceivesOneOrSeals };

    fn is_bare() -> bool {
        false
    }

    fn open(
        alloc: Global,
        sizes: &Sizes,
    ) -> Result<(PooledQueue<T>, Vec<PooledHandle<T>>), AllocError> {
        let opened = PooledQueue::open_with_payloads(alloc, *sizes)?;
        Ok(opened)
    }

    #[inline(always)]
    fn take(
        handle: &mut PooledHandle<T>,
        queue: &PooledQueue<T>,
        _memory: &CellMemory,
    ) -> Taken<T> {
        handle.receive(queue)
    }

    #[inline(always)]
    fn take_or_seal(
        handle: &mut PooledHandle<T>,
        queue: &PooledQueue<T>,
        _memory: &CellMemory,
    ) -> TakenOrSealed<T> {
        handle.receive_or_seal(queue)
    }
}

/// Generations of bare queues, whose tokens have cells.
pub struct Cells;

impl Kind<()> for Cells {
    type Got = CellAt;

    ghost bare = { true };

    ghost takes = { ReceivesAt };

    ghost seals = { ReceivesAtOrSeals };

    fn is_bare() -> bool {
        true
    }

    fn open(
        alloc: Global,
        sizes: &Sizes,
    ) -> Result<(PooledQueue<()>, Vec<PooledHandle<()>>), AllocError> {
        let opened = PooledQueue::open(alloc, *sizes)?;
        Ok(opened)
    }

    #[inline(always)]
    fn take(
        handle: &mut PooledHandle<()>,
        queue: &PooledQueue<()>,
        memory: &CellMemory,
    ) -> Taken<CellAt> {
        memory.taken(handle.receive_cell(queue))
    }

    #[inline(always)]
    fn take_or_seal(
        handle: &mut PooledHandle<()>,
        queue: &PooledQueue<()>,
        memory: &CellMemory,
    ) -> TakenOrSealed<CellAt> {
        memory.taken_or_sealed(handle.receive_cell_or_seal(queue))
    }
}
