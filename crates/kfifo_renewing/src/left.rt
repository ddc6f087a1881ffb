//! Closing a queue of cells. What was left lies in the memory of its generation, which is the caller's until then.
ghost use Rattle.std.specs.Prelude.{◌≡◌, All, IfOk, List, map, true, ℕ};
ghost use Rattle.kfifo_renewing.specs.Cells.{CellsWereLeft, ClosesAllCells, LeavesCells};
ghost use Rattle.kfifo_renewing.specs.Joining.{HaveParts, IsBeside, IsPart, held_by, held_in};
ghost use Rattle.kfifo_renewing.specs.Memory.{cells_in};
ghost use Rattle.kfifo_renewing.specs.Renewing.{AreOfOneQueue, Generations, HaveEnded, HaveOwnAmong, IsOpenedAs};
ghost use Rattle.kfifo_renewing.specs.Renewing.{opening_with};
ghost use Rattle.kfifo_renewing.specs.declared.change.Change.{Change};

use crate::closing::{Closed, Ended, Gathered, end, gather};
use crate::handle::RenewingHandle;
use crate::joined::Joined;
use crate::kind::Cells;
use crate::leaving::Leaving;
use crate::memory::{CellAt, CellMemory};
use kfifo_live::{CloseFault, Sizes};
use kfifo_pool::PooledHandle;
use std::alloc::{AllocError, Global};
use std::marker::Model;

/// The cells that were left in a generation of a closed queue, with their memory, which is freed when this is dropped.
///
/// Clauses see it as the numbers of the cells.
#[derive(Drop)]
pub struct LeftCells {
    cells: Vec<CellAt>,
    memory: CellMemory,
}

impl Model for LeftCells {
    ghost Value = { List ℕ };

    ghost view = { λ l. map (λ at. at.index) l.cells.items };
}

impl LeftCells {
    /// These cells of a generation, by the numbers of their tokens, in its memory.
    fn new(alloc: Global, tokens: Vec<u32>, memory: CellMemory) -> Result<LeftCells, AllocError>
        ensures { IfOk result (λ left. left ≡ cells_in tokens.items) }
    {
        let mut cells = Vec::with_capacity(alloc, tokens.len())?;
        for token in tokens {
            cells.push(memory.at(token.saturating_sub(1)))?;
        }
        Ok(LeftCells { cells, memory })
    }

    /// Where the cells lie. Whoever closed the queue reads what is in them, or drops it, before this is dropped.
    pub fn cells(&self) -> &[CellAt]
        ensures { map (λ at. at.index) result.now ≡ self.now }
    {
        self.cells.as_slice()
    }
}

/// The cells that are left in a generation, by the handle of this part, and by these and those that wait there.
fn close_one(
    alloc: Global,
    joined: Leaving<Joined<()>>,
    theirs: Vec<PooledHandle<()>>,
    sizes: &Sizes,
) -> Result<LeftCells, CloseFault>
    requires opened { IsOpenedAs (opening_with true sizes.now) joined.handle }
    requires theirs { All (λ h. IsBeside joined.handle h) theirs.items }
    ensures { IfOk result (λ left. (log : List Change) (handles : List (Generations (Unit {0})))
        → HaveOwnAmong log handles joined.number theirs.items → CellsWereLeft log handles (held_in joined) left) }
{
    let Ended {
        queue,
        handle,
        mut others,
        memory,
    } = end(alloc, joined, theirs, sizes.threads)?;
    let Ok(()) = others.push(handle) else {
        return Err(CloseFault::Memory);
    };
    let tokens = queue.close(alloc, others)?;
    let left = LeftCells::new(alloc, tokens, memory)?;
    Ok(left)
}

/// The cells that are left in these generations, those of the first one first.
fn close_each(alloc: Global, gathered: Gathered<()>) -> Result<Vec<LeftCells>, CloseFault>
    requires opened { All (λ p. IsOpenedAs (opening_with true gathered.sizes) p.handle) gathered.all.items
        × All (λ p. IsOpenedAs (opening_with true gathered.sizes) p.handle) gathered.theirs.parts.items }
    requires parts { (log : List Change) × All (IsPart log) gathered.all.items
        × All (IsPart log) gathered.theirs.parts.items }
    ensures { IfOk result (λ left. (log : List Change) (handles : List (Generations (Unit {0})))
        → HaveParts log handles gathered.theirs.parts.items
        → LeavesCells log handles (held_by gathered.all.items) left.items
        × HaveEnded log handles (held_by gathered.all.items)) }
{
    let Gathered {
        all,
        mut theirs,
        sizes,
        ..
    } = gathered;
    let mut left = Vec::with_capacity(alloc, all.len())?;
    for joined in all {
        let here = theirs.take(alloc, joined.number())?;
        let closed = close_one(alloc, joined, here, &sizes)?;
        let Ok(()) = left.push(closed) else {
            return Err(CloseFault::Memory);
        };
    }
    theirs.end()?;
    Ok(left)
}

/// Closes a queue of cells by all its handles, and returns the cells that are left in each of its generations, the
/// oldest first, with their memory, and what was seen of its history.
///
/// As in `close`, each handle first leaves what has gone, and the last one follows the others. In each generation that
/// it is then in, they are what is left after the one schedule of all calls there, in the order of
/// `PooledQueue::close`. A cell that a handle had reserved or received is not among them.
///
/// The handles are of one queue. MissingPass where one of its handles is still elsewhere, or none is given; Memory
/// where an allocation failed. The cells are then gone with their memory, and nobody reads what was in them.
pub fn close_cells(
    alloc: Global,
    handles: Vec<RenewingHandle<(), Cells>>,
) -> Result<Closed<LeftCells>, CloseFault>
    requires { AreOfOneQueue handles.items }
    ensures closes { IfOk result (λ closed. ClosesAllCells handles.items closed.left.items closed.history.log) }
    ensures book { IfOk result (λ closed. All (λ g. g.book ≡ closed.history.book) handles.items) }
{
    let gathered = gather(alloc, handles)?;
    let history = gathered.history.again();
    let left = close_each(alloc, gathered)?;
    Ok(Closed { left, history })
}
