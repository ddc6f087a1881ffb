//! Queues of cells: each cell is in one place, in the generation in which it was reserved.
ghost use Rattle.std.specs.Prelude.{◌≡◌, IfOk, map};
ghost use Rattle.kfifo_renewing.specs.Renewing.{AreOfOneQueue};
ghost use Rattle.kfifo_renewing.specs.Renewing.{IsOfSameQueue};

use kfifo_live::{CloseFault, Given, Sizes, Taken};
use kfifo_renewing::{
    CapacityFault, CellLayout, Cells, DEFAULT_RESERVE, LeftCells, RenewFault, Renewals,
    RenewingHandle, close_cells, open_cells, open_cells_with,
};
use kfifo_words::MAX_VERSION;
use std::alloc::{AllocError, Global};
use std::marker::Model;
use std::process::Abort;
use std::sync::atomic::{AtomicU64, Ordering};
use std::test::Fail;
use std::thread::{map_vec, yield_now};

/// More cells than a queue of these tests has.
const MANY: u32 = 100_000;

/// How many cells each thread publishes.
const EACH: u32 = 1_000;

/// How often a call is made again before a test gives up.
const TRIES: u32 = 16_777_216;

/// The most cells that a generation has in the tests that count who has a cell.
const PLACES: u32 = 1_024;

type Handle = RenewingHandle<(), Cells>;

/// A layout of 16 bytes.
fn layout() -> CellLayout {
    CellLayout {
        size: 16,
        alignment: 8,
    }
}

/// The handles of a queue with k = 1 and room for so many cells.
fn open(alloc: Global, capacity: u32, threads: u32) -> Result<Handles, CapacityFault> {
    let handles = open_cells(alloc, 1, capacity, threads, layout())?;
    Ok(Handles { handles })
}

/// The handles of a queue with k = 1 and room for 8 cells. Each generation has so many versions, and half of them are
/// its reserve.
fn open_short(alloc: Global, threads: u32, last: u64, generations: u32) -> Result<Handles, Fail> {
    let sizes = Sizes::for_capacity(1, 8, threads, last)?;
    let renewals = Renewals {
        reserve: (last / 2).min(DEFAULT_RESERVE),
        generations,
    };
    let handles = open_cells_with(alloc, sizes, layout(), renewals)?;
    Ok(Handles { handles })
}

fn reserve(handle: &mut Handle) -> Option<u32>
    ensures { IsOfSameQueue handle.old handle.new }
{
    match handle.reserve() {
        Some(at) => Some(at.index),
        None => None,
    }
}

fn publish(handle: &mut Handle) -> Given<()>
    ensures { IsOfSameQueue handle.old handle.new }
{
    handle.publish()
}

fn receive(handle: &mut Handle) -> Taken<u32>
    ensures { IsOfSameQueue handle.old handle.new }
{
    match handle.receive() {
        Taken::Got(at) => Taken::Got(at.index),
        Taken::Empty => Taken::Empty,
        Taken::Busy => Taken::Busy,
        Taken::Worn => Taken::Worn,
    }
}

fn release(handle: &mut Handle) -> Given<()>
    ensures { IsOfSameQueue handle.old handle.new }
{
    handle.release()
}

fn cancel(handle: &mut Handle) -> Given<()>
    ensures { IsOfSameQueue handle.old handle.new }
{
    handle.cancel()
}

/// The handles of one queue. A call is that of the handle in this place; with no handle there it returns what no test
/// wants.
#[derive(Drop)]
struct Handles {
    handles: Vec<Handle>,
}

impl Model for Handles {
    ghost Value = { Unit {0} };

    ghost view = { λ h. tt };

    ghost invariant = { λ h. AreOfOneQueue h.handles.items };
}

impl Handles {
    fn reserve(&mut self, place: usize) -> Option<u32> {
        let Some(handle) = self.handles.get_mut(place) else {
            return None;
        };
        reserve(handle)
    }

    fn publish(&mut self, place: usize) -> Given<()> {
        let Some(handle) = self.handles.get_mut(place) else {
            return Given::Worn(());
        };
        publish(handle)
    }

    fn receive(&mut self, place: usize) -> Taken<u32> {
        let Some(handle) = self.handles.get_mut(place) else {
            return Taken::Worn;
        };
        receive(handle)
    }

    fn release(&mut self, place: usize) -> Given<()> {
        let Some(handle) = self.handles.get_mut(place) else {
            return Given::Worn(());
        };
        release(handle)
    }

    fn cancel(&mut self, place: usize) -> Given<()> {
        let Some(handle) = self.handles.get_mut(place) else {
            return Given::Worn(());
        };
        cancel(handle)
    }

    fn generations(&mut self, place: usize) -> Option<usize> {
        let Some(handle) = self.handles.get_mut(place) else {
            return None;
        };
        handle.generations()
    }

    /// The cell that a take got, if it got one.
    fn got(&mut self, place: usize) -> Option<u32> {
        match self.receive(place) {
            Taken::Got(cell) => Some(cell),
            _ => None,
        }
    }

    /// Reserves a cell and publishes it. Where that generation has no version left, it cancels the cell, and publishes
    /// one of the next generation. Returns the cell that it published.
    fn give(&mut self, place: usize) -> Option<u32> {
        for _try in 0..2 {
            let cell = self.reserve(place)?;
            match self.publish(place) {
                Given::Done => return Some(cell),
                Given::Worn(()) => {
                    let _ = self.cancel(place);
                }
                _ => return None,
            }
        }
        None
    }

    /// Publishes cells until none is free. Returns which, in their order.
    fn fill(&mut self, alloc: Global, place: usize) -> Result<Vec<u32>, Fail> {
        let mut cells = Vec::new(alloc);
        for _ in 0..MANY {
            let Some(cell) = self.give(place) else {
                break;
            };
            cells.push(cell)?;
        }
        Ok(cells)
    }

    /// Receives these cells, in this order, and then none.
    fn empty(&mut self, rt: &impl Abort, place: usize, cells: &[u32]) {
        for cell in cells.iter() {
            assert_eq!(rt; self.receive(place), Taken::Got(*cell));
        }
        assert_eq!(rt; self.receive(place), Taken::Empty);
    }

    /// Drops the last handle.
    fn drop_last(&mut self) {
        drop(self.handles.pop());
    }

    fn into_vec(self) -> Vec<Handle>
        ensures { AreOfOneQueue result.items }
    {
        self.handles
    }

    fn close(self, alloc: Global) -> Result<Vec<LeftCells>, CloseFault> {
        let closed = close_cells(alloc, self.handles)?;
        Ok(closed.left)
    }
}

/// How many cells were left.
fn count_left(left: &[LeftCells]) -> usize {
    let mut count = 0_usize;
    for generation in left.iter() {
        count = count.saturating_add(generation.cells().len());
    }
    count
}

/// With k = 1 cells come out in the order in which they went in, and each is another one.
#[test]
fn cells_come_in_order(rt: HostRuntime) -> Result<(), Fail> {
    let mut handles = open(rt.alloc(), 8, 1)?;
    for _round in 0..100 {
        let mut cells = Vec::new(rt.alloc());
        for _ in 0..8_u32 {
            let Some(cell) = handles.reserve(0) else {
                return Err(Fail::new("no cell was free"));
            };
            assert!(rt; !cells.contains(&cell));
            cells.push(cell)?;
            assert_eq!(rt; handles.reserve(0), Some(cell));
            assert_eq!(rt; handles.publish(0), Given::Done);
        }
        handles.empty(&rt, 0, cells.as_slice());
    }
    assert_eq!(rt; count_left(handles.close(rt.alloc())?.as_slice()), 0);
    Ok(())
}

/// Without a cell the calls do nothing.
#[test]
fn calls_without_a_cell_do_nothing(rt: HostRuntime) -> Result<(), Fail> {
    let mut handles = open(rt.alloc(), 8, 1)?;
    assert_eq!(rt; handles.publish(0), Given::NoToken(()));
    assert_eq!(rt; handles.cancel(0), Given::NoToken(()));
    assert_eq!(rt; handles.release(0), Given::NoToken(()));
    assert!(rt; handles.reserve(0).is_some());
    assert_eq!(rt; handles.cancel(0), Given::Done);
    assert_eq!(rt; handles.cancel(0), Given::NoToken(()));
    assert_eq!(rt; handles.publish(0), Given::NoToken(()));
    assert_eq!(rt; handles.receive(0), Taken::Empty);
    assert!(rt; handles.give(0).is_some());
    assert!(rt; matches!(handles.receive(0), Taken::Got(_)));
    assert_eq!(rt; handles.release(0), Given::Done);
    assert_eq!(rt; handles.release(0), Given::NoToken(()));
    assert_eq!(rt; count_left(handles.close(rt.alloc())?.as_slice()), 0);
    Ok(())
}

/// The queue has room for its capacity, though a handle that took all cells keeps as many free ones as it may.
#[test]
fn has_room_beside_a_handle_that_keeps_cells(rt: HostRuntime) -> Result<(), Fail> {
    let capacity = 64;
    let mut handles = open(rt.alloc(), capacity, 8)?;
    let (giver, taker, other) = (0, 1, 2);
    for _round in 0..8 {
        let cells = handles.fill(rt.alloc(), giver)?;
        assert!(rt; cells.len() >= capacity as usize);
        handles.empty(&rt, taker, cells.as_slice());
        let cells = handles.fill(rt.alloc(), other)?;
        assert!(rt; cells.len() >= capacity as usize);
        handles.empty(&rt, giver, cells.as_slice());
    }
    assert_eq!(rt; count_left(handles.close(rt.alloc())?.as_slice()), 0);
    Ok(())
}

/// Thousands of cells go through generations that last for a few of them each, with one inside at each change.
#[test]
fn outlives_the_versions_of_its_generations(rt: HostRuntime) -> Result<(), Fail> {
    let mut handles = open_short(rt.alloc(), 1, 64, 1)?;
    let mut before = handles.give(0);
    for _ in 0..3_000 {
        let next = handles.give(0);
        assert!(rt; next.is_some());
        assert_eq!(rt; handles.got(0), before);
        before = next;
    }
    assert_eq!(rt; handles.got(0), before);
    assert_eq!(rt; handles.receive(0), Taken::Empty);
    assert_eq!(rt; handles.release(0), Given::NoToken(()));
    assert_eq!(rt; handles.generations(0), Some(1));
    assert_eq!(rt; count_left(handles.close(rt.alloc())?.as_slice()), 0);
    Ok(())
}

/// A cell that is reserved, and one that was received, stay with their handle over many changes of generations. The one
/// that is reserved is then published in its own generation, and comes out first.
#[test]
fn cells_in_hand_outlive_changes(rt: HostRuntime) -> Result<(), Fail> {
    let mut handles = open_short(rt.alloc(), 2, 64, 1)?;
    let (slow, fast) = (0, 1);
    let first = handles.give(fast);
    assert_eq!(rt; handles.got(slow), first);
    let reserved = handles.reserve(slow);
    assert!(rt; reserved.is_some());
    assert!(rt; reserved != first);
    for _ in 0..1_000 {
        let cell = handles.give(fast);
        assert!(rt; cell.is_some());
        assert_eq!(rt; handles.got(fast), cell);
    }
    let young = handles.give(fast);
    assert_eq!(rt; handles.reserve(slow), reserved);
    assert_eq!(rt; handles.publish(slow), Given::Done);
    assert_eq!(rt; handles.publish(slow), Given::NoToken(()));
    assert_eq!(rt; handles.release(slow), Given::Done);
    assert_eq!(rt; handles.got(fast), reserved);
    assert_eq!(rt; handles.got(fast), young);
    assert_eq!(rt; handles.receive(fast), Taken::Empty);
    assert_eq!(rt; handles.receive(slow), Taken::Empty);
    assert_eq!(rt; handles.generations(slow), Some(1));
    assert_eq!(rt; count_left(handles.close(rt.alloc())?.as_slice()), 0);
    Ok(())
}

/// A queue is closed while a handle has a cell of a generation that has gone, and that the other handle has left.
#[test]
fn closes_beside_a_cell_of_what_has_gone(rt: HostRuntime) -> Result<(), Fail> {
    for (keeper, other) in [(0, 1), (1, 0)] {
        let mut handles = open_short(rt.alloc(), 2, 64, 1)?;
        let first = handles.give(other);
        assert_eq!(rt; handles.got(keeper), first);
        for turn in 0..1_000 {
            let cell = handles.give(other);
            assert!(rt; cell.is_some());
            assert_eq!(rt; handles.got(other), cell);
            if turn == 500 {
                // It follows, and so gives no more to the generation whose cell it has.
                assert_eq!(rt; handles.generations(keeper), Some(2));
            }
        }
        assert_eq!(rt; handles.receive(other), Taken::Empty);
        assert_eq!(rt; handles.generations(other), Some(2));
        assert_eq!(rt; count_left(handles.close(rt.alloc())?.as_slice()), 0);
    }
    Ok(())
}

/// A queue grows to its bound, and no further. What is left then comes back by generations, the oldest first.
#[test]
fn grows_to_its_bound(rt: HostRuntime) -> Result<(), Fail> {
    let mut handles = open_short(rt.alloc(), 1, MAX_VERSION, 5)?;
    let cells = handles.fill(rt.alloc(), 0)?;
    assert_eq!(rt; handles.generations(0), Some(5));
    assert!(rt; cells.len() >= 5 * 8);
    handles.empty(&rt, 0, cells.as_slice());
    assert_eq!(rt; handles.release(0), Given::NoToken(()));
    assert_eq!(rt; handles.generations(0), Some(1));
    let published = handles.fill(rt.alloc(), 0)?;
    assert_eq!(rt; published.len(), cells.len());
    let left = handles.close(rt.alloc())?;
    assert_eq!(rt; left.len(), 5);
    let mut came = Vec::new(rt.alloc());
    for generation in left.iter() {
        for cell in generation.cells().iter() {
            came.push(cell.index)?;
        }
    }
    assert_eq!(rt; came, published);
    Ok(())
}

/// A close returns what is in the queue. What handles had in their hands is not there.
#[test]
fn returns_what_is_left(rt: HostRuntime) -> Result<(), Fail> {
    let mut handles = open(rt.alloc(), 8, 2)?;
    let (one, other) = (0, 1);
    assert!(rt; handles.give(one).is_some());
    let left = handles.give(one);
    assert!(rt; matches!(handles.receive(other), Taken::Got(_)));
    assert!(rt; handles.reserve(one).is_some());
    let closed = handles.close(rt.alloc())?;
    assert_eq!(rt; count_left(closed.as_slice()), 1);
    if let Some(generation) = closed.first() {
        for cell in generation.cells().iter() {
            assert_eq!(rt; Some(cell.index), left);
        }
    }
    Ok(())
}

/// A handle that is dropped with a cell in each hand keeps no generation in its place.
#[test]
fn goes_on_after_a_handle_was_dropped_with_cells(rt: HostRuntime) -> Result<(), Fail> {
    let mut handles = open_short(rt.alloc(), 2, 64, 1)?;
    let gone = 1;
    assert!(rt; handles.give(gone).is_some());
    assert!(rt; matches!(handles.receive(gone), Taken::Got(_)));
    assert!(rt; handles.reserve(gone).is_some());
    handles.drop_last();
    for _ in 0..1_000 {
        let cell = handles.give(0);
        assert!(rt; cell.is_some());
        assert_eq!(rt; handles.got(0), cell);
    }
    assert_eq!(rt; handles.release(0), Given::Done);
    assert_eq!(rt; handles.receive(0), Taken::Empty);
    assert_eq!(rt; handles.generations(0), Some(1));
    assert_eq!(rt; count_left(handles.close(rt.alloc())?.as_slice()), 0);
    Ok(())
}

#[test]
fn refuses_what_a_queue_of_payloads_refuses(rt: HostRuntime) -> Result<(), Fail> {
    let refused = open(rt.alloc(), 0, 1);
    assert!(rt; matches!(refused.err(), Some(CapacityFault::Sizes(_))));
    let refused = open(rt.alloc(), 8, 65);
    assert!(rt; matches!(refused.err(), Some(CapacityFault::Sizes(_))));
    let sizes = Sizes::for_capacity(1, 8, 1, MAX_VERSION)?;
    let renewals = Renewals {
        reserve: DEFAULT_RESERVE,
        generations: 128,
    };
    let refused = open_cells_with(rt.alloc(), sizes, layout(), renewals);
    assert_eq!(rt; refused.err(), Some(RenewFault::GenerationsOutOfRange(127)));
    Ok(())
}

/// Which cells are with a handle or in the queue, by their numbers.
#[derive(Drop)]
struct Owners {
    cells: Vec<AtomicU64>,
}

impl Owners {
    fn none(alloc: Global) -> Result<Owners, Fail> {
        let mut cells = Vec::with_capacity(alloc, PLACES as usize)?;
        for _ in 0..PLACES {
            cells.push(AtomicU64::new(0))?;
        }
        Ok(Owners { cells })
    }

    /// Sets whether the cell is in use. Returns whether it was.
    fn set(&self, cell: u32, used: u64) -> Option<u64> {
        let owner = self.cells.get(cell as usize)?;
        Some(owner.swap(used, Ordering::SeqCst))
    }
}

/// Publishes a cell that nobody has, after as many tries as it takes.
fn insist(handle: &mut Handle, owners: &Owners) -> bool
    ensures { IsOfSameQueue handle.old handle.new }
{
    for _try in 0..TRIES {
        if let Some(cell) = reserve(handle) {
            if owners.set(cell, 1) != Some(0) {
                return false;
            }
            for _again in 0..TRIES {
                if let Given::Done = publish(handle) {
                    return true;
                }
                yield_now();
            }
            return false;
        }
        yield_now();
    }
    false
}

/// Receives a cell that somebody published, after as many tries as it takes, and releases it.
fn await_one(handle: &mut Handle, owners: &Owners) -> bool
    ensures { IsOfSameQueue handle.old handle.new }
{
    for _try in 0..TRIES {
        if let Taken::Got(cell) = receive(handle) {
            return owners.set(cell, 0) == Some(1) && release(handle) == Given::Done;
        }
        yield_now();
    }
    false
}

/// What a thread comes back with: its handle, and whether it found each cell where it is to be.
#[derive(Drop)]
struct Worker {
    handle: Handle,
    was_right: bool,
}

/// What a thread does: it publishes cells, or receives them.
fn work(mut handle: Handle, publishes: bool, owners: &Owners) -> Worker
    ensures { IsOfSameQueue handle result.handle }
{
    let mut was_right = true;
    for _ in 0..EACH {
        let right = if publishes {
            insist(&mut handle, owners)
        } else {
            await_one(&mut handle, owners)
        };
        was_right = was_right && right;
    }
    Worker { handle, was_right }
}

/// The workers' handles, in their order.
fn handles_back(alloc: Global, workers: Vec<Worker>) -> Result<Vec<Handle>, AllocError>
    ensures { IfOk result (λ handles. handles.items ≡ map (λ w. w.handle) workers.items) }
{
    workers
        .into_iter()
        .map(|worker| worker.handle)
        .collect(alloc)
}

/// Four threads publish and four receive. At each moment each cell is with one handle or in the queue.
#[test]
fn no_two_handles_have_a_cell(rt: HostRuntime) -> Result<(), Fail> {
    let handles = open(rt.alloc(), 16, 8)?.into_vec();
    let owners = Owners::none(rt.alloc())?;
    let next = AtomicU64::new(0);
    let workers = map_vec(
        &rt,
        handles,
        &|handle| {
            let publishes = next.fetch_add(1, Ordering::SeqCst) % 2 == 0;
            work(handle, publishes, &owners)
        },
    )?;
    for worker in &workers {
        assert!(rt; worker.was_right);
    }
    let handles = handles_back(rt.alloc(), workers)?;
    let closed = close_cells(rt.alloc(), handles)?;
    assert_eq!(rt; count_left(closed.left.as_slice()), 0);
    Ok(())
}
