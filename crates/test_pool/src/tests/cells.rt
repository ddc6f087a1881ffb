//! Handles that keep their cells themselves: each cell is in one place, and each call does what it says.
ghost use Rattle.std.specs.Prelude.{◌≡◌, true};
ghost use Rattle.kfifo_live.specs.Pass.{IsPassOf, IsSamePass};

use kfifo_live::{Given, Sizes, Taken, TakenOrSealed};
use kfifo_pool::{PooledHandle, PooledQueue};
use kfifo_words::MAX_VERSION;
use std::alloc::Global;
use std::marker::Model;
use std::test::Fail;
use std::thread::{map_vec, yield_now};

/// More cells than a queue of these tests has.
const MANY: u32 = 1_000;

/// How many cells each thread publishes.
const EACH: u32 = 500;

/// How often a call is made again at most.
const TRIES: u32 = 1_000_000;

/// A queue with the handles of two threads.
#[derive(Drop)]
struct Two {
    queue: PooledQueue<()>,
    giver: PooledHandle<()>,
    taker: PooledHandle<()>,
}

impl Model for Two {
    ghost Value = { Unit {0} };

    ghost view = { λ _. tt };

    ghost invariant = { λ t. IsPassOf t.queue t.giver.held.pass.pass × IsPassOf t.queue t.taker.held.pass.pass
        × (t.queue.opened.bare ≡ true) };
}

impl Two {
    /// A queue with room for so many cells.
    fn open(alloc: Global, capacity: u32) -> Result<Two, Fail> {
        let sizes = Sizes::for_capacity(1, capacity, 2, MAX_VERSION)?;
        let (queue, mut handles) = PooledQueue::open(alloc, sizes)?;
        let (Some(taker), Some(giver)) = (handles.pop(), handles.pop()) else {
            unreachable!()
        };
        Ok(Two {
            queue,
            giver,
            taker,
        })
    }

    fn reserve(&mut self) -> Option<u32> {
        self.giver.reserve_cell(&self.queue)
    }

    /// Whether the giver has this cell, which is reserved.
    fn has(&self, cell: u32) -> bool {
        self.giver.has_cell() && self.giver.reserved_cell() == Some(cell)
    }

    fn publish(&mut self) -> Given<()> {
        self.giver.publish_cell(&self.queue)
    }

    fn cancel(&mut self) -> bool {
        self.giver.cancel_cell(&self.queue)
    }

    fn receive(&mut self) -> Taken<u32> {
        self.taker.receive_cell(&self.queue)
    }

    /// Whether a take that may seal gets this cell.
    fn gets(&mut self, cell: u32) -> bool {
        match self.taker.receive_cell_or_seal(&self.queue) {
            TakenOrSealed::Got(got) => got == cell,
            _ => false,
        }
    }

    /// Whether such a take finds the queue empty, and seals it.
    fn is_sealed(&mut self) -> bool {
        matches!(
            self.taker.receive_cell_or_seal(&self.queue),
            TakenOrSealed::Sealed
        )
    }

    /// Whether the queue refuses a cell as worn, which stays reserved.
    fn refuses(&mut self) -> bool {
        self.reserve().is_some() && matches!(self.publish(), Given::Worn(())) && self.cancel()
    }

    fn release(&mut self) -> bool {
        self.taker.release_cell(&self.queue)
    }
}

/// With k = 1 cells come out in the order in which they went in.
#[test]
fn cells_come_in_order(rt: HostRuntime) -> Result<(), Fail> {
    let mut two = Two::open(rt.alloc(), 8)?;
    let mut published = Vec::new(rt.alloc());
    for _ in 0..8_u32 {
        let Some(cell) = two.reserve() else {
            return Err(Fail::new("no cell was free"));
        };
        published.push(cell)?;
        assert!(rt; two.reserve() == Some(cell));
        assert!(rt; two.has(cell));
        assert!(rt; matches!(two.publish(), Given::Done));
        assert!(rt; !two.has(cell));
    }
    for cell in published {
        assert!(rt; two.receive() == Taken::Got(cell));
    }
    assert!(rt; two.receive() == Taken::Empty);
    Ok(())
}

/// A sealed queue refuses a publish, which leaves its cell reserved.
#[test]
fn a_sealed_queue_refuses_a_cell(rt: HostRuntime) -> Result<(), Fail> {
    let mut two = Two::open(rt.alloc(), 8)?;
    assert!(rt; two.is_sealed());
    assert!(rt; two.refuses());
    assert!(rt; two.is_sealed());
    Ok(())
}

/// A take that may seal gets a cell as long as there is one.
#[test]
fn a_take_that_may_seal_gets_a_cell(rt: HostRuntime) -> Result<(), Fail> {
    let mut two = Two::open(rt.alloc(), 8)?;
    let cell = two.reserve().unwrap_or(MANY);
    assert!(rt; matches!(two.publish(), Given::Done));
    assert!(rt; two.gets(cell));
    // This take moves the head, so no seal follows it.
    assert!(rt; !two.is_sealed());
    assert!(rt; two.is_sealed());
    Ok(())
}

/// Without a cell the calls do nothing.
#[test]
fn calls_without_a_cell_do_nothing(rt: HostRuntime) -> Result<(), Fail> {
    let mut two = Two::open(rt.alloc(), 8)?;
    assert!(rt; matches!(two.publish(), Given::NoToken(())));
    assert!(rt; !two.cancel());
    assert!(rt; !two.release());
    assert!(rt; two.reserve().is_some());
    assert!(rt; two.cancel());
    assert!(rt; !two.cancel());
    assert!(rt; matches!(two.publish(), Given::NoToken(())));
    assert!(rt; two.receive() == Taken::Empty);
    Ok(())
}

/// A handle that reserves and publishes, while nobody receives, gets as many cells as the queue has tokens.
#[test]
fn each_cell_is_reserved_once(rt: HostRuntime) -> Result<(), Fail> {
    let mut two = Two::open(rt.alloc(), 8)?;
    let mut cells = Vec::new(rt.alloc());
    for _ in 0..MANY {
        let Some(cell) = two.reserve() else {
            break;
        };
        cells.push(cell)?;
        if !matches!(two.publish(), Given::Done) {
            break;
        }
    }
    cells.sort_unstable();
    // Two threads with 4 cells each, and 32 more for each.
    assert!(rt; cells.len() == 72);
    for (place, cell) in cells.iter().enumerate() {
        assert!(rt; *cell as usize == place);
    }
    // A cell that is received is free again once it is released.
    assert!(rt; matches!(two.receive(), Taken::Got(_)));
    assert!(rt; two.release());
    assert!(rt; !two.release());
    Ok(())
}

/// Publishes a cell, as often as it takes.
fn publish_one(queue: &PooledQueue<()>, handle: &mut PooledHandle<()>) -> bool
    requires { IsPassOf queue.now handle.old.held.pass.pass × (queue.now.opened.bare ≡ true) }
    ensures { IsSamePass handle.old.held.pass.pass handle.new.held.pass.pass }
{
    for _try in 0..TRIES {
        if handle.reserve_cell(queue).is_some() {
            if let Given::Done = handle.publish_cell(queue) {
                return true;
            }
        }
        yield_now();
    }
    false
}

/// Receives a cell, as often as it takes.
fn receive_one(queue: &PooledQueue<()>, handle: &mut PooledHandle<()>) -> bool
    requires { IsPassOf queue.now handle.old.held.pass.pass × (queue.now.opened.bare ≡ true) }
    ensures { IsSamePass handle.old.held.pass.pass handle.new.held.pass.pass }
{
    for _try in 0..TRIES {
        if let Taken::Got(_) = handle.receive_cell(queue) {
            return true;
        }
        yield_now();
    }
    false
}

/// Publishes and receives, a cell at a time. Returns how many it received.
fn pass_on(queue: &PooledQueue<()>, mut handle: PooledHandle<()>) -> u32
    requires { IsPassOf queue.now handle.held.pass.pass × (queue.now.opened.bare ≡ true) }
{
    let mut received = 0_u32;
    for _ in 0..EACH {
        if publish_one(queue, &mut handle) && receive_one(queue, &mut handle) {
            received = received.saturating_add(1);
        }
    }
    received
}

/// Four threads publish and receive, and no cell is lost.
#[test]
fn four_threads_pass_cells_on(rt: HostRuntime) -> Result<(), Fail> {
    let sizes = Sizes::for_capacity(4, 8, 4, MAX_VERSION)?;
    let (queue, handles) = PooledQueue::open(rt.alloc(), sizes)?;
    let received = map_vec(&rt, handles, &|handle| pass_on(&queue, handle))?;
    for count in received {
        assert!(rt; count == EACH);
    }
    Ok(())
}
