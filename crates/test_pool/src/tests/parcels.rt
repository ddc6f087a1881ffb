//! A queue with payloads and a pool, for two handles.
ghost use Rattle.std.specs.Prelude.{◌≡◌, false};
ghost use Rattle.kfifo_live.specs.Pass.{IsPassOf};

use kfifo_live::{CloseFault, Given, Sizes, Taken, TakenOrSealed};
use kfifo_pool::{PooledHandle, PooledQueue};
use kfifo_words::MAX_VERSION;
use std::alloc::Global;
use std::marker::Model;
use std::test::Fail;

/// A queue for two threads, with a handle for each.
#[derive(Drop)]
struct Parcels {
    queue: PooledQueue<u64>,
    first: PooledHandle<u64>,
    second: PooledHandle<u64>,
}

impl Model for Parcels {
    ghost Value = { Unit {0} };

    ghost view = { λ _. tt };

    ghost invariant = { λ p. IsPassOf p.queue p.first.held.pass.pass × IsPassOf p.queue p.second.held.pass.pass
        × (p.queue.opened.bare ≡ false) };
}

/// What a call came to, without what it hands over.
#[derive(Clone, Copy, PartialEq, Eq, Debug)]
enum Answer {
    Done,
    Got(u64),
    None,
    Sealed,
    Full,
    NoToken,
    Worn,
    Busy,
}

/// What a give came to.
fn given(given: &Given<u64>) -> Answer {
    match given {
        Given::Done => Answer::Done,
        Given::Full(_) => Answer::Full,
        Given::NoToken(_) => Answer::NoToken,
        Given::Worn(_) => Answer::Worn,
        Given::Busy(_) => Answer::Busy,
    }
}

impl Parcels {
    /// A queue with room for so many, whose dequeue gives the oldest one.
    fn open(alloc: Global, capacity: u32) -> Result<Parcels, Fail> {
        let sizes = Sizes::for_capacity(1, capacity, 2, MAX_VERSION)?;
        let (queue, mut handles) = PooledQueue::open_with_payloads(alloc, sizes)?;
        let (Some(second), Some(first)) = (handles.pop(), handles.pop()) else {
            unreachable!()
        };
        Ok(Parcels {
            queue,
            first,
            second,
        })
    }

    fn give(&mut self, parcel: u64) -> Answer {
        given(&self.first.give(&self.queue, parcel))
    }

    fn give_second(&mut self, parcel: u64) -> Answer {
        given(&self.second.give(&self.queue, parcel))
    }

    fn take(&mut self) -> Answer {
        match self.first.receive(&self.queue) {
            Taken::Got(parcel) => Answer::Got(parcel),
            Taken::Empty => Answer::None,
            Taken::Worn => Answer::Worn,
            Taken::Busy => Answer::Busy,
        }
    }

    fn take_or_seal(&mut self) -> Answer {
        match self.first.receive_or_seal(&self.queue) {
            TakenOrSealed::Got(parcel) => Answer::Got(parcel),
            TakenOrSealed::Empty => Answer::None,
            TakenOrSealed::Sealed => Answer::Sealed,
            TakenOrSealed::Worn => Answer::Worn,
            TakenOrSealed::Busy => Answer::Busy,
        }
    }

    /// Gives by the second handle until there is no token, and returns how many it gave.
    fn fill_by_second(&mut self) -> u64 {
        for parcel in 0..1_000_u64 {
            if self.give_second(parcel) != Answer::Done {
                return parcel;
            }
        }
        1_000
    }

    fn close(self, alloc: Global) -> Result<Vec<u64>, Fail> {
        let Parcels {
            queue,
            first,
            second,
        } = self;
        let mut others = Vec::new(alloc);
        others.push(second)?;
        Ok(queue.close_with(alloc, first, others)?)
    }
}

/// A handle keeps two batches of tokens at most, so as many parcels as the queue is for still fit.
#[test]
fn has_room_whatever_a_handle_keeps(rt: HostRuntime) -> Result<(), Fail> {
    let alloc = rt.alloc();
    let mut parcels = Parcels::open(alloc, 20)?;
    for parcel in 0..60_u64 {
        assert_eq!(rt; parcels.give(parcel), Answer::Done);
    }
    for parcel in 0..60_u64 {
        assert_eq!(rt; parcels.take(), Answer::Got(parcel));
    }
    // Of 84 tokens the first handle keeps 28.
    assert_eq!(rt; parcels.fill_by_second(), 56);
    assert_eq!(rt; parcels.give_second(1), Answer::NoToken);
    Ok(())
}

/// What is in the queue comes back from a close, in order.
#[test]
fn returns_what_is_left(rt: HostRuntime) -> Result<(), Fail> {
    let alloc = rt.alloc();
    let mut parcels = Parcels::open(alloc, 4)?;
    for parcel in [7, 8, 9] {
        assert_eq!(rt; parcels.give(parcel), Answer::Done);
    }
    assert_eq!(rt; parcels.take(), Answer::Got(7));
    let left = parcels.close(alloc)?;
    assert_eq!(rt; left.as_slice(), [8, 9].as_slice());
    Ok(())
}

/// A sealed queue refuses a give, and the token of the refused give is free again.
#[test]
fn seals_and_keeps_its_tokens(rt: HostRuntime) -> Result<(), Fail> {
    let alloc = rt.alloc();
    let mut parcels = Parcels::open(alloc, 1)?;
    assert_eq!(rt; parcels.give(5), Answer::Done);
    assert_eq!(rt; parcels.take_or_seal(), Answer::Got(5));
    assert_eq!(rt; parcels.take_or_seal(), Answer::None);
    assert_eq!(rt; parcels.take_or_seal(), Answer::Sealed);
    for _ in 0..200_u32 {
        assert_eq!(rt; parcels.give(6), Answer::Worn);
    }
    let left = parcels.close(alloc)?;
    assert!(rt; left.is_empty());
    Ok(())
}
