//! Owned payloads.
ghost use Rattle.std.specs.Prelude.{◌≡◌, ◌<◌, IfOk, IfSome, All};
ghost use Rattle.kfifo_live.specs.Pass.{IsPassOf, IsSamePass};

use crate::tests::draw;
use crate::tests::plain::{give, open_payloads_one, take};
use kfifo_live::{CloseFault, Given, PayPass, PayQueue, Taken};
use kfifo_words::{MAX_VERSION, Shape};
use std::alloc::{AllocError, Global};
use std::sync::Arc;
use std::sync::atomic::{AtomicU64, Ordering};
use std::test::Fail;
use std::thread::{Threads, map_vec};

/// A payload that counts its drops.
struct Counted {
    number: u64,
    drops: Arc<AtomicU64>,
}

impl Counted {
    fn new(number: u64, drops: &Arc<AtomicU64>) -> Result<Counted, AllocError> {
        let drops = Arc::try_clone(drops)?;
        Ok(Counted { number, drops })
    }
}

impl Drop for Counted {
    fn drop(self) {
        let Counted { number: _, drops } = self;
        drops.fetch_add(1, Ordering::SeqCst);
    }
}

/// What `give` returns, and the number of the payload that comes back, which is then dropped.
fn given(given: Given<Counted>) -> (&'static str, Option<u64>) {
    match given {
        Given::Done => ("Done", None),
        Given::Full(payload) => ("Full", Some(payload.number)),
        Given::Busy(payload) => ("Busy", Some(payload.number)),
        Given::Worn(payload) => ("Worn", Some(payload.number)),
        Given::NoToken(payload) => ("NoToken", Some(payload.number)),
    }
}

/// What `take` returns, and the number of the payload, which is then dropped.
fn taken(taken: Taken<Counted>) -> (&'static str, Option<u64>) {
    match taken {
        Taken::Got(payload) => ("Got", Some(payload.number)),
        Taken::Empty => ("Empty", None),
        Taken::Busy => ("Busy", None),
        Taken::Worn => ("Worn", None),
    }
}

/// Puts one payload into a queue and closes it. Returns the number that came back, or 0 where memory was refused.
fn close_one(alloc: Global, drops: &Arc<AtomicU64>) -> u64 {
    let Ok(shape) = Shape::new(1, 2, MAX_VERSION) else {
        return 0;
    };
    let Ok((queue, mut pass)) = open_payloads_one(alloc, shape, 1) else {
        return 0;
    };
    let Ok(payload) = Counted::new(7, drops) else {
        return 0;
    };
    if given(give(&queue, &mut pass, payload, 0, 1)).1.is_some() {
        return 0;
    }
    match queue.close(alloc, pass) {
        Ok(left) => match left.as_slice().first() {
            Some(payload) => payload.number,
            None => 0,
        },
        Err(CloseFault::Memory | CloseFault::MissingPass) => 0,
    }
}

/// Holds whichever one request for memory fails, and fails where a call always returns Memory.
#[test]
fn refused_memory_of_payloads(rt: HostRuntime) -> Result<(), Fail> {
    let Ok(drops) = Arc::new(rt.alloc(), AtomicU64::new(0)) else {
        return Ok(());
    };
    let first = close_one(rt.alloc(), &drops);
    let first_drops = drops.swap(0, Ordering::SeqCst);
    let second = close_one(rt.alloc(), &drops);
    let second_drops = drops.load(Ordering::SeqCst);
    assert!(rt; first == 7 || second == 7);
    // What was given was dropped once, also where the close was refused.
    assert!(rt; first_drops == 1 || (first == 0 && first_drops == 0));
    assert!(rt; second_drops == 1 || (second == 0 && second_drops == 0));
    Ok(())
}

/// A pass that comes back from a thread, with the numbers of the payloads that came to it.
#[derive(Drop)]
struct Trader {
    pass: PayPass<Counted>,
    numbers: Result<Vec<u64>, AllocError>,
}

/// Gives and takes by turns. Notes the number of each payload that was taken or refused.
fn trade(
    alloc: Global,
    queue: &PayQueue<Counted>,
    pass: &mut PayPass<Counted>,
    drops: &Arc<AtomicU64>,
    calls: u32,
) -> Result<Vec<u64>, AllocError>
    requires { IsPassOf queue.now pass.old.pass }
    ensures { IsSamePass pass.old.pass pass.new.pass }
{
    let thread = pass.thread();
    let k = queue.shape().k();
    let mut seed = thread.wrapping_mul(7_919).wrapping_add(calls);
    let mut numbers = Vec::new(alloc);
    for call in 0..calls {
        let turns = if draw(&mut seed, 4) == 0 { 1 } else { 100 };
        let number = (u64::from(thread) << 32) | u64::from(call);
        let payload = Counted::new(number, drops)?;
        let (_, back) = given(give(queue, pass, payload, draw(&mut seed, k), turns));
        if let Some(number) = back {
            numbers.push(number)?;
        }
        let (_, got) = taken(take(queue, pass, draw(&mut seed, k), turns));
        if let Some(number) = got {
            numbers.push(number)?;
        }
    }
    Ok(numbers)
}

/// Gives and takes in a thread of its own.
fn trade_one(
    alloc: Global,
    queue: &PayQueue<Counted>,
    mut pass: PayPass<Counted>,
    drops: &Arc<AtomicU64>,
    calls: u32,
) -> Trader
    requires { IsPassOf queue.now pass.pass }
    ensures { IsPassOf queue.now result.pass.pass }
{
    let numbers = trade(alloc, queue, &mut pass, drops, calls);
    Trader { pass, numbers }
}

/// The numbers of all payloads that came to a thread or were left, in order, after so many threads gave so many each.
fn trade_all<R: Threads + Sync>(
    rt: &R,
    alloc: Global,
    shape: Shape,
    threads: u32,
    calls: u32,
    drops: &Arc<AtomicU64>,
) -> Result<Vec<u64>, Fail> {
    let (queue, passes) = PayQueue::open(alloc, shape, threads, 3)?;
    let mut traders = map_vec(
        rt,
        passes,
        &|pass| trade_one(alloc, &queue, pass, drops, calls),
    )?;
    let mut numbers = Vec::new(alloc);
    for trader in traders.iter() {
        match &trader.numbers {
            Ok(own) => numbers.extend_from_slice(own.as_slice())?,
            Err(fault) => return Err((*fault).into()),
        }
    }
    let Some(Trader { pass, numbers: _ }) = traders.pop() else {
        return Ok(numbers);
    };
    for payload in queue.close(alloc, pass)? {
        numbers.push(payload.number)?;
    }
    numbers.sort_unstable();
    Ok(numbers)
}

#[test]
fn hands_each_payload_to_one_thread(rt: HostRuntime) -> Result<(), Fail> {
    for (k, n, threads) in [(1u32, 2u32, 2u32), (2, 2, 4), (4, 3, 8)] {
        let drops = Arc::new(rt.alloc(), AtomicU64::new(0))?;
        let shape = Shape::new(k, n, MAX_VERSION)?;
        let numbers = trade_all(&rt, rt.alloc(), shape, threads, 2_000, &drops)?;
        assert_eq!(rt; numbers.len(), threads as usize * 2_000);
        assert_eq!(rt; drops.load(Ordering::SeqCst), numbers.len() as u64);
        for (place, number) in numbers.iter().enumerate() {
            let place = place as u64;
            assert_eq!(rt; *number, ((place / 2_000) << 32) | (place % 2_000));
        }
    }
    Ok(())
}
