//! Stamped calls, and the records of real runs.
ghost use Rattle.std.specs.Prelude.{◌≡◌, ◌<◌, ◌≤◌, ◌+◌, ◌*◌, ◌^◌, IfOk, All, map};
ghost use Rattle.kfifo_live.specs.Pass.{IsPassOf, IsSamePass};

use crate::tests::plain::{dequeue_stamped, enqueue_stamped, has_order};
use crate::tests::{Crowd, check_overtaken, draw, wait_for_all};
use kfifo_live::{GatherFault, MAX_STAMPED_CALLS, OpenFault, StampPass, StampQueue, gather};
use kfifo_model::History;
use std::alloc::Global;
use std::process::Abort;
use std::sync::atomic::AtomicU64;
use std::test::Fail;
use std::thread::{Threads, map_vec};

/// Makes drawn calls.
fn make_calls(queue: &StampQueue, pass: &mut StampPass, thread: u32, calls: u32)
    requires { IsPassOf queue.now pass.old.pass }
    ensures { IsSamePass pass.old.pass pass.new.pass }
{
    let k = queue.shape().k();
    let mut seed = thread.wrapping_mul(7_919).wrapping_add(calls);
    for number in 0..calls {
        let start = draw(&mut seed, 64) % k;
        if draw(&mut seed, 9) < 5 {
            let item = (thread % 64) * 65_536 + number % 65_535 + 1;
            enqueue_stamped(queue, pass, item, start, 100);
        } else {
            dequeue_stamped(queue, pass, start, 100);
        }
    }
}

/// Makes calls when all threads have come.
fn record_one(queue: &StampQueue, mut pass: StampPass, come: &AtomicU64, crowd: Crowd) -> StampPass
    requires { IsPassOf queue.now pass.pass }
    ensures { IsPassOf queue.now result.pass }
{
    let thread = pass.thread();
    wait_for_all(come, crowd.threads);
    make_calls(queue, &mut pass, thread, crowd.calls);
    pass
}

/// A stamped queue for a crowd, with a pass for each thread.
fn open(alloc: Global, crowd: Crowd) -> Result<(StampQueue, Vec<StampPass>), OpenFault>
    ensures { IfOk result (λ r. All (λ p. IsPassOf r.0 p.pass) r.1.items) }
{
    StampQueue::open(alloc, crowd.shape, crowd.threads, crowd.calls)
}

/// The record of what a crowd made at the same time.
fn record<R: Threads + Sync>(rt: &R, alloc: Global, crowd: Crowd) -> Result<History, Fail> {
    let (queue, passes) = open(alloc, crowd)?;
    let come = AtomicU64::new(0);
    let passes = map_vec(rt, passes, &|pass| record_one(&queue, pass, &come, crowd))?;
    Ok(gather(alloc, queue, passes)?)
}

/// A hundred records of this crowd each have a legal order.
fn check_orders<R: Threads + Abort + Sync>(
    rt: &R,
    alloc: Global,
    crowd: Crowd,
) -> Result<(), Fail> {
    let k = crowd.shape.k();
    for round in 0..100 {
        let history = record(rt, alloc, crowd)?;
        assert_eq!(rt; history.calls().len(), crowd.all_calls());
        assert!(rt; has_order(alloc, &history, k)?, "{crowd:?} {round}");
    }
    Ok(())
}

#[test]
fn short_records_have_legal_orders(rt: HostRuntime) -> Result<(), Fail> {
    let alloc = rt.alloc();
    check_orders(&rt, alloc, Crowd::of(1, 2, 2, 6)?)?;
    check_orders(&rt, alloc, Crowd::of(2, 2, 3, 4)?)?;
    check_orders(&rt, alloc, Crowd::of(3, 4, 4, 3)?)
}

#[test]
fn long_records_overtake_little(rt: HostRuntime) -> Result<(), Fail> {
    let mut overlaps = 0usize;
    for crowd in &[
        Crowd::of(1, 2, 2, MAX_STAMPED_CALLS)?,
        Crowd::of(2, 3, 4, 512)?,
        Crowd::of(4, 2, 16, 128)?,
        Crowd::of(64, 4, 16, 128)?,
    ] {
        let history = record(&rt, rt.alloc(), *crowd)?;
        let some = check_overtaken(&rt, rt.alloc(), *crowd, history)?;
        overlaps = overlaps.saturating_add(some);
    }
    assert!(rt; overlaps > 0);
    Ok(())
}

/// Holds whichever request for memory fails.
#[test]
fn refused_memory_of_records(rt: HostRuntime) -> Result<(), Fail> {
    match open(rt.alloc(), Crowd::of(2, 2, 3, 2)?) {
        Ok((queue, passes)) => match gather(rt.alloc(), queue, passes) {
            Ok(history) => assert!(rt; history.calls().is_empty()),
            Err(fault) => assert_eq!(rt; fault, GatherFault::Memory),
        },
        Err(fault) => assert_eq!(rt; fault, OpenFault::Memory),
    }
    Ok(())
}
