//! Passes of several threads, and what closing gives back.
ghost use Rattle.std.specs.Prelude.{◌≡◌, ◌<◌, ◌≤◌, ◌+◌, ◌*◌, ◌^◌, IfOk, All, map};
ghost use Rattle.kfifo_live.specs.Pass.{IsPassOf, IsSamePass};

use super::call;
use crate::tests::plain::{close, has_order, open, open_two};
use crate::tests::{Crowd, dequeue, draw, enqueue, wait_for_all};
use kfifo_live::{CloseFault, OpenFault, Pass, Queue};
use kfifo_machine::Begin;
use kfifo_model::{Answer, Call, End, History, Op};
use kfifo_words::{MAX_VERSION, Shape};
use std::alloc::{AllocError, Global};
use std::process::Abort;
use std::sync::atomic::{AtomicU64, Ordering};
use std::test::Fail;
use std::thread::{Threads, join, map_vec};

/// So many calls a thread makes before it gives up.
const TRIES: u32 = 16_777_216;

/// Makes the same call until it is done or has got an item.
fn insist(queue: &Queue, pass: &mut Pass, begin: Begin) -> Option<Answer>
    requires { IsPassOf queue.now pass.old }
    ensures { IsSamePass pass.old pass.new }
{
    for _try in 0..TRIES {
        let answer = call(queue, pass, begin);
        if let Some(Answer::Done | Answer::Got(_)) = answer {
            return answer;
        }
    }
    None
}

#[test]
fn hands_over_between_threads(rt: HostRuntime) -> Result<(), Fail> {
    let shape = Shape::new(1, 2, MAX_VERSION)?;
    let (there, mut there_of_a, mut there_of_b) = open_two(rt.alloc(), shape)?;
    let (back, mut back_of_a, mut back_of_b) = open_two(rt.alloc(), shape)?;
    let (there, back) = (&there, &back);
    let (a, b) = join(
        &rt,
        move || -> (Option<Answer>, Option<Answer>)
            requires { IsPassOf there.now there_of_a × IsPassOf back.now back_of_a }
        {
            let put = insist(there, &mut there_of_a, enqueue(1, 0, 4));
            (put, insist(back, &mut back_of_a, dequeue(0, 4)))
        },
        move || -> (Option<Answer>, Option<Answer>)
            requires { IsPassOf there.now there_of_b × IsPassOf back.now back_of_b }
        {
            let got = insist(there, &mut there_of_b, dequeue(0, 4));
            (got, insist(back, &mut back_of_b, enqueue(2, 0, 4)))
        },
    );
    assert_eq!(rt; a, (Some(Answer::Done), Some(Answer::Got(2))));
    assert_eq!(rt; b, (Some(Answer::Got(1)), Some(Answer::Done)));
    Ok(())
}

/// Three passes over a small ring; where a request for memory failed, the opening is tried once more.
fn open_again(alloc: Global, shape: Shape) -> Result<(Queue, Vec<Pass>), OpenFault>
    ensures { IfOk result (λ r. All (IsPassOf r.0) r.1.items) }
{
    match open(alloc, shape, 3) {
        Err(OpenFault::Memory) => open(alloc, shape, 3),
        opened => opened,
    }
}

/// Holds whichever one request for memory fails, and fails where a call always returns Memory.
#[test]
fn refused_memory(rt: HostRuntime) -> Result<(), Fail> {
    let shape = Shape::new(2, 2, MAX_VERSION)?;
    let (queue, passes) = open_again(rt.alloc(), shape)?;
    let left = match close(rt.alloc(), queue, passes) {
        Err(CloseFault::Memory) => {
            let (queue, passes) = open(rt.alloc(), shape, 3)?;
            close(rt.alloc(), queue, passes)?
        }
        closed => closed?,
    };
    assert!(rt; left.is_empty());
    Ok(())
}

/// A pass that comes back from a thread, with the calls that were made by it.
#[derive(Drop)]
struct Racer {
    pass: Pass,
    made: Result<Vec<Call>, AllocError>,
}

/// Makes drawn calls, and notes when each began and ended by a clock that all threads share.
fn make_calls(
    alloc: Global,
    queue: &Queue,
    pass: &mut Pass,
    clock: &AtomicU64,
    calls: u32,
) -> Result<Vec<Call>, AllocError>
    requires { IsPassOf queue.now pass.old }
    ensures { IsSamePass pass.old pass.new }
{
    let thread = pass.thread();
    let k = queue.shape().k();
    let mut seed = thread.wrapping_mul(7_919).wrapping_add(calls);
    let mut made = Vec::new(alloc);
    for number in 0..calls {
        let start = draw(&mut seed, 64) % k;
        let turns = if draw(&mut seed, 4) == 0 { 1 } else { 100 };
        let (op, begin) = if draw(&mut seed, 9) < 5 {
            let item = (thread << 18).wrapping_add(number).wrapping_add(1);
            (Op::Enqueue(item), enqueue(item, start, turns))
        } else {
            (Op::Dequeue, dequeue(start, turns))
        };
        let first = clock.fetch_add(1, Ordering::SeqCst);
        let answer = call(queue, pass, begin);
        let last = clock.fetch_add(1, Ordering::SeqCst);
        made.push(Call {
            thread,
            op,
            first,
            end: answer.map(|answer| End { last, answer }),
        })?;
    }
    Ok(made)
}

/// Makes calls when all threads have come.
fn race_one(alloc: Global, queue: &Queue, mut pass: Pass, clock: &AtomicU64, crowd: Crowd) -> Racer
    requires { IsPassOf queue.now pass }
    ensures { IsPassOf queue.now result.pass }
{
    wait_for_all(clock, crowd.threads);
    let made = make_calls(alloc, queue, &mut pass, clock, crowd.calls);
    Racer { pass, made }
}

/// The racers' passes, in their order.
fn passes_back(alloc: Global, racers: Vec<Racer>) -> Result<Vec<Pass>, AllocError>
    ensures { IfOk result (λ passes. passes.items ≡ map (λ r. r.pass) racers.items) }
{
    racers.into_iter().map(|racer| racer.pass).collect(alloc)
}

/// All calls of the racers, in the order in which they began.
fn all_calls(alloc: Global, racers: &[Racer]) -> Result<Vec<Call>, AllocError> {
    let mut all = Vec::new(alloc);
    for racer in racers {
        match &racer.made {
            Ok(made) => all.extend_from_slice(made.as_slice())?,
            Err(fault) => return Err(*fault),
        }
    }
    all.sort_unstable_by_key(|call| call.first);
    Ok(all)
}

/// What a crowd made at the same time, in the order in which the calls began, and what was left.
fn race<R: Threads + Sync>(
    rt: &R,
    alloc: Global,
    crowd: Crowd,
) -> Result<(Vec<Call>, Vec<u32>), Fail> {
    let (queue, passes) = open(alloc, crowd.shape, crowd.threads)?;
    let clock = AtomicU64::new(0);
    let racers = map_vec(
        rt,
        passes,
        &|pass| race_one(alloc, &queue, pass, &clock, crowd),
    )?;
    let made = all_calls(alloc, racers.as_slice())?;
    let left = close(alloc, queue, passes_back(alloc, racers)?)?;
    Ok((made, left))
}

/// The items that were put, in rising order.
fn items_put(alloc: Global, made: &[Call]) -> Result<Vec<u32>, AllocError> {
    let mut items = Vec::new(alloc);
    for call in made {
        if let Op::Enqueue(item) = call.op
            && let Some(end) = call.end
            && end.answer == Answer::Done
        {
            items.push(item)?;
        }
    }
    items.sort_unstable();
    Ok(items)
}

/// The items that were taken and those that were left, in rising order.
fn items_out(alloc: Global, made: &[Call], left: &[u32]) -> Result<Vec<u32>, AllocError> {
    let mut items = Vec::new(alloc);
    for call in made {
        if let Some(end) = call.end
            && let Answer::Got(item) = end.answer
        {
            items.push(item)?;
        }
    }
    items.extend_from_slice(left)?;
    items.sort_unstable();
    Ok(items)
}

/// Whether what came out and was left is what was put, each item as often; and how many were put.
fn check_balance<R: Threads + Abort + Sync>(
    rt: &R,
    alloc: Global,
    crowd: Crowd,
) -> Result<usize, Fail> {
    let (made, left) = race(rt, alloc, crowd)?;
    assert_eq!(rt; made.len(), crowd.all_calls(), "{crowd:?}");
    assert!(rt; made.iter().all(|call| call.end.is_some()), "{crowd:?}");
    let put = items_put(alloc, made.as_slice())?;
    let out = items_out(alloc, made.as_slice(), left.as_slice())?;
    assert!(rt; put == out, "{crowd:?}");
    Ok(put.len())
}

#[test]
fn loses_nothing_and_doubles_nothing(rt: HostRuntime) -> Result<(), Fail> {
    for (k, n, probes) in [
        (1u32, 2u32, 1u32),
        (2, 3, 2),
        (3, 2, 1),
        (4, 4, 2),
        (8, 5, 8),
        (1, 1_024, 1),
        (64, 2, 64),
        (64, 1_024, 64),
    ] {
        let shape = Shape::with_probes(k, n, MAX_VERSION, probes)?;
        let crowd = Crowd {
            shape,
            threads: 4,
            calls: 50_000,
        };
        let put = check_balance(&rt, rt.alloc(), crowd)?;
        assert!(rt; put > 10_000, "{crowd:?}");
    }
    Ok(())
}

#[test]
fn sixteen_threads_lose_nothing(rt: HostRuntime) -> Result<(), Fail> {
    for (k, n) in [(1u32, 2u32), (1, 1_024), (64, 2), (64, 1_024)] {
        let crowd = Crowd::of(k, n, 16, 10_000)?;
        let put = check_balance(&rt, rt.alloc(), crowd)?;
        assert!(rt; put > 10_000, "{crowd:?}");
    }
    Ok(())
}

#[test]
fn sixty_four_passes_make_calls(rt: HostRuntime) -> Result<(), Fail> {
    let put = check_balance(&rt, rt.alloc(), Crowd::of(64, 1_024, 64, 500)?)?;
    assert!(rt; put > 10_000);
    Ok(())
}

/// How many calls returned Worn.
fn count_worn(made: &[Call]) -> usize {
    made.iter()
        .filter(|call| matches!(
            &call.end,
            Some(End {
                answer: Answer::Worn,
                ..
            })
        ))
        .count()
}

#[test]
fn wears_out_and_loses_nothing(rt: HostRuntime) -> Result<(), Fail> {
    for threads in [4, 16] {
        for (k, n, last) in [(1u32, 2u32, 60u64), (2, 3, 100), (4, 2, 200)] {
            let shape = Shape::new(k, n, last)?;
            let crowd = Crowd {
                shape,
                threads,
                calls: 2_000,
            };
            let (made, left) = race(&rt, rt.alloc(), crowd)?;
            let put = items_put(rt.alloc(), made.as_slice())?;
            let out = items_out(rt.alloc(), made.as_slice(), left.as_slice())?;
            assert!(rt; count_worn(made.as_slice()) > 0, "{shape:?}");
            assert!(rt; !put.is_empty(), "{shape:?}");
            assert!(rt; put == out, "{shape:?}");
        }
    }
    Ok(())
}

#[test]
fn short_races_have_legal_orders(rt: HostRuntime) -> Result<(), Fail> {
    for (k, n) in [(1u32, 2u32), (2, 2), (3, 4)] {
        let shape = Shape::new(k, n, MAX_VERSION)?;
        let crowd = Crowd {
            shape,
            threads: 4,
            calls: 3,
        };
        for round in 0..100 {
            let (made, _) = race(&rt, rt.alloc(), crowd)?;
            let history = History::new(made)?;
            assert!(rt; has_order(rt.alloc(), &history, k)?, "{shape:?} {round}");
        }
    }
    Ok(())
}
