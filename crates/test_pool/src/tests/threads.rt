//! A queue with payloads and a pool, by several threads at the same time.
ghost use Rattle.std.specs.Prelude.{◌≡◌, false};
ghost use Rattle.kfifo_live.specs.Pass.{IsPassOf, IsSamePass};

use kfifo_live::{Given, Sizes, Taken};
use kfifo_pool::{PooledHandle, PooledQueue};
use kfifo_words::MAX_VERSION;
use std::alloc::{AllocError, Global};
use std::test::Fail;
use std::thread::{Threads, map_vec, yield_now};

/// How often a call is made again before the test gives up.
const TRIES: u32 = 16_777_216;

/// How many numbers a thread gives or takes.
const NUMBERS: u32 = 200_000;

/// Gives a number, again and again until it is in. Whether it was.
fn insist(queue: &PooledQueue<u64>, handle: &mut PooledHandle<u64>, number: u64) -> bool
    requires { IsPassOf queue.now handle.old.held.pass.pass × (queue.now.opened.bare ≡ false) }
    ensures { IsSamePass handle.old.held.pass.pass handle.new.held.pass.pass }
{
    for _try in 0..TRIES {
        if matches!(handle.give(queue, number), Given::Done) {
            return true;
        }
        yield_now();
    }
    false
}

/// Takes a number as soon as there is one.
fn await_one(queue: &PooledQueue<u64>, handle: &mut PooledHandle<u64>) -> Option<u64>
    requires { IsPassOf queue.now handle.old.held.pass.pass × (queue.now.opened.bare ≡ false) }
    ensures { IsSamePass handle.old.held.pass.pass handle.new.held.pass.pass }
{
    for _try in 0..TRIES {
        if let Taken::Got(number) = handle.receive(queue) {
            return Some(number);
        }
        yield_now();
    }
    None
}

/// Gives so many numbers, the first of which is this.
fn produce(queue: &PooledQueue<u64>, mut handle: PooledHandle<u64>, first: u64)
    requires { IsPassOf queue.now handle.held.pass.pass × (queue.now.opened.bare ≡ false) }
{
    for place in 0..NUMBERS {
        insist(queue, &mut handle, first.saturating_add(u64::from(place)));
    }
}

/// Takes so many numbers.
fn consume(
    alloc: Global,
    queue: &PooledQueue<u64>,
    mut handle: PooledHandle<u64>,
) -> Result<Vec<u64>, AllocError>
    requires { IsPassOf queue.now handle.held.pass.pass × (queue.now.opened.bare ≡ false) }
{
    let mut numbers = Vec::with_capacity(alloc, NUMBERS as usize)?;
    for _ in 0..NUMBERS {
        if let Some(number) = await_one(queue, &mut handle) {
            numbers.push(number)?;
        }
    }
    Ok(numbers)
}

/// Gives alone in one of the first threads, and takes alone in the others.
fn work(
    alloc: Global,
    queue: &PooledQueue<u64>,
    handle: PooledHandle<u64>,
    givers: u32,
) -> Result<Vec<u64>, AllocError>
    requires { IsPassOf queue.now handle.held.pass.pass × (queue.now.opened.bare ≡ false) }
{
    let thread = handle.pass().thread();
    if thread < givers {
        produce(queue, handle, u64::from(thread) * u64::from(NUMBERS));
        return Ok(Vec::new(alloc));
    }
    consume(alloc, queue, handle)
}

/// Each number that so many threads give comes to one of as many that take, though the queue is for fewer numbers than
/// the handles of the takers could keep tokens.
fn check_all_come_once<R: Threads + Sync>(rt: &R, alloc: Global, givers: u32) -> Result<(), Fail> {
    let sizes = Sizes::for_capacity(4, 8, givers.saturating_mul(2), MAX_VERSION)?;
    let (queue, handles) = PooledQueue::open_with_payloads(alloc, sizes)?;
    let taken = map_vec(rt, handles, &|handle| work(alloc, &queue, handle, givers))?;
    let mut numbers = Vec::new(alloc);
    for own in taken {
        numbers.extend_from_slice(own?.as_slice())?;
    }
    numbers.sort_unstable();
    if numbers.len() != givers as usize * NUMBERS as usize {
        return Err(Fail::new("a number was lost"));
    }
    for (place, number) in numbers.iter().enumerate() {
        if *number != place as u64 {
            return Err(Fail::new("a number was lost or came twice"));
        }
    }
    Ok(())
}

#[test]
fn one_thread_gives_and_one_takes(rt: HostRuntime) -> Result<(), Fail> {
    check_all_come_once(&rt, rt.alloc(), 1)
}

#[test]
fn four_threads_give_and_four_take(rt: HostRuntime) -> Result<(), Fail> {
    check_all_come_once(&rt, rt.alloc(), 4)
}
