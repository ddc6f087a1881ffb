//! Changes from one generation to the next, by several threads at the same time.
ghost use Rattle.std.specs.Prelude.{◌≡◌, IfOk, map};
ghost use Rattle.kfifo_renewing.specs.Renewing.{IsOfSameQueue};

use crate::plain::{give, open, take};
use kfifo_live::{Given, Taken};
use kfifo_renewing::{RenewingHandle, close};
use kfifo_words::Shape;
use std::alloc::{AllocError, Global};
use std::process::Abort;
use std::sync::Arc;
use std::sync::atomic::{AtomicU64, Ordering};
use std::test::Fail;
use std::thread::{Threads, map_vec, yield_now};

/// How often a call is made again before the test gives up.
const TRIES: u32 = 16_777_216;

/// How many payloads a thread gives. With 64 versions a generation lasts for some 16 of them.
const PAYLOADS: u32 = 1_000;

/// A payload that says when it is dropped.
struct Counted {
    number: u64,
    drops: Arc<AtomicU64, Global>,
}

impl Counted {
    fn new(number: u64, drops: &Arc<AtomicU64, Global>) -> Result<Counted, AllocError> {
        Ok(Counted {
            number,
            drops: Arc::try_clone(drops)?,
        })
    }
}

impl Drop for Counted {
    fn drop(self) {
        let Self { number: _, drops } = self;
        drops.fetch_add(1, Ordering::SeqCst);
    }
}

/// What a thread took, and its handle.
#[derive(Drop)]
struct Worker {
    handle: RenewingHandle<Counted>,
    numbers: Result<Vec<u64>, AllocError>,
}

/// Tries to give a payload until it is taken in. Whether it was.
fn insist(handle: &mut RenewingHandle<Counted>, payload: Counted) -> bool
    ensures { IsOfSameQueue handle.old handle.new }
{
    let mut waiting = payload;
    for _try in 0..TRIES {
        match give(handle, waiting) {
            Given::Done => return true,
            Given::Full(back) | Given::Busy(back) | Given::Worn(back) | Given::NoToken(back) =>
                waiting = back,
        }
        yield_now();
    }
    false
}

/// Tries to take a payload until there is one. Returns its number.
fn await_one(handle: &mut RenewingHandle<Counted>) -> Option<u64>
    ensures { IsOfSameQueue handle.old handle.new }
{
    for _try in 0..TRIES {
        if let Taken::Got(payload) = take(handle) {
            return Some(payload.number);
        }
        yield_now();
    }
    None
}

/// What a thread does: it gives so many payloads and takes so many, one after the other where it does both.
#[derive(Clone, Copy)]
struct Role {
    gives: u32,
    takes: u32,
}

/// Plays a role, and returns the numbers that it took.
fn play(
    alloc: Global,
    handle: &mut RenewingHandle<Counted>,
    role: Role,
    thread: u64,
    drops: &Arc<AtomicU64, Global>,
) -> Result<Vec<u64>, AllocError>
    ensures { IsOfSameQueue handle.old handle.new }
{
    let mut numbers = Vec::new(alloc);
    for place in 0..role.gives.max(role.takes) {
        if place < role.gives {
            let payload = Counted::new((thread << 32) | u64::from(place), drops)?;
            insist(handle, payload);
        }
        if place < role.takes
            && let Some(number) = await_one(handle)
        {
            numbers.push(number)?;
        }
    }
    Ok(numbers)
}

/// The role of a thread: all give and take, or the even ones give and the odd ones take.
fn role_of(thread: u64, alternates: bool) -> Role {
    Role {
        gives: if alternates || thread % 2 == 0 {
            PAYLOADS
        } else {
            0
        },
        takes: if alternates || thread % 2 == 1 {
            PAYLOADS
        } else {
            0
        },
    }
}

/// What a thread does with its handle.
fn work(
    alloc: Global,
    mut handle: RenewingHandle<Counted>,
    thread: u64,
    alternates: bool,
    drops: &Arc<AtomicU64, Global>,
) -> Worker
    ensures { IsOfSameQueue handle result.handle }
{
    let role = role_of(thread, alternates);
    let numbers = play(alloc, &mut handle, role, thread, drops);
    Worker { handle, numbers }
}

/// The workers' handles, in their order.
fn handles_back(
    alloc: Global,
    workers: Vec<Worker>,
) -> Result<Vec<RenewingHandle<Counted>>, AllocError>
    ensures { IfOk result (λ handles. handles.items ≡ map (λ w. w.handle) workers.items) }
{
    workers
        .into_iter()
        .map(|worker| worker.handle)
        .collect(alloc)
}

/// The numbers that all workers took.
fn numbers_of(alloc: Global, workers: &[Worker]) -> Result<Vec<u64>, AllocError> {
    let mut all = Vec::new(alloc);
    for worker in workers {
        match &worker.numbers {
            Ok(numbers) => all.extend_from_slice(numbers.as_slice())?,
            Err(fault) => return Err(*fault),
        }
    }
    all.sort_unstable();
    Ok(all)
}

/// The numbers that so many threads took, in ascending order. The queue is closed, and nothing is left in it.
fn work_all<R: Threads + Abort + Sync>(
    rt: &R,
    alloc: Global,
    threads: u32,
    alternates: bool,
    drops: &Arc<AtomicU64, Global>,
) -> Result<Vec<u64>, Fail> {
    let handles = open::<Counted>(alloc, Shape::new(2, 4, 64)?, threads, 8)?.into_vec();
    let next = AtomicU64::new(0);
    let workers = map_vec(
        rt,
        handles,
        &|handle| {
            let thread = next.fetch_add(1, Ordering::SeqCst);
            work(alloc, handle, thread, alternates, drops)
        },
    )?;
    let numbers = numbers_of(alloc, workers.as_slice())?;
    let left = close(alloc, handles_back(alloc, workers)?)?.left;
    assert_eq!(rt; left.len(), 0);
    Ok(numbers)
}

/// Each payload comes out once, and is dropped once.
fn check<R: Threads + Abort + Sync>(
    rt: &R,
    alloc: Global,
    threads: u32,
    alternates: bool,
) -> Result<(), Fail> {
    let drops = Arc::new(alloc, AtomicU64::new(0))?;
    let numbers = work_all(rt, alloc, threads, alternates, &drops)?;
    let step = if alternates { 1 } else { 2 };
    let payloads = u64::from(PAYLOADS).max(1);
    assert_eq!(rt;
        numbers.len() as u64,
        (u64::from(threads) / step).wrapping_mul(payloads)
    );
    assert_eq!(rt; drops.load(Ordering::SeqCst), numbers.len() as u64);
    for (place, number) in numbers.iter().enumerate() {
        let (giver, place) = (place as u64 / payloads * step, place as u64 % payloads);
        assert_eq!(rt; *number, (giver << 32) | place);
    }
    Ok(())
}

#[test]
fn two_and_sixteen_threads_alternate(rt: HostRuntime) -> Result<(), Fail> {
    check(&rt, rt.alloc(), 2, true)?;
    check(&rt, rt.alloc(), 16, true)
}

#[test]
fn half_of_the_threads_give_and_half_take(rt: HostRuntime) -> Result<(), Fail> {
    check(&rt, rt.alloc(), 2, false)?;
    check(&rt, rt.alloc(), 4, false)?;
    check(&rt, rt.alloc(), 16, false)
}
