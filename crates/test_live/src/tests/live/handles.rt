//! Handles, by one thread and by two.
ghost use Rattle.std.specs.Prelude.{◌≡◌, ◌<◌, ◌≤◌};
ghost use Rattle.kfifo_live.specs.Pass.{IsPassOf, IsSamePass};

use crate::tests::plain::{close, open_payloads_one, open_two};
use kfifo_live::{Given, Handle, PayHandle, PayQueue, Queue, RoundRobin, Taken};
use kfifo_model::Answer;
use kfifo_words::{MAX_VERSION, Shape, Word};
use std::process::Abort;
use std::test::Fail;
use std::thread::join;

/// How many items a thread puts.
const ITEMS: u32 = 5_000;

fn enqueue(queue: &Queue, handle: &mut Handle, item: u32) -> Answer
    requires of { IsPassOf queue.now handle.old.pass }
    requires item { (1 ≤ item) × (item < 16777216) }
    ensures { IsSamePass handle.old.pass handle.new.pass }
{
    handle.enqueue(queue, item)
}

fn dequeue(queue: &Queue, handle: &mut Handle) -> Answer
    requires { IsPassOf queue.now handle.old.pass }
    ensures { IsSamePass handle.old.pass handle.new.pass }
{
    handle.dequeue(queue)
}

/// The next starts are these.
fn check_starts(rt: &impl Abort, starts: &mut RoundRobin, wanted: &[u32]) {
    for start in wanted {
        assert_eq!(rt; starts.next(), *start);
    }
}

#[test]
fn goes_round_the_slots(rt: HostRuntime) -> Result<(), Fail> {
    let mut starts = RoundRobin::new(2, 3, 4);
    assert_eq!(rt; (starts.start(), starts.stride(), starts.k()), (2, 3, 4));
    check_starts(&rt, &mut starts, &[2, 1, 0, 3, 2]);
    check_starts(&rt, &mut RoundRobin::new(0, 0, 1), &[0, 0, 0]);
    Ok(())
}

/// Of a thread of so many, for one k: its starts, and what comes next. The stride is 1 for two threads, 3 for more, 5
/// where 3 divides k, and 7 where 15 does.
const SPREADS: &[(u32, u32, u32, &[u32])] = &[
    (0, 1, 4, &[0, 1, 2, 3, 0]),
    (1, 2, 4, &[2, 3, 0, 1, 2]),
    (1, 3, 4, &[1, 0, 3, 2, 1]),
    (2, 3, 4, &[2, 1, 0, 3, 2]),
    (1, 4, 8, &[2, 5, 0, 3, 6, 1, 4, 7, 2]),
    (0, 3, 6, &[0, 5, 4, 3, 2, 1, 0]),
    (0, 4, 15, &[0, 7, 14, 6, 13]),
    (63, 64, 64, &[63, 2, 5]),
    (63, 64, 2, &[1, 0, 1]),
    (5, 64, 1, &[0, 0]),
];

/// The example of `RoundRobin`.
#[test]
fn strides_by_3_of_8_slots(rt: HostRuntime) -> Result<(), Fail> {
    let mut starts = RoundRobin::spread(1, 4, 8); // the second of four threads: 2, 5, 0, 3, 6, 1, 4, 7, 2, ..
    let first = starts.next();
    assert_eq!(rt; first, 2);
    check_starts(&rt, &mut starts, &[5, 0, 3, 6, 1, 4, 7, 2]);
    Ok(())
}

fn check_spread(rt: &impl Abort, thread: u32, threads: u32, k: u32, starts: &[u32]) {
    if thread >= threads || k < 1 || k > 64 {
        panic!(rt; "no thread {thread} of {threads} with k = {k}");
    }
    check_starts(rt, &mut RoundRobin::spread(thread, threads, k), starts);
}

#[test]
fn spreads_the_starts_of_threads(rt: HostRuntime) -> Result<(), Fail> {
    for (thread, threads, k, starts) in SPREADS {
        check_spread(&rt, *thread, *threads, *k, starts);
    }
    Ok(())
}

/// The second of two threads begins at slot 1 of 2, so its items stand in slots 1 and 0 of each segment.
#[test]
fn puts_one_slot_further_each_time(rt: HostRuntime) -> Result<(), Fail> {
    let (queue, first, second) = open_two(rt.alloc(), Shape::new(2, 3, MAX_VERSION)?)?;
    let mut first = Handle::new(&queue, first);
    let mut second = Handle::new(&queue, second);
    assert_eq!(rt; second.pass().thread(), 1);
    assert_eq!(rt; enqueue(&queue, &mut second, 1), Answer::Done);
    assert_eq!(rt; enqueue(&queue, &mut second, 2), Answer::Done);
    assert_eq!(rt; enqueue(&queue, &mut second, 3), Answer::Done);
    assert_eq!(rt; enqueue(&queue, &mut second, 4), Answer::Done);
    assert_eq!(rt; dequeue(&queue, &mut first), Answer::Got(2));
    let passes = vec![in rt.alloc(); first.into_pass(), second.into_pass()]?;
    let items = close(rt.alloc(), queue, passes)?;
    assert_eq!(rt; items.as_slice(), [1, 4, 3].as_slice());
    Ok(())
}

/// A thread's handle, and the number and the sum of what it took.
#[derive(Drop)]
struct Taker {
    handle: Handle,
    count: u64,
    sum: u64,
}

impl Taker {
    fn take(&mut self, queue: &Queue)
        requires { IsPassOf queue.now self.old.handle.pass }
        ensures { IsSamePass self.old.handle.pass self.new.handle.pass }
    {
        if let Answer::Got(item) = dequeue(queue, &mut self.handle) {
            self.count = self.count.wrapping_add(1);
            self.sum = self.sum.wrapping_add(u64::from(item));
        }
    }

    /// Puts an item, and takes others while there is no room.
    fn put(&mut self, queue: &Queue, item: u32)
        requires of { IsPassOf queue.now self.old.handle.pass }
        requires item { (1 ≤ item) × (item < 16777216) }
        ensures { IsSamePass self.old.handle.pass self.new.handle.pass }
    {
        for _try in 0..16_777_216u32 {
            if let Answer::Done = enqueue(queue, &mut self.handle, item) {
                return;
            }
            self.take(queue);
        }
    }
}

/// Puts 5,000 items, and takes one after each.
fn put_and_take(queue: &Queue, handle: Handle) -> Taker
    requires { IsPassOf queue.now handle.pass }
    ensures { IsPassOf queue.now result.handle.pass }
{
    let mut taker = Taker {
        handle,
        count: 0,
        sum: 0,
    };
    for item in 1..ITEMS + 1 {
        taker.put(queue, item);
        taker.take(queue);
    }
    taker
}

#[test]
fn loses_no_item_of_two_threads(rt: HostRuntime) -> Result<(), Fail> {
    let (queue, first, second) = open_two(rt.alloc(), Shape::new(4, 8, MAX_VERSION)?)?;
    let first = Handle::new(&queue, first);
    let second = Handle::new(&queue, second);
    let shared = &queue;
    let (first, second) = join(
        &rt,
        move || -> Taker
            requires { IsPassOf shared.now first.pass }
            ensures { IsPassOf shared.entry.now result.handle.pass }
        { put_and_take(shared, first) },
        move || -> Taker
            requires { IsPassOf shared.now second.pass }
            ensures { IsPassOf shared.entry.now result.handle.pass }
        { put_and_take(shared, second) },
    );
    let mut count = first.count.wrapping_add(second.count);
    let mut sum = first.sum.wrapping_add(second.sum);
    let passes = vec![in rt.alloc(); first.handle.into_pass(), second.handle.into_pass()]?;
    for item in close(rt.alloc(), queue, passes)? {
        count = count.wrapping_add(1);
        sum = sum.wrapping_add(u64::from(item));
    }
    assert_eq!(rt; (count, sum), (10_000, 25_005_000));
    Ok(())
}

#[test]
fn gives_and_takes_payloads(rt: HostRuntime) -> Result<(), Fail> {
    let (queue, pass) = open_payloads_one(rt.alloc(), Shape::new(1, 2, MAX_VERSION)?, 3)?;
    let mut handle = PayHandle::new(&queue, pass);
    check_give(&rt, &queue, &mut handle, 7, Given::Done);
    check_give(&rt, &queue, &mut handle, 8, Given::Done);
    check_give(&rt, &queue, &mut handle, 9, Given::Full(9));
    assert_eq!(rt; handle.pass().tokens(), 1);
    check_take(&rt, &queue, &mut handle, Taken::Got(7));
    let left = queue.close(rt.alloc(), handle.into_pass())?;
    assert_eq!(rt; left.as_slice(), [8].as_slice());
    Ok(())
}

fn check_give(
    rt: &impl Abort,
    queue: &PayQueue<u64>,
    handle: &mut PayHandle<u64>,
    payload: u64,
    wanted: Given<u64>,
)
    requires { IsPassOf queue.now handle.old.pass.pass }
    ensures { IsSamePass handle.old.pass.pass handle.new.pass.pass }
{
    assert_eq!(rt; handle.give(queue, payload), wanted);
}

fn check_take(
    rt: &impl Abort,
    queue: &PayQueue<u64>,
    handle: &mut PayHandle<u64>,
    wanted: Taken<u64>,
)
    requires { IsPassOf queue.now handle.old.pass.pass }
    ensures { IsSamePass handle.old.pass.pass handle.new.pass.pass }
{
    assert_eq!(rt; handle.take(queue), wanted);
}

/// The first example of the page on the queue, as it stands there.
#[test]
fn example_of_the_page(rt: HostRuntime) -> Result<(), Fail> {
    let alloc = rt.alloc();
    let shape = Shape::new(4, 256, MAX_VERSION)?; // k, segments, greatest version
    let (queue, mut passes) = Queue::open(alloc, shape, 1)?; // one pass for each thread
    let Some(pass) = passes.pop() else {
        unreachable!()
    };
    let mut handle = Handle::new(&queue, pass);
    let put = handle.enqueue(&queue, 7);
    let took = handle.dequeue(&queue);
    let left = close(alloc, queue, vec![in alloc; handle.into_pass()]?)?; // the items that are left
    assert_eq!(rt; put, Answer::Done);
    assert_eq!(rt; took, Answer::Got(7));
    assert!(rt; left.is_empty());
    Ok(())
}

/// A call with a start of the caller's leaves the handle's own starts where they are.
#[test]
fn calls_from_a_start_of_the_callers(rt: HostRuntime) -> Result<(), Fail> {
    let alloc = rt.alloc();
    let shape = Shape::new(4, 4, MAX_VERSION)?;
    let (queue, mut passes) = Queue::open(alloc, shape, 1)?;
    let Some(pass) = passes.pop() else {
        unreachable!()
    };
    let mut handle = Handle::new(&queue, pass);
    assert_eq!(rt; handle.enqueue_from(&queue, 7, 3, 6), Answer::Done);
    assert_eq!(rt; handle.enqueue(&queue, 8), Answer::Done);
    assert_eq!(rt; Word::of_bits(handle.word(&queue, 1)).value(), 8);
    assert_eq!(rt; Word::of_bits(handle.word(&queue, 4)).value(), 7);
    assert_eq!(rt; handle.dequeue_from(&queue, 3, 6), Answer::Got(7));
    assert_eq!(rt; handle.dequeue(&queue), Answer::Got(8));
    let left = close(alloc, queue, vec![in alloc; handle.into_pass()]?)?;
    assert!(rt; left.is_empty());
    Ok(())
}
