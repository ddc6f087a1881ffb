//! The calls that the tests make, with no more said of each than the next call asks for. No test needs the rest of what
//! the contracts say, and some take long to prove with it in view.
ghost use Rattle.std.specs.Prelude.{◌≡◌, ◌<◌, ◌≤◌, IfOk, All};
ghost use Rattle.kfifo_live.specs.Pass.{IsPassOf, IsSamePass};

use kfifo_dispatch::{DispatchFault, Finished, Task};
use kfifo_live::{
    CloseFault, Given, OpenFault, Pass, PayHandle, PayPass, PayQueue, Queue, Sealing, StampPass,
    StampQueue, Taken, TakenOrSealed,
};
use kfifo_model::{Answer, History, MeasureFault, Overtaken, SearchFault};
use kfifo_words::Shape;
use std::alloc::Global;
use std::thread::Threads;

/// A queue with passes of its own.
pub fn open(alloc: Global, shape: Shape, threads: u32) -> Result<(Queue, Vec<Pass>), OpenFault>
    ensures { IfOk result (λ r. All (IsPassOf r.0) r.1.items) }
{
    Queue::open(alloc, shape, threads)
}

/// A queue for two threads, with the pass of each.
pub fn open_two(alloc: Global, shape: Shape) -> Result<(Queue, Pass, Pass), OpenFault>
    ensures { IfOk result (λ r. IsPassOf r.0 r.1 × IsPassOf r.0 r.2) }
{
    let (queue, mut passes) = Queue::open(alloc, shape, 2)?;
    let (Some(second), Some(first)) = (passes.pop(), passes.pop()) else {
        unreachable!()
    };
    Ok((queue, first, second))
}

pub fn enqueue(queue: &Queue, pass: &mut Pass, item: u32, start: u32, turns: u16) -> Answer
    requires of { IsPassOf queue.now pass.old }
    requires item { (1 ≤ item) × (item < 16777216) }
    requires start { start < queue.now.opened.shape.k }
    requires turns { 1 ≤ turns }
    ensures { IsSamePass pass.old pass.new }
{
    pass.enqueue(queue, item, start, turns)
}

pub fn dequeue(queue: &Queue, pass: &mut Pass, start: u32, turns: u16) -> Answer
    requires of { IsPassOf queue.now pass.old }
    requires start { start < queue.now.opened.shape.k }
    requires turns { 1 ≤ turns }
    ensures { IsSamePass pass.old pass.new }
{
    pass.dequeue(queue, start, turns)
}

pub fn seal(queue: &Queue, pass: &mut Pass, start: u32, turns: u16) -> Sealing
    requires of { IsPassOf queue.now pass.old }
    requires start { start < queue.now.opened.shape.k }
    requires turns { 1 ≤ turns }
    ensures { IsSamePass pass.old pass.new }
{
    pass.seal(queue, start, turns)
}

pub fn close(alloc: Global, queue: Queue, passes: Vec<Pass>) -> Result<Vec<u32>, CloseFault>
    requires { All (IsPassOf queue) passes.items }
{
    kfifo_live::close(alloc, queue, passes)
}

pub fn enqueue_stamped(
    queue: &StampQueue,
    pass: &mut StampPass,
    item: u32,
    start: u32,
    turns: u16,
) -> Option<Answer>
    requires of { IsPassOf queue.now pass.old.pass }
    requires item { (1 ≤ item) × (item < 16777216) }
    requires start { start < queue.now.opened.shape.k }
    requires turns { 1 ≤ turns }
    ensures { IsSamePass pass.old.pass pass.new.pass }
{
    pass.enqueue(queue, item, start, turns)
}

pub fn dequeue_stamped(
    queue: &StampQueue,
    pass: &mut StampPass,
    start: u32,
    turns: u16,
) -> Option<Answer>
    requires of { IsPassOf queue.now pass.old.pass }
    requires start { start < queue.now.opened.shape.k }
    requires turns { 1 ≤ turns }
    ensures { IsSamePass pass.old.pass pass.new.pass }
{
    pass.dequeue(queue, start, turns)
}

/// A queue of payloads for one thread, with its pass.
pub fn open_payloads_one<T: Drop>(
    alloc: Global,
    shape: Shape,
    tokens: u32,
) -> Result<(PayQueue<T>, PayPass<T>), OpenFault>
    ensures { IfOk result (λ r. (r.0.opened.shape ≡ shape) × IsPassOf r.0 r.1.pass) }
{
    let (queue, mut passes) = PayQueue::open(alloc, shape, 1, tokens)?;
    let Some(pass) = passes.pop() else {
        unreachable!()
    };
    Ok((queue, pass))
}

/// A queue of payloads for two threads, with the pass of each.
pub fn open_payloads_two<T: Drop>(
    alloc: Global,
    shape: Shape,
    tokens: u32,
) -> Result<(PayQueue<T>, PayPass<T>, PayPass<T>), OpenFault>
    ensures { IfOk result (λ r. (r.0.opened.shape ≡ shape) × IsPassOf r.0 r.1.pass × IsPassOf r.0 r.2.pass) }
{
    let (queue, mut passes) = PayQueue::open(alloc, shape, 2, tokens)?;
    let (Some(second), Some(first)) = (passes.pop(), passes.pop()) else {
        unreachable!()
    };
    Ok((queue, first, second))
}

pub fn give<T: Drop>(
    queue: &PayQueue<T>,
    pass: &mut PayPass<T>,
    payload: T,
    start: u32,
    turns: u16,
) -> Given<T>
    requires of { IsPassOf queue.now pass.old.pass }
    requires start { start < queue.now.opened.shape.k }
    requires turns { 1 ≤ turns }
    ensures { IsSamePass pass.old.pass pass.new.pass }
{
    pass.give(queue, payload, start, turns)
}

pub fn take<T: Drop>(queue: &PayQueue<T>, pass: &mut PayPass<T>, start: u32, turns: u16) -> Taken<T>
    requires of { IsPassOf queue.now pass.old.pass }
    requires start { start < queue.now.opened.shape.k }
    requires turns { 1 ≤ turns }
    ensures { IsSamePass pass.old.pass pass.new.pass }
{
    pass.take(queue, start, turns)
}

pub fn take_or_seal<T: Drop>(
    queue: &PayQueue<T>,
    pass: &mut PayPass<T>,
    start: u32,
    turns: u16,
) -> TakenOrSealed<T>
    requires of { IsPassOf queue.now pass.old.pass }
    requires start { start < queue.now.opened.shape.k }
    requires turns { 1 ≤ turns }
    ensures { IsSamePass pass.old.pass pass.new.pass }
{
    pass.take_or_seal(queue, start, turns)
}

pub fn give_by_handle<T: Drop>(
    queue: &PayQueue<T>,
    handle: &mut PayHandle<T>,
    payload: T,
) -> Given<T>
    requires { IsPassOf queue.now handle.old.pass.pass }
    ensures { IsSamePass handle.old.pass.pass handle.new.pass.pass }
{
    handle.give(queue, payload)
}

pub fn take_or_seal_by_handle<T: Drop>(
    queue: &PayQueue<T>,
    handle: &mut PayHandle<T>,
) -> TakenOrSealed<T>
    requires { IsPassOf queue.now handle.old.pass.pass }
    ensures { IsSamePass handle.old.pass.pass handle.new.pass.pass }
{
    handle.take_or_seal(queue)
}

/// Closes a queue of payloads by the passes of both its threads.
pub fn close_payloads_of_two<T: Drop>(
    alloc: Global,
    queue: PayQueue<T>,
    first: PayPass<T>,
    second: PayPass<T>,
) -> Result<Vec<T>, CloseFault>
    requires { IsPassOf queue first.pass × IsPassOf queue second.pass }
{
    let Ok(others) = vec![in alloc; second] else {
        return Err(CloseFault::Memory);
    };
    queue.close_with(alloc, first, others)
}

/// A dispatch with the seed 0.
pub fn dispatch<R: Threads + Sync, G: kfifo_dispatch::WorkGate + Sync>(
    threads: &R,
    alloc: Global,
    tasks: &[Task],
    workers: u32,
    shape: Shape,
    gate: &G,
) -> Result<Vec<Finished>, DispatchFault> {
    kfifo_dispatch::dispatch(threads, alloc, tasks, workers, shape, 0, gate)
}

pub fn has_order(alloc: Global, history: &History, k: u32) -> Result<bool, SearchFault>
    requires { (1 ≤ k) × (k ≤ 64) }
{
    kfifo_model::has_order(alloc, history, k)
}

pub fn measure(alloc: Global, history: &History) -> Result<Vec<Overtaken>, MeasureFault> {
    kfifo_model::measure(alloc, history)
}
