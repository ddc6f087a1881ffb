//! The calls that the drivers make, with no more said of each than the next call asks for. What a call asks of its
//! numbers is tested here.
ghost use Rattle.std.specs.Prelude.{IfOk, All};
ghost use Rattle.kfifo_live.specs.Pass.{IsPassOf, IsSamePass};

use kfifo_live::{
    CloseFault, GatherFault, Given, OpenFault, Pass, PayPass, PayQueue, Queue, StampPass,
    StampQueue, Taken,
};
use kfifo_machine::{Begin, Event, NotEnabled, Outcome, StartFault, State};
use kfifo_model::{Answer, History, MAX_ITEM};
use kfifo_words::Shape;
use std::alloc::Global;

/// A queue with passes of its own.
pub fn open(alloc: Global, shape: Shape, threads: u32) -> Result<(Queue, Vec<Pass>), OpenFault>
    ensures { IfOk result (λ r. All (IsPassOf r.0) r.1.items) }
{
    Queue::open(alloc, shape, threads)
}

/// Makes a call, if it is one that may be made.
pub fn call(queue: &Queue, pass: &mut Pass, begin: Begin) -> Option<Answer>
    requires { IsPassOf queue.now pass.old }
    ensures { IsSamePass pass.old pass.new }
{
    let k = queue.shape().k();
    match begin {
        Begin::Enqueue { item, start, turns } => {
            if 0 < item && item <= MAX_ITEM && start < k && 0 < turns {
                Some(pass.enqueue(queue, item, start, turns))
            } else {
                None
            }
        }
        Begin::Dequeue { start, turns } => {
            if start < k && 0 < turns {
                Some(pass.dequeue(queue, start, turns))
            } else {
                None
            }
        }
        Begin::Tick | Begin::Seal => None,
    }
}

/// A word of the queue, the clock as the last one; none where there is no word at this index.
pub fn word(queue: &Queue, pass: &mut Pass, index: usize) -> Option<u64>
    requires { IsPassOf queue.now pass.old }
    ensures { IsSamePass pass.old pass.new }
{
    let shape = queue.shape();
    if index < 2 + shape.n() as usize * shape.k() as usize {
        Some(pass.word(queue, index))
    } else {
        None
    }
}

pub fn meet(queue: &Queue, first: &mut Pass, second: &mut Pass)
    requires first { IsPassOf queue.now first.old }
    requires second { IsPassOf queue.now second.old }
    ensures { IsSamePass first.old first.new × IsSamePass second.old second.new }
{
    kfifo_live::meet(queue, first, second)
}

pub fn close(alloc: Global, queue: Queue, passes: Vec<Pass>) -> Result<Vec<u32>, CloseFault>
    requires { All (IsPassOf queue) passes.items }
{
    kfifo_live::close(alloc, queue, passes)
}

/// A stamped queue with passes of its own.
pub fn open_stamped(
    alloc: Global,
    shape: Shape,
    threads: u32,
    calls: u32,
) -> Result<(StampQueue, Vec<StampPass>), OpenFault>
    ensures { IfOk result (λ r. All (λ p. IsPassOf r.0 p.pass) r.1.items) }
{
    StampQueue::open(alloc, shape, threads, calls)
}

/// Makes a stamped call; none, without a call, also where it is one that may not be made.
pub fn call_stamped(queue: &StampQueue, pass: &mut StampPass, begin: Begin) -> Option<Answer>
    requires { IsPassOf queue.now pass.old.pass }
    ensures { IsSamePass pass.old.pass pass.new.pass }
{
    let k = queue.shape().k();
    match begin {
        Begin::Enqueue { item, start, turns } => {
            if 0 < item && item <= MAX_ITEM && start < k && 0 < turns {
                pass.enqueue(queue, item, start, turns)
            } else {
                None
            }
        }
        Begin::Dequeue { start, turns } => {
            if start < k && 0 < turns {
                pass.dequeue(queue, start, turns)
            } else {
                None
            }
        }
        Begin::Tick | Begin::Seal => None,
    }
}

pub fn gather(
    alloc: Global,
    queue: StampQueue,
    passes: Vec<StampPass>,
) -> Result<History, GatherFault>
    requires { All (λ p. IsPassOf queue p.pass) passes.items }
{
    kfifo_live::gather(alloc, queue, passes)
}

/// A queue of payloads with passes of its own.
pub fn open_payloads<T: Drop>(
    alloc: Global,
    shape: Shape,
    threads: u32,
    tokens: u32,
) -> Result<(PayQueue<T>, Vec<PayPass<T>>), OpenFault>
    ensures { IfOk result (λ r. All (λ p. IsPassOf r.0 p.pass) r.1.items) }
{
    PayQueue::open(alloc, shape, threads, tokens)
}

/// Gives a payload, if this is a call that may be made; else the payload is dropped.
pub fn give<T: Drop>(
    queue: &PayQueue<T>,
    pass: &mut PayPass<T>,
    payload: T,
    start: u32,
    turns: u16,
) -> Option<Given<T>>
    requires { IsPassOf queue.now pass.old.pass }
    ensures { IsSamePass pass.old.pass pass.new.pass }
{
    if start < queue.shape().k() && 0 < turns {
        Some(pass.give(queue, payload, start, turns))
    } else {
        None
    }
}

/// Takes a payload, if this is a call that may be made.
pub fn take<T: Drop>(
    queue: &PayQueue<T>,
    pass: &mut PayPass<T>,
    start: u32,
    turns: u16,
) -> Option<Taken<T>>
    requires { IsPassOf queue.now pass.old.pass }
    ensures { IsSamePass pass.old.pass pass.new.pass }
{
    if start < queue.shape().k() && 0 < turns {
        Some(pass.take(queue, start, turns))
    } else {
        None
    }
}

pub fn meet_payloads<T: Drop>(queue: &PayQueue<T>, first: &mut PayPass<T>, second: &mut PayPass<T>)
    requires first { IsPassOf queue.now first.old.pass }
    requires second { IsPassOf queue.now second.old.pass }
    ensures { IsSamePass first.old.pass first.new.pass × IsSamePass second.old.pass second.new.pass }
{
    queue.meet(first, second)
}

pub fn close_payloads<T: Drop>(
    alloc: Global,
    queue: PayQueue<T>,
    pass: PayPass<T>,
) -> Result<Vec<T>, CloseFault>
    requires { IsPassOf queue pass.pass }
{
    queue.close(alloc, pass)
}

pub fn start(alloc: Global, shape: Shape, threads: u32) -> Result<State, StartFault> {
    kfifo_machine::start(alloc, shape, threads)
}

pub fn step(state: &mut State, event: Event) -> Result<Outcome, NotEnabled> {
    kfifo_machine::step(state, event)
}

/// A word of the machine, the clock as the last one; none where there is no word at this index.
pub fn machine_word(state: &State, index: usize) -> Option<u64> {
    let shape = state.shape();
    if index < 2 + shape.n() as usize * shape.k() as usize {
        Some(state.word(index))
    } else {
        None
    }
}
