//! Makes many calls of a running queue by one thread, so that their instructions can be counted.
//!
//! The arguments are k, 1 to 64; `half`, `empty` or `payloads`, the first two also with `-called`, all three also with
//! `-handle`; and the number of turns. The ring has 1,024 slots. With `half` it is filled half, and each turn makes an
//! enqueue and a dequeue; with `payloads` likewise, in a queue of payloads of 16 bytes; with `empty` each turn makes a
//! dequeue of an empty queue. Starts are random. The modes that end in `called` do the same by functions that are not
//! inlined, and those that end in `handle` by the calls of a handle, with its starts. It prints how many calls had the
//! answer that is wanted.
#![tactic(auto)]

ghost use Rattle.std.specs.Prelude.{◌≡◌, ◌<◌, ◌≤◌, ◌+◌, ◌*◌, ◌++◌};
ghost use Rattle.std.specs.List.{range_with_len};
ghost use Rattle.kfifo_live.specs.Pass.{IsPassOf, IsSamePass};
ghost use Rattle.bench_calls.specs.Calls;
ghost use Rattle.bench_calls.specs.Calls.{calls, items_put, next_state, spread};

mod called;
mod handles;
mod payloads;

use kfifo_live::{Handle, Pass, PayHandle, PayQueue, Queue};
use kfifo_model::Answer;
use kfifo_words::{MAX_VERSION, Shape};
use payloads::{TOKENS, fill as fill_with_payloads, give_and_take};
use std::alloc::Global;
use std::io;

/// More rounds than a call that nobody disturbs can need.
const TURNS: u16 = 65_535;

/// Starts of scans, one after the other: a linear congruential generator, spread over k.
#[derive(Drop)]
struct Starts {
    state: u32,
    k: u32,
}

impl Starts {
    /// The next start, below k.
    fn next(&mut self) -> u32
        requires { 1 ≤ self.old.k }
        ensures below { result < self.old.k }
        ensures state { self.new.state ≡ next_state self.old.state }
        ensures start { result ≡ spread self.old.k self.new.state }
        ensures same { self.new.k ≡ self.old.k }
    {
        self.state = self
            .state
            .wrapping_mul(1_664_525)
            .wrapping_add(1_013_904_223);
        ((u64::from(self.state) * u64::from(self.k)) >> 32) as u32
    }
}

/// Puts the items 1 to 512, one after the other.
// Inlined, as the loops are, so that all stands in the function that has the queue itself.
#[inline(always)]
fn fill(queue: &Queue, pass: &mut Pass, starts: &mut Starts)
    requires of { IsPassOf queue.now pass.old }
    requires k { starts.old.k ≡ queue.now.opened.shape.k }
    ensures same { IsSamePass pass.old pass.new }
    ensures calls { calls pass.old.thread pass.new.seen ≡ calls pass.old.thread pass.old.seen + 512 }
    ensures items { items_put pass.old.thread pass.new.seen
        ≡ items_put pass.old.thread pass.old.seen ++ range_with_len 1 512 }
    ensures k { starts.new.k ≡ starts.old.k }
{
    for item in 1..513u32 {
        pass.enqueue(queue, item, starts.next(), TURNS);
    }
}

/// Puts and takes an item in turn, and counts the calls that did so.
// Inlined, so that the loop stands in the function that has the queue itself.
#[inline(always)]
fn put_and_take(queue: &Queue, pass: &mut Pass, starts: &mut Starts, calls: u32) -> u64
    requires of { IsPassOf queue.now pass.old }
    requires k { starts.old.k ≡ queue.now.opened.shape.k }
    ensures wanted { result ≤ 2 * calls }
    ensures calls { Calls.calls pass.old.thread pass.new.seen ≡ Calls.calls pass.old.thread pass.old.seen + 2 * calls }
{
    let mut wanted: u64 = 0;
    for item in 0..calls {
        if let Answer::Done = pass.enqueue(queue, (item & 65_535) + 1, starts.next(), TURNS) {
            wanted += 1;
        }
        if let Answer::Got(_) = pass.dequeue(queue, starts.next(), TURNS) {
            wanted += 1;
        }
    }
    wanted
}

/// Takes from an empty queue, and counts the calls that found it empty.
#[inline(always)]
fn take_none(queue: &Queue, pass: &mut Pass, starts: &mut Starts, calls: u32) -> u64
    requires of { IsPassOf queue.now pass.old }
    requires k { starts.old.k ≡ queue.now.opened.shape.k }
    ensures wanted { result ≤ calls }
    ensures calls { Calls.calls pass.old.thread pass.new.seen ≡ Calls.calls pass.old.thread pass.old.seen + calls }
{
    let mut wanted: u64 = 0;
    for call in 0..calls {
        if let Answer::Empty = pass.dequeue(queue, starts.next(), TURNS) {
            wanted += 1;
        }
    }
    wanted
}

/// The number that an argument is, or else this one.
fn number(word: Option<String>, other: u32) -> u32 {
    match word {
        Some(text) => text.parse().unwrap_or(other),
        None => other,
    }
}

/// What is measured.
#[derive(Clone, Copy)]
enum Mode {
    Half,
    Empty,
    Payloads,
    HalfCalled,
    EmptyCalled,
    HalfHandle,
    EmptyHandle,
    PayloadsHandle,
}

/// The mode that an argument names, half full where it names none.
fn named(word: Option<String>) -> Mode {
    match word {
        Some(text) if text.as_str() == "empty" => Mode::Empty,
        Some(text) if text.as_str() == "payloads" => Mode::Payloads,
        Some(text) if text.as_str() == "half-called" => Mode::HalfCalled,
        Some(text) if text.as_str() == "empty-called" => Mode::EmptyCalled,
        Some(text) if text.as_str() == "half-handle" => Mode::HalfHandle,
        Some(text) if text.as_str() == "empty-handle" => Mode::EmptyHandle,
        Some(text) if text.as_str() == "payloads-handle" => Mode::PayloadsHandle,
        _ => Mode::Half,
    }
}

/// Makes calls of a queue of items, and counts those with the answer that is wanted; none if memory runs out.
fn count_items(
    alloc: Global,
    shape: Shape,
    mut starts: Starts,
    is_empty: bool,
    calls: u32,
) -> Option<u64>
    requires { starts.k ≡ shape.k }
{
    let (queue, mut passes) = Queue::open(alloc, shape, 1).ok()?;
    let mut pass = passes.pop()?;
    if is_empty {
        return Some(take_none(&queue, &mut pass, &mut starts, calls));
    }
    fill(&queue, &mut pass, &mut starts);
    Some(put_and_take(&queue, &mut pass, &mut starts, calls))
}

/// The same, where no call is inlined.
// A function of its own: with calls that are not inlined beside it, the queue of `count_items` would lie in memory.
fn count_called(
    alloc: Global,
    shape: Shape,
    mut starts: Starts,
    is_empty: bool,
    calls: u32,
) -> Option<u64>
    requires { starts.k ≡ shape.k }
{
    let (queue, mut passes) = Queue::open(alloc, shape, 1).ok()?;
    let mut pass = passes.pop()?;
    if is_empty {
        return Some(called::take_none(&queue, &mut pass, &mut starts, calls));
    }
    fill(&queue, &mut pass, &mut starts);
    Some(called::put_and_take(&queue, &mut pass, &mut starts, calls))
}

/// Makes calls of a queue of payloads likewise.
fn count_payloads(alloc: Global, shape: Shape, mut starts: Starts, calls: u32) -> Option<u64>
    requires { starts.k ≡ shape.k }
{
    let (queue, mut passes) = PayQueue::open(alloc, shape, 1, TOKENS).ok()?;
    let mut pass = passes.pop()?;
    fill_with_payloads(&queue, &mut pass, &mut starts);
    Some(give_and_take(&queue, &mut pass, &mut starts, calls))
}

/// The same by the calls of a handle.
fn count_by_handle(
    alloc: Global,
    shape: Shape,
    mut starts: Starts,
    is_empty: bool,
    calls: u32,
) -> Option<u64>
    requires { starts.k ≡ shape.k }
{
    let (queue, mut passes) = Queue::open(alloc, shape, 1).ok()?;
    let mut pass = passes.pop()?;
    if is_empty {
        let mut handle = Handle::new(&queue, pass);
        return Some(handles::take_none(&queue, &mut handle, calls));
    }
    fill(&queue, &mut pass, &mut starts);
    let mut handle = Handle::new(&queue, pass);
    Some(handles::put_and_take(&queue, &mut handle, calls))
}

/// Makes calls of a queue of payloads by a handle.
fn count_payloads_by_handle(
    alloc: Global,
    shape: Shape,
    mut starts: Starts,
    calls: u32,
) -> Option<u64>
    requires { starts.k ≡ shape.k }
{
    let (queue, mut passes) = PayQueue::open(alloc, shape, 1, TOKENS).ok()?;
    let mut pass = passes.pop()?;
    fill_with_payloads(&queue, &mut pass, &mut starts);
    let mut handle = PayHandle::new(&queue, pass);
    Some(handles::give_and_take(&queue, &mut handle, calls))
}

fn main(rt: HostRuntime) -> io::Result<()> {
    let mut args = std::env::args(&rt)?;
    args.next();
    let k = number(args.next(), 4);
    let mode = named(args.next());
    let calls = number(args.next(), 1000);
    if k == 0 {
        return println!(rt; "no such k");
    }
    let Ok(shape) = Shape::new(k, 1024 / k, MAX_VERSION) else {
        return println!(rt; "no such k");
    };
    let starts = Starts { state: 12_345, k };
    let wanted = match mode {
        Mode::Half => count_items(rt.alloc(), shape, starts, false, calls),
        Mode::Empty => count_items(rt.alloc(), shape, starts, true, calls),
        Mode::Payloads => count_payloads(rt.alloc(), shape, starts, calls),
        Mode::HalfCalled => count_called(rt.alloc(), shape, starts, false, calls),
        Mode::EmptyCalled => count_called(rt.alloc(), shape, starts, true, calls),
        Mode::HalfHandle => count_by_handle(rt.alloc(), shape, starts, false, calls),
        Mode::EmptyHandle => count_by_handle(rt.alloc(), shape, starts, true, calls),
        Mode::PayloadsHandle => count_payloads_by_handle(rt.alloc(), shape, starts, calls),
    };
    match wanted {
        Some(wanted) => println!(rt; "{wanted}"),
        None => println!(rt; "no memory"),
    }
}
