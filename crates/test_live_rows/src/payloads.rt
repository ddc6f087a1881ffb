//! Rows of a queue of payloads, which count their drops.
ghost use Rattle.std.specs.Prelude.{IfOk, All, IfSome};
ghost use Rattle.kfifo_live.specs.Pass.{IsPassOf, IsSamePass};

use crate::begin::{call_of, place_of, shape_text, size, word_of};
use crate::driven::{Driven, Stepped, add_steps, line_of_call};
use crate::faults::{close_text, open_text};
use crate::plain;
use kfifo_live::{Given, PayPass, PayQueue, Taken};
use kfifo_machine::Begin;
use kfifo_words::Shape;
use serde_json::Value;
use std::alloc::{AllocError, Global};
use std::sync::Arc;
use std::sync::atomic::{AtomicU64, Ordering};
use test_rows::list;

/// A payload that counts its drops.
pub struct Counted {
    number: u32,
    drops: Arc<AtomicU64>,
}

impl Drop for Counted {
    fn drop(self) {
        let Counted { number: _, drops } = self;
        drops.fetch_add(1, Ordering::SeqCst);
    }
}

/// What `give` returns, with the number of the payload that comes back, which is then dropped.
fn given_text(alloc: Global, given: Option<Given<Counted>>) -> Result<String, AllocError> {
    let (word, payload) = match given {
        Some(Given::Done) => return "Done".to_string(alloc),
        Some(Given::Full(payload)) => ("Full", payload),
        Some(Given::Busy(payload)) => ("Busy", payload),
        Some(Given::Worn(payload)) => ("Worn", payload),
        Some(Given::NoToken(payload)) => ("NoToken", payload),
        None => return "no call".to_string(alloc),
    };
    let number = payload.number;
    format!(in alloc; "{word} {number}")
}

/// What `take` returns, with the number of the payload, which is then dropped.
fn taken_text(alloc: Global, taken: Option<Taken<Counted>>) -> Result<String, AllocError> {
    match taken {
        Some(Taken::Got(payload)) => {
            let number = payload.number;
            format!(in alloc; "Got {number}")
        }
        Some(Taken::Empty) => "Empty".to_string(alloc),
        Some(Taken::Busy) => "Busy".to_string(alloc),
        Some(Taken::Worn) => "Worn".to_string(alloc),
        None => "no call".to_string(alloc),
    }
}

/// Makes a call, and gives what it comes to.
fn call_text(
    alloc: Global,
    queue: &PayQueue<Counted>,
    pass: &mut PayPass<Counted>,
    drops: &Arc<AtomicU64>,
    begin: Begin,
) -> Result<String, AllocError>
    requires { IsPassOf queue.now pass.old.pass }
    ensures { IsSamePass pass.old.pass pass.new.pass }
{
    match begin {
        Begin::Enqueue { item, start, turns } => {
            let drops = Arc::try_clone(drops)?;
            let payload = Counted {
                number: item,
                drops,
            };
            given_text(alloc, plain::give(queue, pass, payload, start, turns))
        }
        Begin::Dequeue { start, turns } => {
            taken_text(alloc, plain::take(queue, pass, start, turns))
        }
        Begin::Tick | Begin::Seal => "no call".to_string(alloc),
    }
}

/// Two passes, of which one has learned what the other one saw: the second, or the first.
fn met(
    queue: &PayQueue<Counted>,
    first: PayPass<Counted>,
    second: PayPass<Counted>,
    is_second_first: bool,
) -> (PayPass<Counted>, PayPass<Counted>)
    requires first { IsPassOf queue.now first.pass }
    requires second { IsPassOf queue.now second.pass }
    ensures { IsPassOf queue.now result.0.pass × IsPassOf queue.now result.1.pass }
{
    let (mut first, mut second) = (first, second);
    if is_second_first {
        plain::meet_payloads(queue, &mut second, &mut first);
    } else {
        plain::meet_payloads(queue, &mut first, &mut second);
    }
    (first, second)
}

/// Takes the last pass out of the list.
fn take_last(
    queue: &PayQueue<Counted>,
    passes: &mut Vec<PayPass<Counted>>,
) -> Option<PayPass<Counted>>
    requires { All (λ p. IsPassOf queue.now p.pass) passes.old.items }
    ensures rest { All (λ p. IsPassOf queue.now p.pass) passes.new.items }
    ensures last { IfSome result (λ p. IsPassOf queue.now p.pass) }
{
    let _of = queue;
    passes.pop()
}

/// Puts a pass behind the others of the list.
fn put_back(
    queue: &PayQueue<Counted>,
    passes: &mut Vec<PayPass<Counted>>,
    pass: PayPass<Counted>,
) -> Result<(), AllocError>
    requires others { All (λ p. IsPassOf queue.now p.pass) passes.old.items }
    requires pass { IsPassOf queue.now pass.pass }
    ensures { IfOk result (λ _. All (λ p. IsPassOf queue.now p.pass) passes.new.items) }
{
    let _of = queue;
    passes.push(pass)?;
    Ok(())
}

/// The first two passes learn what the other one saw: the second from the first, or the other way round.
fn meet_two(
    queue: &PayQueue<Counted>,
    passes: &mut Vec<PayPass<Counted>>,
    is_second_first: bool,
) -> Result<(), AllocError>
    requires { All (λ p. IsPassOf queue.now p.pass) passes.old.items }
    ensures { IfOk result (λ _. All (λ p. IsPassOf queue.now p.pass) passes.new.items) }
{
    let (Some(second), Some(first)) = (take_last(queue, passes), take_last(queue, passes)) else {
        return Ok(());
    };
    let (first, second) = met(queue, first, second, is_second_first);
    put_back(queue, passes, first)?;
    put_back(queue, passes, second)
}

/// How many payloads were dropped.
fn drops_text(alloc: Global, drops: &Arc<AtomicU64>) -> Result<String, AllocError> {
    let count = drops.load(Ordering::SeqCst);
    format!(in alloc; "{count} drops")
}

impl Driven for PayPass<Counted> {
    type Queue = PayQueue<Counted>;

    type Beside = Arc<AtomicU64>;

    ghost opened = { λ q. q };

    ghost known = { λ p. p.pass };

    fn number(&self) -> u32 {
        self.thread()
    }

    /// For a call what it comes to, and the tokens that the pass has then.
    fn line_by(
        &mut self,
        alloc: Global,
        queue: &PayQueue<Counted>,
        drops: &mut Arc<AtomicU64>,
        step: &Value,
    ) -> Result<String, AllocError> {
        if word_of(step) == "pass" {
            let (thread, tokens) = (self.thread(), self.tokens());
            return format!(in alloc; "thread {thread}, {tokens} tokens");
        }
        let begin = call_of(alloc, step)?;
        let mut text = call_text(alloc, queue, self, drops, begin)?;
        let tokens = self.tokens();
        write!(text, ", {tokens} tokens")?;
        Ok(text)
    }
}

impl Stepped for PayPass<Counted> {
    fn line_of(
        alloc: Global,
        queue: &PayQueue<Counted>,
        passes: &mut Vec<PayPass<Counted>>,
        drops: &mut Arc<AtomicU64>,
        step: &Value,
    ) -> Result<String, AllocError> {
        let word = word_of(step);
        if word == "shape" {
            shape_text(alloc, queue.shape())
        } else if word == "drops" {
            drops_text(alloc, drops)
        } else if word == "meet" {
            meet_two(queue, passes, place_of(step, 1) == 1)?;
            "met".to_string(alloc)
        } else {
            line_of_call(alloc, queue, passes, drops, step)
        }
    }
}

/// The numbers of the payloads that are left, and how many were dropped while these are kept.
fn left_text(
    alloc: Global,
    left: &[Counted],
    drops: &Arc<AtomicU64>,
) -> Result<String, AllocError> {
    let mut text = "left".to_string(alloc)?;
    for payload in left {
        let number = payload.number;
        write!(text, " {number}")?;
    }
    let count = drops.load(Ordering::SeqCst);
    write!(text, ", {count} drops")?;
    Ok(text)
}

/// What is left at a close, or its fault.
fn closed(
    alloc: Global,
    queue: PayQueue<Counted>,
    pass: PayPass<Counted>,
    drops: &Arc<AtomicU64>,
) -> Result<String, AllocError>
    requires { IsPassOf queue pass.pass }
{
    match plain::close_payloads(alloc, queue, pass) {
        Ok(left) => left_text(alloc, left.as_slice(), drops),
        Err(fault) => close_text(alloc, fault),
    }
}

/// Closes the queue with the pass at a place.
fn end_by(
    alloc: Global,
    queue: PayQueue<Counted>,
    mut passes: Vec<PayPass<Counted>>,
    place: usize,
    drops: &Arc<AtomicU64>,
) -> Result<String, AllocError>
    requires { All (λ p. IsPassOf queue p.pass) passes.items }
{
    if place >= passes.len() {
        return "no such pass".to_string(alloc);
    }
    let pass = passes.swap_remove(place);
    closed(alloc, queue, pass, drops)
}

/// Drops the queue, and counts the drops while the passes are kept.
fn drop_queue(
    alloc: Global,
    queue: PayQueue<Counted>,
    passes: Vec<PayPass<Counted>>,
    drops: &Arc<AtomicU64>,
) -> Result<String, AllocError> {
    drop(queue);
    let text = drops_text(alloc, drops)?;
    drop(passes);
    Ok(text)
}

/// Adds the lines of the steps on an open queue, and the line of the close, or drops the queue where the row has none.
fn run(
    alloc: Global,
    queue: PayQueue<Counted>,
    mut passes: Vec<PayPass<Counted>>,
    row: &Value,
    drops: &mut Arc<AtomicU64>,
    lines: &mut Vec<String>,
) -> Result<(), AllocError>
    requires { All (λ p. IsPassOf queue p.pass) passes.items }
{
    add_steps(alloc, &queue, &mut passes, drops, list(row, "steps"), lines)?;
    match row.get("close") {
        Some(_) => {
            let place = size(row, "close") as usize;
            lines.push(end_by(alloc, queue, passes, place, drops)?)?;
        }
        None => lines.push(drop_queue(alloc, queue, passes, drops)?)?,
    }
    Ok(())
}

/// Adds the lines of a row, the last one with how many payloads were dropped in all.
pub fn add_lines(
    alloc: Global,
    row: &Value,
    shape: Shape,
    lines: &mut Vec<String>,
) -> Result<(), AllocError> {
    match plain::open_payloads(alloc, shape, size(row, "threads"), size(row, "tokens")) {
        Ok((queue, passes)) => {
            let mut drops = Arc::new(alloc, AtomicU64::new(0))?;
            run(alloc, queue, passes, row, &mut drops, lines)?;
            lines.push(drops_text(alloc, &drops)?)?;
        }
        Err(fault) => lines.push(open_text(alloc, fault)?)?,
    }
    Ok(())
}
