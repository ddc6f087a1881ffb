//! Rows of a queue of items, each call made beside the same call of the machine.
ghost use Rattle.std.specs.Prelude.{IfOk, All, IfSome};
ghost use Rattle.kfifo_live.specs.Pass.{IsPassOf, IsSamePass};

use crate::begin::{call_of, place_of, shape_text, size, word_of};
use crate::driven::{Driven, Stepped, add_steps, line_of_call, pick};
use crate::faults::{close_text, open_text};
use crate::plain;
use kfifo_live::{Pass, Queue};
use kfifo_machine::{Begin, Event, Outcome, State};
use kfifo_model::Answer;
use kfifo_words::{Ends, Shape, Word};
use serde_json::Value;
use std::alloc::{AllocError, Global};
use test_rows::list;

/// Makes a call on the machine, by one thread to its end.
pub fn drive(state: &mut State, thread: u32, begin: Begin) -> Option<Answer> {
    let mut next = Some(begin);
    for _step in 0..10_000_000u32 {
        let event = Event {
            thread,
            begin: next,
        };
        match plain::step(state, event) {
            Ok(Outcome::Went) => next = None,
            Ok(Outcome::Ended(answer)) => return Some(answer),
            Err(_) => return None,
        }
    }
    None
}

/// How many words of the queue are not the machine's.
pub fn words_that_differ(queue: &Queue, pass: &mut Pass, state: &State) -> u32
    requires { IsPassOf queue.now pass.old }
    ensures { IsSamePass pass.old pass.new }
{
    let shape = queue.shape();
    let mut differ: u32 = 0;
    for index in 0..2 + shape.n() as usize * shape.k() as usize {
        if plain::word(queue, pass, index) != plain::machine_word(state, index) {
            differ = differ.saturating_add(1);
        }
    }
    differ
}

/// Makes a call on the queue and on the machine: the answer, and what the machine has else.
fn call_both(
    alloc: Global,
    queue: &Queue,
    pass: &mut Pass,
    state: &mut State,
    begin: Begin,
) -> Result<String, AllocError>
    requires { IsPassOf queue.now pass.old }
    ensures { IsSamePass pass.old pass.new }
{
    let answer = plain::call(queue, pass, begin);
    let machine = drive(state, pass.thread(), begin);
    let differ = words_that_differ(queue, pass, state);
    answer_text(alloc, answer, machine, differ)
}

/// The text of an answer that the machine gives too, with the same words; else what differs.
fn answer_text(
    alloc: Global,
    answer: Option<Answer>,
    machine: Option<Answer>,
    differ: u32,
) -> Result<String, AllocError> {
    match answer {
        Some(answer) if machine == Some(answer) && differ == 0 => {
            format!(in alloc; "{answer:?}")
        }
        _ => format!(in alloc; "{answer:?}, the machine {machine:?}, {differ} words differ"),
    }
}

/// The words of the queue: the ends and each slot with its version, and the clock.
fn words_text(alloc: Global, queue: &Queue, pass: &mut Pass) -> Result<String, AllocError>
    requires { IsPassOf queue.now pass.old }
    ensures { IsSamePass pass.old pass.new }
{
    let clock = queue.shape().clock_index();
    let ends = Ends::of_bits(plain::word(queue, pass, 0).unwrap_or(0));
    let (head, tail, version) = (ends.head(), ends.tail(), ends.version());
    let mut text = format!(in alloc; "{head} {tail} v{version}")?;
    for index in 1..clock {
        let word = Word::of_bits(plain::word(queue, pass, index).unwrap_or(0));
        let (value, version) = (word.value(), word.version());
        write!(text, ", {value} v{version}")?;
    }
    let ticks = plain::word(queue, pass, clock).unwrap_or(0);
    write!(text, ", {ticks}")?;
    Ok(text)
}

/// The threads of the passes, in their order.
fn threads_text(alloc: Global, passes: &[Pass]) -> Result<String, AllocError> {
    let mut text = String::new(alloc);
    for pass in passes {
        let thread = pass.thread();
        write!(text, "{thread} ")?;
    }
    Ok(text)
}

/// Takes the last pass out of the list.
fn take_last(queue: &Queue, passes: &mut Vec<Pass>) -> Option<Pass>
    requires { All (IsPassOf queue.now) passes.old.items }
    ensures rest { All (IsPassOf queue.now) passes.new.items }
    ensures last { IfSome result (IsPassOf queue.now) }
{
    let _of = queue;
    passes.pop()
}

/// Puts a pass behind the others of the list.
fn put_back(queue: &Queue, passes: &mut Vec<Pass>, pass: Pass) -> Result<(), AllocError>
    requires others { All (IsPassOf queue.now) passes.old.items }
    requires pass { IsPassOf queue.now pass }
    ensures { IfOk result (λ _. All (IsPassOf queue.now) passes.new.items) }
{
    let _of = queue;
    passes.push(pass)?;
    Ok(())
}

/// The first two passes learn what the other one saw: the second from the first, or the other way round.
fn meet_two(queue: &Queue, passes: &mut Vec<Pass>, is_second_first: bool) -> Result<(), AllocError>
    requires { All (IsPassOf queue.now) passes.old.items }
    ensures { IfOk result (λ _. All (IsPassOf queue.now) passes.new.items) }
{
    let (Some(mut second), Some(mut first)) = (take_last(queue, passes), take_last(queue, passes))
    else {
        return Ok(());
    };
    if is_second_first {
        plain::meet(queue, &mut second, &mut first);
    } else {
        plain::meet(queue, &mut first, &mut second);
    }
    put_back(queue, passes, first)?;
    put_back(queue, passes, second)
}

impl Driven for Pass {
    type Queue = Queue;

    type Beside = State;

    ghost opened = { λ q. q };

    ghost known = { λ p. p };

    fn number(&self) -> u32 {
        self.thread()
    }

    fn line_by(
        &mut self,
        alloc: Global,
        queue: &Queue,
        state: &mut State,
        step: &Value,
    ) -> Result<String, AllocError> {
        if word_of(step) == "words" {
            words_text(alloc, queue, self)
        } else {
            let begin = call_of(alloc, step)?;
            call_both(alloc, queue, self, state, begin)
        }
    }
}

impl Stepped for Pass {
    fn line_of(
        alloc: Global,
        queue: &Queue,
        passes: &mut Vec<Pass>,
        state: &mut State,
        step: &Value,
    ) -> Result<String, AllocError> {
        let word = word_of(step);
        if word == "shape" {
            shape_text(alloc, queue.shape())
        } else if word == "passes" {
            threads_text(alloc, passes.as_slice())
        } else if word == "meet" {
            meet_two(queue, passes, place_of(step, 1) == 1)?;
            "met".to_string(alloc)
        } else {
            line_of_call(alloc, queue, passes, state, step)
        }
    }
}

/// The items that are left at a close, or its fault.
fn closed(alloc: Global, queue: Queue, passes: Vec<Pass>) -> Result<String, AllocError>
    requires { All (IsPassOf queue) passes.items }
{
    match plain::close(alloc, queue, passes) {
        Ok(left) => {
            let left = left.as_slice();
            format!(in alloc; "left {left:?}")
        }
        Err(fault) => close_text(alloc, fault),
    }
}

/// Closes the queue with the passes that the row gives back, where it gives any list of them.
fn end(
    alloc: Global,
    queue: Queue,
    passes: Vec<Pass>,
    row: &Value,
    lines: &mut Vec<String>,
) -> Result<(), AllocError>
    requires { All (IsPassOf queue) passes.items }
{
    if let Some(threads) = row.get("close") {
        let picked = pick(alloc, &queue, passes, threads)?;
        lines.push(closed(alloc, queue, picked)?)?;
    }
    Ok(())
}

/// Adds the lines of the steps on an open queue and a machine, and the line of the close.
fn run(
    alloc: Global,
    queue: Queue,
    mut passes: Vec<Pass>,
    mut state: State,
    row: &Value,
    lines: &mut Vec<String>,
) -> Result<(), AllocError>
    requires { All (IsPassOf queue) passes.items }
{
    add_steps(
        alloc,
        &queue,
        &mut passes,
        &mut state,
        list(row, "steps"),
        lines,
    )?;
    end(alloc, queue, passes, row, lines)
}

/// Adds the lines of a row.
pub fn add_lines(
    alloc: Global,
    row: &Value,
    shape: Shape,
    lines: &mut Vec<String>,
) -> Result<(), AllocError> {
    let threads = size(row, "threads");
    match plain::open(alloc, shape, threads) {
        Ok((queue, passes)) => match plain::start(alloc, shape, threads) {
            Ok(state) => run(alloc, queue, passes, state, row, lines)?,
            Err(_) => lines.push("no machine".to_string(alloc)?)?,
        },
        Err(fault) => lines.push(open_text(alloc, fault)?)?,
    }
    Ok(())
}
