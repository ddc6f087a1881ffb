//! Rows of drawn calls, made on a queue and on the machine.
ghost use Rattle.std.specs.Prelude.{◌<◌};
ghost use Rattle.kfifo_live.specs.Pass.{IsPassOf, IsSamePass};

use crate::items::{drive, words_that_differ};
use crate::plain;
use kfifo_live::{Pass, Queue};
use kfifo_machine::{Begin, State};
use kfifo_words::Shape;
use serde_json::Value;
use std::alloc::{AllocError, Global};
use test_rows::{list, number, small};

/// How many shapes there were, how many calls, and how many of them differ in the answer or in a word.
#[derive(Drop)]
struct Tally {
    shapes: u32,
    calls: u32,
    differ: u32,
}

/// The next number of a linear congruential generator, below a bound.
fn draw(seed: &mut u32, bound: u32) -> u32
    requires { 0 < bound }
    ensures { result < bound }
{
    *seed = seed.wrapping_mul(1_664_525).wrapping_add(1_013_904_223);
    (*seed >> 8) % bound
}

/// A drawn call.
fn draw_call(seed: &mut u32, k: u32, item: u32) -> Begin {
    let start = draw(seed, 64) % k.max(1);
    let turns = if draw(seed, 2) == 0 { 1 } else { 2000 };
    if draw(seed, 9) < 5 {
        Begin::Enqueue { item, start, turns }
    } else {
        Begin::Dequeue { start, turns }
    }
}

/// Whether the queue makes a call as the machine does, with the same words after.
fn is_same(queue: &Queue, pass: &mut Pass, state: &mut State, begin: Begin) -> bool
    requires { IsPassOf queue.now pass.old }
    ensures { IsSamePass pass.old pass.new }
{
    let answer = plain::call(queue, pass, begin);
    let machine = drive(state, 0, begin);
    answer.is_some() && answer == machine && words_that_differ(queue, pass, state) == 0
}

/// Makes drawn calls, with the items 1 to 199.
fn make_calls(queue: &Queue, pass: &mut Pass, state: &mut State, seed: &mut u32, tally: &mut Tally)
    requires { IsPassOf queue.now pass.old }
{
    let k = queue.shape().k();
    for item in 1..200u32 {
        let begin = draw_call(seed, k, item);
        tally.calls = tally.calls.saturating_add(1);
        if !is_same(queue, pass, state, begin) {
            tally.differ = tally.differ.saturating_add(1);
        }
    }
}

/// Makes drawn calls on a queue of one pass and on a machine of this shape; counts nothing where one is refused.
fn add_shape(alloc: Global, shape: Shape, seed: &mut u32, tally: &mut Tally) {
    let Ok((queue, mut passes)) = plain::open(alloc, shape, 1) else {
        return;
    };
    let (Some(mut pass), Ok(mut state)) = (passes.pop(), plain::start(alloc, shape, 1)) else {
        return;
    };
    tally.shapes = tally.shapes.saturating_add(1);
    make_calls(&queue, &mut pass, &mut state, seed, tally);
}

/// Makes drawn calls for each number of probes.
fn add_probes(alloc: Global, k: u32, n: u32, last: u64, seed: &mut u32, tally: &mut Tally) {
    for probes in 0..k {
        if let Ok(shape) = Shape::with_probes(k, n, last, probes.saturating_add(1)) {
            add_shape(alloc, shape, seed, tally);
        }
    }
}

/// Makes drawn calls for each number of segments and each greatest version.
fn add_all(alloc: Global, row: &Value, k: u32, tally: &mut Tally) {
    let mut seed = row.get("seed").map_or(0, small);
    for n in list(row, "segments") {
        for last in list(row, "versions") {
            add_probes(alloc, k, small(n), number(last), &mut seed, tally);
        }
    }
}

/// Adds the line of a row.
pub fn add_lines(
    alloc: Global,
    row: &Value,
    k: &Value,
    lines: &mut Vec<String>,
) -> Result<(), AllocError> {
    let mut tally = Tally {
        shapes: 0,
        calls: 0,
        differ: 0,
    };
    add_all(alloc, row, small(k), &mut tally);
    let (shapes, calls, differ) = (tally.shapes, tally.calls, tally.differ);
    lines.push(format!(in alloc; "{shapes} shapes, {calls} calls, {differ} differ")?)?;
    Ok(())
}
