//! The shape and the calls of a row.

use kfifo_machine::Begin;
use kfifo_words::{MAX_VERSION, Shape};
use serde_json::Value;
use std::alloc::{AllocError, Global};
use test_rows::{items, list, number, numbers, small};

/// The shape of a row: k, n, and then maybe the greatest version and the probes.
pub fn shape_of(row: &Value) -> Option<Shape> {
    match list(row, "shape") {
        [k, n] => Shape::new(small(k), small(n), MAX_VERSION).ok(),
        [k, n, last] => Shape::new(small(k), small(n), number(last)).ok(),
        [k, n, last, probes] => {
            Shape::with_probes(small(k), small(n), number(last), small(probes)).ok()
        }
        _ => None,
    }
}

/// The sizes of a shape: k, n, the greatest version and the probes.
pub fn shape_text(alloc: Global, shape: Shape) -> Result<String, AllocError> {
    let (k, n, last, probes) = (shape.k(), shape.n(), shape.last(), shape.probes());
    format!(in alloc; "{k} {n} {last} {probes}")
}

/// The number under a key, or the greatest one where there is none.
pub fn size(row: &Value, key: &str) -> u32 {
    row.get(key).map_or(u32::MAX, small)
}

/// The word of a step.
pub fn word_of(step: &Value) -> &str {
    items(step).first().and_then(Value::as_str).unwrap_or("")
}

/// The number at a place of a step.
pub fn place_of(step: &Value, index: usize) -> usize {
    items(step).get(index).map_or(u32::MAX, small) as usize
}

/// The call of a step: what is put, a start and turns; or a start and turns alone.
fn begin_of(numbers: &[u32]) -> Begin {
    match numbers {
        [_, _, item, start, turns] => Begin::Enqueue {
            item: *item,
            start: *start,
            turns: u16::try_from(*turns).unwrap_or(0),
        },
        [_, _, start, turns] => Begin::Dequeue {
            start: *start,
            turns: u16::try_from(*turns).unwrap_or(0),
        },
        _ => Begin::Tick,
    }
}

/// The call of a step; a tick where the step is none.
pub fn call_of(alloc: Global, step: &Value) -> Result<Begin, AllocError> {
    let numbers = numbers(alloc, step)?;
    Ok(begin_of(numbers.as_slice()))
}

/// Whether a list has this number.
pub fn has(list: &Value, wanted: u32) -> bool {
    items(list).iter().any(|one| small(one) == wanted)
}
