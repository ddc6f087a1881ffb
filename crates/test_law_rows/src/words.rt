//! Lines of words and shapes.

use crate::plain;
use kfifo_words::{Ends, MAX_K, MAX_SEGMENTS, MAX_VALUE, MAX_VERSION, Shape, ShapeFault, Word};
use serde_json::Value;
use std::alloc::{AllocError, Global};
use test_rows::{items, list, number, small};

/// A shape whose enqueues hold again.
fn holding_again(shape: Result<Shape, ShapeFault>) -> Result<Shape, ShapeFault> {
    Ok(shape?.holding_again())
}

/// The shape with these sizes: k, n, and then maybe the greatest version, the probes, and that enqueues hold again.
pub fn shape_of(sizes: &[Value]) -> Option<Result<Shape, ShapeFault>> {
    match sizes {
        [k, n] => Some(Shape::new(small(k), small(n), MAX_VERSION)),
        [k, n, last] => Some(Shape::new(small(k), small(n), number(last))),
        [k, n, last, probes] => {
            Some(Shape::with_probes(small(k), small(n), number(last), small(probes)))
        }
        [k, n, last, probes, _holds_again] => Some(holding_again(Shape::with_probes(
            small(k),
            small(n),
            number(last),
            small(probes),
        ))),
        _ => None,
    }
}

/// The sizes of a shape and the place of its clock.
fn shape_line(alloc: Global, shape: &Shape) -> Result<String, AllocError> {
    let (k, n, last, probes) = (shape.k(), shape.n(), shape.last(), shape.probes());
    let clock = shape.clock_index();
    format!(in alloc; "k {k}, n {n}, last {last}, probes {probes}, clock at {clock}")
}

/// A shape, or the number and the text of its fault.
fn sizes_line(alloc: Global, sizes: &[Value]) -> Result<String, AllocError> {
    match shape_of(sizes) {
        Some(Ok(shape)) => shape_line(alloc, &shape),
        Some(Err(fault)) => {
            let number = fault.number();
            format!(in alloc; "{number} {fault}")
        }
        None => "no sizes".to_string(alloc),
    }
}

/// Adds a line for each of the sizes.
pub fn add_sizes(alloc: Global, row: &Value, lines: &mut Vec<String>) -> Result<(), AllocError> {
    for sizes in list(row, "sizes") {
        lines.push(sizes_line(alloc, items(sizes))?)?;
    }
    Ok(())
}

/// The bits of a packed slot word, and what stands in them.
fn slot_line(alloc: Global, value: u32, version: u64) -> Result<String, AllocError> {
    let bits = plain::slot_bits(value, version).unwrap_or(u64::MAX);
    let word = Word::of_bits(bits);
    let (value, version) = (word.value(), word.version());
    format!(in alloc; "{bits}: {value} v{version}")
}

/// The bits of a packed ends word, what stands in them, and the bits again after a round trip through a word.
fn ends_line(alloc: Global, head: u32, tail: u32, version: u64) -> Result<String, AllocError> {
    let bits = plain::ends_bits(head, tail, version).unwrap_or(u64::MAX);
    let ends = Ends::of_bits(bits);
    let (head, tail, version) = (ends.head(), ends.tail(), ends.version());
    let again = Ends::from(Word::from(ends)).bits();
    format!(in alloc; "{bits}: {head} {tail} v{version}, {again}")
}

/// Adds a line for each of the words.
pub fn add_words(alloc: Global, row: &Value, lines: &mut Vec<String>) -> Result<(), AllocError> {
    for word in list(row, "words") {
        let line = match items(word) {
            [value, version] => slot_line(alloc, small(value), number(version))?,
            [head, tail, version] => {
                ends_line(alloc, small(head), small(tail), number(version))?
            }
            _ => format!(in alloc; "{MAX_VALUE} {MAX_VERSION} {MAX_K} {MAX_SEGMENTS}")?,
        };
        lines.push(line)?;
    }
    Ok(())
}

/// The line of one question on a ring.
fn ring_line(alloc: Global, shape: &Shape, ask: &[Value]) -> Result<String, AllocError> {
    match ask {
        [_next, segment] => format!(in alloc; "{:?}", plain::next(shape, small(segment))),
        [word, from, to] if word.as_str().unwrap_or("") == "dist" => {
            format!(in alloc; "{:?}", plain::dist(shape, small(from), small(to)))
        }
        [_slot, segment, slot] => {
            format!(in alloc;
                "{:?}",
                plain::slot_index(shape, small(segment), small(slot))
            )
        }
        _ => shape_line(alloc, shape),
    }
}

/// Adds a line for each question on a ring.
pub fn add_ring(
    alloc: Global,
    row: &Value,
    shape: &Shape,
    lines: &mut Vec<String>,
) -> Result<(), AllocError> {
    for ask in list(row, "ask") {
        lines.push(ring_line(alloc, shape, items(ask))?)?;
    }
    Ok(())
}
