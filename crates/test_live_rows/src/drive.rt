//! What the rows come to, line by line.
//!
//! - `shape`: k, n, and then maybe the greatest version and the probes; `threads`: how many passes there are. With
//!   `tokens` the queue is one of payloads, with so many tokens a pass; with `logs` a stamped one, with room for so
//!   many calls a log.
//! - `steps`, a line for each: `["enqueue", pass, item, start, turns]` and `["dequeue", pass, start, turns]`, of
//!   payloads `give`, with the number of the payload, and `take`; `["meet", from, to]` of two passes; `["words",
//!   pass]`: the ends with their version, each slot with its version, and the clock; `["shape"]`; `["passes"]`:
//!   their threads, or how many there are of a stamped queue; `["pass", pass]`: its thread and tokens; `["log",
//!   pass]`; `["drops"]` of payloads.
//! - `close`, or `gather` of a stamped queue: the threads whose passes are given back, the last one first, or
//!   `true` for all in their order; of payloads the place of one pass. The line has what is left, or the fault. A
//!   queue of payloads with no `close` is dropped while its passes are kept, and the line counts the drops. Its
//!   last line counts them at the very end.
//! - `drawn`: k of shapes with each of the `segments`, each of the greatest `versions` and each number of probes.
//!   For each, 199 calls are drawn from `seed` on, and made on a queue and on the machine.
//! - `memory`: the faults of refused memory.
//!
//! A call of a queue of items is made on the machine too: where the answer or a word differs, the line says so.

use crate::begin::shape_of;
use crate::{drawn, faults, items, payloads, stamps};
use kfifo_words::Shape;
use serde_json::Value;
use std::alloc::{AllocError, Global};
use test_rows::flag;

/// Adds the lines of calls on a queue of this shape.
fn add_calls(
    alloc: Global,
    row: &Value,
    shape: Shape,
    lines: &mut Vec<String>,
) -> Result<(), AllocError> {
    if row.get("tokens").is_some() {
        payloads::add_lines(alloc, row, shape, lines)
    } else if row.get("logs").is_some() {
        stamps::add_lines(alloc, row, shape, lines)
    } else {
        items::add_lines(alloc, row, shape, lines)
    }
}

/// The lines of a row; none where its shape is refused.
pub fn lines_of(alloc: Global, row: &Value) -> Result<Vec<String>, AllocError> {
    let mut lines = Vec::new(alloc);
    if let Some(shape) = shape_of(row) {
        add_calls(alloc, row, shape, &mut lines)?;
    } else if let Some(k) = row.get("drawn") {
        drawn::add_lines(alloc, row, k, &mut lines)?;
    } else if flag(row, "memory") {
        faults::add_lines(alloc, &mut lines)?;
    }
    Ok(lines)
}
