//! A row to its lines.
//!
//! Each row has a `name`, a `kind`, and in `says` a line for each thing that it asks, in the order of the keys below.
//! A list of numbers may hold runs: `[1, 9]` is 1 to 9, `[9, 1]` is 9 to 1, and `[7, 7, 5]` is a run (here of 7
//! alone) five times. A question on a list may give the list that is expected, and its line is then `as listed`.
//!
//! The kinds, and their keys:
//!
//! - `words`: `words`, each a slot word `[value, version]`, an ends word `[head, tail, version]`, or `["limits"]`.
//! - `sizes`: `sizes`, each `[k, n]`, and then maybe the greatest version, the probes, and `"holds again"`.
//! - `ring`: `shape` with such sizes, and `ask`, each `["next", segment]`, `["dist", from, to]`, `["slot", segment,
//!   slot]` or `["shape"]`.
//! - `faults`: `of`, a group of faults (`events`, `runs`, `records` or `questions`); each prints its number and its
//!   text.
//! - `schedule`: `shape`, `threads`, and then
//!   - `play`, a list of groups, each `[thread, count]` and then maybe the call that the first event begins: `"put",
//!     item, start, turns`, or `"take", start, turns`, or `"tick"`. A group is played until an event ends a call or
//!     is refused; its line has the number of events made and what the last came to. `"table"` prints the words
//!     (ends, slots, clock), and `"inside"` the threads that are in a call;
//!   - `events`, more groups, which are not played. `[[first, last], count, ..]` is a group of several threads in
//!     turn;
//!   - `draw`, a number of events that a generator draws;
//!   - `ask`, questions on the run of all these events: `["table"]`, `["inside"]`, `["order"]`, `["points"]`,
//!     `["events"]` (their number), or `["legal", k..]`: for each k whether the linearization order is legal;
//!   - `history`, questions on the history of all these events, as in the kind `history`.
//! - `history`: `calls`, each `[thread, "put" or "take", item, first]` and of a finished call its last step and
//!   `"done"`, `"got"` or `"empty"`; or `puts` and `gots`, items that are put, then got, one call after the other.
//!   `ask`: `["calls"]`, `["widths", k..]` (those for which there is a legal order), `["check", k, order]`,
//!   `["ranks", k, order]`, `["overtaken", call]`, `["measure"]` (the calls, then their items, then the counts). The
//!   last line is the number of calls.
//! - `record`: `record`, a record as JSON, or `empty_takes`, a number of dequeues that found the queue empty; `ask`,
//!   as of a history.
//! - `replay`: `shape`; `scripts`, each a list of calls as in a group; maybe `times`, how often the scripts and the
//!   calls of each are repeated; and `steps`, each `["feed", picks..]`, `["times", pick, count]`, `["finish",
//!   stopped]`, `["report"]`, `["calls"]` or `["points"]`. Or `picks`, which are replayed as a whole, and maybe
//!   `page`, the further arguments of the example of the page on replays.

use crate::faults::add_faults;
use crate::histories::{add_history, add_record};
use crate::replays::add_replay;
use crate::schedules::add_schedule;
use crate::words::{add_ring, add_sizes, add_words, shape_of};
use kfifo_words::Shape;
use serde_json::Value;
use std::alloc::{AllocError, Global};
use test_rows::{list, text};

/// Adds the lines of a row that has a shape.
fn add_shaped(
    alloc: Global,
    row: &Value,
    shape: Shape,
    lines: &mut Vec<String>,
) -> Result<(), AllocError> {
    let kind = text(row, "kind");
    if kind == "schedule" {
        add_schedule(alloc, row, shape, lines)
    } else if kind == "replay" {
        add_replay(alloc, row, shape, lines)
    } else {
        add_ring(alloc, row, &shape, lines)
    }
}

/// Adds the lines of a row that has no shape.
fn add_shapeless(alloc: Global, row: &Value, lines: &mut Vec<String>) -> Result<(), AllocError> {
    let kind = text(row, "kind");
    if kind == "words" {
        add_words(alloc, row, lines)
    } else if kind == "sizes" {
        add_sizes(alloc, row, lines)
    } else if kind == "faults" {
        add_faults(alloc, text(row, "of"), lines)
    } else if kind == "record" {
        add_record(alloc, row, lines)
    } else {
        add_history(alloc, row, lines)
    }
}

/// The lines of a row; none where its shape is refused.
pub fn lines_of(alloc: Global, row: &Value) -> Result<Vec<String>, AllocError> {
    let mut lines = Vec::new(alloc);
    match shape_of(list(row, "shape")) {
        Some(Ok(shape)) => add_shaped(alloc, row, shape, &mut lines)?,
        Some(Err(_fault)) => {}
        None => add_shapeless(alloc, row, &mut lines)?,
    }
    Ok(lines)
}
