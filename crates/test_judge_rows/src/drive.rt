//! What the rows come to, line by line.
//!
//! A row has a `name`, an input, questions under `asks`, and under `says` the lines of all answers in turn. The
//! input is
//! - `record`: a JSON value, whose text it is; or
//! - `text`: a string, or a list of lines, of which each is followed by a line feed. In the list `{"repeat": line,
//!   "times": number}` is a line so many times; in it `{i}` is 0, 1, .., `{item}` is i + 1, `{thread}` i modulo 64,
//!   `{first}` 2i and `{last}` 2i + 1.
//!
//! A question is an object with the key `ask`:
//!
//! | `ask` | What it prints |
//! |---|---|
//! | `check`, `measure` | what the stream writes, and then its status or its fault |
//! | `judge`, `least` | what is said of the record, and then its outcome; or its fault |
//! | `evidence`, `witness`, `verdict`, `bounds` | what `evidence`, `witness`, `judge` and `least_k` return |
//! | `import` | the calls of a log, or its fault |
//! | `lines` | how many lines a log has below its header, or its fault, where it comes in pieces of 1 to 40 bytes |
//! | `wrong` | what is said of the field that makes a line of a log no call, or `none` |
//! | `draw`, `svg` | the picture in characters, or as SVG; or its fault |
//! | `form` | whether the picture as SVG is well formed |
//! | `text` | whether the input is well formed, so that a row can show what is not |
//!
//! Its further keys are `k` (1 where it is missing), `tries` (1,000 where it is missing), `order` (a list of calls; no
//! order where it is missing), and `show`, for `judge` to show its order. Where there is a `with`, only the lines that
//! have this text are kept; `count` prints the number of lines in place of them.
//!
//! A picture may also have `calls` (of a list of two calls from the first to the last), or `near` (a list of calls:
//! these are marked, for the `reason`, a string) and with it `around` (a number: they are drawn with what is near them;
//! all calls where it is missing).

use crate::input::input_of;
use crate::pictures::{add_picture, form_line};
use crate::plain;
use kfifo_import::{Line, Refusal};
use kfifo_model::History;
use serde_json::Value;
use std::alloc::{AllocError, Global};
use test_judge::streams::{Input, Output, pieces_of, sink_with, source_of};
use test_rows::{flag, items, list, number, small, text};

/// The most bytes of a piece in which a log comes.
const MOST_IN_A_PIECE: usize = 40;

/// The k of a question.
pub(crate) fn k_of(ask: &Value) -> u32 {
    ask.get("k").map_or(1, small)
}

/// How many choices a search may undo.
fn tries_of(ask: &Value) -> u64 {
    ask.get("tries").map_or(1_000, number)
}

/// A call of an order; the greatest number where it is none.
fn place(value: &Value) -> usize {
    usize::try_from(number(value)).unwrap_or(usize::MAX)
}

/// The calls that a question has under a name; none where it has none.
pub(crate) fn calls_of(
    alloc: Global,
    ask: &Value,
    name: &str,
) -> Result<Option<Vec<usize>>, AllocError> {
    let Some(value) = ask.get(name) else {
        return Ok(None);
    };
    let mut calls = Vec::new(alloc);
    for call in items(value) {
        calls.push(place(call))?;
    }
    Ok(Some(calls))
}

/// Adds the lines of a text that was written. Without the last branch a last line with no line feed would look like one
/// that has it.
pub(crate) fn add_written(
    alloc: Global,
    written: &str,
    lines: &mut Vec<String>,
) -> Result<(), AllocError> {
    if written.is_empty() {
        return Ok(());
    }
    let ended = written.strip_suffix('\n');
    for line in ended.unwrap_or(written).split('\n') {
        lines.push(line.to_string(alloc)?)?;
    }
    if ended.is_none() {
        lines.push("no line feed".to_string(alloc)?)?;
    }
    Ok(())
}

/// Checks a record, with an order or without.
fn checked(
    alloc: Global,
    source: &mut Input<'_>,
    sink: &mut Output,
    ask: &Value,
) -> Result<String, AllocError> {
    let k = k_of(ask);
    match calls_of(alloc, ask, "order")? {
        Some(order) => plain::check(alloc, source, sink, k, Some(order.as_slice())),
        None => plain::check(alloc, source, sink, k, None),
    }
}

/// Carries a stream out; returns how it ends.
fn carried_out(
    alloc: Global,
    source: &mut Input<'_>,
    sink: &mut Output,
    ask: &Value,
) -> Result<String, AllocError> {
    if text(ask, "ask") == "check" {
        checked(alloc, source, sink, ask)
    } else {
        plain::measure(alloc, source, sink)
    }
}

/// Adds what was written, and a line where a call was counted that failed or a call wrote nothing.
fn add_page(
    alloc: Global,
    sink: &Output,
    failed: u64,
    lines: &mut Vec<String>,
) -> Result<(), AllocError> {
    let page = &sink.inner;
    match str::from_utf8(page.taken.as_slice()) {
        Ok(written) => add_written(alloc, written, lines)?,
        Err(_) => lines.push("no UTF-8".to_string(alloc)?)?,
    }
    let (failed, calls) = (failed.saturating_add(sink.failed), page.calls);
    if failed > 0 || (calls > 0 && page.taken.is_empty()) {
        lines.push(format!(in alloc; "{failed} failed calls, {calls} writes")?)?;
    }
    Ok(())
}

/// Adds the lines of a stream.
fn add_stream(
    alloc: Global,
    input: &str,
    ask: &Value,
    lines: &mut Vec<String>,
) -> Result<(), AllocError> {
    let mut source = source_of(input, 0);
    let mut sink = sink_with(alloc, 0, 0);
    let ending = carried_out(alloc, &mut source, &mut sink, ask)?;
    add_page(alloc, &sink, source.failed, lines)?;
    Ok(lines.push(ending)?)
}

/// Adds the lines of a verdict in words.
fn add_explained(
    alloc: Global,
    input: &str,
    ask: &Value,
    lines: &mut Vec<String>,
) -> Result<(), AllocError> {
    let (bytes, tries) = (input.as_bytes(), tries_of(ask));
    let found = if text(ask, "ask") == "judge" {
        plain::judge(alloc, bytes, k_of(ask), tries, flag(ask, "show"))
    } else {
        plain::least(alloc, bytes, tries)
    };
    match found {
        Ok(said) => add_written(alloc, said.as_str(), lines),
        Err(fault) => Ok(lines.push(plain::told(alloc, &fault)?)?),
    }
}

/// The line of a verdict on a history.
fn verdict_line(alloc: Global, history: &History, ask: &Value) -> Result<String, AllocError> {
    let name = text(ask, "ask");
    if name == "bounds" {
        plain::bounds(alloc, history, tries_of(ask))
    } else {
        plain::verdict(alloc, history, name, k_of(ask), tries_of(ask))
    }
}

/// Adds the lines of a question on a history.
fn add_of_history(
    alloc: Global,
    history: &History,
    ask: &Value,
    lines: &mut Vec<String>,
) -> Result<(), AllocError> {
    let name = text(ask, "ask");
    if name == "draw" || name == "svg" || name == "form" {
        add_picture(alloc, history, ask, lines)
    } else {
        Ok(lines.push(verdict_line(alloc, history, ask)?)?)
    }
}

/// Adds the lines of a question on the record that the input is.
fn add_of_record(
    alloc: Global,
    input: &str,
    ask: &Value,
    lines: &mut Vec<String>,
) -> Result<(), AllocError> {
    match plain::read_record(alloc, input.as_bytes()) {
        Ok(history) => add_of_history(alloc, &history, ask, lines),
        Err(fault) => Ok(lines.push(plain::told(alloc, &fault)?)?),
    }
}

/// Adds a line for each call of a log, or its fault.
fn add_log(alloc: Global, input: &str, lines: &mut Vec<String>) -> Result<(), AllocError> {
    match plain::import_text(alloc, input.as_bytes()) {
        Ok(history) => add_calls(alloc, &history, lines),
        Err(refusal) => Ok(lines.push(plain::told(alloc, &refusal.fault)?)?),
    }
}

/// Whether a log comes to the same lines, or to the same fault.
fn are_same(first: &Result<Vec<Line>, Refusal>, second: &Result<Vec<Line>, Refusal>) -> bool {
    match (first, second) {
        (Ok(first), Ok(second)) => first.as_slice() == second.as_slice(),
        (Err(first), Err(second)) => first.fault == second.fault,
        _ => false,
    }
}

/// How many lines a log has, or its fault, where that is the same in pieces of any size; else a size of pieces in which
/// it is not.
fn count_line(alloc: Global, input: &str) -> Result<String, AllocError> {
    let Ok(bytes) = plain::bytes_of(alloc, pieces_of(input, 0)) else {
        return "not read".to_string(alloc);
    };
    let found = plain::lines_at_once(alloc, bytes.as_slice());
    for size in 1..=MOST_IN_A_PIECE {
        let again = plain::lines_in_pieces(alloc, bytes.as_slice(), size);
        if !are_same(&found, &again) {
            return format!(in alloc; "not in pieces of {size} bytes");
        }
    }
    match found {
        Ok(lines) => {
            let count = lines.len();
            format!(in alloc; "{count} lines")
        }
        Err(refusal) => plain::told(alloc, &refusal.fault),
    }
}

/// The line of the field of a log that is wrong.
fn wrong_line(alloc: Global, input: &str) -> Result<String, AllocError> {
    if let Err(refusal) = plain::import_text(alloc, input.as_bytes()) {
        if let Some(wrong) = &refusal.wrong {
            return wrong.to_string(alloc);
        }
    }
    "none".to_string(alloc)
}

/// Adds a line for each call.
fn add_calls(alloc: Global, history: &History, lines: &mut Vec<String>) -> Result<(), AllocError> {
    for call in history.calls() {
        lines.push(plain::told(alloc, call)?)?;
    }
    Ok(())
}

/// Adds all lines of an answer.
fn add_answer(
    alloc: Global,
    input: &str,
    ask: &Value,
    lines: &mut Vec<String>,
) -> Result<(), AllocError> {
    let name = text(ask, "ask");
    let streams = ["check", "measure"];
    let verdicts = [
        "evidence", "witness", "verdict", "bounds", "draw", "svg", "form",
    ];
    if streams.contains(&name) {
        add_stream(alloc, input, ask, lines)
    } else if name == "judge" || name == "least" {
        add_explained(alloc, input, ask, lines)
    } else if verdicts.contains(&name) {
        add_of_record(alloc, input, ask, lines)
    } else if name == "import" {
        add_log(alloc, input, lines)
    } else if name == "lines" {
        Ok(lines.push(count_line(alloc, input)?)?)
    } else if name == "wrong" {
        Ok(lines.push(wrong_line(alloc, input)?)?)
    } else if name == "text" {
        Ok(lines.push(form_line(alloc, input)?)?)
    } else {
        Ok(lines.push("no such question".to_string(alloc)?)?)
    }
}

/// Adds the lines that a question counts, or their number.
fn add_kept(
    alloc: Global,
    found: Vec<String>,
    ask: &Value,
    lines: &mut Vec<String>,
) -> Result<(), AllocError> {
    let mut kept = Vec::new(alloc);
    for line in found {
        if line.as_str().contains(text(ask, "with")) {
            kept.push(line)?;
        }
    }
    if flag(ask, "count") {
        let count = kept.len();
        return Ok(lines.push(format!(in alloc; "{count} lines")?)?);
    }
    for line in kept {
        lines.push(line)?;
    }
    Ok(())
}

/// The lines of a row.
pub(crate) fn lines_of(alloc: Global, row: &Value) -> Result<Vec<String>, AllocError> {
    let input = input_of(alloc, row)?;
    let mut lines = Vec::new(alloc);
    for ask in list(row, "asks") {
        let mut found = Vec::new(alloc);
        add_answer(alloc, input.as_str(), ask, &mut found)?;
        add_kept(alloc, found, ask, &mut lines)?;
    }
    Ok(lines)
}
