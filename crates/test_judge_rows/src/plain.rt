//! The calls that the rows ask for, with nothing said of what they return. Where a call wants k to be 1 to 64, another
//! k gives a line of its own.

use kfifo_draw::{DrawFault, Drawing, Marking, Part, Style};
use kfifo_import::{Line, LogReader, MAX_LOG_CALLS, Refusal, lines_of};
use kfifo_judge::{FromStd, Outcome, ReadFault, StreamFault, read_all};
use kfifo_model::History;
use serde_json::Value;
use std::alloc::{AllocError, Global};
use std::fmt::Debug;
use test_judge::streams::{Input, Output, Pieces};

/// A value, as its type prints it.
pub(crate) fn told<T: Debug>(alloc: Global, value: &T) -> Result<String, AllocError> {
    format!(in alloc; "{value:?}")
}

/// The line of a k that no queue has.
pub(crate) fn no_such_k(alloc: Global, k: u32) -> Result<String, AllocError> {
    format!(in alloc; "k = {k} is not 1 to 64")
}

/// A text with a number in place of a name.
pub(crate) fn replaced(
    alloc: Global,
    text: &str,
    name: &str,
    number: u64,
) -> Result<String, AllocError> {
    let digits = format!(in alloc; "{number}")?;
    text.replace(alloc, name, digits.as_str())
}

pub(crate) fn json_text(alloc: Global, value: &Value) -> Result<String, AllocError> {
    value.to_string(alloc)
}

/// How a stream ends.
fn ending(alloc: Global, found: Result<u8, StreamFault>) -> Result<String, AllocError> {
    match found {
        Ok(status) => format!(in alloc; "status {status}"),
        Err(fault) => told(alloc, &fault),
    }
}

pub(crate) fn check(
    alloc: Global,
    source: &mut Input<'_>,
    sink: &mut Output,
    k: u32,
    order: Option<&[usize]>,
) -> Result<String, AllocError> {
    if k < 1 || k > 64 {
        return no_such_k(alloc, k);
    }
    let found = kfifo_judge::check_stream(alloc, source, sink, k, order);
    ending(alloc, found)
}

pub(crate) fn measure(
    alloc: Global,
    source: &mut Input<'_>,
    sink: &mut Output,
) -> Result<String, AllocError> {
    let found = kfifo_judge::measure_stream(alloc, source, sink);
    ending(alloc, found)
}

/// What a text says of a history, as a line behind it.
fn add_outcome(alloc: Global, text: String, said: Outcome) -> Result<String, AllocError> {
    let mut text = text;
    let line = told(alloc, &said)?;
    text.push_str(line.as_str())?;
    text.push('\n')?;
    Ok(text)
}

pub(crate) fn judge(
    alloc: Global,
    bytes: &[u8],
    k: u32,
    tries: u64,
    show: bool,
) -> Result<String, StreamFault> {
    if k < 1 || k > 64 {
        return Ok(no_such_k(alloc, k)?);
    }
    let history = kfifo_judge::read_record(alloc, bytes)?;
    let (text, said) = kfifo_judge::judge_text(alloc, &history, &[], k, tries, show)?;
    Ok(add_outcome(alloc, text, said)?)
}

pub(crate) fn least(alloc: Global, bytes: &[u8], tries: u64) -> Result<String, StreamFault> {
    let history = kfifo_judge::read_record(alloc, bytes)?;
    let (text, said) = kfifo_judge::least_text(alloc, &history, &[], tries)?;
    Ok(add_outcome(alloc, text, said)?)
}

pub(crate) fn read_record(alloc: Global, bytes: &[u8]) -> Result<History, StreamFault> {
    kfifo_judge::read_record(alloc, bytes)
}

pub(crate) fn import_text(alloc: Global, bytes: &[u8]) -> Result<History, Refusal> {
    kfifo_import::import_text(alloc, bytes)
}

/// The bytes of a file.
pub(crate) fn bytes_of(alloc: Global, file: Pieces<'_>) -> Result<Vec<u8>, ReadFault> {
    read_all(alloc, &mut FromStd::new(file))
}

/// The lines of a log, which comes at once.
pub(crate) fn lines_at_once(alloc: Global, bytes: &[u8]) -> Result<Vec<Line>, Refusal> {
    lines_of(alloc, bytes, MAX_LOG_CALLS)
}

/// The lines of a log that comes in pieces of so many bytes.
pub(crate) fn lines_in_pieces(
    alloc: Global,
    bytes: &[u8],
    size: usize,
) -> Result<Vec<Line>, Refusal> {
    let mut reader = LogReader::new(alloc, MAX_LOG_CALLS);
    for piece in bytes.chunks(size.max(1)) {
        reader.take(piece)?;
    }
    reader.finish()
}

/// What `evidence`, `witness` or else `judge` returns.
pub(crate) fn verdict(
    alloc: Global,
    history: &History,
    name: &str,
    k: u32,
    tries: u64,
) -> Result<String, AllocError> {
    if k < 1 || k > 64 {
        return no_such_k(alloc, k);
    }
    if name == "evidence" {
        let found = kfifo_verdict::evidence(alloc, history, k)?;
        told(alloc, &found)
    } else if name == "witness" {
        let found = kfifo_verdict::witness(alloc, history, k, tries)?;
        told(alloc, &found)
    } else {
        let found = kfifo_verdict::judge(alloc, history, k, tries)?;
        told(alloc, &found)
    }
}

pub(crate) fn bounds(alloc: Global, history: &History, tries: u64) -> Result<String, AllocError> {
    let found = kfifo_verdict::least_k(alloc, history, tries)?;
    told(alloc, &found)
}

/// A picture; the line of another k in place of one.
pub(crate) fn draw(
    alloc: Global,
    history: &History,
    style: Style,
    k: u32,
    part: Part<'_>,
    marking: Marking<'_>,
) -> Result<String, DrawFault> {
    if k < 1 || k > 64 {
        return Ok(no_such_k(alloc, k)?);
    }
    let drawing = Drawing {
        style,
        part,
        marking,
        k,
        logged: &[],
    };
    kfifo_draw::draw(alloc, history, &drawing)
}
