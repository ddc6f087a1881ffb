//! What is said of a call.
use crate::marks::Marks;
use kfifo_model::{Answer, Call, LoggedCall, Op};
use std::alloc::{AllocError, Global};
use std::fmt::Write;

/// Adds the operation, with its item.
fn push_op(text: &mut String, op: Op) -> Result<(), AllocError> {
    text.push_str(op.word())?;
    match op {
        Op::Enqueue(item) => write!(text, " {item}"),
        Op::Dequeue => Ok(()),
    }
}

/// Adds an answer. The item that was got is the one that the log has.
fn push_answer(
    text: &mut String,
    answer: Answer,
    logged: Option<LoggedCall>,
) -> Result<(), AllocError> {
    text.push_str(answer.word())?;
    let Answer::Got(item) = answer else {
        return Ok(());
    };
    match logged.and_then(|logged| logged.item) {
        Some(item) => write!(text, " {item}"),
        None => write!(text, " {item}"),
    }
}

/// The label of a call: its number, what it asks for, its answer, its place in the order, and whether the order fails
/// at it or it is named.
pub(crate) fn label_of(
    alloc: Global,
    marks: &Marks,
    number: usize,
    call: &Call,
    logged: Option<LoggedCall>,
) -> Result<String, AllocError> {
    let mut text = String::new(alloc);
    write!(text, "{number}: ")?;
    push_op(&mut text, call.op)?;
    if let Some(end) = call.end {
        text.push(' ')?;
        push_answer(&mut text, end.answer, logged)?;
    }
    if let Some(place) = marks.place_of(number) {
        write!(text, " #{place}")?;
    }
    if marks.fails_at(number) {
        text.push_str(" fails")?;
    }
    if marks.names(number) {
        text.push_str(" named")?;
    }
    Ok(text)
}

/// Adds from when to when a call was: its steps, or where it stands in a log, its line and its times there.
fn push_when(text: &mut String, call: &Call, logged: Option<LoggedCall>) -> Result<(), AllocError> {
    let last = call.end.map(|end| end.last);
    let (unit, first, last) = match logged {
        Some(logged) => ("time", logged.first, logged.last),
        None => ("step", call.first, last),
    };
    match last {
        Some(last) => write!(text, ", {unit}s {first} to {last}")?,
        None => write!(text, ", from {unit} {first}")?,
    }
    if let Some(logged) = logged {
        let line = logged.line;
        write!(text, ", line {line} of the log")?;
    }
    Ok(())
}

/// Adds all that is known of the call with this number.
pub(crate) fn push_details(
    text: &mut String,
    marks: &Marks,
    number: usize,
    call: &Call,
    logged: Option<LoggedCall>,
) -> Result<(), AllocError> {
    let thread = call.thread;
    write!(text, "call {number}: thread {thread}, ")?;
    push_op(text, call.op)?;
    match call.end {
        Some(end) => {
            text.push_str(", answered ")?;
            push_answer(text, end.answer, logged)?;
        }
        None => text.push_str(", unfinished")?,
    }
    push_when(text, call, logged)?;
    if let Some(place) = marks.place_of(number) {
        write!(text, ", place {place} in the order")?;
    }
    if marks.fails_at(number) {
        text.push_str(", at which the order fails")?;
    }
    if marks.names(number) {
        text.push_str(", named by the verdict")?;
    }
    Ok(())
}

/// Adds the lines of a text, of at most so many characters each: it is broken at spaces and behind commas. What has
/// neither stays whole.
pub(crate) fn push_wrapped(
    alloc: Global,
    lines: &mut Vec<String>,
    text: &str,
    most: usize,
) -> Result<(), AllocError> {
    let mut line = String::new(alloc);
    for word in text.split(' ') {
        let mut is_first = true;
        for piece in word.split_inclusive(',') {
            let wide = line.len().saturating_add(1).saturating_add(piece.len());
            if wide > most && !line.is_empty() {
                lines.push(line)?;
                line = String::new(alloc);
            }
            if is_first && !line.is_empty() {
                line.push(' ')?;
            }
            line.push_str(piece)?;
            is_first = false;
        }
    }
    lines.push(line)?;
    Ok(())
}
