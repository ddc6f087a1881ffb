//! Lines of histories and records.

use crate::expand::{expanded, places};
use crate::plain;
use crate::show::{add_shown, shown, shown_list};
use kfifo_model::{Answer, Call, End, History, Op, RecordFault};
use serde_json::Value;
use std::alloc::{AllocError, Global};
use test_laws::records::empty_takes;
use test_rows::{items, list, number, small};

/// What a call asks for.
fn op_of(word: &Value, item: u32) -> Op {
    if word.as_str().unwrap_or("") == "put" {
        Op::Enqueue(item)
    } else {
        Op::Dequeue
    }
}

/// What a call returned.
fn answer_of(word: &Value, item: u32) -> Answer {
    let word = word.as_str().unwrap_or("");
    if word == "done" {
        Answer::Done
    } else if word == "got" {
        Answer::Got(item)
    } else {
        Answer::Empty
    }
}

/// A call: thread, `put` or `take`, item, first step, and of a finished one the last step and the answer.
fn call_of(call: &[Value]) -> Option<Call> {
    match call {
        [thread, op, item, first, ending @ ..] => Some(Call {
            thread: small(thread),
            op: op_of(op, small(item)),
            first: number(first),
            end: end_of(ending, small(item)),
        }),
        _ => None,
    }
}

/// The end of a call, of its last step and its answer.
fn end_of(ending: &[Value], item: u32) -> Option<End> {
    match ending {
        [last, answer] => Some(End {
            last: number(last),
            answer: answer_of(answer, item),
        }),
        _ => None,
    }
}

/// A finished call of two steps, the nth of those that are made one after the other.
fn nth_call(n: usize, thread: u32, op: Op, answer: Answer) -> Call {
    let first = (n as u64).wrapping_mul(2);
    let end = End {
        last: first.wrapping_add(1),
        answer,
    };
    Call {
        thread,
        op,
        first,
        end: Some(end),
    }
}

/// Adds enqueues of these items, one after the other.
fn add_puts(items: &[u32], calls: &mut Vec<Call>) -> Result<(), AllocError> {
    for item in items {
        let call = nth_call(calls.len(), 0, Op::Enqueue(*item), Answer::Done);
        calls.push(call)?;
    }
    Ok(())
}

/// Adds dequeues that get these items, one after the other.
fn add_gots(items: &[u32], calls: &mut Vec<Call>) -> Result<(), AllocError> {
    for item in items {
        let call = nth_call(calls.len(), 1, Op::Dequeue, Answer::Got(*item));
        calls.push(call)?;
    }
    Ok(())
}

/// The calls of a row.
fn calls_of(alloc: Global, row: &Value) -> Result<Vec<Call>, AllocError> {
    let mut calls = Vec::new(alloc);
    for call in list(row, "calls") {
        if let Some(call) = call_of(items(call)) {
            calls.push(call)?;
        }
    }
    add_puts(expanded(alloc, list(row, "puts"))?.as_slice(), &mut calls)?;
    add_gots(expanded(alloc, list(row, "gots"))?.as_slice(), &mut calls)?;
    Ok(calls)
}

/// A call in short.
fn call_text(alloc: Global, call: &Call) -> Result<String, AllocError> {
    let (thread, op, first) = (call.thread, call.op, call.first);
    match call.end {
        Some(End { last, answer }) => {
            format!(in alloc; "{thread} {op:?} {first}-{last} {answer:?}")
        }
        None => format!(in alloc; "{thread} {op:?} {first}-"),
    }
}

/// The calls of a history in short.
pub fn calls_line(alloc: Global, history: &History) -> Result<String, AllocError> {
    let mut text = String::new(alloc);
    for call in history.calls() {
        if !text.is_empty() {
            text.push_str(", ")?;
        }
        text.push_str(call_text(alloc, call)?.as_str())?;
    }
    Ok(text)
}

/// What is said of an order for a queue with this k.
fn check_line(
    alloc: Global,
    history: &History,
    k: &Value,
    order: &Value,
) -> Result<String, AllocError> {
    let order = places(alloc, items(order))?;
    match plain::check_order(alloc, history, small(k), order.as_slice())? {
        Some(verdict) => shown(alloc, &verdict),
        None => "no queue has this k".to_string(alloc),
    }
}

/// The ranks in an order for a queue with this k.
fn ranks_line(
    alloc: Global,
    history: &History,
    k: &Value,
    order: &Value,
    listed: &[Value],
) -> Result<String, AllocError> {
    let order = places(alloc, items(order))?;
    match plain::ranks(alloc, history, small(k), order.as_slice()) {
        Some(Ok(ranks)) => shown_list(alloc, &ranks, listed),
        Some(Err(fault)) => shown(alloc, &fault),
        None => "no queue has this k".to_string(alloc),
    }
}

/// The k of these for which a queue has a legal order.
fn widths_line(alloc: Global, history: &History, widths: &[Value]) -> Result<String, AllocError> {
    let mut found = Vec::new(alloc);
    for k in expanded(alloc, widths)?.iter() {
        match plain::has_order(alloc, history, *k) {
            Some(Ok(true)) => found.push(*k)?,
            Some(Ok(false)) => {}
            Some(Err(fault)) => return shown(alloc, &fault),
            None => return "no queue has this k".to_string(alloc),
        }
    }
    shown(alloc, &found)
}

/// How often one enqueue is overtaken.
fn overtaken_line(alloc: Global, history: &History, call: &Value) -> Result<String, AllocError> {
    match plain::overtaken(history, small(call) as usize) {
        Ok(count) => shown(alloc, &count),
        Err(fault) => shown(alloc, &fault),
    }
}

/// The enqueues that are measured, their items, and how often each is overtaken.
fn measured_lines(
    alloc: Global,
    history: &History,
    listed: &[Value],
) -> Result<String, AllocError> {
    let measured = match plain::measure(alloc, history) {
        Ok(measured) => measured,
        Err(fault) => return shown(alloc, &fault),
    };
    let mut numbers = Vec::new(alloc);
    for one in &measured {
        numbers.push(one.call)?;
    }
    for one in &measured {
        numbers.push(one.item as usize)?;
    }
    for one in &measured {
        numbers.push(one.count)?;
    }
    shown_list(alloc, &numbers, listed)
}

/// The line of a question on a history.
fn ask_line(
    alloc: Global,
    history: &History,
    word: &str,
    given: &[Value],
) -> Result<String, AllocError> {
    match given {
        _ if word == "calls" => calls_line(alloc, history),
        _ if word == "measure" => measured_lines(alloc, history, given),
        _ if word == "widths" => widths_line(alloc, history, given),
        [call] => overtaken_line(alloc, history, call),
        [k, order] if word == "check" => check_line(alloc, history, k, order),
        [k, order, listed @ ..] => ranks_line(alloc, history, k, order, listed),
        _ => "no question".to_string(alloc),
    }
}

/// Adds the line of each question on a history.
pub fn add_asks(
    alloc: Global,
    history: &History,
    asks: &[Value],
    lines: &mut Vec<String>,
) -> Result<(), AllocError> {
    for ask in asks {
        if let [word, given @ ..] = items(ask) {
            let word = word.as_str().unwrap_or("");
            lines.push(ask_line(alloc, history, word, given)?)?;
        }
    }
    Ok(())
}

/// The number of a history's calls, as it is read and as `into_calls` returns them.
fn count_line(alloc: Global, history: History) -> Result<String, AllocError> {
    let read = history.calls().len();
    let handed_out = history.into_calls().len();
    format!(in alloc; "{read} calls, {handed_out} handed out")
}

/// Adds the lines of a history, or its fault.
fn add_built(
    alloc: Global,
    row: &Value,
    built: Result<History, RecordFault>,
    lines: &mut Vec<String>,
) -> Result<(), AllocError> {
    match built {
        Ok(history) => {
            add_asks(alloc, &history, list(row, "ask"), lines)?;
            lines.push(count_line(alloc, history)?)?;
            Ok(())
        }
        Err(fault) => add_shown(alloc, &fault, lines),
    }
}

/// Adds the lines of a history that is built of calls.
pub fn add_history(alloc: Global, row: &Value, lines: &mut Vec<String>) -> Result<(), AllocError> {
    let calls = calls_of(alloc, row)?;
    add_built(alloc, row, plain::new_history(calls), lines)
}

/// Adds the lines of a record that is read.
pub fn add_record(alloc: Global, row: &Value, lines: &mut Vec<String>) -> Result<(), AllocError> {
    match row.get("record") {
        Some(record) => add_built(alloc, row, plain::read_history(alloc, record), lines),
        None => add_long_record(alloc, row, lines),
    }
}

/// Adds the lines of a record of dequeues that found the queue empty.
fn add_long_record(alloc: Global, row: &Value, lines: &mut Vec<String>) -> Result<(), AllocError> {
    let text = empty_takes(alloc, row.get("empty_takes").map_or(0, small))?;
    match Value::from_str(alloc, text.as_str()) {
        Ok(record) => add_built(alloc, row, plain::read_history(alloc, &record), lines),
        Err(_fault) => add_shown(alloc, &"no record", lines),
    }
}
