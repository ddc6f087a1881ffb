//! Histories, as the texts of their records.
ghost use Rattle.std.specs.Prelude.{◌≡◌, ◌≤◌, IfOk, length, string_bytes};
ghost use Rattle.kfifo_model.specs.declared.reading.TheConstants.{MAX_CALLS};
ghost use Rattle.serde_json.specs.View.{view};
ghost use Rattle.kfifo_model.specs.RecordTexts.{IsRecordText, line};
ghost use Rattle.kfifo_model.specs.RecordTexts as words;

use crate::calls::{Answer, Call, End, Op};
use crate::history::History;
use serde_json::{Value, json};
use std::alloc::{AllocError, Global};

/// The record of a history: one line of compact JSON with no line feed, the keys of each call in order of bytes. Up to
/// 65,536 calls, as many as a record may have, who reads it has this history.
pub fn record_text(alloc: Global, history: &History) -> Result<String, AllocError>
    ensures text { IfOk result (λ text. string_bytes text ≡ words.record_text history.now) }
    ensures read_back { IfOk result (λ text. length history.now ≤ MAX_CALLS
        → IsRecordText (string_bytes text) history.now) }
{
    record_value(alloc, history.calls())?.to_string(alloc)
}

/// The line of the record of a history of as many calls as a record may have.
pub fn record_line(alloc: Global, history: &History) -> Result<String, AllocError>
    requires { length history.now ≤ MAX_CALLS }
    ensures line { IfOk result (λ text. string_bytes text ≡ line (words.record_text history.now)) }
    ensures read_back { IfOk result (λ text. IsRecordText (words.record_text history.now) history.now) }
{
    let mut text = record_text(alloc, history)?;
    text.push('\n')?;
    Ok(text)
}

/// The array of these calls.
fn record_value(alloc: Global, calls: &[Call]) -> Result<Value, AllocError>
    ensures { IfOk result (λ value. view value ≡ words.record_value calls.now) }
{
    let mut members = Vec::with_capacity(alloc, calls.len())?;
    for call in calls {
        members.push(call_value(alloc, call)?)?;
    }
    Ok(Value::Array(members))
}

/// The object of a call.
fn call_value(alloc: Global, call: &Call) -> Result<Value, AllocError>
    ensures { IfOk result (λ value. view value ≡ words.call_value call.now) }
{
    let op = call.op.word();
    let (first, thread) = (call.first, call.thread);
    match (call.end, item_of(call)) {
        (Some(end), Some(item)) => json!(in alloc; {
            "answer": end.answer.word(), "first": first, "item": item, "last": end.last, "op": op,
                "thread": thread
        }),
        (Some(end), None) => json!(in alloc; {
            "answer": end.answer.word(), "first": first, "last": end.last, "op": op, "thread": thread
        }),
        (None, Some(item)) => {
            json!(in alloc; {"first": first, "item": item, "op": op, "thread": thread})
        }
        (None, None) => json!(in alloc; {"first": first, "op": op, "thread": thread}),
    }
}

/// The item that a call puts, or that it got.
fn item_of(call: &Call) -> Option<u32>
    ensures { result ≡ words.item_of call.now.op call.now.end }
{
    match (call.op, call.end) {
        (Op::Enqueue(item), _) => Some(item),
        (
            Op::Dequeue,
            Some(
                End {
                    answer: Answer::Got(item),
                    ..
                },
            ),
        ) => Some(item),
        _ => None,
    }
}
