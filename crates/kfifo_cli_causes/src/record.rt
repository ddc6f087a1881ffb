//! Records in JSON.

use crate::call::{Call, Place};
use kfifo_model::RecordFault;
use serde_json::{Map, Value};
use std::alloc::{AllocError, Global};

/// How many characters of a value are shown.
const SHOWN: usize = 40;

/// The keys of a call.
const KEYS: [&str; 6] = ["thread", "op", "item", "first", "last", "answer"];

/// Returns which call of a record is at fault, its thread and item, and the value that stands there. None of faults of
/// no call, and where memory runs out. `bytes` are the record, which has this fault.
pub fn record_words(alloc: Global, bytes: &[u8], fault: RecordFault) -> Option<String> {
    let number = fault.call()?;
    let text = str::from_utf8(bytes).ok()?;
    let value = Value::from_str(alloc, text).ok()?;
    let members = value.as_array()?.as_slice();
    let member = members.get(number)?;
    if let RecordFault::NotACall(_) = fault {
        return no_call(alloc, number, member);
    }
    let call = call_of(number, member)?;
    match fault {
        RecordFault::NumberOutOfRange(_) => call.out_of_range(alloc),
        RecordFault::WrongAnswer(_) => {
            let answer = kfifo_import::shown(alloc, bytes_at(member, "answer")?).ok()?;
            call.wrong_answer(alloc, answer.as_str())
        }
        RecordFault::EndsEarly(_) => call.ends_early(alloc),
        RecordFault::OutOfOrder(_) => {
            let before = number.checked_sub(1)?;
            call.out_of_order(alloc, &call_of(before, members.get(before)?)?)
        }
        RecordFault::Overlap(_) => call.overlapped_by(alloc, &earlier_of(members, number, &call)?),
        RecordFault::NotAList
        | RecordFault::TooMany
        | RecordFault::NotACall(_)
        | RecordFault::Memory => None,
    }
}

/// The call of a member, where that is one.
fn call_of(number: usize, member: &Value) -> Option<Call<'_>> {
    Some(Call {
        place: Place::Call(number),
        thread: member.get("thread")?.as_u64()?,
        op: member.get("op")?.as_str()?,
        item: member.get("item").and_then(Value::as_u64),
        first: member.get("first")?.as_u64()?,
        last: member.get("last").and_then(Value::as_u64),
    })
}

/// The bytes of the text at a key.
fn bytes_at<'a>(member: &'a Value, key: &str) -> Option<&'a [u8]> {
    let text = member.get(key)?.as_str()?;
    Some(text.as_bytes())
}

/// The last call before this one that has not ended when it begins.
fn earlier_of<'a>(members: &'a [Value], number: usize, call: &Call<'_>) -> Option<Call<'a>> {
    let mut found = None;
    for (place, member) in members.iter().enumerate() {
        if place >= number {
            return found;
        }
        let earlier = call_of(place, member)?;
        if earlier.overlaps(call) {
            found = Some(earlier);
        }
    }
    found
}

/// A value as it is shown: its JSON, at most 40 characters of it.
fn shown(alloc: Global, value: &Value) -> Result<String, AllocError> {
    let text = value.to_string(alloc)?;
    let mut shown = String::new(alloc);
    for (number, letter) in text.as_str().chars().enumerate() {
        if number >= SHOWN {
            shown.push_str("..")?;
            return Ok(shown);
        }
        shown.push(letter)?;
    }
    Ok(shown)
}

/// What makes a member no call.
fn no_call(alloc: Global, number: usize, member: &Value) -> Option<String> {
    let Some(keys) = member.as_object() else {
        let text = shown(alloc, member).ok()?;
        return format!(in alloc; "call {number} is {text}, allowed is an object").ok();
    };
    if let Some(key) = unknown_key(keys) {
        let text = kfifo_import::shown(alloc, key.as_bytes()).ok()?;
        return format!(in alloc;
            "call {number} has the key {text}, allowed are thread, op, item, first, last and answer"
        ).ok();
    }
    let (key, allowed) = wrong_key(member)?;
    match member.get(key) {
        Some(value) => {
            let text = shown(alloc, value).ok()?;
            format!(in alloc; "call {number}: {key} is {text}, {allowed}").ok()
        }
        None => format!(in alloc; "call {number}: {key} is missing, {allowed}").ok(),
    }
}

/// A key that no call has.
fn unknown_key<'a>(keys: &'a Map<String, Value>) -> Option<&'a str> {
    for key in keys.keys() {
        if !KEYS.contains(&key.as_str()) {
            return Some(key.as_str());
        }
    }
    None
}

/// Whether a whole number stands at the key.
fn has_number(member: &Value, key: &str) -> bool {
    member.get(key).and_then(Value::as_u64).is_some()
}

/// The key whose value makes an object no call, and what is allowed there.
fn wrong_key(member: &Value) -> Option<(&'static str, &'static str)> {
    const WHOLE: &str = "allowed are whole numbers below 2^64";
    let op = member.get("op").and_then(Value::as_str).unwrap_or("");
    if !has_number(member, "thread") {
        return Some(("thread", WHOLE));
    }
    if op != "enq" && op != "deq" {
        return Some(("op", "allowed are \"enq\" and \"deq\""));
    }
    if !has_number(member, "first") {
        return Some(("first", WHOLE));
    }
    wrong_end(member).or(wrong_item(member, op))
}

/// The same among the keys that are there once the call has ended.
fn wrong_end(member: &Value) -> Option<(&'static str, &'static str)> {
    let ended = member.get("last").is_some() || member.get("answer").is_some();
    if ended && !has_number(member, "last") {
        return Some((
            "last",
            "allowed are whole numbers below 2^64, since the call has an answer",
        ));
    }
    if ended && bytes_at(member, "answer").is_none() {
        return Some((
            "answer",
            "allowed are \"done\", \"full\", \"got\", \"empty\", \"busy\" and \"worn\", since the call has a last",
        ));
    }
    None
}

/// The same at `item`, which an enqueue has, and a dequeue that got one.
fn wrong_item(member: &Value, op: &str) -> Option<(&'static str, &'static str)> {
    let has_one = op == "enq" || bytes_at(member, "answer") == Some("got".as_bytes());
    if has_one && !has_number(member, "item") {
        return Some((
            "item",
            "allowed are whole numbers, since the call put or got an item",
        ));
    }
    if !has_one && member.get("item").is_some() {
        return Some(("item", "allowed is no item, since the call got none"));
    }
    None
}
