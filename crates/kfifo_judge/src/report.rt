//! A verdict as data, in a line of JSON.
ghost use Rattle.std.specs.Prelude.{◌≡◌, ◌≤◌, false, IfOk, map, option_map, string_bytes};
ghost use Rattle.serde_json.specs.Data.{array};
ghost use Rattle.serde_json.specs.View.{items_of, view};
ghost use Rattle.serde_json.specs.Written.{compact_text, has_float};
ghost use Rattle.kfifo_model.specs.RecordTexts.{line, whole};
ghost use Rattle.kfifo_judge.specs.Reports as specs;
ghost use Rattle.kfifo_judge.specs.Reports.{IsReport};

use crate::headlines::{headline, kind_name, kind_number};
use crate::judgement::{Judged, judged_text, outcome_of};
use crate::named::{NamedCall, named_call};
use crate::outcome::Outcome;
use crate::reasons::named_calls;
use kfifo_model::{Effect, End, History, LoggedCall};
use kfifo_verdict::{Bounds, Judgement};
use serde_json::{Value, json};
use std::alloc::{AllocError, Global};

/// A number, or null where there is none.
fn number_or_null(number: Option<u64>) -> Value
    ensures { view result ≡ specs.number_or_null number }
{
    match number {
        Some(number) => Value::from(number),
        None => Value::Null,
    }
}

/// A text, or null where there is none.
fn text_or_null(alloc: Global, text: Option<&str>) -> Result<Value, AllocError>
    ensures { let given = option_map (λ t. t.now) text.entry in
        IfOk result (λ value. view value ≡ specs.text_or_null given) }
{
    match text {
        Some(text) => json!(in alloc; text),
        None => Ok(Value::Null),
    }
}

/// The answer of a call, or null where it has not ended.
fn answer_or_null(alloc: Global, end: Option<End>) -> Result<Value, AllocError>
    ensures { IfOk result (λ value. view value ≡ specs.answer_or_null end) }
{
    match end {
        Some(end) => json!(in alloc; end.answer.word()),
        None => Ok(Value::Null),
    }
}

/// The item that a call put or got, or null where it did neither.
fn item_or_null(named: &NamedCall) -> Value
    ensures { view result ≡ specs.item_or_null named.now }
{
    match named.call.effect() {
        Effect::Adds(_) | Effect::Takes(_) => Value::from(named.item),
        Effect::FindsNone | Effect::Refused | Effect::Wrong => Value::Null,
    }
}

/// A call that a reason names.
fn named_value(alloc: Global, named: &NamedCall) -> Result<Value, AllocError>
    ensures { IfOk result (λ value. view value ≡ specs.named_value named.now) }
{
    let answer = answer_or_null(alloc, named.call.end)?;
    let item = item_or_null(named);
    let (last, line) = (number_or_null(named.last), number_or_null(named.line));
    let (op, thread) = (named.call.op.word(), named.call.thread);
    let (first, number) = (named.first, named.number);
    json!(in alloc; {
        "answer": answer, "first": first, "item": item, "last": last, "line": line, "number": number, "op": op,
            "thread": thread
    })
}

/// The calls with these numbers.
fn named_values(
    alloc: Global,
    history: &History,
    logged: &[LoggedCall],
    numbers: &[usize],
) -> Result<Value, AllocError>
    ensures { IfOk result (λ value. view value ≡ specs.named_values logged.now history.now numbers.now) }
{
    let mut values = Vec::with_capacity(alloc, numbers.len())?;
    for number in numbers {
        let named = named_call(history, logged, *number);
        values.push(named_value(alloc, &named)?)?;
    }
    Ok(Value::Array(values))
}

/// The evidence of a verdict: its kind by number and name, what it says of the queue, and the calls that it names; or
/// null where the verdict has none.
fn evidence_in(
    alloc: Global,
    history: &History,
    logged: &[LoggedCall],
    judgement: &Judgement,
) -> Result<Value, AllocError>
    ensures { IfOk result (λ value. view value ≡ specs.evidence_in logged.now history.now judgement.now) }
{
    let Judgement::NoOrder(found) = judgement else {
        return Ok(Value::Null);
    };
    let said = headline(alloc, history, logged, found)?;
    let (kind, name) = (kind_number(found), kind_name(found));
    let numbers = named_calls(alloc, history, found)?;
    let named = named_values(alloc, history, logged, numbers.as_slice())?;
    json!(in alloc; {"headline": said, "kind": kind, "name": name, "named": named})
}

/// An array of numbers.
fn numbers_value(alloc: Global, numbers: &[usize]) -> Result<Value, AllocError>
    ensures { IfOk result (λ value. view value ≡ array (items_of (map whole numbers.now))) }
{
    let mut values = Vec::with_capacity(alloc, numbers.len())?;
    for number in numbers {
        values.push(Value::from(*number))?;
    }
    Ok(Value::Array(values))
}

/// The order that was found, where it is to be shown; else null.
fn order_in(alloc: Global, show: bool, judgement: &Judgement) -> Result<Value, AllocError>
    ensures { IfOk result (λ value. view value ≡ specs.order_in show judgement.now) }
{
    match judgement {
        Judgement::Legal(order) => {
            if show {
                numbers_value(alloc, order)
            } else {
                Ok(Value::Null)
            }
        }
        Judgement::NoOrder(_) | Judgement::Undecided(_) => Ok(Value::Null),
    }
}

/// After how many tries the search for an order gave up, or null where there is a verdict.
fn tries_in(judgement: &Judgement) -> Value
    ensures { view result ≡ specs.tries_in judgement.now }
{
    match judgement {
        Judgement::Undecided(stuck) => Value::from(stuck.tries()),
        Judgement::Legal(_) | Judgement::NoOrder(_) => Value::Null,
    }
}

/// The verdict in words.
fn status_of(judgement: &Judgement) -> &'static str
    ensures { result.now ≡ specs.status_of judgement.now }
{
    match judgement {
        Judgement::Legal(_) => "legal",
        Judgement::NoOrder(_) => "no order",
        Judgement::Undecided(_) => "undecided",
    }
}

/// The bounds of the least k, or null where they are not said.
fn least_in(alloc: Global, bounds: Option<Bounds>) -> Result<Value, AllocError>
    ensures { IfOk result (λ value. view value ≡ specs.least_in bounds) }
{
    match bounds {
        Some(bounds) => bounds_value(alloc, bounds),
        None => Ok(Value::Null),
    }
}

/// Bounds of the least k.
fn bounds_value(alloc: Global, bounds: Bounds) -> Result<Value, AllocError>
    ensures { IfOk result (λ value. view value ≡ specs.bounds_value bounds) }
{
    let at_most = number_or_null(bounds.at_most.map(u64::from));
    json!(in alloc; {"at_least": bounds.at_least, "at_most": at_most})
}

/// The line of a value.
fn line_of(alloc: Global, value: &Value) -> Result<String, AllocError>
    ensures { has_float (view value.now) ≡ false
        → IfOk result (λ text. string_bytes text ≡ line (compact_text (view value.now))) }
{
    let mut text = value.to_string(alloc)?;
    text.push('\n')?;
    Ok(text)
}

/// The object of a verdict.
fn report_value(
    alloc: Global,
    file: Option<&str>,
    history: &History,
    logged: &[LoggedCall],
    k: u32,
    show: bool,
    judged: &Judged,
) -> Result<Value, AllocError>
    ensures { let name = option_map (λ t. t.now) file.entry in IfOk result (λ value.
        view value ≡ specs.report_value name k show logged.now history.now judged.now) }
{
    let judgement = &judged.judgement;
    let evidence = evidence_in(alloc, history, logged, judgement)?;
    let file = text_or_null(alloc, file)?;
    let least = least_in(alloc, judged.bounds)?;
    let order = order_in(alloc, show, judgement)?;
    let (status, tries) = (status_of(judgement), tries_in(judgement));
    let (calls, left, text) = (history.calls().len(), judged.left, judged.text.as_str());
    json!(in alloc; {
        "calls": calls, "evidence": evidence, "file": file, "k": k, "least": least, "left": left, "order": order,
            "status": status, "text": text, "tries": tries
    })
}

/// Returns a verdict on a history, for a queue that may give any of its k oldest items, 1 to 64, as one line of JSON:
/// an object with the verdict (`status`), the text of `judge_text`, how many calls were judged and items left, and of
/// `no order` the evidence, with its kind by number and name, a headline and the calls that it names, and the bounds of
/// the least k where the text says them, and of `undecided` after how many tries the search gave up. What does not
/// apply is null. `file` is the name of the file that was judged, null where there is none; `order` is there where it
/// is to be shown. An error means that an allocation failed.
pub fn judge_report(
    alloc: Global,
    file: Option<&str>,
    history: &History,
    logged: &[LoggedCall],
    k: u32,
    tries: u64,
    show: bool,
) -> Result<(String, Outcome), AllocError>
    requires { (1 ≤ k) × (k ≤ 64) }
    ensures { let name = option_map (λ t. t.now) file.entry in IfOk result (λ a.
        IsReport name k show logged.now history.now (string_bytes a.0) a.1) }
{
    let judged = judged_text(alloc, history, logged, k, tries, show)?;
    let value = report_value(alloc, file, history, logged, k, show, &judged)?;
    let text = line_of(alloc, &value)?;
    Ok((text, outcome_of(&judged.judgement)))
}

/// Returns the line of JSON for a file that has no verdict: an object with its name, the status `fault`, the fault, and
/// what is wrong in words. An error means that an allocation failed.
pub fn fault_report(
    alloc: Global,
    file: &str,
    fault: &str,
    words: &str,
) -> Result<String, AllocError>
    ensures { IfOk result (λ text. string_bytes text ≡ specs.fault_report file.now fault.now words.now) }
{
    let value = fault_value(alloc, file, fault, words)?;
    line_of(alloc, &value)
}

/// The object of a file that has no verdict.
fn fault_value(alloc: Global, file: &str, fault: &str, words: &str) -> Result<Value, AllocError>
    ensures { IfOk result (λ value. view value ≡ specs.fault_value file.now fault.now words.now) }
{
    json!(in alloc; {"fault": fault, "file": file, "status": "fault", "words": words})
}
