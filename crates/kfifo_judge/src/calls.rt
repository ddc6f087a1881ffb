//! The line of a call that a reason names.
ghost use Rattle.std.specs.Prelude.{◌≡◌, ◌++◌, Bool, OnOk, slice_get, string_bytes, take};
ghost use Rattle.kfifo_model.specs.Histories.{call, does, effect_of};
ghost use Rattle.kfifo_model.specs.Overtaking.{takes};
ghost use Rattle.kfifo_judge.specs.Calls.{call_line, call_lines, details_text, effect_text, fate_part, in_log};
ghost use Rattle.kfifo_judge.specs.Calls.{in_record, item_in, last_part, name_text, occurrence, taker, taker_part};
ghost use Rattle.kfifo_judge.specs.Calls.{times_text};

use kfifo_model::{Call, Effect, History, LoggedCall, Op};
use std::alloc::AllocError;
use std::fmt::Write;

/// A call past the last one.
const NO_CALL: Call = Call {
    thread: 0,
    op: Op::Dequeue,
    first: 0,
    end: None,
};

/// When a call was, and where it stands in its log.
#[derive(Clone, Copy)]
pub(crate) struct Occurrence {
    /// The number of its line; none of a call of a record.
    pub(crate) line: Option<u64>,
    /// When it began.
    pub(crate) first: u64,
    /// When it ended; none of an unfinished call.
    pub(crate) last: Option<u64>,
}

/// The call with this number.
pub(crate) fn call_at(history: &History, number: usize) -> Call
    ensures { result ≡ call history.now number }
{
    history.calls().get(number).copied().unwrap_or(NO_CALL)
}

/// What the call with this number did.
pub(crate) fn effect_at(history: &History, number: usize) -> Effect
    ensures { result ≡ does history.now number }
{
    call_at(history, number).effect()
}

/// When a call of a record was.
fn in_record(call: &Call) -> Occurrence
    ensures { result ≡ in_record call.now }
{
    Occurrence {
        line: None,
        first: call.first,
        last: call.end.map(|end| end.last),
    }
}

/// When a call of a log was.
fn in_log(logged: &LoggedCall) -> Occurrence
    ensures { result ≡ in_log logged.now }
{
    Occurrence {
        line: Some(logged.line),
        first: logged.first,
        last: logged.last,
    }
}

/// When the call with this number was, by the log if it is one of a log.
pub(crate) fn occurrence_of(logged: &[LoggedCall], call: &Call, number: usize) -> Occurrence
    ensures { result ≡ occurrence logged.now call.now number }
{
    match logged.get(number) {
        Some(logged) => in_log(logged),
        None => in_record(call),
    }
}

/// What the log says of the call with this number, if it is one of a log.
pub(crate) fn logged_at(logged: &[LoggedCall], number: usize) -> Option<LoggedCall>
    ensures { result ≡ slice_get logged.now number }
{
    logged.get(number).copied()
}

/// The item of a call, as its log has it if it is one of a log.
pub(crate) fn item_in(logged: Option<LoggedCall>, item: u32) -> u64
    ensures { result ≡ item_in logged item }
{
    match logged {
        Some(logged) => logged.item.unwrap_or(u64::from(item)),
        None => u64::from(item),
    }
}

/// Whether the call got the item.
fn takes(call: &Call, item: u32) -> bool
    ensures { result ≡ takes item (effect_of call.now) }
{
    match call.effect() {
        Effect::Takes(got) => item == got,
        _ => false,
    }
}

/// The first call that got the item.
fn taker_of(history: &History, item: u32) -> Option<usize>
    ensures { result ≡ taker history.now item }
{
    history.calls().iter().position(|call| takes(call, item))
}

/// Adds the number of a call, and its line in a log.
fn push_name(text: &mut String, number: usize, line: Option<u64>) -> Result<(), AllocError>
    ensures { OnOk result (string_bytes text.new ≡ string_bytes text.old ++ name_text number line) }
{
    write!(text, "  call {number}")?;
    match line {
        Some(line) => write!(text, ", line {line}"),
        None => Ok(()),
    }
}

/// Adds what a call did, with its item as the log has it.
fn push_effect(
    text: &mut String,
    logged: Option<LoggedCall>,
    effect: Effect,
) -> Result<(), AllocError>
    ensures { OnOk result (string_bytes text.new ≡ string_bytes text.old ++ effect_text logged effect) }
{
    match effect {
        Effect::Adds(item) => {
            let item = item_in(logged, item);
            write!(text, "put {item}")
        }
        Effect::Takes(item) => {
            let item = item_in(logged, item);
            write!(text, "got {item}")
        }
        Effect::FindsNone => text.push_str("found nothing"),
        Effect::Refused | Effect::Wrong => text.push_str("changed nothing"),
    }
}

/// Adds when a call was.
fn push_times(text: &mut String, occurrence: Occurrence) -> Result<(), AllocError>
    ensures { OnOk result (string_bytes text.new ≡ string_bytes text.old ++ times_text occurrence) }
{
    let first = occurrence.first;
    write!(text, " from {first}")?;
    match occurrence.last {
        Some(last) => write!(text, " to {last}"),
        None => text.push_str(" on"),
    }
}

/// Adds, after a put, which call got its item.
fn push_fate(text: &mut String, history: &History, effect: Effect) -> Result<(), AllocError>
    ensures { OnOk result (string_bytes text.new ≡ string_bytes text.old ++ fate_part history.now effect) }
{
    let Effect::Adds(item) = effect else {
        return Ok(());
    };
    match taker_of(history, item) {
        Some(get) => write!(text, ", got by call {get}"),
        None => text.push_str(", never got"),
    }
}

/// Adds what a call did, when it did, and what became of the item that it put.
fn push_details(
    text: &mut String,
    history: &History,
    logged: Option<LoggedCall>,
    thread: u32,
    effect: Effect,
    occurrence: Occurrence,
) -> Result<(), AllocError>
    ensures { OnOk result (string_bytes text.new
        ≡ string_bytes text.old ++ details_text history.now logged thread effect occurrence) }
{
    write!(text, ": thread {thread} ")?;
    push_effect(text, logged, effect)?;
    push_times(text, occurrence)?;
    push_fate(text, history, effect)
}

/// Adds the line of the call with this number.
fn push_call(
    text: &mut String,
    history: &History,
    logged: &[LoggedCall],
    number: usize,
) -> Result<(), AllocError>
    ensures { OnOk result (string_bytes text.new
        ≡ string_bytes text.old ++ call_line logged.now history.now number) }
{
    let call = call_at(history, number);
    let occurrence = occurrence_of(logged, &call, number);
    let logged = logged_at(logged, number);
    push_name(text, number, occurrence.line)?;
    push_details(
        text,
        history,
        logged,
        call.thread,
        call.effect(),
        occurrence,
    )?;
    text.push('\n')
}

/// The first of these calls, so many at most.
#[tactic(auto, using(std::proofs::lemmas::List::take_min))]
pub(crate) fn first_of(calls: &[usize], most: usize) -> &[usize]
    ensures { result.now ≡ take most calls.now }
{
    let few = most.min(calls.len());
    &calls[..few]
}

/// Adds the lines of these calls.
pub(crate) fn push_calls(
    text: &mut String,
    history: &History,
    logged: &[LoggedCall],
    calls: &[usize],
) -> Result<(), AllocError>
    ensures { OnOk result (string_bytes text.new
        ≡ string_bytes text.old ++ call_lines logged.now history.now calls.now) }
{
    for call in calls {
        push_call(text, history, logged, *call)?;
    }
    Ok(())
}
