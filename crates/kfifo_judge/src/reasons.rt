//! Why a history has no legal order: the evidence, and the calls that it names.
ghost use Rattle.std.specs.Prelude.{◌≡◌, ◌++◌, IfOk, OnOk, option_map, string_bytes, take};
ghost use Rattle.kfifo_judge.specs.Reasons as specs;
ghost use Rattle.kfifo_judge.specs.Reasons.{title_text};
ghost use Rattle.kfifo_judge.specs.Reasons.{got_item, named_by, others, puts_part, reason_lines, reason_text};

use crate::calls::{effect_at, first_of, item_in, logged_at, push_calls};
use crate::numbers::push_joined;
use kfifo_model::{Effect, History, LoggedCall};
use kfifo_verdict::Evidence;
use std::alloc::{AllocError, Global};
use std::fmt::Write;

/// How many of the calls that evidence names have a line.
const MAX_LINES: usize = 32;

/// How many calls are named beside a get whose item was taken too often or too soon.
const MAX_OTHERS: usize = 31;

/// The item that is taken, 0 where none is.
fn taken(effect: Effect) -> u32
    ensures { result ≡ specs.taken effect }
{
    match effect {
        Effect::Takes(item) => item,
        _ => 0,
    }
}

/// The item that the call with this number got, as its log has it if it is one of a log.
pub(crate) fn item_got(history: &History, logged: &[LoggedCall], number: usize) -> u64
    ensures { result ≡ got_item logged.now history.now number }
{
    item_in(logged_at(logged, number), taken(effect_at(history, number)))
}

/// So many older items, in words without the number.
fn older_words(count: usize) -> &'static str
    ensures { result.now ≡ specs.older_words count }
{
    if count == 1 {
        "older item was"
    } else {
        "older items were"
    }
}

/// Adds what the evidence says, but for the numbers of the puts that it names. `logged` has what the log says of each
/// call, where the history is the record of a log.
fn push_reason(
    text: &mut String,
    history: &History,
    logged: &[LoggedCall],
    found: &Evidence,
) -> Result<(), AllocError>
    ensures { OnOk result (string_bytes text.new
        ≡ string_bytes text.old ++ reason_text logged.now history.now found.now) }
{
    let call = found.call();
    let item = item_got(history, logged, call);
    match found {
        Evidence::NeverPut(_) => write!(
            text,
            "call {call} got item {item}, which no call before its end put"
        ),
        Evidence::TakenTwice(_) => write!(
            text,
            "call {call} got item {item}, which was taken more often than put"
        ),
        Evidence::NotEmpty { .. } => {
            write!(text, "call {call} found nothing, while there were items")
        }
        Evidence::TooYoung { puts, .. } => {
            let (count, words) = (puts.len(), older_words(puts.len()));
            write!(
                text,
                "call {call} got item {item}, while {count} {words} there"
            )
        }
        Evidence::TakenTooSoon(_) => write!(
            text,
            "call {call} got item {item}, when more gets of it had ended than puts had begun"
        ),
        Evidence::ItemsLeft(_) => write!(
            text,
            "call {call} found nothing, while some item had been put more often than taken"
        ),
        Evidence::OlderLeft { puts, .. } => {
            let (count, words) = (puts.len(), older_words(puts.len()));
            write!(
                text,
                "call {call} got item {item}, though {count} {words} left"
            )
        }
    }
}

/// Adds the numbers of the puts that the evidence names, where it names any.
fn push_puts_named(text: &mut String, puts: Option<&[usize]>) -> Result<(), AllocError>
    ensures { let named = option_map (λ numbers. numbers.now) puts.entry in
        OnOk result (string_bytes text.new ≡ string_bytes text.old ++ puts_part named) }
{
    if let Some(puts) = puts {
        text.push_str(": calls ")?;
        push_joined(text, puts)?;
    }
    Ok(())
}

/// Whether a call puts the item or gets it.
fn moves(effect: Effect, item: u32) -> bool
    ensures { result ≡ specs.moves item effect }
{
    match effect {
        Effect::Adds(other) | Effect::Takes(other) => item == other,
        _ => false,
    }
}

/// Whether a call is another one than the get, and puts the item that this got, or gets it.
fn is_other(history: &History, get: usize, number: usize) -> bool
    ensures { result ≡ specs.is_other history.now get number }
{
    let item = taken(effect_at(history, get));
    number != get && moves(effect_at(history, number), item)
}

/// The other calls that put or got the item that a call got, in the order of their numbers.
fn others_of(alloc: Global, history: &History, get: usize) -> Result<Vec<usize>, AllocError>
    ensures { IfOk result (λ calls. calls.items ≡ others history.now get) }
{
    let mut calls = Vec::new(alloc);
    for number in 0..history.calls().len() {
        if is_other(history, get, number) {
            calls.push(number)?;
        }
    }
    Ok(calls)
}

/// Adds the others that put or got the item that a call got, 31 at most.
fn add_others(
    alloc: Global,
    calls: &mut Vec<usize>,
    history: &History,
    get: usize,
) -> Result<(), AllocError>
    ensures { OnOk result (calls.new.items ≡ calls.old.items ++ take 31 (others history.now get)) }
{
    let others = others_of(alloc, history, get)?;
    calls.extend_from_slice(first_of(others.as_slice(), MAX_OTHERS))
}

/// Returns the calls that evidence names: the one that got an item or found none, and then the puts, or of an item that
/// was taken too often or too soon the first others that put or got it, 31 at most. An error means that an allocation
/// failed.
pub fn named_calls(
    alloc: Global,
    history: &History,
    found: &Evidence,
) -> Result<Vec<usize>, AllocError>
    ensures { IfOk result (λ calls. calls.items ≡ named_by history.now found.now) }
{
    let mut calls = Vec::new(alloc);
    calls.push(found.call())?;
    match found {
        Evidence::TakenTwice(get) | Evidence::TakenTooSoon(get) => {
            add_others(alloc, &mut calls, history, *get)?;
        }
        Evidence::NotEmpty { puts, .. }
        | Evidence::TooYoung { puts, .. }
        | Evidence::OlderLeft { puts, .. } => calls.extend_from_slice(puts.as_slice())?,
        Evidence::NeverPut(_) | Evidence::ItemsLeft(_) => {}
    }
    Ok(calls)
}

/// How many of the calls that evidence names have a line.
fn lines_for(found: &Evidence) -> usize
    ensures { result ≡ specs.lines_for found.now }
{
    match found {
        Evidence::OlderLeft { .. } => 1,
        Evidence::NeverPut(_) | Evidence::TakenTwice(_) | Evidence::NotEmpty { .. } => MAX_LINES,
        Evidence::TooYoung { .. } | Evidence::TakenTooSoon(_) | Evidence::ItemsLeft(_) => MAX_LINES,
    }
}

/// Adds the evidence in a line, and the lines of the calls that it names.
pub(crate) fn push_reasons(
    alloc: Global,
    text: &mut String,
    history: &History,
    logged: &[LoggedCall],
    found: &Evidence,
) -> Result<(), AllocError>
    ensures { OnOk result (string_bytes text.new
        ≡ string_bytes text.old ++ reason_lines logged.now history.now found.now) }
{
    push_reason(text, history, logged, found)?;
    push_puts_named(text, found.puts())?;
    text.push('\n')?;
    let named = named_calls(alloc, history, found)?;
    let told = first_of(named.as_slice(), lines_for(found));
    push_calls(text, history, logged, told)
}

/// Returns the title of a picture of evidence: that there is no order for this k, and why, or that there is no
/// evidence. An error means that an allocation failed.
pub fn title_of(
    alloc: Global,
    history: &History,
    logged: &[LoggedCall],
    k: u32,
    found: &Option<Evidence>,
) -> Result<String, AllocError>
    ensures { IfOk result (λ text. string_bytes text ≡ title_text k logged.now history.now found.now) }
{
    let mut text = String::new(alloc);
    match found {
        Some(found) => {
            write!(text, "no order for k = {k}: ")?;
            push_reason(&mut text, history, logged, found)?;
        }
        None => write!(text, "no evidence for k = {k}")?,
    }
    Ok(text)
}
