//! What evidence says of the queue: the number and the name of its kind, and a line in words.
ghost use Rattle.std.specs.Prelude.{◌≡◌, ◌++◌, IfOk, OnOk, string_bytes};
ghost use Rattle.kfifo_judge.specs.Headlines as specs;
ghost use Rattle.kfifo_judge.specs.Headlines.{added, headline_text, item_text, items_text, older_text, put_item};

use crate::calls::{effect_at, item_in, logged_at};
use crate::reasons::item_got;
use kfifo_model::{Effect, History, LoggedCall};
use kfifo_verdict::Evidence;
use std::alloc::{AllocError, Global};
use std::fmt::Write;

/// Returns the number of a kind of evidence, 1 to 7, as its documentation has it.
pub fn kind_number(found: &Evidence) -> u32
    ensures { result ≡ specs.kind_number found.now }
{
    match found {
        Evidence::NeverPut(_) => 1,
        Evidence::TakenTwice(_) => 2,
        Evidence::NotEmpty { .. } => 3,
        Evidence::TooYoung { .. } => 4,
        Evidence::TakenTooSoon(_) => 5,
        Evidence::ItemsLeft(_) => 6,
        Evidence::OlderLeft { .. } => 7,
    }
}

/// Returns the name of a kind of evidence, as `too young`.
pub fn kind_name(found: &Evidence) -> &'static str
    ensures { result.now ≡ specs.kind_name found.now }
{
    match found {
        Evidence::NeverPut(_) => "never put",
        Evidence::TakenTwice(_) => "taken twice",
        Evidence::NotEmpty { .. } => "not empty",
        Evidence::TooYoung { .. } => "too young",
        Evidence::TakenTooSoon(_) => "taken too soon",
        Evidence::ItemsLeft(_) => "items left",
        Evidence::OlderLeft { .. } => "older left",
    }
}

/// The item that is put, 0 where none is.
fn added(effect: Effect) -> u32
    ensures { result ≡ added effect }
{
    match effect {
        Effect::Adds(item) => item,
        _ => 0,
    }
}

/// The item that the call with this number put, as its log has it if it is one of a log.
fn item_put(history: &History, logged: &[LoggedCall], number: usize) -> u64
    ensures { result ≡ put_item logged.now history.now number }
{
    item_in(logged_at(logged, number), added(effect_at(history, number)))
}

/// Adds an item, and what is said of it.
fn push_item(text: &mut String, item: u64, said: &str) -> Result<(), AllocError>
    ensures { OnOk result (string_bytes text.new ≡ string_bytes text.old ++ item_text item said.now) }
{
    write!(text, "item {item}{said}")
}

/// Adds the item of the only one of these puts, or how many they are, and what is said of them.
fn push_items(
    text: &mut String,
    history: &History,
    logged: &[LoggedCall],
    puts: &[usize],
    said: &str,
) -> Result<(), AllocError>
    ensures { OnOk result (string_bytes text.new
        ≡ string_bytes text.old ++ items_text logged.now history.now puts.now said.now) }
{
    let count = puts.len();
    if count == 1 {
        let put = puts.get(0).copied().unwrap_or(0);
        push_item(text, item_put(history, logged, put), said)
    } else {
        write!(text, "{count} items{said}")
    }
}

/// Adds an item that came out before others that had gone in before, and what is said of these.
fn push_older(
    text: &mut String,
    history: &History,
    logged: &[LoggedCall],
    item: u64,
    puts: &[usize],
    said: &str,
) -> Result<(), AllocError>
    ensures { OnOk result (string_bytes text.new
        ≡ string_bytes text.old ++ older_text logged.now history.now item puts.now said.now) }
{
    push_item(text, item, " came out, and ")?;
    push_items(text, history, logged, puts, said)
}

/// Adds what the evidence says of the queue.
fn push_headline(
    text: &mut String,
    history: &History,
    logged: &[LoggedCall],
    found: &Evidence,
) -> Result<(), AllocError>
    ensures { OnOk result (string_bytes text.new
        ≡ string_bytes text.old ++ headline_text logged.now history.now found.now) }
{
    let item = item_got(history, logged, found.call());
    match found {
        Evidence::NeverPut(_) => push_item(text, item, " came out, which no call had put"),
        Evidence::TakenTwice(_) => push_item(text, item, " came out more often than it went in"),
        Evidence::NotEmpty { puts, .. } => {
            text.push_str("a get found nothing, while the queue held ")?;
            push_items(text, history, logged, puts.as_slice(), "")
        }
        Evidence::TooYoung { puts, .. } => {
            let said = ", which went in before, had not";
            push_older(text, history, logged, item, puts.as_slice(), said)
        }
        Evidence::TakenTooSoon(_) => {
            let said = " came out more often than it had gone in by then";
            push_item(text, item, said)
        }
        Evidence::ItemsLeft(_) => text.push_str(
            "a get found nothing, while some item had gone in more often than come out",
        ),
        Evidence::OlderLeft { puts, .. } => {
            let said = ", which went in before, stayed";
            push_older(text, history, logged, item, puts.as_slice(), said)
        }
    }
}

/// Returns in words what evidence says of the queue, as `item 2 came out, and item 1, which went in before, had not`,
/// without a line feed. Items are as the log has them. An error means that an allocation failed.
pub fn headline(
    alloc: Global,
    history: &History,
    logged: &[LoggedCall],
    found: &Evidence,
) -> Result<String, AllocError>
    ensures { IfOk result (λ text. string_bytes text ≡ headline_text logged.now history.now found.now) }
{
    let mut text = String::new(alloc);
    push_headline(&mut text, history, logged, found)?;
    Ok(text)
}
