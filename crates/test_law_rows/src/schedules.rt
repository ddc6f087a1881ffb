//! Lines of schedules.

use crate::expand::expanded;
use crate::histories::add_asks;
use crate::plain;
use crate::show::{add_shown, shown, shown_list};
use kfifo_linear::LinearFault;
use kfifo_machine::{Begin, Event, NotEnabled, Outcome, State};
use kfifo_model::{History, Verdict};
use kfifo_words::{Ends, Shape, Word};
use serde_json::Value;
use std::alloc::{AllocError, Global};
use std::fmt::Debug;
use test_rows::{items, list, small};

/// The machine of a schedule.
#[derive(Clone, Copy)]
struct Machine {
    shape: Shape,
    threads: u32,
}

/// What a call begins with.
pub fn begin_of(call: &[Value]) -> Option<Begin> {
    match call {
        [_put, item, start, turns] => Some(Begin::Enqueue {
            item: small(item),
            start: small(start),
            turns: u16::try_from(small(turns)).unwrap_or(0),
        }),
        [_take, start, turns] => Some(Begin::Dequeue {
            start: small(start),
            turns: u16::try_from(small(turns)).unwrap_or(0),
        }),
        [seal] if seal.as_str() == Some("seal") => Some(Begin::Seal),
        [_tick] => Some(Begin::Tick),
        _ => None,
    }
}

/// Adds so many events of each of the threads from one to another, in turn. The first event of a thread begins a call.
fn add_rounds(
    threads: &[u32],
    count: u32,
    begin: Option<Begin>,
    events: &mut Vec<Event>,
) -> Result<(), AllocError> {
    for round in 0..count {
        for thread in threads {
            events.push(Event {
                thread: *thread,
                begin: if round == 0 { begin } else { None },
            })?;
        }
    }
    Ok(())
}

/// Adds the events of a group.
fn add_group(alloc: Global, group: &[Value], events: &mut Vec<Event>) -> Result<(), AllocError> {
    if let [thread, count, call @ ..] = group {
        let threads = match items(thread) {
            [] => vec![in alloc; small(thread)]?,
            run => threads_of(alloc, run)?,
        };
        add_rounds(threads.as_slice(), small(count), begin_of(call), events)?;
    }
    Ok(())
}

/// The threads from the first to the last of a pair.
fn threads_of(alloc: Global, run: &[Value]) -> Result<Vec<u32>, AllocError> {
    let mut threads = Vec::new(alloc);
    if let [first, last] = run {
        for thread in small(first)..=small(last) {
            threads.push(thread)?;
        }
    }
    Ok(threads)
}

/// Adds the events of groups.
fn add_groups(alloc: Global, groups: &[Value], events: &mut Vec<Event>) -> Result<(), AllocError> {
    for group in groups {
        add_group(alloc, items(group), events)?;
    }
    Ok(())
}

/// The words of a table: the ends, the value and the version of each slot, and the clock.
fn table(alloc: Global, state: &State) -> Result<String, AllocError> {
    let ends = Ends::of_bits(plain::word(state, 0).unwrap_or(0));
    let (head, tail, version) = (ends.head(), ends.tail(), ends.version());
    let mut text = format!(in alloc; "{head} {tail} v{version}")?;
    let clock = state.shape().clock_index();
    for i in 1..clock {
        let word = Word::of_bits(plain::word(state, i).unwrap_or(0));
        let (value, version) = (word.value(), word.version());
        write!(text, ", {value} v{version}")?;
    }
    let ticks = plain::word(state, clock).unwrap_or(0);
    write!(text, ", {ticks}")?;
    Ok(text)
}

/// The threads that are in a call.
fn inside(alloc: Global, state: &State, threads: u32) -> Result<String, AllocError> {
    let mut found = Vec::new(alloc);
    for thread in 0..threads {
        if plain::is_inside(state, thread) {
            found.push(thread)?;
        }
    }
    shown(alloc, &found)
}

/// Makes events until one ends a call or is refused: how many were made, and what the last came to.
fn play(alloc: Global, state: &mut State, events: &[Event]) -> Result<String, AllocError> {
    let mut made: u32 = 0;
    let mut came = Ok(Outcome::Went);
    for event in events {
        came = plain::step(state, *event);
        if came.is_ok() {
            made = made.saturating_add(1);
        }
        if came != Ok(Outcome::Went) {
            break;
        }
    }
    came_line(alloc, made, came)
}

/// The line of events that were made.
fn came_line(
    alloc: Global,
    made: u32,
    came: Result<Outcome, NotEnabled>,
) -> Result<String, AllocError> {
    match came {
        Ok(Outcome::Ended(answer)) => format!(in alloc; "{made} {answer:?}"),
        Ok(Outcome::Went) => format!(in alloc; "{made} Went"),
        Err(fault) => format!(in alloc; "{made} {fault:?}"),
    }
}

/// Adds a line for each group that is played, and for each look at the machine.
fn add_played(
    alloc: Global,
    state: &mut State,
    threads: u32,
    groups: &[Value],
    lines: &mut Vec<String>,
) -> Result<(), AllocError> {
    for group in groups {
        let mut events = Vec::new(alloc);
        add_group(alloc, items(group), &mut events)?;
        let word = group.as_str().unwrap_or("");
        let line = if word == "table" {
            table(alloc, state)?
        } else if word == "inside" {
            inside(alloc, state, threads)?
        } else {
            play(alloc, state, events.as_slice())?
        };
        lines.push(line)?;
    }
    Ok(())
}

/// Starts a machine and plays the groups of a row on it.
fn add_started(
    alloc: Global,
    row: &Value,
    machine: Machine,
    lines: &mut Vec<String>,
) -> Result<(), AllocError> {
    match plain::start(alloc, machine.shape, machine.threads) {
        Ok(mut state) => {
            add_played(alloc, &mut state, machine.threads, list(row, "play"), lines)
        }
        Err(fault) => add_shown(alloc, &fault, lines),
    }
}

/// The line of a question on the machine after a run.
fn run_line(
    alloc: Global,
    machine: Machine,
    events: &[Event],
    word: &str,
) -> Result<String, AllocError> {
    match plain::run(alloc, machine.shape, machine.threads, events) {
        Ok(state) if word == "table" => table(alloc, &state),
        Ok(state) => inside(alloc, &state, machine.threads),
        Err(fault) => shown(alloc, &fault),
    }
}

/// The line of a list that the events come to, or of a fault.
fn list_line<T: Debug>(
    alloc: Global,
    found: &Result<Vec<T>, LinearFault>,
    listed: &[Value],
) -> Result<String, AllocError> {
    match found {
        Ok(list) => shown_list(alloc, list, listed),
        Err(fault) => shown(alloc, fault),
    }
}

/// For each k whether the linearization order is a legal order of the history.
fn legal_line(
    alloc: Global,
    machine: Machine,
    events: &[Event],
    history: &History,
    widths: &[Value],
) -> Result<String, AllocError> {
    let order = match plain::linearize(alloc, machine.shape, machine.threads, events) {
        Ok(order) => order,
        Err(fault) => return shown(alloc, &fault),
    };
    let mut found = Vec::new(alloc);
    for k in expanded(alloc, widths)?.iter() {
        let verdict = plain::check_order(alloc, history, *k, order.as_slice())?;
        found.push(verdict == Some(Verdict::Legal))?;
    }
    shown(alloc, &found)
}

/// The same of the history that these events make.
fn made_legal_line(
    alloc: Global,
    machine: Machine,
    events: &[Event],
    widths: &[Value],
) -> Result<String, AllocError> {
    match plain::history(alloc, machine.shape, machine.threads, events) {
        Ok(history) => legal_line(alloc, machine, events, &history, widths),
        Err(fault) => shown(alloc, &fault),
    }
}

/// The line of a question on the whole schedule.
fn whole_line(
    alloc: Global,
    machine: Machine,
    events: &[Event],
    word: &str,
    listed: &[Value],
) -> Result<String, AllocError> {
    if word == "order" {
        let order = plain::linearize(alloc, machine.shape, machine.threads, events);
        list_line(alloc, &order, listed)
    } else if word == "points" {
        let points = plain::linearization_points(alloc, machine.shape, machine.threads, events);
        list_line(alloc, &points, listed)
    } else if word == "legal" {
        made_legal_line(alloc, machine, events, listed)
    } else if word == "events" {
        shown(alloc, &events.len())
    } else {
        run_line(alloc, machine, events, word)
    }
}

/// Adds the line of each question on the whole schedule.
fn add_whole(
    alloc: Global,
    row: &Value,
    machine: Machine,
    events: &[Event],
    lines: &mut Vec<String>,
) -> Result<(), AllocError> {
    for ask in list(row, "ask") {
        if let [word, listed @ ..] = items(ask) {
            let word = word.as_str().unwrap_or("");
            lines.push(whole_line(alloc, machine, events, word, listed)?)?;
        }
    }
    Ok(())
}

/// Adds the line of each question on the history of a schedule.
fn add_history(
    alloc: Global,
    row: &Value,
    machine: Machine,
    events: &[Event],
    lines: &mut Vec<String>,
) -> Result<(), AllocError> {
    let asks = list(row, "history");
    if asks.is_empty() {
        return Ok(());
    }
    match plain::history(alloc, machine.shape, machine.threads, events) {
        Ok(history) => add_asks(alloc, &history, asks, lines),
        Err(fault) => add_shown(alloc, &fault, lines),
    }
}

/// What a thread begins that draws this number: an enqueue of an item of its own, or a dequeue.
fn drawn(number: u32, k: u32, item: u32) -> Begin {
    let start = number.checked_rem(k).unwrap_or(0);
    if number % 2 == 0 {
        Begin::Enqueue {
            item,
            start,
            turns: 2,
        }
    } else {
        Begin::Dequeue { start, turns: 2 }
    }
}

/// Plays a schedule in which a linear congruential generator draws who goes next, and keeps the events that are made.
fn add_drawn(
    state: &mut State,
    threads: u32,
    length: u32,
    events: &mut Vec<Event>,
) -> Result<(), AllocError> {
    let k = state.shape().k();
    let mut number: u32 = 1;
    for item in 1..=length {
        number = number.wrapping_mul(1_664_525).wrapping_add(1_013_904_223);
        let thread = (number >> 16).checked_rem(threads).unwrap_or(0);
        let begin = if plain::is_inside(state, thread) {
            None
        } else {
            Some(drawn(number >> 20, k, item))
        };
        let event = Event { thread, begin };
        if plain::step(state, event).is_ok() {
            events.push(event)?;
        }
    }
    Ok(())
}

/// Adds the events of a row: those that are played, those that stand there alone, and those that are drawn.
fn add_events(
    alloc: Global,
    row: &Value,
    machine: Machine,
    events: &mut Vec<Event>,
) -> Result<(), AllocError> {
    add_groups(alloc, list(row, "play"), events)?;
    add_groups(alloc, list(row, "events"), events)?;
    let Some(length) = row.get("draw") else {
        return Ok(());
    };
    match plain::start(alloc, machine.shape, machine.threads) {
        Ok(mut state) => add_drawn(&mut state, machine.threads, small(length), events),
        Err(_fault) => Ok(()),
    }
}

/// Adds the lines of a schedule.
pub fn add_schedule(
    alloc: Global,
    row: &Value,
    shape: Shape,
    lines: &mut Vec<String>,
) -> Result<(), AllocError> {
    let threads = row.get("threads").map_or(0, small);
    let machine = Machine { shape, threads };
    add_started(alloc, row, machine, lines)?;
    let mut events = Vec::new(alloc);
    add_events(alloc, row, machine, &mut events)?;
    add_whole(alloc, row, machine, events.as_slice(), lines)?;
    add_history(alloc, row, machine, events.as_slice(), lines)
}
