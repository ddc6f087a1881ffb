//! Lines of replays.

use crate::histories::calls_line;
use crate::plain;
use crate::schedules::begin_of;
use crate::show::{add_shown, shown, shown_list};
use kfifo_machine::Begin;
use kfifo_replay::{Replay, ReplayFault, Report};
use kfifo_words::Shape;
use serde_json::Value;
use std::alloc::{AllocError, Global};
use test_rows::{items, list, numbers, small};

/// The calls of a script, so many times.
fn script_of(alloc: Global, calls: &[Value], times: u32) -> Result<Vec<Begin>, AllocError> {
    let mut script = Vec::new(alloc);
    for _time in 0..times {
        for call in calls {
            script.push(begin_of(items(call)).unwrap_or(Begin::Tick))?;
        }
    }
    Ok(script)
}

/// The scripts of a row: the list so many times, and the calls of each so many times.
fn scripts_of(
    alloc: Global,
    row: &Value,
    times: u32,
    calls: u32,
) -> Result<Vec<Vec<Begin>>, AllocError> {
    let mut scripts = Vec::new(alloc);
    for _time in 0..times {
        for script in list(row, "scripts") {
            scripts.push(script_of(alloc, items(script), calls)?)?;
        }
    }
    Ok(scripts)
}

/// What a replay reports.
fn report_line(
    alloc: Global,
    report: Result<Report, ReplayFault>,
    listed: &[Value],
) -> Result<String, AllocError> {
    match report {
        Ok(report) => {
            let order = shown_list(alloc, &report.order, listed)?;
            let (steps, rank) = (report.steps, report.worst_rank);
            let (undos, completed) = (report.rollbacks, report.completed);
            format!(in alloc; "{steps} {order} rank {rank}, {undos} undone, {completed} completed")
        }
        Err(fault) => shown(alloc, &fault),
    }
}

/// The calls of a replay.
fn made_calls_line(alloc: Global, replay: &Replay) -> Result<String, AllocError> {
    match plain::calls(alloc, replay) {
        Ok(history) => calls_line(alloc, &history),
        Err(fault) => shown(alloc, &fault),
    }
}

/// Moves a replay on.
fn advance(
    alloc: Global,
    replay: &mut Replay,
    word: &str,
    step: &Value,
) -> Result<Result<(), ReplayFault>, AllocError> {
    let numbers = numbers(alloc, step)?;
    Ok(match numbers.as_slice() {
        [_word, pick, count] if word == "times" => plain::feed_many(replay, *pick, *count),
        [_word, stopped] if word == "finish" => plain::finish(replay, *stopped),
        [_word, picks @ ..] => plain::feed(replay, picks),
        [] => Ok(()),
    })
}

/// The line of a step of a replay, or of a question on it.
fn step_line(
    alloc: Global,
    replay: &mut Replay,
    word: &str,
    step: &Value,
    listed: &[Value],
) -> Result<String, AllocError> {
    if word == "report" {
        report_line(alloc, plain::report(alloc, replay), listed)
    } else if word == "calls" {
        made_calls_line(alloc, replay)
    } else if word == "points" {
        shown(alloc, &plain::points(alloc, replay))
    } else {
        shown(alloc, &advance(alloc, replay, word, step)?)
    }
}

/// Adds the line of each step.
fn add_steps(
    alloc: Global,
    replay: &mut Replay,
    steps: &[Value],
    lines: &mut Vec<String>,
) -> Result<(), AllocError> {
    for step in steps {
        if let [word, listed @ ..] = items(step) {
            let word = word.as_str().unwrap_or("");
            lines.push(step_line(alloc, replay, word, step, listed)?)?;
        }
    }
    Ok(())
}

/// Adds the lines of a replay in pieces.
fn add_pieces(
    alloc: Global,
    row: &Value,
    shape: Shape,
    scripts: &[Vec<Begin>],
    lines: &mut Vec<String>,
) -> Result<(), AllocError> {
    match plain::open(alloc, shape, scripts) {
        Ok(mut replay) => add_steps(alloc, &mut replay, list(row, "steps"), lines),
        Err(fault) => add_shown(alloc, &fault, lines),
    }
}

/// The line of a whole replay of picks, or of the example of the page on replays.
fn whole_line(
    alloc: Global,
    row: &Value,
    shape: Shape,
    scripts: &[Vec<Begin>],
    picks: &[u32],
) -> Result<String, AllocError> {
    let report = match list(row, "page") {
        [thread, count, stopped] => {
            let (thread, count, stopped) = (small(thread), small(count), small(stopped));
            plain::as_on_the_page(alloc, shape, scripts, picks, thread, count, stopped)
        }
        _ => plain::replay(alloc, shape, scripts, picks),
    };
    report_line(alloc, report, &[])
}

/// Adds the lines of a replay.
pub fn add_replay(
    alloc: Global,
    row: &Value,
    shape: Shape,
    lines: &mut Vec<String>,
) -> Result<(), AllocError> {
    let scripts = match list(row, "times") {
        [times, calls] => scripts_of(alloc, row, small(times), small(calls))?,
        _ => scripts_of(alloc, row, 1, 1)?,
    };
    match row.get("picks") {
        Some(picks) => {
            let picks = numbers(alloc, picks)?;
            lines.push(whole_line(alloc, row, shape, scripts.as_slice(), picks.as_slice())?)?;
            Ok(())
        }
        None => add_pieces(alloc, row, shape, scripts.as_slice(), lines),
    }
}
