//! Gets of items that no call can put.
ghost use Rattle.std.specs.Prelude.{◌≡◌, ◌≢◌, ◌<◌, ◌≤◌, IfErr, IfOk, MatchResult, None, length, map};
ghost use Rattle.std.specs.Prelude.{true};
ghost use Rattle.std.specs.List.{All, list_any};
ghost use Rattle.std.specs.List.Sorted.{IsNonDecreasingBy};
ghost use Rattle.kfifo_model.specs.Validity.{IsItem};
ghost use Rattle.kfifo_import.specs.declared.log.TheConstants.{MAX_LOG_CALLS};
ghost use Rattle.kfifo_import.specs.Foreign as specs;
ghost use Rattle.kfifo_import.specs.Foreign.{AreToJudge, IsFaultToJudge, IsLogToJudge, items_put};

use crate::cause::Oddity;
use crate::log::{ImportFault, Line, Log, MAX_LOG_CALLS, log_told};
use crate::wrong::Refusal;
use kfifo_model::{Answer, Call, End, MAX_ITEM, Op};
use std::alloc::{AllocError, Global};

/// Whether a call can put the item.
fn is_puttable(item: u32) -> bool
    ensures { result ≡ specs.is_puttable item }
{
    0 < item && item <= MAX_ITEM
}

/// The answer of a call, with this item in place of one that a dequeue got and no call can put.
fn answer_with(op: Op, answer: Answer, free: u32) -> Answer
    ensures { result ≡ specs.answer_with free op answer }
{
    match (op, answer) {
        (Op::Dequeue, Answer::Got(item)) => {
            Answer::Got(if is_puttable(item) { item } else { free })
        }
        _ => answer,
    }
}

/// The call, with this item in place of one that no call can put.
fn call_with(call: Call, free: u32) -> Call
    ensures { result ≡ specs.call_with free call }
{
    let end = match call.end {
        Some(end) => Some(End {
            last: end.last,
            answer: answer_with(call.op, end.answer, free),
        }),
        None => None,
    };
    Call {
        thread: call.thread,
        op: call.op,
        first: call.first,
        end,
    }
}

/// The line, where a get of an item that no call can put has got this item in its place.
fn line_with(line: &Line, free: u32) -> Line
    ensures { result ≡ specs.line_with free line.now }
{
    Line {
        number: line.number,
        call: call_with(line.call, free),
        item: line.item,
    }
}

/// The items that the calls of the lines are asked to put.
fn items_put(alloc: Global, lines: &[Line]) -> Result<Vec<u32>, AllocError>
    ensures { IfOk result (λ items. (items.items ≡ items_put lines.now) × (length items.items ≤ length lines.now)) }
{
    let mut items = Vec::with_capacity(alloc, lines.len())?;
    for line in lines {
        if let Op::Enqueue(item) = line.call.op {
            items.push(item)?;
        }
    }
    Ok(items)
}

/// The least number from 1 on that is none of these, which rise.
fn first_missing(sorted: &[u32]) -> u32
    requires few { length sorted.now < MAX_LOG_CALLS }
    requires rise { IsNonDecreasingBy (λ x. x) sorted.now }
    ensures item { IsItem result }
    ensures missing { All (λ x. x ≢ result) sorted.now }
{
    let mut free: u32 = 1;
    for item in sorted {
        if *item == free {
            free += 1;
        }
    }
    free
}

/// An item that no line puts, where the call of some line puts none.
fn free_item(alloc: Global, lines: &[Line]) -> Result<u32, AllocError>
    requires few { length lines.now ≤ MAX_LOG_CALLS }
    requires some { list_any specs.is_foreign lines.now ≡ true }
    ensures { IfOk result (λ free. IsItem free × All (λ x. x ≢ free) (items_put lines.now)) }
{
    let mut items = items_put(alloc, lines)?;
    items.sort_unstable();
    Ok(first_missing(items.as_slice()))
}

/// The lines, with this item in place of each that no call can put.
fn all_with(alloc: Global, lines: &[Line], free: u32) -> Result<Vec<Line>, AllocError>
    ensures { IfOk result (λ judged. judged.items ≡ map (specs.line_with free) lines.now) }
{
    lines
        .iter()
        .map(|line| line_with(line, free))
        .collect(alloc)
}

/// Whether a call got an item that no call can put.
fn is_foreign(line: &Line) -> bool
    ensures { result ≡ specs.is_foreign line.now }
{
    match (line.call.op, line.call.end) {
        (
            Op::Dequeue,
            Some(
                End {
                    answer: Answer::Got(item),
                    ..
                },
            ),
        ) => !is_puttable(item),
        _ => false,
    }
}

/// Whether some call got such an item.
fn has_foreign(lines: &[Line]) -> bool
    ensures { result ≡ list_any specs.is_foreign lines.now }
{
    lines.iter().any(|line| is_foreign(line))
}

/// The lines of a log as they are to be judged: an item that none of them puts stands for each that no call can put.
fn with_puttable_items(alloc: Global, lines: Vec<Line>) -> Result<Vec<Line>, AllocError>
    requires { length lines.items ≤ MAX_LOG_CALLS }
    ensures { IfOk result (λ judged. AreToJudge lines.items judged.items) }
{
    if !has_foreign(lines.as_slice()) {
        return Ok(lines);
    }
    let free = free_item(alloc, lines.as_slice())?;
    all_with(alloc, lines.as_slice(), free)
}

/// The log that these lines are, as `log_to_judge` gives it. `odd` is what was kept of their text.
pub(crate) fn judged_told(
    alloc: Global,
    lines: Vec<Line>,
    odd: Option<Oddity>,
) -> Result<Log, Refusal>
    requires { length lines.items ≤ MAX_LOG_CALLS }
    ensures log { MatchResult result (λ log. IsLogToJudge lines.items log.history log.calls.items)
        (λ refusal. IsFaultToJudge lines.items refusal.fault) }
    ensures plain { IfErr result (λ refusal. refusal.wrong ≡ None) }
{
    let judged = with_puttable_items(alloc, lines)?;
    log_told(alloc, judged, odd)
}

/// Returns the log that at most 16,777,215 lines are, to be judged: as `log_of`, but for gets of items that no call can
/// put. In the record each of them got an item that no line puts, one and the same; its `LoggedCall` has the item of
/// the log.
///
/// ```rust
/// let log = log_to_judge(alloc, lines)?;
/// ```
///
/// Refused: what `log_of` refuses, but for these gets.
pub fn log_to_judge(alloc: Global, lines: Vec<Line>) -> Result<Log, ImportFault>
    requires { length lines.items ≤ MAX_LOG_CALLS }
    ensures { MatchResult result (λ log. IsLogToJudge lines.items log.history log.calls.items)
        (IsFaultToJudge lines.items) }
{
    let log = judged_told(alloc, lines, None)?;
    Ok(log)
}
