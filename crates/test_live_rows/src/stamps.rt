//! Rows of a stamped queue.
ghost use Rattle.std.specs.Prelude.{All};
ghost use Rattle.kfifo_live.specs.Pass.{IsPassOf};

use crate::begin::{call_of, size, word_of};
use crate::driven::{Driven, Stepped, add_steps, line_of_call, pick};
use crate::faults::{gather_text, open_text};
use crate::plain;
use kfifo_live::{StampPass, StampQueue};
use kfifo_model::Call;
use kfifo_words::Shape;
use serde_json::Value;
use std::alloc::{AllocError, Global};
use test_rows::list;

/// The text of calls: thread, call, first and last stamp, and answer of each.
fn calls_text(alloc: Global, calls: &[Call]) -> Result<String, AllocError> {
    let mut text = String::new(alloc);
    for call in calls {
        let (thread, op, first) = (call.thread, call.op, call.first);
        write!(text, "{thread} {op:?} {first}-")?;
        match call.end {
            Some(end) => {
                let (last, answer) = (end.last, end.answer);
                write!(text, "{last} {answer:?}; ")?;
            }
            None => write!(text, "; ")?,
        }
    }
    Ok(text)
}

impl Driven for StampPass {
    type Queue = StampQueue;

    type Beside = ();

    ghost opened = { λ q. q };

    ghost known = { λ p. p.pass };

    fn number(&self) -> u32 {
        self.thread()
    }

    fn line_by(
        &mut self,
        alloc: Global,
        queue: &StampQueue,
        _beside: &mut (),
        step: &Value,
    ) -> Result<String, AllocError> {
        if word_of(step) == "log" {
            return calls_text(alloc, self.log());
        }
        let begin = call_of(alloc, step)?;
        let answer = plain::call_stamped(queue, self, begin);
        format!(in alloc; "{answer:?}")
    }
}

impl Stepped for StampPass {
    fn line_of(
        alloc: Global,
        queue: &StampQueue,
        passes: &mut Vec<StampPass>,
        beside: &mut (),
        step: &Value,
    ) -> Result<String, AllocError> {
        if word_of(step) == "passes" {
            let count = passes.len();
            return format!(in alloc; "{count} passes");
        }
        line_of_call(alloc, queue, passes, beside, step)
    }
}

/// The calls of all logs, or the fault.
fn gathered(alloc: Global, queue: StampQueue, passes: Vec<StampPass>) -> Result<String, AllocError>
    requires { All (λ p. IsPassOf queue p.pass) passes.items }
{
    match plain::gather(alloc, queue, passes) {
        Ok(history) => calls_text(alloc, history.calls()),
        Err(fault) => gather_text(alloc, fault),
    }
}

/// Gathers the logs of the passes that the row gives back, where it gives any list of them.
fn end(
    alloc: Global,
    queue: StampQueue,
    passes: Vec<StampPass>,
    row: &Value,
    lines: &mut Vec<String>,
) -> Result<(), AllocError>
    requires { All (λ p. IsPassOf queue p.pass) passes.items }
{
    if let Some(threads) = row.get("gather") {
        let picked = pick(alloc, &queue, passes, threads)?;
        lines.push(gathered(alloc, queue, picked)?)?;
    }
    Ok(())
}

/// Adds the lines of the steps on an open queue, and the line of the end.
fn run(
    alloc: Global,
    queue: StampQueue,
    mut passes: Vec<StampPass>,
    row: &Value,
    lines: &mut Vec<String>,
) -> Result<(), AllocError>
    requires { All (λ p. IsPassOf queue p.pass) passes.items }
{
    add_steps(
        alloc,
        &queue,
        &mut passes,
        &mut (),
        list(row, "steps"),
        lines,
    )?;
    end(alloc, queue, passes, row, lines)
}

/// Adds the lines of a row.
pub fn add_lines(
    alloc: Global,
    row: &Value,
    shape: Shape,
    lines: &mut Vec<String>,
) -> Result<(), AllocError> {
    match plain::open_stamped(alloc, shape, size(row, "threads"), size(row, "logs")) {
        Ok((queue, passes)) => run(alloc, queue, passes, row, lines)?,
        Err(fault) => lines.push(open_text(alloc, fault)?)?,
    }
    Ok(())
}
