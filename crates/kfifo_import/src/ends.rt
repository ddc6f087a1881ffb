//! The ends of calls, in ascending order of time.
ghost use Rattle.std.specs.Prelude.{ℕ, ◌≡◌, ◌<◌, ◌≤◌, List, length, IfOk, count_by, is_some};
ghost use Rattle.std.specs.List.{All, Contains};
ghost use Rattle.kfifo_model.specs.Histories.{call};
ghost use Rattle.kfifo_import.specs.Stamping.{AreEnds, AreSortedEnds, last_time};

use crate::moments::{Moment, by_time};
use kfifo_model::{Call, End};
use std::alloc::{AllocError, Global};

/// When the call with this number ended, 0 where it has not.
fn last_at(calls: &[Call], number: usize) -> u64
    ensures { result ≡ last_time (call calls.now number) }
{
    match calls.get(number) {
        Some(Call { end: Some(end), .. }) => end.last,
        _ => 0,
    }
}

/// Whether the call with this number has ended.
fn has_ended(calls: &[Call], number: usize) -> bool
    ensures { result ≡ is_some (call calls.now number).end }
{
    match calls.get(number) {
        Some(Call { end: Some(_), .. }) => true,
        _ => false,
    }
}

/// The ends of the finished calls, by the calls' numbers.
fn finished(alloc: Global, calls: &[Call]) -> Result<Vec<Moment>, AllocError>
    ensures { IfOk result (λ ends. AreEnds calls.now ends.items) }
{
    let mut ends = Vec::with_capacity(alloc, calls.len())?;
    for number in 0..calls.len() {
        if has_ended(calls, number) {
            let time = last_at(calls, number);
            ends.push(Moment { time, number })?;
        }
    }
    Ok(ends)
}

/// The ends of the finished calls, in ascending order of time.
pub(crate) fn sorted_ends(alloc: Global, calls: &[Call]) -> Result<Vec<Moment>, AllocError>
    ensures { IfOk result (λ ends. AreSortedEnds calls.now ends.items) }
{
    let ends = finished(alloc, calls)?;
    by_time(alloc, ends)
}
