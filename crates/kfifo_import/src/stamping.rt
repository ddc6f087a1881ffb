//! Calls with stamps in place of times.
ghost use Rattle.std.specs.Prelude.{ℕ, ◌≡◌, ◌+◌, ◌^◌, ◌<◌, ◌≤◌, length, slice_index_or, IfOk};
ghost use Rattle.std.specs.List.{AllWithin};
ghost use Rattle.std.specs.List.Sorted.{IsNonDecreasingBy};
ghost use Rattle.kfifo_import.specs.Stamping as specs;
ghost use Rattle.kfifo_import.specs.Stamping.{AreEndStamps, AreSortedEnds, AreStamped, HaveBegun, HaveEnded};

use crate::ends::sorted_ends;
use crate::moments::Moment;
use kfifo_model::{Call, End};
use std::alloc::{AllocError, Global};

/// How many of the ends, in ascending order of time, are before this time. The first `from` of them are.
fn ended_before(ends: &[Moment], time: u64, from: usize) -> usize
    requires by_last { IsNonDecreasingBy (λ end. end.time) ends.now }
    requires from { (from ≤ length ends.now) × AllWithin (λ end. end.time < time) ends.now 0 from }
    ensures { HaveEnded ends.now time result }
{
    for place in from..ends.len() {
        if time <= ends[place].time {
            return place;
        }
    }
    ends.len()
}

/// How many of the calls, in ascending order of first time, have begun by this time. The first `from` of them have.
fn begun_by(calls: &[Call], time: u64, from: usize) -> usize
    requires by_first { IsNonDecreasingBy (λ c. c.first) calls.now }
    requires from { (from ≤ length calls.now) × AllWithin (λ c. c.first ≤ time) calls.now 0 from }
    ensures { HaveBegun calls.now time result }
{
    for number in from..calls.len() {
        if time < calls[number].first {
            return number;
        }
    }
    calls.len()
}

/// The stamps of the ends, by the numbers of their calls: the place of the end and the number of beginnings before it.
fn end_stamps(alloc: Global, calls: &[Call], ends: &[Moment]) -> Result<Vec<u64>, AllocError>
    requires few { (length calls.now < 2 ^ 31) × (length ends.now < 2 ^ 31) }
    requires by_first { IsNonDecreasingBy (λ c. c.first) calls.now }
    requires by_last { AreSortedEnds calls.now ends.now }
    ensures { IfOk result (λ stamps. AreEndStamps calls.now ends.now (length ends.now) stamps.items) }
{
    let mut stamps = vec![in alloc; 0; calls.len()]?;
    let mut begun = 0;
    for (rank, end) in ends.iter().enumerate() {
        begun = begun_by(calls, end.time, begun);
        stamps[end.number] = (rank + begun) as u64;
    }
    Ok(stamps)
}

/// The call with these stamps in place of its first and its last time.
fn restamped(call: &Call, first: u64, last: u64) -> Call
    ensures { result ≡ specs.restamped call.now first last }
{
    let end = match call.end {
        Some(end) => Some(End {
            last,
            answer: end.answer,
        }),
        None => None,
    };
    Call {
        thread: call.thread,
        op: call.op,
        first,
        end,
    }
}

/// The calls, which begin in ascending order of time, with stamps.
pub(crate) fn stamped(alloc: Global, calls: &[Call]) -> Result<Vec<Call>, AllocError>
    requires few { length calls.now < 2 ^ 31 }
    requires by_first { IsNonDecreasingBy (λ c. c.first) calls.now }
    ensures { IfOk result (λ found. AreStamped calls.now found.items) }
{
    let ends = sorted_ends(alloc, calls)?;
    let ends = ends.as_slice();
    let stamps = end_stamps(alloc, calls, ends)?;
    let mut found = Vec::with_capacity(alloc, calls.len())?;
    let mut ended = 0;
    for (number, call) in calls.iter().enumerate() {
        ended = ended_before(ends, call.first, ended);
        found.push(restamped(call, (number + ended) as u64, stamps[number]))?;
    }
    Ok(found)
}
