//! Which calls of a history are drawn.
ghost use Rattle.std.specs.Prelude.{◌≡◌, ◌<◌, ◌≤◌, ◌⊎◌, ◌↔◌, IsTrue, IfOk, length};
ghost use Rattle.kfifo_model.specs.Histories.{EndsBelow};
ghost use Rattle.kfifo_draw.specs.Drawing.{AreDrawn, CountsThose, IsFarFrom, IsInPart, IsNear, Reaches};
ghost use Rattle.kfifo_draw.specs.Reach.{AreReached, IsReached, IsWider};
ghost use Rattle.std.specs.List.{Any};

use kfifo_model::{Call, LoggedCall, logged_line};
use std::alloc::{AllocError, Global};

/// A part of a history. Calls are named by their numbers in the whole history.
#[derive(Clone, Copy, Debug, PartialEq, Eq)]
pub enum Part<'a> {
    /// All calls.
    All,
    /// The calls from the first number to the last one.
    Calls(usize, usize),
    /// The calls of a log that stand in its lines from the first to the last one, counted from 1.
    Lines(u64, u64),
    /// These calls, and each one that overlaps one of them or stands within so many calls of one.
    Near(&'a [usize], usize),
}

/// Whether the call has ended before this step.
fn ends_before(call: &Call, step: u64) -> bool
    ensures { IsTrue result ↔ EndsBelow call.now.end step }
{
    match call.end {
        Some(end) => end.last < step,
        None => false,
    }
}

/// Whether the call has ended before the other began.
fn precedes(call: &Call, other: &Call) -> bool
    ensures { IsTrue result ↔ EndsBelow call.now.end other.now.first }
{
    ends_before(call, other.first)
}

/// Whether the call with this number overlaps the named one, or stands within so many calls of it.
fn is_near(calls: &[Call], number: usize, named: usize, around: usize) -> bool
    requires { number < length calls.now }
    ensures { IsTrue result ↔ IsNear calls.now around number named }
{
    if named >= calls.len() {
        return false;
    }
    let (call, other) = (&calls[number], &calls[named]);
    if !precedes(call, other) && !precedes(other, call) {
        return true;
    }
    number.abs_diff(named) <= around
}

/// What named calls reach: their least and greatest numbers, and the steps from the first that one of them begins in to
/// the last that one ends in.
#[derive(Clone, Copy)]
struct Reach {
    least: usize,
    most: usize,
    first: u64,
    last: u64,
}

impl Reach {
    /// The reach of no call.
    fn none() -> Reach {
        Reach {
            least: usize::MAX,
            most: 0,
            first: u64::MAX,
            last: 0,
        }
    }

    /// The reach with one more call.
    fn with(self, calls: &[Call], number: usize) -> Reach
        requires { number < length calls.now }
        ensures has_it { IsReached calls.now result number }
        ensures wider { IsWider calls.now self result }
    {
        let call = &calls[number];
        let last = match call.end {
            Some(end) => end.last,
            None => u64::MAX,
        };
        Reach {
            least: self.least.min(number),
            most: self.most.max(number),
            first: self.first.min(call.first),
            last: self.last.max(last),
        }
    }

    /// Whether the call with this number is so far away that it is near none of the calls.
    fn is_far(self, calls: &[Call], number: usize, around: usize) -> bool
        requires { number < length calls.now }
        ensures { IsTrue result → IsFarFrom calls.now around number self }
    {
        let call = &calls[number];
        if number < self.least {
            return ends_before(call, self.first) && self.least - number > around;
        }
        self.last < call.first && number > self.most && number - self.most > around
    }
}

/// The reach of the named calls.
fn reach_of(calls: &[Call], named: &[usize]) -> Reach
    ensures { AreReached calls.now result named.now }
{
    let mut reach = Reach::none();
    for number in named {
        if *number < calls.len() {
            reach = reach.with(calls, *number);
        }
    }
    reach
}

/// Whether the call with this number is near a named one.
fn is_near_some(calls: &[Call], number: usize, named: &[usize], around: usize) -> bool
    requires { number < length calls.now }
    ensures { IsTrue result ↔ Any (IsNear calls.now around number) named.now }
{
    named
        .iter()
        .any(|other| is_near(calls, number, *other, around))
}

/// The same, where the named calls have this reach: most calls are far from it.
fn is_near_reached(
    calls: &[Call],
    number: usize,
    named: &[usize],
    around: usize,
    reach: Reach,
) -> bool
    requires there { number < length calls.now }
    requires reached { AreReached calls.now reach named.now }
    ensures { IsTrue result ↔ Any (IsNear calls.now around number) named.now }
{
    if reach.is_far(calls, number, around) {
        return false;
    }
    is_near_some(calls, number, named, around)
}

/// What the calls that the part names reach.
fn reach_of_part(calls: &[Call], part: Part<'_>) -> Reach
    ensures { Reaches calls.now result part.entry }
{
    match part {
        Part::Near(named, _) => reach_of(calls, named),
        Part::All | Part::Calls(..) | Part::Lines(..) => Reach::none(),
    }
}

/// Whether the call with this number belongs to the part, whose named calls have this reach.
fn is_in_part(
    calls: &[Call],
    logged: &[LoggedCall],
    part: Part<'_>,
    reach: Reach,
    number: usize,
) -> bool
    requires there { number < length calls.now }
    requires reached { Reaches calls.now reach part }
    ensures { IsTrue result ↔ IsInPart calls.now logged.now part.entry number }
{
    match part {
        Part::All => true,
        Part::Calls(first, last) => first <= number && number <= last,
        Part::Lines(first, last) => {
            let line = logged_line(logged, number);
            first <= line && line <= last
        }
        Part::Near(named, around) => is_near_reached(calls, number, named, around, reach),
    }
}

/// How many calls belong to the part. It takes no memory.
pub(crate) fn count_drawn(calls: &[Call], logged: &[LoggedCall], part: Part<'_>) -> usize
    ensures { CountsThose (IsInPart calls.now logged.now part.entry) (length calls.now) result }
{
    let reach = reach_of_part(calls, part);
    let mut count = 0;
    for number in 0..calls.len() {
        if is_in_part(calls, logged, part, reach, number) {
            count += 1;
        }
    }
    count
}

/// The numbers of the calls that belong to the part, in ascending order.
pub(crate) fn drawn_calls(
    alloc: Global,
    calls: &[Call],
    logged: &[LoggedCall],
    part: Part<'_>,
) -> Result<Vec<usize>, AllocError>
    ensures { IfOk result (λ drawn. AreDrawn calls.now logged.now part.entry drawn.items) }
{
    let reach = reach_of_part(calls, part);
    let mut drawn = Vec::new(alloc);
    for number in 0..calls.len() {
        if is_in_part(calls, logged, part, reach, number) {
            drawn.push(number)?;
        }
    }
    Ok(drawn)
}
