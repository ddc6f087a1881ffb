//! The checker of orders.
ghost use Rattle.std.specs.Prelude.{ℕ, ◌≡◌, ◌+◌, ◌<◌, ◌≤◌, ◌↔◌, List, [], map, take, length, IsTrue, IfOk, MatchOption};
ghost use Rattle.std.specs.Prelude.{Some, None, MatchBool, false, slice_index_or};
ghost use Rattle.kfifo_model.specs.Lists.{place};
ghost use Rattle.kfifo_model.specs.declared.effects.Effect.TheVariants.{Takes};
ghost use Rattle.kfifo_model.specs.Relaxed.{IsRun, next};
ghost use Rattle.kfifo_model.specs.Histories.{does, effect_of, HasNoRepeats, HasOnlyCalls, HasEachFinished};
ghost use Rattle.kfifo_model.specs.Histories.{KeepsBefore};
ghost use Rattle.kfifo_model.specs.Verdicts.{AreMarks, IsVerdict, IsTried, verdict_number};

use crate::calls::{Call, Op};
use crate::effects::Effect;
use crate::history::History;
use std::alloc::{AllocError, Global};
use std::collections::{BTreeSet, VecDeque};

/// What the checker says of an order: the first of the faults that it has, or that it is legal.
#[derive(Clone, Copy, Debug, PartialEq, Eq)]
pub enum Verdict {
    /// The order is one of the history and a run of the k-relaxed queue.
    Legal,
    /// 1: a number stands twice.
    Repeats,
    /// 2: no call has a number, or an unfinished dequeue has it.
    NotACall,
    /// 3: a finished call is missing.
    LeavesOut,
    /// 4: a call stands before one that precedes it.
    BreaksBefore,
    /// 5: the first place whose answer is not legal in the list there.
    NotARun(usize),
}

impl Verdict {
    /// The number of the fault, from 1 to 5; none of a legal order.
    pub fn number(self) -> Option<u32>
        ensures { result ≡ verdict_number self }
    {
        match self {
            Verdict::Legal => None,
            Verdict::Repeats => Some(1),
            Verdict::NotACall => Some(2),
            Verdict::LeavesOut => Some(3),
            Verdict::BreaksBefore => Some(4),
            Verdict::NotARun(_) => Some(5),
        }
    }
}

/// What became of a call that was tried in a list of items.
#[derive(Clone, Copy)]
pub enum Tried {
    /// Its answer is not legal there.
    NotLegal,
    /// It went, and took no item.
    Went,
    /// It took the item at this place.
    Took(usize),
}

/// Whether a number of an order stands twice.
fn has_repeats(alloc: Global, order: &[usize]) -> Result<bool, AllocError>
    ensures { IfOk result (λ repeats. MatchBool repeats (HasNoRepeats order.now → ⊥) (HasNoRepeats order.now)) }
{
    let mut seen = BTreeSet::new(alloc);
    for n in order {
        if !seen.insert(*n)? {
            return Ok(true);
        }
    }
    Ok(false)
}

/// Whether a finished call or an unfinished enqueue has each number.
fn has_only_calls(calls: &[Call], order: &[usize]) -> bool
    ensures { IsTrue result ↔ HasOnlyCalls calls.now order.now }
{
    for n in order {
        if *n >= calls.len() {
            return false;
        }
        let call = &calls[*n];
        if call.end.is_none() && call.op == Op::Dequeue {
            return false;
        }
    }
    true
}

/// For each call, whether its number stands in the order, or none where a number stands twice.
fn marks_of(alloc: Global, calls: &[Call], order: &[usize]) -> Result<Option<Vec<bool>>, AllocError>
    requires { HasOnlyCalls calls.now order.now }
    ensures { IfOk result (λ r. MatchOption r (HasNoRepeats order.now → ⊥)
        (λ marks. HasNoRepeats order.now × AreMarks marks.items order.now)) }
{
    let mut marks = vec![in alloc; false; calls.len()]?;
    for n in order {
        if marks[*n] {
            return Ok(None);
        }
        marks[*n] = true;
    }
    Ok(Some(marks))
}

/// Whether the call with this number is marked.
fn is_marked(marks: &[bool], n: usize) -> bool
    ensures { result ≡ slice_index_or marks.now n false }
{
    marks.get(n).copied().unwrap_or(false)
}

/// Whether each finished call is marked.
fn has_each_finished(calls: &[Call], marks: &[bool]) -> bool
    ensures { (order : List ℕ) → AreMarks marks.now order → (IsTrue result ↔ HasEachFinished calls.now order) }
{
    for (n, call) in calls.iter().enumerate() {
        if call.end.is_some() && !is_marked(marks, n) {
            return false;
        }
    }
    true
}

/// Whether no call stands before one that precedes it: none ends below the greatest first step so far.
fn keeps_before(calls: &[Call], order: &[usize]) -> bool
    requires { HasOnlyCalls calls.now order.now }
    ensures { IsTrue result ↔ KeepsBefore calls.now order.now }
{
    let mut latest = 0;
    for n in order {
        let call = &calls[*n];
        if let Some(end) = &call.end {
            if end.last < latest {
                return false;
            }
        }
        if call.first > latest {
            latest = call.first;
        }
    }
    true
}

/// The place of the first such item, where it is below k.
fn place_below(items: &VecDeque<u32>, k: usize, item: u32) -> Option<usize>
    ensures { MatchOption result (next k items.now.items (Takes item) ≡ None)
        (λ p. (p ≡ place items.now.items item) × (p < k) × (p < length items.now.items)) }
{
    for i in 0..k.min(items.len()) {
        if items[i] == item {
            return Some(i);
        }
    }
    None
}

/// Takes the first such item out, if it is among the first k.
fn take_out(items: &mut VecDeque<u32>, k: usize, item: u32) -> Tried
    ensures { IsTried k items.old.items items.new.items (Takes item) result }
{
    match place_below(items, k, item) {
        Some(place) => {
            items.remove(place);
            Tried::Took(place)
        }
        None => Tried::NotLegal,
    }
}

/// Makes the call in the list of items, where its answer is legal there.
fn try_call(items: &mut VecDeque<u32>, k: usize, call: &Call) -> Result<Tried, AllocError>
    ensures { IfOk result (IsTried k items.old.items items.new.items (effect_of call.now)) }
{
    match call.effect() {
        Effect::Adds(item) => {
            items.push_back(item)?;
            Ok(Tried::Went)
        }
        Effect::Takes(item) => Ok(take_out(items, k, item)),
        Effect::FindsNone if items.is_empty() => Ok(Tried::Went),
        Effect::Refused => Ok(Tried::Went),
        Effect::FindsNone | Effect::Wrong => Ok(Tried::NotLegal),
    }
}

/// Makes the call with this number, where its answer is legal in the list of items.
pub(crate) fn try_number(
    items: &mut VecDeque<u32>,
    k: usize,
    calls: &[Call],
    n: usize,
) -> Result<Tried, AllocError>
    requires { n < length calls.now }
    ensures { IfOk result (IsTried k items.old.items items.new.items (does calls.now n)) }
{
    try_call(items, k, &calls[n])
}

/// The first place whose call is not legal in the list there.
fn first_break(
    alloc: Global,
    calls: &[Call],
    k: usize,
    order: &[usize],
) -> Result<Option<usize>, AllocError>
    requires { HasOnlyCalls calls.now order.now }
    ensures { IfOk result (λ r. MatchOption r (IsRun k [] (map (does calls.now) order.now))
        (λ p. (p < length order.now) × IsRun k [] (map (does calls.now) (take p order.now))
        × (IsRun k [] (map (does calls.now) (take (p + 1) order.now)) → ⊥))) }
{
    let mut items = VecDeque::new(alloc);
    for (p, n) in order.iter().enumerate() {
        let tried = try_number(&mut items, k, calls, *n)?;
        if let Tried::NotLegal = tried {
            return Ok(Some(p));
        }
    }
    Ok(None)
}

/// Whether an order of the calls is legal, or the first fault.
pub(crate) fn judge(
    alloc: Global,
    calls: &[Call],
    k: usize,
    order: &[usize],
) -> Result<Verdict, AllocError>
    ensures { IfOk result (IsVerdict k calls.now order.now) }
{
    if !has_only_calls(calls, order) {
        return Ok(if has_repeats(alloc, order)? {
            Verdict::Repeats
        } else {
            Verdict::NotACall
        });
    }
    let Some(marks) = marks_of(alloc, calls, order)? else {
        return Ok(Verdict::Repeats);
    };
    if !has_each_finished(calls, &marks) {
        return Ok(Verdict::LeavesOut);
    }
    if !keeps_before(calls, order) {
        return Ok(Verdict::BreaksBefore);
    }
    match first_break(alloc, calls, k, order)? {
        Some(place) => Ok(Verdict::NotARun(place)),
        None => Ok(Verdict::Legal),
    }
}

/// Returns whether an order of a history's calls is legal for a queue that may give any of its k oldest items, and if
/// not, its first fault. The order has the numbers of the calls, from 0. k is 1 to 64.
///
/// ```rust
/// let verdict = check_order(alloc, history, k, order)?;
/// ```
///
/// The time is near linear in the lengths of history and order, times k. It takes memory for the numbers of the order
/// and for the items of the queue. An error means that an allocation failed.
pub fn check_order(
    alloc: Global,
    history: &History,
    k: u32,
    order: &[usize],
) -> Result<Verdict, AllocError>
    requires { (1 ≤ k) × (k ≤ 64) }
    ensures { IfOk result (IsVerdict k history.now order.now) }
{
    judge(alloc, history.calls(), k as usize, order)
}
