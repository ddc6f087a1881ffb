//! The search for gets of an item while k older ones were left, where items repeat.
ghost use Rattle.std.specs.Prelude.{ℕ, ◌≡◌, ◌+◌, ◌<◌, ◌≤◌, true, length, IfOk, MatchOption};
ghost use Rattle.std.specs.List.{count_by};
ghost use Rattle.std.specs.List.Sorted.{IsSortedBy};
ghost use Rattle.kfifo_model.specs.Validity.{IsHistory};
ghost use Rattle.kfifo_verdict.specs.Evidence.{Gets, IsOlderLeft, gets_before};
ghost use Rattle.kfifo_verdict.specs.Finding.{AreSkips, has_item};
ghost use Rattle.kfifo_verdict.specs.Judging.{GotOlderLeft, NeverBefore, Never};
ghost use Rattle.kfifo_verdict.specs.Plain.{lower};
ghost use Rattle.kfifo_verdict.specs.Steps.{AreSorted};
ghost use Rattle.kfifo_verdict.specs.Left.{is_up_to, is_at};
ghost use Rattle.kfifo_verdict.specs.declared.steps.Key.TheVariants.{Number};
ghost use Rattle.kfifo_verdict.specs.Older.{AreListed, IsNth, IsCopy, AreCopies, IsPutOfGet};
ghost use Rattle.kfifo_model.specs.declared.effects.Side.TheVariants.{In, Out};

use crate::finding::{count_older, first_older, no_skips};
use crate::precedence::first_after;
use crate::presences::Presence;
use crate::steps::{Key, Keyed, count_below, sorted};
use kfifo_model::{Call, Effect, Side};
use std::alloc::{AllocError, Global};

/// The calls of a history by their items, in several orders.
#[derive(Drop)]
pub(crate) struct Listed {
    /// The puts, those of an item by their numbers.
    puts: Vec<Keyed>,
    /// The gets, those of an item by their numbers.
    gets: Vec<Keyed>,
    /// The puts that have ended, those of an item by their last steps.
    ended_puts: Vec<Keyed>,
    /// The gets, those of an item by their last steps.
    ended_gets: Vec<Keyed>,
}

impl Listed {
    /// The calls of a history by their items.
    fn of(alloc: Global, calls: &[Call]) -> Result<Listed, AllocError>
        ensures { IfOk result (AreListed calls.now) }
    {
        Ok(Listed {
            puts: sorted(alloc, calls, Side::In, Key::Number)?,
            gets: sorted(alloc, calls, Side::Out, Key::Number)?,
            ended_puts: sorted(alloc, calls, Side::In, Key::Inner)?,
            ended_gets: sorted(alloc, calls, Side::Out, Key::Outer)?,
        })
    }
}

/// Whether an entry is of a lower item, or of this one and its step is before this one.
fn is_before(entry: &Keyed, item: u32, step: u64) -> bool
    ensures { result ≡ is_up_to In item step entry.now }
{
    entry.0 < item || (item == entry.0 && entry.1 < step)
}

/// How many entries are of lower items, or of this one with their steps before this one.
fn count_until(steps: &[Keyed], item: u32, step: u64) -> usize
    requires { IsSortedBy lower steps.now }
    ensures { result ≡ count_by (is_up_to In item step) steps.now }
{
    steps.partition_point(|entry| is_before(entry, item, step))
}

/// How many entries are of this item with their steps before this one.
fn count_before(steps: &[Keyed], item: u32, step: u64) -> usize
    requires { IsSortedBy lower steps.now }
    ensures { result ≡ count_by (is_at In item step) steps.now }
{
    let below = count_below(steps, item);
    let until = count_until(steps, item, step);
    until - below
}

/// The call of a side that has this item and before which so many of them begin.
fn nth(calls: &[Call], side: Side, numbers: &[Keyed], item: u32, count: usize) -> Option<usize>
    requires { AreSorted Number calls.now side numbers.now }
    ensures { IsNth calls.now side item count result }
{
    let below = count_below(numbers, item);
    if count < numbers.len() - below && numbers[below + count].0 == item {
        Some(numbers[below + count].1 as usize)
    } else {
        None
    }
}

/// When the item of a put is left, by how many puts of it ended sooner.
fn copy_of(calls: &[Call], listed: &Listed, p: usize) -> Presence
    requires history { IsHistory calls.now }
    requires inside { p < length calls.now }
    requires listed { AreListed calls.now listed.now }
    ensures { IsCopy calls.now p result }
{
    let never = Presence::never(calls);
    let Effect::Adds(item) = calls[p].effect() else {
        return never;
    };
    let Some(end) = calls[p].end else {
        return never;
    };
    let sooner = count_before(&listed.ended_puts, item, end.last);
    Presence {
        start: first_after(calls, p, &calls[p]),
        gone: nth(calls, Side::Out, &listed.gets, item, sooner).unwrap_or(calls.len()),
    }
}

/// When the item of each put is left.
fn copies_of(alloc: Global, calls: &[Call], listed: &Listed) -> Result<Vec<Presence>, AllocError>
    requires history { IsHistory calls.now }
    requires listed { AreListed calls.now listed.now }
    ensures { IfOk result (λ copies. AreCopies calls.now (length calls.now) copies.items) }
{
    let mut copies = Vec::with_capacity(alloc, calls.len())?;
    for p in 0..calls.len() {
        copies.push(copy_of(calls, listed, p))?;
    }
    Ok(copies)
}

/// The put of the item that a call got, before which as many puts of it begin as gets of it precede the call.
fn put_of_get(calls: &[Call], listed: &Listed, n: usize) -> Option<usize>
    requires inside { n < length calls.now }
    requires listed { AreListed calls.now listed.now }
    ensures { MatchOption result ((q : ℕ) → IsPutOfGet calls.now n q → ⊥) (IsPutOfGet calls.now n) }
{
    let call = &calls[n];
    let Effect::Takes(item) = call.effect() else {
        return None;
    };
    let taken = count_before(&listed.ended_gets, item, call.first);
    nth(calls, Side::In, &listed.puts, item, taken)
}

/// The puts of k items that are older and left at a call.
fn older_left_at(
    alloc: Global,
    calls: &[Call],
    listed: &Listed,
    copies: &[Presence],
    skips: &mut Vec<usize>,
    n: usize,
    k: usize,
) -> Result<Option<Vec<usize>>, AllocError>
    requires history { IsHistory calls.now }
    requires inside { n < length calls.now }
    requires listed { AreListed calls.now listed.now }
    requires copies { AreCopies calls.now (length calls.now) copies.now }
    requires skips { AreSkips copies.now n skips.old.items }
    ensures older { IfOk result (λ found.
        MatchOption found (GotOlderLeft k calls.now n → ⊥) (λ puts. IsOlderLeft k calls.now n puts.items)) }
    ensures skips { AreSkips copies.now n skips.new.items }
{
    let Some(put) = put_of_get(calls, listed, n) else {
        return Ok(None);
    };
    let after = first_after(calls, n, &calls[n]);
    if count_older(copies, skips, n, put, after, k) < k {
        return Ok(None);
    }
    Ok(Some(first_older(alloc, copies, put, after, k)?))
}

/// The first call that got an item while k older ones were left.
pub(crate) fn older_left(
    alloc: Global,
    calls: &[Call],
    k: usize,
) -> Result<Option<(usize, Vec<usize>)>, AllocError>
    requires { IsHistory calls.now }
    ensures { IfOk result (λ found. MatchOption found (Never (GotOlderLeft k calls.now))
        (λ e. IsOlderLeft k calls.now e.0 e.1.items × NeverBefore (GotOlderLeft k calls.now) e.0)) }
{
    let listed = Listed::of(alloc, calls)?;
    let copies = copies_of(alloc, calls, &listed)?;
    let mut skips = no_skips(alloc, copies.len())?;
    for n in 0..calls.len() {
        if let Some(puts) = older_left_at(
            alloc,
            calls,
            &listed,
            copies.as_slice(),
            &mut skips,
            n,
            k,
        )? {
            return Ok(Some((n, puts)));
        }
    }
    Ok(None)
}
