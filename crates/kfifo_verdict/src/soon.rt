//! The search for gets that ended too soon: by their end, more gets of their item had ended than puts of it had begun.
ghost use Rattle.std.specs.Prelude.{◌≡◌, ◌<◌, ◌↔◌, IsTrue, length, IfOk, MatchOption};
ghost use Rattle.std.specs.List.{count_by};
ghost use Rattle.std.specs.List.Sorted.{IsSortedBy};
ghost use Rattle.kfifo_verdict.specs.Evidence.{IsTakenTooSoon};
ghost use Rattle.kfifo_verdict.specs.Judging.{Never, NeverBefore};
ghost use Rattle.kfifo_verdict.specs.Plain.{lower};
ghost use Rattle.kfifo_verdict.specs.Soon.{is_until, is_by};
ghost use Rattle.kfifo_verdict.specs.Steps.{AreSorted};
ghost use Rattle.kfifo_verdict.specs.declared.steps.Key.TheVariants.{Outer};
ghost use Rattle.kfifo_model.specs.declared.effects.Side.TheVariants.{In, Out};

use crate::steps::{Key, Keyed, count_below, last_step, sorted};
use kfifo_model::{Call, Effect, Side};
use std::alloc::{AllocError, Global};

/// Whether a call is of a lower item, or of this one and its step no later than this one.
fn is_until(entry: &Keyed, item: u32, step: u64) -> bool
    ensures { result ≡ is_until item step entry.now }
{
    entry.0 < item || (item == entry.0 && entry.1 <= step)
}

/// How many of the calls are of lower items, or of this one and their step no later than this one.
fn count_until(steps: &[Keyed], item: u32, step: u64) -> usize
    requires { IsSortedBy lower steps.now }
    ensures { result ≡ count_by (is_until item step) steps.now }
{
    steps.partition_point(|entry| is_until(entry, item, step))
}

/// How many of the calls are of this item and their step no later than this one.
fn count_of(steps: &[Keyed], item: u32, step: u64) -> usize
    requires { IsSortedBy lower steps.now }
    ensures { result ≡ count_by (is_by item step) steps.now }
{
    let below = count_below(steps, item);
    let until = count_until(steps, item, step);
    until - below
}

/// Whether call n got an item, and by its end more gets of that item had ended than puts had begun.
fn is_taken_too_soon(calls: &[Call], n: usize, begun: &[Keyed], ended: &[Keyed]) -> bool
    requires inside { n < length calls.now }
    requires begun { AreSorted Outer calls.now In begun.now }
    requires ended { AreSorted Outer calls.now Out ended.now }
    ensures { IsTrue result ↔ IsTakenTooSoon calls.now n }
{
    let call = &calls[n];
    let Effect::Takes(item) = call.effect() else {
        return false;
    };
    let end = last_step(call);
    count_of(begun, item, end) < count_of(ended, item, end)
}

/// The first call that got an item when, by its end, more gets of that item had ended than puts had begun.
pub(crate) fn taken_too_soon(alloc: Global, calls: &[Call]) -> Result<Option<usize>, AllocError>
    ensures { IfOk result (λ found. MatchOption found (Never (IsTakenTooSoon calls.now))
        (λ n. IsTakenTooSoon calls.now n × NeverBefore (IsTakenTooSoon calls.now) n)) }
{
    let begun = sorted(alloc, calls, Side::In, Key::Outer)?;
    let ended = sorted(alloc, calls, Side::Out, Key::Outer)?;
    for n in 0..calls.len() {
        if is_taken_too_soon(calls, n, &begun, &ended) {
            return Ok(Some(n));
        }
    }
    Ok(None)
}
