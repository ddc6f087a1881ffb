//! The search for calls that returned Empty although, as each call began meanwhile, some item was certainly left.
ghost use Rattle.std.specs.Prelude.{ℕ, ◌≡◌, ◌+◌, ◌<◌, ◌≤◌, ◌↔◌, IsTrue, length, IfOk, MatchOption, max};
ghost use Rattle.std.specs.List.{count_by};
ghost use Rattle.kfifo_model.specs.Validity.{IsHistory};
ghost use Rattle.kfifo_model.specs.declared.effects.Effect.TheVariants.{FindsNone};
ghost use Rattle.kfifo_model.specs.Histories.{does};
ghost use Rattle.kfifo_verdict.specs.Evidence.{HasItemsLeft};
ghost use Rattle.kfifo_verdict.specs.Finding.{first_of};
ghost use Rattle.kfifo_verdict.specs.Judging.{Never, NeverBefore};
ghost use Rattle.kfifo_verdict.specs.Plain.{place};
ghost use Rattle.kfifo_verdict.specs.Steps.{AreSorted, is_below};
ghost use Rattle.kfifo_verdict.specs.Left.{is_up_to, rank, IsSpan, AreEnds, AreFar};
ghost use Rattle.kfifo_verdict.specs.declared.steps.Key.TheVariants.{Inner};
ghost use Rattle.kfifo_model.specs.declared.effects.Side.TheVariants.{In, Out};

use crate::finding::reaches;
use crate::presences::Presence;
use crate::steps::{Key, Keyed, count_below, sorted};
use kfifo_model::{Call, Effect, Side};
use std::alloc::{AllocError, Global};

/// How many calls begin by a step.
fn begun_by(calls: &[Call], step: u64) -> usize
    requires { IsHistory calls.now }
    ensures { (c : ℕ) → c < length calls.now → (c < result) ↔ (first_of calls.now c ≤ step) }
{
    calls.partition_point(|call| call.first <= step)
}

/// How many calls begin before a step.
fn begun_before(calls: &[Call], step: u64) -> usize
    requires { IsHistory calls.now }
    ensures { (c : ℕ) → c < length calls.now → (c < result) ↔ (first_of calls.now c < step) }
{
    calls.partition_point(|call| call.first < step)
}

/// The call at whose beginning the get at this place, if it is of this item, has begun, or the number of calls.
fn gone_at(calls: &[Call], gets: &[Keyed], item: u32, at: usize) -> usize
    requires history { IsHistory calls.now }
    requires gets { AreSorted Inner calls.now Out gets.now }
    requires behind { count_by (is_below item) gets.now ≤ at }
    ensures { (c : ℕ) → c < length calls.now
        → (c < result) ↔ (count_by (is_up_to Out item (first_of calls.now c)) gets.now ≤ at) }
{
    if at < gets.len() && gets[at].0 == item {
        begun_before(calls, gets[at].1)
    } else {
        calls.len()
    }
}

/// The calls that begin while the put at this place is one more than the gets of its item that have begun.
fn span_of(calls: &[Call], puts: &[Keyed], gets: &[Keyed], i: usize) -> Presence
    requires history { IsHistory calls.now }
    requires inside { i < length puts.now }
    requires puts { AreSorted Inner calls.now In puts.now }
    requires gets { AreSorted Inner calls.now Out gets.now }
    ensures { IsSpan calls.now (place puts.now i).0 (rank puts.now i) result }
{
    let (item, last, _) = puts[i];
    let rank = i - count_below(puts, item);
    let at = count_below(gets, item) + rank;
    Presence {
        start: begun_by(calls, last),
        gone: gone_at(calls, gets, item, at),
    }
}

/// For each call, until when an item is left of those that are left from that call on.
fn ends_of(
    alloc: Global,
    calls: &[Call],
    puts: &[Keyed],
    gets: &[Keyed],
) -> Result<Vec<usize>, AllocError>
    requires history { IsHistory calls.now }
    requires puts { AreSorted Inner calls.now In puts.now }
    requires gets { AreSorted Inner calls.now Out gets.now }
    ensures { IfOk result (λ far. AreEnds calls.now puts.now (length puts.now) far.items) }
{
    let mut far: Vec<usize> = vec![in alloc; 0; calls.len()]?;
    for i in 0..puts.len() {
        let span = span_of(calls, puts, gets, i);
        let start = span.start;
        if start < far.len() {
            far[start] = far[start].max(span.gone);
        }
    }
    Ok(far)
}

/// For each call, until when some item is left at each call that begins.
fn far_from(alloc: Global, calls: &[Call]) -> Result<Vec<usize>, AllocError>
    requires { IsHistory calls.now }
    ensures { IfOk result (λ far. AreFar calls.now far.items) }
{
    let puts = sorted(alloc, calls, Side::In, Key::Inner)?;
    let gets = sorted(alloc, calls, Side::Out, Key::Inner)?;
    let ends = ends_of(alloc, calls, &puts, &gets)?;
    let mut far = Vec::with_capacity(alloc, ends.len())?;
    let mut most: usize = 0;
    for n in 0..ends.len() {
        most = most.max(ends[n]);
        far.push(most)?;
    }
    Ok(far)
}

/// Whether call n returned Empty, and some item was left as it began and as each call began meanwhile.
fn has_items_left(calls: &[Call], far: &[usize], empty: usize) -> bool
    requires history { IsHistory calls.now }
    requires inside { empty < length calls.now }
    requires far { AreFar calls.now far.now }
    ensures { IsTrue result ↔ HasItemsLeft calls.now empty }
{
    let Effect::FindsNone = calls[empty].effect() else {
        return false;
    };
    let mut n = empty;
    while reaches(calls, empty, n) {
        if far[n] <= n {
            return false;
        }
        n = far[n];
    }
    true
}

/// The first call that returned Empty although some item was left as it began and as each call began meanwhile.
pub(crate) fn items_left(alloc: Global, calls: &[Call]) -> Result<Option<usize>, AllocError>
    requires { IsHistory calls.now }
    ensures { IfOk result (λ found. MatchOption found (Never (HasItemsLeft calls.now))
        (λ n. HasItemsLeft calls.now n × NeverBefore (HasItemsLeft calls.now) n)) }
{
    let far = far_from(alloc, calls)?;
    for n in 0..calls.len() {
        if has_items_left(calls, &far, n) {
            return Ok(Some(n));
        }
    }
    Ok(None)
}
