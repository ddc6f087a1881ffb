//! Verdicts, and bounds of k.
ghost use Rattle.std.specs.Prelude.{◌≡◌, ◌≤◌, IfOk};
ghost use Rattle.kfifo_model.specs.Validity.{IsHistory};
ghost use Rattle.kfifo_verdict.specs.Finding.{IsIndexed};
ghost use Rattle.kfifo_verdict.specs.Judging.{IsJudgement, IsPlain, IsDecided, KeepsTries, AreBounds};
ghost use Rattle.kfifo_verdict.specs.Remainder.{items_left};

use crate::bound::lower_bound;
use crate::finding::evidence_by;
use crate::presences::Items;
use crate::remainder::left_by;
use crate::turns::order_of_plain;
use crate::verdicts::{Bounds, Judgement};
use crate::walking::{search, witness};
use kfifo_model::History;
use std::alloc::{AllocError, Global};

/// Returns a verdict on the history, for a queue that may give any of its k oldest items: an order that is legal, found
/// with at most `tries` choices undone; or evidence that there is none; or neither. With k = 1 it is one of the two,
/// whatever `tries` is, if each call has ended and each item that is put is put by one call and got by at most one.
///
/// ```rust
/// let legal = match judge(alloc, &history, k, 1_000)? {
///     Judgement::Legal(_) => true,
///     _ => false,
/// };
/// ```
pub fn judge(alloc: Global, history: &History, k: u32, tries: u64) -> Result<Judgement, AllocError>
    requires { (1 ≤ k) × (k ≤ 64) }
    ensures judgement { IfOk result (IsJudgement k history.now) }
    ensures complete { k ≡ 1 → IsPlain history.now → IfOk result IsDecided }
    ensures tries { IfOk result (KeepsTries tries) }
{
    let items = Items::of(alloc, history.calls())?;
    judge_by(alloc, history, &items, k, tries)
}

/// Returns the verdict of `judge` on the history, and how many items are left at its end, as `items_remaining` counts
/// them. An error means that an allocation failed.
///
/// ```rust
/// let (judgement, left) = judge_and_count(alloc, history, k, tries)?;
/// ```
pub fn judge_and_count(
    alloc: Global,
    history: &History,
    k: u32,
    tries: u64,
) -> Result<(Judgement, usize), AllocError>
    requires { (1 ≤ k) × (k ≤ 64) }
    ensures judgement { IfOk result (λ found. IsJudgement k history.now found.0) }
    ensures complete { k ≡ 1 → IsPlain history.now → IfOk result (λ found. IsDecided found.0) }
    ensures tries { IfOk result (λ found. KeepsTries tries found.0) }
    ensures left { IfOk result (λ found. found.1 ≡ items_left history.now) }
{
    let items = Items::of(alloc, history.calls())?;
    let judgement = judge_by(alloc, history, &items, k, tries)?;
    let left = left_by(alloc, history.calls(), &items)?;
    Ok((judgement, left))
}

/// The verdict on a history, by the calls of each item.
fn judge_by(
    alloc: Global,
    history: &History,
    items: &Items,
    k: u32,
    tries: u64,
) -> Result<Judgement, AllocError>
    requires places { (1 ≤ k) × (k ≤ 64) }
    requires items { IsIndexed history.now items.now }
    ensures judgement { IfOk result (IsJudgement k history.now) }
    ensures complete { k ≡ 1 → IsPlain history.now → IfOk result IsDecided }
    ensures tries { IfOk result (KeepsTries tries) }
{
    if let Some(found) = evidence_by(alloc, history, items, k)? {
        return Ok(Judgement::NoOrder(found));
    }
    if k == 1 {
        if let Some(order) = order_of_plain(alloc, history.calls(), items)? {
            return Ok(Judgement::Legal(order));
        }
    }
    match search(alloc, history, k, tries)? {
        Ok(order) => Ok(Judgement::Legal(order)),
        Err(stuck) => Ok(Judgement::Undecided(stuck)),
    }
}

/// Returns bounds of the least k for which the history has a legal order. It is at least one more than the greatest
/// number of items that are certainly older and there where a single item is got. It is at most the least k, from there
/// to 64, for which `witness` finds an order with `tries`; a smaller k may have an order that `witness` does not find.
/// An error means that an allocation failed.
pub fn least_k(alloc: Global, history: &History, tries: u64) -> Result<Bounds, AllocError>
    ensures { IfOk result (AreBounds history.now) }
{
    let at_least = lower_bound(alloc, history.calls())?;
    for k in 1..65u32 {
        if at_least <= k as usize {
            if let Some(_) = witness(alloc, history, k, tries)? {
                return Ok(Bounds {
                    at_least,
                    at_most: Some(k),
                });
            }
        }
    }
    Ok(Bounds {
        at_least,
        at_most: None,
    })
}
