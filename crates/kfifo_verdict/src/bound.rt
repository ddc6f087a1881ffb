//! The least k that the older items at the gets of single items allow, in near-linear time.
//!
//! A get that ends sooner and whose item was put later sees each older item that another get sees. So an item counts
//! from the first moment at which such a get has ended, until its own get begins, and the most items that count at a
//! moment are the most that are older at a get.
ghost use Rattle.std.specs.Prelude.{◌≡◌, ◌+◌, ◌<◌, ◌≤◌, length, IfOk};
ghost use Rattle.kfifo_model.specs.Validity.{IsHistory};
ghost use Rattle.kfifo_verdict.specs.Bound.{IsOwnEnd, AreSoonest, AreChanges, IsMostAtOnce};
ghost use Rattle.kfifo_verdict.specs.Finding.{ArePresences, IsIndexed};
ghost use Rattle.kfifo_verdict.specs.Judging.{IsLowerBound};

use crate::finding::single_put;
use crate::precedence::first_after;
use crate::presences::{Items, Presence};
use kfifo_model::Call;
use std::alloc::{AllocError, Global};

/// The first call that the get of call q's single item precedes, or one more than the number of calls where it has no
/// such get.
fn own_end(calls: &[Call], items: &Items, q: usize) -> usize
    requires history { IsHistory calls.now }
    requires inside { q < length calls.now }
    requires items { IsIndexed calls.now items.now }
    ensures { IsOwnEnd calls.now q result }
{
    let get = items.presences[q].gone;
    if get < calls.len() {
        if let Some(put) = single_put(calls, items, get) {
            if put == q {
                return first_after(calls, get, &calls[get]);
            }
        }
    }
    calls.len() + 1
}

/// For each call, and behind the last one, the least of `own_end` from that call on.
fn soonest_ends(alloc: Global, calls: &[Call], items: &Items) -> Result<Vec<usize>, AllocError>
    requires history { IsHistory calls.now }
    requires items { IsIndexed calls.now items.now }
    ensures { IfOk result (λ v. AreSoonest calls.now v.items) }
{
    let mut soonest = vec![in alloc; calls.len() + 1; calls.len() + 1]?;
    let mut least = calls.len() + 1;
    let mut q = calls.len();
    while q > 0 {
        q -= 1;
        least = least.min(own_end(calls, items, q));
        soonest[q] = least;
    }
    Ok(soonest)
}

/// For each moment, how many items count from it on, and how many until it.
#[derive(Drop)]
pub(crate) struct Changes {
    /// How many count from it on.
    pub from: Vec<usize>,
    /// How many count until it.
    pub until: Vec<usize>,
}

/// When the items begin and end to count.
fn changes_of(
    alloc: Global,
    calls: &[Call],
    presences: &[Presence],
    soonest: &[usize],
) -> Result<Changes, AllocError>
    requires presences { ArePresences calls.now (length calls.now) presences.now }
    requires soonest { AreSoonest calls.now soonest.now }
    ensures { IfOk result (AreChanges soonest.now presences.now (length presences.now)) }
{
    let mut from = vec![in alloc; 0; soonest.len()]?;
    let mut until = vec![in alloc; 0; soonest.len()]?;
    for p in 0..presences.len() {
        let begin = soonest[presences[p].start];
        let end = presences[p].gone;
        if begin <= end {
            from[begin] += 1;
            until[end] += 1;
        }
    }
    Ok(Changes { from, until })
}

/// The most items that count at a moment.
fn most_at_once(presences: &[Presence], soonest: &[usize], changes: &Changes) -> usize
    requires { AreChanges soonest.now presences.now (length presences.now) changes.now }
    ensures { IsMostAtOnce soonest.now presences.now result }
{
    let mut count = 0;
    let mut most: usize = 0;
    for moment in 0..soonest.len() {
        count += changes.from[moment];
        most = most.max(count);
        count -= changes.until[moment];
    }
    most
}

/// The least k that the older items at the gets allow.
pub(crate) fn lower_bound(alloc: Global, calls: &[Call]) -> Result<usize, AllocError>
    requires { IsHistory calls.now }
    ensures { IfOk result (IsLowerBound calls.now) }
{
    let items = Items::of(alloc, calls)?;
    let soonest = soonest_ends(alloc, calls, &items)?;
    let changes = changes_of(alloc, calls, &items.presences, &soonest)?;
    Ok(most_at_once(&items.presences, &soonest, &changes) + 1)
}
