//! How many items are left at the end of a history.
ghost use Rattle.std.specs.Prelude.{ℕ, ◌≡◌, ◌≢◌, IfOk, IfSome, OnOk};
ghost use Rattle.kfifo_verdict.specs.Finding.{IsIndexed};
ghost use Rattle.kfifo_verdict.specs.Remainder as specs;
ghost use Rattle.kfifo_verdict.specs.Remainder.{items_left};

use crate::presences::Items;
use crate::tallies::{ByItem, Tally, item_ranges, no_tallies, put_tally, tallies, tally_of};
use kfifo_model::{Call, Effect, History, Side};
use std::alloc::{AllocError, Global};

/// How often this item was put.
fn count_in(puts: &ByItem, item: u32) -> usize
    ensures { result ≡ specs.count_in puts.now item }
{
    tally_of(puts, item).count
}

/// Says that this item was put so often.
fn set_count(puts: &mut ByItem, item: u32, count: usize) -> Result<(), AllocError>
    ensures set { OnOk result (specs.count_in puts.new item ≡ count) }
    ensures others { OnOk result ((other : ℕ) → other ≢ item
        → specs.count_in puts.new other ≡ specs.count_in puts.old other) }
{
    let tally = Tally {
        count,
        earliest: 0,
        last: 0,
    };
    put_tally(puts, item, tally)
}

/// The item of an enqueue that returned Done.
fn done_item(call: &Call) -> Option<u32>
    ensures { result ≡ specs.done_item call.now }
{
    match (call.end, call.effect()) {
        (Some(_), Effect::Adds(item)) => Some(item),
        _ => None,
    }
}

/// Returns how many items are left at the end of the history: each item as often as calls that returned Done put it
/// more than calls got it. An item whose put has not ended counts for none. An error means that an allocation failed.
pub fn items_remaining(alloc: Global, history: &History) -> Result<usize, AllocError>
    ensures { IfOk result (λ left. left ≡ items_left history.now) }
{
    left_of(alloc, history.calls())
}

/// How many items are left at the end of these calls.
fn left_of(alloc: Global, calls: &[Call]) -> Result<usize, AllocError>
    ensures { IfOk result (λ left. left ≡ items_left calls.now) }
{
    let (put, got) = item_ranges(calls);
    let gets = tallies(alloc, calls, Side::Out, got)?;
    let mut puts = no_tallies(alloc, calls.len(), put)?;
    let mut left: usize = 0;
    for (n, call) in calls.iter().enumerate() {
        if let Some(item) = done_item(call) {
            let before = count_in(&puts, item);
            if tally_of(&gets, item).count <= before {
                left += 1;
            }
            set_count(&mut puts, item, before + 1)?;
        }
    }
    Ok(left)
}

/// How many items are left at the end of these calls, if each item that an enqueue put is put by no other.
fn left_of_single(calls: &[Call], items: &Items) -> Option<usize>
    requires { IsIndexed calls.now items.now }
    ensures { IfSome result (λ left. left ≡ items_left calls.now) }
{
    let mut left: usize = 0;
    for (n, call) in calls.iter().enumerate() {
        if let Some(item) = done_item(call) {
            if tally_of(&items.puts, item).count != 1 {
                return None;
            }
            if tally_of(&items.gets, item).count == 0 {
                left += 1;
            }
        }
    }
    Some(left)
}

/// How many items are left at the end of these calls, by the calls of each item.
pub(crate) fn left_by(alloc: Global, calls: &[Call], items: &Items) -> Result<usize, AllocError>
    requires { IsIndexed calls.now items.now }
    ensures { IfOk result (λ left. left ≡ items_left calls.now) }
{
    match left_of_single(calls, items) {
        Some(left) => Ok(left),
        None => left_of(alloc, calls),
    }
}
