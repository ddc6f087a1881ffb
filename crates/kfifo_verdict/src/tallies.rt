//! How often, when first and where last each item is put, or got.
ghost use Rattle.std.specs.Prelude.{ℕ, ◌≡◌, ◌≢◌, ◌<◌, ◌+◌, ◌-◌, ◌≤◌, ◌^◌, Bool, true, false, length, IfOk, MatchOption};
ghost use Rattle.std.specs.Prelude.{OnOk};
ghost use Rattle.kfifo_model.specs.declared.effects.Side.TheVariants.{In, Out};
ghost use Rattle.kfifo_verdict.specs.Finding.{IsTally, IsTallied, is_near, no_tally, tally_in};

use kfifo_model::{Call, Effect, Side};
use std::alloc::{AllocError, Global};
use std::collections::BTreeMap;

/// Some calls, counted.
#[derive(Clone, Copy)]
pub(crate) struct Tally {
    /// How many they are.
    pub count: usize,
    /// The least of their first steps, if there are any.
    pub earliest: u64,
    /// The number of the last of them, if there are any.
    pub last: usize,
}

/// How many items for each call a list of tallies may have.
const MOST_PER_CALL: usize = 8;

/// The tally of no calls.
pub(crate) const NO_CALLS: Tally = Tally {
    count: 0,
    earliest: 0,
    last: 0,
};

/// A tally of each item. Those of items that lie close together stand in a list, and all others in a tree.
// A run of a test has the items of a few rounds, and a list of them costs a tenth of a tree.
#[derive(Drop)]
pub(crate) struct ByItem {
    /// The item of the first tally of the list.
    pub least: u32,
    /// The tallies of that item and those after it.
    pub near: Vec<Tally>,
    /// The tallies of all other items that have one.
    pub far: BTreeMap<u32, Tally>,
}

/// The place of an item in a list of this many tallies, the first of which is of the least item.
pub(crate) fn near_place(least: u32, count: usize, item: u32) -> Option<usize>
    ensures { MatchOption result (is_near least count item ≡ false)
        (λ place. (is_near least count item ≡ true) × (place ≡ item - least) × (place < count)) }
{
    if item < least {
        return None;
    }
    let place = (item - least) as usize;
    if place < count { Some(place) } else { None }
}

/// One more call in a tally.
fn with(tally: Tally, n: usize, first: u64) -> Tally
    requires few { tally.count ≤ n }
    requires room { n < 2 ^ 63 }
    ensures { (test : ℕ → Bool) (firsts : ℕ → ℕ) → IsTally test firsts n tally → test n ≡ true → firsts n ≡ first
        → IsTally test firsts (n + 1) result }
{
    let earliest = if tally.count == 0 || first < tally.earliest {
        first
    } else {
        tally.earliest
    };
    Tally {
        count: tally.count + 1,
        earliest,
        last: n,
    }
}

/// The calls of a side that have this item.
#[inline(always)]
pub(crate) fn tally_of(tallies: &ByItem, item: u32) -> Tally
    ensures { result ≡ tally_in tallies.now item }
{
    match near_place(tallies.least, tallies.near.len(), item) {
        Some(place) => tallies.near[place],
        None => tallies.far.get(&item).copied().unwrap_or(NO_CALLS),
    }
}

/// Puts a tally in the place of the item's.
#[inline(always)]
pub(crate) fn put_tally(tallies: &mut ByItem, item: u32, tally: Tally) -> Result<(), AllocError>
    ensures put { OnOk result (tally_in tallies.new item ≡ tally) }
    ensures others { OnOk result ((other : ℕ) → other ≢ item
        → tally_in tallies.new other ≡ tally_in tallies.old other) }
{
    match near_place(tallies.least, tallies.near.len(), item) {
        Some(place) => tallies.near[place] = tally,
        None => {
            tallies.far.insert(item, tally)?;
        }
    }
    Ok(())
}

/// The items from the least to the greatest of some, or none where the least is the greater.
#[derive(Clone, Copy)]
pub(crate) struct ItemRange {
    /// The least item.
    pub least: u32,
    /// The greatest item.
    pub greatest: u32,
}

impl ItemRange {
    /// The range of no items.
    fn empty() -> ItemRange {
        ItemRange {
            least: u32::MAX,
            greatest: 0,
        }
    }

    /// The range that has this item too.
    fn reaching(self, item: u32) -> ItemRange {
        ItemRange {
            least: self.least.min(item),
            greatest: self.greatest.max(item),
        }
    }

    /// The range that has the items of both.
    pub(crate) fn with(self, other: ItemRange) -> ItemRange {
        ItemRange {
            least: self.least.min(other.least),
            greatest: self.greatest.max(other.greatest),
        }
    }

    /// How many items there are, if these are not much more than this many calls; else 0.
    pub(crate) fn few(self, calls: usize) -> usize {
        let span = self.greatest.saturating_sub(self.least) as usize;
        if self.least <= self.greatest && span < calls.saturating_mul(MOST_PER_CALL) {
            span + 1
        } else {
            0
        }
    }
}

/// The ranges of the items that calls put and that calls got.
pub(crate) fn item_ranges(calls: &[Call]) -> (ItemRange, ItemRange) {
    let mut puts = ItemRange::empty();
    let mut gets = ItemRange::empty();
    for call in calls {
        match call.effect() {
            Effect::Adds(item) => puts = puts.reaching(item),
            Effect::Takes(item) => gets = gets.reaching(item),
            _ => {}
        }
    }
    (puts, gets)
}

/// No tallies of this many calls, with a list for the items of the range if they lie close together.
pub(crate) fn no_tallies(
    alloc: Global,
    calls: usize,
    range: ItemRange,
) -> Result<ByItem, AllocError>
    ensures { IfOk result (λ m. (item : ℕ) → tally_in m item ≡ no_tally) }
{
    let count = range.few(calls);
    Ok(ByItem {
        least: range.least,
        near: vec![in alloc; NO_CALLS; count]?,
        far: BTreeMap::new(alloc),
    })
}

/// Counts a call, with this number and this first step, in the tally of its item.
#[inline(always)]
fn count_call(tallies: &mut ByItem, item: u32, n: usize, first: u64) -> Result<(), AllocError>
    requires few { (tally_in tallies.old item).count ≤ n }
    requires room { n < 2 ^ 63 }
    ensures counted { OnOk result ((test : ℕ → Bool) (firsts : ℕ → ℕ)
        → IsTally test firsts n (tally_in tallies.old item) → test n ≡ true → firsts n ≡ first
        → IsTally test firsts (n + 1) (tally_in tallies.new item)) }
    ensures others { OnOk result ((other : ℕ) → other ≢ item
        → tally_in tallies.new other ≡ tally_in tallies.old other) }
{
    let tally = with(tally_of(tallies, item), n, first);
    put_tally(tallies, item, tally)
}

/// The tallies of the items that calls put, and those of the items that calls got, which lie in these ranges.
pub(crate) fn both_tallies(
    alloc: Global,
    calls: &[Call],
    put: ItemRange,
    got: ItemRange,
) -> Result<(ByItem, ByItem), AllocError>
    ensures { IfOk result (λ both. IsTallied calls.now In (length calls.now) (tally_in both.0)
        × IsTallied calls.now Out (length calls.now) (tally_in both.1)) }
{
    let mut puts = no_tallies(alloc, calls.len(), put)?;
    let mut gets = no_tallies(alloc, calls.len(), got)?;
    for (n, call) in calls.iter().enumerate() {
        match call.effect() {
            Effect::Adds(item) => count_call(&mut puts, item, n, call.first)?,
            Effect::Takes(item) => count_call(&mut gets, item, n, call.first)?,
            _ => {}
        }
    }
    Ok((puts, gets))
}

/// The tallies of the items on a side, which lie in this range.
pub(crate) fn tallies(
    alloc: Global,
    calls: &[Call],
    side: Side,
    range: ItemRange,
) -> Result<ByItem, AllocError>
    ensures { IfOk result (λ m. IsTallied calls.now side (length calls.now) (tally_in m)) }
{
    let mut tallies = no_tallies(alloc, calls.len(), range)?;
    for (n, call) in calls.iter().enumerate() {
        if let Some(item) = side.item_of(call) {
            count_call(&mut tallies, item, n, call.first)?;
        }
    }
    Ok(tallies)
}
