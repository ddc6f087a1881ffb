//! All certain overtakings of a history.
ghost use Rattle.std.specs.Prelude.{ℕ, ◌≡◌, ◌<◌, ◌↔◌, Option, Some, None, List, length};
ghost use Rattle.std.specs.Prelude.{IfOk, MatchOption, MatchResult, MatchBool, count_by};
ghost use Rattle.std.specs.List.{flat_map};
ghost use Rattle.std.specs.Ordering.{nat_cmp};
ghost use Rattle.std.specs.BTreeMap.{get};
ghost use Rattle.kfifo_model.specs.Measures.{IsDoneEnqueue, HasDistinctItems, done_item};
ghost use Rattle.kfifo_model.specs.Measures.{measured, IsMeasureFault, measure_fault_number};
ghost use Rattle.kfifo_model.specs.Index.{IsIndex};
ghost use Rattle.kfifo_model.specs.Rivals.{last_of, is_beaten};

use crate::blocks::{Block, blocks_of, count_in};
use crate::calls::{Answer, Call, Op};
use crate::effects::Side;
use crate::history::History;
use crate::index::index_of;
use crate::rivals::rivals;
use std::alloc::{AllocError, Global};
use std::collections::BTreeMap;
use thiserror::Error;

/// How often the item of one enqueue is certainly overtaken.
#[derive(Clone, Copy, Debug, PartialEq, Eq)]
pub struct Overtaken {
    /// The number of the enqueue.
    pub call: usize,
    /// Its item.
    pub item: u32,
    /// How often the item is overtaken.
    pub count: usize,
}

/// Why nothing was counted.
#[derive(Clone, Copy, Debug, PartialEq, Eq, Error)]
pub enum MeasureFault {
    /// 2, as for one call: two enqueues, each Done or unfinished, carry one item, or two dequeues got one.
    #[error("an item is repeated: it was put or taken twice")]
    RepeatedItem,
    /// 3: an allocation failed.
    #[error("out of memory")]
    Memory,
}

impl MeasureFault {
    /// The fault's number: 2 for a repeated item, as where one call is asked for, and 3.
    pub fn number(self) -> u32
        ensures { result ≡ measure_fault_number self }
    {
        match self {
            MeasureFault::RepeatedItem => 2,
            MeasureFault::Memory => 3,
        }
    }
}

impl From<AllocError> for MeasureFault {
    ghost use Rattle.kfifo_model.specs.declared.overtakings.MeasureFault.TheVariants.{Memory};

    ghost from_gives = { λ _ fault. fault ≡ Memory };

    fn from(_: AllocError) -> MeasureFault {
        MeasureFault::Memory
    }
}

/// The item of a finished enqueue with answer Done.
fn item_done(call: &Call) -> Option<u32>
    ensures { result ≡ done_item call.now.op call.now.end }
{
    match (call.op, call.end) {
        (Op::Enqueue(x), Some(end)) => match end.answer {
            Answer::Done => Some(x),
            _ => None,
        },
        _ => None,
    }
}

/// How often the item of one call is overtaken, where it is a finished enqueue with answer Done.
fn measure_call(
    n: usize,
    call: &Call,
    blocks: &[Block],
    gots: &BTreeMap<u32, u64>,
) -> Option<Overtaken>
    requires { length (flat_map (λ b. b) blocks.now) < 9223372036854775808 }
    ensures { MatchOption result (done_item call.now.op call.now.end ≡ None)
        (λ o. (o.call ≡ n) × (done_item call.now.op call.now.end ≡ Some o.item)
        × (o.count ≡ count_by (λ r. is_beaten (last_of call.now.end) (get nat_cmp gots.now o.item) r)
        (flat_map (λ b. b) blocks.now))) }
{
    let Some(item) = item_done(call) else {
        return None;
    };
    let last = match call.end {
        Some(end) => end.last,
        None => 0,
    };
    let got = gots.get(&item).copied();
    Some(Overtaken {
        call: n,
        item,
        count: count_in(blocks, last, got),
    })
}

/// How often the item of each finished enqueue with answer Done is overtaken, in the order of the calls.
fn measure_calls(
    alloc: Global,
    calls: &[Call],
    puts: &BTreeMap<u32, u64>,
    gots: &BTreeMap<u32, u64>,
) -> Result<Vec<Overtaken>, AllocError>
    requires puts { IsIndex calls.now Side.In (length calls.now) (λ x. get nat_cmp puts.now x) }
    requires gots { IsIndex calls.now Side.Out (length calls.now) (λ x. get nat_cmp gots.now x) }
    ensures { IfOk result (λ v. v.items ≡ measured calls.now (length calls.now)) }
{
    let mut rivals = rivals(alloc, calls, puts)?;
    // Blocks of rivals that were put soon after each other: at most one of all blocks is counted one by one.
    rivals.sort_by_key(|rival| rival.put_first)?;
    let blocks = blocks_of(alloc, &rivals)?;
    let mut found = Vec::new(alloc);
    for (n, call) in calls.iter().enumerate() {
        if let Some(overtaken) = measure_call(n, call, &blocks, gots) {
            found.push(overtaken)?;
        }
    }
    Ok(found)
}

/// Whether some call is a finished enqueue with answer Done.
fn has_done(calls: &[Call]) -> bool
    ensures { MatchBool result ((n : ℕ) × IsDoneEnqueue calls.now n) ((n : ℕ) → IsDoneEnqueue calls.now n → ⊥) }
{
    for call in calls {
        if item_done(call).is_some() {
            return true;
        }
    }
    false
}

/// Returns for each finished enqueue that returned Done, in ascending order of call number, how many items certainly
/// overtake its item. Such an item was put by a call that began after this enqueue had ended. It was taken by a call
/// that had ended when this item's dequeue began, or this item was never taken.
///
/// ```rust
/// for overtaken in measure(alloc, &history)? {
///     assert!(rt;
///         overtaken.count < shape.k() as usize,
///         "{shape:?} {overtaken:?}"
///     );
/// }
/// ```
///
/// Refuses: RepeatedItem where there is such an enqueue, and two enqueues that are Done or unfinished carry one item or
/// two dequeues got one; Memory where an allocation failed.
pub fn measure(alloc: Global, history: &History) -> Result<Vec<Overtaken>, MeasureFault>
    ensures { MatchResult result
        (λ v. (v.items ≡ measured history.now (length history.now))
        × ((n : ℕ) → IsDoneEnqueue history.now n → HasDistinctItems history.now))
        (IsMeasureFault history.now) }
{
    measure_among(alloc, history.calls())
}

/// The same for the calls of a history.
fn measure_among(alloc: Global, calls: &[Call]) -> Result<Vec<Overtaken>, MeasureFault>
    ensures { MatchResult result
        (λ v. (v.items ≡ measured calls.now (length calls.now))
        × ((n : ℕ) → IsDoneEnqueue calls.now n → HasDistinctItems calls.now))
        (IsMeasureFault calls.now) }
{
    if !has_done(calls) {
        return Ok(Vec::new(alloc));
    }
    let Some(puts) = index_of(alloc, calls, Side::In)? else {
        return Err(MeasureFault::RepeatedItem);
    };
    let Some(gots) = index_of(alloc, calls, Side::Out)? else {
        return Err(MeasureFault::RepeatedItem);
    };
    Ok(measure_calls(alloc, calls, &puts, &gots)?)
}
