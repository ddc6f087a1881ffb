//! The calls of a side in a list, by their items, and those of an item by what counts of them.
ghost use Rattle.std.specs.Prelude.{◌≡◌, length, IfOk};
ghost use Rattle.std.specs.List.{count_by};
ghost use Rattle.std.specs.List.Sorted.{IsSortedBy};
ghost use Rattle.kfifo_verdict.specs.Evidence.{last_step};
ghost use Rattle.kfifo_verdict.specs.Plain.{lower};
ghost use Rattle.kfifo_verdict.specs.Steps.{outer_step, IsKey, AreKeyed, AreSorted, is_below};
ghost use Rattle.kfifo_verdict.specs.declared.steps.Key.TheVariants.{Inner};

use kfifo_model::{Call, Side};
use std::alloc::{AllocError, Global};

/// A call by what it is sorted by: its item, what counts of the call, and its number.
pub(crate) type Keyed = (u32, u64, usize);

/// What counts of a call.
#[derive(Clone, Copy)]
pub(crate) enum Key {
    /// The end of the stretch in which its item may be inside: of a put its first step, of a get its last.
    Outer,
    /// The end of the stretch in which its item is certainly inside: of a put its last step, of a get its first.
    Inner,
    /// Its number.
    Number,
}

/// The last step of a call, or 0 where it has not ended.
pub(crate) fn last_step(call: &Call) -> u64
    ensures { result ≡ last_step call.now.end }
{
    match call.end {
        Some(end) => end.last,
        None => 0,
    }
}

/// Of a put its first step, of a get its last.
fn outer_step(side: Side, call: &Call) -> u64
    ensures { result ≡ outer_step side call.now }
{
    match side {
        Side::In => call.first,
        Side::Out => last_step(call),
    }
}

/// Of a put its last step, if it has ended, of a get its first.
fn inner_step(side: Side, call: &Call) -> Option<u64>
    ensures { IsKey Inner side 0 call.now result }
{
    match (side, call.end) {
        (Side::In, Some(end)) => Some(end.last),
        (Side::In, None) => None,
        (Side::Out, _) => Some(call.first),
    }
}

/// What counts of call n.
fn key_of(key: Key, side: Side, n: usize, call: &Call) -> Option<u64>
    ensures { IsKey key side n call.now result }
{
    match key {
        Key::Outer => Some(outer_step(side, call)),
        Key::Inner => inner_step(side, call),
        Key::Number => Some(n as u64),
    }
}

/// The calls of a side with what counts of them.
fn keyed(alloc: Global, calls: &[Call], side: Side, key: Key) -> Result<Vec<Keyed>, AllocError>
    ensures { IfOk result (λ steps. AreKeyed key calls.now side (length calls.now) steps.items) }
{
    let mut steps = Vec::new(alloc);
    for (n, call) in calls.iter().enumerate() {
        if let Some(item) = side.item_of(call) {
            if let Some(counted) = key_of(key, side, n, call) {
                steps.push((item, counted, n))?;
            }
        }
    }
    Ok(steps)
}

/// The calls of a side by their items, and those of an item by what counts of them.
pub(crate) fn sorted(
    alloc: Global,
    calls: &[Call],
    side: Side,
    key: Key,
) -> Result<Vec<Keyed>, AllocError>
    ensures { IfOk result (λ steps. AreSorted key calls.now side steps.items) }
{
    let mut steps = keyed(alloc, calls, side, key)?;
    steps.sort_unstable();
    Ok(steps)
}

/// Whether an entry is of a lower item.
fn is_below(entry: &Keyed, item: u32) -> bool
    ensures { result ≡ is_below item entry.now }
{
    entry.0 < item
}

/// How many entries are of lower items.
pub(crate) fn count_below(steps: &[Keyed], item: u32) -> usize
    requires { IsSortedBy lower steps.now }
    ensures { result ≡ count_by (is_below item) steps.now }
{
    steps.partition_point(|entry| is_below(entry, item))
}
