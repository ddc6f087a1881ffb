//! The items of a history by the calls that put and got them.
ghost use Rattle.std.specs.Prelude.{◌≡◌, Option, length, IfOk, MatchOption, MatchBool};
ghost use Rattle.std.specs.Ordering.{nat_cmp};
ghost use Rattle.std.specs.BTreeMap.{get};
ghost use Rattle.kfifo_model.specs.Measures.{HasDistinctItems};
ghost use Rattle.kfifo_model.specs.Index.{IsIndex, HasTwo};

use crate::calls::Call;
use crate::effects::Side;
use crate::history::History;
use std::alloc::{AllocError, Global};
use std::collections::BTreeMap;

/// The first step of each item's call of this side, or none where an item has two.
pub(crate) fn index_of(
    alloc: Global,
    calls: &[Call],
    side: Side,
) -> Result<Option<BTreeMap<u32, u64>>, AllocError>
    ensures { IfOk result (λ o. MatchOption o (HasTwo calls.now side)
        (λ m. IsIndex calls.now side (length calls.now) (λ x. get nat_cmp m x))) }
{
    let mut firsts = BTreeMap::new(alloc);
    for call in calls {
        if let Some(item) = side.item_of(call) {
            if firsts.insert(item, call.first)?.is_some() {
                return Ok(None);
            }
        }
    }
    Ok(Some(firsts))
}

/// Returns whether two calls of the history put one item, or two got one. An unfinished enqueue puts its item.
///
/// Fails if an allocation fails.
pub fn items_repeat(alloc: Global, history: &History) -> Result<bool, AllocError>
    ensures { IfOk result (λ repeat. MatchBool repeat (HasDistinctItems history.now → ⊥)
        (HasDistinctItems history.now)) }
{
    let calls = history.calls();
    let Some(_puts) = index_of(alloc, calls, Side::In)? else {
        return Ok(true);
    };
    let Some(_gets) = index_of(alloc, calls, Side::Out)? else {
        return Ok(true);
    };
    Ok(false)
}
