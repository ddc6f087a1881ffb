//! Calls that got an item which a call put: those that may have overtaken another item.
ghost use Rattle.std.specs.Prelude.{◌≡◌, length, IfOk};
ghost use Rattle.std.specs.Ordering.{nat_cmp};
ghost use Rattle.std.specs.BTreeMap.{get};
ghost use Rattle.kfifo_model.specs.Histories.{effect_of};
ghost use Rattle.kfifo_model.specs.Rivals.{rival_of, rivals_below, last_of};

use crate::calls::Call;
use crate::measures::taken;
use std::alloc::{AllocError, Global};
use std::collections::BTreeMap;

/// A call that got an item which a call put.
#[derive(Clone, Copy)]
pub struct Rival {
    /// The first step of the call that put the item.
    pub put_first: u64,
    /// The last step of the call that got it.
    pub got_last: u64,
}

/// What a call got that an indexed call put.
fn rival_in(call: &Call, puts: &BTreeMap<u32, u64>) -> Option<Rival>
    ensures { result ≡ rival_of (λ x. get nat_cmp puts.now x) (effect_of call.now) (last_of call.now.end) }
{
    let Some(item) = taken(call) else {
        return None;
    };
    let Some(first) = puts.get(&item) else {
        return None;
    };
    let got_last = match call.end {
        Some(end) => end.last,
        None => 0,
    };
    Some(Rival {
        put_first: *first,
        got_last,
    })
}

/// What each call got that an indexed call put, in the order of the calls.
pub(crate) fn rivals(
    alloc: Global,
    calls: &[Call],
    puts: &BTreeMap<u32, u64>,
) -> Result<Vec<Rival>, AllocError>
    ensures { IfOk result (λ v. v.items ≡ rivals_below calls.now (λ x. get nat_cmp puts.now x) (length calls.now)) }
{
    let mut found = Vec::new(alloc);
    for call in calls {
        if let Some(rival) = rival_in(call, puts) {
            found.push(rival)?;
        }
    }
    Ok(found)
}
