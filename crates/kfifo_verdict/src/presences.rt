//! When the items of puts are certainly there.
ghost use Rattle.std.specs.Prelude.{ℕ, ◌≡◌, ◌<◌, length, IfOk};
ghost use Rattle.kfifo_model.specs.Validity.{IsHistory};
ghost use Rattle.kfifo_verdict.specs.Finding.{ArePuts, AreGets, IsPresence, ArePresences, IsIndexed};

use crate::finding::{Stay, longest_stays};
use crate::precedence::first_after;
use crate::tallies::{ByItem, both_tallies, item_ranges, tally_of};
use crate::turns::is_plain;
use kfifo_model::{Call, Effect};
use std::alloc::{AllocError, Global};

/// The calls that begin while the item of a put is certainly there: from number `start` on, below number `gone`.
#[derive(Clone, Copy)]
pub(crate) struct Presence {
    /// The first call that the put precedes, or the number of calls.
    pub start: usize,
    /// The call that gets the item, or the number of calls.
    pub gone: usize,
}

impl Presence {
    /// That an item is there at none of these calls.
    pub(crate) fn never(calls: &[Call]) -> Presence
        ensures start { result.start ≡ length calls.now }
        ensures gone { result.gone ≡ 0 }
    {
        Presence {
            start: calls.len(),
            gone: 0,
        }
    }
}

/// The calls of a history by their items.
#[derive(Drop)]
pub(crate) struct Items {
    /// Those that put each item.
    pub puts: ByItem,
    /// Those that got it.
    pub gets: ByItem,
    /// For each call, when the single item that it put is certainly there, or never.
    pub presences: Vec<Presence>,
    /// For each call, the item that stays longest of all that are certainly there from that call or an earlier one on.
    pub stays: Vec<Stay>,
    /// Whether each item that is put is single, and each call has ended.
    pub plain: bool,
}

/// When the item of a call is certainly there, if it is a single item's put, or never.
fn presence_of(calls: &[Call], puts: &ByItem, gets: &ByItem, p: usize) -> Presence
    requires history { IsHistory calls.now }
    requires inside { p < length calls.now }
    requires puts { ArePuts calls.now puts.now }
    requires gets { AreGets calls.now gets.now }
    ensures { IsPresence calls.now p result }
{
    let never = Presence::never(calls);
    let Effect::Adds(item) = calls[p].effect() else {
        return never;
    };
    let got = tally_of(gets, item);
    if tally_of(puts, item).count != 1 || got.count > 1 {
        return never;
    }
    Presence {
        start: first_after(calls, p, &calls[p]),
        gone: if got.count == 0 {
            calls.len()
        } else {
            got.last
        },
    }
}

/// When the item of each call is certainly there.
fn presences(
    alloc: Global,
    calls: &[Call],
    puts: &ByItem,
    gets: &ByItem,
) -> Result<Vec<Presence>, AllocError>
    requires history { IsHistory calls.now }
    requires puts { ArePuts calls.now puts.now }
    requires gets { AreGets calls.now gets.now }
    ensures { IfOk result (λ v. ArePresences calls.now (length calls.now) v.items) }
{
    let mut found = Vec::with_capacity(alloc, calls.len())?;
    for p in 0..calls.len() {
        found.push(presence_of(calls, puts, gets, p))?;
    }
    Ok(found)
}

impl Items {
    /// The calls of a history, by their items.
    pub(crate) fn of(alloc: Global, calls: &[Call]) -> Result<Items, AllocError>
        requires { IsHistory calls.now }
        ensures { IfOk result (IsIndexed calls.now) }
    {
        let (put, got) = item_ranges(calls);
        let (puts, gets) = both_tallies(alloc, calls, put, got)?;
        let presences = presences(alloc, calls, &puts, &gets)?;
        let stays = longest_stays(alloc, calls, &presences)?;
        let plain = is_plain(calls, &puts, &gets);
        Ok(Items {
            puts,
            gets,
            presences,
            stays,
            plain,
        })
    }
}
