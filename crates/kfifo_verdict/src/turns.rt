//! A legal order of the calls of a plain history for k = 1.
//!
//! Moments are numbers of calls. Each item goes in as late as it may: its put may not end before, nor its get, nor the
//! put of an item whose get begins after that get. The items stand in line by these moments, and each goes out as soon
//! as its get has begun and those before it are out. So the list is empty as each call begins at which no item is
//! certainly there.
ghost use Rattle.std.specs.Prelude.{ℕ, ◌≡◌, ◌+◌, ◌<◌, ◌≤◌, ◌↔◌, ◌^◌, IsTrue, List, length, map, slice_index_or, IfOk};
ghost use Rattle.std.specs.Prelude.{IfSome, IsSome};
ghost use Rattle.kfifo_model.specs.Histories.{IsLegal};
ghost use Rattle.kfifo_model.specs.Validity.{IsHistory};
ghost use Rattle.kfifo_verdict.specs.Finding.{ArePuts, AreGets, ArePresences, AreStays, AreLongest, IsIndexed};
ghost use Rattle.kfifo_verdict.specs.Judging.{HasNoEvidence, IsPlain};
ghost use Rattle.kfifo_verdict.specs.Plain.{presence, IsLate, IsDue, ArePlaces, IsLine, AreIdle, AreTurns, AreNumbered};
ghost use Rattle.kfifo_verdict.specs.Plain.{IsByTurns};

use crate::finding::{Covered, Stay, cover};
use crate::precedence::first_after;
use crate::presences::{Items, Presence};
use crate::sorting::sort_nearly;
use crate::tallies::{ByItem, tally_of};
use kfifo_model::{Call, Effect};
use std::alloc::{AllocError, Global};

/// The place of an item in the line: by when it has to be in, by when out, and its put.
type Place = (usize, usize, usize);

/// The turn of a call: its moment and its rank, and the number of the call.
type Numbered = (usize, usize, usize);

/// When a call has its turn: at a moment, and at one moment in ascending order of rank.
#[derive(Clone, Copy)]
pub(crate) struct Turn {
    /// The moment: a call's number, for when it begins, or the number of calls, for the end.
    pub moment: usize,
    /// Puts have lower ranks than gets, and gets than other calls.
    pub rank: usize,
}

/// The first call that the get of an item precedes, or one past the end of all calls where none gets it.
fn late_of(calls: &[Call], gone: usize) -> usize
    requires { IsHistory calls.now }
    ensures { IsLate calls.now gone result }
{
    if gone < calls.len() {
        first_after(calls, gone, &calls[gone])
    } else {
        calls.len() + 1
    }
}

/// The call that gets the item of a put, or the number of calls.
fn gone_of(presences: &[Presence], put: usize) -> usize
    requires { put < length presences.now }
    ensures { result ≡ (presence presences.now put).gone }
{
    presences[put].gone
}

/// By when the item of put p has to be in, if it has to be out by `late`.
fn due_of(presences: &[Presence], stays: &[Stay], p: usize, late: usize) -> usize
    requires longest { AreLongest presences.now stays.now }
    requires inside { p < length presences.now }
    requires late { 0 < late }
    requires bound { (presence presences.now p).start ≤ length presences.now }
    ensures { IsDue presences.now p late result }
{
    let next = stays.partition_point(|stay| stay.gone < late);
    presences[p].start.min(late).min(next)
}

/// The places of all items.
fn places(
    alloc: Global,
    calls: &[Call],
    presences: &[Presence],
    stays: &[Stay],
) -> Result<Vec<Place>, AllocError>
    requires history { IsHistory calls.now }
    requires plain { IsPlain calls.now }
    requires presences { ArePresences calls.now (length calls.now) presences.now }
    requires longest { AreLongest presences.now stays.now }
    ensures { IfOk result (λ places. ArePlaces calls.now presences.now (length calls.now) places.items) }
{
    let mut places = Vec::with_capacity(alloc, calls.len())?;
    for p in 0..calls.len() {
        if let Effect::Adds(_) = calls[p].effect() {
            let late = late_of(calls, gone_of(presences, p));
            places.push((due_of(presences, stays, p, late), late, p))?;
        }
    }
    Ok(places)
}

/// A turn for each call, as if all neither put nor got an item: an Empty as a call begins at which no item is certainly
/// there.
fn idle_turns(
    alloc: Global,
    calls: &[Call],
    presences: &[Presence],
    stays: &[Stay],
    rank: usize,
) -> Result<Vec<Turn>, AllocError>
    requires history { IsHistory calls.now }
    requires stays { AreStays calls.now stays.now }
    requires longest { AreLongest presences.now stays.now }
    requires sized { length presences.now ≡ length calls.now }
    requires clear { HasNoEvidence 1 calls.now }
    ensures { IfOk result (λ turns. AreIdle calls.now presences.now rank (length calls.now) turns.items) }
{
    let mut turns = Vec::with_capacity(alloc, calls.len())?;
    for n in 0..calls.len() {
        let mut moment = n;
        if let Effect::FindsNone = calls[n].effect() {
            if let Covered::Gap(gap) = cover(alloc, calls, stays, n)? {
                moment = gap;
            }
        }
        turns.push(Turn { moment, rank })?;
    }
    Ok(turns)
}

/// The turns of all calls, from the turns of the calls that neither put nor get an item.
fn with_items(calls: &[Call], presences: &[Presence], line: &[Place], idle: Vec<Turn>) -> Vec<Turn>
    requires history { IsHistory calls.now }
    requires plain { IsPlain calls.now }
    requires presences { ArePresences calls.now (length calls.now) presences.now }
    requires line { IsLine calls.now presences.now line.now }
    requires idle { AreIdle calls.now presences.now (length line.now + length line.now) (length calls.now) idle.items }
    ensures { AreTurns calls.now presences.now line.now (length line.now) result.items }
{
    let mut turns = idle;
    let mut latest: usize = 0;
    for i in 0..line.len() {
        let (due, _, put) = line[i];
        let gone = gone_of(presences, put);
        latest = latest.max(due).max(gone);
        turns[put] = Turn {
            moment: due,
            rank: i,
        };
        if gone < turns.len() {
            turns[gone] = Turn {
                moment: latest,
                rank: line.len() + i,
            };
        }
    }
    turns
}

/// The turns with their calls.
fn numbered(alloc: Global, turns: &[Turn]) -> Result<Vec<Numbered>, AllocError>
    ensures { IfOk result (λ numbered. AreNumbered turns.now (length turns.now) numbered.items) }
{
    let mut numbered = Vec::with_capacity(alloc, turns.len())?;
    for n in 0..turns.len() {
        numbered.push((turns[n].moment, turns[n].rank, n))?;
    }
    Ok(numbered)
}

/// The calls of numbered turns.
fn calls_of(alloc: Global, numbered: &[Numbered]) -> Result<Vec<usize>, AllocError>
    ensures { IfOk result (λ calls. calls.items ≡ map (λ t. t.2) numbered.now) }
{
    numbered
        .iter()
        .map(|(_moment, _rank, call)| *call)
        .collect(alloc)
}

/// The calls by their turns.
fn by_turns(alloc: Global, turns: &[Turn]) -> Result<Vec<usize>, AllocError>
    ensures { IfOk result (λ order. IsByTurns turns.now order.items) }
{
    let mut numbered = numbered(alloc, turns)?;
    sort_nearly(&mut numbered);
    calls_of(alloc, numbered.as_slice())
}

/// Whether each item that is put is single, and each call has ended.
pub(crate) fn is_plain(calls: &[Call], puts: &ByItem, gets: &ByItem) -> bool
    requires puts { ArePuts calls.now puts.now }
    requires gets { AreGets calls.now gets.now }
    ensures { IsTrue result ↔ IsPlain calls.now }
{
    for n in 0..calls.len() {
        if calls[n].end.is_none() {
            return false;
        }
        if let Effect::Adds(item) = calls[n].effect() {
            if tally_of(puts, item).count != 1 || tally_of(gets, item).count > 1 {
                return false;
            }
        }
    }
    true
}

/// A legal order for k = 1 of the calls of a plain history without evidence.
fn plain_order(alloc: Global, calls: &[Call], items: &Items) -> Result<Vec<usize>, AllocError>
    requires history { IsHistory calls.now }
    requires items { IsIndexed calls.now items.now }
    requires plain { IsPlain calls.now }
    requires clear { HasNoEvidence 1 calls.now }
    ensures { IfOk result (λ order. IsLegal 1 calls.now order.items) }
{
    let presences = items.presences.as_slice();
    let stays = items.stays.as_slice();
    let mut places = places(alloc, calls, presences, stays)?;
    sort_nearly(&mut places);
    let line = places.as_slice();
    let rank = line.len() + line.len();
    let idle = idle_turns(alloc, calls, presences, stays, rank)?;
    let turns = with_items(calls, presences, line, idle);
    by_turns(alloc, turns.as_slice())
}

/// A legal order for k = 1 of the calls of a history without evidence, where it is plain: each item that is put is
/// single, and each call has ended. Its time is near linear in the calls.
pub(crate) fn order_of_plain(
    alloc: Global,
    calls: &[Call],
    items: &Items,
) -> Result<Option<Vec<usize>>, AllocError>
    requires history { IsHistory calls.now }
    requires items { IsIndexed calls.now items.now }
    requires clear { HasNoEvidence 1 calls.now }
    ensures legal { IfOk result (λ found. IfSome found (λ order. IsLegal 1 calls.now order.items)) }
    ensures complete { IsPlain calls.now → IfOk result (λ found. IsSome found) }
{
    if items.plain {
        Ok(Some(plain_order(alloc, calls, items)?))
    } else {
        Ok(None)
    }
}
