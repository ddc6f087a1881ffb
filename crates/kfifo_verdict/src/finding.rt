//! The search for evidence.
ghost use Rattle.std.specs.Prelude.{ℕ, ◌≡◌, ◌+◌, ◌^◌, ◌<◌, ◌≤◌, ◌↔◌, ◌⊎◌, IsTrue, List, length, slice_index_or, IfOk};
ghost use Rattle.std.specs.Prelude.{OnSome, MatchOption};
ghost use Rattle.kfifo_model.specs.Histories.{call, effect_of, does, EndsBelow};
ghost use Rattle.kfifo_model.specs.declared.effects.Effect.TheVariants.{Takes, FindsNone};
ghost use Rattle.kfifo_model.specs.Validity.{IsHistory};
ghost use Rattle.kfifo_model.specs.Searching.{HasOrder};
ghost use Rattle.kfifo_verdict.specs.Evidence.{IsNeverPut, IsTakenTwice, IsNotEmpty, IsTooYoung, IsSingle, Gets};
ghost use Rattle.kfifo_verdict.specs.Evidence.{count_below};
ghost use Rattle.kfifo_verdict.specs.Finding.{ArePuts, AreGets, ArePresences, IsIndexed, AreStays, AreLongest};
ghost use Rattle.kfifo_verdict.specs.Finding.{IsBucketed, IsCovered, outlast, lasts_at};
ghost use Rattle.kfifo_verdict.specs.Finding.{AreSkips, IsCountedTo, AreFirst, HasGaps, first_of};
ghost use Rattle.kfifo_verdict.specs.Judging.{FoundNotEmpty, GotTooYoung, Never, NeverBefore, HasNoEvidence};
ghost use Rattle.kfifo_verdict.specs.Judging.{IsFirstEvidence};
ghost use Rattle.kfifo_verdict.specs.Judging.{HasNoneTo3, IsFirstTo3, HasNoneForEachK, IsFirstForEachK};

use crate::left::items_left;
use crate::older::older_left;
use crate::precedence::{ends_before, first_after};
use crate::presences::{Items, Presence};
use crate::soon::taken_too_soon;
use crate::tallies::{ByItem, tally_of};
use crate::verdicts::Evidence;
use kfifo_model::{Call, Effect, History};
use std::alloc::{AllocError, Global};

/// The put whose item stays longest, and the call until which it does.
#[derive(Clone, Copy)]
pub(crate) struct Stay {
    /// The put.
    pub put: usize,
    /// The call that gets the item, or the number of calls.
    pub gone: usize,
}

/// No stay at all.
const NO_STAY: Stay = Stay { put: 0, gone: 0 };

/// The longer of two.
fn longer(a: Stay, b: Stay) -> Stay
    ensures { ((result ≡ a) × (b.gone ≤ a.gone)) ⊎ ((result ≡ b) × (a.gone ≤ b.gone)) }
{
    if a.gone < b.gone { b } else { a }
}

/// Whether the call got an item before each call that puts it.
fn is_never_put(calls: &[Call], n: usize, puts: &ByItem) -> bool
    requires inside { n < length calls.now }
    requires puts { ArePuts calls.now puts.now }
    ensures { IsTrue result ↔ IsNeverPut calls.now n }
{
    let call = &calls[n];
    let Effect::Takes(item) = call.effect() else {
        return false;
    };
    let put = tally_of(puts, item);
    put.count == 0 || ends_before(call, put.earliest)
}

/// The first call that got an item before each call that puts it.
fn never_put(calls: &[Call], puts: &ByItem) -> Option<usize>
    requires { ArePuts calls.now puts.now }
    ensures { MatchOption result (Never (IsNeverPut calls.now))
        (λ n. IsNeverPut calls.now n × NeverBefore (IsNeverPut calls.now) n) }
{
    for n in 0..calls.len() {
        if is_never_put(calls, n, puts) {
            return Some(n);
        }
    }
    None
}

/// Whether call n got an item that was got more often than put, as the last that got it.
fn is_taken_twice(calls: &[Call], n: usize, puts: &ByItem, gets: &ByItem) -> bool
    requires inside { n < length calls.now }
    requires puts { ArePuts calls.now puts.now }
    requires gets { AreGets calls.now gets.now }
    ensures { IsTrue result ↔ IsTakenTwice calls.now n }
{
    let Effect::Takes(item) = calls[n].effect() else {
        return false;
    };
    let got = tally_of(gets, item);
    got.last == n && tally_of(puts, item).count < got.count
}

/// The first call that got an item which was got more often than put, as the last that got it.
fn taken_twice(calls: &[Call], puts: &ByItem, gets: &ByItem) -> Option<usize>
    requires puts { ArePuts calls.now puts.now }
    requires gets { AreGets calls.now gets.now }
    ensures { MatchOption result (Never (IsTakenTwice calls.now))
        (λ n. IsTakenTwice calls.now n × NeverBefore (IsTakenTwice calls.now) n) }
{
    for n in 0..calls.len() {
        if is_taken_twice(calls, n, puts, gets) {
            return Some(n);
        }
    }
    None
}

/// The same, where each item that was got is put before the end of the call that got it.
fn repeatedly_taken(calls: &[Call], items: &Items) -> Option<usize>
    requires items { IsIndexed calls.now items.now }
    requires put { Never (IsNeverPut calls.now) }
    ensures { MatchOption result (Never (IsTakenTwice calls.now))
        (λ n. IsTakenTwice calls.now n × NeverBefore (IsTakenTwice calls.now) n) }
{
    // In a plain history each such item is put once and got once.
    if items.plain {
        return None;
    }
    taken_twice(calls, &items.puts, &items.gets)
}

/// For each call, the item that stays longest of all that are certainly there from that call on.
fn stays_from(
    alloc: Global,
    calls: &[Call],
    presences: &[Presence],
) -> Result<Vec<Stay>, AllocError>
    requires { ArePresences calls.now (length calls.now) presences.now }
    ensures { IfOk result (λ v. IsBucketed calls.now presences.now (length calls.now) v.items) }
{
    let mut stays = vec![in alloc; NO_STAY; calls.len()]?;
    for p in 0..presences.len() {
        let presence = presences[p];
        let start = presence.start;
        if start < stays.len() {
            let stay = Stay {
                put: p,
                gone: presence.gone,
            };
            stays[start] = longer(stays[start], stay);
        }
    }
    Ok(stays)
}

/// For each call, the item that stays longest of all that are certainly there from that call or an earlier one on.
pub(crate) fn longest_stays(
    alloc: Global,
    calls: &[Call],
    presences: &[Presence],
) -> Result<Vec<Stay>, AllocError>
    requires history { IsHistory calls.now }
    requires presences { ArePresences calls.now (length calls.now) presences.now }
    ensures stays { IfOk result (λ v. AreStays calls.now v.items) }
    ensures longest { IfOk result (λ v. AreLongest presences.now v.items) }
{
    let stays = stays_from(alloc, calls, presences)?;
    let mut longest = Vec::with_capacity(alloc, stays.len())?;
    let mut best = NO_STAY;
    for n in 0..stays.len() {
        best = longer(best, stays[n]);
        longest.push(best)?;
    }
    Ok(longest)
}

/// Whether call n is there and begins before a call ends.
pub(crate) fn reaches(calls: &[Call], from: usize, n: usize) -> bool
    requires { from < length calls.now }
    ensures { IsTrue result ↔ ((n < length calls.now)
        × (EndsBelow (call calls.now from).end (first_of calls.now n) → ⊥)) }
{
    n < calls.len() && !ends_before(&calls[from], calls[n].first)
}

/// Whether items are certainly there throughout a call.
#[derive(Drop)]
pub(crate) enum Covered {
    /// At each moment of the call the item of one of these puts is.
    Whole(Vec<usize>),
    /// None is as this call begins, which is a moment of the call.
    Gap(usize),
}

/// Puts whose items cover a call, one certainly there at each moment of it, or a moment at which none is.
pub(crate) fn cover(
    alloc: Global,
    calls: &[Call],
    stays: &[Stay],
    empty: usize,
) -> Result<Covered, AllocError>
    requires history { IsHistory calls.now }
    requires stays { AreStays calls.now stays.now }
    requires inside { empty < length calls.now }
    requires found { does calls.now empty ≡ FindsNone }
    ensures { IfOk result (IsCovered calls.now stays.now empty) }
{
    let mut puts = Vec::new(alloc);
    let mut n = empty;
    while reaches(calls, empty, n) {
        let stay = stays[n];
        if stay.gone <= n {
            return Ok(Covered::Gap(n));
        }
        puts.push(stay.put)?;
        n = stay.gone;
    }
    Ok(Covered::Whole(puts))
}

/// The first call that returned Empty while there were items. Where there is none, each such call has a moment as no
/// item is certainly there.
fn not_empty(
    alloc: Global,
    calls: &[Call],
    stays: &[Stay],
) -> Result<Option<(usize, Vec<usize>)>, AllocError>
    requires history { IsHistory calls.now }
    requires stays { AreStays calls.now stays.now }
    ensures { IfOk result (λ found. MatchOption found (Never (FoundNotEmpty calls.now) × HasGaps calls.now)
        (λ e. IsNotEmpty calls.now e.0 e.1.items × NeverBefore (FoundNotEmpty calls.now) e.0)) }
{
    for n in 0..calls.len() {
        if let Effect::FindsNone = calls[n].effect() {
            if let Covered::Whole(puts) = cover(alloc, calls, stays, n)? {
                return Ok(Some((n, puts)));
            }
        }
    }
    Ok(None)
}

/// Whether an item is certainly there from a call on until after another.
fn outlasts(presence: &Presence, put: usize, after: usize) -> bool
    ensures { result ≡ outlast put after presence.now }
{
    presence.start <= put && after <= presence.gone
}

/// For each call the call itself: no later one is known from which on all items are gone.
pub(crate) fn no_skips(alloc: Global, count: usize) -> Result<Vec<usize>, AllocError>
    requires { count < 2 ^ 63 }
    ensures { IfOk result (λ v. (length v.items ≡ count + 1)
        × ((i : ℕ) → i < count + 1 → slice_index_or v.items i 0 ≡ i)) }
{
    let mut skips = Vec::with_capacity(alloc, count + 1)?;
    for n in 0..count + 1 {
        skips.push(n)?;
    }
    Ok(skips)
}

/// How many items are certainly there from call `put` on and got by no call below `after`, or `limit` if they are no
/// fewer. Items that are gone at call n are passed over from then on.
pub(crate) fn count_older(
    presences: &[Presence],
    skips: &mut Vec<usize>,
    n: usize,
    put: usize,
    after: usize,
    limit: usize,
) -> usize
    requires skips { AreSkips presences.now n skips.old.items }
    requires later { n < after }
    requires inside { put ≤ length presences.now }
    ensures counted { IsCountedTo limit (count_below (lasts_at presences.now put after) put) result }
    ensures skips { AreSkips presences.now n skips.new.items }
{
    let mut count = 0;
    let mut p = 0;
    while p < put && count < limit {
        let next = skips[p];
        if next >= put {
            return count;
        }
        let presence = presences[next];
        if presence.gone <= n {
            let rest = skips[next + 1];
            skips[p] = rest;
        } else {
            if outlasts(&presence, put, after) {
                count += 1;
            }
            p = next + 1;
        }
    }
    count
}

/// The puts of the first k of them.
pub(crate) fn first_older(
    alloc: Global,
    presences: &[Presence],
    put: usize,
    after: usize,
    k: usize,
) -> Result<Vec<usize>, AllocError>
    requires { put ≤ length presences.now }
    ensures { IfOk result (λ v. AreFirst (lasts_at presences.now put after) k put v.items) }
{
    let mut puts = Vec::new(alloc);
    for p in 0..put {
        if puts.len() < k && outlasts(&presences[p], put, after) {
            puts.push(p)?;
        }
    }
    Ok(puts)
}

/// The put of the item that a call got, where the item is single.
#[inline(always)]
pub(crate) fn single_put(calls: &[Call], items: &Items, n: usize) -> Option<usize>
    requires inside { n < length calls.now }
    requires items { IsIndexed calls.now items.now }
    ensures { MatchOption result ((x p : ℕ) → IsSingle calls.now x p → Gets calls.now x n → ⊥)
        (λ p. (x : ℕ) × IsSingle calls.now x p × Gets calls.now x n × (p < length calls.now)) }
{
    let Effect::Takes(item) = calls[n].effect() else {
        return None;
    };
    let put = tally_of(&items.puts, item);
    if put.count == 1 && tally_of(&items.gets, item).count == 1 {
        Some(put.last)
    } else {
        None
    }
}

/// The puts of k items that are certainly older and there at a call, where it got a single item.
fn too_young_at(
    alloc: Global,
    calls: &[Call],
    items: &Items,
    skips: &mut Vec<usize>,
    n: usize,
    k: usize,
) -> Result<Option<Vec<usize>>, AllocError>
    requires history { IsHistory calls.now }
    requires inside { n < length calls.now }
    requires items { IsIndexed calls.now items.now }
    requires skips { AreSkips items.now.presences.items n skips.old.items }
    ensures young { IfOk result (λ found.
        MatchOption found (GotTooYoung k calls.now n → ⊥) (λ puts. IsTooYoung k calls.now n puts.items)) }
    ensures skips { AreSkips items.now.presences.items n skips.new.items }
{
    let Some(put) = single_put(calls, items, n) else {
        return Ok(None);
    };
    let after = first_after(calls, n, &calls[n]);
    if count_older(&items.presences, skips, n, put, after, k) < k {
        return Ok(None);
    }
    Ok(Some(first_older(alloc, &items.presences, put, after, k)?))
}

/// The first call that got a single item while k older ones were there.
fn too_young(
    alloc: Global,
    calls: &[Call],
    items: &Items,
    k: usize,
) -> Result<Option<(usize, Vec<usize>)>, AllocError>
    requires history { IsHistory calls.now }
    requires items { IsIndexed calls.now items.now }
    ensures { IfOk result (λ found. MatchOption found (Never (GotTooYoung k calls.now))
        (λ e. IsTooYoung k calls.now e.0 e.1.items × NeverBefore (GotTooYoung k calls.now) e.0)) }
{
    let mut skips = no_skips(alloc, items.presences.len())?;
    for n in 0..calls.len() {
        if let Some(puts) = too_young_at(alloc, calls, items, &mut skips, n, k)? {
            return Ok(Some((n, puts)));
        }
    }
    Ok(None)
}

/// The evidence of the kinds 1 to 3, and where there is none, gaps as of `not_empty`.
fn evidence_to_3(
    alloc: Global,
    calls: &[Call],
    items: &Items,
) -> Result<Option<Evidence>, AllocError>
    requires history { IsHistory calls.now }
    requires items { IsIndexed calls.now items.now }
    ensures { IfOk result (λ found. MatchOption found (HasNoneTo3 calls.now × HasGaps calls.now)
        (IsFirstTo3 calls.now)) }
{
    if let Some(get) = never_put(calls, &items.puts) {
        return Ok(Some(Evidence::NeverPut(get)));
    }
    if let Some(get) = repeatedly_taken(calls, items) {
        return Ok(Some(Evidence::TakenTwice(get)));
    }
    if let Some((empty, puts)) = not_empty(alloc, calls, &items.stays)? {
        return Ok(Some(Evidence::NotEmpty { empty, puts }));
    }
    Ok(None)
}

/// The evidence of the kinds 5 and 6, where there is none of the kinds 1 to 3.
fn evidence_5_and_6(alloc: Global, calls: &[Call]) -> Result<Option<Evidence>, AllocError>
    requires history { IsHistory calls.now }
    requires none { HasNoneTo3 calls.now }
    ensures { IfOk result (λ found. MatchOption found (HasNoneForEachK calls.now) (IsFirstForEachK calls.now)) }
{
    if let Some(get) = taken_too_soon(alloc, calls)? {
        return Ok(Some(Evidence::TakenTooSoon(get)));
    }
    if let Some(empty) = items_left(alloc, calls)? {
        return Ok(Some(Evidence::ItemsLeft(empty)));
    }
    Ok(None)
}

/// The evidence among the calls of a history.
fn evidence_among(
    alloc: Global,
    calls: &[Call],
    items: &Items,
    k: usize,
) -> Result<Option<Evidence>, AllocError>
    requires history { IsHistory calls.now }
    requires items { IsIndexed calls.now items.now }
    ensures { IfOk result (λ found. MatchOption found (HasNoEvidence k calls.now) (IsFirstEvidence k calls.now)) }
{
    if let Some(found) = evidence_to_3(alloc, calls, items)? {
        return Ok(Some(found));
    }
    if let Some((get, puts)) = too_young(alloc, calls, items, k)? {
        return Ok(Some(Evidence::TooYoung { get, puts }));
    }
    // Where one of the kinds 5 to 7 is in a plain history, one of these was.
    if items.plain {
        return Ok(None);
    }
    if let Some(found) = evidence_5_and_6(alloc, calls)? {
        return Ok(Some(found));
    }
    if let Some((get, puts)) = older_left(alloc, calls, k)? {
        return Ok(Some(Evidence::OlderLeft { get, puts }));
    }
    Ok(None)
}

/// The evidence for each k among the calls of a history.
fn evidence_for_all(alloc: Global, calls: &[Call]) -> Result<Option<Evidence>, AllocError>
    requires { IsHistory calls.now }
    ensures { IfOk result (λ found. MatchOption found (HasNoneForEachK calls.now) (IsFirstForEachK calls.now)) }
{
    let items = Items::of(alloc, calls)?;
    if let Some(found) = evidence_to_3(alloc, calls, &items)? {
        return Ok(Some(found));
    }
    if items.plain {
        return Ok(None);
    }
    evidence_5_and_6(alloc, calls)
}

/// Returns the evidence that a history has no legal order for a queue that may give any of its k oldest items: of the
/// numbers that are there the least, and of that number the one with the least call. None exactly where there is none
/// of the seven kinds.
pub fn evidence(alloc: Global, history: &History, k: u32) -> Result<Option<Evidence>, AllocError>
    requires { (1 ≤ k) × (k ≤ 64) }
    ensures first { IfOk result (λ found.
        MatchOption found (HasNoEvidence k history.now) (IsFirstEvidence k history.now)) }
    ensures refutes { IfOk result (λ found. OnSome found (HasOrder k history.now → ⊥)) }
{
    let items = Items::of(alloc, history.calls())?;
    evidence_by(alloc, history, &items, k)
}

/// The same, by the calls of each item.
pub(crate) fn evidence_by(
    alloc: Global,
    history: &History,
    items: &Items,
    k: u32,
) -> Result<Option<Evidence>, AllocError>
    requires places { (1 ≤ k) × (k ≤ 64) }
    requires items { IsIndexed history.now items.now }
    ensures first { IfOk result (λ found.
        MatchOption found (HasNoEvidence k history.now) (IsFirstEvidence k history.now)) }
    ensures refutes { IfOk result (λ found. OnSome found (HasOrder k history.now → ⊥)) }
{
    evidence_among(alloc, history.calls(), items, k as usize)
}

/// Returns the evidence that a history has a legal order for no k: as `evidence`, but for the numbers 4 and 7, which
/// are about one k.
pub fn evidence_for_each_k(alloc: Global, history: &History) -> Result<Option<Evidence>, AllocError>
    ensures first { IfOk result (λ found.
        MatchOption found (HasNoneForEachK history.now) (IsFirstForEachK history.now)) }
    ensures refutes { IfOk result (λ found. OnSome found ((k : ℕ) → HasOrder k history.now → ⊥)) }
{
    evidence_for_all(alloc, history.calls())
}
