//! Ranks, and how often an item was overtaken.
ghost use Rattle.std.specs.Prelude.{ℕ, ◌≡◌, ◌≤◌, ◌<◌, ◌+◌, ◌&&◌, ◌↔◌, not, List, [], ◌∷◌, map, length, IsTrue, IfOk};
ghost use Rattle.std.specs.Prelude.{MatchOption};
ghost use Rattle.std.specs.Prelude.{MatchResult};
ghost use Rattle.kfifo_model.specs.declared.effects.Effect.TheVariants.{Adds, Takes};
ghost use Rattle.kfifo_model.specs.Relaxed.{IsRun};
ghost use Rattle.kfifo_model.specs.Histories.{effect_of, does, HasOnlyCalls, IsLegal};
ghost use Rattle.kfifo_model.specs.Overtaking.{adds, takes, some, precedes, ends_below, overtakes, numbers_of};
ghost use Rattle.kfifo_model.specs.Overtaking.{certainly_overtaken};
ghost use Rattle.kfifo_model.specs.Ranks.{ranks_of, gots_in};
ghost use Rattle.kfifo_model.specs.Measures.{IsRankFault, IsDoneEnqueue, HasDistinctItems, EndsDone, SharesItem};
ghost use Rattle.kfifo_model.specs.Measures.{RepeatsEarlier};
ghost use Rattle.kfifo_model.specs.Measures.{IsOvertakenFault, rank_fault_number, overtaken_fault_number};

use crate::calls::{Answer, Call, Op};
use crate::effects::Effect;
use crate::history::History;
use crate::orders::{Tried, Verdict, judge, try_number};
use std::alloc::{AllocError, Global};
use std::collections::VecDeque;
use thiserror::Error;

/// Why there are no ranks.
#[derive(Clone, Copy, Debug, PartialEq, Eq, Error)]
pub enum RankFault {
    /// 1: the order is not a legal one of the history.
    #[error("the order is no legal order of the history")]
    NotLegal,
    /// 2: an allocation failed.
    #[error("out of memory")]
    Memory,
}

impl RankFault {
    /// The fault's number, 1 or 2.
    pub fn number(self) -> u32
        ensures { result ≡ rank_fault_number self }
    {
        match self {
            RankFault::NotLegal => 1,
            RankFault::Memory => 2,
        }
    }
}

impl From<AllocError> for RankFault {
    ghost use Rattle.kfifo_model.specs.declared.measures.RankFault.TheVariants.{Memory};

    ghost from_gives = { λ _ fault. fault ≡ Memory };

    fn from(_: AllocError) -> RankFault {
        RankFault::Memory
    }
}

/// Why an item's overtakings are not counted.
#[derive(Clone, Copy, Debug, PartialEq, Eq, Error)]
pub enum OvertakenFault {
    /// 1: no call of the history has the number, or it is no finished enqueue that returned Done.
    #[error("the number is not that of a finished enqueue that was answered done")]
    NotAnEnqueue,
    /// 2: two enqueues, each Done or unfinished, carry one item, or two dequeues got one.
    #[error("an item is repeated: it was put or taken twice")]
    RepeatedItem,
}

impl OvertakenFault {
    /// The fault's number, 1 or 2.
    pub fn number(self) -> u32
        ensures { result ≡ overtaken_fault_number self }
    {
        match self {
            OvertakenFault::NotAnEnqueue => 1,
            OvertakenFault::RepeatedItem => 2,
        }
    }
}

/// The item that a call adds to the queue.
pub(crate) fn added(call: &Call) -> Option<u32>
    ensures { MatchOption result ((x : ℕ) → effect_of call.now ≡ Adds x → ⊥) (λ x. effect_of call.now ≡ Adds x) }
{
    match call.effect() {
        Effect::Adds(item) => Some(item),
        _ => None,
    }
}

/// The item that a call takes from the queue.
pub(crate) fn taken(call: &Call) -> Option<u32>
    ensures { MatchOption result ((x : ℕ) → effect_of call.now ≡ Takes x → ⊥) (λ x. effect_of call.now ≡ Takes x) }
{
    match call.effect() {
        Effect::Takes(item) => Some(item),
        _ => None,
    }
}

/// The rank of each Got of an order that is a run, in turn.
fn ranks_along(
    alloc: Global,
    calls: &[Call],
    k: usize,
    order: &[usize],
) -> Result<Vec<u32>, AllocError>
    requires small { k ≤ 64 }
    requires calls { HasOnlyCalls calls.now order.now }
    requires runs { IsRun k [] (map (does calls.now) order.now) }
    ensures { IfOk result (λ v. v.items ≡ ranks_of k calls.now order.now) }
{
    let mut items = VecDeque::new(alloc);
    let mut found = Vec::new(alloc);
    for n in order {
        let tried = try_number(&mut items, k, calls, *n)?;
        if let Tried::Took(place) = tried {
            found.push(place as u32)?;
        }
    }
    Ok(found)
}

/// Whether the order is legal.
fn is_legal(alloc: Global, calls: &[Call], k: usize, order: &[usize]) -> Result<bool, AllocError>
    ensures { IfOk result (λ legal. IsTrue legal ↔ IsLegal k calls.now order.now) }
{
    match judge(alloc, calls, k, order)? {
        Verdict::Legal => Ok(true),
        _ => Ok(false),
    }
}

/// For each Got of a legal order in turn, the place in the list of the item that it removes.
///
/// Refuses: NotLegal exactly where the order is no legal one of the history; Memory where an allocation failed.
pub fn ranks(
    alloc: Global,
    history: &History,
    k: u32,
    order: &[usize],
) -> Result<Vec<u32>, RankFault>
    requires { (1 ≤ k) × (k ≤ 64) }
    ensures ranks { MatchResult result
        (λ v. IsLegal k history.now order.now × (v.items ≡ ranks_of k history.now order.now))
        (IsRankFault k history.now order.now) }
    ensures one_each { IfOk result (λ v. length v.items ≡ gots_in history.now order.now) }
{
    let calls = history.calls();
    if !is_legal(alloc, calls, k as usize, order)? {
        return Err(RankFault::NotLegal);
    }
    Ok(ranks_along(alloc, calls, k as usize, order)?)
}

fn is_done_enqueue(call: &Call) -> bool
    ensures { IsTrue result ↔ EndsDone call.now.op call.now.end }
{
    match (call.op, call.end) {
        (Op::Enqueue(_), Some(end)) => end.answer == Answer::Done,
        _ => false,
    }
}

fn shares_item(a: &Call, b: &Call) -> bool
    ensures { IsTrue result ↔ SharesItem (effect_of a.now) (effect_of b.now) }
{
    match (added(a), added(b)) {
        (Some(x), Some(y)) => x == y,
        _ => match (taken(a), taken(b)) {
            (Some(x), Some(y)) => x == y,
            _ => false,
        },
    }
}

fn repeats_earlier(calls: &[Call], n: usize) -> bool
    requires { n < length calls.now }
    ensures { IsTrue result ↔ RepeatsEarlier calls.now n }
{
    let call = &calls[n];
    for j in 0..n {
        if shares_item(call, &calls[j]) {
            return true;
        }
    }
    false
}

fn has_distinct_items(calls: &[Call]) -> bool
    ensures { IsTrue result ↔ HasDistinctItems calls.now }
{
    for n in 0..calls.len() {
        if repeats_earlier(calls, n) {
            return false;
        }
    }
    true
}

fn comes_before(a: &Call, b: &Call) -> bool
    ensures { result ≡ ends_below a.now.end b.now.first }
{
    match &a.end {
        Some(end) => end.last < b.first,
        None => false,
    }
}

fn adds_item(call: &Call, x: u32) -> bool
    ensures { result ≡ adds x (effect_of call.now) }
{
    match added(call) {
        Some(y) => x == y,
        None => false,
    }
}

fn takes_item(call: &Call, x: u32) -> bool
    ensures { result ≡ takes x (effect_of call.now) }
{
    match taken(call) {
        Some(y) => x == y,
        None => false,
    }
}

/// Whether call e adds the item and comes after call c.
fn adds_later(calls: &[Call], c: usize, item: u32, e: usize) -> bool
    requires { (c < length calls.now) × (e < length calls.now) }
    ensures { result ≡ (adds item (does calls.now e) && precedes calls.now c e) }
{
    adds_item(&calls[e], item) && comes_before(&calls[c], &calls[e])
}

/// Whether call t takes the item and does not come after call d.
fn takes_sooner(calls: &[Call], d: usize, item: u32, t: usize) -> bool
    requires { (d < length calls.now) × (t < length calls.now) }
    ensures { result ≡ (takes item (does calls.now t) && not (precedes calls.now d t)) }
{
    takes_item(&calls[t], item) && !comes_before(&calls[d], &calls[t])
}

/// Whether some call after c adds the item.
fn added_after(calls: &[Call], c: usize, item: u32) -> bool
    requires { c < length calls.now }
    ensures { result ≡ some (λ e. adds item (does calls.now e) && precedes calls.now c e) (numbers_of calls.now) }
{
    for e in 0..calls.len() {
        if adds_later(calls, c, item, e) {
            return true;
        }
    }
    false
}

/// Whether some call that takes the item does not come after d.
fn taken_sooner(calls: &[Call], d: usize, item: u32) -> bool
    requires { d < length calls.now }
    ensures { result ≡ some (λ t. takes item (does calls.now t) && not (precedes calls.now d t))
        (numbers_of calls.now) }
{
    for t in 0..calls.len() {
        if takes_sooner(calls, d, item, t) {
            return true;
        }
    }
    false
}

/// Whether call d certainly overtakes the item of call c.
fn certainly_overtakes(calls: &[Call], c: usize, item: u32, d: usize) -> bool
    requires calls { (c < length calls.now) × (d < length calls.now) }
    requires adds { does calls.now c ≡ Adds item }
    ensures { result ≡ overtakes (does calls.now) (precedes calls.now) (numbers_of calls.now) c d }
{
    match taken(&calls[d]) {
        Some(other) => added_after(calls, c, other) && !taken_sooner(calls, d, item),
        None => false,
    }
}

fn count_overtakings(calls: &[Call], c: usize, item: u32) -> usize
    requires calls { c < length calls.now }
    requires adds { does calls.now c ≡ Adds item }
    ensures { result ≡ certainly_overtaken calls.now c }
{
    let mut count = 0;
    for d in 0..calls.len() {
        if certainly_overtakes(calls, c, item, d) {
            count += 1;
        }
    }
    count
}

fn overtaken_among(calls: &[Call], call: usize) -> Result<usize, OvertakenFault>
    ensures { MatchResult result
        (λ n. IsDoneEnqueue calls.now call × HasDistinctItems calls.now × (n ≡ certainly_overtaken calls.now call))
        (IsOvertakenFault calls.now call) }
{
    if call >= calls.len() || !is_done_enqueue(&calls[call]) {
        return Err(OvertakenFault::NotAnEnqueue);
    }
    if !has_distinct_items(calls) {
        return Err(OvertakenFault::RepeatedItem);
    }
    match added(&calls[call]) {
        Some(item) => Ok(count_overtakings(calls, call, item)),
        None => Err(OvertakenFault::NotAnEnqueue),
    }
}

/// How many overtakings of the item that this enqueue put are certain. It takes no memory.
///
/// Refuses, in this order: NotAnEnqueue where no finished enqueue that returned Done has the number; RepeatedItem where
/// an item was put or taken twice.
pub fn overtaken(history: &History, call: usize) -> Result<usize, OvertakenFault>
    ensures { MatchResult result
        (λ n. IsDoneEnqueue history.now call × HasDistinctItems history.now
        × (n ≡ certainly_overtaken history.now call))
        (IsOvertakenFault history.now call) }
{
    overtaken_among(history.calls(), call)
}
