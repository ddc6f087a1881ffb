//! The search for a legal order.
//!
//! The search builds beginnings of orders level by level, one call more in each. Of a beginning only the calls done and
//! the items left count, so equal ones are kept once. An item that no call takes any more is as good as any other such
//! item. A call that is legal and changes nothing goes at once. A beginning from which some dequeue can no longer get
//! its item is dropped.
ghost use Rattle.std.specs.Prelude.{ℕ, ◌≡◌, ◌≤◌, ◌<◌, ◌+◌, ◌↔◌, ◌⊎◌, Bool, true, false, slice_set, replicate, List, []};
ghost use Rattle.std.specs.Prelude.{◌∷◌};
ghost use Rattle.std.specs.Prelude.{length, All, Contains, Any, IsTrue, IsSome, IfSome, IfOk, OnOk, MatchOption};
ghost use Rattle.std.specs.Prelude.{MatchResult};
ghost use Rattle.kfifo_model.specs.Lists.{IsIn};
ghost use Rattle.kfifo_model.specs.declared.effects.Effect.TheVariants.{Adds, Takes};
ghost use Rattle.kfifo_model.specs.Relaxed.{next};
ghost use Rattle.std.specs.Option.{option_map};
ghost use Rattle.kfifo_model.specs.Histories.{effect_of, does, CanStand, EndsBelow};
ghost use Rattle.kfifo_model.specs.Validity.{IsHistory};
ghost use Rattle.kfifo_model.specs.Reach.{Reach, reach};
ghost use Rattle.kfifo_model.specs.Index.{side_effect};
ghost use Rattle.kfifo_model.specs.Searching.{HasOrder, IsSearchFault, search_fault_number, IsDone, IsComplete};
ghost use Rattle.kfifo_model.specs.Searching.{IsReady, IsFree};
ghost use Rattle.kfifo_model.specs.Searching.{Extends, IsNoNext, IsLeft, IsWanted, IsComing, IsIdle, IsAsGood};
ghost use Rattle.kfifo_model.specs.Searching.{AreAsGood};
ghost use Rattle.kfifo_model.specs.Searching.{done_count, IsFurther, LeadsTo, IsAdded, IsNextLevel};

use crate::calls::{Call, Op};
use crate::effects::{Effect, Side};
use crate::history::History;
use crate::measures::taken;
use crate::orders::{Tried, try_number};
use std::alloc::{AllocError, Global};
use std::cmp::Ordering;
use std::collections::VecDeque;
use std::marker::Model;
use thiserror::Error;

/// The most calls of a history that is searched.
pub const MAX_SEARCHED: usize = 12;

/// Why no search was made.
#[derive(Clone, Copy, Debug, PartialEq, Eq, Error)]
pub enum SearchFault {
    /// 1: the history has over 12 calls, unfinished ones counted.
    #[error("the history has over 12 calls")]
    TooLong,
    /// 2: an allocation failed.
    #[error("out of memory")]
    Memory,
}

impl SearchFault {
    /// The fault's number, 1 or 2.
    pub fn number(self) -> u32
        ensures { result ≡ search_fault_number self }
    {
        match self {
            SearchFault::TooLong => 1,
            SearchFault::Memory => 2,
        }
    }
}

impl From<AllocError> for SearchFault {
    ghost use Rattle.kfifo_model.specs.declared.search.SearchFault.TheVariants.{Memory};

    ghost from_gives = { λ _ fault. fault ≡ Memory };

    fn from(_: AllocError) -> SearchFault {
        SearchFault::Memory
    }
}

/// What the calls of a beginning of an order came to: which calls are done, and the items that they left.
#[derive(Drop)]
pub struct Reached {
    done: Vec<bool>,
    items: Vec<u32>,
}

impl Model for Reached {
    ghost use Rattle.kfifo_model.specs.Reach.{Reach};

    ghost Value = { Reach };

    ghost view = { λ a. record { done = a.done.items; items = a.items.items } };
}

/// Whether the call is done.
fn is_done(done: &[bool], n: usize) -> bool
    ensures { IsTrue result ↔ IsDone done.now n }
{
    n < done.len() && done[n]
}

/// Whether each finished call is done.
fn is_complete(calls: &[Call], done: &[bool]) -> bool
    ensures { IsTrue result ↔ IsComplete calls.now done.now }
{
    for (n, call) in calls.iter().enumerate() {
        if call.end.is_some() && !is_done(done, n) {
            return false;
        }
    }
    true
}

/// Whether the call ended before this step.
fn ends_below(call: &Call, step: u64) -> bool
    ensures { IsTrue result ↔ EndsBelow call.now.end step }
{
    match &call.end {
        Some(end) => end.last < step,
        None => false,
    }
}

/// Whether each call that precedes call n is done.
fn is_ready(calls: &[Call], done: &[bool], n: usize) -> bool
    requires { n < length calls.now }
    ensures { IsTrue result ↔ IsReady calls.now done.now n }
{
    let first = calls[n].first;
    for (m, call) in calls.iter().enumerate() {
        if ends_below(call, first) && !is_done(done, m) {
            return false;
        }
    }
    true
}

/// Whether the call is finished or an enqueue.
fn can_stand(call: &Call) -> bool
    ensures { IsTrue result ↔ CanStand call.now.end call.now.op }
{
    call.end.is_some() || call.op != Op::Dequeue
}

/// Whether call n may come next in an order.
fn is_free(calls: &[Call], done: &[bool], n: usize) -> bool
    requires { n < length calls.now }
    ensures { IsTrue result ↔ IsFree calls.now done.now n }
{
    !is_done(done, n) && can_stand(&calls[n]) && is_ready(calls, done, n)
}

/// Whether the call's answer is legal in the items and changes nothing.
fn is_idle(call: &Call, items: &[u32]) -> bool
    ensures { IsTrue result ↔ IsIdle items.now (effect_of call.now) }
{
    match call.effect() {
        Effect::Refused => true,
        Effect::FindsNone => items.is_empty(),
        Effect::Adds(_) | Effect::Takes(_) | Effect::Wrong => false,
    }
}

/// A call that may come next, is legal and changes nothing.
fn idle_call(calls: &[Call], done: &[bool], items: &[u32]) -> Option<usize>
    ensures { IfSome result (λ n. IsFree calls.now done.now n × IsIdle items.now (does calls.now n)) }
{
    for (n, call) in calls.iter().enumerate() {
        if is_idle(call, items) && is_free(calls, done, n) {
            return Some(n);
        }
    }
    None
}

/// Whether a call of this side that is not done has the item.
fn is_left(calls: &[Call], done: &[bool], side: Side, item: u32) -> bool
    ensures { IsTrue result ↔ IsLeft calls.now done.now (side_effect side item) }
{
    for (n, call) in calls.iter().enumerate() {
        if let Some(x) = side.item_of(call) {
            if x == item && !is_done(done, n) {
                return true;
            }
        }
    }
    false
}

/// Whether the item is among the items.
fn has(items: &[u32], item: u32) -> bool
    ensures { IsTrue result ↔ IsIn item items.now }
{
    for x in items {
        if *x == item {
            return true;
        }
    }
    false
}

/// Whether each item that a call takes is there or is still to come.
fn can_finish(calls: &[Call], done: &[bool], items: &[u32]) -> bool
    ensures { result ≡ false → (x : ℕ) × IsWanted calls.now done.now x × (IsIn x items.now → ⊥)
        × (IsComing calls.now done.now x → ⊥) }
{
    for (n, call) in calls.iter().enumerate() {
        if let Some(x) = taken(call) {
            if !is_done(done, n) && !has(items, x) && !is_left(calls, done, Side::In, x) {
                return false;
            }
        }
    }
    true
}

/// The items, with 0 in the place of each that no call takes any more.
fn remembered(
    alloc: Global,
    calls: &[Call],
    done: &[bool],
    items: &VecDeque<u32>,
) -> Result<Vec<u32>, AllocError>
    requires { IsHistory calls.now }
    ensures { IfOk result (λ kept. AreAsGood calls.now done.now items.now.items kept.items) }
{
    let mut kept = Vec::with_capacity(alloc, items.len())?;
    for i in 0..items.len() {
        let item = items[i];
        let as_good = if is_left(calls, done, Side::Out, item) {
            item
        } else {
            0
        };
        kept.push(as_good)?;
    }
    Ok(kept)
}

/// The calls done with call n.
fn with_done(alloc: Global, done: &[bool], n: usize) -> Result<Vec<bool>, AllocError>
    requires { n < length done.now }
    ensures { IfOk result (λ v. v.items ≡ slice_set done.now n true) }
{
    let mut more = Vec::from_slice(alloc, done)?;
    more[n] = true;
    Ok(more)
}

/// The items after call n, or none where its answer is not legal in them.
fn items_after(
    alloc: Global,
    calls: &[Call],
    k: usize,
    items: &[u32],
    n: usize,
) -> Result<Option<VecDeque<u32>>, AllocError>
    requires { n < length calls.now }
    ensures { IfOk result (λ o. next k items.now (does calls.now n) ≡ option_map (λ v. v.items) o) }
{
    let mut list = VecDeque::from(Vec::from_slice(alloc, items)?);
    let tried = try_number(&mut list, k, calls, n)?;
    if let Tried::NotLegal = tried {
        return Ok(None);
    }
    Ok(Some(list))
}

/// What call n leads to, or none where its answer is not legal.
fn after(
    alloc: Global,
    calls: &[Call],
    k: usize,
    done: &[bool],
    items: &[u32],
    n: usize,
) -> Result<Option<Reached>, AllocError>
    requires history { IsHistory calls.now }
    requires free { IsFree calls.now done.now n }
    requires sized { length done.now ≡ length calls.now }
    ensures { let r = reach done.now items.now in
        IfOk result (λ o. MatchOption o (IsNoNext k calls.now r n) (LeadsTo k calls.now r n)) }
{
    let Some(list) = items_after(alloc, calls, k, items, n)? else {
        return Ok(None);
    };
    let done = with_done(alloc, done, n)?;
    let items = remembered(alloc, calls, &done, &list)?;
    Ok(Some(Reached { done, items }))
}

/// Adds what call n leads to.
fn add_after(
    alloc: Global,
    calls: &[Call],
    k: usize,
    done: &[bool],
    items: &[u32],
    n: usize,
    next: &mut Vec<Reached>,
) -> Result<(), AllocError>
    requires history { IsHistory calls.now }
    requires free { IsFree calls.now done.now n }
    requires sized { length done.now ≡ length calls.now }
    ensures { OnOk result (let r = reach done.now items.now in
        IsAdded k calls.now r next.old.items next.new.items (IsNoNext k calls.now r n)) }
{
    if let Some(reached) = after(alloc, calls, k, done, items, n)? {
        next.push(reached)?;
    }
    Ok(())
}

/// Adds what each call that may come next leads to.
fn add_each(
    alloc: Global,
    calls: &[Call],
    k: usize,
    done: &[bool],
    items: &[u32],
    next: &mut Vec<Reached>,
) -> Result<(), AllocError>
    requires history { IsHistory calls.now }
    requires sized { length done.now ≡ length calls.now }
    requires open { IsComplete calls.now done.now → ⊥ }
    ensures { OnOk result (let r = reach done.now items.now in
        IsAdded k calls.now r next.old.items next.new.items (Extends k calls.now r → ⊥)) }
{
    for n in 0..calls.len() {
        if is_free(calls, done, n) {
            add_after(alloc, calls, k, done, items, n, next)?;
        }
    }
    Ok(())
}

/// Adds what a beginning of an order leads to.
fn expand(
    alloc: Global,
    calls: &[Call],
    k: usize,
    done: &[bool],
    items: &[u32],
    next: &mut Vec<Reached>,
) -> Result<(), AllocError>
    requires history { IsHistory calls.now }
    requires sized { length done.now ≡ length calls.now }
    requires open { IsComplete calls.now done.now → ⊥ }
    ensures { OnOk result (let r = reach done.now items.now in
        IsAdded k calls.now r next.old.items next.new.items (Extends k calls.now r → ⊥)) }
{
    if let Some(n) = idle_call(calls, done, items) {
        return add_after(alloc, calls, k, done, items, n, next);
    }
    if !can_finish(calls, done, items) {
        return Ok(());
    }
    add_each(alloc, calls, k, done, items, next)
}

impl Reached {
    /// No call done, and no item.
    fn start(alloc: Global, count: usize) -> Result<Reached, AllocError>
        ensures { IfOk result (λ r. r ≡ reach (replicate count false) []) }
    {
        Ok(Reached {
            done: vec![in alloc; false; count]?,
            items: Vec::new(alloc),
        })
    }

    /// Whether each finished call is done.
    fn is_complete(&self, calls: &[Call]) -> bool
        ensures { IsTrue result ↔ IsComplete calls.now self.now.done }
    {
        is_complete(calls, &self.done)
    }

    /// Adds what this leads to.
    fn expand(
        &self,
        alloc: Global,
        calls: &[Call],
        k: usize,
        next: &mut Vec<Reached>,
    ) -> Result<(), AllocError>
        requires history { IsHistory calls.now }
        requires sized { length self.now.done ≡ length calls.now }
        requires open { IsComplete calls.now self.now.done → ⊥ }
        ensures { OnOk result (IsAdded k calls.now self.now next.old.items next.new.items
            (Extends k calls.now self.now → ⊥)) }
    {
        expand(alloc, calls, k, &self.done, &self.items, next)
    }

    /// Whether both are the same.
    fn is_same(&self, other: &Reached) -> bool
        ensures { IsTrue result → self.now ≡ other.now }
    {
        self.done == other.done && self.items == other.items
    }

    /// An order of such values, in which the same ones are neighbours.
    fn compare(&self, other: &Reached) -> Ordering {
        self.items
            .cmp(&other.items)
            .then_with(|| self.done.cmp(&other.done))
    }
}

/// What a level leads to, or none where one of its beginnings is a whole order.
fn next_level(
    alloc: Global,
    calls: &[Call],
    k: usize,
    level: &[Reached],
) -> Result<Option<Vec<Reached>>, AllocError>
    requires history { IsHistory calls.now }
    requires sized { All (λ r. length r.done ≡ length calls.now) level.now }
    ensures { IfOk result (λ o. MatchOption o (Any (Extends k calls.now) level.now)
        (λ v. IsNextLevel k calls.now level.now v.items)) }
{
    let mut next = Vec::new(alloc);
    for reached in level {
        if reached.is_complete(calls) {
            return Ok(None);
        }
        reached.expand(alloc, calls, k, &mut next)?;
    }
    Ok(Some(next))
}

/// Whether the last one is the same.
fn ends_with(kept: &[Reached], reached: &Reached) -> bool
    ensures { IsTrue result → Contains kept.now reached.now }
{
    match kept.last() {
        Some(last) => last.is_same(reached),
        None => false,
    }
}

/// The same beginnings, with neighbours that are the same kept once after they were sorted.
fn distinct(alloc: Global, mut level: Vec<Reached>) -> Result<Vec<Reached>, AllocError>
    ensures { IfOk result (λ kept. (r : Reach) → Contains level.items r ↔ Contains kept.items r) }
{
    level.sort_unstable_by(|a, b| a.compare(b));
    let mut kept: Vec<Reached> = Vec::new(alloc);
    while let Some(reached) = level.pop() {
        if !ends_with(&kept, &reached) {
            kept.push(reached)?;
        }
    }
    Ok(kept)
}

/// Whether some order of the calls is legal.
fn search(alloc: Global, calls: &[Call], k: usize) -> Result<bool, AllocError>
    requires { IsHistory calls.now }
    ensures { IfOk result (λ found. IsTrue found ↔ HasOrder k calls.now) }
{
    let mut level = Vec::new(alloc);
    level.push(Reached::start(alloc, calls.len())?)?;
    'levels: for _ in 0..calls.len() {
        let Some(next) = next_level(alloc, calls, k, &level)? else {
            return Ok(true);
        };
        level = distinct(alloc, next)?;
    }
    match next_level(alloc, calls, k, &level)? {
        None => Ok(true),
        Some(_) => Ok(false),
    }
}

/// Returns whether the history has a legal order for a queue that may give any of its k oldest items. k is 1 to 64.
///
/// ```rust
/// let history = History::new(made)?;
/// assert!(rt; has_order(rt.alloc(), &history, k)?, "{shape:?} {round}");
/// ```
///
/// It tries all orders, so it takes at most 12 calls: `judge` of `kfifo_verdict` takes more, and may leave the answer
/// open. Refuses: TooLong where the history has over 12 calls, unfinished ones counted; Memory where an allocation
/// failed.
pub fn has_order(alloc: Global, history: &History, k: u32) -> Result<bool, SearchFault>
    requires { (1 ≤ k) × (k ≤ 64) }
    ensures { MatchResult result (λ found. (length history.now ≤ 12) × (IsTrue found ↔ HasOrder k history.now))
        (IsSearchFault history.now) }
{
    let calls = history.calls();
    if calls.len() > MAX_SEARCHED {
        return Err(SearchFault::TooLong);
    }
    Ok(search(alloc, calls, k as usize)?)
}
