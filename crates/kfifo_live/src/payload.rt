//! A running queue of owned payloads.
//!
//! While the queue has a payload, it lies in a slot of the queue's table. A *token* is an item of the plain queue
//! that names such a slot, token x the slot x - 1. Who has a token may put its slot's payload into the queue.
ghost use Rattle.std.specs.Prelude.{◌≡◌, ◌<◌, ◌≤◌, ◌+◌, ◌-◌, ◌*◌, ◌^◌, ◌++◌, ℕ, List, [], ◌∷◌, length, reverse, Some};
ghost use Rattle.std.specs.Prelude.{None, vec_capacity};
ghost use Rattle.kfifo_live.specs.Schedule.{hand_of, seen_of, gifts_of, with_seen};
ghost use Rattle.kfifo_live.specs.Step.{DrawsToken, IsAt};
ghost use Rattle.kfifo_live.specs.Pass.{OpenQueue, queue_of, IsPassOf, IsSamePass, PassKeepsPromise};
ghost use Rattle.kfifo_live.specs.Payloads.{PayPassView, pay_pass_view, pay_opening, IsPayPass, Gives, TakesOut};

pub(crate) mod closing;
pub(crate) mod handle;
pub(crate) mod meeting;
pub(crate) mod opening;
pub(crate) mod sealing;
pub(crate) mod token;

use crate::in_hand::{Refusal, dequeue_token, empty_slot, enqueue_token, fill_slot};
use crate::ring::Ring;
use crate::rule::QueueRule;
use crate::seats::{draw_token, lay_back};
use crate::view::{Opening, ThreadSeat, View, Words};
use atomic_table::Table;
use kfifo_words::{Ends, Shape};
use std::alloc::Global;
use std::marker::Model;

/// A running queue that owns the payloads in it.
///
/// Clauses see it as its table and what it was opened with.
#[derive(Drop)]
pub struct PayQueue<T: Drop> {
    pub(crate) table: Table<Option<T>, View<T>, Opening, QueueRule, Global>,
    pub(crate) shape: Shape,
    pub(crate) threads: u32,
    pub(crate) tokens: u32,
}

impl<T: Drop> Model for PayQueue<T> {
    ghost Value = { OpenQueue };

    ghost view = { λ q. queue_of q.table.shared.table_id (pay_opening q.shape q.threads q.tokens) };

    ghost invariant = { λ q. (q.table.shared.key ≡ pay_opening q.shape q.threads q.tokens)
        × (q.table.shared.table_id.words ≡ 2 + q.shape.n * q.shape.k)
        × (q.table.shared.table_id.slots ≡ q.threads * q.tokens) };
}

/// What a thread gives and takes payloads with, and the tokens that it has. It may go to another thread between two
/// calls.
///
/// Clauses see it as the schedule that it has seen, its tokens, and for each enqueue of that schedule, in turn, its
/// token and its payload.
#[derive(Drop)]
pub struct PayPass<T: Drop> {
    pub(crate) thread: u32,
    pub(crate) seat: ThreadSeat<T>,
    pub(crate) at_home: Vec<u32>,
}

impl<T: Drop> Model for PayPass<T> {
    ghost Value = { PayPassView T };

    ghost view = { λ p. pay_pass_view p.seat.table_id p.thread p.seat.me.0 };

    ghost invariant = { λ p. IsPayPass p.thread p.seat.me p.at_home.items (vec_capacity p.at_home) };
}

/// What `give` returns. Each refusal hands the payload back.
#[derive(Clone, Copy, PartialEq, Eq, Debug, Drop)]
pub enum Given<T> {
    /// The queue has the payload, and one token of the pass.
    Done,
    /// The ring was seen full.
    Full(T),
    /// Each round was lost.
    Busy(T),
    /// A version would pass the greatest one.
    Worn(T),
    /// The pass has no token.
    NoToken(T),
}

/// What `take` returns.
#[derive(Clone, Copy, PartialEq, Eq, Debug, Drop)]
pub enum Taken<T> {
    /// One of the k oldest payloads, whose token the pass then has.
    Got(T),
    /// The queue was empty.
    Empty,
    /// Each round was lost.
    Busy,
    /// A version would pass the greatest one.
    Worn,
}

impl<T: Drop> PayQueue<T> {
    /// The sizes of the ring.
    pub fn shape(&self) -> Shape
        ensures { result ≡ self.now.opened.shape }
    {
        self.shape
    }

    /// How many versions the ends word has left, as one load finds it. Each move of an end uses one up, and a call that
    /// needs one when there is none returns Worn.
    pub fn versions_left(&self) -> u64
        ensures { result ≤ self.now.opened.shape.last }
    {
        let ends = Ends::of_bits(self.table.shared.peek(0));
        self.shape.last().saturating_sub(ends.version())
    }

    /// The words of the queue, as a ring.
    #[inline(always)]
    fn ring(&self) -> Ring<'_, T>
        ensures words { result.words.now.table_id ≡ self.now.table }
        ensures size { self.now.table.words ≡ 2 + self.now.opened.shape.n * self.now.opened.shape.k }
        ensures shape { result.shape.now ≡ self.now.opened.shape }
    {
        Ring {
            words: &self.table.shared,
            shape: &self.shape,
        }
    }
}

/// Lays the slot of the token that is out back, and puts the token behind those at home.
#[inline(always)]
fn keep_token<T: Drop>(
    shared: &Words<T>,
    seat: &mut ThreadSeat<T>,
    at_home: &mut Vec<u32>,
    token: u32,
)
    requires table { (seat.old.table_id ≡ shared.now.table_id) × (0 < shared.now.table_id.words) }
    requires idle { IsAt None seat.old.me × (0 < seat.old.me.0.opened.tokens) }
    requires token { (0 < token) × ((hand_of seat.old.me.0).out ≡ token) }
    requires holds { seat.old.me.1 ≡ (token - 1, None) ∷ [] }
    requires stacked { (hand_of seat.old.me.0).at_home ≡ reverse at_home.old.items }
    requires room { shared.now.table_id.slots ≤ vec_capacity at_home.old }
    ensures same { (seat.new.table_id ≡ seat.old.table_id) × (vec_capacity at_home.new ≡ vec_capacity at_home.old) }
    ensures laid { (seat.new.me.0 ≡ with_seen seat.old.me.0 (seen_of seat.old.me.0) (gifts_of seat.old.me.0)
        (record { at_home = token ∷ (hand_of seat.old.me.0).at_home; out = 0; payload = None }))
        × (seat.new.me.1 ≡ []) }
    ensures stacked { at_home.new.items ≡ at_home.old.items ++ token ∷ [] }
{
    lay_back(shared, seat);
    at_home.push_reserved(token);
}

impl<T: Drop> PayPass<T> {
    /// The number of the pass: its thread has the same number in the schedule.
    pub fn thread(&self) -> u32
        ensures { result ≡ self.now.pass.thread }
    {
        self.thread
    }

    /// How many tokens the pass has.
    pub fn tokens(&self) -> usize
        ensures { result ≡ length self.now.tokens }
    {
        self.at_home.len()
    }

    /// Puts a payload into the queue, with a token of the pass.
    ///
    /// Scans begin at slot `start`, below k. Returns Done, and the pass has a token less; NoToken exactly where the
    /// pass has no token; else, as `Pass::enqueue`, Full where the ring was seen full, Busy where each of `turns`
    /// rounds, at least 1, was lost, or Worn where a version would pass the greatest one. Each refusal hands the
    /// payload back, and the pass keeps its tokens. It never allocates, waits or locks.
    ///
    /// The payload stands among those that the pass has then seen, at the place of this call's own enqueue. What the
    /// pass has then seen keeps the promise of the queue, as with `Pass::enqueue`.
    #[inline(always)]
    pub fn give(&mut self, queue: &PayQueue<T>, payload: T, start: u32, turns: u16) -> Given<T>
        requires of { IsPassOf queue.now self.old.pass }
        requires start { start < queue.now.opened.shape.k }
        requires turns { 1 ≤ turns }
        ensures same { IsSamePass self.old.pass self.new.pass }
        ensures gives { Gives start turns payload result self.old self.new }
        ensures promise { PassKeepsPromise self.new.pass }
    {
        let Some(token) = self.at_home.pop() else {
            return Given::NoToken(payload);
        };
        let shared = &queue.table.shared;
        draw_token(shared, &mut self.seat);
        fill_slot(shared, &mut self.seat, token, payload);
        let Err(refusal) = enqueue_token(queue.ring(), &mut self.seat, token, start, turns) else {
            return Given::Done;
        };
        let back = empty_slot(shared, &mut self.seat, token);
        keep_token(shared, &mut self.seat, &mut self.at_home, token);
        match refusal {
            Refusal::Full => Given::Full(back),
            Refusal::Busy => Given::Busy(back),
            Refusal::Worn => Given::Worn(back),
        }
    }

    /// Takes one of the k oldest payloads out of the queue, and its token.
    ///
    /// Scans begin at slot `start`, below k. Returns, as `Pass::dequeue`, Got with the payload, Empty where the queue
    /// was empty, Busy where each of `turns` rounds, at least 1, was lost, or Worn where a version would pass the
    /// greatest one. The payload is the one that was given with the enqueue that put its token, which is the last
    /// enqueue of that token in what the pass has then seen. It never allocates, waits or locks.
    ///
    /// What the pass has then seen keeps the promise of the queue, as with `Pass::dequeue`. Each enqueue in it began
    /// with a token that was in no slot and that no other enqueue in progress held.
    #[inline(always)]
    pub fn take(&mut self, queue: &PayQueue<T>, start: u32, turns: u16) -> Taken<T>
        requires of { IsPassOf queue.now self.old.pass }
        requires start { start < queue.now.opened.shape.k }
        requires turns { 1 ≤ turns }
        ensures same { IsSamePass self.old.pass self.new.pass }
        ensures takes { TakesOut start turns result self.old self.new }
        ensures promise { PassKeepsPromise self.new.pass }
    {
        match dequeue_token(queue.ring(), &mut self.seat, start, turns) {
            Taken::Got(token) => {
                let shared = &queue.table.shared;
                let payload = empty_slot(shared, &mut self.seat, token);
                keep_token(shared, &mut self.seat, &mut self.at_home, token);
                Taken::Got(payload)
            }
            Taken::Empty => Taken::Empty,
            Taken::Busy => Taken::Busy,
            Taken::Worn => Taken::Worn,
        }
    }
}
