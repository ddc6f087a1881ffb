//! A running queue of tokens.
//!
//! A *token* is an item of the plain queue that is in one place at a time: in the queue, or with whoever has it. It
//! also names a slot of the queue's table, token x the slot x - 1. A queue with payloads keeps a payload in that slot
//! while it has the token. A bare queue never touches its slots: what its tokens number, cells of an array say, belongs
//! to whoever has the token.
ghost use Rattle.std.specs.Prelude.{◌≡◌, ◌<◌, ◌≤◌, ◌+◌, ◌-◌, ◌*◌, ℕ, [], ◌∷◌, Bool, true, false, Option, None};
ghost use Rattle.kfifo_words.specs.Ring.{clock_at};
ghost use Rattle.kfifo_live.specs.InHand.{HasInHand, pass_in};
ghost use Rattle.kfifo_live.specs.Schedule.{hand_of, seen_of, gifts_of, with_seen};
ghost use Rattle.kfifo_live.specs.Step.{IsAt};
ghost use Rattle.kfifo_live.specs.Pass.{OpenQueue, queue_of, IsPassOf, IsSamePass, PassKeepsPromise};
ghost use Rattle.kfifo_live.specs.Payloads.{PayPassView, pay_pass_view};
ghost use Rattle.kfifo_live.specs.Tokens.{GivesWith, IsTokenPass, Puts, ReceivesWith, TakesToken, token_opening};

pub(crate) mod closing;
pub(crate) mod group;
pub(crate) mod handle;
pub(crate) mod opening;
pub(crate) mod sealing;
pub(crate) mod sizes;

use crate::in_hand::{Refusal, dequeue_token, empty_slot, enqueue_token, fill_slot};
use crate::payload::Taken;
use crate::payload::token::{Published, Received, Token};
use crate::ring::Ring;
use crate::rule::QueueRule;
use crate::seats::{add_token, cut_token, draw_token, lay_back};
use crate::view::{Opening, ThreadSeat, View};
use atomic_table::Table;
use kfifo_words::{Ends, Shape};
use std::alloc::Global;
use std::marker::{Brand, Model};

/// A running queue of tokens, bare or with payloads.
///
/// Clauses see it as its table and what it was opened with.
#[derive(Drop)]
pub struct TokenQueue<T: Drop> {
    table: Table<Option<T>, View<T>, Opening, QueueRule, Global>,
    shape: Shape,
    threads: u32,
    tokens: u32,
    bare: bool,
}

impl<T: Drop> Model for TokenQueue<T> {
    ghost Value = { OpenQueue };

    ghost view = { λ q. queue_of q.table.shared.table_id (token_opening q.bare q.shape q.threads q.tokens) };

    ghost invariant = { λ q. (q.table.shared.key ≡ token_opening q.bare q.shape q.threads q.tokens)
        × (q.table.shared.table_id.words ≡ 2 + q.shape.n * q.shape.k)
        × (q.table.shared.table_id.slots ≡ q.threads * q.tokens) × (0 < q.threads) };
}

/// What a thread puts and takes tokens with. It may go to another thread between two calls.
///
/// Clauses see it as the schedule that it has seen, and for each enqueue of that schedule, in turn, its token and its
/// payload, if it had one.
#[derive(Drop)]
pub struct TokenPass<T: Drop> {
    thread: u32,
    seat: ThreadSeat<T>,
}

impl<T: Drop> Model for TokenPass<T> {
    ghost Value = { PayPassView T };

    ghost view = { λ p. pay_pass_view p.seat.table_id p.thread p.seat.me.0 };

    ghost invariant = { λ p. IsTokenPass p.thread p.seat.me };
}

/// What `put` returns. Each refusal hands the token back.
#[derive(Drop)]
pub enum Put<T> {
    /// The queue has the token.
    Done,
    /// The ring was seen full.
    Full(Token<T>),
    /// Each round was lost.
    Busy(Token<T>),
    /// A version would pass the greatest one.
    Worn(Token<T>),
}

impl<T: Drop> TokenQueue<T> {
    /// The sizes of the ring.
    pub fn shape(&self) -> Shape
        ensures { result ≡ self.now.opened.shape }
    {
        self.shape
    }

    /// Whether the queue is bare: its tokens then go through it with no payload.
    pub fn is_bare(&self) -> bool
        ensures { result ≡ self.now.opened.bare }
    {
        self.bare
    }

    /// How many versions the ends word has left, as one load finds it. Each move of an end uses one up, and a call that
    /// needs one when there is none returns Worn.
    pub fn versions_left(&self) -> u64
        ensures { result ≤ self.now.opened.shape.last }
    {
        let ends = Ends::of_bits(self.table.shared.peek(0));
        self.shape.last().saturating_sub(ends.version())
    }

    /// About how many tokens are in the queue: those that lie in the segments of head and tail, and k for each segment
    /// between them, in which a call may have taken one back. Calls that run meanwhile are counted or not. It makes
    /// 2k + 1 loads at most, and writes nothing.
    pub fn len(&self) -> usize
        ensures { result ≤ self.now.opened.shape.n * self.now.opened.shape.k }
    {
        self.ring().count()
    }

    /// The words of the queue, as a ring.
    #[inline(always)]
    fn ring(&self) -> Ring<'_, T>
        ensures words { result.words.now.table_id ≡ self.now.table }
        ensures size { self.now.table.words ≡ 2 + self.now.opened.shape.n * self.now.opened.shape.k }
        ensures shape { result.shape.now ≡ self.now.opened.shape }
    {
        Ring {
            words: &self.table.shared,
            shape: &self.shape,
        }
    }

    /// The index of the clock. No thread of such a queue writes it, so a load of it meets nobody.
    #[inline(always)]
    fn clock(&self) -> usize
        ensures place { result ≡ clock_at self.now.opened.shape.k self.now.opened.shape.n }
        ensures within { result < self.now.table.words }
    {
        self.shape.clock_index()
    }
}

/// Takes a token in, and out again with its slot. Returns its number.
#[inline(always)]
fn hold_out<T: Drop>(queue: &TokenQueue<T>, seat: &mut ThreadSeat<T>, token: Token<T>) -> u32
    requires table { seat.old.table_id ≡ queue.now.table }
    requires hand { (thread : ℕ) × HasInHand thread [] 0 None seat.old.me × (seat.old.me.0.opened ≡ queue.now.opened) }
    requires token { token.queue ≡ queue.now }
    ensures same { (seat.new.table_id ≡ seat.old.table_id) × (seat.new.me.0.opened ≡ seat.old.me.0.opened)
        × (seen_of seat.new.me.0 ≡ seen_of seat.old.me.0) × (gifts_of seat.new.me.0 ≡ gifts_of seat.old.me.0) }
    ensures number { result ≡ token.number }
    ensures names { (0 < result) × (result ≤ queue.now.opened.threads * queue.now.opened.tokens) }
    ensures hand { (thread : ℕ) → HasInHand thread [] 0 None seat.old.me → HasInHand thread [] result None seat.new.me }
{
    let number = token.number();
    let shared = &queue.table.shared;
    add_token::<_, Brand>(shared, seat, token.into_seat(), number);
    draw_token(shared, seat);
    number
}

/// Lays the token that is out with the seat back, and parts with it.
#[inline(always)]
fn lay_aside<T: Drop>(queue: &TokenQueue<T>, seat: &mut ThreadSeat<T>, number: u32) -> Token<T>
    requires table { seat.old.table_id ≡ queue.now.table }
    requires opened { seat.old.me.0.opened ≡ queue.now.opened }
    requires hand { (0 < number) × ((thread : ℕ) × HasInHand thread [] number None seat.old.me) }
    ensures same { (seat.new.table_id ≡ seat.old.table_id) × (seat.new.me.0.opened ≡ seat.old.me.0.opened)
        × (seen_of seat.new.me.0 ≡ seen_of seat.old.me.0) × (gifts_of seat.new.me.0 ≡ gifts_of seat.old.me.0) }
    ensures hand { (thread : ℕ) → HasInHand thread [] number None seat.old.me → HasInHand thread [] 0 None seat.new.me }
    ensures token { result ≡ record { queue = queue.now; number = number } }
{
    let shared = &queue.table.shared;
    lay_back(shared, seat);
    let alone = cut_token(shared, seat);
    Token::new(shared, alone, number, queue.clock())
}

impl<T: Drop> TokenPass<T> {
    /// The number of the pass: its thread has the same number in the schedule.
    pub fn thread(&self) -> u32
        ensures { result ≡ self.now.pass.thread }
    {
        self.thread
    }

    /// Puts a token into a bare queue.
    ///
    /// Scans begin at slot `start`, below k. Returns Done; or, as `Pass::enqueue`, Full where the ring was seen full,
    /// Busy where each of `turns` rounds, at least 1, was lost, or Worn where a version would pass the greatest one,
    /// each with the token. It never allocates, waits or locks.
    ///
    /// What the pass has then seen keeps the promise of the queue, as with `Pass::enqueue`.
    #[inline(always)]
    pub fn put(&mut self, queue: &TokenQueue<T>, token: Token<T>, start: u32, turns: u16) -> Put<T>
        requires of { IsPassOf queue.now self.old.pass }
        requires bare { queue.now.opened.bare ≡ true }
        requires token { token.queue ≡ queue.now }
        requires start { start < queue.now.opened.shape.k }
        requires turns { 1 ≤ turns }
        ensures same { IsSamePass self.old.pass self.new.pass }
        ensures puts { Puts token start turns result self.old self.new }
        ensures promise { PassKeepsPromise self.new.pass }
    {
        let number = hold_out(queue, &mut self.seat, token);
        let Err(refusal) = enqueue_token(queue.ring(), &mut self.seat, number, start, turns) else {
            return Put::Done;
        };
        let back = lay_aside(queue, &mut self.seat, number);
        match refusal {
            Refusal::Full => Put::Full(back),
            Refusal::Busy => Put::Busy(back),
            Refusal::Worn => Put::Worn(back),
        }
    }

    /// Puts a token into a queue with payloads, and a payload with it.
    ///
    /// Returns as `put` does, and each refusal hands the payload back too.
    #[inline(always)]
    pub fn give(
        &mut self,
        queue: &TokenQueue<T>,
        token: Token<T>,
        payload: T,
        start: u32,
        turns: u16,
    ) -> Published<T>
        requires of { IsPassOf queue.now self.old.pass }
        requires payloads { queue.now.opened.bare ≡ false }
        requires token { token.queue ≡ queue.now }
        requires start { start < queue.now.opened.shape.k }
        requires turns { 1 ≤ turns }
        ensures same { IsSamePass self.old.pass self.new.pass }
        ensures gives { GivesWith token payload start turns result self.old self.new }
        ensures promise { PassKeepsPromise self.new.pass }
    {
        let number = hold_out(queue, &mut self.seat, token);
        fill_slot(&queue.table.shared, &mut self.seat, number, payload);
        let Err(refusal) = enqueue_token(queue.ring(), &mut self.seat, number, start, turns) else {
            return Published::Done;
        };
        let unsent = empty_slot(&queue.table.shared, &mut self.seat, number);
        let back = lay_aside(queue, &mut self.seat, number);
        match refusal {
            Refusal::Full => Published::Full(unsent, back),
            Refusal::Busy => Published::Busy(unsent, back),
            Refusal::Worn => Published::Worn(unsent, back),
        }
    }

    /// Takes one of the k oldest tokens out of a bare queue.
    ///
    /// Scans begin at slot `start`, below k. Returns, as `Pass::dequeue`, Got with the token, Empty where the queue was
    /// empty, Busy where each of `turns` rounds, at least 1, was lost, or Worn where a version would pass the greatest
    /// one. The token is one that a `put` of this queue put. It never allocates, waits or locks.
    ///
    /// What the pass has then seen keeps the promise of the queue, as with `Pass::dequeue`.
    #[inline(always)]
    pub fn take(&mut self, queue: &TokenQueue<T>, start: u32, turns: u16) -> Taken<Token<T>>
        requires of { IsPassOf queue.now self.old.pass }
        requires bare { queue.now.opened.bare ≡ true }
        requires start { start < queue.now.opened.shape.k }
        requires turns { 1 ≤ turns }
        ensures same { IsSamePass self.old.pass self.new.pass }
        ensures takes { TakesToken start turns result self.old self.new }
        ensures promise { PassKeepsPromise self.new.pass }
    {
        match dequeue_token(queue.ring(), &mut self.seat, start, turns) {
            Taken::Got(number) => Taken::Got(lay_aside(queue, &mut self.seat, number)),
            Taken::Empty => Taken::Empty,
            Taken::Busy => Taken::Busy,
            Taken::Worn => Taken::Worn,
        }
    }

    /// Takes one of the k oldest payloads out of a queue with payloads, and its token.
    ///
    /// Returns as `take` does. The payload is the one that was given with the enqueue that put the token, which is the
    /// last enqueue of that token in what the pass has then seen.
    #[inline(always)]
    pub fn receive(&mut self, queue: &TokenQueue<T>, start: u32, turns: u16) -> Received<T>
        requires of { IsPassOf queue.now self.old.pass }
        requires payloads { queue.now.opened.bare ≡ false }
        requires start { start < queue.now.opened.shape.k }
        requires turns { 1 ≤ turns }
        ensures same { IsSamePass self.old.pass self.new.pass }
        ensures receives { ReceivesWith start turns result self.old self.new }
        ensures promise { PassKeepsPromise self.new.pass }
    {
        match dequeue_token(queue.ring(), &mut self.seat, start, turns) {
            Taken::Got(number) => {
                let payload = empty_slot(&queue.table.shared, &mut self.seat, number);
                Received::Got(payload, lay_aside(queue, &mut self.seat, number))
            }
            Taken::Empty => Received::Empty,
            Taken::Busy => Received::Busy,
            Taken::Worn => Received::Worn,
        }
    }
}
