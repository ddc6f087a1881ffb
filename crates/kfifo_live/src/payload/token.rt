//! Tokens that are with no pass, and what calls with them return.
ghost use Rattle.std.specs.Prelude.{◌≡◌, ◌<◌, ◌≤◌, ◌*◌, ◌^◌, []};
ghost use Rattle.kfifo_live.specs.Schedule.{resting_view};
ghost use Rattle.kfifo_live.specs.Pass.{queue_of};
ghost use Rattle.kfifo_live.specs.Payloads.{IsAlone, TokenView};

use crate::seats::count_tokens;
use crate::view::{ThreadSeat, Words};
use std::marker::Model;

/// A token that is with no pass. Its slot is empty, and nobody else has the token: so what it numbers, a cell of a
/// caller's array say, belongs to whoever has it. A token that is dropped is lost to the queue.
///
/// Clauses see it as its queue and its number.
#[derive(Drop)]
pub struct Token<T> {
    // It is below 2^32. 64 bits paid where tokens were payloads of another queue; with 32 no rate is measured.
    number: u64,
    /// A seat of no thread, which has this token alone.
    seat: ThreadSeat<T>,
}

impl<T> Model for Token<T> {
    ghost Value = { TokenView };

    ghost view = { λ t. record { queue = queue_of t.seat.table_id t.seat.me.0.opened; number = t.number } };

    ghost invariant = { λ t. IsAlone t.number t.seat.me × (t.number < 2 ^ 32) };
}

impl<T> Token<T> {
    /// The token that a seat has alone. `clock` is the word that is loaded, which nobody writes.
    pub(crate) fn new(shared: &Words<T>, seat: ThreadSeat<T>, number: u32, clock: usize) -> Token<T>
        requires table { (seat.table_id ≡ shared.now.table_id) × (clock < shared.now.table_id.words) }
        requires slots { (0 < seat.me.0.opened.tokens)
            × (shared.now.table_id.slots ≡ seat.me.0.opened.threads * seat.me.0.opened.tokens) }
        requires alone { seat.me ≡ (resting_view seat.me.0.opened number, []) }
        ensures { result ≡ record { queue = queue_of seat.table_id seat.me.0.opened; number = number } }
    {
        let mut seat = seat;
        // This load tells the proof that the token names a slot. A load of the ends word would bring its line here, and
        // the next thread that moves an end would have to take it away again.
        count_tokens(shared, &mut seat, clock);
        Token {
            number: u64::from(number),
            seat,
        }
    }

    /// The seat that has the token alone.
    pub(crate) fn into_seat(self) -> ThreadSeat<T>
        ensures { (result.table_id ≡ self.queue.table)
            × (result.me ≡ (resting_view self.queue.opened self.number, [])) }
    {
        self.seat
    }

    /// The number of the token, from 1 to the number of all tokens of the queue.
    #[inline(always)]
    pub fn number(&self) -> u32
        ensures number { result ≡ self.now.number }
        ensures some { 0 < result }
        ensures within { result ≤ self.now.queue.opened.threads * self.now.queue.opened.tokens }
    {
        self.number as u32
    }
}

/// What a give with a token returns. Each refusal hands the payload and the token back.
#[derive(Drop)]
pub enum Published<T> {
    /// The queue has the payload, and the token.
    Done,
    /// The ring was seen full.
    Full(T, Token<T>),
    /// Each round was lost.
    Busy(T, Token<T>),
    /// A version would pass the greatest one.
    Worn(T, Token<T>),
}

/// What a take with its token returns.
#[derive(Drop)]
pub enum Received<T> {
    /// One of the k oldest payloads, and the token that it was given with.
    Got(T, Token<T>),
    /// The queue was empty.
    Empty,
    /// Each round was lost.
    Busy,
    /// A version would pass the greatest one.
    Worn,
}
