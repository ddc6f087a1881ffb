//! What a thread does with the token that it has out, in a queue of payloads and in one of tokens.
ghost use Rattle.std.specs.Prelude.{◌≡◌, ◌<◌, ◌≤◌, ◌-◌, ◌^◌, ℕ, List, [], ◌∷◌, Option, None, Some};
ghost use Rattle.kfifo_live.specs.Hands.{IsGift};
ghost use Rattle.kfifo_live.specs.InHand.{GetsToken, HasInHand, PutsToken, got_by, put_by};
ghost use Rattle.kfifo_live.specs.Step.{IsSeatOf};

use crate::payload::Taken;
use crate::ring::Ring;
use crate::view::{ThreadSeat, Words};
use kfifo_model::Answer;

/// Why an enqueue put nothing into the queue.
#[derive(Drop)]
pub(crate) enum Refusal {
    /// The ring was seen full.
    Full,
    /// Each round was lost.
    Busy,
    /// A version would pass the greatest one.
    Worn,
}

/// Puts a payload into the slot that is out with the seat.
#[inline(always)]
pub(crate) fn fill_slot<T: Drop>(
    shared: &Words<T>,
    seat: &mut ThreadSeat<T>,
    token: u32,
    payload: T,
)
    requires table { seat.old.table_id ≡ shared.now.table_id }
    requires token { 0 < token }
    requires holds { seat.old.me.1 ≡ (token - 1, None) ∷ [] }
    ensures same { (seat.new.table_id ≡ seat.old.table_id) × (seat.new.me.0 ≡ seat.old.me.0) }
    ensures holds { seat.new.me.1 ≡ (token - 1, Some payload) ∷ [] }
{
    let nothing = shared.exchange(seat, token as usize - 1, Some(payload));
    let None = nothing else { unreachable!() };
}

/// Takes the payload out of the slot that is out with the seat.
#[inline(always)]
pub(crate) fn empty_slot<T: Drop>(shared: &Words<T>, seat: &mut ThreadSeat<T>, token: u32) -> T
    requires table { seat.old.table_id ≡ shared.now.table_id }
    requires token { 0 < token }
    requires holds { (payload : T) × (seat.old.me.1 ≡ (token - 1, Some payload) ∷ []) }
    ensures same { (seat.new.table_id ≡ seat.old.table_id) × (seat.new.me.0 ≡ seat.old.me.0) }
    ensures holds { seat.new.me.1 ≡ (token - 1, None) ∷ [] }
    ensures payload { seat.old.me.1 ≡ (token - 1, Some result) ∷ [] }
{
    let held = shared.exchange(seat, token as usize - 1, None);
    let Some(payload) = held else { unreachable!() };
    payload
}

/// Puts the token that is out into the queue, with what its slot holds.
#[inline(always)]
pub(crate) fn enqueue_token<T>(
    ring: Ring<'_, T>,
    seat: &mut ThreadSeat<T>,
    token: u32,
    start: u32,
    turns: u16,
) -> Result<(), Refusal>
    requires of { IsSeatOf ring seat.old }
    requires token { (1 ≤ token) × (token < 2 ^ 24) }
    requires start { start < ring.shape.now.k }
    requires turns { 1 ≤ turns }
    requires hand { (thread : ℕ) × (home : List ℕ) × (payload : Option T)
        × HasInHand thread home token payload seat.old.me × IsGift seat.old.me.0.opened.bare payload }
    ensures same { seat.new.table_id ≡ seat.old.table_id }
    ensures puts { (thread : ℕ) (home : List ℕ) (payload : Option T)
        → HasInHand thread home token payload seat.old.me
        → PutsToken thread home token payload start turns (put_by result) seat.old seat.new }
{
    match ring.enqueue(seat, token, start, turns) {
        Answer::Done => Ok(()),
        Answer::Full => Err(Refusal::Full),
        Answer::Busy => Err(Refusal::Busy),
        Answer::Worn => Err(Refusal::Worn),
        _ => unreachable!(),
    }
}

/// Takes a token out of the queue, which is then out with the seat.
#[inline(always)]
pub(crate) fn dequeue_token<T>(
    ring: Ring<'_, T>,
    seat: &mut ThreadSeat<T>,
    start: u32,
    turns: u16,
) -> Taken<u32>
    requires of { IsSeatOf ring seat.old }
    requires start { start < ring.shape.now.k }
    requires turns { 1 ≤ turns }
    requires hand { (thread : ℕ) × (home : List ℕ) × HasInHand thread home 0 None seat.old.me }
    ensures same { seat.new.table_id ≡ seat.old.table_id }
    ensures gets { (thread : ℕ) (home : List ℕ) → HasInHand thread home 0 None seat.old.me
        → GetsToken thread home start turns (got_by result) seat.old seat.new }
{
    match ring.dequeue(seat, start, turns) {
        Answer::Got(token) => Taken::Got(token),
        Answer::Empty => Taken::Empty,
        Answer::Busy => Taken::Busy,
        Answer::Worn => Taken::Worn,
        _ => unreachable!(),
    }
}
