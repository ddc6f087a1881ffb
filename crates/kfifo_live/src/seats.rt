//! Moves of seats that are no steps of a thread.
ghost use Rattle.std.specs.Prelude.{◌≡◌, ◌≢◌, ◌<◌, ◌≤◌, ◌-◌, ℕ, List, [], ◌∷◌, length, None};
ghost use Rattle.kfifo_live.specs.Schedule.{IsSeated, hand_of, more_in, first_part, other_parts, no_part, both_parts};
ghost use Rattle.kfifo_live.specs.Schedule.{less_next, resting_of, resting_view, with_resting};
ghost use Rattle.std.specs.Prelude.{true};
ghost use Rattle.kfifo_machine.specs.Machine.{may_seal};
ghost use Rattle.kfifo_live.specs.Step.{CountsTokens, DrawsToken, IsAt, LaysBack, Looks, TriesSeal};

use crate::rule::{
    AddToken, All, CountTokens, CutToken, DrawToken, Gather, LayBack, Observation, Opened, Rest,
    SealStep,
};
use crate::view::{ThreadSeat, Words};
use kfifo_words::{ENDS_INDEX, Ends, Shape};

/// One load of a word. All that was done up to now was then seen.
pub(crate) fn observe<T>(shared: &Words<T>, seat: &mut ThreadSeat<T>, index: usize) -> u64
    requires table { (seat.old.table_id ≡ shared.now.table_id) × (index < shared.now.table_id.words) }
    requires seated { IsSeated seat.old.me.0 }
    ensures same { (seat.new.table_id ≡ seat.old.table_id) × (seat.new.me.1 ≡ seat.old.me.1) }
    ensures looks { Looks index result seat.old.me.0 seat.new.me.0 }
{
    shared.load::<Observation>(seat, index)
}

/// Exchanges the ends, where they are still these, for the same with the last version, and returns the ends that it
/// found: `ends` where it was won. That is a seal.
pub(crate) fn try_seal<T>(
    shared: &Words<T>,
    seat: &mut ThreadSeat<T>,
    shape: &Shape,
    ends: Ends,
) -> Ends
    requires table { (seat.old.table_id ≡ shared.now.table_id) × (0 < shared.now.table_id.words) }
    requires shape { seat.old.me.0.opened.shape ≡ shape.now }
    requires idle { IsAt None seat.old.me }
    requires may { may_seal shape.now ends ≡ true }
    ensures same { (seat.new.table_id ≡ seat.old.table_id) × (seat.new.me.1 ≡ seat.old.me.1) }
    ensures tries { TriesSeal ends seat.old.me.0 result seat.new.me.0 }
{
    let sealed = Ends::pack(ends.head(), ends.tail(), shape.last());
    let found = shared.compare_exchange::<SealStep>(seat, ENDS_INDEX, ends.bits(), sealed.bits());
    Ends::of_bits(found)
}

/// Takes a token of the thread out, with its slot. It is one load of the ends word, and no event.
#[inline(always)]
pub(crate) fn draw_token<T>(shared: &Words<T>, seat: &mut ThreadSeat<T>)
    requires table { (seat.old.table_id ≡ shared.now.table_id) × (0 < shared.now.table_id.words) }
    requires idle { IsAt None seat.old.me × (0 < seat.old.me.0.opened.tokens) × (seat.old.me.1 ≡ []) }
    requires some { (x : ℕ) × (xs : List ℕ) × ((hand_of seat.old.me.0).at_home ≡ x ∷ xs) }
    ensures same { seat.new.table_id ≡ seat.old.table_id }
    ensures draws { DrawsToken shared.now.table_id.slots None seat.old.me seat.new.me }
{
    shared.load::<DrawToken>(seat, 0);
}

/// Lays the token that is out back, with its slot. It is one load of the ends word, and no event.
#[inline(always)]
pub(crate) fn lay_back<T>(shared: &Words<T>, seat: &mut ThreadSeat<T>)
    requires table { (seat.old.table_id ≡ shared.now.table_id) × (0 < shared.now.table_id.words) }
    requires idle { IsAt None seat.old.me × (0 < seat.old.me.0.opened.tokens) }
    requires out { ((hand_of seat.old.me.0).out ≢ 0) × (seat.old.me.1 ≡ ((hand_of seat.old.me.0).out - 1, None) ∷ []) }
    ensures same { seat.new.table_id ≡ seat.old.table_id }
    ensures lays { LaysBack shared.now.table_id.slots seat.old.me seat.new.me }
{
    shared.load::<LayBack>(seat, 0);
}

/// One load of a word. It tells that the thread has no more tokens than there are slots, and that each names one.
#[inline(always)]
pub(crate) fn count_tokens<T>(shared: &Words<T>, seat: &mut ThreadSeat<T>, index: usize)
    requires table { (seat.old.table_id ≡ shared.now.table_id) × (index < shared.now.table_id.words) }
    requires seated { IsSeated seat.old.me.0 × (0 < seat.old.me.0.opened.tokens) }
    ensures same { seat.new.table_id ≡ seat.old.table_id }
    ensures counts { CountsTokens shared.now.table_id.slots seat.old.me seat.new.me }
{
    shared.load::<CountTokens>(seat, index);
}

/// Cuts off the token that the thread uses next, and gives a seat that has it alone. It is no event.
#[inline(always)]
pub(crate) fn cut_token<T>(shared: &Words<T>, seat: &mut ThreadSeat<T>) -> ThreadSeat<T>
    requires table { (seat.old.table_id ≡ shared.now.table_id) × (0 < shared.now.table_id.words) }
    requires idle { IsAt None seat.old.me × (0 < seat.old.me.0.opened.tokens) }
    requires some { (x : ℕ) × (xs : List ℕ) × ((hand_of seat.old.me.0).at_home ≡ x ∷ xs) }
    ensures same { (seat.new.table_id ≡ seat.old.table_id) × (seat.new.me ≡ (less_next seat.old.me.0, seat.old.me.1)) }
    ensures resting { (result.table_id ≡ seat.old.table_id) × (result.me ≡ (resting_of seat.old.me.0, [])) }
{
    shared.split_seat::<CutToken>(seat)
}

/// Takes in the token of a seat that has it alone. The thread uses it next. It is no event.
#[inline(always)]
pub(crate) fn add_token<T, O: Opened>(
    shared: &Words<T>,
    seat: &mut ThreadSeat<T>,
    resting: ThreadSeat<T>,
    token: u32,
)
    requires table { (seat.old.table_id ≡ shared.now.table_id) × (0 < shared.now.table_id.words) }
    requires idle { IsAt None seat.old.me × (0 < seat.old.me.0.opened.tokens) × (more_in seat.old.me.0.parts ≡ []) }
    requires resting { (resting.table_id ≡ shared.now.table_id)
        × (resting.me ≡ (resting_view seat.old.me.0.opened token, [])) }
    requires picked { O.opened ≡ seat.old.me.0.opened }
    ensures same { seat.new.table_id ≡ seat.old.table_id }
    ensures takes { seat.new.me ≡ (
      with_resting seat.old.me.0 (resting_view seat.old.me.0.opened token),
      seat.old.me.1,
    ) }
{
    shared.join_seat::<AddToken<O>>(seat, resting);
}

/// Keeps the first part of a seat's view, and gives a new seat the others.
pub(crate) fn give_rest<T>(shared: &Words<T>, seat: &mut ThreadSeat<T>) -> ThreadSeat<T>
    requires table { (seat.old.table_id ≡ shared.now.table_id) × (0 < shared.now.table_id.words) }
    requires some { 1 ≤ length seat.old.me.0.parts }
    ensures same { (seat.new.table_id ≡ seat.old.table_id) × (seat.new.me.1 ≡ seat.old.me.1) }
    ensures kept { seat.new.me.0 ≡ first_part seat.old.me.0 }
    ensures given { (result.table_id ≡ seat.old.table_id) × (result.me.0 ≡ other_parts seat.old.me.0)
        × (result.me.1 ≡ []) }
{
    shared.split_seat::<Rest>(seat)
}

/// Gives a new seat the whole view, and keeps nothing.
pub(crate) fn give_all<T>(shared: &Words<T>, seat: &mut ThreadSeat<T>) -> ThreadSeat<T>
    requires table { (seat.old.table_id ≡ shared.now.table_id) × (0 < shared.now.table_id.words) }
    ensures same { (seat.new.table_id ≡ seat.old.table_id) × (seat.new.me.1 ≡ seat.old.me.1) }
    ensures kept { seat.new.me.0 ≡ no_part seat.old.me.0 }
    ensures given { (result.table_id ≡ seat.old.table_id) × (result.me.0 ≡ seat.old.me.0) × (result.me.1 ≡ []) }
{
    shared.split_seat::<All>(seat)
}

/// Takes the parts of another seat, behind its own.
pub(crate) fn join_seats<T, O: Opened>(
    shared: &Words<T>,
    seat: &mut ThreadSeat<T>,
    other: ThreadSeat<T>,
)
    requires table { (seat.old.table_id ≡ shared.now.table_id) × (0 < shared.now.table_id.words) }
    requires other { (other.table_id ≡ shared.now.table_id) × (other.me.1 ≡ []) }
    requires picked { O.opened ≡ seat.old.me.0.opened }
    ensures same { (seat.new.table_id ≡ seat.old.table_id) × (seat.new.me.1 ≡ seat.old.me.1) }
    ensures both { seat.new.me.0 ≡ both_parts seat.old.me.0 other.me.0 }
{
    shared.join_seat::<Gather<O>>(seat, other);
}
