//! What calls do to the list of items.
ghost use Rattle.std.specs.Prelude.{ℕ, ◌≡◌, MatchOption};
ghost use Rattle.kfifo_model.specs.Histories.{effect_of};
ghost use Rattle.kfifo_model.specs.Index.{side_effect};

use crate::calls::Call;

/// What a call does to the list of items.
#[derive(Clone, Copy, Debug, PartialEq, Eq)]
pub enum Effect {
    /// It puts this item behind all others.
    Adds(u32),
    /// It takes this item, one of the k oldest.
    Takes(u32),
    /// It finds the list empty.
    FindsNone,
    /// It changes nothing: the answer is Full, Busy or Worn.
    Refused,
    /// It stands in no order: the answer is one of the other operation, or the call is an unfinished dequeue.
    Wrong,
}

/// The calls that put an item into the queue, or those that took one out.
#[derive(Clone, Copy, Debug, PartialEq, Eq)]
pub enum Side {
    /// Those that put an item in: enqueues that returned Done or are unfinished.
    In,
    /// Those that took one out.
    Out,
}

impl Side {
    /// Returns the item of a call of this side; of any other call, none.
    pub fn item_of(self, call: &Call) -> Option<u32>
        ensures { MatchOption result ((x : ℕ) → effect_of call.now ≡ side_effect self x → ⊥)
            (λ x. effect_of call.now ≡ side_effect self x) }
    {
        match (self, call.effect()) {
            (Side::In, Effect::Adds(item)) => Some(item),
            (Side::Out, Effect::Takes(item)) => Some(item),
            _ => None,
        }
    }
}
