//! The rule of the table, and what its steps tell.
ghost use Rattle.std.specs.Prelude.{◌≡◌, Some, None, []};
ghost use Rattle.kfifo_live.specs.declared.view.Opening.{Opening};
ghost use Rattle.kfifo_machine.specs.declared.event.Begin.{Begin};
ghost use Rattle.kfifo_machine.specs.declared.event.Begin.TheVariants.{Tick};
ghost use Rattle.kfifo_live.specs.Schedule.{OneSchedule, first_view, first_part, other_parts, no_part, both_parts};
ghost use Rattle.kfifo_live.specs.Schedule.{view_of, small_opening, less_next, resting_of, with_resting};
ghost use Rattle.kfifo_live.specs.Step.{Steps, DrawsStamp, TriesSeal, DrawsToken, LaysBack, CountsTokens, Looks};

use crate::view::{Opening, View};
use atomic_table::{Join, Play, Split, TableRule};
use std::marker::{Brand, PhantomData};

/// The rule, or invariant, of the table: there is one schedule; the words are those after it, each seat
/// has seen a beginning of it with all events of its threads, and the clock has ticked seldom. Where the
/// queue has tokens, each is in one place, and its slot holds what was last put with it.
pub struct QueueRule;

impl<T> TableRule<Option<T>, View<T>, Opening> for QueueRule {
    ghost holds = { λ o s. OneSchedule o s.words s.homes s.views };

    ghost first = { first_view };
}

/// The call that a first step begins. Each call picks its own.
pub trait BegunCall {
    ghost begin: { Begin };
}

impl BegunCall for Brand {
    ghost begin = { Tick };
}

/// The first step of a call.
pub struct FirstStep<C: BegunCall> {
    of: PhantomData<C>,
}

impl<T, C: BegunCall> Play<Option<T>, View<T>> for FirstStep<C> {
    ghost then = { λ s v found w. Steps (Some C.begin) v found w };
}

/// A later step of a call.
pub struct NextStep;

impl<T> Play<Option<T>, View<T>> for NextStep {
    ghost then = { λ s v found w. Steps None v found w };
}

/// A tick of the clock.
pub struct DrawStamp;

impl<T> Play<Option<T>, View<T>> for DrawStamp {
    ghost then = { λ s v found w. DrawsStamp v.0 found w.0 × (w.1 ≡ v.1) };
}

/// A compare-and-exchange of the ends word by an idle thread, to the same with the last version: a seal where it is
/// won.
pub struct SealStep;

impl<T> Play<Option<T>, View<T>> for SealStep {
    ghost then = { λ s v found w. TriesSeal s.first v.0 found w.0 × (w.1 ≡ v.1) };
}

/// A load that is no step of a call.
pub struct Observation;

impl<T> Play<Option<T>, View<T>> for Observation {
    ghost then = { λ s v found w. Looks s.word found v.0 w.0 × (w.1 ≡ v.1) };
}

/// A load with which a thread takes a token of its own, and the token's slot, out.
pub struct DrawToken;

impl<T> Play<Option<T>, View<T>> for DrawToken {
    ghost then = { λ s v found w. DrawsToken s.slots None v w };
}

/// A load with which it lays them back.
pub struct LayBack;

impl<T> Play<Option<T>, View<T>> for LayBack {
    ghost then = { λ s v found w. LaysBack s.slots v w };
}

/// A load with which it learns that it has no more tokens than there are slots, and that each names one.
pub struct CountTokens;

impl<T> Play<Option<T>, View<T>> for CountTokens {
    ghost then = { λ s v found w. CountsTokens s.slots v w };
}

/// Keeps all but the token that the first thread uses next, and gives a seat with that token alone.
pub struct CutToken;

impl<T> Split<View<T>> for CutToken {
    ghost left = { less_next };

    ghost right = { resting_of };
}

/// Keeps the first part, and gives the others.
pub struct Rest;

impl<T> Split<View<T>> for Rest {
    ghost left = { first_part };

    ghost right = { other_parts };
}

/// Keeps nothing, and gives the whole view.
pub struct All;

impl<T> Split<View<T>> for All {
    ghost left = { no_part };

    ghost right = { λ v. v };
}

/// The opening of the queue. Each join picks it.
pub trait Opened {
    ghost opened: { Opening };
}

impl Opened for Brand {
    ghost opened = { small_opening };
}

/// Takes the parts of another seat, which is spent.
pub struct Gather<O: Opened> {
    of: PhantomData<O>,
}

impl<T, O: Opened> Join<View<T>> for Gather<O> {
    ghost both = { both_parts };

    ghost spent = { view_of O.opened [] };
}

/// Takes the token of a seat that has a token alone, and is spent.
pub struct AddToken<O: Opened> {
    of: PhantomData<O>,
}

impl<T, O: Opened> Join<View<T>> for AddToken<O> {
    ghost both = { with_resting };

    ghost spent = { view_of O.opened [] };
}
