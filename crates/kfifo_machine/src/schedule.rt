//! Whole schedules.
ghost use Rattle.std.specs.Prelude.{◌≡◌, ℕ, ◌<◌, ◌⊎◌, ◌↔◌, Some, IfOk, IfErr, Err};
ghost use Rattle.kfifo_model.specs.declared.calls.TheConstants.{MAX_THREADS};
ghost use Rattle.kfifo_machine.specs.Machine.{after, IsFirstRefused};
ghost use Rattle.kfifo_machine.specs.Causes.{FullHasCause, WornHasCause};
ghost use Rattle.kfifo_machine.specs.Rounds.{BusyHasCause, BusyIsDisturbed};
ghost use Rattle.kfifo_machine.specs.Tokens.{ItemsAreTokens};
ghost use Rattle.kfifo_machine.specs.Laws.{NoWrap, FewEvents, LeavesNone, VersionsRise, NoneReturns, OthersLeave};

use crate::fault::RunFault;
use crate::{Event, State, start, step};
use kfifo_words::Shape;
use std::alloc::Global;

/// The state after these events, from the opening, or why there is none.
fn run_events(
    alloc: Global,
    shape: Shape,
    threads: u32,
    events: &[Event],
) -> Result<State, RunFault>
    ensures state { IfOk result (λ s. (s.shape ≡ shape) × (after shape threads events.now ≡ Some s.world)) }
    ensures threads { (result ≡ Err RunFault.ThreadsOutOfRange) ↔ ((threads ≡ 0) ⊎ (MAX_THREADS < threads)) }
    ensures refused { (place : ℕ) → result ≡ Err (RunFault.NotASchedule place)
        → IsFirstRefused shape threads events.now place }
{
    let mut state = start(alloc, shape, threads)?;
    for (place, event) in events.iter().enumerate() {
        match step(&mut state, *event) {
            Ok(_outcome) => {}
            Err(_fault) => return Err(RunFault::NotASchedule(place)),
        }
    }
    Ok(state)
}

/// Returns the state after these events, from the opening.
///
/// ```rust
/// kfifo_machine::run(alloc, shape, threads, events)
/// ```
///
/// Refuses, in this order: ThreadsOutOfRange where the number of threads is not 1 to 64; Memory where an allocation
/// failed; NotASchedule with the place of the first event that is not enabled.
///
/// The clauses from `no_wrap` on speak of every schedule of this shape and number of threads, whatever the call
/// returns.
pub fn run(alloc: Global, shape: Shape, threads: u32, events: &[Event]) -> Result<State, RunFault>
    ensures state { IfOk result (λ s. (s.shape ≡ shape) × (after shape threads events.now ≡ Some s.world)) }
    ensures threads { (result ≡ Err RunFault.ThreadsOutOfRange) ↔ ((threads ≡ 0) ⊎ (MAX_THREADS < threads)) }
    ensures refused { (place : ℕ) → result ≡ Err (RunFault.NotASchedule place)
        → IsFirstRefused shape threads events.now place }
    ensures no_wrap { NoWrap shape threads }
    ensures few_events { FewEvents shape threads }
    ensures leaves_none { LeavesNone shape threads }
    ensures versions_rise { VersionsRise shape threads }
    ensures none_returns { NoneReturns shape threads }
    ensures others_leave { OthersLeave shape threads }
    ensures full_has_cause { FullHasCause shape threads }
    ensures worn_has_cause { WornHasCause shape threads }
    ensures busy_has_cause { BusyHasCause shape threads }
    ensures busy_is_disturbed { BusyIsDisturbed shape threads }
    ensures tokens { ItemsAreTokens shape threads }
{
    run_events(alloc, shape, threads, events)
}
