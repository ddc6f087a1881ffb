//! The linearization order of a whole schedule.
ghost use Rattle.std.specs.Prelude.{◌≡◌, ◌<◌, ◌≤◌, map, IfOk, IfErr};
ghost use Rattle.kfifo_model.specs.declared.calls.TheConstants.{MAX_THREADS};
ghost use Rattle.kfifo_linear.specs.Faults.{IsLinearFault};
ghost use Rattle.kfifo_machine.specs.Machine.{IsSchedule};
ghost use Rattle.kfifo_linear.specs.Notes.{begins_call, calls_begun};
ghost use Rattle.kfifo_linear.specs.Order.{ledger_after_all, order_of, point};
ghost use Rattle.kfifo_linear.specs.Following.{Follows};
ghost use Rattle.kfifo_linear.specs.Headline.{HasLegalOrder, FewOvertake, FewCertainlyOvertake, LawsHold, PutsInVisit};

use crate::linearizer::Linearizer;
use kfifo_machine::{Begin, Event, StartFault};
use kfifo_words::Shape;
use std::alloc::{AllocError, Global};
use thiserror::Error;

/// Why there is no order.
#[derive(Clone, Copy, PartialEq, Eq, Debug, Error)]
pub enum LinearFault {
    /// 1: the number of threads is not 1 to 64, or an event is not enabled.
    #[error("the number of threads is not 1 to 64, or an event is not enabled where it stands")]
    NotASchedule,
    /// 2: an allocation failed.
    #[error("out of memory")]
    Memory,
}

impl LinearFault {
    ghost use Rattle.kfifo_linear.specs.Faults.{linear_fault_number};

    /// The fault's number, 1 or 2.
    pub fn number(self) -> u32
        ensures { result ≡ linear_fault_number self }
    {
        match self {
            LinearFault::NotASchedule => 1,
            LinearFault::Memory => 2,
        }
    }
}

impl From<AllocError> for LinearFault {
    ghost use Rattle.kfifo_linear.specs.declared.linearization.LinearFault.TheVariants.{Memory};

    ghost from_gives = { λ _ fault. fault ≡ Memory };

    fn from(_: AllocError) -> LinearFault {
        LinearFault::Memory
    }
}

impl From<StartFault> for LinearFault {
    ghost use Rattle.kfifo_linear.specs.Faults.{linear_fault_of};

    ghost from_gives = { λ start fault. fault ≡ linear_fault_of start };

    fn from(fault: StartFault) -> LinearFault {
        match fault {
            StartFault::ThreadsOutOfRange => LinearFault::NotASchedule,
            StartFault::Memory => LinearFault::Memory,
        }
    }
}

/// Whether the event begins a call.
fn begins(event: &Event) -> bool
    ensures { result ≡ begins_call event.now.begin }
{
    match event.begin {
        Some(Begin::Enqueue { .. } | Begin::Dequeue { .. }) => true,
        Some(Begin::Tick | Begin::Seal) | None => false,
    }
}

/// The number of calls that these events begin.
fn count_calls(events: &[Event]) -> usize
    ensures { result ≡ calls_begun events.now }
{
    events.iter().filter(|event| begins(event)).count()
}

/// A linearizer that has followed these events, or why there is none.
fn followed(
    alloc: Global,
    shape: Shape,
    threads: u32,
    events: &[Event],
) -> Result<Linearizer, LinearFault>
    ensures followed { IfOk result (λ l. (l.shape ≡ shape) × (0 < threads) × (threads ≤ MAX_THREADS)
        × Follows threads (calls_begun events.now) events.now l) }
    ensures refused { IfErr result (IsLinearFault shape threads events.now) }
{
    let mut linearizer = Linearizer::open(alloc, shape, threads, count_calls(events))?;
    for event in events {
        match linearizer.feed(*event) {
            Ok(_outcome) => {}
            Err(_fault) => return Err(LinearFault::NotASchedule),
        }
    }
    Ok(linearizer)
}

/// The order of these events, or why there is none.
fn order_events(
    alloc: Global,
    shape: Shape,
    threads: u32,
    events: &[Event],
) -> Result<Vec<usize>, LinearFault>
    ensures order { IfOk result (λ order. (0 < threads) × (threads ≤ MAX_THREADS) × IsSchedule shape threads events.now
        × (order.items ≡ order_of shape threads events.now)) }
    ensures refused { IfErr result (IsLinearFault shape threads events.now) }
{
    let linearizer = followed(alloc, shape, threads, events)?;
    Ok(linearizer.order(alloc)?)
}

/// Returns the linearization order of the schedule of these events, as numbers of calls by their first events.
///
/// ```rust
/// kfifo_linear::linearize(alloc, shape, threads, events)
/// ```
///
/// Refuses: NotASchedule exactly where the number of threads is not 1 to 64, or else, Memory aside, an event is not
/// enabled; Memory where an allocation failed.
///
/// The clauses from `legal` on speak of every schedule of this shape and number of threads, whatever the call returns.
/// The order of a schedule is a legal order of its history: it has all finished calls and some unfinished enqueues,
/// keeps every return-before-call pair, and is a run of the k-relaxed queue. In it, where its enqueues carry distinct
/// items, each item is overtaken at most k - 1 times in its whole life; and by the history, where its items are
/// distinct, at most k - 1 overtakings of the item of an enqueue that returned Done are certain.
pub fn linearize(
    alloc: Global,
    shape: Shape,
    threads: u32,
    events: &[Event],
) -> Result<Vec<usize>, LinearFault>
    ensures order { IfOk result (λ order. (0 < threads) × (threads ≤ MAX_THREADS) × IsSchedule shape threads events.now
        × (order.items ≡ order_of shape threads events.now)) }
    ensures refused { IfErr result (IsLinearFault shape threads events.now) }
    ensures legal { threads ≤ MAX_THREADS → HasLegalOrder shape threads }
    ensures overtaken { threads ≤ MAX_THREADS → FewOvertake shape threads }
    ensures certainly { threads ≤ MAX_THREADS → FewCertainlyOvertake shape threads }
    ensures laws { threads ≤ MAX_THREADS → LawsHold shape threads }
    ensures puts { threads ≤ MAX_THREADS → PutsInVisit shape threads }
{
    order_events(alloc, shape, threads, events)
}

/// The points of the calls in the linearization order, in turn: each is a step of the schedule, between
/// the first and the last of its call.
///
/// Refused as by `linearize`.
pub fn linearization_points(
    alloc: Global,
    shape: Shape,
    threads: u32,
    events: &[Event],
) -> Result<Vec<u64>, LinearFault>
    ensures points { IfOk result
        (λ points. (0 < threads) × (threads ≤ MAX_THREADS) × IsSchedule shape threads events.now
        × (points.items ≡ map (point (ledger_after_all shape threads events.now))
        (order_of shape threads events.now))) }
    ensures refused { IfErr result (IsLinearFault shape threads events.now) }
{
    let linearizer = followed(alloc, shape, threads, events)?;
    Ok(linearizer.points(alloc)?)
}
