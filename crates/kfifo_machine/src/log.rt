//! The calls of a schedule.
ghost use Rattle.std.specs.Prelude.{◌≡◌, ℕ, ◌<◌, ◌⊎◌, ◌↔◌, length, get_or, None, IfOk, Err};
ghost use Rattle.kfifo_model.specs.declared.calls.TheConstants.{MAX_THREADS};
ghost use Rattle.kfifo_model.specs.declared.calls.Answer.{Answer};
ghost use Rattle.kfifo_machine.specs.Machine.{IsSchedule, IsFirstRefused};
ghost use Rattle.kfifo_machine.specs.Floor.{Floor};
ghost use Rattle.kfifo_machine.specs.Calls.{begins, ends, logged, blank, history_of};

use crate::fault::RunFault;
use crate::{Begin, Event, Outcome, start, step};
use kfifo_model::{Answer, Call, End, History, Op};
use kfifo_words::Shape;
use std::alloc::{AllocError, Global};
use std::marker::Model;

/// The calls so far by their first events, and for each thread the number of the call that it began
/// last.
#[derive(Drop)]
struct Log {
    calls: Vec<Call>,
    latest: Vec<usize>,
}

impl Model for Log {
    ghost use Rattle.kfifo_machine.specs.Calls.{Log};

    ghost Value = { Log };

    ghost view = { λ l. record { calls = l.calls.items; latest = l.latest.items } };
}

impl Log {
    /// The log of threads that have made no event.
    fn new(alloc: Global, threads: u32) -> Result<Log, AllocError>
        ensures { IfOk result (λ l. l ≡ blank threads) }
    {
        let latest = vec![in alloc; 0; threads as usize]?;
        Ok(Log {
            calls: Vec::new(alloc),
            latest,
        })
    }

    /// A thread begins a call at this place.
    fn begin(&mut self, place: usize, thread: u32, op: Op) -> Result<(), AllocError>
        requires { thread < length self.old.latest }
        ensures { IfOk result (λ _. self.new ≡ begins place thread op self.old) }
    {
        self.latest[thread as usize] = self.calls.len();
        let call = Call {
            thread,
            op,
            first: place as u64,
            end: None,
        };
        self.calls.push(call)?;
        Ok(())
    }

    /// A thread's call ends at this place.
    fn end(&mut self, place: usize, thread: u32, answer: Answer)
        requires thread { thread < length self.old.latest }
        requires call { get_or self.old.latest thread 0 < length self.old.calls }
        ensures { self.new ≡ ends place thread answer self.old }
    {
        let number = self.latest[thread as usize];
        let end = End {
            last: place as u64,
            answer,
        };
        self.calls[number] = Call {
            end: Some(end),
            ..self.calls[number]
        };
    }

    /// The event at this place was made, and came to this.
    fn note(&mut self, place: usize, event: Event, outcome: Outcome) -> Result<(), AllocError>
        requires thread { event.thread < length self.old.latest }
        requires call { (answer : Answer) → event.begin ≡ None → outcome ≡ Outcome.Ended answer
            → get_or self.old.latest event.thread 0 < length self.old.calls }
        ensures { IfOk result (λ _. self.new ≡ logged place event.thread event.begin outcome self.old) }
    {
        match (event.begin, outcome) {
            (Some(Begin::Enqueue { item, .. }), _) => self.begin(
                place,
                event.thread,
                Op::Enqueue(item),
            ),
            (Some(Begin::Dequeue { .. }), _) => self.begin(place, event.thread, Op::Dequeue),
            (Some(Begin::Tick | Begin::Seal), _) | (None, Outcome::Went) => Ok(()),
            (None, Outcome::Ended(answer)) => {
                self.end(place, event.thread, answer);
                Ok(())
            }
        }
    }
}

/// The history of these events, or why there is none.
fn log_events(
    alloc: Global,
    shape: Shape,
    threads: u32,
    events: &[Event],
) -> Result<History, RunFault>
    ensures history { IfOk result (λ h. IsSchedule shape threads events.now
        × (h ≡ history_of shape threads events.now)) }
    ensures threads { (result ≡ Err RunFault.ThreadsOutOfRange) ↔ ((threads ≡ 0) ⊎ (MAX_THREADS < threads)) }
    ensures refused { (place : ℕ) → result ≡ Err (RunFault.NotASchedule place)
        → IsFirstRefused shape threads events.now place }
{
    let mut state = start(alloc, shape, threads)?;
    let mut log = Log::new(alloc, threads)?;
    for (place, event) in events.iter().enumerate() {
        match step(&mut state, *event) {
            Ok(outcome) => log.note(place, *event, outcome)?,
            Err(_fault) => return Err(RunFault::NotASchedule(place)),
        }
    }
    match History::new(log.calls) {
        Ok(history) => Ok(history),
        Err(_fault) => unreachable!(),
    }
}

/// Returns the calls of these events, by their first events, from the opening. The steps of a call are the
/// places of its events, from 0.
///
/// ```rust
/// kfifo_machine::history(alloc, shape, threads, events)
/// ```
///
/// Refuses what `run` refuses.
///
/// The clause `floor` speaks of every schedule of this shape and number of threads, whatever the call returns.
pub fn history(
    alloc: Global,
    shape: Shape,
    threads: u32,
    events: &[Event],
) -> Result<History, RunFault>
    ensures history { IfOk result (λ h. IsSchedule shape threads events.now
        × (h ≡ history_of shape threads events.now)) }
    ensures threads { (result ≡ Err RunFault.ThreadsOutOfRange) ↔ ((threads ≡ 0) ⊎ (MAX_THREADS < threads)) }
    ensures refused { (place : ℕ) → result ≡ Err (RunFault.NotASchedule place)
        → IsFirstRefused shape threads events.now place }
    ensures floor { Floor shape threads }
{
    log_events(alloc, shape, threads, events)
}
