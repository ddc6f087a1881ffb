//! What one event of a schedule does.
ghost use Rattle.std.specs.Prelude.{◌≡◌, ℕ, ◌+◌, ◌-◌, ◌*◌, ◌^◌, ◌<◌, List, [], ◌∷◌, ◌++◌, length, Some, None, Ok};
ghost use Rattle.std.specs.Prelude.{IfSome, true};
ghost use Rattle.kfifo_machine.specs.declared.event.Event.{Event as EventData};
ghost use Rattle.kfifo_machine.specs.declared.event.Outcome.{Outcome as OutcomeData};
ghost use Rattle.kfifo_machine.specs.declared.place.Running.{Running as RunningData};
ghost use Rattle.kfifo_machine.specs.Machine.{World, begun, place_of};
ghost use Rattle.kfifo_machine.specs.Machine;
ghost use Rattle.kfifo_machine.specs.Places.{IsPlace};
ghost use Rattle.kfifo_machine.specs.Runs.{going};
ghost use Rattle.kfifo_linear.specs.Notes.{begins_call};
ghost use Rattle.kfifo_linear.specs.Following.{Follows};
ghost use Rattle.kfifo_machine.specs.Program.{accessed};
ghost use Rattle.kfifo_replay.specs.Traces.{IsUpcoming, KeepsStep, step_seen};

use crate::trace::Trace;
use kfifo_linear::Linearizer;
use kfifo_machine::{Access, Begin, DequeuePhase, EnqueuePhase, Event, Outcome, Running};
use kfifo_words::{Shape, Word};

/// What one event of a schedule did: one atomic step of one thread.
#[derive(Clone, Copy, PartialEq, Eq, Debug)]
pub struct Step {
    /// The thread that made it.
    pub thread: u32,
    /// The thread's place in its call before it: which step this was, and what had been read for it.
    pub place: Running,
    /// The load or the exchange that it made. An exchange was won where `before` is the word that it
    /// exchanges.
    pub access: Access,
    /// The accessed word before it.
    pub before: Word,
    /// The accessed word after it.
    pub after: Word,
    /// Whether the call goes on, or its answer.
    pub outcome: Outcome,
}

/// The place from which a call makes its first step. A tick and a seal have none.
fn first_place(begin: Begin) -> Option<Running>
    ensures { result ≡ begun begin }
{
    match begin {
        Begin::Enqueue { item, start, turns } => Some(Running::Enqueue {
            item,
            start,
            left: turns,
            phase: EnqueuePhase::LoadEnds,
        }),
        Begin::Dequeue { start, turns } => Some(Running::Dequeue {
            start,
            left: turns,
            phase: DequeuePhase::LoadEnds,
        }),
        Begin::Tick | Begin::Seal => None,
    }
}

/// The place from which the thread of an event makes its step.
fn place_before(linearizer: &Linearizer, event: Event) -> Option<Running>
    requires { let here = linearizer.now in (running : RunningData)
        × (going here.shape (place_of here.world event.thread) event.begin ≡ Some running) }
    ensures place { let here = linearizer.now in
        result ≡ going here.shape (place_of here.world event.thread) event.begin }
    ensures sound { IfSome result (IsPlace linearizer.now.shape) }
{
    match (linearizer.place(event.thread), event.begin) {
        (None, Some(begin)) => first_place(begin),
        (place, _) => place,
    }
}

/// What is known of a step before it is made: its place, its access, and the accessed word.
#[derive(Clone, Copy)]
struct Upcoming {
    place: Running,
    access: Access,
    before: Word,
}

/// Looks at the step that an event will make.
#[inline(always)]
fn look(linearizer: &Linearizer, shape: &Shape, event: Event) -> Upcoming
    requires shape { shape.now ≡ linearizer.now.shape }
    requires goes { let here = linearizer.now in (running : RunningData)
        × (going here.shape (place_of here.world event.thread) event.begin ≡ Some running) }
    ensures { IsUpcoming linearizer.now.shape linearizer.now.world event result }
{
    let Some(place) = place_before(linearizer, event) else {
        unreachable!();
    };
    let access = place.access(shape);
    let before = Word::of_bits(linearizer.word(access.index()));
    Upcoming {
        place,
        access,
        before,
    }
}

/// Looks at the step that an event will make, where the trace is not full.
fn look_ahead(
    linearizer: &Linearizer,
    trace: &Trace,
    shape: &Shape,
    event: Event,
) -> Option<Upcoming>
    requires shape { shape.now ≡ linearizer.now.shape }
    requires goes { let here = linearizer.now in (running : RunningData)
        × (going here.shape (place_of here.world event.thread) event.begin ≡ Some running) }
    ensures full { result ≡ None → length trace.now.steps ≡ trace.now.most }
    ensures room { IfSome result (λ _. length trace.now.steps < trace.now.most) }
    ensures look { IfSome result (IsUpcoming linearizer.now.shape linearizer.now.world event) }
{
    if trace.is_full() {
        None
    } else {
        Some(look(linearizer, shape, event))
    }
}

/// Keeps the step that an event has made, where it was looked at before.
fn keep(
    linearizer: &Linearizer,
    trace: &mut Trace,
    thread: u32,
    look: &Option<Upcoming>,
    outcome: Outcome,
)
    requires within { let shape = linearizer.now.shape in
        IfSome look.now (λ l. accessed l.access < 2 + shape.n * shape.k) }
    requires room { IfSome look.now (λ _. length trace.old.steps < trace.old.most) }
    ensures most { trace.new.most ≡ trace.old.most }
    ensures steps { trace.new.steps ≡ trace.old.steps ++ step_seen linearizer.now.world thread look.now outcome }
{
    if let Some(upcoming) = look {
        let index = upcoming.access.index();
        trace.keep(Step {
            thread,
            place: upcoming.place,
            access: upcoming.access,
            before: upcoming.before,
            after: Word::of_bits(linearizer.word(index)),
            outcome,
        });
    }
}

/// Makes an event that is enabled and neither a tick nor a seal, and keeps what it did where the trace is not full.
pub(crate) fn make(
    linearizer: &mut Linearizer,
    trace: &mut Trace,
    shape: &Shape,
    event: Event,
) -> Outcome
    requires shape { shape.now ≡ linearizer.old.shape }
    requires enabled { let here = linearizer.old in (there : World) × (outcome : OutcomeData)
        × (Machine.step here.shape here.world event ≡ Ok (there, outcome)) }
    requires goes { let here = linearizer.old in (running : RunningData)
        × (going here.shape (place_of here.world event.thread) event.begin ≡ Some running) }
    requires steps { linearizer.old.notes.step < 2 ^ 64 - 1 }
    requires room { let notes = linearizer.old.notes in
        begins_call event.begin ≡ true → notes.begun < length notes.calls }
    ensures shape { linearizer.new.shape ≡ linearizer.old.shape }
    ensures made { let here = linearizer.old in
        Machine.step here.shape here.world event ≡ Ok (linearizer.new.world, result) }
    ensures follows { (threads room : ℕ) (events : List EventData) → Follows threads room events linearizer.old
        → Follows threads room (events ++ event ∷ []) linearizer.new }
    ensures trace { let here = linearizer.old in
        KeepsStep here.shape here.world event linearizer.new.world trace.old trace.new }
{
    let look = look_ahead(linearizer, trace, shape, event);
    match linearizer.feed(event) {
        Ok(outcome) => {
            keep(linearizer, trace, event.thread, &look, outcome);
            outcome
        }
        Err(_fault) => unreachable!(),
    }
}
