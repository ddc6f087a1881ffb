//! The calls of a replay, in room that is made once.
ghost use Rattle.std.specs.Prelude.{◌≡◌, ◌<◌, ◌≤◌, length, get_or, true, None, IfOk};
ghost use Rattle.kfifo_model.specs.declared.calls.Answer.{Answer};
ghost use Rattle.kfifo_machine.specs.Calls.{begins, ends, logged, blank};
ghost use Rattle.kfifo_linear.specs.Notes.{begins_call};

use kfifo_machine::{Begin, Event, Outcome};
use kfifo_model::{Answer, Call, End, Op};
use std::alloc::{AllocError, Global};
use std::marker::Model;

/// The calls so far by their first events, and for each thread the number of the call that it began
/// last.
#[derive(Drop)]
pub struct Book {
    calls: Vec<Call>,
    latest: Vec<usize>,
}

impl Model for Book {
    ghost use Rattle.std.specs.Prelude.{vec_capacity};
    ghost use Rattle.kfifo_replay.specs.Player.{Book};

    ghost Value = { Book };

    ghost view = { λ b. record {
      log = record { calls = b.calls.items; latest = b.latest.items };
      room = vec_capacity b.calls;
    } };
}

impl Book {
    /// Makes the book of threads that have made no event, with room for so many calls.
    pub fn new(alloc: Global, threads: usize, room: usize) -> Result<Book, AllocError>
        ensures log { IfOk result (λ b. b.log ≡ blank threads) }
        ensures room { IfOk result (λ b. room ≤ b.room) }
    {
        let latest = vec![in alloc; 0; threads]?;
        let calls = Vec::with_capacity(alloc, room)?;
        Ok(Book { calls, latest })
    }

    /// A thread begins a call with the event at this place.
    fn begin(&mut self, place: u64, thread: u32, op: Op)
        requires thread { thread < length self.old.log.latest }
        requires room { length self.old.log.calls < self.old.room }
        ensures log { self.new.log ≡ begins place thread op self.old.log }
        ensures room { self.old.room ≤ self.new.room }
    {
        self.latest[thread as usize] = self.calls.len();
        let call = Call {
            thread,
            op,
            first: place,
            end: None,
        };
        self.calls.push(call).unwrap();
    }

    /// A thread's call ends with the event at this place.
    fn end(&mut self, place: u64, thread: u32, answer: Answer)
        requires thread { thread < length self.old.log.latest }
        requires call { get_or self.old.log.latest thread 0 < length self.old.log.calls }
        ensures log { self.new.log ≡ ends place thread answer self.old.log }
        ensures room { self.old.room ≤ self.new.room }
    {
        let number = self.latest[thread as usize];
        let end = End {
            last: place,
            answer,
        };
        self.calls[number] = Call {
            end: Some(end),
            ..self.calls[number]
        };
    }

    /// The event at this place was made, and came to this.
    pub fn note(&mut self, place: u64, event: Event, outcome: Outcome)
        requires thread { event.thread < length self.old.log.latest }
        requires room { begins_call event.begin ≡ true → length self.old.log.calls < self.old.room }
        requires call { (answer : Answer) → event.begin ≡ None → outcome ≡ Outcome.Ended answer
            → get_or self.old.log.latest event.thread 0 < length self.old.log.calls }
        ensures log { self.new.log ≡ logged place event.thread event.begin outcome self.old.log }
        ensures room { self.old.room ≤ self.new.room }
    {
        match (event.begin, outcome) {
            (Some(Begin::Enqueue { item, .. }), _) => self.begin(
                place,
                event.thread,
                Op::Enqueue(item),
            ),
            (Some(Begin::Dequeue { .. }), _) => self.begin(place, event.thread, Op::Dequeue),
            (Some(Begin::Tick | Begin::Seal), _) | (None, Outcome::Went) => {}
            (None, Outcome::Ended(answer)) => self.end(place, event.thread, answer),
        }
    }

    /// The calls, by their first events.
    pub fn calls(&self) -> &[Call]
        ensures { result.now ≡ self.now.log.calls }
    {
        self.calls.as_slice()
    }
}
