//! Following a schedule event by event.
ghost use Rattle.std.specs.Prelude.{◌≡◌, ℕ, ◌+◌, ◌-◌, ◌*◌, ◌^◌, ◌<◌, ◌≤◌, ◌⊎◌, ◌↔◌, List, [], ◌∷◌, ◌++◌, length, map};
ghost use Rattle.std.specs.Prelude.{true};
ghost use Rattle.std.specs.Prelude.{IfOk, IfErr, IfSome, OnErr, Ok, Err};
ghost use Rattle.kfifo_model.specs.declared.calls.TheConstants.{MAX_THREADS};
ghost use Rattle.kfifo_machine.specs.Machine;
ghost use Rattle.kfifo_machine.specs.Machine.{place_of, word_at};
ghost use Rattle.kfifo_machine.specs.Places.{IsPlace};
ghost use Rattle.kfifo_machine.specs.declared.event.Event.{Event};
ghost use Rattle.kfifo_linear.specs.Notes.{begins_call, action_at};
ghost use Rattle.kfifo_linear.specs.Following.{Follows};
ghost use Rattle.kfifo_linear.specs.Order.{ledger_after_all, order_of, point};

use crate::action::Action;
use crate::notes::Notes;
use kfifo_machine::{Event, NotEnabled, Outcome, Running, StartFault, State, start, step};
use kfifo_words::{Ends, Shape, Word};
use std::alloc::{AllocError, Global};
use std::marker::Model;

/// Follows a schedule event by event, and names the linearization order of what it has followed.
///
/// It has room for a fixed number of calls, and keeps what the order needs of the schedule: for head and tail the steps
/// of their latest 2n visits, for each slot what stands in it, and for each call where it stands. No event takes
/// memory.
#[derive(Drop)]
pub struct Linearizer {
    state: State,
    notes: Notes,
}

impl Model for Linearizer {
    ghost use Rattle.kfifo_linear.specs.Following.{Follower, IsFollowing, follower};

    ghost Value = { Follower };

    ghost view = { λ l. follower l.state.shape l.state.world l.notes };

    ghost invariant = { λ l. IsFollowing (follower l.state.shape l.state.world l.notes) };
}

/// The calls behind these points.
fn calls_of(alloc: Global, placed: &[(u64, usize)]) -> Result<Vec<usize>, AllocError>
    ensures { IfOk result (λ calls. calls.items ≡ map (λ p. p.1) placed.now) }
{
    placed.iter().map(|(_point, call)| *call).collect(alloc)
}

/// The points before these calls.
fn points_of(alloc: Global, placed: &[(u64, usize)]) -> Result<Vec<u64>, AllocError>
    ensures { IfOk result (λ points. points.items ≡ map (λ p. p.0) placed.now) }
{
    placed.iter().map(|(point, _call)| *point).collect(alloc)
}

impl Linearizer {
    /// A linearizer of this many threads, with room for this many calls, that has followed no event.
    ///
    /// Refuses: ThreadsOutOfRange where the number of threads is not 1 to 64; Memory where an allocation failed.
    pub fn open(
        alloc: Global,
        shape: Shape,
        threads: u32,
        calls: usize,
    ) -> Result<Linearizer, StartFault>
        ensures follows { IfOk result (λ l. (l.shape ≡ shape) × Follows threads calls [] l) }
        ensures threads { (result ≡ Err StartFault.ThreadsOutOfRange) ↔ ((threads ≡ 0) ⊎ (MAX_THREADS < threads)) }
        ensures few { IfOk result (λ _. (0 < threads) × (threads ≤ MAX_THREADS)) }
    {
        let state = start(alloc, shape, threads)?;
        let notes = Notes::new(alloc, &shape, threads as usize, calls)?;
        Ok(Linearizer { state, notes })
    }

    /// How many events it has followed.
    pub fn steps(&self) -> u64
        ensures { result ≡ self.now.notes.step }
    {
        self.notes.steps()
    }

    /// The place of a thread in its call; none where it is in no call, or no thread has this number.
    pub fn place(&self, thread: u32) -> Option<Running>
        ensures place { result ≡ place_of self.now.world thread }
        ensures sound { IfSome result (IsPlace self.now.shape) }
    {
        self.state.place(thread)
    }

    /// The bits of the word with this index: 0 is the ends word, then come the slots, segment by
    /// segment, and last the clock.
    pub fn word(&self, index: usize) -> u64
        requires { index < 2 + self.now.shape.n * self.now.shape.k }
        ensures { result ≡ word_at self.now.world index }
    {
        self.state.word(index)
    }

    /// What the next step of a thread will do; nothing, where it is in no call.
    fn next_action(&self, thread: u32) -> Action
        ensures { result ≡ action_at self.now.shape self.now.world (place_of self.now.world thread) }
    {
        match self.state.place(thread) {
            None => Action::Unnoted,
            Some(running) => {
                let shape = self.state.shape();
                let word = self.state.word(running.access(&shape).index());
                Action::of(&shape, running, Word::of_bits(word))
            }
        }
    }

    /// Follows one event more, or says why it is not enabled and stays as it was.
    ///
    /// There has to be room left for the call that the event begins, where it begins one, and fewer
    /// than 2^64 - 1 events were followed. It takes no memory.
    pub fn feed(&mut self, event: Event) -> Result<Outcome, NotEnabled>
        requires steps { self.old.notes.step < 2 ^ 64 - 1 }
        requires room { begins_call event.begin ≡ true → self.old.notes.begun < length self.old.notes.calls }
        ensures shape { self.new.shape ≡ self.old.shape }
        ensures made { IfOk result (λ outcome. Machine.step self.old.shape self.old.world event
            ≡ Ok (self.new.world, outcome)) }
        ensures refused { IfErr result (λ fault. Machine.step self.old.shape self.old.world event ≡ Err fault) }
        ensures unchanged { OnErr result (self.new ≡ self.old) }
        ensures follows { IfOk result (λ _. (threads room : ℕ) (events : List Event)
            → Follows threads room events self.old
            → Follows threads room (events ++ event ∷ []) self.new) }
    {
        let shape = self.state.shape();
        let ends = Ends::of_bits(self.state.word(0));
        let action = self.next_action(event.thread);
        let outcome = step(&mut self.state, event)?;
        self.notes.note(&shape, event, ends, action, outcome);
        Ok(outcome)
    }

    /// The calls that stand, each after its point, in ascending order of point and number.
    fn sorted(&self, alloc: Global) -> Result<Vec<(u64, usize)>, AllocError>
        ensures calls { IfOk result (λ placed. (threads room : ℕ) (events : List Event)
            → Follows threads room events self.now → threads ≤ MAX_THREADS
            → map (λ p. p.1) placed.items ≡ order_of self.now.shape threads events) }
        ensures points { IfOk result (λ placed. (threads room : ℕ) (events : List Event)
            → Follows threads room events self.now
            → map (λ p. p.0) placed.items ≡ map (point (ledger_after_all self.now.shape threads events))
            (map (λ p. p.1) placed.items)) }
    {
        let mut points = self.notes.points(alloc)?;
        points.sort_unstable();
        Ok(points)
    }

    /// The linearization order of the events that it has followed, as numbers of calls by their first
    /// events. Memory where an allocation failed.
    pub fn order(&self, alloc: Global) -> Result<Vec<usize>, AllocError>
        ensures { IfOk result (λ order. (threads room : ℕ) (events : List Event) → Follows threads room events self.now
            → threads ≤ MAX_THREADS
            → order.items ≡ order_of self.now.shape threads events) }
    {
        let placed = self.sorted(alloc)?;
        calls_of(alloc, placed.as_slice())
    }

    /// The points of the calls in that order, each a step of the schedule. Memory where an allocation
    /// failed.
    pub fn points(&self, alloc: Global) -> Result<Vec<u64>, AllocError>
        ensures { IfOk result (λ points. (threads room : ℕ) (events : List Event) → Follows threads room events self.now
            → threads ≤ MAX_THREADS
            → points.items ≡ map (point (ledger_after_all self.now.shape threads events))
            (order_of self.now.shape threads events)) }
    {
        let placed = self.sorted(alloc)?;
        points_of(alloc, placed.as_slice())
    }
}
