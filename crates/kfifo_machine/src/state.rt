//! The whole state of a machine, and one event.
ghost use Rattle.std.specs.Prelude.{◌≡◌, ℕ, ◌+◌, ◌*◌, ◌^◌, ◌<◌, ◌≤◌, ◌⊎◌, ◌↔◌, length, get_or, set, Some, None, IfSome};
ghost use Rattle.std.specs.Prelude.{IfOk, IfErr, OnErr, Ok, Err, IsErrOf};
ghost use Rattle.kfifo_words.specs.Ring.{clock_at};
ghost use Rattle.kfifo_machine.specs.Program.{access, accessed, advance};
ghost use Rattle.kfifo_machine.specs.Machine.{opening, place_of, word_at, words_after, moved, found, outcome_of};
ghost use Rattle.kfifo_machine.specs.Machine.{step_from};
ghost use Rattle.kfifo_machine.specs.Runs.{going};
ghost use Rattle.kfifo_machine.specs.Places.{IsPlace, IsState};
ghost use Rattle.kfifo_machine.specs.Laws.{OthersStay, NoneFalls, OneWord};

use crate::fault::StartFault;
use crate::place::idle_places;
use crate::{Access, Begin, DequeuePhase, EnqueuePhase, Event, Next, NotEnabled, Outcome, Running};
use kfifo_model::{MAX_ITEM, MAX_THREADS};
use kfifo_words::{ENDS_INDEX, Ends, Shape, Word};
use std::alloc::Global;
use std::marker::Model;

/// The words of the table, and each thread's place in its call.
#[derive(Drop)]
pub struct State {
    shape: Shape,
    words: Vec<Word>,
    places: Vec<Option<Running>>,
}

impl Model for State {
    ghost use Rattle.kfifo_machine.specs.Machine.{Machine};
    ghost use Rattle.kfifo_machine.specs.Places.{IsState};

    ghost Value = { Machine };

    ghost view = { λ s. record { shape = s.shape; world = record { words = s.words.items; places = s.places.items } } };

    ghost invariant = { λ s. IsState s.shape s.words.items s.places.items };
}

/// Returns the opening state: every word is 0, every thread idle.
///
/// ```rust
/// kfifo_machine::start(alloc, shape, threads)
/// ```
///
/// Refuses: ThreadsOutOfRange where the number of threads is not 1 to 64; Memory where an allocation failed.
pub fn start(alloc: Global, shape: Shape, threads: u32) -> Result<State, StartFault>
    ensures opening { IfOk result (λ s. (s.shape ≡ shape) × (s.world ≡ opening shape threads)) }
    ensures threads { (result ≡ Err StartFault.ThreadsOutOfRange) ↔ ((threads ≡ 0) ⊎ (MAX_THREADS < threads)) }
    ensures few { IfOk result (λ _. (0 < threads) × (threads ≤ MAX_THREADS)) }
{
    if threads == 0 || threads > MAX_THREADS {
        return Err(StartFault::ThreadsOutOfRange);
    }
    let size = 2 + shape.n() as usize * shape.k() as usize;
    let words = vec![in alloc; Word::of_bits(0); size]?;
    let places = idle_places(alloc, threads)?;
    Ok(State {
        shape,
        words,
        places,
    })
}

impl State {
    /// The shape of the machine.
    pub fn shape(&self) -> Shape
        ensures { result ≡ self.now.shape }
    {
        self.shape
    }

    /// The place of a thread in its call; none where it is in no call, or no thread has this number.
    #[tactic(auto, unfolding(crate::specs::Machine::place_of))]
    pub fn place(&self, thread: u32) -> Option<Running>
        ensures place { result ≡ place_of self.now.world thread }
        ensures sound { IfSome result (IsPlace self.now.shape) }
    {
        self.places.get(thread as usize).copied().flatten()
    }

    /// The bits of the word with this index: 0 is the ends word, then come the slots, segment by
    /// segment, and last the clock.
    #[tactic(auto, unfolding(crate::specs::Machine::word_at))]
    pub fn word(&self, index: usize) -> u64
        requires { index < 2 + self.now.shape.n * self.now.shape.k }
        ensures { result ≡ word_at self.now.world index }
    {
        self.words[index].bits()
    }
}

/// Makes one access to the words, and gives the word that it found.
fn touch(words: &mut Vec<Word>, access: Access) -> Word
    requires { accessed access < length words.old.items }
    ensures found { result ≡ get_or words.old.items (accessed access) 0 }
    ensures words { words.new.items ≡ words_after access words.old.items }
{
    match access {
        Access::Load { index } => words[index],
        Access::Exchange { index, from, to } => {
            let word = words[index];
            if word == from {
                words[index] = to;
            }
            word
        }
    }
}

/// One step of a thread at this place.
fn make_step(state: &mut State, thread: usize, running: Running) -> Outcome
    requires thread { thread < length state.old.world.places }
    requires place { IsPlace state.old.shape running }
    ensures shape { state.new.shape ≡ state.old.shape }
    ensures world { state.new.world ≡ moved state.old.shape state.old.world thread running }
    ensures outcome { result ≡ outcome_of
        (advance state.old.shape running (found state.old.shape state.old.world running)) }
{
    let access = running.access(&state.shape);
    let word = touch(&mut state.words, access);
    match running.advance(&state.shape, word) {
        Next::Goes(next) => {
            state.places[thread] = Some(next);
            Outcome::Went
        }
        Next::Answers(answer) => {
            state.places[thread] = None;
            Outcome::Ended(answer)
        }
    }
}

/// The place from which a call makes its first step; none, where it may not begin: its start is not
/// below k, it has no turns, or its item is out of range. A tick and a seal have none.
fn first_place(shape: &Shape, begin: Begin) -> Option<Running>
    ensures { result ≡ going shape.now None (Some begin) }
{
    match begin {
        Begin::Enqueue { item, start, turns } => {
            let may = start < shape.k() && 0 < turns && 0 < item && item <= MAX_ITEM;
            let phase = EnqueuePhase::LoadEnds;
            may.then_some(Running::Enqueue {
                item,
                start,
                left: turns,
                phase,
            })
        }
        Begin::Dequeue { start, turns } => {
            let may = start < shape.k() && 0 < turns;
            let phase = DequeuePhase::LoadEnds;
            may.then_some(Running::Dequeue {
                start,
                left: turns,
                phase,
            })
        }
        Begin::Tick | Begin::Seal => None,
    }
}

/// Adds 1 to the clock, or refuses where it is spent.
#[tactic(auto, unfolding(crate::specs::Machine::word_at, crate::specs::Machine::ticked))]
fn tick(state: &mut State) -> Result<Outcome, NotEnabled>
    ensures shape { state.new.shape ≡ state.old.shape }
    ensures made { IfOk result (λ outcome. step_from state.old.shape state.old.world 0 None (Some Begin.Tick)
        ≡ Ok (state.new.world, outcome)) }
    ensures refused { IfErr result (λ fault. step_from state.old.shape state.old.world 0 None (Some Begin.Tick)
        ≡ Err fault) }
    ensures unchanged { OnErr result (state.new ≡ state.old) }
{
    let clock = state.shape.clock_index();
    let time = state.words[clock].bits();
    if time == u64::MAX {
        return Err(NotEnabled::ClockSpent);
    }
    state.words[clock] = Word::of_bits(time + 1);
    Ok(Outcome::Went)
}

/// Gives the ends word its last version where head and tail are in one segment, or refuses.
#[tactic(auto, unfolding(crate::specs::Machine::word_at, crate::specs::Machine::sealed))]
fn seal(state: &mut State) -> Result<Outcome, NotEnabled>
    ensures shape { state.new.shape ≡ state.old.shape }
    ensures made { IfOk result (λ outcome. step_from state.old.shape state.old.world 0 None (Some Begin.Seal)
        ≡ Ok (state.new.world, outcome)) }
    ensures refused { IfErr result (λ fault. step_from state.old.shape state.old.world 0 None (Some Begin.Seal)
        ≡ Err fault) }
    ensures unchanged { OnErr result (state.new ≡ state.old) }
{
    let ends = Ends::from(state.words[ENDS_INDEX]);
    let last = state.shape.last();
    if ends.head() != ends.tail() || ends.version() >= last {
        return Err(NotEnabled::NotSealable);
    }
    state.words[ENDS_INDEX] = Ends::pack(ends.head(), ends.tail(), last).into();
    Ok(Outcome::Went)
}

/// Makes one event, or says why it cannot be made and leaves the state as it was.
#[tactic(auto, unfolding(crate::specs::Machine::step, crate::specs::Machine::place_of, crate::specs::Machine::found, crate::specs::Machine::word_at))]
fn make_event(state: &mut State, event: Event) -> Result<Outcome, NotEnabled>
    ensures sound { IsState state.old.shape state.old.world.words state.old.world.places }
    ensures shape { state.new.shape ≡ state.old.shape }
    ensures made { IfOk result (λ outcome. Rattle.kfifo_machine.specs.Machine.step state.old.shape state.old.world event
        ≡ Ok (state.new.world, outcome)) }
    ensures refused { IfErr result (λ fault.
        Rattle.kfifo_machine.specs.Machine.step state.old.shape state.old.world event ≡ Err fault) }
    ensures unchanged { OnErr result (state.new ≡ state.old) }
{
    let thread = event.thread as usize;
    if thread >= state.places.len() {
        return Err(NotEnabled::NoSuchThread);
    }
    match (state.places[thread], event.begin) {
        (None, None) => Err(NotEnabled::Idle),
        (None, Some(Begin::Tick)) => tick(state),
        (None, Some(Begin::Seal)) => seal(state),
        (None, Some(begin)) => match first_place(&state.shape, begin) {
            Some(running) => Ok(make_step(state, thread, running)),
            None => Err(NotEnabled::BadCall),
        },
        (Some(running), None) => Ok(make_step(state, thread, running)),
        (Some(_), Some(_)) => Err(NotEnabled::InCall),
    }
}

/// Makes one event, or says why it cannot be made and leaves the state as it was.
///
/// ```rust
/// kfifo_machine::step(state, event)
/// ```
///
/// Each other thread stays at its place. One word changes at most, by a won exchange, a tick or a seal, and
/// no word and no version falls.
pub fn step(state: &mut State, event: Event) -> Result<Outcome, NotEnabled>
    ensures shape { state.new.shape ≡ state.old.shape }
    ensures made { IfOk result (λ outcome. Rattle.kfifo_machine.specs.Machine.step state.old.shape state.old.world event
        ≡ Ok (state.new.world, outcome)) }
    ensures refused { IfErr result (λ fault.
        Rattle.kfifo_machine.specs.Machine.step state.old.shape state.old.world event ≡ Err fault) }
    ensures unchanged { OnErr result (state.new ≡ state.old) }
    ensures others_stay { OthersStay event.thread state.old.world state.new.world }
    ensures none_falls { NoneFalls state.old.world state.new.world }
    ensures one_word { IfOk result (λ _. OneWord state.old.shape state.old.world state.new.world event) }
{
    make_event(state, event)
}
