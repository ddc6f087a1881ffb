//! Replays, pick by pick.
ghost use Rattle.std.specs.Prelude.{◌≡◌, ℕ, ◌+◌, ◌^◌, ◌<◌, ◌≤◌, ◌↔◌, List, [], ◌∷◌, ◌++◌, length, map, replicate};
ghost use Rattle.std.specs.Prelude.{get_or, slice_get, All, sum_by, true, false, IsTrue, IfOk, IfErr, OnOk, OnErr};
ghost use Rattle.std.specs.Prelude.{Some, Err};
ghost use Rattle.kfifo_words.specs.declared.shape.Shape.{Shape};
ghost use Rattle.kfifo_machine.specs.declared.event.Begin.{Begin};
ghost use Rattle.kfifo_machine.specs.declared.event.Event.{Event};
ghost use Rattle.kfifo_replay.specs.Scripts.{IsCall, IsScript, AreScripts};
ghost use Rattle.kfifo_replay.specs.Picks.{script_of, event_at, events_of};
ghost use Rattle.kfifo_replay.specs.Player.{StandsFor, IsRefused, Stops, OfItsPicks};
ghost use Rattle.kfifo_replay.specs.Player;
ghost use Rattle.kfifo_replay.specs.Finishing.{Ended, Finished};
ghost use Rattle.kfifo_replay.specs.Reports.{ArePoints, IsHistoryOf, IsReport};
ghost use Rattle.kfifo_replay.specs.Traces.{IsTrace};

use crate::book::Book;
use crate::fault::ReplayFault;
use crate::report::{Report, count_unfinished, greatest_of};
use crate::steps::{Step, make};
use crate::trace::Trace;
use kfifo_linear::Linearizer;
use kfifo_machine::{Begin, EnqueuePhase, Event, MAX_THREADS, Outcome, Running};
use kfifo_model::{Answer, History, MAX_ITEM, RankFault, ranks};
use kfifo_words::Shape;
use std::alloc::{AllocError, Global};
use std::marker::Model;

/// The most calls of a script.
pub const MAX_SCRIPT_CALLS: usize = 64;

/// A replay of scripts, one for each thread, that has made the events of the picks that it was fed.
///
/// ```rust
/// let mut replay = Replay::open(alloc, shape, scripts)?;
/// replay.feed(picks)?; // these picks, one by one
/// replay.feed_many(thread, count)?; // one pick, repeated a given number of times, with no list
/// replay.finish(stopped)?; // all threads but this one go to the ends of their scripts
/// let report = replay.report(alloc)?;
/// ```
///
/// It keeps the machine's state, one entry for each call of the scripts, and what the order of the calls
/// needs, but no list of picks or events. `open` makes all its room, so no pick takes memory.
#[derive(Drop)]
pub struct Replay {
    shape: Shape,
    scripts: Vec<Vec<Begin>>,
    linearizer: Linearizer,
    begun: Vec<usize>,
    book: Book,
    rollbacks: u64,
    trace: Trace,
}

impl Model for Replay {
    ghost use Rattle.std.specs.Prelude.{map};
    ghost use Rattle.kfifo_replay.specs.Player.{Player, IsReplay};

    ghost Value = { Player };

    ghost view = { λ r. record {
      shape = r.shape;
      scripts = map (λ script. script.items) r.scripts.items;
      follower = r.linearizer;
      begun = r.begun.items;
      book = r.book;
      rollbacks = r.rollbacks;
      trace = r.trace;
    } };

    ghost invariant = { λ r. IsReplay (record {
      shape = r.shape;
      scripts = map (λ script. script.items) r.scripts.items;
      follower = r.linearizer;
      begun = r.begun.items;
      book = r.book;
      rollbacks = r.rollbacks;
      trace = r.trace;
    }) };
}

/// Whether a call is in range: its start below k, 1 to 65,535 rounds, an item from 1 to 2^24 - 1. A
/// tick and a seal are none.
fn is_call(shape: &Shape, call: Begin) -> bool
    ensures { IsTrue result ↔ IsCall shape.now call }
{
    match call {
        Begin::Enqueue { item, start, turns } => {
            start < shape.k() && 0 < turns && 0 < item && item <= MAX_ITEM
        }
        Begin::Dequeue { start, turns } => start < shape.k() && 0 < turns,
        Begin::Tick | Begin::Seal => false,
    }
}

/// Whether a thread may have this script.
fn is_script(shape: &Shape, script: &[Begin]) -> bool
    ensures { IsTrue result ↔ IsScript shape.now script.now }
{
    script.len() <= MAX_SCRIPT_CALLS && script.iter().all(|call| is_call(shape, *call))
}

/// Whether each of these is a script that a thread may have.
fn is_each_script(shape: &Shape, scripts: &[Vec<Begin>]) -> bool
    ensures { IsTrue result ↔ All (λ script. IsScript shape.now script.items) scripts.now }
{
    scripts
        .iter()
        .all(|script| is_script(shape, script.as_slice()))
}

/// Whether a replay may have these scripts.
fn are_scripts(shape: &Shape, scripts: &[Vec<Begin>]) -> bool
    ensures { IsTrue result ↔ AreScripts shape.now (map (λ script. script.items) scripts.now) }
{
    !scripts.is_empty() && scripts.len() <= MAX_THREADS as usize && is_each_script(shape, scripts)
}

/// The number of their calls.
fn count_calls(scripts: &[Vec<Begin>]) -> usize
    requires { sum_by (λ script. length script.items) scripts.now < 2 ^ 64 }
    ensures { result ≡ sum_by (λ script. length script.items) scripts.now }
{
    scripts.iter().map(|script| script.as_slice().len()).sum()
}

/// Scripts of one's own, of the same calls.
fn copy_scripts(alloc: Global, scripts: &[Vec<Begin>]) -> Result<Vec<Vec<Begin>>, AllocError>
    ensures { IfOk result (λ copies. map (λ script. script.items) copies.items
        ≡ map (λ script. script.items) scripts.now) }
{
    let mut copies = Vec::with_capacity(alloc, scripts.len())?;
    for script in scripts {
        copies.push(Vec::from_slice(alloc, script.as_slice())?)?;
    }
    Ok(copies)
}

/// Whether a step that was an undo or not, and came to this, was a won undo.
fn takes_back(undoing: bool, outcome: Outcome) -> bool
    ensures { result ≡ Player.takes_back undoing outcome }
{
    undoing && outcome != Outcome::Ended(Answer::Done)
}

/// Whether the next step of a thread at this place takes back the item that its call had put, or finds
/// that it is gone.
fn is_undoing(place: &Option<Running>) -> bool
    ensures { result ≡ Player.is_undoing place.now }
{
    match place {
        Some(Running::Enqueue { phase, .. }) => match phase {
            EnqueuePhase::Undo { .. } => true,
            _ => false,
        },
        _ => false,
    }
}

impl Replay {
    /// Returns the replay of these scripts with no pick. Script i lists the calls of thread i. These are two threads
    /// that dequeue once, from slot 0, and give up after one round:
    ///
    /// ```rust
    /// let mut scripts = Vec::new(alloc);
    /// for _script in 0..2 {
    ///     let script = vec![in alloc; Begin::Dequeue { start: 0, turns: 1 }].ok()?;
    ///     scripts.push(script).ok()?;
    /// }
    /// ```
    ///
    /// `alloc`, the runtime's allocator, makes all the room. Refuses: BadScript where there is no script, or there are
    /// over 64, or one has over 64 calls, a tick or a seal, or a call out of range; then Memory where an allocation
    /// failed.
    pub fn open(alloc: Global, shape: Shape, scripts: &[Vec<Begin>]) -> Result<Replay, ReplayFault>
        ensures opened { IfOk result (λ r. StandsFor shape (map (λ script. script.items) scripts.now) [] r) }
        ensures refused { (result ≡ Err ReplayFault.BadScript)
            ↔ (AreScripts shape (map (λ script. script.items) scripts.now) → ⊥) }
        ensures no_pick { (place : ℕ) → result ≡ Err (ReplayFault.BadPick place) → ⊥ }
    {
        Replay::open_traced(alloc, shape, scripts, 0)
    }

    /// Returns such a replay that also keeps what each event did, of the first `most` events. It has room for all of
    /// them, some 150 bytes each. It refuses what `open` refuses.
    ///
    /// ```rust
    /// let mut replay = Replay::open_traced(alloc, shape, scripts, steps_kept(options))?;
    /// replay.finish(thread)?;
    /// ```
    ///
    /// `steps` then has what each event did, and `push_trace` of `kfifo_cli_texts` writes a line for each.
    pub fn open_traced(
        alloc: Global,
        shape: Shape,
        scripts: &[Vec<Begin>],
        most: usize,
    ) -> Result<Replay, ReplayFault>
        ensures opened { IfOk result (λ r. StandsFor shape (map (λ script. script.items) scripts.now) [] r) }
        ensures most { IfOk result (λ r. r.trace.most ≡ most) }
        ensures refused { (result ≡ Err ReplayFault.BadScript)
            ↔ (AreScripts shape (map (λ script. script.items) scripts.now) → ⊥) }
        ensures no_pick { (place : ℕ) → result ≡ Err (ReplayFault.BadPick place) → ⊥ }
    {
        if !are_scripts(&shape, scripts) {
            return Err(ReplayFault::BadScript);
        }
        let room = count_calls(scripts);
        let threads = scripts.len();
        let linearizer = match Linearizer::open(alloc, shape, threads as u32, room) {
            Ok(linearizer) => linearizer,
            Err(_fault) => return Err(ReplayFault::Memory),
        };
        Ok(Replay {
            shape,
            scripts: copy_scripts(alloc, scripts)?,
            linearizer,
            begun: vec![in alloc; 0; threads]?,
            book: Book::new(alloc, threads, room)?,
            rollbacks: 0,
            trace: Trace::new(alloc, most)?,
        })
    }

    /// The call that a thread begins next; none where no script has its number, or it has ended.
    fn next_call(&self, thread: u32) -> Option<Begin>
        requires { length self.now.begun ≡ length self.now.scripts }
        ensures { result ≡ slice_get (script_of self.now.scripts thread) (get_or self.now.begun thread 0) }
    {
        let script = self.scripts.get(thread as usize)?;
        script.get(self.begun[thread as usize]).copied()
    }

    /// The event that a pick of this thread makes; none where the pick is refused.
    fn event(&self, thread: u32, place: &Option<Running>) -> Option<Event>
        requires { length self.now.begun ≡ length self.now.scripts }
        ensures { result ≡ event_at thread place.now
            (slice_get (script_of self.now.scripts thread) (get_or self.now.begun thread 0)) }
    {
        let begin = match place {
            Some(_running) => None,
            None => Some(self.next_call(thread)?),
        };
        Some(Event { thread, begin })
    }

    /// Makes the event of this pick, or returns false where it is refused, and stays as it was.
    fn pick(&mut self, thread: u32) -> bool
        ensures made { result ≡ true → OfItsPicks self.old
            (λ shape scripts earlier. StandsFor shape scripts (earlier ++ thread ∷ []) self.new) }
        ensures refused { result ≡ false → OfItsPicks self.old
            (λ shape scripts earlier. IsRefused shape scripts earlier thread) }
        ensures unchanged { result ≡ false → self.new ≡ self.old }
        ensures steps { result ≡ true → self.new.follower.notes.step ≡ self.old.follower.notes.step + 1 }
        ensures few { self.new.follower.notes.step < 2 ^ 64 }
        ensures most { self.new.trace.most ≡ self.old.trace.most }
    {
        let place = self.linearizer.place(thread);
        let undoing = is_undoing(&place);
        let Some(event) = self.event(thread, &place) else {
            return false;
        };
        let step = self.linearizer.steps();
        let outcome = make(&mut self.linearizer, &mut self.trace, &self.shape, event);
        self.book.note(step, event, outcome);
        self.begun[thread as usize] += usize::from(event.begin.is_some());
        self.rollbacks += u64::from(takes_back(undoing, outcome));
        true
    }

    /// Makes the events of these picks. Each pick names the thread that makes the next event: an idle thread begins the
    /// next call of its script, and a thread inside a call goes on.
    ///
    /// Refuses: BadPick with the place among these picks, from 0, of the first one that names no script or a thread
    /// whose script has ended: the picks before it are made, it and the later ones are not. It takes no memory.
    pub fn feed(&mut self, picks: &[u32]) -> Result<(), ReplayFault>
        ensures made { OnOk result (OfItsPicks self.old
            (λ shape scripts earlier. StandsFor shape scripts (earlier ++ picks.now) self.new)) }
        ensures refused { IfErr result (λ fault.
            OfItsPicks self.old (λ shape scripts earlier. Stops shape scripts earlier picks.now fault self.new)) }
        ensures most { self.new.trace.most ≡ self.old.trace.most }
    {
        for (place, thread) in picks.iter().enumerate() {
            if !self.pick(*thread) {
                return Err(ReplayFault::BadPick(place));
            }
        }
        Ok(())
    }

    /// Makes the events of this pick, repeated a given number of times, and refuses as `feed` does with such a list.
    pub fn feed_many(&mut self, pick: u32, count: u32) -> Result<(), ReplayFault>
        ensures made { OnOk result (OfItsPicks self.old
            (λ shape scripts earlier. StandsFor shape scripts (earlier ++ replicate count pick) self.new)) }
        ensures refused { IfErr result (λ fault.
            OfItsPicks self.old (λ shape scripts earlier.
            Stops shape scripts earlier (replicate count pick) fault self.new)) }
        ensures most { self.new.trace.most ≡ self.old.trace.most }
    {
        for place in 0..count {
            if !self.pick(pick) {
                return Err(ReplayFault::BadPick(place as usize));
            }
        }
        Ok(())
    }

    /// A thread makes all events that its script still has.
    fn go_to_end(&mut self, thread: u32)
        ensures ended { OfItsPicks self.old (λ shape scripts earlier. Ended shape scripts thread earlier self.new) }
        ensures most { self.new.trace.most ≡ self.old.trace.most }
    {
        while self.pick(thread) {}
    }

    /// By rising number, each thread but the stopped one makes all events that its script still has.
    ///
    /// Refuses: BadScript where no script has the number of the stopped thread; then nothing changes. It takes no
    /// memory.
    pub fn finish(&mut self, stopped: u32) -> Result<(), ReplayFault>
        ensures finished { OnOk result (OfItsPicks self.old
            (λ shape scripts earlier. Finished stopped shape scripts (length scripts) earlier self.new)) }
        ensures stopped { OnOk result (stopped < length self.old.scripts) }
        ensures refused { IfErr result (λ fault. (fault ≡ ReplayFault.BadScript)
            × (length self.old.scripts ≤ stopped)) }
        ensures unchanged { OnErr result (self.new ≡ self.old) }
        ensures most { self.new.trace.most ≡ self.old.trace.most }
    {
        let threads = self.scripts.len() as u32;
        if stopped >= threads {
            return Err(ReplayFault::BadScript);
        }
        for thread in 0..threads {
            if thread != stopped {
                self.go_to_end(thread);
            }
        }
        Ok(())
    }

    /// The number of events that were made.
    pub fn count(&self) -> u64
        ensures { OfItsPicks self.now (λ shape scripts picks. (events : List Event)
            → events_of shape scripts picks ≡ Some events → result ≡ length events) }
    {
        self.linearizer.steps()
    }

    /// What each event did, one after the other, from the first one on: of all events, or of the first `most` of
    /// `open_traced` where there are more. `open` keeps none.
    pub fn steps(&self) -> &[Step]
        ensures { OfItsPicks self.now (λ shape scripts picks.
            IsTrace shape scripts picks self.now.trace.most result.now) }
    {
        self.trace.steps()
    }

    /// The points of the calls in the linearization order, in turn: each is a step of the schedule, between
    /// the first and the last of its call. Memory where an allocation failed.
    pub fn points(&self, alloc: Global) -> Result<Vec<u64>, ReplayFault>
        ensures points { IfOk result (λ points.
            OfItsPicks self.now (λ shape scripts picks. ArePoints shape scripts picks points.items)) }
        ensures memory { IfErr result (λ fault. fault ≡ ReplayFault.Memory) }
    {
        Ok(self.linearizer.points(alloc)?)
    }

    /// The calls so far, by their first events; a call's first and last step are the places of its
    /// events. Memory where an allocation failed.
    pub fn history(&self, alloc: Global) -> Result<History, ReplayFault>
        ensures history { IfOk result (λ history.
            OfItsPicks self.now (λ shape scripts picks. IsHistoryOf shape scripts picks history)) }
        ensures memory { IfErr result (λ fault. fault ≡ ReplayFault.Memory) }
    {
        match History::new(Vec::from_slice(alloc, self.book.calls())?) {
            Ok(history) => Ok(history),
            Err(_fault) => unreachable!(),
        }
    }

    /// The report of the picks that were made: the number of events, the linearization order, the
    /// greatest rank in it, and the numbers of won undos and of unfinished enqueues in the order.
    ///
    /// Memory where an allocation failed.
    pub fn report(&self, alloc: Global) -> Result<Report, ReplayFault>
        ensures report { IfOk result (λ report.
            OfItsPicks self.now (λ shape scripts picks. IsReport shape scripts picks report)) }
        ensures memory { IfErr result (λ fault. fault ≡ ReplayFault.Memory) }
    {
        let order = self.linearizer.order(alloc)?;
        let history = self.history(alloc)?;
        let worst_rank = match ranks(alloc, &history, self.shape.k(), order.as_slice()) {
            Ok(found) => greatest_of(found.as_slice()),
            Err(RankFault::Memory) => return Err(ReplayFault::Memory),
            Err(RankFault::NotLegal) => unreachable!(),
        };
        Ok(Report {
            steps: self.linearizer.steps(),
            worst_rank,
            rollbacks: self.rollbacks,
            completed: count_unfinished(history.calls(), order.as_slice()),
            order,
        })
    }
}
