//! The calls of the libraries with nothing said of what they return. A row needs nothing of their contracts, and some
//! calls take long to prove with the contracts in view. Where a call has a `requires`, its function here tests that.

use kfifo_machine::{Begin, Event, NotEnabled, Outcome, State};
use kfifo_model::{Call, History, OvertakenFault, RankFault, RecordFault, SearchFault, Verdict};
use kfifo_replay::{Replay, ReplayFault, Report};
use kfifo_words::{Ends, Shape, Word};
use std::alloc::{AllocError, Global};
pub use test_laws::plain::{
    history, linearization_points, linearize, measure, read_history, run, start, word,
};

pub fn slot_bits(value: u32, version: u64) -> Option<u64> {
    if value < 16_777_216 && version < 1_099_511_627_776 {
        Some(Word::pack(value, version).bits())
    } else {
        None
    }
}

pub fn ends_bits(head: u32, tail: u32, version: u64) -> Option<u64> {
    if head < 4096 && tail < 4096 && version < 1_099_511_627_776 {
        Some(Ends::pack(head, tail, version).bits())
    } else {
        None
    }
}

pub fn next(shape: &Shape, segment: u32) -> Option<u32> {
    if segment < shape.n() {
        Some(shape.next(segment))
    } else {
        None
    }
}

pub fn dist(shape: &Shape, from: u32, to: u32) -> Option<u32> {
    if from < shape.n() && to < shape.n() {
        Some(shape.dist(from, to))
    } else {
        None
    }
}

pub fn slot_index(shape: &Shape, segment: u32, slot: u32) -> Option<usize> {
    if segment < shape.n() && slot < shape.k() {
        Some(shape.slot_index(segment, slot))
    } else {
        None
    }
}

pub fn step(state: &mut State, event: Event) -> Result<Outcome, NotEnabled> {
    kfifo_machine::step(state, event)
}

/// Whether a thread is in a call.
pub fn is_inside(state: &State, thread: u32) -> bool {
    state.place(thread).is_some()
}

pub fn new_history(calls: Vec<Call>) -> Result<History, RecordFault> {
    History::new(calls)
}

/// What is said of an order; none where no queue has this k.
pub fn check_order(
    alloc: Global,
    history: &History,
    k: u32,
    order: &[usize],
) -> Result<Option<Verdict>, AllocError> {
    if k < 1 || k > 64 {
        return Ok(None);
    }
    Ok(Some(kfifo_model::check_order(alloc, history, k, order)?))
}

/// Whether there is a legal order; none where no queue has this k.
pub fn has_order(alloc: Global, history: &History, k: u32) -> Option<Result<bool, SearchFault>> {
    if k < 1 || k > 64 {
        return None;
    }
    Some(kfifo_model::has_order(alloc, history, k))
}

/// The ranks in an order; none where no queue has this k.
pub fn ranks(
    alloc: Global,
    history: &History,
    k: u32,
    order: &[usize],
) -> Option<Result<Vec<u32>, RankFault>> {
    if k < 1 || k > 64 {
        return None;
    }
    Some(kfifo_model::ranks(alloc, history, k, order))
}

pub fn overtaken(history: &History, call: usize) -> Result<usize, OvertakenFault> {
    kfifo_model::overtaken(history, call)
}

pub fn open(alloc: Global, shape: Shape, scripts: &[Vec<Begin>]) -> Result<Replay, ReplayFault> {
    Replay::open(alloc, shape, scripts)
}

pub fn feed(replay: &mut Replay, picks: &[u32]) -> Result<(), ReplayFault> {
    replay.feed(picks)
}

pub fn feed_many(replay: &mut Replay, pick: u32, count: u32) -> Result<(), ReplayFault> {
    replay.feed_many(pick, count)
}

pub fn finish(replay: &mut Replay, stopped: u32) -> Result<(), ReplayFault> {
    replay.finish(stopped)
}

pub fn report(alloc: Global, replay: &Replay) -> Result<Report, ReplayFault> {
    replay.report(alloc)
}

pub fn points(alloc: Global, replay: &Replay) -> Result<Vec<u64>, ReplayFault> {
    replay.points(alloc)
}

pub fn calls(alloc: Global, replay: &Replay) -> Result<History, ReplayFault> {
    replay.history(alloc)
}

pub fn replay(
    alloc: Global,
    shape: Shape,
    scripts: &[Vec<Begin>],
    picks: &[u32],
) -> Result<Report, ReplayFault> {
    kfifo_replay::replay(alloc, shape, scripts, picks)
}

/// The example of the page on replays, as it stands there.
pub fn as_on_the_page(
    alloc: Global,
    shape: Shape,
    scripts: &[Vec<Begin>],
    picks: &[u32],
    thread: u32,
    count: u32,
    stopped: u32,
) -> Result<Report, ReplayFault> {
    let mut replay = Replay::open(alloc, shape, scripts)?;
    replay.feed(picks)?; // these picks, one by one
    replay.feed_many(thread, count)?; // one pick, repeated a given number of times, with no list
    replay.finish(stopped)?; // all threads but this one go to the ends of their scripts
    let report = replay.report(alloc)?;
    Ok(report)
}
