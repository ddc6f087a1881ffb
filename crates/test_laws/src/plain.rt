//! The calls that the tests make, with nothing said of their answers. No test needs what the contracts say, and
//! some take long to prove with it in view.
ghost use Rattle.std.specs.Prelude.{◌≤◌};

use kfifo_linear::LinearFault;
use kfifo_machine::{Event, RunFault, StartFault, State};
use kfifo_model::{History, MeasureFault, Overtaken, RankFault, RecordFault, SearchFault, Verdict};
use kfifo_words::Shape;
use serde_json::Value;
use std::alloc::{AllocError, Global};

pub fn check_order(
    alloc: Global,
    history: &History,
    k: u32,
    order: &[usize],
) -> Result<Verdict, AllocError>
    requires { (1 ≤ k) × (k ≤ 64) }
{
    kfifo_model::check_order(alloc, history, k, order)
}

pub fn has_order(alloc: Global, history: &History, k: u32) -> Result<bool, SearchFault>
    requires { (1 ≤ k) × (k ≤ 64) }
{
    kfifo_model::has_order(alloc, history, k)
}

pub fn ranks(
    alloc: Global,
    history: &History,
    k: u32,
    order: &[usize],
) -> Result<Vec<u32>, RankFault>
    requires { (1 ≤ k) × (k ≤ 64) }
{
    kfifo_model::ranks(alloc, history, k, order)
}

pub fn measure(alloc: Global, history: &History) -> Result<Vec<Overtaken>, MeasureFault> {
    kfifo_model::measure(alloc, history)
}

pub fn read_history(alloc: Global, json: &Value) -> Result<History, RecordFault> {
    kfifo_model::read_history(alloc, json)
}

pub fn start(alloc: Global, shape: Shape, threads: u32) -> Result<State, StartFault> {
    kfifo_machine::start(alloc, shape, threads)
}

/// A word of the table, the clock as the last one; none where no word has this index.
pub fn word(state: &State, index: usize) -> Option<u64> {
    let slots = state.shape().n() as usize * state.shape().k() as usize;
    if index < slots + 2 {
        Some(state.word(index))
    } else {
        None
    }
}

pub fn run(alloc: Global, shape: Shape, threads: u32, events: &[Event]) -> Result<State, RunFault> {
    kfifo_machine::run(alloc, shape, threads, events)
}

pub fn history(
    alloc: Global,
    shape: Shape,
    threads: u32,
    events: &[Event],
) -> Result<History, RunFault> {
    kfifo_machine::history(alloc, shape, threads, events)
}

pub fn linearize(
    alloc: Global,
    shape: Shape,
    threads: u32,
    events: &[Event],
) -> Result<Vec<usize>, LinearFault> {
    kfifo_linear::linearize(alloc, shape, threads, events)
}

pub fn linearization_points(
    alloc: Global,
    shape: Shape,
    threads: u32,
    events: &[Event],
) -> Result<Vec<u64>, LinearFault> {
    kfifo_linear::linearization_points(alloc, shape, threads, events)
}
