//! Records of scripts. What is said of real runs that no contract says: that scripts run at the same time.
ghost use Rattle.std.specs.Prelude.{◌≡◌, ◌<◌, All, IsTrue};
ghost use Rattle.kfifo_record.specs.Scripts.{AreScripts, IsCall, scripts_in};

use super::plain::has_order;
use super::{Crowd, check_overtaken, dequeue, draw, enqueue, wait_for_all, wait_until};
use kfifo_live::OpenFault;
use kfifo_machine::Begin;
use kfifo_model::{Answer, Call, End, History, MAX_ITEM, Op};
use kfifo_record::{Gate, OpenGate, record_scripts};
use kfifo_words::{MAX_VERSION, Shape};
use std::alloc::{AllocError, Global};
use std::process::Abort;
use std::sync::atomic::{AtomicU64, Ordering};
use std::test::Fail;
use std::thread::{Threads, yield_now};

/// An enqueue from slot 0 on.
fn put(item: u32) -> Begin {
    enqueue(item, 0, 100)
}

/// A dequeue from slot 0 on.
fn take() -> Begin {
    dequeue(0, 100)
}

/// Whether the call is in range.
pub(super) fn is_call(shape: &Shape, call: Begin) -> bool
    ensures { IsTrue result → IsCall shape.now call }
{
    match call {
        Begin::Enqueue { item, start, turns } => {
            0 < item && item <= MAX_ITEM && start < shape.k() && 0 < turns
        }
        Begin::Dequeue { start, turns } => start < shape.k() && 0 < turns,
        Begin::Tick | Begin::Seal => false,
    }
}

/// Whether each call of the script is in range.
fn is_script(shape: &Shape, script: &[Begin]) -> bool
    ensures { IsTrue result → All (IsCall shape.now) script.now }
{
    script.iter().all(|call| is_call(shape, *call))
}

/// Whether each call of each script is in range.
fn are_scripts(shape: &Shape, scripts: &[Vec<Begin>]) -> bool
    ensures { IsTrue result → AreScripts shape.now (scripts_in scripts.now) }
{
    scripts
        .iter()
        .all(|script| is_script(shape, script.as_slice()))
}

/// The record of scripts that are in range.
fn record<R: Threads + Abort + Sync, G: Gate + Sync>(
    rt: &R,
    alloc: Global,
    shape: Shape,
    scripts: &[Vec<Begin>],
    gate: &G,
) -> Result<History, OpenFault> {
    assert!(rt; are_scripts(&shape, scripts), "a call is out of range");
    record_scripts(rt, alloc, shape, scripts, gate)
}

/// A call of thread 0 that ended at the stamp after its first.
fn alone(op: Op, first: u64, answer: Answer) -> Call {
    let last = first.wrapping_add(1);
    Call {
        thread: 0,
        op,
        first,
        end: Some(End { last, answer }),
    }
}

#[test]
fn records_one_script_exactly(rt: HostRuntime) -> Result<(), Fail> {
    let shape = Shape::new(1, 2, MAX_VERSION)?;
    let script = vec![in rt.alloc(); put(7), take(), take()]?;
    let scripts = vec![in rt.alloc(); script]?;
    let history = record(&rt, rt.alloc(), shape, scripts.as_slice(), &OpenGate)?;
    let calls = [
        alone(Op::Enqueue(7), 0, Answer::Done),
        alone(Op::Dequeue, 2, Answer::Got(7)),
        alone(Op::Dequeue, 4, Answer::Empty),
    ];
    assert_eq!(rt; history.calls(), calls.as_slice());
    Ok(())
}

/// So many scripts of so many dequeues.
fn dequeues(alloc: Global, scripts: usize, calls: usize) -> Result<Vec<Vec<Begin>>, AllocError> {
    let mut made = Vec::with_capacity(alloc, scripts)?;
    for _script in 0..scripts {
        made.push(vec![in alloc; take(); calls]?)?;
    }
    Ok(made)
}

/// How many calls the record of so many scripts of so many dequeues has.
fn count_recorded<R: Threads + Abort + Sync>(
    rt: &R,
    alloc: Global,
    scripts: usize,
    calls: usize,
) -> Result<Result<usize, OpenFault>, Fail> {
    let shape = Shape::new(2, 2, MAX_VERSION)?;
    let scripts = dequeues(alloc, scripts, calls)?;
    match record(rt, alloc, shape, scripts.as_slice(), &OpenGate) {
        Ok(history) => Ok(Ok(history.calls().len())),
        Err(fault) => Ok(Err(fault)),
    }
}

#[test]
fn refuses_in_the_stated_order(rt: HostRuntime) -> Result<(), Fail> {
    let alloc = rt.alloc();
    let threads = Err(OpenFault::ThreadsOutOfRange);
    assert_eq!(rt; count_recorded(&rt, alloc, 0, 0)?, threads);
    assert_eq!(rt; count_recorded(&rt, alloc, 65, 1_025)?, threads);
    let calls = Err(OpenFault::CallsOutOfRange);
    assert_eq!(rt; count_recorded(&rt, alloc, 64, 1_025)?, calls);
    assert_eq!(rt; count_recorded(&rt, alloc, 1, 1_025)?, calls);
    assert_eq!(rt; count_recorded(&rt, alloc, 1, 1_024)?, Ok(1_024));
    assert_eq!(rt; count_recorded(&rt, alloc, 64, 2)?, Ok(128));
    assert_eq!(rt; count_recorded(&rt, alloc, 3, 0)?, Ok(0));
    Ok(())
}

/// Where two workers wait for each other before their first calls.
#[derive(Drop)]
struct Meeting {
    first: AtomicU64,
    second: AtomicU64,
    gave_up: AtomicU64,
}

impl Gate for Meeting {
    fn pass(&self, thread: u32, call: u32) {
        if call != 1 {
            return;
        }
        let (own, other) = if thread == 0 {
            (&self.first, &self.second)
        } else {
            (&self.second, &self.first)
        };
        own.store(1, Ordering::SeqCst);
        if !wait_until(other, 1) {
            self.gave_up.fetch_add(1, Ordering::SeqCst);
        }
    }
}

#[test]
fn runs_scripts_at_the_same_time(rt: HostRuntime) -> Result<(), Fail> {
    let shape = Shape::new(2, 2, MAX_VERSION)?;
    let first = vec![in rt.alloc(); put(1), take()]?;
    let second = vec![in rt.alloc(); put(2), take()]?;
    let scripts = vec![in rt.alloc(); first, second]?;
    let meeting = Meeting {
        first: AtomicU64::new(0),
        second: AtomicU64::new(0),
        gave_up: AtomicU64::new(0),
    };
    let history = record(&rt, rt.alloc(), shape, scripts.as_slice(), &meeting)?;
    assert_eq!(rt; meeting.gave_up.load(Ordering::SeqCst), 0);
    assert_eq!(rt; history.calls().len(), 4);
    Ok(())
}

/// How often a worker passed out of turn, and how often one passed at all.
#[derive(Drop)]
struct Count {
    latest: [AtomicU64; 3],
    passed: AtomicU64,
    astray: AtomicU64,
}

impl Gate for Count {
    fn pass(&self, thread: u32, call: u32) {
        self.passed.fetch_add(1, Ordering::SeqCst);
        let in_turn = match self.latest.get(thread as usize) {
            Some(latest) => {
                latest.fetch_add(1, Ordering::SeqCst).wrapping_add(1) == u64::from(call)
            }
            None => false,
        };
        if !in_turn {
            self.astray.fetch_add(1, Ordering::SeqCst);
        }
    }
}

#[test]
fn passes_the_gate_before_each_call(rt: HostRuntime) -> Result<(), Fail> {
    let shape = Shape::new(2, 2, MAX_VERSION)?;
    let scripts = dequeues(rt.alloc(), 3, 50)?;
    let count = Count {
        latest: [AtomicU64::new(0), AtomicU64::new(0), AtomicU64::new(0)],
        passed: AtomicU64::new(0),
        astray: AtomicU64::new(0),
    };
    record(&rt, rt.alloc(), shape, scripts.as_slice(), &count)?;
    assert_eq!(rt; count.passed.load(Ordering::SeqCst), 150);
    assert_eq!(rt; count.astray.load(Ordering::SeqCst), 0);
    Ok(())
}

/// A drawn script of so many calls, whose items no other thread has.
fn draw_script(
    alloc: Global,
    seed: &mut u32,
    thread: u32,
    calls: u32,
    k: u32,
) -> Result<Vec<Begin>, AllocError>
    requires { 0 < k }
{
    let mut script = Vec::new(alloc);
    for number in 0..calls {
        let start = draw(seed, k);
        let call = if draw(seed, 9) < 5 {
            let item = (thread % 64) * 65_536 + number % 65_535 + 1;
            enqueue(item, start, 100)
        } else {
            dequeue(start, 100)
        };
        script.push(call)?;
    }
    Ok(script)
}

/// A drawn script for each thread of a crowd.
fn draw_scripts(
    alloc: Global,
    seed: &mut u32,
    crowd: Crowd,
) -> Result<Vec<Vec<Begin>>, AllocError> {
    let k = crowd.shape.k();
    let mut scripts = Vec::new(alloc);
    for thread in 0..crowd.threads {
        scripts.push(draw_script(alloc, seed, thread, crowd.calls, k)?)?;
    }
    Ok(scripts)
}

/// Lets workers begin when all have come, and lets others go on before a call at times.
#[derive(Drop)]
struct Start {
    threads: u32,
    come: AtomicU64,
}

impl Gate for Start {
    fn pass(&self, thread: u32, call: u32) {
        if call == 1 {
            wait_for_all(&self.come, self.threads);
        } else if call % 3 == thread % 3 {
            yield_now();
        }
    }
}

/// A record of a crowd's drawn scripts whose workers begin together.
fn record_drawn<R: Threads + Abort + Sync>(
    rt: &R,
    alloc: Global,
    crowd: Crowd,
    seed: &mut u32,
) -> Result<History, Fail> {
    let scripts = draw_scripts(alloc, seed, crowd)?;
    let start = Start {
        threads: crowd.threads,
        come: AtomicU64::new(0),
    };
    Ok(record(rt, alloc, crowd.shape, scripts.as_slice(), &start)?)
}

#[test]
fn short_records_have_legal_orders(rt: HostRuntime) -> Result<(), Fail> {
    let mut seed = 0u32;
    for crowd in &[
        Crowd::of(1, 2, 2, 6)?,
        Crowd::of(2, 2, 3, 4)?,
        Crowd::of(3, 2, 4, 3)?,
    ] {
        for round in 0..100 {
            let history = record_drawn(&rt, rt.alloc(), *crowd, &mut seed)?;
            let has = has_order(rt.alloc(), &history, crowd.shape.k())?;
            assert!(rt; has, "{crowd:?} {round}");
        }
    }
    Ok(())
}

#[test]
fn long_records_overtake_little(rt: HostRuntime) -> Result<(), Fail> {
    let mut seed = 1u32;
    let mut overlaps = 0usize;
    for crowd in &[
        Crowd::of(1, 2, 2, 1_024)?,
        Crowd::of(2, 3, 4, 1_024)?,
        Crowd::of(4, 2, 16, 256)?,
    ] {
        let history = record_drawn(&rt, rt.alloc(), *crowd, &mut seed)?;
        let some = check_overtaken(&rt, rt.alloc(), *crowd, history)?;
        overlaps = overlaps.saturating_add(some);
    }
    println!(rt; "{overlaps} calls began while another ran")?;
    assert!(rt; overlaps > 0);
    Ok(())
}

/// Holds whichever one request of the recording for memory fails, and fails where a call always gives up.
#[test]
fn refused_memory(rt: HostRuntime) -> Result<(), Fail> {
    let shape = Shape::new(2, 2, MAX_VERSION)?;
    let scripts = match dequeues(rt.alloc(), 3, 2) {
        Err(_) => dequeues(rt.alloc(), 3, 2)?,
        Ok(scripts) => scripts,
    };
    let history = match record(&rt, rt.alloc(), shape, scripts.as_slice(), &OpenGate) {
        Err(OpenFault::Memory) => record(&rt, rt.alloc(), shape, scripts.as_slice(), &OpenGate)?,
        recorded => recorded?,
    };
    assert_eq!(rt; history.calls().len(), 6);
    Ok(())
}
