//! Replays where memory is refused.
//!
//! A call whose contract names the events of picks that a test writes down would make the proof of the test
//! compute that schedule. So the tests speak to helpers that have no clause.

use kfifo_machine::Begin;
use kfifo_replay::{Replay, ReplayFault, Report, replay};
use kfifo_words::{MAX_VERSION, Shape};
use std::alloc::Global;
use std::test::Fail;

/// Two scripts of one dequeue each; none where memory is refused for them.
fn two_dequeues(alloc: Global) -> Option<Vec<Vec<Begin>>> {
    let mut scripts = Vec::new(alloc);
    for _script in 0..2 {
        let script = vec![in alloc; Begin::Dequeue { start: 0, turns: 1 }].ok()?;
        scripts.push(script).ok()?;
    }
    Some(scripts)
}

/// Whether the report is one of the second dequeue within the first.
fn is_within(report: &Report) -> bool {
    report.steps == 6
        && report.order.as_slice() == [1, 0].as_slice()
        && report.worst_rank == 0
        && report.rollbacks == 0
        && report.completed == 0
}

/// Feeds picks of the second dequeue within the first.
fn feed_within(replay: &mut Replay) -> Result<(), ReplayFault> {
    replay.feed_many(0, 1)?;
    replay.feed_many(1, 3)?;
    replay.feed_many(0, 2)
}

/// The report of a whole replay of them, the second dequeue within the first. It is asked for again where memory
/// is refused.
fn replay_again(alloc: Global, shape: Shape, scripts: &[Vec<Begin>]) -> bool {
    for _time in 0..2 {
        match replay(alloc, shape, scripts, &[0, 1, 1, 1, 0, 0]) {
            Ok(report) => return is_within(&report),
            Err(ReplayFault::Memory) => {}
            Err(_fault) => return false,
        }
    }
    false
}

/// Whichever request for memory fails, a whole replay reports that, or returns what it returns when none fails.
#[test]
fn memory_refused_to_a_whole_replay(rt: HostRuntime) -> Result<(), Fail> {
    let shape = Shape::new(1, 2, MAX_VERSION)?;
    if let Some(scripts) = two_dequeues(rt.alloc()) {
        assert!(&rt; replay_again(rt.alloc(), shape, scripts.as_slice()));
    }
    Ok(())
}

/// A replay of the two, opened again where memory is refused.
fn open_again(alloc: Global, shape: Shape, scripts: &[Vec<Begin>]) -> Option<Replay> {
    for _time in 0..2 {
        match Replay::open(alloc, shape, scripts) {
            Ok(replay) => return Some(replay),
            Err(ReplayFault::Memory) => {}
            Err(_fault) => return None,
        }
    }
    None
}

/// Whether a replay of the two reports what it is to, also after a report that was refused.
fn report_again(alloc: Global, replay: &Replay) -> bool {
    for _time in 0..2 {
        match replay.report(alloc) {
            Ok(report) => return is_within(&report),
            Err(ReplayFault::Memory) => {}
            Err(_fault) => return false,
        }
    }
    false
}

/// Whichever request for memory of `open` or `report` fails, the call reports it, and a refused report leaves the
/// replay as it was.
#[test]
fn memory_refused_to_a_report(rt: HostRuntime) -> Result<(), Fail> {
    let shape = Shape::new(1, 2, MAX_VERSION)?;
    let Some(scripts) = two_dequeues(rt.alloc()) else {
        return Ok(());
    };
    let Some(mut replay) = open_again(rt.alloc(), shape, scripts.as_slice()) else {
        panic!(&rt; "refused twice");
    };
    assert_eq!(&rt; feed_within(&mut replay), Ok(()));
    assert!(&rt; report_again(rt.alloc(), &replay));
    Ok(())
}
