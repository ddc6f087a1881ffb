//! The tests, by what they are about, and what several of them need.

ghost use Rattle.std.specs.Prelude.{◌<◌};

use kfifo_machine::Begin;
use kfifo_model::{Call, History};
use kfifo_words::{MAX_VERSION, Shape, ShapeFault};
use plain::measure;
use std::alloc::Global;
use std::process::Abort;
use std::sync::atomic::{AtomicU64, Ordering};
use std::test::Fail;
use std::thread::yield_now;

mod dispatch;
mod live;
mod pages;
mod plain;
mod record;

/// So many threads that make so many calls each, on a queue of this shape.
#[derive(Clone, Copy, Debug)]
struct Crowd {
    shape: Shape,
    threads: u32,
    calls: u32,
}

impl Crowd {
    /// A crowd on a queue of k slots in each of n segments, whose versions are not used up.
    fn of(k: u32, n: u32, threads: u32, calls: u32) -> Result<Crowd, ShapeFault> {
        let shape = Shape::new(k, n, MAX_VERSION)?;
        Ok(Crowd {
            shape,
            threads,
            calls,
        })
    }

    /// How many calls all its threads make.
    fn all_calls(self) -> usize {
        self.threads as usize * self.calls as usize
    }
}

/// So many looks a thread waits for others.
const LOOKS: u32 = 16_777_216;

/// Looks until the count has come so far, or gives up after many looks. Returns whether it has.
fn wait_until(count: &AtomicU64, wanted: u64) -> bool {
    for _look in 0..LOOKS {
        if count.load(Ordering::SeqCst) >= wanted {
            return true;
        }
        yield_now();
    }
    false
}

/// Lets a thread begin when all have come, or after many looks.
fn wait_for_all(come: &AtomicU64, threads: u32) {
    come.fetch_add(1, Ordering::SeqCst);
    wait_until(come, u64::from(threads));
}

/// The next number of a linear congruential generator, below a bound.
fn draw(seed: &mut u32, bound: u32) -> u32
    requires { 0 < bound }
    ensures { result < bound }
{
    *seed = seed.wrapping_mul(1_664_525).wrapping_add(1_013_904_223);
    (*seed >> 8) % bound
}

fn enqueue(item: u32, start: u32, turns: u16) -> Begin {
    Begin::Enqueue { item, start, turns }
}

fn dequeue(start: u32, turns: u16) -> Begin {
    Begin::Dequeue { start, turns }
}

/// How many calls began before an earlier one had ended.
fn count_overlaps(calls: &[Call]) -> usize {
    let mut latest = 0u64;
    let mut overlaps = 0usize;
    for call in calls {
        if call.first < latest {
            overlaps = overlaps.saturating_add(1);
        }
        if let Some(end) = call.end {
            latest = latest.max(end.last);
        }
    }
    overlaps
}

/// A record of this crowd overtakes less than k. Returns how many calls began before an earlier one had ended.
fn check_overtaken<R: Abort>(
    rt: &R,
    alloc: Global,
    crowd: Crowd,
    history: History,
) -> Result<usize, Fail> {
    let shape = crowd.shape;
    assert_eq!(rt; history.calls().len(), crowd.all_calls());
    for overtaken in measure(alloc, &history)? {
        assert!(rt;
            overtaken.count < shape.k() as usize,
            "{shape:?} {overtaken:?}"
        );
    }
    Ok(count_overlaps(history.calls()))
}
