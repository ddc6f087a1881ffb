//! Runs where memory is refused.

use crate::plain::{history, run, start, word};
use kfifo_machine::{Begin, Event, RunFault, StartFault};
use kfifo_words::{MAX_VERSION, Shape};
use std::test::Fail;

fn event(thread: u32, begin: Option<Begin>) -> Event {
    Event { thread, begin }
}

/// Where one request for memory fails, the call is refused with Memory, and succeeds when it is made again.
#[test]
fn memory_is_refused(rt: HostRuntime) -> Result<(), Fail> {
    let shape = Shape::new(1, 2, MAX_VERSION)?;
    let state = match start(rt.alloc(), shape, 64) {
        Err(StartFault::Memory) => start(rt.alloc(), shape, 64)?,
        state => state?,
    };
    for i in 0..4 {
        assert_eq!(&rt; word(&state, i), Some(0), "word {i}");
    }
    assert_eq!(&rt; word(&state, 4), None);
    let begun = [event(63, Some(Begin::Dequeue { start: 0, turns: 1 }))];
    let found = match history(rt.alloc(), shape, 64, &begun) {
        Err(RunFault::Memory) => history(rt.alloc(), shape, 64, &begun)?,
        found => found?,
    };
    assert_eq!(&rt; found.calls().len(), 1);
    let ticked = [event(63, Some(Begin::Tick))];
    let state = match run(rt.alloc(), shape, 64, &ticked) {
        Err(RunFault::Memory) => run(rt.alloc(), shape, 64, &ticked)?,
        state => state?,
    };
    assert_eq!(&rt; word(&state, shape.clock_index()), Some(1));
    Ok(())
}
