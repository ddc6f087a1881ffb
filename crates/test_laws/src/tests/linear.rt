//! Orders where memory is refused.

use crate::plain::{linearization_points, linearize};
use kfifo_linear::LinearFault;
use kfifo_machine::{Begin, Event};
use kfifo_words::{MAX_VERSION, Shape};
use std::test::Fail;

/// Where one request for memory fails, the call is refused with Memory, and succeeds when it is made again.
#[test]
fn memory_is_refused(rt: HostRuntime) -> Result<(), Fail> {
    let shape = Shape::new(1, 2, MAX_VERSION)?;
    let first = Event {
        thread: 0,
        begin: Some(Begin::Dequeue { start: 0, turns: 1 }),
    };
    let next = Event {
        thread: 0,
        begin: None,
    };
    let events = [first, next, next];
    let order = match linearize(rt.alloc(), shape, 1, &events) {
        Err(LinearFault::Memory) => linearize(rt.alloc(), shape, 1, &events)?,
        order => order?,
    };
    assert_eq!(&rt; order.as_slice(), [0].as_slice());
    let points = match linearization_points(rt.alloc(), shape, 1, &events) {
        Err(LinearFault::Memory) => linearization_points(rt.alloc(), shape, 1, &events)?,
        points => points?,
    };
    assert_eq!(&rt; points.as_slice(), [2].as_slice());
    Ok(())
}
