//! The short examples of the pages on the queue and on the dispatcher, as they stand there.

use kfifo_dispatch::{Finished, OpenGate, Task, dispatch};
use kfifo_live::{Queue, StampQueue, close, gather};
use kfifo_model::Answer;
use kfifo_words::{MAX_VERSION, Shape};
use std::test::Fail;

#[test]
fn the_queue(rt: HostRuntime) -> Result<(), Fail> {
    let alloc = rt.alloc();
    let shape = Shape::new(4, 256, MAX_VERSION)?; // k, segments, greatest version
    let (queue, mut passes) = Queue::open(alloc, shape, 1)?; // one pass for each thread
    let Some(mut pass) = passes.pop() else {
        unreachable!()
    };
    let put = pass.enqueue(&queue, 7, 0, 258); // item, start slot, turns
    let took = pass.dequeue(&queue, 0, 258);
    let left = close(alloc, queue, vec![in alloc; pass]?)?; // the items that are left
    assert_eq!(rt; put, Answer::Done);
    assert_eq!(rt; took, Answer::Got(7));
    assert!(rt; left.is_empty());
    Ok(())
}

#[test]
fn stamped_calls(rt: HostRuntime) -> Result<(), Fail> {
    let alloc = rt.alloc();
    let shape = Shape::new(4, 256, MAX_VERSION)?;
    let (queue, mut passes) = StampQueue::open(alloc, shape, 1, 2)?; // room for two calls in each log
    let Some(mut pass) = passes.pop() else {
        unreachable!()
    };
    let put = pass.enqueue(&queue, 7, 0, 258);
    let took = pass.dequeue(&queue, 0, 258);
    let third = pass.dequeue(&queue, 0, 258); // None, since the log is full
    let history = gather(alloc, queue, vec![in alloc; pass]?)?; // all logged calls, in ascending order of first stamps
    assert_eq!(rt; put, Some(Answer::Done));
    assert_eq!(rt; took, Some(Answer::Got(7)));
    assert_eq!(rt; third, None);
    assert_eq!(rt; history.calls().len(), 2);
    Ok(())
}

#[test]
fn the_dispatcher(rt: HostRuntime) -> Result<(), Fail> {
    let alloc = rt.alloc();
    let tasks = [
        Task {
            id: 9,
            left: 0,
            sum: 5,
        },
        Task {
            id: 2,
            left: 1,
            sum: 1,
        },
    ];
    let shape = Shape::new(2, 16, MAX_VERSION)?; // k, segments, greatest version
    let list = dispatch(&rt, alloc, tasks.as_slice(), 4, shape, 0, &OpenGate)?; // 4 workers, seed 0
    let finished = [Finished { id: 2, sum: 2 }, Finished { id: 9, sum: 5 }];
    assert_eq!(rt; list.as_slice(), finished.as_slice());
    Ok(())
}
