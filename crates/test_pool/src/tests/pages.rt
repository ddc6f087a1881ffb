//! The short example of the pages on the queue with a pool, as it stands there.
use kfifo_live::{Given, Put, Sizes, Taken};
use kfifo_pool::PooledQueue;
use kfifo_words::MAX_VERSION;
use std::test::Fail;

#[test]
fn the_queue_with_a_pool(rt: HostRuntime) -> Result<(), Fail> {
    let alloc = rt.alloc();
    let sizes = Sizes::for_capacity(16, 1_024, 4, MAX_VERSION)?; // k, capacity, threads, greatest version
    let (queue, mut handles) = PooledQueue::open(alloc, sizes)?;
    let Some(mut handle) = handles.pop() else {
        unreachable!()
    };
    let Some(token) = handle.reserve(&queue) else {
        return Err(Fail::new("a new queue has no token"));
    };
    let put = handle.put(&queue, token); // Done
    assert!(rt; matches!(put, Put::Done));
    let Taken::Got(token) = handle.take(&queue) else {
        return Err(Fail::new("a take found no token"));
    };
    handle.release(&queue, token);
    Ok(())
}

#[test]
fn the_cells_of_a_handle(rt: HostRuntime) -> Result<(), Fail> {
    let sizes = Sizes::for_capacity(16, 1_024, 2, MAX_VERSION)?;
    let (queue, mut handles) = PooledQueue::open(rt.alloc(), sizes)?;
    let (Some(mut taker), Some(mut giver)) = (handles.pop(), handles.pop()) else {
        unreachable!()
    };
    let cell = giver.reserve_cell(&queue); // this handle's alone, until it is published
    let given = giver.publish_cell(&queue); // Done
    let taken = taker.receive_cell(&queue); // Got(cell), this handle's until it is released
    let released = taker.release_cell(&queue); // true
    assert!(rt; matches!(given, Given::Done));
    assert!(rt; released);
    let Taken::Got(received) = taken else {
        return Err(Fail::new("a receive found no cell"));
    };
    assert!(rt; cell == Some(received));
    Ok(())
}
