//! The short examples of the pages on the renewing queue, as they stand there.
use kfifo_live::{Given, Sizes, Taken};
use kfifo_renewing::{
    CellLayout, DEFAULT_RESERVE, Renewals, close, close_cells, open, open_cells, open_with,
};
use kfifo_words::MAX_VERSION;
use std::test::Fail;

#[test]
fn the_renewing_queue(rt: HostRuntime) -> Result<(), Fail> {
    let alloc = rt.alloc();
    let mut handles = open::<u64>(alloc, 4, 32, 2)?; // k, capacity, threads
    let (Some(mut taker), Some(mut giver)) = (handles.pop(), handles.pop()) else {
        unreachable!()
    };
    let given = giver.give(7); // Done
    let taken = taker.take(); // Got(7)
    let left = close(alloc, vec![in alloc; giver, taker]?)?.left; // the payloads that are left: none
    assert_eq!(rt; given, Given::Done);
    assert_eq!(rt; taken, Taken::Got(7));
    assert!(rt; left.is_empty());
    Ok(())
}

#[test]
fn the_queue_of_cells(rt: HostRuntime) -> Result<(), Fail> {
    let alloc = rt.alloc();
    let layout = CellLayout {
        size: 64, // bytes
        alignment: 64,
    };
    let mut handles = open_cells(alloc, 4, 32, 2, layout)?; // k, capacity, threads
    let (Some(mut taker), Some(mut giver)) = (handles.pop(), handles.pop()) else {
        unreachable!()
    };
    let reserved = giver.reserve(); // Some: where the cell lies. It is this handle's alone
    let given = giver.publish(); // Done
    let received = taker.receive(); // Got: where that cell lies
    let released = taker.release(); // Done
    let left = close_cells(alloc, vec![in alloc; giver, taker]?)?.left; // the cells that are left: none
    assert!(rt; reserved.is_some());
    assert_eq!(rt; given, Given::Done);
    assert!(rt; matches!(received, Taken::Got(_)));
    assert_eq!(rt; released, Given::Done);
    for generation in left {
        assert!(rt; generation.cells().is_empty());
    }
    Ok(())
}

#[test]
fn the_queue_that_grows(rt: HostRuntime) -> Result<(), Fail> {
    let alloc = rt.alloc();
    let sizes = Sizes::for_capacity(16, 1_024, 4, MAX_VERSION)?; // k, capacity, threads, greatest version
    let renewals = Renewals {
        reserve: DEFAULT_RESERVE,
        generations: 64, // it grows to 64 times the capacity
    };
    let handles = open_with::<u64>(alloc, sizes, renewals)?;
    assert_eq!(rt; handles.len(), 4);
    assert!(rt; close(alloc, handles)?.left.is_empty());
    Ok(())
}
