//! Seals of a queue by its passes.

use crate::tests::plain;
use kfifo_live::{Given, PayHandle, Sealing, Taken, TakenOrSealed};
use kfifo_model::Answer;
use kfifo_words::{MAX_VERSION, Shape};
use std::test::Fail;

/// A seal gives out the item that it finds, is refused where the ends moved, and then holds for every pass.
#[test]
fn seals_a_queue_once_it_is_empty(rt: HostRuntime) -> Result<(), Fail> {
    let shape = Shape::new(2, 2, MAX_VERSION)?;
    let (queue, mut first, mut second) = plain::open_two(rt.alloc(), shape)?;
    assert_eq!(&rt; plain::enqueue(&queue, &mut first, 5, 0, 4), Answer::Done);
    let sealing = plain::seal(&queue, &mut second, 0, 4);
    assert_eq!(&rt; sealing, Sealing::Open(Answer::Got(5)));
    let sealing = plain::seal(&queue, &mut second, 0, 4);
    assert_eq!(&rt; sealing, Sealing::Open(Answer::Empty));
    assert_eq!(&rt; plain::enqueue(&queue, &mut first, 6, 0, 4), Answer::Done);
    assert_eq!(&rt; plain::dequeue(&queue, &mut first, 0, 4), Answer::Got(6));
    assert_eq!(&rt; plain::dequeue(&queue, &mut first, 0, 4), Answer::Empty);
    assert_eq!(&rt; plain::seal(&queue, &mut second, 0, 4), Sealing::Sealed);
    assert_eq!(&rt; plain::enqueue(&queue, &mut first, 7, 0, 4), Answer::Worn);
    assert_eq!(&rt; plain::dequeue(&queue, &mut first, 0, 4), Answer::Empty);
    assert_eq!(&rt; plain::seal(&queue, &mut first, 0, 4), Sealing::Sealed);
    Ok(())
}

/// A take or a seal gives out the payload that it finds, is refused where the ends moved, and then holds for every
/// pass. A payload that is given later comes back, and none is left at the end.
#[test]
fn seals_a_queue_of_payloads_once_it_is_empty(rt: HostRuntime) -> Result<(), Fail> {
    let shape = Shape::new(2, 2, MAX_VERSION)?;
    let (queue, mut first, mut second) = plain::open_payloads_two(rt.alloc(), shape, 2)?;
    assert_eq!(&rt; plain::give(&queue, &mut first, 5_u64, 0, 4), Given::Done);
    let taken = plain::take_or_seal(&queue, &mut second, 0, 4);
    assert_eq!(&rt; taken, TakenOrSealed::Got(5));
    let taken = plain::take_or_seal(&queue, &mut second, 0, 4);
    assert_eq!(&rt; taken, TakenOrSealed::Empty);
    assert_eq!(&rt; second.tokens(), 3);
    assert_eq!(&rt; plain::give(&queue, &mut first, 6, 0, 4), Given::Done);
    assert_eq!(&rt; plain::take(&queue, &mut first, 0, 4), Taken::Got(6));
    assert_eq!(&rt; plain::take(&queue, &mut first, 0, 4), Taken::Empty);
    let taken = plain::take_or_seal(&queue, &mut second, 0, 4);
    assert_eq!(&rt; taken, TakenOrSealed::Sealed);
    assert_eq!(&rt; plain::give(&queue, &mut first, 7, 0, 4), Given::Worn(7));
    assert_eq!(&rt; plain::take(&queue, &mut second, 0, 4), Taken::Empty);
    let taken = plain::take_or_seal(&queue, &mut first, 0, 4);
    assert_eq!(&rt; taken, TakenOrSealed::Sealed);
    let left = plain::close_payloads_of_two(rt.alloc(), queue, first, second)?;
    assert_eq!(&rt; left.len(), 0);
    Ok(())
}

/// A handle takes all payloads out before it seals.
#[test]
fn seals_by_a_handle(rt: HostRuntime) -> Result<(), Fail> {
    let shape = Shape::new(1, 4, MAX_VERSION)?;
    let (queue, pass) = plain::open_payloads_one(rt.alloc(), shape, 2)?;
    let mut handle = PayHandle::new(&queue, pass);
    let given = plain::give_by_handle(&queue, &mut handle, 5_u64);
    assert_eq!(&rt; given, Given::Done);
    let given = plain::give_by_handle(&queue, &mut handle, 6);
    assert_eq!(&rt; given, Given::Done);
    let taken = plain::take_or_seal_by_handle(&queue, &mut handle);
    assert_eq!(&rt; taken, TakenOrSealed::Got(5));
    let taken = plain::take_or_seal_by_handle(&queue, &mut handle);
    assert_eq!(&rt; taken, TakenOrSealed::Got(6));
    let taken = plain::take_or_seal_by_handle(&queue, &mut handle);
    assert_eq!(&rt; taken, TakenOrSealed::Empty);
    let taken = plain::take_or_seal_by_handle(&queue, &mut handle);
    assert_eq!(&rt; taken, TakenOrSealed::Sealed);
    let given = plain::give_by_handle(&queue, &mut handle, 7);
    assert_eq!(&rt; given, Given::Worn(7));
    Ok(())
}
