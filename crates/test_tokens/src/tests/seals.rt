//! Seals of a queue of items, and of one of tokens.
use crate::tests::plain::{Answer, Round};
use kfifo_live::{Queue, Sealing, TakenOrSealed, TokenQueue};
use kfifo_words::{MAX_VERSION, Shape};
use std::test::Fail;

/// A queue in which nothing was put is sealed at once, and again.
#[test]
fn hold_of_an_empty_queue(rt: HostRuntime) -> Result<(), Fail> {
    let shape = Shape::new(4, 256, MAX_VERSION)?;
    let (queue, mut passes) = Queue::open(rt.alloc(), shape, 1)?;
    let Some(mut pass) = passes.pop() else {
        unreachable!()
    };
    let sealing = pass.seal(&queue, 0, 258);
    assert_eq!(&rt; sealing, Sealing::Sealed);
    assert_eq!(&rt; pass.seal(&queue, 3, 1), Sealing::Sealed);
    Ok(())
}

/// The last token comes out before the queue is sealed, and none goes in later.
#[test]
fn come_after_the_last_token(rt: HostRuntime) -> Result<(), Fail> {
    let shape = Shape::new(1, 4, MAX_VERSION)?;
    let mut round = Round::open(rt.alloc(), shape, 2)?;
    assert_eq!(rt; round.put(), Answer::Done);
    assert_eq!(rt; round.take_or_seal(), TakenOrSealed::Got(2));
    assert_eq!(rt; round.take_or_seal(), TakenOrSealed::Empty);
    assert_eq!(rt; round.take_or_seal(), TakenOrSealed::Sealed);
    assert_eq!(rt; round.put(), Answer::Worn);
    assert_eq!(rt; round.take_or_seal(), TakenOrSealed::Sealed);
    assert_eq!(rt; round.spare(rt.alloc())?.len(), 2);
    assert_eq!(rt; round.close(rt.alloc())?.len(), 0);
    Ok(())
}

/// The first take of a pass seals a queue in which no token is.
#[test]
fn come_by_a_pass(rt: HostRuntime) -> Result<(), Fail> {
    let shape = Shape::new(4, 256, MAX_VERSION)?;
    let (queue, mut passes, _) = TokenQueue::open(rt.alloc(), shape, 1, 1)?;
    let Some(mut pass) = passes.pop() else {
        unreachable!()
    };
    let taken = pass.take_or_seal(&queue, 0, 258); // start slot, turns
    assert!(rt; matches!(taken, TakenOrSealed::Sealed));
    Ok(())
}
