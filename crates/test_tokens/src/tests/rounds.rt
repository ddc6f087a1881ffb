//! Tokens that go round, by one thread.
use crate::tests::plain::{Answer, Round};
use kfifo_live::Taken;
use kfifo_words::{MAX_VERSION, Shape};
use std::test::Fail;

/// Three tokens go a hundred times through a plain queue, and come out in the order in which they went in.
#[test]
fn come_out_in_order(rt: HostRuntime) -> Result<(), Fail> {
    let shape = Shape::new(1, 4, MAX_VERSION)?;
    let mut round = Round::open(rt.alloc(), shape, 3)?;
    for _ in 0..100 {
        let mut wanted = round.spare(rt.alloc())?;
        assert_eq!(rt; wanted.len(), 3);
        wanted.reverse();
        for _ in 0..3 {
            assert_eq!(rt; round.put(), Answer::Done);
        }
        for number in wanted {
            assert_eq!(rt; round.take(), Taken::Got(number));
        }
        assert_eq!(rt; round.take(), Taken::Empty);
    }
    assert_eq!(rt; round.close(rt.alloc())?.len(), 0);
    Ok(())
}

/// A full ring hands the token back, which goes in once there is room.
#[test]
fn come_back_from_a_full_ring(rt: HostRuntime) -> Result<(), Fail> {
    let shape = Shape::new(1, 2, MAX_VERSION)?;
    let mut round = Round::open(rt.alloc(), shape, 4)?;
    assert_eq!(rt; round.put(), Answer::Done);
    assert_eq!(rt; round.put(), Answer::Done);
    assert_eq!(rt; round.put(), Answer::Full);
    assert_eq!(rt; round.spare(rt.alloc())?.as_slice(), [1, 2].as_slice());
    assert_eq!(rt; round.take(), Taken::Got(4));
    assert_eq!(rt; round.put(), Answer::Done);
    assert_eq!(rt; round.spare(rt.alloc())?.as_slice(), [1, 2].as_slice());
    let left = round.close(rt.alloc())?;
    assert_eq!(rt; left.as_slice(), [3, 4].as_slice());
    Ok(())
}

/// With k = 4 each of twenty tokens comes out once, and none passes more than three others.
#[test]
fn come_out_once_each(rt: HostRuntime) -> Result<(), Fail> {
    let shape = Shape::new(4, 8, MAX_VERSION)?;
    let mut round = Round::open(rt.alloc(), shape, 20)?;
    for _ in 0..20 {
        assert_eq!(rt; round.put(), Answer::Done);
    }
    assert_eq!(rt; round.put(), Answer::NoToken);
    let mut seen = vec![in rt.alloc(); false; 20]?;
    for turn in 0..20_u32 {
        let Taken::Got(number) = round.take() else {
            return Err(Fail::new("a take found no token"));
        };
        // Token 20 went in first.
        let place = 20_u32.saturating_sub(number);
        assert!(rt; place <= turn + 3, "token {number} in turn {turn}");
        if let Some(was) = seen.get_mut(place as usize) {
            assert!(rt; !*was, "token {number} came twice");
            *was = true;
        }
    }
    assert!(rt; seen.iter().all(|was| *was));
    Ok(())
}

/// Puts a token. Whether the queue then has so many.
fn puts(round: &mut Round, count: usize) -> bool {
    round.put() == Answer::Done && round.len() == count
}

/// Takes a token. Whether the queue then has so many.
fn takes(round: &mut Round, count: usize) -> bool {
    matches!(round.take(), Taken::Got(_)) && round.len() == count
}

/// The queue counts its tokens, in a part of a segment and over several, also where they lie round the ring.
#[test]
fn are_counted(rt: HostRuntime) -> Result<(), Fail> {
    let shape = Shape::new(2, 4, MAX_VERSION)?;
    let mut round = Round::open(rt.alloc(), shape, 8)?;
    for _turn in 0..5 {
        for count in 1..7 {
            assert!(rt; puts(&mut round, count));
        }
        for count in [5, 4, 3, 2, 1, 0] {
            assert!(rt; takes(&mut round, count));
        }
    }
    Ok(())
}

/// Once the versions are used up each call is Worn, and the token comes back.
#[test]
fn come_back_from_a_worn_queue(rt: HostRuntime) -> Result<(), Fail> {
    let shape = Shape::new(1, 2, 2)?;
    let mut round = Round::open(rt.alloc(), shape, 2)?;
    for _ in 0..100 {
        let _ = round.put();
        let _ = round.take();
    }
    assert_eq!(rt; round.put(), Answer::Worn);
    assert_eq!(rt; round.versions_left(), 0);
    Ok(())
}
