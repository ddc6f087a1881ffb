//! Queues that grow where they have no room, and shrink.
use crate::plain::Handles;
use kfifo_live::{Given, Sizes, Taken};
use kfifo_renewing::{DEFAULT_RESERVE, NO_RENEWAL, RenewFault, Renewals, open, open_with};
use kfifo_words::MAX_VERSION;
use std::alloc::Global;
use std::process::Abort;
use std::test::Fail;

/// The handles of a queue with k = 1 and room for 8 values, which may grow to so many generations.
fn open_growing(
    alloc: Global,
    threads: u32,
    reserve: u64,
    generations: u32,
) -> Result<Handles<u64>, Fail> {
    let sizes = Sizes::for_capacity(1, 8, threads, MAX_VERSION)?;
    let renewals = Renewals {
        reserve,
        generations,
    };
    Ok(Handles::open(alloc, sizes, renewals)?)
}

/// Gives values from 0 on by the handle in this place, until one is refused. Returns how many were not.
fn fill(handles: &mut Handles<u64>, place: usize, most: u64) -> u64 {
    for value in 0..most {
        if handles.give(place, value) != Given::Done {
            return value;
        }
    }
    most
}

/// Takes so many values by the handle in this place, which come out in their order.
fn empty(rt: &impl Abort, handles: &mut Handles<u64>, place: usize, count: u64) {
    for value in 0..count {
        assert_eq!(rt; handles.take(place), Taken::Got(value), "take {value}");
    }
    assert_eq!(rt; handles.take(place), Taken::Empty);
}

/// A capacity is rounded up to a multiple of the threads, and the tokens that handles may keep come on top of it.
#[test]
fn the_capacity_is_what_a_queue_was_opened_for(rt: HostRuntime) -> Result<(), Fail> {
    for (threads, wanted) in [(1, 100), (3, 102), (64, 128)] {
        let mut handles = open::<u64>(rt.alloc(), 16, 100, threads)?;
        for handle in handles.as_mut_slice() {
            assert_eq!(rt; handle.capacity(), wanted);
        }
    }
    Ok(())
}

/// A handle counts the values of all generations, also of those that others opened.
#[test]
fn values_are_counted(rt: HostRuntime) -> Result<(), Fail> {
    let mut handles = open_growing(rt.alloc(), 2, DEFAULT_RESERVE, 100)?;
    let (giver, taker) = (0, 1);
    assert_eq!(rt; (handles.len(giver), handles.len(taker)), (0, 0));
    assert!(rt; handles.is_empty(giver) && handles.is_empty(taker));
    assert_eq!(rt; fill(&mut handles, giver, 300), 300);
    assert!(rt; handles.generations(giver) > Some(1));
    assert_eq!(rt; (handles.len(giver), handles.len(taker)), (300, 300));
    for value in 0..200 {
        assert_eq!(rt; handles.take(taker), Taken::Got(value));
    }
    assert_eq!(rt; (handles.len(giver), handles.len(taker)), (100, 100));
    assert!(rt; !handles.is_empty(giver) && !handles.is_empty(taker));
    assert_eq!(rt; handles.close(rt.alloc())?.len(), 100);
    Ok(())
}

/// One thread gives 3,000 values to a queue with room for 8, and takes them in their order. Then there is one
/// generation again.
#[test]
fn grows_and_shrinks(rt: HostRuntime) -> Result<(), Fail> {
    let mut handles = open_growing(rt.alloc(), 1, DEFAULT_RESERVE, 127)?;
    for _round in 0..3 {
        assert_eq!(rt; fill(&mut handles, 0, 3_000), 3_000);
        empty(&rt, &mut handles, 0, 3_000);
        assert_eq!(rt; handles.generations(0), Some(1));
    }
    assert_eq!(rt; handles.close(rt.alloc())?.len(), 0);
    Ok(())
}

/// A queue grows to its bound and no further. It has room again once an old generation is gone.
#[test]
fn stops_at_its_bound(rt: HostRuntime) -> Result<(), Fail> {
    let mut handles = open_growing(rt.alloc(), 1, NO_RENEWAL, 3)?;
    let count = fill(&mut handles, 0, 10_000);
    assert!(rt; count >= 3 * 8);
    assert!(rt; count < 10_000);
    assert_ne!(rt; handles.give(0, count), Given::Done);
    assert!(rt; !handles.lacks_memory(0));
    let mut next = count;
    for value in 0..count {
        assert_eq!(rt; handles.take(0), Taken::Got(value), "take {value}");
        if handles.give(0, next) == Given::Done {
            next = next.wrapping_add(1);
        }
    }
    assert!(rt; count < next);
    for value in count..next {
        assert_eq!(rt; handles.take(0), Taken::Got(value), "take {value}");
    }
    assert_eq!(rt; handles.take(0), Taken::Empty);
    assert_eq!(rt; handles.generations(0), Some(1));
    assert_eq!(rt; handles.close(rt.alloc())?.len(), 0);
    Ok(())
}

/// One handle only gives and another one only takes. The queue grows again and again, each time by some 100
/// generations, which the other handle then joins at once.
#[test]
fn grows_between_two_handles(rt: HostRuntime) -> Result<(), Fail> {
    let mut handles = open_growing(rt.alloc(), 2, DEFAULT_RESERVE, 125)?;
    let (giver, taker) = (0, 1);
    for _round in 0..3 {
        assert_eq!(rt; fill(&mut handles, giver, 7_000), 7_000);
        empty(&rt, &mut handles, taker, 7_000);
    }
    assert_eq!(rt; handles.give(giver, 7), Given::Done);
    assert_eq!(rt; handles.take(taker), Taken::Got(7));
    assert_eq!(rt; handles.generations(taker), Some(1));
    assert_eq!(rt; handles.close(rt.alloc())?.len(), 0);
    Ok(())
}

/// What is left of all generations comes back from a close, in its order.
#[test]
fn returns_what_is_left_of_all_generations(rt: HostRuntime) -> Result<(), Fail> {
    let mut handles = open_growing(rt.alloc(), 1, DEFAULT_RESERVE, 20)?;
    assert_eq!(rt; fill(&mut handles, 0, 500), 500);
    let left = handles.close(rt.alloc())?;
    assert_eq!(rt; left.len(), 500);
    for (place, value) in left.iter().enumerate() {
        assert_eq!(rt; *value, place as u64);
    }
    Ok(())
}

#[test]
fn refuses_too_many_generations(rt: HostRuntime) -> Result<(), Fail> {
    for (threads, generations, most) in [(1, 0, 127), (1, 128, 127), (64, 2, 1)] {
        let sizes = Sizes::for_capacity(1, 8, threads, MAX_VERSION);
        let Ok(sizes) = sizes else {
            continue;
        };
        let renewals = Renewals {
            reserve: DEFAULT_RESERVE,
            generations,
        };
        let fault = open_with::<u64>(rt.alloc(), sizes, renewals).err();
        assert_eq!(rt; fault, Some(RenewFault::GenerationsOutOfRange(most)));
    }
    Ok(())
}
