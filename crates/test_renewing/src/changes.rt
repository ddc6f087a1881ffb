//! Changes from one generation to the next, by one thread.
ghost use Rattle.std.specs.Prelude.{◌≡◌, All};

use crate::plain::{Handles, give, open, open_with};
use kfifo_live::{CloseFault, Given, OpenFault, Sizes, Taken};
use kfifo_renewing::{NO_RENEWAL, RenewFault, Renewals, RenewingHandle};
use kfifo_words::{MAX_VERSION, Shape};
use std::process::Abort;
use std::test::Fail;

/// Gives a value by the handle in this place and takes one, so many times. Each comes out as it was given, in order.
fn give_and_take(
    rt: &impl Abort,
    handles: &mut Handles<u64>,
    place: usize,
    first: u64,
    count: u64,
) {
    for index in 0..count {
        let value = first.wrapping_add(index);
        assert_eq!(rt; handles.give(place, value), Given::Done, "give {value}");
        assert_eq!(rt; handles.take(place), Taken::Got(value), "take {value}");
    }
}

/// A queue with 8 versions wears out after 4 pairs of calls. This one makes 4,000.
#[test]
fn outlives_its_versions(rt: HostRuntime) -> Result<(), Fail> {
    let shape = Shape::new(1, 2, 8)?;
    let mut handles = open::<u64>(rt.alloc(), shape, 1, 4)?;
    give_and_take(&rt, &mut handles, 0, 0, 4_000);
    assert_eq!(rt; handles.take(0), Taken::Empty);
    assert_eq!(rt; handles.close(rt.alloc())?.len(), 0);
    Ok(())
}

/// Two values stay inside all the time, so each change finds the older generation with values in it.
#[test]
fn keeps_the_order_over_changes(rt: HostRuntime) -> Result<(), Fail> {
    let shape = Shape::new(1, 4, 16)?;
    let mut handles = open::<u64>(rt.alloc(), shape, 1, 8)?;
    assert_eq!(rt; handles.give(0, 0), Given::Done);
    assert_eq!(rt; handles.give(0, 1), Given::Done);
    for value in 2..2_000 {
        assert_eq!(rt; handles.give(0, value), Given::Done, "give {value}");
        assert_eq!(rt; handles.take(0), Taken::Got(value - 2), "take {value}");
    }
    let left = handles.close(rt.alloc())?;
    assert_eq!(rt; left.as_slice(), [1_998, 1_999].as_slice());
    Ok(())
}

fn are_both_beside(handles: &[RenewingHandle<u64>]) -> bool
    requires { All (λ first. All (λ second. second.book ≡ first.book) handles.now) handles.now }
{
    match handles {
        [first, second] => first.is_beside(second),
        _ => false,
    }
}

/// Two handles of a queue begin in one generation.
#[test]
fn begins_in_one_generation(rt: HostRuntime) -> Result<(), Fail> {
    let sizes = Sizes::for_capacity(1, 4, 2, 8)?;
    let renewals = Renewals {
        reserve: 4,
        generations: 1,
    };
    let handles = kfifo_renewing::open_with::<u64>(rt.alloc(), sizes, renewals)?;
    assert!(rt; are_both_beside(handles.as_slice()));
    Ok(())
}

/// A queue without renewal wears out after 4 pairs of calls, as its one generation does.
#[test]
fn wears_out_without_renewal(rt: HostRuntime) -> Result<(), Fail> {
    let sizes = Sizes {
        shape: Shape::new(1, 2, 8)?,
        threads: 1,
        tokens: 4,
    };
    let renewals = Renewals {
        reserve: NO_RENEWAL,
        generations: 1,
    };
    let mut handles = kfifo_renewing::open_with::<u64>(rt.alloc(), sizes, renewals)?;
    let Some(mut handle) = handles.pop() else {
        panic!(rt; "the handle of the only thread");
    };
    assert!(rt; !handle.may_open_more());
    for value in 0..4 {
        assert_eq!(rt; handle.give(value), Given::Done, "give {value}");
        assert_eq!(rt; handle.take(), Taken::Got(value), "take {value}");
    }
    assert_eq!(rt; handle.give(4), Given::Done);
    assert_eq!(rt; handle.take(), Taken::Worn);
    assert_eq!(rt; handle.generations(), Some(1));
    Ok(())
}

/// A queue opens further generations if it renews itself or grows.
#[test]
fn may_open_more_to_renew_or_to_grow(rt: HostRuntime) -> Result<(), Fail> {
    for (reserve, generations) in [(4, 1), (NO_RENEWAL, 2), (4, 2)] {
        let sizes = Sizes::for_capacity(1, 1, 1, 8)?;
        let renewals = Renewals {
            reserve,
            generations,
        };
        let handles = kfifo_renewing::open_with::<u64>(rt.alloc(), sizes, renewals)?;
        assert!(rt; handles.iter().all(|handle| handle.may_open_more()));
    }
    Ok(())
}

/// One handle makes no calls while the other goes on through hundreds of generations. What it gave is taken first, and
/// it goes on as well as the other.
#[test]
fn waits_for_nobody(rt: HostRuntime) -> Result<(), Fail> {
    let shape = Shape::new(1, 2, 16)?;
    let mut handles = open::<u64>(rt.alloc(), shape, 2, 8)?;
    let (idle, busy) = (0, 1);
    assert_eq!(rt; handles.give(idle, 7), Given::Done);
    assert_eq!(rt; handles.take(busy), Taken::Got(7));
    give_and_take(&rt, &mut handles, busy, 0, 2_000);
    assert_eq!(rt; handles.give(idle, 8), Given::Done);
    assert_eq!(rt; handles.take(busy), Taken::Got(8));
    give_and_take(&rt, &mut handles, idle, 0, 2_000);
    assert_eq!(rt; handles.take(busy), Taken::Empty);
    assert_eq!(rt; handles.close(rt.alloc())?.len(), 0);
    Ok(())
}

/// A handle that only gives and one that only takes, with values inside at each change.
#[test]
fn carries_values_from_one_handle_to_another(rt: HostRuntime) -> Result<(), Fail> {
    let shape = Shape::new(1, 4, 32)?;
    let mut handles = open::<u64>(rt.alloc(), shape, 2, 8)?;
    let (giver, taker) = (0, 1);
    assert_eq!(rt; handles.give(giver, 0), Given::Done);
    for value in 1..2_000 {
        assert_eq!(rt; handles.give(giver, value), Given::Done, "give {value}");
        assert_eq!(rt; handles.take(taker), Taken::Got(value - 1), "take {value}");
    }
    // Each of the two leaves what the taker has found empty, also the one that never takes.
    for place in [giver, taker] {
        let count = handles.generations(place).unwrap_or(usize::MAX);
        assert!(rt; count <= 2, "in {count} generations");
    }
    let left = handles.close(rt.alloc())?;
    assert_eq!(rt; left.as_slice(), [1_999].as_slice());
    Ok(())
}

/// A handle that is dropped gives to no generation any more, so the others do not look into its old one for ever, and
/// what it gave is still taken.
#[test]
fn takes_what_a_dropped_handle_gave(rt: HostRuntime) -> Result<(), Fail> {
    let shape = Shape::new(1, 2, 16)?;
    let mut handles = open::<u64>(rt.alloc(), shape, 2, 8)?;
    if let Some(mut gone) = handles.pop() {
        assert_eq!(rt; give(&mut gone, 7), Given::Done);
    }
    assert_eq!(rt; handles.take(0), Taken::Got(7));
    give_and_take(&rt, &mut handles, 0, 0, 2_000);
    assert_eq!(rt; handles.close(rt.alloc())?.len(), 0);
    Ok(())
}

#[test]
fn refuses_bad_sizes(rt: HostRuntime) -> Result<(), Fail> {
    let shape = Shape::new(2, 4, 100)?;
    let rows = [
        (1, 1, 100, RenewFault::ReserveOutOfRange),
        (0, 0, 100, RenewFault::ReserveOutOfRange),
        (0, 0, 99, RenewFault::Open(OpenFault::ThreadsOutOfRange)),
        (65, 1, 99, RenewFault::Open(OpenFault::ThreadsOutOfRange)),
        (1, 0, 99, RenewFault::Open(OpenFault::TokensOutOfRange)),
        (64, 1_025, 99, RenewFault::Open(OpenFault::TokensOutOfRange)),
    ];
    for (threads, tokens, reserve, wanted) in rows {
        let fault = open_with::<u64>(rt.alloc(), shape, threads, tokens, reserve).err();
        assert_eq!(rt; fault, Some(wanted), "{threads} {tokens} {reserve}");
    }
    Ok(())
}

/// A close wants all handles.
#[test]
fn refuses_to_close_with_a_handle_missing(rt: HostRuntime) -> Result<(), Fail> {
    let shape = Shape::new(2, 4, MAX_VERSION)?;
    let mut handles = open_with::<u64>(rt.alloc(), shape, 2, 4, 1)?;
    let kept = handles.pop();
    assert_eq!(rt;
        handles.close(rt.alloc()).err(),
        Some(CloseFault::MissingPass)
    );
    drop(kept);
    let mut none = open_with::<u64>(rt.alloc(), shape, 1, 4, 1)?;
    drop(none.pop());
    assert_eq!(rt; none.close(rt.alloc()).err(), Some(CloseFault::MissingPass));
    Ok(())
}
