//! The sizes that a capacity asks for.
use kfifo_live::{Sizes, SizesFault, TokenQueue};
use kfifo_words::MAX_VERSION;
use std::test::Fail;

/// The shape's segments and the tokens of each thread, counted by hand.
#[test]
fn are_those_of_the_capacity(rt: HostRuntime) -> Result<(), Fail> {
    // k, capacity, threads, tokens a thread, segments
    let rows = [
        (1, 1, 1, 33, 66),
        (16, 1_024, 4, 288, 144),
        (64, 1_000, 3, 366, 35),
        (64, 1, 1, 33, 3),
        (64, 63_360, 64, 1_022, 1_024),
        (4, 3_000, 8, 407, 1_024),
    ];
    for (k, capacity, threads, tokens, segments) in rows {
        let sizes = Sizes::for_capacity(k, capacity, threads, MAX_VERSION)?;
        assert_eq!(rt;
            (sizes.tokens, sizes.shape.n()),
            (tokens, segments),
            "k {k}, capacity {capacity}"
        );
        assert_eq!(rt; (sizes.shape.k(), sizes.threads), (k, threads));
    }
    Ok(())
}

/// Each size out of its range is told, and with a capacity that is too great the greatest one.
#[test]
fn refuse_what_is_out_of_range(rt: HostRuntime) -> Result<(), Fail> {
    let rows = [
        (4, 10, 0, MAX_VERSION, SizesFault::ThreadsOutOfRange),
        (0, 0, 65, MAX_VERSION, SizesFault::ThreadsOutOfRange),
        (0, 10, 1, MAX_VERSION, SizesFault::KOutOfRange),
        (65, 10, 1, 1, SizesFault::KOutOfRange),
        (4, 0, 1, 1, SizesFault::LastOutOfRange),
        (4, 0, 1, MAX_VERSION, SizesFault::CapacityOutOfRange(4_056)),
        (4, 4_057, 1, 2, SizesFault::CapacityOutOfRange(4_056)),
        (
            64,
            63_361,
            64,
            MAX_VERSION,
            SizesFault::CapacityOutOfRange(63_360),
        ),
        (1, 1, 64, MAX_VERSION, SizesFault::CapacityOutOfRange(0)),
    ];
    for (k, capacity, threads, last, fault) in rows {
        let refused = Sizes::for_capacity(k, capacity, threads, last);
        assert_eq!(rt;
            refused,
            Err(fault),
            "k {k}, capacity {capacity}, {threads} threads"
        );
    }
    Ok(())
}

/// A queue opens with the sizes, and has as many tokens as they say.
#[test]
fn open_a_queue(rt: HostRuntime) -> Result<(), Fail> {
    let alloc = rt.alloc();
    let sizes = Sizes::for_capacity(16, 1_024, 4, MAX_VERSION)?; // k, capacity, threads, greatest version
    let (queue, passes, tokens) = TokenQueue::open(
        alloc,
        sizes.shape,
        sizes.threads,
        sizes.tokens,
    )?;
    assert_eq!(rt; (passes.len(), tokens.len()), (4, 1_152));
    assert_eq!(rt; (queue.shape().n(), queue.is_bare()), (144, true));
    Ok(())
}
