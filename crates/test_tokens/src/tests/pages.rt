//! The short example of the pages on the queue of tokens, as it stands there.
use kfifo_live::{Put, Taken, TokenHandle, TokenQueue};
use kfifo_words::{MAX_VERSION, Shape};
use std::test::Fail;

#[test]
fn the_queue_of_tokens(rt: HostRuntime) -> Result<(), Fail> {
    let alloc = rt.alloc();
    let shape = Shape::new(4, 8, MAX_VERSION)?; // k, segments, greatest version
    let (queue, mut passes, mut tokens) = TokenQueue::open(alloc, shape, 1, 16)?; // threads, tokens a thread
    let (Some(pass), Some(token)) = (passes.pop(), tokens.pop()) else {
        unreachable!()
    };
    let mut handle = TokenHandle::new(&queue, pass);
    let put = handle.put(&queue, token); // Done
    let taken = handle.take(&queue); // Got, with the token of number 16
    assert!(rt; matches!(put, Put::Done));
    let Taken::Got(token) = taken else {
        return Err(Fail::new("a take found no token"));
    };
    assert_eq!(rt; token.number(), 16);
    Ok(())
}
