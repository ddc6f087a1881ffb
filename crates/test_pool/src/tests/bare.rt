//! A bare queue with a pool: how many tokens it has, and that each is in one place.
ghost use Rattle.std.specs.Prelude.{◌≡◌, All, IfSome, true};
ghost use Rattle.kfifo_live.specs.Pass.{IsPassOf};
ghost use Rattle.kfifo_pool.specs.Pooled.{AreOf};

use kfifo_live::{Sizes, Token};
use kfifo_pool::{PooledHandle, PooledQueue};
use kfifo_words::MAX_VERSION;
use std::alloc::{AllocError, Global};
use std::marker::Model;
use std::test::Fail;

/// More tokens than a queue of these tests has.
const MANY: u32 = 1_000;

/// A bare queue, a handle of it, and the tokens that the test has.
#[derive(Drop)]
struct Bare {
    queue: PooledQueue<()>,
    handle: PooledHandle<()>,
    tokens: Vec<Token<()>>,
}

impl Model for Bare {
    ghost Value = { Unit {0} };

    ghost view = { λ _. tt };

    ghost invariant = { λ b. IsPassOf b.queue b.handle.held.pass.pass × AreOf b.queue b.tokens.items };
}

/// Reserves one token more.
fn reserve(
    queue: &PooledQueue<()>,
    handle: &mut PooledHandle<()>,
    tokens: &mut Vec<Token<()>>,
) -> bool
    requires of { IsPassOf queue.now handle.old.held.pass.pass }
    requires tokens { AreOf queue.now tokens.old.items }
    ensures same { handle.new.held ≡ handle.old.held }
    ensures tokens { AreOf queue.now tokens.new.items }
{
    let Some(token) = handle.reserve(queue) else {
        return false;
    };
    let _ = tokens.push(token);
    true
}

/// Gives one token back.
fn release(
    queue: &PooledQueue<()>,
    handle: &mut PooledHandle<()>,
    tokens: &mut Vec<Token<()>>,
) -> bool
    requires of { IsPassOf queue.now handle.old.held.pass.pass }
    requires tokens { AreOf queue.now tokens.old.items }
    ensures same { handle.new.held ≡ handle.old.held }
    ensures tokens { AreOf queue.now tokens.new.items }
{
    let Some(token) = tokens.pop() else {
        return false;
    };
    handle.release(queue, token);
    true
}

impl Bare {
    /// A queue for one thread, with room for so much.
    fn open(alloc: Global, capacity: u32) -> Result<Bare, Fail> {
        let sizes = Sizes::for_capacity(4, capacity, 1, MAX_VERSION)?;
        let (queue, mut handles) = PooledQueue::open(alloc, sizes)?;
        let Some(handle) = handles.pop() else {
            unreachable!()
        };
        Ok(Bare {
            queue,
            handle,
            tokens: Vec::new(alloc),
        })
    }

    fn reserve_one(&mut self) -> bool {
        reserve(&self.queue, &mut self.handle, &mut self.tokens)
    }

    fn release_one(&mut self) -> bool {
        release(&self.queue, &mut self.handle, &mut self.tokens)
    }

    /// Reserves all tokens that there are, and returns their numbers in ascending order.
    fn reserve_all(&mut self, alloc: Global) -> Result<Vec<u32>, AllocError> {
        for _ in 0..MANY {
            if !self.reserve_one() {
                break;
            }
        }
        let mut numbers = Vec::with_capacity(alloc, self.tokens.len())?;
        for token in &self.tokens {
            numbers.push(token.number())?;
        }
        numbers.sort_unstable();
        Ok(numbers)
    }

    /// Gives all of them back.
    fn release_all(&mut self) {
        for _ in 0..MANY {
            if !self.release_one() {
                break;
            }
        }
    }
}

/// One handle finds each token once, however often it gives them all back.
#[test]
fn has_each_token_once(rt: HostRuntime) -> Result<(), Fail> {
    let alloc = rt.alloc();
    let mut bare = Bare::open(alloc, 25)?;
    for _round in 0..20_u32 {
        let numbers = bare.reserve_all(alloc)?;
        let mut wanted = Vec::new(alloc);
        for number in 1..58_u32 {
            wanted.push(number)?;
        }
        assert_eq!(rt; numbers.as_slice(), wanted.as_slice());
        assert!(rt; !bare.reserve_one());
        bare.release_all();
    }
    Ok(())
}
