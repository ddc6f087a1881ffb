//! Opening a queue of tokens.
ghost use Rattle.std.specs.Prelude.{◌≡◌, ◌<◌, ◌≤◌, ◌+◌, ◌*◌, ◌^◌, ◌++◌, [], All, IfOk, true, false, length};
ghost use Rattle.kfifo_live.specs.Schedule.{IsSmall, count_up, fresh, hand_of, more_in, view_of, with_home};
ghost use Rattle.kfifo_live.specs.Step.{IsAt};
ghost use Rattle.kfifo_live.specs.Pass.{IsZeroed, IsPassOf, queue_of};
ghost use Rattle.kfifo_live.specs.Tokens.{new_token_passes, token_opening, tokens_from};
ghost use Rattle.kfifo_live.specs.declared.payload.opening.TheConstants.{MOST_TOKENS};

use crate::payload::token::Token;
use crate::seats::{cut_token, give_rest};
use crate::tokens::{TokenPass, TokenQueue};
use crate::view::{Opening, ThreadSeat, Words};
use atomic_table::Table;
use kfifo_machine::MAX_THREADS;
use kfifo_words::Shape;
use std::alloc::{AllocError, Global};

/// Cuts all tokens of the thread off, `count` of them, the first with number `first`, and adds them to a list.
fn cut_all<T: Drop>(
    shared: &Words<T>,
    seat: &mut ThreadSeat<T>,
    tokens: &mut Vec<Token<T>>,
    first: u32,
    count: u32,
    clock: usize,
) -> Result<(), AllocError>
    requires table { (seat.old.table_id ≡ shared.now.table_id) × (clock < shared.now.table_id.words) }
    requires slots { shared.now.table_id.slots ≡ seat.old.me.0.opened.threads * seat.old.me.0.opened.tokens }
    requires idle { IsAt None seat.old.me × (0 < seat.old.me.0.opened.tokens) }
    requires home { (hand_of seat.old.me.0).at_home ≡ count_up first count }
    requires small { first + count < 2 ^ 32 }
    ensures same { IfOk result (λ _. (seat.new.table_id ≡ seat.old.table_id)
        × (seat.new.me ≡ (with_home seat.old.me.0 [], seat.old.me.1))) }
    ensures tokens { IfOk result (λ _. tokens.new.items
        ≡ tokens.old.items ++ tokens_from (queue_of seat.old.table_id seat.old.me.0.opened) first count) }
{
    for index in 0..count {
        let alone = cut_token(shared, seat);
        tokens.push(Token::new(shared, alone, first + index, clock))?;
    }
    Ok(())
}

/// A pass for each thread, which has seen nothing, and all tokens, in the order of their numbers.
fn deal_all<T: Drop>(
    alloc: Global,
    shared: &Words<T>,
    mut seat: ThreadSeat<T>,
    threads: u32,
    tokens: u32,
    clock: usize,
) -> Result<(Vec<TokenPass<T>>, Vec<Token<T>>), AllocError>
    requires table { (seat.table_id ≡ shared.now.table_id) × (clock < shared.now.table_id.words) }
    requires slots { shared.now.table_id.slots ≡ threads * tokens }
    requires few { IsSmall seat.me.0.opened × (0 < tokens) × (threads * tokens ≤ MOST_TOKENS) }
    requires seat { (seat.me.1 ≡ []) × (seat.me.0
        ≡ view_of seat.me.0.opened (fresh seat.me.0.opened.tokens 0 threads)) }
    requires opened { (seat.me.0.opened.threads ≡ threads) × (seat.me.0.opened.tokens ≡ tokens) }
    ensures passes { IfOk result (λ r. r.0.items
        ≡ new_token_passes (queue_of seat.table_id seat.me.0.opened) 0 threads) }
    ensures tokens { IfOk result (λ r. r.1.items
        ≡ tokens_from (queue_of seat.table_id seat.me.0.opened) 1 (threads * tokens)) }
{
    let mut passes = Vec::with_capacity(alloc, threads as usize)?;
    let mut all = Vec::with_capacity(alloc, threads as usize * tokens as usize)?;
    for thread in 0..threads {
        let rest = give_rest(shared, &mut seat);
        let first = thread * tokens + 1;
        cut_all(shared, &mut seat, &mut all, first, tokens, clock)?;
        passes.push(TokenPass { thread, seat })?;
        seat = rest;
    }
    Ok((passes, all))
}

impl<T: Drop> TokenQueue<T> {
    /// Opens a queue that is bare or not, as `open` and `open_with_payloads` do.
    fn open_as(
        alloc: Global,
        shape: Shape,
        threads: u32,
        tokens: u32,
        bare: bool,
    ) -> Result<(TokenQueue<T>, Vec<TokenPass<T>>, Vec<Token<T>>), AllocError>
        requires threads { (0 < threads) × (threads ≤ MAX_THREADS) }
        requires tokens { (0 < tokens) × (threads * tokens ≤ MOST_TOKENS) }
        ensures opened { IfOk result (λ r. r.0.opened ≡ token_opening bare shape threads tokens) }
        ensures passes { IfOk result (λ r. r.1.items ≡ new_token_passes r.0 0 threads) }
        ensures of { IfOk result (λ r. All (λ p. IsPassOf r.0 p.pass) r.1.items) }
        ensures tokens { IfOk result (λ r. r.2.items ≡ tokens_from r.0 1 (threads * tokens)) }
        ensures zeroed { IfOk result (λ r. IsZeroed r.0.opened) }
    {
        let words = vec![in alloc; 0; 2 + shape.n() as usize * shape.k() as usize]?;
        let about = Opening {
            shape,
            threads,
            calls: 0,
            tokens,
            bare,
        };
        let slots = threads as usize * tokens as usize;
        let (table, seat) = Table::vacant(alloc, words.as_slice(), slots, &about)?;
        let clock = shape.clock_index();
        let (passes, all) = deal_all(alloc, &table.shared, seat, threads, tokens, clock)?;
        let queue = TokenQueue {
            table,
            shape,
            threads,
            tokens,
            bare,
        };
        Ok((queue, passes, all))
    }

    /// Opens a queue with payloads, as `TokenQueue::open` opens a bare one. While a payload is in the queue, it lies in
    /// the slot of its token.
    pub fn open_with_payloads(
        alloc: Global,
        shape: Shape,
        threads: u32,
        tokens: u32,
    ) -> Result<(TokenQueue<T>, Vec<TokenPass<T>>, Vec<Token<T>>), AllocError>
        requires threads { (0 < threads) × (threads ≤ MAX_THREADS) }
        requires tokens { (0 < tokens) × (threads * tokens ≤ MOST_TOKENS) }
        ensures opened { IfOk result (λ r. r.0.opened ≡ token_opening false shape threads tokens) }
        ensures passes { IfOk result (λ r. r.1.items ≡ new_token_passes r.0 0 threads) }
        ensures of { IfOk result (λ r. All (λ p. IsPassOf r.0 p.pass) r.1.items) }
        ensures tokens { IfOk result (λ r. r.2.items ≡ tokens_from r.0 1 (threads * tokens)) }
        ensures zeroed { IfOk result (λ r. IsZeroed r.0.opened) }
    {
        TokenQueue::open_as(alloc, shape, threads, tokens, false)
    }
}

impl TokenQueue<()> {
    /// Opens a bare queue for 1 to 64 threads, with so many tokens for each: 1 or more, and 65,536 in all at most.
    /// Returns it with a pass for each thread, numbered from 0, and all tokens, in the order of their numbers, from 1.
    /// The passes have seen the empty schedule, after which all words are 0.
    ///
    /// ```rust
    /// let shape = Shape::new(4, 8, MAX_VERSION)?; // k, segments, greatest version
    /// let (queue, mut passes, mut tokens) = TokenQueue::open(alloc, shape, 1, 16)?; // threads, tokens a thread
    /// ```
    ///
    /// AllocError where an allocation failed. Nothing is kept after that.
    pub fn open(
        alloc: Global,
        shape: Shape,
        threads: u32,
        tokens: u32,
    ) -> Result<(TokenQueue<()>, Vec<TokenPass<()>>, Vec<Token<()>>), AllocError>
        requires threads { (0 < threads) × (threads ≤ MAX_THREADS) }
        requires tokens { (0 < tokens) × (threads * tokens ≤ MOST_TOKENS) }
        ensures opened { IfOk result (λ r. r.0.opened ≡ token_opening true shape threads tokens) }
        ensures passes { IfOk result (λ r. r.1.items ≡ new_token_passes r.0 0 threads) }
        ensures of { IfOk result (λ r. All (λ p. IsPassOf r.0 p.pass) r.1.items) }
        ensures tokens { IfOk result (λ r. r.2.items ≡ tokens_from r.0 1 (threads * tokens)) }
        ensures zeroed { IfOk result (λ r. IsZeroed r.0.opened) }
    {
        TokenQueue::open_as(alloc, shape, threads, tokens, true)
    }
}
