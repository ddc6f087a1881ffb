//! Opening a queue of payloads.
ghost use Rattle.std.specs.Prelude.{◌≡◌, ◌<◌, ◌≤◌, ◌+◌, ◌*◌, [], IfOk, IsErrOf, reverse};
ghost use Rattle.std.specs.Prelude.{vec_capacity, All, false};
ghost use Rattle.kfifo_live.specs.Schedule.{IsSmall, count_up, fresh, view_of};
ghost use Rattle.kfifo_live.specs.Pass.{IsZeroed, queue_of, IsPassOf};
ghost use Rattle.kfifo_live.specs.Payloads.{new_pay_passes, pay_opening};
ghost use Rattle.kfifo_live.specs.Refusals.{RefusesThreads, RefusesTokens};
ghost use Rattle.kfifo_live.specs.declared.fault.OpenFault.TheVariants.{CallsOutOfRange};

use crate::fault::OpenFault;
use crate::payload::{PayPass, PayQueue};
use crate::seats::give_rest;
use crate::view::{Opening, ThreadSeat, Words};
use atomic_table::Table;
use kfifo_machine::MAX_THREADS;
use kfifo_words::Shape;
use std::alloc::{AllocError, Global};

/// The greatest number of tokens of a pass.
pub const MAX_TOKENS: u32 = 1_024;

/// The greatest number of tokens of a queue: as many as a ring has slots at most.
pub const MOST_TOKENS: u32 = 65_536;

/// The tokens of a thread, the first of them last, with room for so many.
fn own_tokens(alloc: Global, thread: u32, tokens: u32, room: usize) -> Result<Vec<u32>, AllocError>
    requires thread { thread < MAX_THREADS }
    requires tokens { (tokens ≤ MAX_TOKENS) × (tokens ≤ room) }
    ensures { IfOk result (λ v. (reverse v.items ≡ count_up (thread * tokens + 1) tokens) × (room ≤ vec_capacity v)) }
{
    let mut at_home = Vec::with_capacity(alloc, room)?;
    let last = (thread + 1) * tokens;
    for index in 0..tokens {
        at_home.push_reserved(last - index);
    }
    Ok(at_home)
}

/// A pass for each thread, which has seen nothing and has its tokens.
fn deal_tokens<T: Drop>(
    alloc: Global,
    shared: &Words<T>,
    mut seat: ThreadSeat<T>,
    threads: u32,
    tokens: u32,
) -> Result<Vec<PayPass<T>>, AllocError>
    requires table { (seat.table_id ≡ shared.now.table_id) × (0 < shared.now.table_id.words) }
    requires few { IsSmall seat.me.0.opened × (0 < tokens) × (tokens ≤ MAX_TOKENS) }
    requires seat { (seat.me.1 ≡ []) × (seat.me.0
        ≡ view_of seat.me.0.opened (fresh seat.me.0.opened.tokens 0 threads)) }
    requires opened { (seat.me.0.opened.threads ≡ threads) × (seat.me.0.opened.tokens ≡ tokens) }
    requires bare { seat.me.0.opened.bare ≡ false }
    ensures { IfOk result (λ r. r.items ≡ new_pay_passes (queue_of seat.table_id seat.me.0.opened) 0 threads) }
{
    let mut passes = Vec::with_capacity(alloc, threads as usize)?;
    let room = threads as usize * tokens as usize;
    for thread in 0..threads {
        let at_home = own_tokens(alloc, thread, tokens, room)?;
        let rest = give_rest(shared, &mut seat);
        passes.push(PayPass {
            thread,
            seat,
            at_home,
        })?;
        seat = rest;
    }
    Ok(passes)
}

impl<T: Drop> PayQueue<T> {
    /// A queue for so many threads, and its passes with so many tokens each.
    fn open_for(
        alloc: Global,
        shape: Shape,
        threads: u32,
        tokens: u32,
    ) -> Result<(PayQueue<T>, Vec<PayPass<T>>), AllocError>
        requires threads { (0 < threads) × (threads ≤ MAX_THREADS) }
        requires tokens { (0 < tokens) × (tokens ≤ MAX_TOKENS) }
        ensures { IfOk result (λ r. (r.0.opened ≡ pay_opening shape threads tokens)
            × (r.1.items ≡ new_pay_passes r.0 0 threads)) }
    {
        let words = vec![in alloc; 0; 2 + shape.n() as usize * shape.k() as usize]?;
        let about = Opening {
            shape,
            threads,
            calls: 0,
            tokens,
            bare: false,
        };
        let slots = threads as usize * tokens as usize;
        let (table, seat) = Table::vacant(alloc, words.as_slice(), slots, &about)?;
        let passes = deal_tokens(alloc, &table.shared, seat, threads, tokens)?;
        let queue = PayQueue {
            table,
            shape,
            threads,
            tokens,
        };
        Ok((queue, passes))
    }

    /// Opens a queue, with one pass for each thread, numbered from 0, and so many tokens each: pass p has those from
    /// `p * tokens + 1` to `(p + 1) * tokens`. The passes have seen the empty schedule, after which all words are 0.
    ///
    /// ```rust
    /// let (queue, mut passes) = PayQueue::open(alloc, shape, 1, tokens)?;
    /// ```
    ///
    /// ThreadsOutOfRange where the number of threads is not 1 to 64; then TokensOutOfRange where the number of tokens
    /// is not 1 to 1,024; Memory where an allocation failed. Nothing is kept after a refusal.
    pub fn open(
        alloc: Global,
        shape: Shape,
        threads: u32,
        tokens: u32,
    ) -> Result<(PayQueue<T>, Vec<PayPass<T>>), OpenFault>
        ensures ok { IfOk result (λ r. (r.0.opened ≡ pay_opening shape threads tokens)
            × (r.1.items ≡ new_pay_passes r.0 0 threads)) }
        ensures of { IfOk result (λ r. All (λ p. IsPassOf r.0 p.pass) r.1.items) }
        ensures threads { RefusesThreads threads result }
        ensures tokens { RefusesTokens threads tokens result }
        ensures calls { ¬ IsErrOf result CallsOutOfRange }
        ensures zeroed { IfOk result (λ r. IsZeroed r.0.opened) }
    {
        if threads == 0 || threads > MAX_THREADS {
            return Err(OpenFault::ThreadsOutOfRange);
        }
        if tokens == 0 || tokens > MAX_TOKENS {
            return Err(OpenFault::TokensOutOfRange);
        }
        let opened = PayQueue::open_for(alloc, shape, threads, tokens)?;
        Ok(opened)
    }
}
