//! Opening a queue with a pool of free tokens, and closing it.
ghost use Rattle.std.specs.Prelude.{◌≡◌, ◌<◌, ◌≤◌, ◌*◌, ◌⊎◌, ◌++◌, All, IfOk, IsErrOf, List, false, map};
ghost use Rattle.std.specs.Prelude.{reverse, true};
ghost use Rattle.kfifo_model.specs.declared.calls.TheConstants.{MAX_THREADS};
ghost use Rattle.kfifo_live.specs.declared.fault.CloseFault.TheVariants.{Memory, MissingPass};
ghost use Rattle.kfifo_live.specs.declared.payload.opening.TheConstants.{MOST_TOKENS};
ghost use Rattle.kfifo_live.specs.Pass.{Closes, IsComplete, IsPassOf, IsZeroed};
ghost use Rattle.kfifo_live.specs.Payloads.{PayCloses, TokenView};
ghost use Rattle.kfifo_live.specs.Tokens.{token_opening};
ghost use Rattle.kfifo_pool.specs.Pooled.{AreOf, in_list, new_handle, new_handles, pass_of, passes_in};

use crate::handle::PooledHandle;
use crate::laid::Laid;
use crate::pool::{BATCH, Batch, PooledQueue, Resting};
use counted_slot::Counted;
use kfifo_live::{CloseFault, Sizes, Token, TokenPass, TokenQueue};
use std::alloc::{AllocError, Global};

/// So many places for batches of the queue, in each of which an empty list lies.
fn empty_places<T: Drop>(
    alloc: Global,
    queue: &TokenQueue<T>,
    count: usize,
) -> Result<Vec<Counted<Option<Resting<T>>>>, AllocError>
    ensures { IfOk result (λ places. All (λ place. place ≡ queue.now) places.items) }
{
    let mut places = Vec::with_capacity(alloc, count)?;
    for _ in 0..count {
        let batch = Batch::new(alloc)?;
        places.push(Counted::new(Some(Resting::new(batch)), queue))?;
    }
    Ok(places)
}

/// Moves the last of these tokens into the list, until it has a batch.
fn fill_list<T: Drop>(list: &mut Option<Batch<T>>, tokens: &mut Vec<Token<T>>)
    ensures { (moved : List TokenView) × (tokens.old.items ≡ tokens.new.items ++ moved)
        × (in_list list.new ≡ in_list list.old ++ reverse moved) }
{
    if let Some(batch) = list {
        batch.fill(tokens);
    }
}

/// The passes of these handles. Their free tokens are gone.
fn passes_of<T: Drop>(
    alloc: Global,
    handles: Vec<PooledHandle<T>>,
) -> Result<Vec<TokenPass<T>>, AllocError>
    ensures { IfOk result (λ passes. passes.items ≡ map (λ h. h.held.pass) handles.items) }
{
    let mut passes = Vec::with_capacity(alloc, handles.len())?;
    for handle in handles {
        passes.push(handle.into_pass())?;
    }
    Ok(passes)
}

impl<T: Drop> PooledQueue<T> {
    /// Lays all these tokens into places of the pool, which are empty. The next one of each batch is that with the
    /// least number.
    fn lay_all(&self, alloc: Global, mut tokens: Vec<Token<T>>) -> Result<(), AllocError>
        requires { AreOf self.now tokens.items }
    {
        let batches = tokens.len().div_ceil(BATCH as usize);
        let mut list = Some(Batch::new(alloc)?);
        for place in 0..batches {
            fill_list(&mut list, &mut tokens);
            self.lay(place, &mut list);
        }
        Ok(())
    }

    /// A handle for each of these passes. Their first looks into the pool begin at places that are far apart.
    fn seat_all(
        &self,
        alloc: Global,
        passes: Vec<TokenPass<T>>,
    ) -> Result<Vec<PooledHandle<T>>, AllocError>
        requires { All (λ p. IsPassOf self.now p.pass) passes.items }
        ensures { IfOk result (λ handles. handles.items ≡ map new_handle passes.items) }
    {
        let apart = self.places.len() / passes.len().max(1);
        let mut handles = Vec::with_capacity(alloc, passes.len())?;
        let mut look_from = 0_usize;
        for pass in passes {
            handles.push(PooledHandle::new(alloc, self, pass, look_from)?)?;
            look_from = look_from.saturating_add(apart);
        }
        Ok(handles)
    }

    /// The queue with a pool in which all its tokens lie, and a handle for each pass.
    fn with_pool(
        alloc: Global,
        queue: TokenQueue<T>,
        passes: Vec<TokenPass<T>>,
        tokens: Vec<Token<T>>,
    ) -> Result<(PooledQueue<T>, Vec<PooledHandle<T>>), AllocError>
        requires passes { All (λ p. IsPassOf queue p.pass) passes.items }
        requires tokens { AreOf queue tokens.items }
        ensures queue { IfOk result (λ r. r.0 ≡ queue) }
        ensures handles { IfOk result (λ r. r.1.items ≡ map new_handle passes.items) }
        ensures of { IfOk result (λ r. All (λ h. IsPassOf r.0 (pass_of h.held)) r.1.items) }
    {
        // Each thread may be about to write to a place, and has a batch then. So one place more than these is empty at
        // any time.
        let batches = tokens.len().div_ceil(BATCH as usize);
        let count = batches.saturating_add(passes.len()).saturating_add(1);
        let places = empty_places(alloc, &queue, count)?;
        let laid = Laid::new(alloc)?;
        let pooled = PooledQueue {
            queue,
            places,
            laid,
        };
        pooled.lay_all(alloc, tokens)?;
        let handles = pooled.seat_all(alloc, passes)?;
        Ok((pooled, handles))
    }

    /// Opens a queue with payloads, as `PooledQueue::open` opens a bare one. While a payload is in the queue, it lies
    /// in the slot of its token.
    pub fn open_with_payloads(
        alloc: Global,
        sizes: Sizes,
    ) -> Result<(PooledQueue<T>, Vec<PooledHandle<T>>), AllocError>
        requires threads { (0 < sizes.threads) × (sizes.threads ≤ MAX_THREADS) }
        requires tokens { (0 < sizes.tokens) × (sizes.threads * sizes.tokens ≤ MOST_TOKENS) }
        ensures opened { IfOk result (λ r. r.0.opened ≡ token_opening false sizes.shape sizes.threads sizes.tokens) }
        ensures handles { IfOk result (λ r. r.1.items ≡ new_handles r.0 sizes.threads) }
        ensures of { IfOk result (λ r. All (λ h. IsPassOf r.0 (pass_of h.held)) r.1.items) }
        ensures zeroed { IfOk result (λ r. IsZeroed r.0.opened) }
    {
        let (queue, passes, tokens) = TokenQueue::open_with_payloads(
            alloc,
            sizes.shape,
            sizes.threads,
            sizes.tokens,
        )?;
        PooledQueue::with_pool(alloc, queue, passes, tokens)
    }

    /// Closes a queue with payloads, and returns those that are left, as `TokenQueue::close_with` does.
    ///
    /// Memory where an allocation failed, the payloads then being dropped. MissingPass never comes.
    pub fn close_with(
        self,
        alloc: Global,
        handle: PooledHandle<T>,
        others: Vec<PooledHandle<T>>,
    ) -> Result<Vec<T>, CloseFault>
        requires payloads { self.opened.bare ≡ false }
        requires handle { IsPassOf self (pass_of handle.held) }
        requires others { All (λ h. IsPassOf self (pass_of h.held)) others.items }
        ensures ok { IfOk result
            (λ payloads. PayCloses self handle.held.pass (map (λ h. h.held.pass) others.items) payloads.items) }
        ensures missing { ¬ IsErrOf result MissingPass }
    {
        let PooledQueue {
            queue,
            places: _,
            laid: _,
        } = self;
        let others = passes_of(alloc, others)?;
        queue.close_with(alloc, handle.into_pass(), others)
    }
}

impl PooledQueue<()> {
    /// Opens a bare queue of these sizes, which `Sizes::for_capacity` finds. Returns it with a handle for each thread,
    /// numbered from 0. All tokens lie in the pool, so whoever comes first takes them.
    ///
    /// ```rust
    /// let sizes = Sizes::for_capacity(16, 1_024, 4, MAX_VERSION)?; // k, capacity, threads, greatest version
    /// let (queue, mut handles) = PooledQueue::open(alloc, sizes)?;
    /// ```
    ///
    /// AllocError where an allocation failed. Nothing is kept after that.
    pub fn open(
        alloc: Global,
        sizes: Sizes,
    ) -> Result<(PooledQueue<()>, Vec<PooledHandle<()>>), AllocError>
        requires threads { (0 < sizes.threads) × (sizes.threads ≤ MAX_THREADS) }
        requires tokens { (0 < sizes.tokens) × (sizes.threads * sizes.tokens ≤ MOST_TOKENS) }
        ensures opened { IfOk result (λ r. r.0.opened ≡ token_opening true sizes.shape sizes.threads sizes.tokens) }
        ensures handles { IfOk result (λ r. r.1.items ≡ new_handles r.0 sizes.threads) }
        ensures of { IfOk result (λ r. All (λ h. IsPassOf r.0 (pass_of h.held)) r.1.items) }
        ensures zeroed { IfOk result (λ r. IsZeroed r.0.opened) }
    {
        let (queue, passes, tokens) = TokenQueue::open(
            alloc,
            sizes.shape,
            sizes.threads,
            sizes.tokens,
        )?;
        PooledQueue::with_pool(alloc, queue, passes, tokens)
    }

    /// Closes the queue, and returns the numbers of the tokens that are left in it, as `TokenQueue::close` does. Those
    /// that are free, or with a caller, are not among them.
    ///
    /// MissingPass where not each handle of the opening is there once; Memory where an allocation failed. The tokens
    /// are then lost to the caller.
    pub fn close(
        self,
        alloc: Global,
        handles: Vec<PooledHandle<()>>,
    ) -> Result<Vec<u32>, CloseFault>
        requires { All (λ p. IsPassOf self p) (passes_in handles.items) }
        ensures ok { IfOk result (λ tokens. Closes self (passes_in handles.items) tokens.items) }
        ensures missing { IsErrOf result MissingPass
            → ¬ IsComplete self.opened.threads (passes_in handles.items) }
        ensures refused { ¬ IsComplete self.opened.threads (passes_in handles.items)
            → IsErrOf result MissingPass ⊎ IsErrOf result Memory }
    {
        let PooledQueue {
            queue,
            places: _,
            laid: _,
        } = self;
        let passes = passes_of(alloc, handles)?;
        queue.close(alloc, passes)
    }
}
