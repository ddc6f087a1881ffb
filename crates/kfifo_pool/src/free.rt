//! The free tokens of a handle.
ghost use Rattle.std.specs.Prelude.{◌≡◌, ◌≤◌, ◌⊎◌, ◌↔◌, IfOk, IfSome, [], false, length, vec_capacity};
ghost use Rattle.kfifo_pool.specs.declared.pool.TheConstants.{BATCH};
ghost use Rattle.kfifo_pool.specs.Pooled.{Adds, AreOf, Free, KeepsOne, LaysOthers, TakesOne, TakesRecent};
ghost use Rattle.kfifo_pool.specs.Pooled.{all_free, in_list};

use crate::pool::{BATCH, Batch, PooledQueue};
use kfifo_live::Token;
use std::alloc::{AllocError, Global};
use std::marker::Model;
use std::mem::swap;

/// The free tokens that a handle has, two batches at most. It takes those first that it put there last: their lines are
/// still in the cache.
///
/// Clauses see both of its lists.
#[derive(Drop)]
pub(crate) struct FreeTokens<T: Drop> {
    /// Those that were put here last, the last one last.
    recent: Vec<Token<T>>,
    /// The others: a whole batch, or an empty list.
    others: Option<Batch<T>>,
    /// The place of the pool at which the next look begins. Where the last look ended others have looked too, so lists
    /// with tokens are near.
    look_from: usize,
}

impl<T: Drop> Model for FreeTokens<T> {
    ghost Value = { Free };

    ghost view = { λ f. record { recent = f.recent.items; others = in_list f.others } };

    ghost invariant = { λ f. BATCH ≤ vec_capacity f.recent };
}

impl<T: Drop> FreeTokens<T> {
    /// None yet. The first look begins at this place.
    pub(crate) fn new(alloc: Global, look_from: usize) -> Result<FreeTokens<T>, AllocError>
        ensures { IfOk result (λ f. f ≡ record { recent = []; others = [] }) }
    {
        let recent = Batch::new(alloc)?;
        let others = Batch::new(alloc)?;
        Ok(FreeTokens {
            recent: recent.tokens,
            others: Some(others),
            look_from,
        })
    }

    /// Exchanges the two lists, of which one is empty.
    fn exchange_lists(&mut self)
        requires { (self.old.recent ≡ []) ⊎ (self.old.others ≡ []) }
        ensures all { all_free self.new ≡ all_free self.old }
        ensures others { self.old.recent ≡ [] → self.new.others ≡ [] }
    {
        if let Some(batch) = &mut self.others {
            swap(&mut self.recent, &mut batch.tokens);
        }
    }

    /// Whether there are others.
    fn has_others(&self) -> bool
        ensures { (result ≡ false) ↔ (self.now.others ≡ []) }
    {
        match &self.others {
            Some(batch) => !batch.tokens.is_empty(),
            None => false,
        }
    }

    /// Takes the last of the recent ones.
    #[inline(always)]
    fn take_recent(&mut self) -> Option<Token<T>>
        ensures { TakesRecent result self.old self.new }
    {
        self.recent.pop()
    }

    /// Takes the next token. Where there is none, it is one of the pool, with the others of its batch.
    #[inline(always)]
    pub(crate) fn take(&mut self, queue: &PooledQueue<T>) -> Option<Token<T>>
        requires of { AreOf queue.now (all_free self.old) }
        ensures takes { TakesOne result (all_free self.old) (all_free self.new) }
        ensures of { AreOf queue.now (all_free self.new) × IfSome result (λ token. token.queue ≡ queue.now) }
    {
        match self.take_recent() {
            Some(token) => Some(token),
            None => self.take_other(queue),
        }
    }

    /// Takes the next of the others, or else one of the pool.
    #[cold]
    #[inline(never)]
    fn take_other(&mut self, queue: &PooledQueue<T>) -> Option<Token<T>>
        requires none { self.old.recent ≡ [] }
        requires of { AreOf queue.now (all_free self.old) }
        ensures takes { TakesOne result (all_free self.old) (all_free self.new) }
        ensures of { AreOf queue.now (all_free self.new) × IfSome result (λ token. token.queue ≡ queue.now) }
    {
        self.exchange_lists();
        match self.take_recent() {
            Some(token) => Some(token),
            None => self.take_found(queue),
        }
    }

    /// Takes one of a batch that lies in the pool.
    fn take_found(&mut self, queue: &PooledQueue<T>) -> Option<Token<T>>
        requires none { self.old ≡ record { recent = []; others = [] } }
        ensures takes { TakesOne result [] (all_free self.new) }
        ensures of { AreOf queue.now (all_free self.new) × IfSome result (λ token. token.queue ≡ queue.now) }
    {
        self.look_from = queue.find(self.look_from, &mut self.others)?;
        self.exchange_lists();
        self.take_recent()
    }

    /// Puts a token here, which it takes next. Where it has two batches, it first lays one into the pool.
    #[inline(always)]
    pub(crate) fn put(&mut self, queue: &PooledQueue<T>, token: Token<T>)
        requires of { AreOf queue.now (all_free self.old) × (token.queue ≡ queue.now) }
        ensures keeps { KeepsOne token (all_free self.old) (all_free self.new) }
        ensures of { AreOf queue.now (all_free self.new) }
    {
        if self.recent.len() < BATCH as usize {
            self.recent.push_reserved(token);
        } else {
            self.put_beyond(queue, token);
        }
    }

    /// Puts a token here where there is a batch of recent ones.
    #[cold]
    #[inline(never)]
    fn put_beyond(&mut self, queue: &PooledQueue<T>, token: Token<T>)
        requires of { AreOf queue.now (all_free self.old) × (token.queue ≡ queue.now) }
        requires many { BATCH ≤ length self.old.recent }
        ensures keeps { KeepsOne token (all_free self.old) (all_free self.new) }
        ensures of { AreOf queue.now (all_free self.new) }
    {
        self.make_room(queue);
        self.add(token);
    }

    /// Adds a token to the recent ones.
    fn add(&mut self, token: Token<T>)
        ensures { Adds token (all_free self.old) (all_free self.new) }
    {
        // Where no place of the pool was empty, the list may be full, and grows. If memory is then refused, the queue
        // has room for one item less from then on.
        let _ = self.recent.push(token);
    }

    /// Makes a list of recent ones to which a batch comes the others. Where there are others, it first lays these into
    /// the pool.
    fn make_room(&mut self, queue: &PooledQueue<T>)
        requires of { AreOf queue.now (all_free self.old) }
        requires many { BATCH ≤ length self.old.recent }
        ensures room { LaysOthers (all_free self.old) (all_free self.new) }
        ensures of { AreOf queue.now (all_free self.new) }
    {
        self.lay_others(queue);
        if !self.has_others() {
            self.exchange_lists();
        }
    }

    /// Lays the others into the pool, if there are any.
    fn lay_others(&mut self, queue: &PooledQueue<T>)
        requires of { AreOf queue.now (all_free self.old) }
        requires many { BATCH ≤ length self.old.recent }
        ensures room { LaysOthers (all_free self.old) (all_free self.new) }
        ensures of { AreOf queue.now (all_free self.new) }
    {
        if self.has_others()
            && let Some(index) = queue.lay(self.look_from, &mut self.others)
        {
            self.look_from = index;
        }
    }
}
