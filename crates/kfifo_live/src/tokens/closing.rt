//! Closing a queue of tokens.
ghost use Rattle.std.specs.Prelude.{◌≡◌, ◌⊎◌, All, IfOk, IsErrOf, false, map};
ghost use Rattle.kfifo_live.specs.Pass.{Closes, IsComplete, IsPassOf};
ghost use Rattle.kfifo_live.specs.Payloads.{PayCloses};
ghost use Rattle.kfifo_live.specs.declared.fault.CloseFault.TheVariants.{Memory, MissingPass};

use crate::closing::close_table;
use crate::fault::CloseFault;
use crate::payload::closing::{EndedPass, close_payloads};
use crate::queue::Pass;
use crate::tokens::{TokenPass, TokenQueue};
use std::alloc::{AllocError, Global};

impl TokenPass<()> {
    /// The pass as one of a plain queue.
    fn into_plain(self) -> Pass
        ensures { result ≡ self.pass }
    {
        let TokenPass { thread, seat } = self;
        Pass { thread, seat }
    }
}

/// The passes, each as one of a plain queue.
fn plain_passes(alloc: Global, passes: Vec<TokenPass<()>>) -> Result<Vec<Pass>, AllocError>
    ensures { IfOk result (λ plain. plain.items ≡ map (λ p. p.pass) passes.items) }
{
    let mut plain = Vec::with_capacity(alloc, passes.len())?;
    for pass in passes {
        plain.push(pass.into_plain())?;
    }
    Ok(plain)
}

impl TokenQueue<()> {
    /// Closes the queue, and returns the numbers of the tokens that are left in it, as `close` returns the items of a
    /// queue.
    ///
    /// MissingPass where not each pass of the opening is there once; Memory where an allocation failed. The tokens are
    /// then lost to the caller.
    pub fn close(self, alloc: Global, passes: Vec<TokenPass<()>>) -> Result<Vec<u32>, CloseFault>
        requires { All (λ p. IsPassOf self p.pass) passes.items }
        ensures ok { IfOk result (λ tokens. Closes self (map (λ p. p.pass) passes.items) tokens.items) }
        ensures missing { IsErrOf result MissingPass
            → ¬ IsComplete self.opened.threads (map (λ p. p.pass) passes.items) }
        ensures refused { ¬ IsComplete self.opened.threads (map (λ p. p.pass) passes.items)
            → IsErrOf result MissingPass ⊎ IsErrOf result Memory }
    {
        let TokenQueue {
            table,
            shape,
            threads,
            tokens: _,
            bare: _,
        } = self;
        let plain = plain_passes(alloc, passes)?;
        close_table(alloc, table, shape, threads, plain)
    }
}

impl<T: Drop> TokenPass<T> {
    /// The pass of a queue with payloads, which makes no call any more.
    fn into_ended(self) -> EndedPass<T>
        requires { self.pass.opened.bare ≡ false }
        ensures { result ≡ self }
    {
        let TokenPass { thread, seat } = self;
        EndedPass { thread, seat }
    }
}

/// The passes of a queue with payloads, which make no call any more.
fn end_all<T: Drop>(
    alloc: Global,
    passes: Vec<TokenPass<T>>,
) -> Result<Vec<EndedPass<T>>, AllocError>
    requires { All (λ p. p.pass.opened.bare ≡ false) passes.items }
    ensures { IfOk result (λ ended. ended.items ≡ passes.items) }
{
    let mut ended = Vec::with_capacity(alloc, passes.len())?;
    for pass in passes {
        ended.push(pass.into_ended())?;
    }
    Ok(ended)
}

impl<T: Drop> TokenQueue<T> {
    /// Closes a queue with payloads, and returns those that are left, as `PayQueue::close_with` does.
    ///
    /// Memory where an allocation failed, the payloads then being dropped. MissingPass never comes.
    pub fn close_with(
        self,
        alloc: Global,
        pass: TokenPass<T>,
        others: Vec<TokenPass<T>>,
    ) -> Result<Vec<T>, CloseFault>
        requires payloads { self.opened.bare ≡ false }
        requires pass { IsPassOf self pass.pass }
        requires others { All (λ p. IsPassOf self p.pass) others.items }
        ensures ok { IfOk result (λ payloads. PayCloses self pass others.items payloads.items) }
        ensures missing { ¬ IsErrOf result MissingPass }
    {
        let TokenQueue {
            table,
            shape,
            threads,
            tokens,
            bare: _,
        } = self;
        let others = end_all(alloc, others)?;
        let slots = threads as usize * tokens as usize;
        close_payloads(alloc, table, shape, slots, pass.into_ended(), others)
    }
}
