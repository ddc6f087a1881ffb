//! Gathering the records of stamped calls.
ghost use Rattle.std.specs.Prelude.{◌≡◌, ◌↔◌, ◌==◌, IfOk, IsErrOf, IsTrue, All};
ghost use Rattle.std.specs.List.{list_any, AllByRecursion};
ghost use Rattle.kfifo_live.specs.Pass.{IsComplete, IsPassOf};
ghost use Rattle.kfifo_live.specs.Stamps.{Gathers, IsLog, all_logs, passes_of};
ghost use Rattle.kfifo_live.specs.declared.fault.GatherFault.TheVariants.{MissingPass};

use crate::closing::close;
use crate::fault::{CloseFault, GatherFault};
use crate::queue::Pass;
use crate::stamped::{StampPass, StampQueue};
use kfifo_model::{Call, History};
use std::alloc::{AllocError, Global};

/// Whether one of the passes is of this thread.
fn has_stamped(passes: &[StampPass], thread: u32) -> bool
    ensures { result ≡ list_any (λ p. p.pass.thread == thread) passes.now }
{
    passes.iter().any(|stamped| stamped.pass.thread() == thread)
}

/// Whether each pass of the opening is there once.
fn are_complete(passes: &[StampPass], threads: u32) -> bool
    ensures { IsTrue result ↔ IsComplete threads (passes_of passes.now) }
{
    if passes.len() != threads as usize {
        return false;
    }
    for thread in 0..threads {
        if !has_stamped(passes, thread) {
            return false;
        }
    }
    true
}

/// The calls of all logs, one log after the other, and the passes alone.
fn take_logs(alloc: Global, passes: Vec<StampPass>) -> Result<(Vec<Call>, Vec<Pass>), AllocError>
    ensures logs { IfOk result (λ r. r.0.items ≡ all_logs passes.items) }
    ensures passes { IfOk result (λ r. r.1.items ≡ passes_of passes.items) }
    ensures are_logs { IfOk result (λ r. AllByRecursion (λ p. IsLog p.pass p.log) passes.items) }
{
    let mut calls = Vec::new(alloc);
    let mut plain = Vec::with_capacity(alloc, passes.len())?;
    for stamped in passes {
        let StampPass { pass, log } = stamped;
        calls.extend_from_slice(log.as_slice())?;
        plain.push(pass)?;
    }
    Ok((calls, plain))
}

/// Returns the record of the run, if each pass of the opening is given back: all logged calls, in ascending order of
/// their first stamps. It has a legal order, in which no item is overtaken k times where items are distinct.
///
/// ```rust
/// let history = gather(alloc, queue, vec![in alloc; pass]?)?; // all logged calls, in ascending order of first stamps
/// ```
///
/// Refuses: MissingPass where not each pass of the opening is there once, which is tested first; Memory where an
/// allocation failed. The logs are then lost to the caller, and the items left in the queue always.
pub fn gather(
    alloc: Global,
    queue: StampQueue,
    passes: Vec<StampPass>,
) -> Result<History, GatherFault>
    requires { All (λ p. IsPassOf queue p.pass) passes.items }
    ensures ok { IfOk result (λ history. Gathers queue.opened passes.items history) }
    ensures missing { IsErrOf result MissingPass ↔ ¬ IsComplete queue.opened.threads (passes_of passes.items) }
{
    let StampQueue { queue } = queue;
    if !are_complete(passes.as_slice(), queue.threads) {
        return Err(GatherFault::MissingPass);
    }
    let (mut calls, plain) = take_logs(alloc, passes)?;
    match close(alloc, queue, plain) {
        Ok(_items) => {}
        Err(CloseFault::Memory) => return Err(GatherFault::Memory),
        Err(CloseFault::MissingPass) => unreachable!(),
    }
    calls.sort_by_key(|call| call.first)?;
    match History::new(calls) {
        Ok(history) => Ok(history),
        Err(_fault) => unreachable!(),
    }
}
