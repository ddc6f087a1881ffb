//! Running scripts, each on a thread of its own, and gathering the record of the run.
ghost use Rattle.std.specs.Prelude.{◌≡◌, ◌<◌, ◌≤◌, ◌⊎◌, ◌↔◌, ◌^◌, ◌-◌, [], min, All, IfOk, IsErrOf, length};
ghost use Rattle.kfifo_model.specs.declared.calls.TheConstants.{MAX_THREADS};
ghost use Rattle.kfifo_live.specs.declared.stamped.TheConstants.{MAX_STAMPED_CALLS};
ghost use Rattle.kfifo_live.specs.declared.fault.OpenFault.TheVariants.{CallsOutOfRange, ThreadsOutOfRange};
ghost use Rattle.kfifo_live.specs.declared.fault.OpenFault.TheVariants.{TokensOutOfRange};
ghost use Rattle.kfifo_live.specs.Pass.{IsPassOf};
ghost use Rattle.kfifo_record.specs.Scripts.{AreScripts, EachMakes, IsCall, IsOpenFor, IsRecord, MakesInTurn, MakesOne};
ghost use Rattle.kfifo_record.specs.Scripts.{MayRun, longest, script_of, scripts_in};

use kfifo_live::{Gate, GatherFault, OpenFault, StampPass, StampQueue, gather};
use kfifo_machine::Begin;
use kfifo_model::History;
use kfifo_words::Shape;
use std::alloc::{AllocError, Global};
use std::thread::{Threads, map_vec};

/// Runs scripts on one queue of this shape, and returns the record of the run. A thread of its own runs script t, call
/// by call, with pass t. The record has the calls of all threads in ascending order of their first stamps. The calls of
/// thread t are script t in its order: at most 65,536 in all, as many as a record may have.
///
/// ```rust
/// let history = record_scripts(threads, alloc, shape, scripts.as_slice(), &OpenGate)?;
/// ```
///
/// Before call number c of script t, from 1, its worker passes `gate` with t and c. One of the workers is the calling
/// thread. Where no thread can be made, scripts run one after the other. The call returns if the gate's calls return.
///
/// Refuses: ThreadsOutOfRange where there are not 1 to 64 scripts; then CallsOutOfRange where one has over 1,024 calls;
/// Memory where an allocation failed. After a refusal nothing is kept, and all workers that were started have ended.
pub fn record_scripts<R: Threads + Sync, G: Gate + Sync>(
    threads: &R,
    alloc: Global,
    shape: Shape,
    scripts: &[Vec<Begin>],
    gate: &G,
) -> Result<History, OpenFault>
    requires { AreScripts shape (scripts_in scripts.now) }
    ensures ok { IfOk result (λ history. IsRecord (G.passed gate.now) shape (scripts_in scripts.now) history) }
    ensures few { IfOk result (λ history. length history ≤ 65536) }
    ensures threads { IsErrOf result ThreadsOutOfRange ↔ ((length scripts.now ≡ 0) ⊎ (64 < length scripts.now)) }
    ensures calls { IsErrOf result CallsOutOfRange ↔ ((0 < length scripts.now) × (length scripts.now ≤ 64)
        × (1024 < longest (scripts_in scripts.now))) }
    ensures tokens { ¬ IsErrOf result TokensOutOfRange }
{
    let (queue, passes) = open(alloc, shape, scripts)?;
    let passes = run_each(threads, shape, &queue, passes, scripts, gate)?;
    match gather(alloc, queue, passes) {
        Ok(history) => Ok(history),
        Err(GatherFault::Memory) => Err(OpenFault::Memory),
        Err(GatherFault::MissingPass) => unreachable!(),
    }
}

/// Runs each script with the pass of its thread, on threads that all have ended when it returns.
fn run_each<R: Threads + Sync, G: Gate + Sync>(
    threads: &R,
    shape: Shape,
    queue: &StampQueue,
    passes: Vec<StampPass>,
    scripts: &[Vec<Begin>],
    gate: &G,
) -> Result<Vec<StampPass>, AllocError>
    requires opened { IsOpenFor shape (scripts_in scripts.now) queue.now passes.items }
    requires may_run { All (MayRun queue.now (scripts_in scripts.now)) passes.items }
    ensures { IfOk result (λ ps. EachMakes (G.passed gate.now) (scripts_in scripts.now) passes.items ps.items) }
{
    let passes = map_vec(threads, passes, &|pass| run_own(queue, pass, scripts, gate))?;
    Ok(passes)
}

/// A queue with a pass for each script, and room for its calls in the log.
fn open(
    alloc: Global,
    shape: Shape,
    scripts: &[Vec<Begin>],
) -> Result<(StampQueue, Vec<StampPass>), OpenFault>
    requires { AreScripts shape (scripts_in scripts.now) }
    ensures ok { IfOk result (λ r. IsOpenFor shape (scripts_in scripts.now) r.0 r.1.items) }
    ensures may_run { IfOk result (λ r. All (MayRun r.0 (scripts_in scripts.now)) r.1.items) }
    ensures threads { IsErrOf result ThreadsOutOfRange
        ↔ ((length scripts.now ≡ 0) ⊎ (MAX_THREADS < length scripts.now)) }
    ensures calls { IsErrOf result CallsOutOfRange ↔ ((0 < length scripts.now) × (length scripts.now ≤ MAX_THREADS)
        × (MAX_STAMPED_CALLS < longest (scripts_in scripts.now))) }
    ensures tokens { ¬ IsErrOf result TokensOutOfRange }
{
    let threads = capped(scripts.len());
    let calls = capped(count_longest(scripts).max(1));
    let (queue, passes) = StampQueue::open(alloc, shape, threads, calls)?;
    Ok((queue, passes))
}

/// The number, or the greatest of 32 bits where it is more.
fn capped(number: usize) -> u32
    ensures { result ≡ min number (2 ^ 32 - 1) }
{
    number.min(u32::MAX as usize) as u32
}

/// The number of calls of the longest script, 0 where there is none.
fn count_longest(scripts: &[Vec<Begin>]) -> usize
    ensures { result ≡ longest (scripts_in scripts.now) }
{
    scripts
        .iter()
        .fold(0, |most: usize, script| most.max(script.as_slice().len()))
}

/// Runs the script of the pass's thread.
fn run_own<G: Gate>(
    queue: &StampQueue,
    mut pass: StampPass,
    scripts: &[Vec<Begin>],
    gate: &G,
) -> StampPass
    requires { MayRun queue.now (scripts_in scripts.now) pass }
    ensures { MakesInTurn (G.passed gate.now pass.pass.thread) 1
        (script_of (scripts_in scripts.now) pass.pass.thread) pass result }
{
    let thread = pass.thread();
    run_script(queue, &mut pass, scripts[thread as usize].as_slice(), gate);
    pass
}

/// Makes the calls of a script in turn, each behind the gate.
fn run_script<G: Gate>(queue: &StampQueue, pass: &mut StampPass, script: &[Begin], gate: &G)
    requires of { IsPassOf queue.now pass.old.pass }
    requires fresh { pass.old.log ≡ [] }
    requires calls { All (IsCall queue.now.opened.shape) script.now }
    requires room { length script.now ≤ queue.now.opened.calls }
    requires few { queue.now.opened.calls ≤ MAX_STAMPED_CALLS }
    ensures { MakesInTurn (G.passed gate.now pass.old.pass.thread) 1 script.now pass.old pass.new }
{
    let thread = pass.thread();
    for (index, begin) in script.iter().enumerate() {
        gate.pass(thread, index as u32 + 1);
        make(queue, pass, *begin);
    }
}

/// Makes a call, whatever its answer.
fn make(queue: &StampQueue, pass: &mut StampPass, begin: Begin)
    requires of { IsPassOf queue.now pass.old.pass }
    requires call { IsCall queue.now.opened.shape begin }
    requires room { length pass.old.log < pass.old.pass.opened.calls }
    ensures { MakesOne begin pass.old pass.new }
{
    match begin {
        Begin::Enqueue { item, start, turns } => {
            pass.enqueue(queue, item, start, turns);
        }
        Begin::Dequeue { start, turns } => {
            pass.dequeue(queue, start, turns);
        }
        Begin::Tick | Begin::Seal => unreachable!(),
    }
}
