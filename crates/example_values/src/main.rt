//! A program to start from: threads that give each other values which they own, here texts. Each makes 1,000 texts,
//! gives them to a queue, and takes one after each. The program prints what was made and what came out, which is the
//! same in every run.
#![tactic(auto)]

ghost use Rattle.std.specs.Prelude.{◌≡◌, IfOk, OnOk, map};
ghost use Rattle.kfifo_renewing.specs.Renewing.{AreOfOneQueue};
ghost use Rattle.kfifo_renewing.specs.Renewing.{IsOfSameQueue};
ghost use Rattle.example_values.specs.declared.worker.TheConstants.{TEXTS};

mod worker;

use kfifo_live::Sizes;
use kfifo_renewing::{DEFAULT_RESERVE, Renewals, RenewingHandle, close, open_with};
use kfifo_words::MAX_VERSION;
use std::alloc::{AllocError, Global};
use std::thread::{Threads, map_vec};
use worker::{Tally, Worker};

/// How many threads share the queue.
const THREADS: u32 = 4;

/// How many texts the queue has room for.
const CAPACITY: u32 = 64;

/// So few versions that a generation of the queue lasts for some 24 texts.
const FEW_VERSIONS: u64 = 48;

/// What was made, and what came out.
#[derive(Clone, Copy, Default)]
struct Totals {
    made: Tally,
    out: Tally,
}

/// What a thread does with its handle.
fn work(alloc: Global, handle: RenewingHandle<String>) -> Worker
    ensures made { OnOk result.ended (result.made.texts ≡ TEXTS) }
    ensures handle { IsOfSameQueue handle result.handle }
{
    let mut worker = Worker::new(handle);
    worker.work(alloc);
    worker
}

/// The workers' handles, in their order.
fn handles_back(
    alloc: Global,
    workers: Vec<Worker>,
) -> Result<Vec<RenewingHandle<String>>, AllocError>
    ensures { IfOk result (λ handles. handles.items ≡ map (λ w. w.handle) workers.items) }
{
    workers
        .into_iter()
        .map(|worker| worker.handle)
        .collect(alloc)
}

/// Closes the queue when its threads have ended, and adds up what was made, taken and left.
fn finish(alloc: Global, workers: Vec<Worker>) -> anyhow::Result<Totals>
    requires { AreOfOneQueue (map (λ w. w.handle) workers.items) }
{
    let mut totals = Totals::default();
    for worker in &workers {
        worker.ended?;
        totals.made.add_all(worker.made);
        totals.out.add_all(worker.out);
    }
    let handles = handles_back(alloc, workers)?;
    for text in close(alloc, handles)?.left {
        totals.out.add(text.as_str());
    }
    Ok(totals)
}

/// Four threads share a queue with k = 2. Each gets a handle of the list, and returns it.
fn run<R: Threads + Sync>(
    rt: &R,
    alloc: Global,
    versions: u64,
    reserve: u64,
) -> anyhow::Result<Totals> {
    let sizes = Sizes::for_capacity(2, CAPACITY, THREADS, versions)?; // k, capacity, threads, greatest version
    let renewals = Renewals {
        reserve,
        generations: 1, // it does not grow
    };
    let handles = open_with(alloc, sizes, renewals)?;
    let workers = map_vec(rt, handles, &|handle| work(alloc, handle))?;
    finish(alloc, workers)
}

fn main(rt: HostRuntime) -> anyhow::Result<()> {
    let totals = run(&rt, rt.alloc(), MAX_VERSION, DEFAULT_RESERVE)?;
    println!(rt;
        "four threads made {}, and {} came out",
        totals.made, totals.out
    )?;
    // The same with so few versions that the queue goes through more than a hundred generations.
    let totals = run(&rt, rt.alloc(), FEW_VERSIONS, FEW_VERSIONS / 2)?;
    println!(rt;
        "with few versions they made {}, and {} came out",
        totals.made, totals.out
    )?;
    Ok(())
}
