//! A program to start from: threads that share a queue. Each puts 10,000 items and takes one after each, and the
//! program prints what was put and what came out, which is the same in every run.
#![tactic(auto)]

ghost use Rattle.std.specs.Prelude.{◌≡◌, All, IfOk, map};
ghost use Rattle.kfifo_live.specs.Pass.{IsPassOf};

mod worker;

use kfifo_live::{Handle, Pass, Queue, close};
use kfifo_words::{MAX_VERSION, Shape};
use std::alloc::{AllocError, Global};
use std::thread::{Threads, join, map_vec};
use worker::{Tally, Worker};

/// What went into a queue, and what came out of it.
#[derive(Clone, Copy)]
struct Totals {
    put: Tally,
    out: Tally,
}

/// What a thread does with its pass.
fn work(queue: &Queue, pass: Pass) -> Worker
    requires { IsPassOf queue.now pass }
    ensures { IsPassOf queue.now result.handle.pass }
{
    let mut worker = Worker::new(Handle::new(queue, pass));
    worker.work(queue);
    worker
}

/// The workers' passes, in their order.
fn passes_back(alloc: Global, workers: Vec<Worker>) -> Result<Vec<Pass>, AllocError>
    ensures { IfOk result (λ passes. passes.items ≡ map (λ w. w.handle.pass) workers.items) }
{
    workers
        .into_iter()
        .map(|worker| worker.handle.into_pass())
        .collect(alloc)
}

/// Closes the queue when its threads have ended, and adds up what was put, taken and left.
fn finish(alloc: Global, queue: Queue, workers: Vec<Worker>) -> anyhow::Result<Totals>
    requires { All (λ w. IsPassOf queue w.handle.pass) workers.items }
{
    let mut put = Tally::default();
    let mut out = Tally::default();
    for worker in &workers {
        put.add_all(worker.put);
        out.add_all(worker.taken);
    }
    let passes = passes_back(alloc, workers)?;
    for item in close(alloc, queue, passes)? {
        out.add(item);
    }
    Ok(Totals { put, out })
}

/// Four threads share a queue with k = 4 and 256 segments. Each gets a pass of the list, and returns it.
fn run_four<R: Threads + Sync>(rt: &R, alloc: Global) -> anyhow::Result<Totals> {
    let shape = Shape::new(4, 256, MAX_VERSION)?.holding_again();
    let (queue, passes) = Queue::open(alloc, shape, 4)?;
    let workers = map_vec(rt, passes, &|pass| work(&queue, pass))?;
    finish(alloc, queue, workers)
}

/// Two threads share a strict queue of two slots, which is often full.
fn run_two<R: Threads + Sync>(rt: &R, alloc: Global) -> anyhow::Result<Totals> {
    let (queue, mut passes) = Queue::open(alloc, Shape::new(1, 2, MAX_VERSION)?, 2)?;
    let (Some(second), Some(first)) = (passes.pop(), passes.pop()) else {
        unreachable!()
    };
    let shared = &queue;
    let (first, second) = join(
        rt,
        move || -> Worker
            requires { IsPassOf shared.now first }
            ensures { IsPassOf shared.entry.now result.handle.pass }
        { work(shared, first) },
        move || -> Worker
            requires { IsPassOf shared.now second }
            ensures { IsPassOf shared.entry.now result.handle.pass }
        { work(shared, second) },
    );
    finish(alloc, queue, vec![in alloc; first, second]?)
}

fn main(rt: HostRuntime) -> anyhow::Result<()> {
    let four = run_four(&rt, rt.alloc())?;
    println!(rt; "four threads put {}, and {} came out", four.put, four.out)?;
    let two = run_two(&rt, rt.alloc())?;
    println!(rt; "two threads put {}, and {} came out", two.put, two.out)?;
    Ok(())
}
