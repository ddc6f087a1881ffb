//! Feeds picks to the largest replay, 64 scripts of 64 calls, and prints what came of it, so that its time
//! can be measured.
//!
//! The arguments are k, 1 to 64; the number of segments, 2 to 1,024; and how many times each thread is
//! picked, one after the other in turn. Each script has enqueues and dequeues in turn, with so many turns
//! that none is Busy early.
#![tactic(auto)]

use kfifo_machine::Begin;
use kfifo_replay::Replay;
use kfifo_words::{MAX_VERSION, Shape};
use std::alloc::{AllocError, Global};
use std::io;

/// A number of the command line.
fn number(text: Option<String>, default: u32) -> u32 {
    match text {
        Some(text) => match text.parse() {
            Ok(number) => number,
            Err(_) => default,
        },
        None => default,
    }
}

/// 64 scripts of 64 calls: each thread's items are its own.
fn scripts(alloc: Global) -> Result<Vec<Vec<Begin>>, AllocError> {
    let mut scripts = Vec::new(alloc);
    for thread in 0..64u32 {
        let mut script = Vec::new(alloc);
        for call in 0..64u32 {
            let turns = 65_535;
            if (thread ^ call) & 1 == 0 {
                script.push(Begin::Enqueue {
                    item: (thread & 63) * 64 + (call & 63) + 1,
                    start: 0,
                    turns,
                })?;
            } else {
                script.push(Begin::Dequeue { start: 0, turns })?;
            }
        }
        scripts.push(script)?;
    }
    Ok(scripts)
}

fn main(rt: HostRuntime) -> io::Result<()> {
    let mut args = std::env::args(&rt)?;
    args.next();
    let k = number(args.next(), 1);
    let n = number(args.next(), 2);
    let rounds = number(args.next(), 1000);
    let Ok(shape) = Shape::new(k, n, MAX_VERSION) else {
        return println!(rt; "no such shape");
    };
    let Ok(scripts) = scripts(rt.alloc()) else {
        return println!(rt; "no memory");
    };
    let Ok(mut replay) = Replay::open(rt.alloc(), shape, scripts.as_slice()) else {
        return println!(rt; "no replay");
    };
    for _round in 0..rounds {
        for thread in 0..64u32 {
            let _fed = replay.feed_many(thread, 1);
        }
    }
    match replay.report(rt.alloc()) {
        Ok(report) => println!(rt;
            "{} steps, {} in the order, worst rank {}, {} rollbacks",
            report.steps,
            report.order.len(),
            report.worst_rank,
            report.rollbacks
        ),
        Err(_fault) => println!(rt; "no report"),
    }
}
