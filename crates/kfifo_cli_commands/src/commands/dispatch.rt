//! The command `dispatch`: worker threads run tasks and make the finished list.
ghost use Rattle.std.specs.Prelude.{◌≢◌, IfOk, IfErr, string_bytes};
ghost use Rattle.kfifo_cli_commands.specs.Dispatches.{IsDispatch, IsDispatchRefusal};

use kfifo_cli_requests::DispatchOptions;
use kfifo_cli_texts::{Fault, finished_lines, read_tasks};
use kfifo_dispatch::{OpenGate, dispatch};
use std::alloc::Global;
use std::thread::Threads;

/// The lines of the finished tasks. `threads` is the permission to start threads.
pub fn answer<R: Threads + Sync>(
    threads: &R,
    alloc: Global,
    options: DispatchOptions<'_>,
) -> Result<String, Fault>
    ensures ok { IfOk result (λ text. IsDispatch options.entry (string_bytes text)) }
    ensures err { IfErr result (IsDispatchRefusal options.entry) }
    ensures silent { IfErr result (λ fault. fault ≢ Fault.Output) }
{
    let shape = options.sizes.shape()?;
    let tasks = read_tasks(alloc, options.words)?;
    let seed = u64::from(options.seed);
    let list = dispatch(
        threads,
        alloc,
        tasks.as_slice(),
        options.workers,
        shape,
        seed,
        &OpenGate,
    )?;
    let text = finished_lines(alloc, list.as_slice())?;
    Ok(text)
}
