//! The command `record`: scripts, each run by a thread of its own, and the record of the run.
ghost use Rattle.std.specs.Prelude.{◌≡◌, ◌≢◌, ◌⊎◌, ◌≤◌, ◌+◌, ℕ, IfOk, IfErr, string_bytes};
ghost use Rattle.kfifo_record.specs.Repeats.{IsFirstOver, all_repeated, last_shift};
ghost use Rattle.kfifo_record.specs.Scripts.{AreScripts, scripts_in};
ghost use Rattle.kfifo_cli_commands.specs.RealRuns.{IsRealRun, IsRealRunRefusal};

use kfifo_cli_requests::RecordOptions;
use kfifo_cli_texts::{Fault, read_scripts};
use kfifo_machine::Begin;
use kfifo_model::record_line;
use kfifo_record::{OpenGate, first_over, record_scripts, repeat_scripts};
use std::alloc::Global;
use std::thread::Threads;

/// The line of the record of a run. `threads` is the permission to start threads.
pub fn answer<R: Threads + Sync>(
    threads: &R,
    alloc: Global,
    options: RecordOptions<'_>,
) -> Result<String, Fault>
    ensures ok { IfOk result (λ text. IsRealRun options.entry (string_bytes text)) }
    ensures err { IfErr result (IsRealRunRefusal options.entry) }
    ensures silent { IfErr result (λ fault. fault ≢ Fault.Output) }
{
    let shape = options.sizes.shape()?;
    let once = read_scripts(alloc, options.scripts, shape.k(), options.turns)?;
    let scripts = repeat(alloc, once.as_slice(), options.repeat)?;
    let history = record_scripts(threads, alloc, shape, scripts.as_slice(), &OpenGate)?;
    let text = record_line(alloc, &history)?;
    Ok(text)
}

/// The scripts made so many times over, with items of their own each time.
fn repeat(alloc: Global, scripts: &[Vec<Begin>], count: u32) -> Result<Vec<Vec<Begin>>, Fault>
    requires { 1 ≤ count }
    ensures ok { let own = scripts_in scripts.now in
        IfOk result (λ made. scripts_in made.items ≡ all_repeated count own) }
    ensures range { (shape : _) → AreScripts shape (scripts_in scripts.now)
        → IfOk result (λ made. AreScripts shape (scripts_in made.items)) }
    ensures err { let own = scripts_in scripts.now in IfErr result (λ fault. (fault ≡ Fault.Memory)
        ⊎ ((place : ℕ) × (fault ≡ Fault.Word (place + 1)) × IsFirstOver (last_shift count own) own place)) }
{
    match first_over(scripts, count) {
        Some(place) => Err(Fault::Word(place + 1)),
        None => {
            let made = repeat_scripts(alloc, scripts, count)?;
            Ok(made)
        }
    }
}
