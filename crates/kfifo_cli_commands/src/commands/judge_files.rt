//! The command `judge` where it names several files: a verdict on each of them.
ghost use Rattle.std.specs.Prelude.{◌≡◌, ◌≢◌, ℕ, IfErr, IfOk, List};
ghost use Rattle.kfifo_cli_texts.specs.Printing.{Breaks, Writes};
ghost use Rattle.kfifo_cli_commands.specs.FileVerdicts.{AreJudged, ArePending, IsFileLine, IsJudgeFiles};
ghost use Rattle.kfifo_cli_commands.specs.FileVerdicts.{IsSpare};
ghost use Rattle.kfifo_cli_commands.specs.Statuses.{status_number};
ghost use Rattle.kfifo_cli_commands.specs.declared.tally.Found.{Found as FoundData};
ghost use Rattle.kfifo_cli_commands.specs.declared.tally.Tally.{Tally as TallyData};

use crate::failure::Failure;
use crate::file_line::{fault_line, judged};
use crate::progress::Progress;
use crate::status::Status;
use crate::tally::{Found, Tally, print_summary};
use kfifo_cli_requests::JudgeFilesOptions;
use kfifo_cli_texts::{Fault, Printer};
use std::alloc::{AllocError, Global};
use std::io::Write;
use std::rt::Files;

/// A file that is to be judged.
#[derive(Drop)]
struct Pending<'a> {
    /// Its path.
    name: &'a str,
    /// Its line where memory runs out for any other.
    spare: String,
}

/// Prints a line for each file as soon as it is judged, in their order, and behind them how many had which verdict,
/// unless each line is an object. Returns the status. A file without a verdict has the line of its fault. Memory that
/// runs out is the fault of the file at which it does, unless that is before the first line.
pub fn answer<H: Files, W: Write, P: Progress>(
    alloc: Global,
    files: &H,
    options: JudgeFilesOptions<'_>,
    output: &mut Printer<'_, W>,
    progress: &mut P,
) -> Result<Status, Fault>
    ensures status { IfOk result (λ status. status ≢ Status.Misused) }
    ensures printed { IfOk result (λ status. (text : List ℕ) × IsJudgeFiles options.entry text (status_number status)
        × Writes W.contents output.old text output.new) }
    ensures broken { IfErr result (λ fault. fault ≡ Fault.Output → (text : List ℕ) × (status : ℕ)
        × IsJudgeFiles options.entry text status × Breaks W.contents output.old text output.new) }
    ensures refused { IfErr result (λ fault. fault ≢ Fault.Output
        → (fault ≡ Fault.Memory) × (output.new ≡ output.old)) }
{
    let pending = all_pending(alloc, options)?;
    let tally = print_lines(alloc, files, options, pending.as_slice(), output, progress)?;
    print_summary(options, tally, output)?;
    Ok(tally.status())
}

/// The files that are to be judged.
fn all_pending<'a>(
    alloc: Global,
    options: JudgeFilesOptions<'a>,
) -> Result<Vec<Pending<'a>>, AllocError>
    ensures { IfOk result (λ pending. ArePending options.entry pending.items) }
{
    let mut pending = Vec::new(alloc);
    for name in options.files {
        let spare = fault_line(alloc, options, name, &Failure::from(Fault::Memory))?;
        pending.push(Pending { name, spare })?;
    }
    Ok(pending)
}

/// Judges the files, prints the line of each, and tells the progress how many are judged. Returns how many had which
/// verdict.
fn print_lines<H: Files, W: Write, P: Progress>(
    alloc: Global,
    files: &H,
    options: JudgeFilesOptions<'_>,
    pending: &[Pending<'_>],
    output: &mut Printer<'_, W>,
    progress: &mut P,
) -> Result<Tally, Fault>
    requires { ArePending options pending.now }
    ensures ok { IfOk result (λ tally. (lines : List ℕ) × AreJudged options.entry options.entry.files.now lines tally
        × Writes W.contents output.old lines output.new) }
    ensures err { IfErr result (λ _. (lines : List ℕ) × (tally : TallyData)
        × AreJudged options.entry options.entry.files.now lines tally
        × Breaks W.contents output.old lines output.new) }
    ensures fault { IfErr result (λ fault. fault ≡ Fault.Output) }
{
    let mut tally = Tally::new();
    let mut made = 0;
    for file in pending {
        let found = print_line(alloc, files, options, file, output, progress)?;
        tally = tally.with(found);
        made += 1;
        progress.told(made, pending.len() as u64);
    }
    progress.ended();
    Ok(tally)
}

/// Judges a file and prints its line. Returns what came of it.
fn print_line<H: Files, W: Write, P: Progress>(
    alloc: Global,
    files: &H,
    options: JudgeFilesOptions<'_>,
    file: &Pending<'_>,
    output: &mut Printer<'_, W>,
    progress: &mut P,
) -> Result<Found, Fault>
    requires { IsSpare options file.now }
    ensures ok { IfOk result (λ found. (line : List ℕ) × IsFileLine options.entry file.now.name.now found line
        × Writes W.contents output.old line output.new) }
    ensures err { IfErr result (λ _. (line : List ℕ) × (found : FoundData)
        × IsFileLine options.entry file.now.name.now found line
        × Breaks W.contents output.old line output.new) }
    ensures fault { IfErr result (λ fault. fault ≡ Fault.Output) }
{
    let judged = judged(alloc, files, options, file.name, progress);
    progress.ended();
    match judged {
        Ok((line, found)) => {
            output.print(line.as_bytes())?;
            Ok(found)
        }
        Err(_) => {
            output.print(file.spare.as_bytes())?;
            Ok(Found::Unjudged(Fault::Memory))
        }
    }
}
