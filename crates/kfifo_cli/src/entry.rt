//! The whole program over any reader and writers.
ghost use Rattle.std.specs.Prelude.{◌≡◌, ◌≢◌, ℕ, List, map, string_bytes};
ghost use Rattle.clap.specs.Words.{kind_of};
ghost use Rattle.kfifo_cli.specs.Outcomes.{IsFault, IsMisuse, IsPrinted};
ghost use Rattle.kfifo_cli_arguments.specs.Requests.{Shows};
ghost use Rattle.kfifo_cli_commands.specs.Endings.{Ends};
ghost use Rattle.kfifo_cli_texts.specs.Printing.{OnPrinter, OnWriter, Tells};
ghost use Rattle.kfifo_cli_commands.specs.Statuses.{status_number};

use clap::Error;
use clap::error::ErrorKind;
use kfifo_cli_arguments::{mistake, parse, request_of};
use kfifo_cli_commands::{
    Notes, Notice, Progress, Silent, Status, carry_out, end_with_fault, end_with_text,
};
use kfifo_cli_texts::{Fault, Printer};
use kfifo_judge::{FromStd, Source};
use std::alloc::{AllocError, Global};
use std::io::{Read, Write};
use std::rt::Files;
use std::thread::Threads;

/// Does all that the program does with `words`, the arguments after the program's name, and returns the exit status. It
/// is 0 for an answer; 1 for a fault of the data, a size, the memory, reading or writing; 2 for a fault of the command
/// line; 3 where a record has no order or its order is not legal; 4 where `judge` cannot say.
///
/// It says nothing of its progress.
pub fn program<T: Threads + Files + Sync, R: Read, W: Write, F: Write>(
    threads: &T,
    alloc: Global,
    words: &[String],
    input: &mut R,
    output: &mut W,
    faults: &mut F,
) -> u8
    // Std's contract of a reader has no word for a read that fails: so many did.
    ensures { let texts = map (λ w. string_bytes w) words.now in (failed : ℕ)
        × Ends (IsPrinted texts (R.remaining input.old) 0 failed) (IsFault texts (R.remaining input.old) 0 failed)
        (IsMisuse texts (OnWriter F.contents faults.old faults.new))
        (OnWriter W.contents output.old output.new) (OnWriter F.contents faults.old faults.new) result }
{
    program_showing(threads, alloc, words, input, output, faults, &mut Silent)
}

/// Does what `program` does, and tells the progress how far long work has come, and what is wrong with an input of
/// calls. What the progress does with that is not among what is said of the streams.
pub fn program_showing<T: Threads + Files + Sync, R: Read, W: Write, F: Write, P: Progress + Notes>(
    threads: &T,
    alloc: Global,
    words: &[String],
    input: &mut R,
    output: &mut W,
    faults: &mut F,
    progress: &mut P,
) -> u8
    // Std's contract of a reader has no word for a read that fails: so many did.
    ensures { let texts = map (λ w. string_bytes w) words.now in (failed : ℕ)
        × Ends (IsPrinted texts (R.remaining input.old) 0 failed) (IsFault texts (R.remaining input.old) 0 failed)
        (IsMisuse texts (OnWriter F.contents faults.old faults.new))
        (OnWriter W.contents output.old output.new) (OnWriter F.contents faults.old faults.new) result }
{
    let mut input = FromStd::new(input);
    let mut output = Printer::new(output);
    let mut faults = Printer::new(faults);
    perform(
        alloc,
        threads,
        words,
        &mut input,
        &mut output,
        &mut faults,
        progress,
    )
}

/// The same over a source and printers, which count the calls that failed: the input is at fault, and a text
/// breaks off, only where one did.
fn perform<H: Threads + Files + Sync, S: Source, W: Write, F: Write, P: Progress + Notes>(
    alloc: Global,
    rt: &H,
    words: &[String],
    input: &mut S,
    output: &mut Printer<'_, W>,
    faults: &mut Printer<'_, F>,
    progress: &mut P,
) -> u8
    ensures { let texts = map (λ w. string_bytes w) words.now in
        Ends (IsPrinted texts (S.remaining input.old) (S.failed input.old) (S.failed input.new))
        (IsFault texts (S.remaining input.old) (S.failed input.old) (S.failed input.new))
        (IsMisuse texts (OnPrinter F.contents faults.old faults.new))
        (OnPrinter W.contents output.old output.new) (OnPrinter F.contents faults.old faults.new) result }
{
    match parse(alloc, words) {
        Ok(matches) => match request_of(&matches) {
            Some(request) => carry_out(
                alloc, rt, request, input, output, faults, progress,
            ).number(),
            None => Status::Misused.number(),
        },
        Err(error) => end_with_error(alloc, words, error, output, faults).number(),
    }
}

/// Writes what a command line came to that names no command to be done: help, or what is wrong with it.
fn end_with_error<W: Write, F: Write>(
    alloc: Global,
    words: &[String],
    error: Error,
    output: &mut Printer<'_, W>,
    faults: &mut Printer<'_, F>,
) -> Status
    ensures { Ends (λ text status. Shows (kind_of error) × (status ≡ 0)) (λ fault. fault ≡ Fault.Memory)
        ((¬ (Shows (kind_of error))) × (kind_of error ≢ ErrorKind.OutOfMemory)
        × ((text : List ℕ) × Tells (OnPrinter F.contents faults.old faults.new) text))
        (OnPrinter W.contents output.old output.new) (OnPrinter F.contents faults.old faults.new)
        (status_number result) }
{
    match error.kind() {
        ErrorKind::OutOfMemory => end_with_fault(Fault::Memory, faults),
        ErrorKind::DisplayHelp | ErrorKind::DisplayVersion => {
            end_with_text(alloc, Notice::Help, error, output, faults)
        }
        _ => match mistake(alloc, words, error) {
            Ok(text) => end_with_text(alloc, Notice::Misuse, text, output, faults),
            Err(AllocError) => end_with_fault(Fault::Memory, faults),
        },
    }
}
