//! How the program ends: with the answer of a command, the line of a fault, or a text in place of an answer.
ghost use Rattle.std.specs.Prelude.{◌≡◌, ◌≢◌, ℕ, List, IfSome, IfOk, IfErr};
ghost use Rattle.kfifo_cli_commands.specs.Endings.{Answers, Ends, IsAnswered, IsRefused};
ghost use Rattle.kfifo_cli_texts.specs.Faults.{fault_line};
ghost use Rattle.kfifo_cli_texts.specs.Printing.{Breaks, OnPrinter, Tells, Writes};
ghost use Rattle.kfifo_cli_commands.specs.Records.{FailsWell};
ghost use Rattle.kfifo_cli_commands.specs.Statuses.{status_number};

use crate::commands::{
    check, dispatch, draw, explain, import, judge, judge_files, least, measure, record, replay, run,
};
use crate::explaining::{NO_MEMORY, lines_of};
use crate::failure::Failure;
use crate::progress::{Notes, Progress};
use crate::status::Status;
use kfifo_cli_requests::Request;
use kfifo_cli_texts::{Fault, Printer};
use kfifo_judge::Source;
use std::alloc::Global;
use std::fmt::Display;
use std::io::Write;
use std::rt::Files;
use std::thread::Threads;

/// Why a text is written in place of an answer.
#[derive(Clone, Copy, PartialEq, Eq, Debug)]
pub enum Notice {
    /// Help was asked for. It goes to standard output.
    Help,
    /// The command line is at fault. What is wrong with it goes to standard error.
    Misuse,
}

/// Does what is requested, and writes its answer or the line of its fault. Files may be named, and `record` and
/// `dispatch` start threads: `rt` may do both. Commands whose work may be long tell the progress how far it has come,
/// and that it has ended before anything is written; behind the line of a fault it is told what is wrong.
pub fn carry_out<H: Threads + Files + Sync, S: Source, W: Write, F: Write, P: Progress + Notes>(
    alloc: Global,
    rt: &H,
    request: Request<'_>,
    input: &mut S,
    output: &mut Printer<'_, W>,
    faults: &mut Printer<'_, F>,
    progress: &mut P,
) -> Status
    ensures { Ends (IsAnswered request.entry (S.remaining input.old) (S.failed input.old) (S.failed input.new))
        (IsRefused request.entry (S.remaining input.old) (S.failed input.old) (S.failed input.new)) ⊥
        (OnPrinter W.contents output.old output.new) (OnPrinter F.contents faults.old faults.new)
        (status_number result) }
{
    match answer(alloc, rt, request, input, output, progress) {
        Ok(status) => status,
        Err(failure) => {
            let status = end_with_fault(failure.fault, faults);
            explain(alloc, rt, &request, &failure, progress);
            status
        }
    }
}

/// Tells why there is no answer. Where writing the answer failed, nothing is told.
fn explain<H: Files, P: Notes>(
    alloc: Global,
    files: &H,
    request: &Request<'_>,
    failure: &Failure,
    notes: &mut P,
) {
    if failure.fault == Fault::Output {
        return;
    }
    match lines_of(alloc, files, request, failure) {
        Ok(lines) => notes.explained(lines.as_str()),
        Err(_) => {
            notes.explained(NO_MEMORY);
            notes.explained("\n");
        }
    }
}

/// Writes the line of a fault. Where that fails the status stays.
pub fn end_with_fault<F: Write>(fault: Fault, faults: &mut Printer<'_, F>) -> Status
    ensures status { result ≡ Status.Failed }
    ensures told { fault ≢ Fault.Output → Tells (OnPrinter F.contents faults.old faults.new) (fault_line fault) }
    ensures silent { fault ≡ Fault.Output → faults.new ≡ faults.old }
{
    if fault != Fault::Output {
        fault.tell(faults);
    }
    Status::Failed
}

/// Writes a text in place of an answer. If memory runs out for it, it says so.
pub fn end_with_text<D: Display + Drop, W: Write, F: Write>(
    alloc: Global,
    notice: Notice,
    text: D,
    output: &mut Printer<'_, W>,
    faults: &mut Printer<'_, F>,
) -> Status
    ensures { Ends (λ bytes status. (notice ≡ Notice.Help) × (status ≡ 0)
        × IfSome (D.output text) (λ known. bytes ≡ known)) (λ fault. fault ≡ Fault.Memory)
        ((notice ≡ Notice.Misuse) × ((bytes : List ℕ) × IfSome (D.output text) (λ known. bytes ≡ known)
        × Tells (OnPrinter F.contents faults.old faults.new) bytes))
        (OnPrinter W.contents output.old output.new) (OnPrinter F.contents faults.old faults.new)
        (status_number result) }
{
    let Ok(text) = text.to_string(alloc) else {
        return end_with_fault(Fault::Memory, faults);
    };
    match notice {
        Notice::Help => match output.print(text.as_bytes()) {
            Ok(()) => Status::Answered,
            Err(_) => Status::Failed,
        },
        Notice::Misuse => {
            faults.write(text.as_bytes());
            Status::Misused
        }
    }
}

/// Does what is requested, and prints its answer.
fn answer<H: Threads + Files + Sync, S: Source, W: Write, P: Progress>(
    alloc: Global,
    rt: &H,
    request: Request<'_>,
    input: &mut S,
    output: &mut Printer<'_, W>,
    progress: &mut P,
) -> Result<Status, Failure>
    ensures statuses { IfOk result (λ status. status ≢ Status.Misused) }
    ensures printed { IfOk result (λ status. (text : List ℕ)
        × Answers request.entry (S.remaining input.old) text (status_number status)
        × Writes W.contents output.old text output.new) }
    ensures broken { IfErr result (λ failure. failure.fault ≡ Fault.Output → (text : List ℕ) × (status : ℕ)
        × Answers request.entry (S.remaining input.old) text status
        × Breaks W.contents output.old text output.new) }
    ensures refused { IfErr result (λ failure. failure.fault ≢ Fault.Output
        → IsRefused request.entry (S.remaining input.old) (S.failed input.old) (S.failed input.new) failure.fault
        × (output.new ≡ output.old)) }
    ensures reads { FailsWell result (S.failed input.old) (S.failed input.new) }
{
    match request {
        Request::Run(options) => {
            let text = run::answer(alloc, options)?;
            output.print(text.as_bytes())?;
            Ok(Status::Answered)
        }
        Request::Check(options) => {
            let (text, status) = check::answer(alloc, rt, options, input)?;
            output.print(text.as_bytes())?;
            Ok(status)
        }
        Request::Measure => {
            let text = measure::answer(alloc, input)?;
            output.print(text.as_bytes())?;
            Ok(Status::Answered)
        }
        Request::Replay(options) => {
            let played = replay::answer(alloc, options, progress);
            progress.ended();
            let text = played?;
            output.print(text.as_bytes())?;
            Ok(Status::Answered)
        }
        Request::Judge(options) => {
            let said = judge::answer(alloc, rt, options, input, progress);
            progress.ended();
            let (text, status) = said?;
            output.print(text.as_bytes())?;
            Ok(status)
        }
        Request::JudgeFiles(options) => {
            let status = judge_files::answer(alloc, rt, options, output, progress)?;
            Ok(status)
        }
        Request::Least(options) => {
            let said = least::answer(alloc, rt, options, input, progress);
            progress.ended();
            let (text, status) = said?;
            output.print(text.as_bytes())?;
            Ok(status)
        }
        Request::Record(options) => {
            let text = record::answer(rt, alloc, options)?;
            output.print(text.as_bytes())?;
            Ok(Status::Answered)
        }
        Request::Import(options) => {
            let text = import::answer(alloc, rt, options, input)?;
            output.print(text.as_bytes())?;
            Ok(Status::Answered)
        }
        Request::Draw(options) => {
            let drawn = draw::answer(alloc, rt, options, input, progress);
            progress.ended();
            let text = drawn?;
            output.print(text.as_bytes())?;
            Ok(Status::Answered)
        }
        Request::Dispatch(options) => {
            let text = dispatch::answer(rt, alloc, options)?;
            output.print(text.as_bytes())?;
            Ok(Status::Answered)
        }
        Request::Explain(options) => {
            let text = explain::answer(alloc, options)?;
            output.print(text.as_bytes())?;
            Ok(Status::Answered)
        }
    }
}
