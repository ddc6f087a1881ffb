//! The line that the command `judge` has for a file of several.
ghost use Rattle.std.specs.Prelude.{◌≡◌, IfErr, IfOk, string_bytes};
ghost use Rattle.kfifo_cli_commands.specs.FileVerdicts.{HasVerdict, IsFaultLine, IsFileFault, IsFileLine};
ghost use Rattle.kfifo_cli_commands.specs.FileVerdicts.{IsFileVerdict, fault_said, named_line};

use crate::calls::read_calls_named;
use crate::explaining::words_behind;
use crate::failure::Failure;
use crate::progress::Progress;
use crate::tally::Found;
use kfifo_cli_requests::JudgeFilesOptions;
use kfifo_judge::{Outcome, fault_report, judge_brief, judge_report};
use kfifo_model::{History, LoggedCall};
use std::alloc::{AllocError, Global};
use std::rt::Files;

/// The line of a file, and what came of it.
pub(crate) fn judged<H: Files, P: Progress>(
    alloc: Global,
    files: &H,
    options: JudgeFilesOptions<'_>,
    name: &str,
    progress: &mut P,
) -> Result<(String, Found), AllocError>
    ensures { IfOk result (λ a. IsFileLine options.entry name.now a.1 (string_bytes a.0)) }
{
    match verdict_of(alloc, files, options, name, progress) {
        Ok((line, said)) => Ok((line, Found::Judged(said))),
        Err(failure) => {
            let line = fault_line(alloc, options, name, &failure)?;
            Ok((line, Found::Unjudged(failure.fault)))
        }
    }
}

/// The line of the verdict on a file.
fn verdict_of<H: Files, P: Progress>(
    alloc: Global,
    files: &H,
    options: JudgeFilesOptions<'_>,
    name: &str,
    progress: &mut P,
) -> Result<(String, Outcome), Failure>
    ensures ok { IfOk result (λ a. HasVerdict options.entry name.now (string_bytes a.0) a.1) }
    ensures err { IfErr result (λ failure. IsFileFault failure.fault) }
{
    let calls = read_calls_named(alloc, files, name, progress)?;
    let said = verdict_on(alloc, options, name, &calls.history, calls.logged())?;
    Ok(said)
}

/// The line of the verdict on these calls.
fn verdict_on(
    alloc: Global,
    options: JudgeFilesOptions<'_>,
    name: &str,
    history: &History,
    logged: &[LoggedCall],
) -> Result<(String, Outcome), AllocError>
    ensures { IfOk result (λ a. IsFileVerdict options.entry name.now logged.now history.now (string_bytes a.0) a.1) }
{
    let (k, tries, show) = (options.k, options.tries, options.show);
    if options.json {
        return judge_report(alloc, Some(name), history, logged, k, tries, show);
    }
    let (brief, said) = judge_brief(alloc, history, logged, k, tries)?;
    let line = named_line(alloc, name, brief.as_str())?;
    Ok((line, said))
}

/// What is said of the file with this name.
fn named_line(alloc: Global, name: &str, said: &str) -> Result<String, AllocError>
    ensures { IfOk result (λ text. string_bytes text ≡ named_line name.now said.now) }
{
    format!(in alloc; "{name}: {said}\n")
}

/// The line of a fault of a file, with what is wrong in words.
pub(crate) fn fault_line(
    alloc: Global,
    options: JudgeFilesOptions<'_>,
    name: &str,
    failure: &Failure,
) -> Result<String, AllocError>
    ensures { IfOk result (λ text. IsFaultLine options.entry.json name.now failure.now.fault (string_bytes text)) }
{
    let words = words_behind(alloc, failure)?;
    let fault = failure.fault.text(alloc)?;
    if options.json {
        return fault_report(alloc, name, fault.as_str(), words.as_str());
    }
    let said = fault_said(alloc, fault.as_str(), words.as_str())?;
    named_line(alloc, name, said.as_str())
}

/// A fault, and what is wrong in words.
fn fault_said(alloc: Global, fault: &str, words: &str) -> Result<String, AllocError>
    ensures { IfOk result (λ text. string_bytes text ≡ fault_said fault.now words.now) }
{
    format!(in alloc; "{fault} ({words})")
}
