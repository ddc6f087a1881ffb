//! The command `judge`: a verdict on a history of any length.
ghost use Rattle.std.specs.Prelude.{◌≡◌, ◌≢◌, ◌⊎◌, IfErr, IfOk, IsSome, option_map, string_bytes};
ghost use Rattle.kfifo_cli_commands.specs.Inputs.{IsCallsRefusal, logged_calls, read_from};
ghost use Rattle.kfifo_cli_commands.specs.Records.{FailsWell};
ghost use Rattle.kfifo_cli_commands.specs.Statuses.{outcome_status, status_number};
ghost use Rattle.kfifo_judge.specs.declared.outcome.Outcome.{Outcome as OutcomeData};
ghost use Rattle.kfifo_cli_commands.specs.Verdicts.{IsJudge, IsVerdict};

use crate::calls::{Calls, read_calls_given};
use crate::failure::Failure;
use crate::progress::Progress;
use crate::status::{Status, status_of};
use kfifo_cli_requests::JudgeOptions;
use kfifo_cli_texts::Fault;
use kfifo_judge::{Outcome, Source, judge_report, judge_text};
use kfifo_model::{History, LoggedCall};
use std::alloc::{AllocError, Global};
use std::rt::Files;

/// The lines for the calls of the file, or of the input where no file is named, and the status.
pub fn answer<H: Files, S: Source, P: Progress>(
    alloc: Global,
    files: &H,
    options: JudgeOptions<'_>,
    input: &mut S,
    progress: &mut P,
) -> Result<(String, Status), Failure>
    ensures ok { IfOk result (λ a. IsJudge options.entry (read_from options.entry.file (S.remaining input.old))
        (string_bytes a.0) (status_number a.1)) }
    ensures status { IfOk result (λ a. (a.1 ≡ Status.Answered) ⊎ (a.1 ≡ Status.Unordered) ⊎ (a.1 ≡ Status.Undecided)) }
    ensures err { IfErr result (λ failure. IsCallsRefusal (read_from options.entry.file (S.remaining input.old))
        (S.failed input.old) (S.failed input.new) failure.fault) }
    ensures silent { IfErr result (λ failure. failure.fault ≢ Fault.Output) }
    ensures reads { FailsWell result (S.failed input.old) (S.failed input.new) }
    ensures aside { IsSome options.entry.file → input.new ≡ input.old }
{
    let calls = read_calls_given(alloc, files, options.file, input, progress)?;
    let (text, status) = text_of(alloc, options, &calls)?;
    Ok((text, status))
}

/// The lines for these calls of an input, and the status.
fn text_of(
    alloc: Global,
    options: JudgeOptions<'_>,
    calls: &Calls,
) -> Result<(String, Status), AllocError>
    ensures said { IfOk result (λ a. (said : OutcomeData) × (status_number a.1 ≡ status_number (outcome_status said))
        × IsVerdict options.entry (logged_calls (option_map (λ logged. logged.items) calls.now.logged))
        calls.now.history (string_bytes a.0) said) }
    ensures status { IfOk result (λ a. (a.1 ≡ Status.Answered) ⊎ (a.1 ≡ Status.Unordered) ⊎ (a.1 ≡ Status.Undecided)) }
{
    let (text, said) = verdict_on(alloc, options, &calls.history, calls.logged())?;
    Ok((text, status_of(said)))
}

/// The lines for these calls, or the object.
fn verdict_on(
    alloc: Global,
    options: JudgeOptions<'_>,
    history: &History,
    logged: &[LoggedCall],
) -> Result<(String, Outcome), AllocError>
    ensures { IfOk result (λ a. IsVerdict options.entry logged.now history.now (string_bytes a.0) a.1) }
{
    let (k, tries, show) = (options.k, options.tries, options.show);
    if options.json {
        judge_report(alloc, options.file, history, logged, k, tries, show)
    } else {
        judge_text(alloc, history, logged, k, tries, show)
    }
}
