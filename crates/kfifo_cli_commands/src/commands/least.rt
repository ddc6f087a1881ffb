//! The command `least`: between which bounds the least k of a history lies.
ghost use Rattle.std.specs.Prelude.{◌≡◌, ◌≢◌, ◌⊎◌, IfErr, IfOk, IsSome, option_map, string_bytes};
ghost use Rattle.kfifo_cli_commands.specs.Inputs.{IsCallsRefusal, logged_calls, read_from};
ghost use Rattle.kfifo_cli_commands.specs.Records.{FailsWell};
ghost use Rattle.kfifo_cli_commands.specs.Statuses.{outcome_status, status_number};
ghost use Rattle.kfifo_judge.specs.Bounds.{IsLeastAnswer};
ghost use Rattle.kfifo_judge.specs.declared.outcome.Outcome.{Outcome as OutcomeData};
ghost use Rattle.kfifo_cli_commands.specs.Verdicts.{IsLeast};

use crate::calls::{Calls, read_calls_given};
use crate::failure::Failure;
use crate::progress::Progress;
use crate::status::{Status, status_of};
use kfifo_cli_requests::LeastOptions;
use kfifo_cli_texts::Fault;
use kfifo_judge::{Source, least_text};
use std::alloc::{AllocError, Global};
use std::rt::Files;

/// The lines for the calls of the file, or of the input where no file is named, and the status.
pub fn answer<H: Files, S: Source, P: Progress>(
    alloc: Global,
    files: &H,
    options: LeastOptions<'_>,
    input: &mut S,
    progress: &mut P,
) -> Result<(String, Status), Failure>
    ensures ok { IfOk result (λ a. IsLeast (read_from options.entry.file (S.remaining input.old)) (string_bytes a.0)
        (status_number a.1)) }
    ensures status { IfOk result (λ a. (a.1 ≡ Status.Answered) ⊎ (a.1 ≡ Status.Unordered)) }
    ensures err { IfErr result (λ failure. IsCallsRefusal (read_from options.entry.file (S.remaining input.old))
        (S.failed input.old) (S.failed input.new) failure.fault) }
    ensures silent { IfErr result (λ failure. failure.fault ≢ Fault.Output) }
    ensures reads { FailsWell result (S.failed input.old) (S.failed input.new) }
    ensures aside { IsSome options.entry.file → input.new ≡ input.old }
{
    let calls = read_calls_given(alloc, files, options.file, input, progress)?;
    let (text, status) = text_of(alloc, options, &calls)?;
    Ok((text, status))
}

/// The lines for these calls of an input, and the status.
fn text_of(
    alloc: Global,
    options: LeastOptions<'_>,
    calls: &Calls,
) -> Result<(String, Status), AllocError>
    ensures said { IfOk result (λ a. (said : OutcomeData) × (status_number a.1 ≡ status_number (outcome_status said))
        × IsLeastAnswer (logged_calls (option_map (λ logged. logged.items) calls.now.logged)) calls.now.history
        (string_bytes a.0) said) }
    ensures status { IfOk result (λ a. (a.1 ≡ Status.Answered) ⊎ (a.1 ≡ Status.Unordered)) }
{
    let tries = options.tries;
    let (text, said) = least_text(alloc, &calls.history, calls.logged(), tries)?;
    Ok((text, status_of(said)))
}
