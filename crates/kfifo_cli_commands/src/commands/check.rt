//! The command `check`: whether a record has a legal order, or whether a given order of it is legal.
ghost use Rattle.std.specs.Prelude.{◌≡◌, ◌≢◌, ◌⊎◌, ◌≤◌, ℕ, List, IfOk, IfErr, MatchResult, option_map};
ghost use Rattle.std.specs.Prelude.{string_bytes};
ghost use Rattle.kfifo_judge.specs.Check.{IsCheckFault, IsChecked};
ghost use Rattle.kfifo_judge.specs.declared.outcome.Outcome.{Outcome as OutcomeData};
ghost use Rattle.kfifo_cli_commands.specs.Records.{FailsWell, IsCheck, IsCheckRefusal, IsInput, IsRecordRefusal};
ghost use Rattle.kfifo_cli_commands.specs.Records.{IsUnanswered};
ghost use Rattle.kfifo_cli_commands.specs.Statuses.{outcome_status, status_number};

use crate::failure::Failure;
use crate::input::read_input;
use crate::status::{Status, status_of};
use kfifo_cli_requests::CheckOptions;
use kfifo_cli_texts::{Fault, order_of};
use kfifo_judge::{Outcome, Source, check_text};
use std::alloc::Global;
use std::rt::Files;

/// The line for the record of the input, and the status.
pub fn answer<H: Files, S: Source>(
    alloc: Global,
    files: &H,
    options: CheckOptions<'_>,
    input: &mut S,
) -> Result<(String, Status), Failure>
    ensures ok { IfOk result (λ a. IsCheck options.entry (S.remaining input.old) (string_bytes a.0)
        (status_number a.1)) }
    ensures status { IfOk result (λ a. (a.1 ≡ Status.Answered) ⊎ (a.1 ≡ Status.Unordered)) }
    ensures err { IfErr result (λ failure. IsCheckRefusal options.entry (S.remaining input.old) (S.failed input.old)
        (S.failed input.new) failure.fault) }
    ensures silent { IfErr result (λ failure. failure.fault ≢ Fault.Output) }
    ensures reads { FailsWell result (S.failed input.old) (S.failed input.new) }
{
    let Some(text) = options.order else {
        return judge(alloc, input, options.k, None);
    };
    let order = order_of(alloc, files, text)?;
    judge(alloc, input, options.k, Some(order.as_slice()))
}

/// The line for the record of the input for this k, and the status.
fn judge<S: Source>(
    alloc: Global,
    input: &mut S,
    k: u32,
    order: Option<&[usize]>,
) -> Result<(String, Status), Failure>
    requires { (1 ≤ k) × (k ≤ 64) }
    ensures ok { let o = option_map (λ s. s.now) order.entry in
        IfOk result (λ a. (bytes : List ℕ) × (said : OutcomeData) × IsInput (S.remaining input.old) bytes
        × IsChecked k o bytes (string_bytes a.0) said × (status_number a.1 ≡ status_number (outcome_status said))) }
    ensures status { IfOk result (λ a. (a.1 ≡ Status.Answered) ⊎ (a.1 ≡ Status.Unordered)) }
    ensures err { let o = option_map (λ s. s.now) order.entry in
        IfErr result (λ failure. IsRecordRefusal (S.remaining input.old) (S.failed input.old) (S.failed input.new)
        (IsCheckFault o) failure.fault) }
    ensures silent { IfErr result (λ failure. failure.fault ≢ Fault.Output) }
    ensures reads { FailsWell result (S.failed input.old) (S.failed input.new) }
{
    let bytes = read_input(alloc, input)?;
    match said_of(alloc, bytes.as_slice(), k, order) {
        Ok((text, said)) => Ok((text, status_of(said))),
        Err(failure) => Err(failure),
    }
}

/// What is said of the record that these bytes are.
fn said_of(
    alloc: Global,
    bytes: &[u8],
    k: u32,
    order: Option<&[usize]>,
) -> Result<(String, Outcome), Failure>
    requires { (1 ≤ k) × (k ≤ 64) }
    ensures { let o = option_map (λ s. s.now) order.entry in
        MatchResult result (λ a. IsChecked k o bytes.now (string_bytes a.0) a.1)
        (λ failure. IsUnanswered bytes.now (IsCheckFault o) failure.fault) }
{
    if bytes.is_empty() {
        return Err(Failure::from(Fault::NoInput));
    }
    match check_text(alloc, bytes, k, order) {
        Ok(said) => Ok(said),
        Err(fault) => Err(Failure::of_record(alloc, bytes, fault)),
    }
}
