//! The command `measure`: how often each item of a record was certainly overtaken.
ghost use Rattle.std.specs.Prelude.{◌≡◌, ◌≢◌, IfOk, IfErr, MatchResult, string_bytes};
ghost use Rattle.kfifo_judge.specs.Measure.{IsMeasured, IsMeasuringFault};
ghost use Rattle.kfifo_cli_commands.specs.Records.{FailsWell, IsMeasure, IsMeasureRefusal, IsUnanswered};

use crate::failure::Failure;
use crate::input::read_input;
use kfifo_cli_texts::Fault;
use kfifo_judge::{Source, measure_text};
use std::alloc::Global;

/// The lines for the record of the input.
pub fn answer<S: Source>(alloc: Global, input: &mut S) -> Result<String, Failure>
    ensures ok { IfOk result (λ text. IsMeasure (S.remaining input.old) (string_bytes text)) }
    ensures err { IfErr result (λ failure. IsMeasureRefusal (S.remaining input.old) (S.failed input.old)
        (S.failed input.new) failure.fault) }
    ensures silent { IfErr result (λ failure. failure.fault ≢ Fault.Output) }
    ensures reads { FailsWell result (S.failed input.old) (S.failed input.new) }
{
    let bytes = read_input(alloc, input)?;
    let text = text_of(alloc, bytes.as_slice())?;
    Ok(text)
}

/// The lines for the record that these bytes are.
fn text_of(alloc: Global, bytes: &[u8]) -> Result<String, Failure>
    ensures { MatchResult result (λ text. IsMeasured bytes.now (string_bytes text))
        (λ failure. IsUnanswered bytes.now IsMeasuringFault failure.fault) }
{
    if bytes.is_empty() {
        return Err(Failure::from(Fault::NoInput));
    }
    match measure_text(alloc, bytes) {
        Ok(text) => Ok(text),
        Err(fault) => Err(Failure::of_record(alloc, bytes, fault)),
    }
}
