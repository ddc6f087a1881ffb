//! The command `import`: the record of a log in CSV.
ghost use Rattle.std.specs.Prelude.{◌≡◌, ◌≢◌, IfErr, IfOk, IsSome, string_bytes};
ghost use Rattle.kfifo_cli_commands.specs.Imports.{IsImport, IsImportRefusal};
ghost use Rattle.kfifo_cli_commands.specs.Inputs.{read_from};
ghost use Rattle.kfifo_cli_commands.specs.Records.{FailsWell};

use crate::failure::Failure;
use crate::input::read_given;
use kfifo_cli_requests::ImportOptions;
use kfifo_cli_texts::Fault;
use kfifo_import::import_text;
use kfifo_judge::Source;
use kfifo_model::record_line;
use std::alloc::Global;
use std::rt::Files;

/// The line of the record of the log in the file, or in the input where no file is named.
pub fn answer<H: Files, S: Source>(
    alloc: Global,
    files: &H,
    options: ImportOptions<'_>,
    input: &mut S,
) -> Result<String, Failure>
    ensures ok { IfOk result (λ text. IsImport (read_from options.entry.file (S.remaining input.old))
        (string_bytes text)) }
    ensures err { IfErr result (λ failure. IsImportRefusal (read_from options.entry.file (S.remaining input.old))
        (S.failed input.old) (S.failed input.new) failure.fault) }
    ensures silent { IfErr result (λ failure. failure.fault ≢ Fault.Output) }
    ensures reads { FailsWell result (S.failed input.old) (S.failed input.new) }
    ensures aside { IsSome options.entry.file → input.new ≡ input.old }
{
    let bytes = read_given(alloc, files, options.file, input)?;
    let history = match import_text(alloc, bytes.as_slice()) {
        Ok(history) => history,
        Err(refusal) => return Err(Failure::of_log(alloc, refusal)),
    };
    let text = record_line(alloc, &history)?;
    Ok(text)
}
