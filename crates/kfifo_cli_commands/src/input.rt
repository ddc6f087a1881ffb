//! What the commands read.
ghost use Rattle.std.specs.Prelude.{◌≡◌, ◌⊎◌, IfErr, IfOk, IsSome};
ghost use Rattle.kfifo_cli_commands.specs.Inputs.{read_from};
ghost use Rattle.kfifo_cli_commands.specs.Records.{FailsWell, IsInput, IsUnread, input_fault};

use crate::failure::Failure;
use kfifo_cli_texts::{Fault, FileFault, read_file};
use kfifo_judge::{ReadFault, Source, read_all};
use std::alloc::Global;
use std::io;
use std::rt::Files;

/// How standard input is called.
pub(crate) const STANDARD_INPUT: &str = "standard input";

/// What is said of an input that has too many bytes.
const TOO_LONG: &str = "has over 16,777,216 bytes, which are allowed";

/// The failure of a reading of standard input or a file with this name, which the system refused for this reason.
pub(crate) fn unread(alloc: Global, name: &str, reason: Option<&io::Error>) -> Failure
    ensures { result.fault ≡ Fault.Input }
{
    let words = match reason {
        Some(reason) => format!(in alloc; "{name} cannot be read: {reason}").ok(),
        None => format!(in alloc; "{name} cannot be read").ok(),
    };
    Failure::from(Fault::Input).with_words(words)
}

/// The failure of an input with this name that is too long.
fn too_long(alloc: Global, name: &str, why: &str) -> Failure
    ensures { result.fault ≡ Fault.Input }
{
    let words = format!(in alloc; "{name} {why}").ok();
    Failure::from(Fault::Input).with_words(words)
}

/// The failure of a source with this name, of which so much is too long.
pub(crate) fn source_failure<S: Source>(
    alloc: Global,
    source: &S,
    name: &str,
    fault: ReadFault,
    long: &str,
) -> Failure
    ensures { result.fault ≡ input_fault fault }
{
    match fault {
        ReadFault::Failed => unread(alloc, name, source.reason()),
        ReadFault::TooLong => too_long(alloc, name, long),
        ReadFault::Memory => Failure::from(Fault::Memory),
    }
}

/// The failure of the file with this path.
fn file_failure(alloc: Global, path: &str, fault: FileFault) -> Failure
    ensures { (result.fault ≡ Fault.Memory) ⊎ (result.fault ≡ Fault.Input) }
{
    match fault {
        FileFault::Failed(reason) => unread(alloc, path, reason.as_ref()),
        FileFault::TooLong => too_long(alloc, path, TOO_LONG),
        FileFault::Memory => Failure::from(Fault::Memory),
    }
}

/// All bytes of the input, at most 16,777,216.
pub fn read_input<S: Source>(alloc: Global, input: &mut S) -> Result<Vec<u8>, Failure>
    ensures ok { IfOk result (λ bytes. IsInput (S.remaining input.old) bytes.items) }
    ensures err { IfErr result (λ failure. (failure.fault ≡ Fault.Memory) ⊎ ((failure.fault ≡ Fault.Input)
        × IsUnread (S.remaining input.old) (S.failed input.old) (S.failed input.new))) }
    ensures reads { FailsWell result (S.failed input.old) (S.failed input.new) }
{
    match read_all(alloc, input) {
        Ok(bytes) => Ok(bytes),
        Err(fault) => Err(source_failure(alloc, input, STANDARD_INPUT, fault, TOO_LONG)),
    }
}

/// All bytes of the file, or of the input where no file is named, at most 16,777,216. A file that cannot be read is the
/// fault Input.
pub fn read_given<H: Files, S: Source>(
    alloc: Global,
    files: &H,
    file: Option<&str>,
    input: &mut S,
) -> Result<Vec<u8>, Failure>
    ensures ok { IfOk result (λ bytes. IsInput (read_from file.entry (S.remaining input.old)) bytes.items) }
    ensures err { IfErr result (λ failure. (failure.fault ≡ Fault.Memory) ⊎ ((failure.fault ≡ Fault.Input)
        × IsUnread (read_from file.entry (S.remaining input.old)) (S.failed input.old) (S.failed input.new))) }
    ensures reads { FailsWell result (S.failed input.old) (S.failed input.new) }
    ensures aside { IsSome file.entry → input.new ≡ input.old }
{
    let Some(path) = file else {
        return read_input(alloc, input);
    };
    match read_file(alloc, files, path) {
        Ok(bytes) => Ok(bytes),
        Err(fault) => Err(file_failure(alloc, path, fault)),
    }
}
