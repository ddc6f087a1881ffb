//! The calls that the commands read, of a record or a log.
ghost use Rattle.std.specs.Prelude.{◌≡◌, ◌⊎◌, ◌++◌, [], ℕ, IfErr, IfOk, IsSome, List, MatchResult, None, OnOk, Option};
ghost use Rattle.std.specs.Prelude.{option_map};
ghost use Rattle.std.specs.Io.KnownBytes.{Consumes};
ghost use Rattle.kfifo_import.specs.Readers.{IsReading};
ghost use Rattle.kfifo_import.specs.declared.log.TheConstants.{MAX_LOG_CALLS};
ghost use Rattle.kfifo_judge.specs.Inputs.{BeginsLog};
ghost use Rattle.kfifo_cli_commands.specs.Inputs.{HasCalls, HasNoCalls, IsCalls, IsCallsRefusal, IsLogUnread};
ghost use Rattle.kfifo_cli_commands.specs.Inputs.{IsLogFault, IsNoCalls, Leaves, logged_calls, read_from};
ghost use Rattle.kfifo_cli_commands.specs.Records.{FailsWell};

use crate::failure::Failure;
use crate::input::{STANDARD_INPUT, source_failure, unread};
use crate::progress::{Progress, Stage, tell_read};
use kfifo_cli_texts::{Fault, open_file};
use kfifo_import::{LogReader, MAX_LOG_CALLS, read_log_to_judge};
use kfifo_judge::{Begun, Source, begin_reading, begins_record, read_record};
use kfifo_model::{History, LoggedCall};
use std::alloc::Global;
use std::rt::Files;

/// The calls of an input.
#[derive(Drop)]
pub(crate) struct Calls {
    /// The calls of the record, or the record of the log.
    pub(crate) history: History,
    /// For a log, where each call of the history stands in it and when it was, by its number; empty for a record in
    /// JSON.
    pub(crate) logged: Option<Vec<LoggedCall>>,
}

impl Calls {
    /// Where each call stands in its log and when it was; empty for a record in JSON.
    pub(crate) fn logged(&self) -> &[LoggedCall]
        ensures { result.now ≡ logged_calls (option_map (λ logged. logged.items) self.now.logged) }
    {
        self.logged.as_deref().unwrap_or(&[])
    }
}

/// What is said of a record that has too many bytes, where a log may have more.
const LONG_RECORD: &str =
    "is a record of over 16,777,216 bytes, which are allowed; a log may have any number";

/// The calls of the file, or of the input where no file is named: of a record of at most 16,777,216 bytes, or of a log
/// of any number. A file that cannot be read is the fault Input.
pub(crate) fn read_calls_given<H: Files, S: Source, P: Progress>(
    alloc: Global,
    files: &H,
    file: Option<&str>,
    input: &mut S,
    progress: &mut P,
) -> Result<Calls, Failure>
    ensures ok { IfOk result (λ calls. HasCalls (read_from file.entry (S.remaining input.old)) calls.history
        (option_map (λ logged. logged.items) calls.logged)) }
    ensures err { IfErr result (λ failure. IsCallsRefusal (read_from file.entry (S.remaining input.old))
        (S.failed input.old) (S.failed input.new) failure.fault) }
    ensures reads { FailsWell result (S.failed input.old) (S.failed input.new) }
    ensures aside { IsSome file.entry → input.new ≡ input.old }
{
    match file {
        Some(path) => read_calls_named(alloc, files, path, progress),
        None => read_calls(alloc, input, STANDARD_INPUT, progress),
    }
}

/// The calls of the file with this path, as `read_calls` reads them.
pub(crate) fn read_calls_named<H: Files, P: Progress>(
    alloc: Global,
    files: &H,
    path: &str,
    progress: &mut P,
) -> Result<Calls, Failure>
    ensures ok { IfOk result (λ calls. HasCalls None calls.history
        (option_map (λ logged. logged.items) calls.logged)) }
    ensures err { IfErr result (λ failure. (failure.fault ≡ Fault.Memory) ⊎ (failure.fault ≡ Fault.Input)
        ⊎ HasNoCalls None failure.fault) }
{
    match open_file(files, path) {
        Ok(mut file) => read_calls(alloc, &mut file, path, progress),
        Err(error) => Err(unread(alloc, path, Some(&error))),
    }
}

/// The calls of a source with this name. Where its first byte that is no white space is `[` it is a record in JSON,
/// read as `check` reads it and with its faults; else it is a log in CSV, read as `import` reads it and with its
/// faults, except that a get of an item that no call can put is none. An input of white space alone is a log that lacks
/// its header. One with no byte is neither: the command before it in a pipe has probably failed.
///
/// Of a log no more than the lines is kept, and of no input anything but the calls: what is made of them takes much
/// memory. A log is read up to its first line that is at fault.
fn read_calls<S: Source, P: Progress>(
    alloc: Global,
    source: &mut S,
    name: &str,
    progress: &mut P,
) -> Result<Calls, Failure>
    ensures ok { IfOk result (λ calls. HasCalls (S.remaining source.old) calls.history
        (option_map (λ logged. logged.items) calls.logged)) }
    ensures err { IfErr result (λ failure. IsCallsRefusal (S.remaining source.old) (S.failed source.old)
        (S.failed source.new) failure.fault) }
    ensures reads { FailsWell result (S.failed source.old) (S.failed source.new) }
{
    match begin_reading(alloc, source) {
        Ok(Begun::Whole(bytes)) => {
            let calls = parse_calls(alloc, bytes.as_slice())?;
            Ok(to_judge(calls, progress))
        }
        Ok(Begun::Log(bytes)) => {
            let calls = read_log(alloc, source, name, bytes.as_slice(), progress)?;
            Ok(to_judge(calls, progress))
        }
        Err(fault) => Err(source_failure(alloc, source, name, fault, LONG_RECORD)),
    }
}

/// These calls, with the progress told that they are judged now.
fn to_judge<P: Progress>(calls: Calls, progress: &mut P) -> Calls
    ensures { result ≡ calls }
{
    progress.begun(Stage::Judging(calls.history.calls().len()));
    calls
}

/// The calls of an input of these bytes.
fn parse_calls(alloc: Global, bytes: &[u8]) -> Result<Calls, Failure>
    ensures { MatchResult result (λ calls.
        IsCalls bytes.now calls.history (option_map (λ logged. logged.items) calls.logged))
        (λ failure. IsNoCalls bytes.now failure.fault) }
{
    if bytes.is_empty() {
        return Err(Failure::from(Fault::NoInput));
    }
    if begins_record(bytes) {
        return match read_record(alloc, bytes) {
            Ok(history) => Ok(Calls {
                history,
                logged: None,
            }),
            Err(fault) => Err(Failure::of_record(alloc, bytes, fault)),
        };
    }
    match read_log_to_judge(alloc, bytes) {
        Ok(log) => Ok(Calls {
            history: log.history,
            logged: Some(log.calls),
        }),
        Err(refusal) => Err(Failure::of_log(alloc, refusal)),
    }
}

/// Has the reader of a log take its next piece.
fn take_piece(alloc: Global, reader: &mut LogReader, piece: &[u8]) -> Result<(), Failure>
    requires { reader.now.most ≡ MAX_LOG_CALLS }
    ensures ok { OnOk result ((text more : List ℕ) → IsReading reader.old text (piece.now ++ more)
        → IsReading reader.new text more) }
    ensures err { IfErr result (λ failure. (text more : List ℕ) → IsReading reader.old text (piece.now ++ more)
        → IsLogFault text failure.fault) }
    ensures same { OnOk result (reader.new.most ≡ reader.old.most) }
{
    match reader.take(piece) {
        Ok(()) => Ok(()),
        Err(refusal) => Err(Failure::of_log(alloc, refusal)),
    }
}

/// A reader that has taken a log: the bytes that it begins with, and then all that the source gives.
fn feed_log<S: Source, P: Progress>(
    alloc: Global,
    source: &mut S,
    name: &str,
    start: &[u8],
    progress: &mut P,
) -> Result<LogReader, Failure>
    ensures ok { IfOk result (λ reader. (rest : List ℕ) × Leaves (S.remaining source.old) rest
        × IsReading reader (start.now ++ rest) []) }
    ensures most { IfOk result (λ reader. reader.most ≡ MAX_LOG_CALLS) }
    ensures err { IfErr result (λ failure. IsLogUnread start.now (S.remaining source.old) (S.failed source.old)
        (S.failed source.new) failure.fault) }
    ensures reads { FailsWell result (S.failed source.old) (S.failed source.new) }
{
    let mut reader = LogReader::new(alloc, MAX_LOG_CALLS);
    take_piece(alloc, &mut reader, start)?;
    let mut read = start.len() as u64;
    let mut piece = [0u8; 4096];
    // What a source still has is not known, so the loop needs a bound, to which no log comes.
    'pieces: for _ in 0..u64::MAX {
        let Ok(count) = source.read(&mut piece) else {
            return Err(unread(alloc, name, source.reason()));
        };
        if count == 0 {
            return Ok(reader);
        }
        take_piece(alloc, &mut reader, &piece[..count])?;
        read = tell_read(progress, read, count);
    }
    Err(Failure::from(Fault::Memory))
}

/// The calls of a log: of the bytes that it begins with, and then of all that the source gives.
fn read_log<S: Source, P: Progress>(
    alloc: Global,
    source: &mut S,
    name: &str,
    start: &[u8],
    progress: &mut P,
) -> Result<Calls, Failure>
    requires { BeginsLog start.now }
    ensures read { (before : Option (List ℕ)) → Consumes before (S.remaining source.old) start.now
        → MatchResult result
        (λ calls. HasCalls before calls.history (option_map (λ logged. logged.items) calls.logged))
        (λ failure. IsCallsRefusal before (S.failed source.old) (S.failed source.new) failure.fault) }
    ensures reads { FailsWell result (S.failed source.old) (S.failed source.new) }
{
    let reader = feed_log(alloc, source, name, start, progress)?;
    match reader.log_to_judge() {
        Ok(log) => Ok(Calls {
            history: log.history,
            logged: Some(log.calls),
        }),
        Err(refusal) => Err(Failure::of_log(alloc, refusal)),
    }
}
