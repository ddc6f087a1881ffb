//! Sources of bytes and sinks for them.
ghost use Rattle.std.specs.Prelude.{ℕ, ◌≡◌, ◌+◌, ◌≤◌, ◌<◌, ◌⊎◌, ◌++◌, List, Option, Some, None, length, IfOk, OnOk};
ghost use Rattle.std.specs.Prelude.{IfErr, IfSome, Err, IsTrue, false, MatchResult, MatchBool};
ghost use Rattle.std.specs.Io.{ReadsAtMost, WritesAtMost};
ghost use Rattle.std.specs.Io.KnownBytes.{Appends, Consumes, Keeps, ReadConsumes, WriteAppends};
ghost use Rattle.kfifo_judge.specs.Streams.{countable, CountsOne, CountsRead, CountsWrite, AppendsPart};
ghost use Rattle.kfifo_judge.specs.Inputs.{IsBegun, IsLongRecord};
ghost use Rattle.kfifo_judge.specs.ReadCounts.{IsReadCount};

use crate::beginning::{begins_log, is_long_record, skip_spaces};
use std::alloc::{AllocError, Global};
use std::io;
use std::io::{Read, Write};
use thiserror::Error;

/// The most bytes of an input.
pub const MAX_BYTES: usize = 16_777_216;

/// Where bytes come from.
pub trait Source {
    // The bytes that reads will give from here on, where they are known.
    ghost remaining: { Self → Option (List ℕ) };

    // How many calls of `read` returned an error so far.
    ghost failed: { Self → ℕ };

    /// As std's `Read`: the number of bytes put into the piece, 0 at the end.
    fn read(&mut self, piece: &mut [u8]) -> io::Result<usize>
        ensures bound { ReadsAtMost result piece.new }
        ensures bytes { ReadConsumes (remaining self.old) (remaining self.new) result piece.new }
        ensures failures { CountsRead result (failed self.old) (failed self.new) };

    /// Why the last call of `read` that failed did so, where that is known.
    fn reason(&self) -> Option<&io::Error>;
}

/// Where bytes go.
pub trait Sink {
    // The bytes that it holds, where they are known.
    ghost contents: { Self → Option (List ℕ) };

    // How many calls of `write` returned an error so far, or took no byte though there were some.
    ghost failed: { Self → ℕ };

    /// As std's `Write`: the number of bytes of the piece that were taken.
    fn write(&mut self, piece: &[u8]) -> io::Result<usize>
        ensures bound { WritesAtMost result piece.now }
        ensures bytes { WriteAppends (contents self.old) (contents self.new) result piece.now }
        ensures failures { CountsWrite result (length piece.now) (failed self.old) (failed self.new) };
}

/// A reader or a writer of std as a source or a sink. This reads a file whole:
///
/// ```rust
/// read_all(alloc, &mut FromStd::new(file))
/// ```
#[derive(Drop)]
pub struct FromStd<T> {
    /// The reader or the writer.
    pub inner: T,
    /// How many of its calls failed.
    pub failed: u64,
    /// Why the last of its reads that failed did so.
    pub reason: Option<io::Error>,
}

impl<T> FromStd<T> {
    /// No call has failed yet.
    pub fn new(inner: T) -> FromStd<T>
        ensures inner { result.inner ≡ inner }
        ensures failed { result.failed ≡ 0 }
    {
        FromStd {
            inner,
            failed: 0,
            reason: None,
        }
    }
}

impl<R: Read> Source for FromStd<R> {
    ghost remaining = { λ s. R.remaining s.inner };

    ghost failed = { λ s. s.failed };

    fn read(&mut self, piece: &mut [u8]) -> io::Result<usize> {
        match self.inner.read(piece) {
            Ok(count) => Ok(count),
            Err(error) => {
                self.failed = self.failed.saturating_add(1);
                let kind = error.kind();
                self.reason = Some(error);
                Err(io::Error::from(kind))
            }
        }
    }

    fn reason(&self) -> Option<&io::Error> {
        self.reason.as_ref()
    }
}

impl<W: Write> Sink for FromStd<W> {
    ghost contents = { λ s. W.contents s.inner };

    ghost failed = { λ s. s.failed };

    fn write(&mut self, piece: &[u8]) -> io::Result<usize> {
        match self.inner.write(piece) {
            Ok(count) => {
                if count == 0 && !piece.is_empty() {
                    self.failed = self.failed.saturating_add(1);
                }
                Ok(count)
            }
            Err(error) => {
                self.failed = self.failed.saturating_add(1);
                Err(error)
            }
        }
    }
}

/// Why no input was read.
#[derive(Clone, Copy, Debug, PartialEq, Eq, Error)]
pub enum ReadFault {
    /// A call of the source failed.
    #[error("reading failed")]
    Failed,
    /// Over 16,777,216 bytes came, which are allowed; of `begin_reading`, over so many of a record.
    #[error("the input is over 16,777,216 bytes")]
    TooLong,
    /// An allocation failed.
    #[error("out of memory")]
    Memory,
}

impl From<AllocError> for ReadFault {
    ghost use Rattle.kfifo_judge.specs.declared.streams.ReadFault.TheVariants.{Memory};

    ghost from_gives = { λ _ fault. fault ≡ Memory };

    fn from(_: AllocError) -> ReadFault {
        ReadFault::Memory
    }
}

/// Returns all that a source gives. Refuses: Failed where a call of the source failed, which is not made again; TooLong
/// where over 16,777,216 bytes came; Memory where an allocation failed.
pub fn read_all<R: Source>(alloc: Global, source: &mut R) -> Result<Vec<u8>, ReadFault>
    ensures read { IfOk result (λ v. IfSome (R.remaining source.old) (λ xs. xs ≡ v.items)) }
    ensures small { IfOk result (λ v. length v.items ≤ MAX_BYTES) }
    ensures too_long { result ≡ Err ReadFault.TooLong → IfSome (R.remaining source.old) (λ xs. MAX_BYTES < length xs) }
    ensures failures { MatchResult result (λ _. R.failed source.new ≡ R.failed source.old)
        (λ f. IsReadCount f (R.failed source.old) (R.failed source.new)) }
{
    let mut bytes = Vec::new(alloc);
    let mut piece = [0u8; 4096];
    'pieces: loop {
        let count = match source.read(&mut piece) {
            Ok(count) => count,
            Err(_) => return Err(ReadFault::Failed),
        };
        if count == 0 {
            return Ok(bytes);
        }
        if count > MAX_BYTES - bytes.len() {
            return Err(ReadFault::TooLong);
        }
        bytes.extend_from_slice(&piece[..count])?;
    }
}

/// What was read of an input that is a record or a log.
#[derive(Drop)]
pub enum Begun {
    /// All of it: a record in JSON, or white space alone.
    Whole(Vec<u8>),
    /// The first bytes of a log, to which further ones belong as long as the source gives some.
    Log(Vec<u8>),
}

/// Reads an input that is a record or a log: a record whole, of a log the first bytes alone. A record has at most
/// 16,777,216 bytes, a log any number.
///
/// ```rust
/// match begin_reading(alloc, source)? {
///     Begun::Whole(bytes) => parse(bytes),
///     Begun::Log(bytes) => parse_more(bytes, source),
/// }
/// ```
///
/// Refuses: Failed where a call of the source failed, which is not made again; TooLong where the input begins as a
/// record and over 16,777,216 bytes came; Memory where an allocation failed.
pub fn begin_reading<R: Source>(alloc: Global, source: &mut R) -> Result<Begun, ReadFault>
    ensures read { IfOk result (IsBegun (R.remaining source.old) (R.remaining source.new)) }
    ensures too_long { result ≡ Err ReadFault.TooLong → IfSome (R.remaining source.old) IsLongRecord }
    ensures failures { MatchResult result (λ _. R.failed source.new ≡ R.failed source.old)
        (λ f. IsReadCount f (R.failed source.old) (R.failed source.new)) }
{
    let mut bytes = Vec::new(alloc);
    let mut piece = [0u8; 4096];
    let mut spaces = 0;
    'pieces: loop {
        let Ok(count) = source.read(&mut piece) else {
            return Err(ReadFault::Failed);
        };
        if count == 0 {
            return Ok(Begun::Whole(bytes));
        }
        bytes.extend_from_slice(&piece[..count])?;
        spaces = skip_spaces(bytes.as_slice(), spaces);
        if begins_log(bytes.as_slice(), spaces) {
            return Ok(Begun::Log(bytes));
        }
        if is_long_record(bytes.as_slice(), spaces) {
            return Err(ReadFault::TooLong);
        }
    }
}

/// Writes the whole text, or returns false after a call that failed or took no byte, which is not made again.
pub fn write_all<W: Sink>(sink: &mut W, text: &[u8]) -> bool
    ensures whole { IsTrue result → Appends (W.contents sink.old) (W.contents sink.new) text.now }
    ensures beginning { result ≡ false → AppendsPart (W.contents sink.old) (W.contents sink.new) text.now }
    ensures failures { MatchBool result (W.failed sink.new ≡ W.failed sink.old)
        (CountsOne (W.failed sink.old) (W.failed sink.new)) }
{
    let mut written = 0;
    while written < text.len() {
        match sink.write(&text[written..]) {
            Ok(0) => return false,
            Ok(count) => written += count,
            Err(_) => return false,
        }
    }
    true
}
