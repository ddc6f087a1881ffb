//! How the program writes, and what is counted as a failure there.
ghost use Rattle.std.specs.Prelude.{◌≡◌, IfErr, MatchBool, OnErr, OnOk, false};
ghost use Rattle.kfifo_judge.specs.Streams.{CountsOne};
ghost use Rattle.kfifo_cli_texts.specs.Faults.{number_text};
ghost use Rattle.kfifo_cli_texts.specs.Printing.{Writes, Breaks};

use crate::fault::Fault;
use itoa::Buffer;
use std::io::{ErrorKind, Write};

/// A writer of std that was lent, with a count of its calls that failed: those that returned an error other than an
/// interruption, or took no byte though there were some. A flush counts as a call.
#[derive(Drop)]
pub struct Printer<'a, W> {
    writer: &'a mut W,
    failed: u64,
}

impl<'a, W: Write> Printer<'a, W> {
    /// No call has failed yet.
    pub fn new(writer: &'a mut W) -> Printer<'a, W>
        ensures same { result.writer.ghost_name ≡ writer.entry.ghost_name }
        ensures held { result.writer.now ≡ writer.old }
        ensures failed { result.failed ≡ 0 }
    {
        Printer { writer, failed: 0 }
    }

    /// Writes the whole text, or returns false after a call that failed, which is not made again. An interrupted call
    /// took nothing, and is made again.
    pub fn write(&mut self, text: &[u8]) -> bool
        ensures { MatchBool result (Writes W.contents self.old text.now self.new)
            (Breaks W.contents self.old text.now self.new) }
    {
        let mut written = 0;
        for _ in 0..u64::MAX {
            if written == text.len() {
                return true;
            }
            match self.writer.write(&text[written..]) {
                Ok(0) => return self.fail(),
                Ok(count) => written += count,
                Err(error) => {
                    if error.kind() != ErrorKind::Interrupted {
                        return self.fail();
                    }
                }
            }
        }
        self.fail()
    }

    /// Writes a number behind a text, or nothing where there is none. Returns false where a call failed.
    pub fn write_number(&mut self, before: &str, number: Option<usize>) -> bool
        ensures { MatchBool result (Writes W.contents self.old (number_text before.now number) self.new)
            (Breaks W.contents self.old (number_text before.now number) self.new) }
    {
        let Some(number) = number else {
            return true;
        };
        let mut digits = Buffer::new();
        let text = digits.format(number);
        if !self.write(before.as_bytes()) {
            return false;
        }
        self.write(text.as_bytes())
    }

    /// Writes the text of an answer, and sees that it leaves the writer.
    pub fn print(&mut self, text: &[u8]) -> Result<(), Fault>
        ensures ok { OnOk result (Writes W.contents self.old text.now self.new) }
        ensures err { OnErr result (Breaks W.contents self.old text.now self.new) }
        ensures fault { IfErr result (λ fault. fault ≡ Fault.Output) }
    {
        if !self.write(text) {
            return Err(Fault::Output);
        }
        match self.writer.flush() {
            Ok(()) => Ok(()),
            Err(_) => {
                self.fail();
                Err(Fault::Output)
            }
        }
    }

    /// Counts a call that failed.
    fn fail(&mut self) -> bool
        ensures answer { result ≡ false }
        ensures counted { CountsOne self.old.failed self.new.failed }
        ensures held { self.new.writer.now ≡ self.old.writer.now }
        ensures same { self.new.writer.ghost_name ≡ self.old.writer.ghost_name }
    {
        self.failed = self.failed.saturating_add(1);
        false
    }
}
