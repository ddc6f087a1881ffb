//! How a program is started: with its arguments and the standard streams.
ghost use Rattle.std.specs.Prelude.{◌≡◌, ◌⊎◌};
ghost use Rattle.kfifo_cli_texts.specs.Faults.{fault_line};
ghost use Rattle.kfifo_cli_texts.specs.Printing.{OnPrinter, Tells};

use crate::ending::end_with_fault;
use crate::progress::{Notes, Progress, Stage};
use crate::status::Status;
use kfifo_cli_texts::{Fault, Printer};
use std::env;
use std::io::{self, ErrorKind, IsTerminal, Read, Write};
use std::rt::{Env, Stderr, Stdin, Stdout};
use std::time::{Clock, Instant};

const NO_TEXT: &str = "error: invalid UTF-8 was detected in one or more arguments\n";

/// Erases the line of the progress.
const BLANKS: &str = "\r                                \r";

const HINT: &str = "reading from the terminal: end the input by Ctrl-D on a line of its own\n";

/// What a program is started with.
#[derive(Drop)]
pub struct Started<'a> {
    /// The arguments after the program's name.
    pub words: Vec<String>,
    /// Standard input. Before the first read from a terminal a hint is written to standard error.
    pub input: Prompting<Stdin, Stderr>,
    /// Standard output.
    pub output: Stdout,
    /// Standard error.
    pub faults: Stderr,
    /// Shows on standard error how far work of over a second has come, if that is a terminal, and what is wrong where
    /// there is a fault.
    pub progress: ProgressLine<'a, HostRuntime, Stderr>,
}

/// Returns what this process was started with. If an argument is not UTF-8, or memory runs out for the arguments, it
/// says so and returns the exit status.
pub fn start(streams: &HostRuntime) -> Result<Started<'_>, u8> {
    let mut faults = streams.stderr();
    let words = match arguments(streams) {
        Ok(words) => words,
        Err(error) => return Err(end_without_words(&error, &mut Printer::new(&mut faults))),
    };
    let reader = streams.stdin();
    let hint = reader.is_terminal().then_some(streams.stderr());
    let screen = streams.stderr();
    let screen = screen.is_terminal().then_some(screen);
    Ok(Started {
        words,
        input: Prompting::new(reader, hint),
        output: streams.stdout(),
        faults,
        progress: ProgressLine::new(
            streams,
            Instant::now(streams).ok(),
            screen,
            streams.stderr(),
        ),
    })
}

/// The arguments after the program's name.
fn arguments<R: Env + AllocGlobal>(rt: &R) -> io::Result<Vec<String>> {
    let mut words = Vec::new(rt.alloc());
    for word in env::args(rt)?.skip(1) {
        words.push(word)?;
    }
    Ok(words)
}

/// Ends the program where the arguments could not be read: one is not UTF-8, or memory is short.
fn end_without_words<F: Write>(error: &io::Error, faults: &mut Printer<'_, F>) -> u8
    ensures { ((result ≡ 1) × Tells (OnPrinter F.contents faults.old faults.new) (fault_line Fault.Memory))
        ⊎ ((result ≡ 2) × Tells (OnPrinter F.contents faults.old faults.new) NO_TEXT.now) }
{
    if error.kind() == ErrorKind::OutOfMemory {
        return end_with_fault(Fault::Memory, faults).number();
    }
    faults.write(NO_TEXT.as_bytes());
    Status::Misused.number()
}

/// A reader that says before its first read that it waits, where a hint is to be written.
#[derive(Drop)]
pub struct Prompting<R, W> {
    reader: R,
    hint: Option<W>,
}

impl<R, W> Prompting<R, W> {
    /// The hint is written before the first read, where there is something to write it on.
    pub fn new(reader: R, hint: Option<W>) -> Prompting<R, W> {
        Prompting { reader, hint }
    }
}

impl<R: Read, W: Write + Drop> Read for Prompting<R, W> {
    ghost remaining = { λ prompting. R.remaining prompting.reader };

    fn read(&mut self, piece: &mut [u8]) -> io::Result<usize> {
        if let Some(mut faults) = self.hint.take() {
            // A hint that cannot be written changes nothing.
            let _ = faults.write_all(HINT.as_bytes());
        }
        self.reader.read(piece)
    }
}

/// Shows how far work has come, on a line of its own that is written anew each time, where there is a screen and a
/// second has gone by. Behind the line of a fault it says what is wrong, in words.
#[derive(Drop)]
pub struct ProgressLine<'a, C, W> {
    clock: &'a C,
    begun: Option<Instant>,
    screen: Option<W>,
    notes: W,
    shown: bool,
}

impl<'a, C: Clock, W: Write> ProgressLine<'a, C, W> {
    /// For work that began then. If the clock could not tell when, no progress is shown. What is wrong goes to the
    /// notes.
    pub fn new(
        clock: &'a C,
        begun: Option<Instant>,
        screen: Option<W>,
        notes: W,
    ) -> ProgressLine<'a, C, W> {
        ProgressLine {
            clock,
            begun,
            screen,
            notes,
            shown: false,
        }
    }

    /// Whether a second has gone by. Where the clock cannot be read, none has.
    fn is_due(&self) -> bool {
        let Some(begun) = self.begun else {
            return false;
        };
        match begun.elapsed(self.clock) {
            Ok(time) => time.as_secs() >= 1,
            Err(_) => false,
        }
    }
}

impl<C: Clock, W: Write> Progress for ProgressLine<'_, C, W> {
    fn told(&mut self, made: u64, all: u64) {
        if !self.is_due() {
            return;
        }
        if let Some(screen) = &mut self.screen {
            let percent = made.saturating_mul(100) / all.max(1);
            // A line that cannot be written changes nothing.
            let _ = write!(screen, "\rkfifo: {percent} %");
            self.shown = true;
        }
    }

    fn begun(&mut self, stage: Stage) {
        if !stage.is_long() {
            return;
        }
        self.ended();
        if let Some(screen) = &mut self.screen {
            // A line that cannot be written changes nothing.
            let _ = match stage {
                Stage::Reading(bytes) => {
                    let size = bytes / 1_000_000;
                    write!(screen, "\rkfifo: read {size} MB")
                }
                Stage::Judging(calls) => write!(screen, "\rkfifo: judging {calls} calls"),
            };
            self.shown = true;
        }
    }

    fn ended(&mut self) {
        if !self.shown {
            return;
        }
        if let Some(screen) = &mut self.screen {
            let _ = screen.write_all(BLANKS.as_bytes());
            self.shown = false;
        }
    }
}

impl<C: Clock, W: Write> Notes for ProgressLine<'_, C, W> {
    fn explained(&mut self, lines: &str) {
        // Lines that cannot be written change nothing.
        let _ = self.notes.write_all(lines.as_bytes());
    }
}
