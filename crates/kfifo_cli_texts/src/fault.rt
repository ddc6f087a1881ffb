//! What ends a command without its answer.
ghost use Rattle.std.specs.Prelude.{◌≡◌, ◌++◌, IfOk, MatchBool, Some, codes, decimal, string_bytes};
ghost use Rattle.kfifo_cli_texts.specs.declared.fault.Fault.TheVariants.{Dispatch, Memory, Open, Replay, Shape};
ghost use Rattle.kfifo_cli_texts.specs.Faults.{at_line_text, fault_line, fault_text, import_fault_text, log_fault};
ghost use Rattle.kfifo_cli_texts.specs.Faults.{numbered, picture_fault, stream_fault};
ghost use Rattle.kfifo_cli_texts.specs.Faults as replays;
ghost use Rattle.kfifo_cli_texts.specs.Printing.{Writes, Breaks};

use crate::printing::Printer;
use kfifo_dispatch::DispatchFault;
use kfifo_draw::DrawFault;
use kfifo_import::ImportFault;
use kfifo_judge::StreamFault;
use kfifo_live::OpenFault;
use kfifo_model::{RecordFault, SearchFault};
use kfifo_replay::ReplayFault;
use kfifo_words::ShapeFault;
use std::alloc::{AllocError, AllocFailed, Global};
use std::fmt;
use std::io::Write;
use thiserror::Error;

/// Why a command ended without its answer. Its `Display` is what the line of the fault says.
#[derive(Clone, Copy, PartialEq, Eq, Debug, Error)]
#[error("{}", self.line())]
pub enum Fault {
    /// The sizes make no shape.
    Shape(ShapeFault),
    /// The word with this number, counted from 1, is unreadable or out of range.
    Word(usize),
    /// The value of `--order` is unreadable.
    Order,
    /// The value of `--picks` is unreadable, or names over 16,777,216 picks.
    Picks,
    /// A replay refused its scripts, the thread to be stopped, a pick of all those given, or memory.
    Replay(ReplayFault),
    /// The replay of a trace has over 65,536 events.
    Trace,
    /// `record` was refused its queue.
    Open(OpenFault),
    /// Tasks were not dispatched.
    Dispatch(DispatchFault),
    /// Reading failed, or over 16,777,216 bytes came.
    Input,
    /// The input has no byte.
    NoInput,
    /// The input is no JSON text, or is not UTF-8.
    NotJson,
    /// The input is no record.
    Record(RecordFault),
    /// No search for an order was made.
    Search(SearchFault),
    /// An item is repeated, so that overtakings are not counted.
    RepeatedItem,
    /// The input is no log in CSV, or one that gives no record.
    Import(ImportFault),
    /// There are more calls than a picture may have.
    TooManyDrawn,
    /// Options of `draw` contradict each other.
    Contradiction,
    /// The value of `--calls` or `--lines` is no stretch.
    Stretch,
    /// Lines of a log are to be drawn, and the input is a record.
    NoLines,
    /// There are more calls than a picture may have, and no evidence says which of them to draw.
    NoEvidence,
    /// No fault and no answer has the words that are to be explained.
    Unexplained,
    /// A growth was refused.
    Memory,
    /// Writing an answer failed. No line is printed for it.
    Output,
}

impl Fault {
    /// Writes the line of the fault, or returns false where a call failed.
    pub fn tell<F: Write>(self, faults: &mut Printer<'_, F>) -> bool
        ensures { MatchBool result (Writes F.contents faults.old (fault_line self) faults.new)
            (Breaks F.contents faults.old (fault_line self) faults.new) }
    {
        if !faults.write(b"kfifo: ") {
            return false;
        }
        if !self.line().tell(faults) {
            return false;
        }
        faults.write(b"\n")
    }

    /// What the line of the fault says, without its ends.
    pub fn text(self, alloc: Global) -> Result<String, AllocError>
        ensures { IfOk result (λ text. string_bytes text ≡ fault_text self) }
    {
        self.line().to_string(alloc)
    }

    /// What the line of the fault says.
    fn line(self) -> Line
        ensures { numbered result.words.now result.number result.before.now result.place ≡ fault_text self }
    {
        match self {
            Fault::Shape(fault) => Line::numbered("shape fault ", fault.number() as usize),
            Fault::Word(number) => Line::numbered("word fault at ", number),
            Fault::Order => Line::plain("order fault"),
            Fault::Picks => Line::plain("picks fault"),
            Fault::Replay(fault) => Line {
                words: "replay fault ",
                number: Some(fault.number() as usize),
                before: " at ",
                place: refused_pick(fault),
            },
            Fault::Trace => Line::plain("trace fault"),
            Fault::Open(fault) => Line::numbered("open fault ", fault.number() as usize),
            Fault::Dispatch(fault) => Line::numbered("dispatch fault ", fault.number() as usize),
            Fault::Input => Line::plain("input"),
            Fault::NoInput => Line::plain("no input"),
            Fault::NotJson => Line::plain("not json"),
            Fault::Record(fault) => Line {
                words: "record fault ",
                number: Some(fault.number() as usize),
                before: " at call ",
                place: fault.call(),
            },
            Fault::Search(fault) => Line::numbered("search fault ", fault.number() as usize),
            Fault::RepeatedItem => Line::plain("measure fault 2"),
            Fault::Import(fault) => log_line(fault),
            Fault::TooManyDrawn => Line::plain("draw fault 1"),
            Fault::Contradiction => Line::plain("draw fault 2"),
            Fault::Stretch => Line::plain("draw fault 3"),
            Fault::NoLines => Line::plain("draw fault 4"),
            Fault::NoEvidence => Line::plain("draw fault 5"),
            Fault::Unexplained => Line::plain("explain fault 1"),
            Fault::Memory => Line::plain("memory"),
            Fault::Output => Line::plain("output"),
        }
    }
}

/// The place of the pick that a replay refuses.
fn refused_pick(fault: ReplayFault) -> Option<usize>
    ensures { result ≡ replays.refused_pick fault }
{
    match fault {
        ReplayFault::BadPick(place) => Some(place),
        ReplayFault::Memory | ReplayFault::BadScript => None,
    }
}

/// What the line of a log's fault says.
fn log_line(fault: ImportFault) -> Line
    ensures { numbered result.words.now result.number result.before.now result.place ≡ import_fault_text fault }
{
    match fault {
        ImportFault::Csv(line) => Line::numbered("csv fault at line ", line as usize),
        ImportFault::TooMany => Line::numbered("record fault ", 2),
        ImportFault::NotACall(line) => Line::at_line(3, line),
        ImportFault::NumberOutOfRange(line) => Line::at_line(4, line),
        ImportFault::WrongAnswer(line) => Line::at_line(5, line),
        ImportFault::EndsEarly(line) => Line::at_line(6, line),
        ImportFault::Overlap(line) => Line::at_line(8, line),
        ImportFault::Memory => Line::plain("memory"),
    }
}

/// The line of a fault: words, a number behind them, and behind that the number of a call or the place of a pick, with
/// what stands before it.
#[derive(Clone, Copy)]
struct Line {
    words: &'static str,
    number: Option<usize>,
    before: &'static str,
    place: Option<usize>,
}

impl Line {
    /// Writes the line without its ends, or returns false where a call failed.
    fn tell<F: Write>(self, faults: &mut Printer<'_, F>) -> bool
        ensures { let text = numbered self.words.now self.number self.before.now self.place in MatchBool result
            (Writes F.contents faults.old text faults.new) (Breaks F.contents faults.old text faults.new) }
    {
        if !faults.write(self.words.as_bytes()) {
            return false;
        }
        if !faults.write_number("", self.number) {
            return false;
        }
        faults.write_number(self.before, self.place)
    }

    /// Words alone.
    fn plain(words: &'static str) -> Line
        ensures { numbered result.words.now result.number result.before.now result.place ≡ words.now }
    {
        Line {
            words,
            number: None,
            before: "",
            place: None,
        }
    }

    /// A fault of a record with this number, at a line of a log.
    fn at_line(number: usize, line: u64) -> Line
        ensures { numbered result.words.now result.number result.before.now result.place
            ≡ codes "record fault " ++ at_line_text number line }
    {
        Line {
            words: "record fault ",
            number: Some(number),
            before: " at line ",
            place: Some(line as usize),
        }
    }

    /// Words and a number.
    fn numbered(words: &'static str, number: usize) -> Line
        ensures { numbered result.words.now result.number result.before.now result.place ≡ words.now ++ decimal number }
    {
        Line {
            words,
            number: Some(number),
            before: "",
            place: None,
        }
    }
}

impl fmt::Display for Line {
    ghost output = { λ line. Some (numbered line.words.now line.number line.before.now line.place) };

    fn fmt<W: fmt::Write>(&self, f: &mut fmt::Formatter<W>) -> fmt::Result {
        f.write_str(self.words)?;
        if let Some(number) = self.number {
            write!(f, "{number}")?;
        }
        let before = self.before;
        match self.place {
            Some(place) => write!(f, "{before}{place}"),
            None => Ok(()),
        }
    }
}

impl From<AllocError> for Fault {
    ghost from_gives = { λ _ fault. fault ≡ Memory };

    fn from(_error: AllocError) -> Fault {
        Fault::Memory
    }
}

impl<T: Drop> From<AllocFailed<T>> for Fault {
    ghost from_gives = { λ _ fault. fault ≡ Memory };

    fn from(_error: AllocFailed<T>) -> Fault {
        Fault::Memory
    }
}

impl From<ShapeFault> for Fault {
    ghost from_gives = { λ given fault. fault ≡ Shape given };

    fn from(fault: ShapeFault) -> Fault {
        Fault::Shape(fault)
    }
}

impl From<ReplayFault> for Fault {
    ghost from_gives = { λ given fault. fault ≡ Replay given };

    fn from(fault: ReplayFault) -> Fault {
        Fault::Replay(fault)
    }
}

impl From<OpenFault> for Fault {
    ghost from_gives = { λ given fault. fault ≡ Open given };

    fn from(fault: OpenFault) -> Fault {
        Fault::Open(fault)
    }
}

impl From<DispatchFault> for Fault {
    ghost from_gives = { λ given fault. fault ≡ Dispatch given };

    fn from(fault: DispatchFault) -> Fault {
        Fault::Dispatch(fault)
    }
}

impl From<ImportFault> for Fault {
    ghost from_gives = { λ given fault. fault ≡ log_fault given };

    fn from(fault: ImportFault) -> Fault {
        match fault {
            ImportFault::Memory => Fault::Memory,
            _ => Fault::Import(fault),
        }
    }
}

impl From<DrawFault> for Fault {
    ghost from_gives = { λ given fault. fault ≡ picture_fault given };

    fn from(fault: DrawFault) -> Fault {
        match fault {
            DrawFault::TooMany => Fault::TooManyDrawn,
            DrawFault::Memory => Fault::Memory,
        }
    }
}

impl From<StreamFault> for Fault {
    ghost from_gives = { λ given fault. fault ≡ stream_fault given };

    /// The fault of a stream that is written to memory, where a failed write is a refused growth.
    fn from(fault: StreamFault) -> Fault {
        match fault {
            StreamFault::Input => Fault::Input,
            StreamFault::NotJson => Fault::NotJson,
            StreamFault::Record(fault) => Fault::Record(fault),
            StreamFault::Search(fault) => Fault::Search(fault),
            StreamFault::RepeatedItem => Fault::RepeatedItem,
            StreamFault::Memory | StreamFault::Output => Fault::Memory,
        }
    }
}
