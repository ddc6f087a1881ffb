//! Logs that come in pieces.
ghost use Rattle.std.specs.Prelude.{◌≡◌, ◌≢◌, ◌⊎◌, ◌++◌, ◌≤◌, [], ℕ, IfErr, IfOk, List, MatchBool, None, OnOk, Some};
ghost use Rattle.std.specs.Prelude.{MatchResult, length};
ghost use Rattle.csv.specs.Reading.{strip_bom};
ghost use Rattle.kfifo_import.specs.Foreign.{IsJudgedLog, IsUnjudged};
ghost use Rattle.kfifo_import.specs.Readers.{HasReadAll, IsReading, Reads, Refuses};
ghost use Rattle.kfifo_import.specs.Spots.{IsOpen};
ghost use Rattle.kfifo_import.specs.Tables.{ReadsLog};
ghost use Rattle.kfifo_import.specs.declared.walk.Spot.TheVariants as spots;

use crate::cause::{Cause, Oddity};
use crate::foreign::judged_told;
use crate::log::{ImportFault, Line, Log, MAX_LOG_CALLS};
use crate::table::Table;
use crate::walk::{RowReader, without_mark};
use crate::wrong::Refusal;
use std::alloc::Global;

/// Whether a row with so many fields is as wide as a row must be.
fn fits(width: Option<usize>, found: usize) -> bool
    ensures { MatchBool result ((wide : ℕ) → width ≡ Some wide → found ≡ wide)
        ((wide : ℕ) × (width ≡ Some wide) × (found ≢ wide)) }
{
    match width {
        Some(wide) => found == wide,
        None => true,
    }
}

/// Reads a log in CSV, as `read_log` describes it, that comes in pieces of any size.
///
/// ```rust
/// let mut reader = LogReader::new(alloc, MAX_LOG_CALLS);
/// reader.take(first)?;
/// reader.take(second)?;
/// let log = reader.log_to_judge()?;
/// ```
///
/// The log is all pieces, one after the other. What is said of a piece holds whatever comes after it. A fault may be
/// told at a later piece than the one that it stands in. Nothing is said of a reader that has refused a piece.
#[derive(Drop)]
pub struct LogReader {
    alloc: Global,
    /// The first bytes, until it is known whether they are a byte order mark.
    head: Option<Vec<u8>>,
    /// The row at hand.
    row: RowReader,
    /// The rows before it.
    table: Table,
    /// How many fields each row has, once the header was read.
    width: Option<usize>,
    /// How many lines there may be.
    most: usize,
}

impl LogReader {
    /// Returns a reader that has taken nothing, of a log of at most `most` lines below its header. `alloc` makes room
    /// for the lines.
    pub fn new(alloc: Global, most: usize) -> LogReader
        ensures reads { (text : List ℕ) → IsReading result text text }
        ensures most { result.most ≡ most }
    {
        LogReader {
            alloc,
            head: Some(Vec::new(alloc)),
            row: RowReader::new(alloc),
            table: Table::new(alloc),
            width: None,
            most,
        }
    }

    /// The same, of a text without a byte order mark.
    pub(crate) fn plain(alloc: Global, most: usize) -> LogReader
        ensures reads { (text : List ℕ) → Reads result text text }
        ensures most { result.most ≡ most }
        ensures none { result.head ≡ None }
    {
        LogReader {
            alloc,
            head: None,
            row: RowReader::new(alloc),
            table: Table::new(alloc),
            width: None,
            most,
        }
    }

    /// Takes in the row that has ended.
    fn close(&mut self) -> Result<(), Refusal>
        requires { self.now.row.spot ≡ spots.Over }
        ensures ok { OnOk result ((text left : List ℕ) → Reads self.old text left → Reads self.new text left) }
        ensures err { IfErr result (λ refusal. (text left : List ℕ) → Reads self.old text left
            → Refuses self.old.most text refusal) }
        ensures same { OnOk result ((self.new.most ≡ self.old.most) × (self.new.head ≡ self.old.head)) }
        ensures between { OnOk result (self.new.row.spot ≡ spots.Row) }
    {
        let front = self.row.front();
        let found = self.row.row().len();
        if !fits(self.width, found) {
            let cause = self.width.map(|wide| Cause::Width(found, wide));
            return Err(Refusal::from(ImportFault::Csv(front)).with_cause(cause));
        }
        self.table
            .take(self.alloc, self.row.row(), front, self.most)?;
        self.width = Some(found);
        self.row.go_on();
        Ok(())
    }

    /// Takes in the row at hand if it has ended.
    fn close_ended(&mut self) -> Result<(), Refusal>
        ensures ok { OnOk result ((text left : List ℕ) → Reads self.old text left → Reads self.new text left) }
        ensures err { IfErr result (λ refusal. (self.old.row.spot ≡ spots.Over)
            × ((text left : List ℕ) → Reads self.old text left → Refuses self.old.most text refusal)) }
        ensures same { OnOk result ((self.new.most ≡ self.old.most) × (self.new.head ≡ self.old.head)) }
        ensures ended { OnOk result (((self.new ≡ self.old) × IsOpen self.old.row)
            ⊎ ((self.old.row.spot ≡ spots.Over) × (self.new.row.spot ≡ spots.Row))) }
    {
        if self.row.is_over() {
            return self.close();
        }
        Ok(())
    }

    /// Takes in a piece of the text behind a byte order mark.
    pub(crate) fn feed(&mut self, text: &[u8]) -> Result<(), Refusal>
        ensures ok { OnOk result ((whole more : List ℕ) → Reads self.old whole (text.now ++ more)
            → Reads self.new whole more) }
        ensures err { IfErr result (λ refusal. (whole more : List ℕ) → Reads self.old whole (text.now ++ more)
            → Refuses self.old.most whole refusal) }
        ensures same { OnOk result ((self.new.most ≡ self.old.most) × (self.new.head ≡ self.old.head)) }
    {
        let mut at = 0;
        while at < text.len() {
            self.close_ended()?;
            at = self.row.take(text, at)?;
        }
        Ok(())
    }

    /// Takes in the next piece behind the bytes that were held back.
    fn take_head(&mut self, mut head: Vec<u8>, piece: &[u8]) -> Result<(), Refusal>
        requires { self.now.head ≡ None }
        ensures ok { OnOk result ((text more : List ℕ) → text ≡ head.items ++ (piece.now ++ more)
            → ((any : List ℕ) → Reads self.old any any) → IsReading self.new text more) }
        ensures err { IfErr result (λ refusal. (text more : List ℕ) → text ≡ head.items ++ (piece.now ++ more)
            → ((any : List ℕ) → Reads self.old any any) → Refuses self.old.most (strip_bom text) refusal) }
        ensures same { OnOk result (self.new.most ≡ self.old.most) }
    {
        head.extend_from_slice(piece)?;
        if head.len() < 3 {
            self.head = Some(head);
            return Ok(());
        }
        self.feed(without_mark(head.as_slice()))
    }

    /// Takes in the next piece of the log. Of its text the reader keeps only the row that has not been taken in.
    ///
    /// Refused is what a line itself has wrong, as `lines_of` refuses it; also Memory after 2^64 - 2 lines.
    pub fn take(&mut self, piece: &[u8]) -> Result<(), Refusal>
        ensures ok { OnOk result ((text more : List ℕ) → IsReading self.old text (piece.now ++ more)
            → IsReading self.new text more) }
        ensures err { IfErr result (λ refusal. (text more : List ℕ) → IsReading self.old text (piece.now ++ more)
            → Refuses self.old.most (strip_bom text) refusal) }
        ensures same { OnOk result (self.new.most ≡ self.old.most) }
    {
        match self.head.take() {
            Some(head) => self.take_head(head, piece),
            None => self.feed(piece),
        }
    }

    /// Takes in the bytes that were held back, where no more comes: they are no byte order mark.
    fn flush(&mut self) -> Result<(), Refusal>
        ensures ok { OnOk result ((text : List ℕ) → IsReading self.old text [] → Reads self.new (strip_bom text) []) }
        ensures err { IfErr result (λ refusal. (text : List ℕ) → IsReading self.old text []
            → Refuses self.old.most (strip_bom text) refusal) }
        ensures same { OnOk result (self.new.most ≡ self.old.most) }
    {
        match self.head.take() {
            Some(head) => self.feed(head.as_slice()),
            None => Ok(()),
        }
    }

    /// Takes in the last rows, where no more comes.
    fn last(&mut self) -> Result<(), Refusal>
        ensures ok { OnOk result ((text : List ℕ) → Reads self.old text [] → HasReadAll self.new text) }
        ensures err { IfErr result (λ refusal. (text : List ℕ) → Reads self.old text []
            → Refuses self.old.most text refusal) }
        ensures same { OnOk result (self.new.most ≡ self.old.most) }
    {
        self.close_ended()?;
        self.row.end()?;
        self.close_ended()
    }

    /// The lines of the log, as `finish` gives them, and what was kept of their text.
    pub(crate) fn ended(mut self) -> Result<(Vec<Line>, Option<Oddity>), Refusal>
        ensures ok { IfOk result (λ both. (text : List ℕ) → IsReading self text [] → ReadsLog text both.0.items
            × (length both.0.items ≤ self.most)) }
        ensures err { IfErr result (λ refusal. (text : List ℕ) → IsReading self text []
            → Refuses self.most (strip_bom text) refusal) }
    {
        self.flush()?;
        self.last()?;
        self.table.into_lines()
    }

    /// Returns the lines of the log, each with its call, in their order: all pieces have come.
    ///
    /// Refused is what a line itself has wrong and was not refused before, and a log without a header.
    pub fn finish(self) -> Result<Vec<Line>, Refusal>
        ensures ok { IfOk result (λ lines. (text : List ℕ) → IsReading self text [] → ReadsLog text lines.items
            × (length lines.items ≤ self.most)) }
        ensures err { IfErr result (λ refusal. (text : List ℕ) → IsReading self text []
            → Refuses self.most (strip_bom text) refusal) }
    {
        let (lines, _) = self.ended()?;
        Ok(lines)
    }

    /// Returns the log, to be judged, as `log_to_judge` gives that of its lines: all pieces have come, and none was
    /// refused.
    ///
    /// Refused is what `finish` refuses, and then what `log_to_judge` does.
    pub fn log_to_judge(self) -> Result<Log, Refusal>
        requires reading { (text : List ℕ) × IsReading self text [] }
        requires most { self.most ≡ MAX_LOG_CALLS }
        ensures log { (text : List ℕ) → IsReading self text [] → MatchResult result
            (λ log. IsJudgedLog text log.history log.calls.items) (λ refusal. IsUnjudged text refusal.fault) }
        ensures each { IfOk result (λ log. length log.calls.items ≡ length log.history) }
    {
        let alloc = self.alloc;
        let (lines, odd) = self.ended()?;
        let log = judged_told(alloc, lines, odd)?;
        Ok(log)
    }
}
