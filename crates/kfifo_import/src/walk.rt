//! The rows of a text in CSV that comes in pieces, and the lines that they begin in.
ghost use Rattle.std.specs.Prelude.{◌≡◌, ◌≢◌, ◌++◌, ◌+◌, ◌<◌, ◌≤◌, ◌∷◌, [], ℕ, IfOk, List, MatchBool, OnOk};
ghost use Rattle.std.specs.Prelude.{length, slice_index, true};
ghost use Rattle.csv.specs.Reading.{is_bom, strip_bom};
ghost use Rattle.csv.specs.Records.{fields_of, partial_of};
ghost use Rattle.kfifo_import.specs.Rows.{line_feeds};
ghost use Rattle.kfifo_import.specs.Spots as specs;
ghost use Rattle.kfifo_import.specs.Spots.{ArePlain, CanTake, EndsThere, HasTaken, IsMarked, IsOpen, MayBePlain};
ghost use Rattle.kfifo_import.specs.Spots.{Parts, Stands, TakesTo, part};
ghost use Rattle.kfifo_import.specs.declared.walk.Spot.TheVariants as spots;

use csv::ByteRecord;
use std::alloc::{AllocError, Global};

/// What the next byte of a row is.
#[derive(Clone, Copy)]
pub(crate) enum Spot {
    /// The first of the row.
    Row,
    /// The first of a field.
    Field,
    /// One of a field without quotation marks.
    Plain,
    /// One between quotation marks.
    Quoted,
    /// The one behind a quotation mark that may have been the last.
    Quote,
    /// None: the row has ended.
    Over,
}

/// Whether these bytes are a byte order mark.
fn is_mark(first: u8, second: u8, third: u8) -> bool
    ensures { result ≡ is_bom first second third }
{
    first == 0xEF && second == 0xBB && third == 0xBF
}

/// A text without a byte order mark.
pub(crate) fn without_mark(text: &[u8]) -> &[u8]
    ensures { result.now ≡ strip_bom text.now }
{
    if text.len() >= 3 && is_mark(text[0], text[1], text[2]) {
        &text[3..]
    } else {
        text
    }
}

/// Whether a byte ends a line.
fn ends_line(byte: u8) -> bool
    ensures { result ≡ specs.ends_line byte }
{
    byte == b'\r' || byte == b'\n'
}

/// Whether a byte ends a field without quotation marks.
fn ends_field(byte: u8) -> bool
    ensures { result ≡ specs.ends_field byte }
{
    byte == b',' || ends_line(byte)
}

/// Where the bytes that end no field without quotation marks stop.
fn plain_end(text: &[u8], at: usize) -> usize
    requires { at ≤ length text.now }
    ensures plain { ArePlain (part text.now at result) }
    ensures from { at ≤ result }
    ensures within { result ≤ length text.now }
    ensures ended { result < length text.now → specs.ends_field (slice_index text.now result) ≡ true }
{
    for end in at..text.len() {
        if ends_field(text[end]) {
            return end;
        }
    }
    text.len()
}

/// A row of a text that comes in pieces, as far as it has come.
#[derive(Drop)]
pub(crate) struct RowReader {
    /// What its next byte is.
    spot: Spot,
    /// Its fields that have ended.
    row: ByteRecord,
    /// The bytes of its field that has not ended.
    field: Vec<u8>,
    /// The line of the next byte, from 1.
    line: u64,
    /// The line that the row begins in, once it has begun.
    front: u64,
}

impl RowReader {
    /// Nothing of a text has come.
    pub(crate) fn new(alloc: Global) -> RowReader
        ensures { (text : List ℕ) → Stands result text text text }
    {
        RowReader {
            spot: Spot::Row,
            row: ByteRecord::new(alloc),
            field: Vec::new(alloc),
            line: 1,
            front: 1,
        }
    }

    /// Whether the row has ended.
    pub(crate) fn is_over(&self) -> bool
        ensures { MatchBool result (self.now.spot ≡ spots.Over) (IsOpen self.now) }
    {
        matches!(self.spot, Spot::Over)
    }

    /// Whether the row has not begun.
    fn is_between(&self) -> bool
        ensures { MatchBool result (self.now.spot ≡ spots.Row) (self.now.spot ≢ spots.Row) }
    {
        matches!(self.spot, Spot::Row)
    }

    /// The fields of the row that have ended.
    pub(crate) fn row(&self) -> &ByteRecord
        ensures { result.now ≡ self.now.row }
    {
        &self.row
    }

    /// The line that the row begins in.
    pub(crate) fn front(&self) -> u64
        ensures { result ≡ self.now.front }
    {
        self.front
    }

    /// Goes on to the next row.
    pub(crate) fn go_on(&mut self)
        requires { self.now.spot ≡ spots.Over }
        ensures reads { (text rest left : List ℕ) → Stands self.old text rest left → Stands self.new text left left }
        ensures between { self.new.spot ≡ spots.Row }
    {
        self.row.clear();
        self.spot = Spot::Row;
    }

    /// Counts the line that this byte ends.
    fn count(&mut self, byte: u8) -> Result<(), AllocError>
        ensures { OnOk result (self.new ≡ record self.old { line = self.old.line + line_feeds (byte ∷ []) }) }
    {
        if byte == b'\n' {
            if self.line == u64::MAX {
                return Err(AllocError);
            }
            self.line += 1;
        }
        Ok(())
    }

    /// Begins the row at this byte, unless that ends an empty line.
    fn begin(&mut self, byte: u8)
        requires { IsOpen self.now }
        ensures reads { (left : List ℕ) → HasTaken self.old self.new (byte ∷ left) (byte ∷ left) }
        ensures can { CanTake self.new.spot byte }
    {
        if self.is_between() && !ends_line(byte) {
            self.front = self.line;
            self.spot = Spot::Field;
        }
    }

    /// Whether this byte is the next of a field without quotation marks, or ends a field.
    fn is_plain(&self, byte: u8) -> bool
        requires { CanTake self.now.spot byte }
        ensures { MatchBool result (MayBePlain self.now.spot byte) (IsMarked self.now.spot byte) }
    {
        match self.spot {
            Spot::Row | Spot::Quoted => false,
            Spot::Field | Spot::Quote => byte != b'"',
            Spot::Plain | Spot::Over => true,
        }
    }

    /// Takes a byte that is not the next of a field without quotation marks and ends no field.
    fn mark(&mut self, byte: u8) -> Result<(), AllocError>
        requires { IsMarked self.now.spot byte }
        ensures { OnOk result ((left : List ℕ) → HasTaken self.old self.new (byte ∷ left) left) }
    {
        match self.spot {
            Spot::Row => self.count(byte)?,
            Spot::Quoted if byte == b'"' => self.spot = Spot::Quote,
            Spot::Quoted => {
                self.field.push(byte)?;
                self.count(byte)?;
            }
            Spot::Quote => {
                self.field.push(byte)?;
                self.spot = Spot::Quoted;
            }
            Spot::Field | Spot::Plain | Spot::Over => self.spot = Spot::Quoted,
        }
        Ok(())
    }

    /// Ends the field behind these bytes of it.
    fn end_field(&mut self, bytes: &[u8]) -> Result<(), AllocError>
        ensures fields { OnOk result (fields_of self.new.row
            ≡ fields_of self.old.row ++ (partial_of self.old.row ++ (self.old.field.items ++ bytes.now)) ∷ []) }
        ensures none { OnOk result (partial_of self.new.row ≡ []) }
        ensures bytes { OnOk result (self.new.field.items ≡ []) }
        ensures rest { OnOk result ((self.new.spot ≡ self.old.spot) × (self.new.line ≡ self.old.line)
            × (self.new.front ≡ self.old.front)) }
    {
        if self.field.is_empty() {
            return self.row.push_field(bytes);
        }
        self.field.extend_from_slice(bytes)?;
        self.row.push_field(self.field.as_slice())?;
        self.field.clear();
        Ok(())
    }

    /// Goes on behind a byte that ended a field, and maybe the row.
    fn part(&mut self, byte: u8) -> Result<(), AllocError>
        requires { specs.ends_field byte ≡ true }
        ensures { OnOk result (Parts self.old self.new byte) }
    {
        if byte == b',' {
            self.spot = Spot::Field;
            return Ok(());
        }
        self.count(byte)?;
        self.spot = Spot::Over;
        Ok(())
    }

    /// Takes the bytes of a field without quotation marks, and the one that ends it, up to the place that is returned.
    fn plain(&mut self, text: &[u8], at: usize) -> Result<usize, AllocError>
        requires inside { at < length text.now }
        requires plain { MayBePlain self.now.spot (slice_index text.now at) }
        ensures { IfOk result (TakesTo self.old self.new text.now at) }
    {
        let end = plain_end(text, at);
        if end == text.len() {
            self.field.extend_from_slice(&text[at..end])?;
            self.spot = Spot::Plain;
            return Ok(end);
        }
        self.end_field(&text[at..end])?;
        self.part(text[end])?;
        Ok(end + 1)
    }

    /// Takes some bytes of a text, up to the place that is returned.
    fn some(&mut self, text: &[u8], at: usize) -> Result<usize, AllocError>
        requires inside { at < length text.now }
        requires open { IsOpen self.now }
        ensures { IfOk result (TakesTo self.old self.new text.now at) }
    {
        self.begin(text[at]);
        if self.is_plain(text[at]) {
            return self.plain(text, at);
        }
        self.mark(text[at])?;
        Ok(at + 1)
    }

    /// Takes the bytes of a text up to the place that is returned, where the row has ended or the text.
    pub(crate) fn take(&mut self, text: &[u8], at: usize) -> Result<usize, AllocError>
        requires inside { at < length text.now }
        requires open { IsOpen self.now }
        ensures reads { IfOk result (TakesTo self.old self.new text.now at) }
        ensures all { IfOk result (λ end. IsOpen self.new → end ≡ length text.now) }
    {
        let mut here = self.some(text, at)?;
        while here < text.len() {
            if self.is_over() {
                return Ok(here);
            }
            here = self.some(text, here)?;
        }
        Ok(here)
    }

    /// Ends the row at the end of the text, where one has begun.
    pub(crate) fn end(&mut self) -> Result<(), AllocError>
        requires { IsOpen self.now }
        ensures { OnOk result ((text rest : List ℕ) → Stands self.old text rest []
            → EndsThere self.old self.new text rest) }
    {
        if !self.is_between() {
            self.end_field(&[])?;
            self.spot = Spot::Over;
        }
        Ok(())
    }
}
