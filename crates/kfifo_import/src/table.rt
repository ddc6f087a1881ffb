//! Logs as tables of comma-separated fields.
ghost use Rattle.std.specs.Prelude.{◌≡◌, ◌≤◌, ◌↔◌, ℕ, IfErr, IfOk, IsTrue, List, OnOk, Option};
ghost use Rattle.std.specs.Prelude.{[], IsSome, MatchOption, MatchResult, None, length, option_map};
ghost use Rattle.kfifo_model.specs.declared.calls.Answer.{Answer};
ghost use Rattle.kfifo_model.specs.declared.calls.End.{End};
ghost use Rattle.kfifo_model.specs.declared.calls.Op.{Op};
ghost use Rattle.csv.specs.Reading.{strip_bom};
ghost use Rattle.csv.specs.Records.{field_at, fields_of};
ghost use Rattle.kfifo_model.specs.Words.{IsAnswerWord};
ghost use Rattle.kfifo_import.specs.Fields as specs;
ghost use Rattle.kfifo_import.specs.Fields.{Gives, GivesText, HasColumns, IsAnswer, IsCallOf, IsDigits, IsEnd, IsOp};
ghost use Rattle.kfifo_import.specs.Fields.{IsOnlyAt, IsPutAnswer, IsTakeAnswer, WritesSmall, WritesWhole, name_of};
ghost use Rattle.kfifo_import.specs.Tables.{IsImported, IsNoCall, IsNoLog, IsReadLog, IsTextFault, IsUnimported};
ghost use Rattle.kfifo_import.specs.Tables.{LacksColumns, ReadsLog};
ghost use Rattle.kfifo_import.specs.Foreign.{IsJudgedLog, IsUnjudged};
ghost use Rattle.kfifo_import.specs.Taking.{IsNotTaken, IsWrongIn, Takes};
ghost use Rattle.kfifo_import.specs.Wrong.{TellsWrong};

use crate::answers::{put_answer, take_answer};
use crate::cause::{Cause, Oddity, header_cause, is_odd, oddity_of};
use crate::foreign::judged_told;
use crate::log::{ImportFault, Line, Log, MAX_LOG_CALLS, log_told};
use crate::reader::LogReader;
use crate::walk::without_mark;
use crate::wrong::{Field, Refusal, wrong_field};
use csv::ByteRecord;
use kfifo_model::{Answer, AnswerWord, Call, End, History, MAX_CALLS, Op, OpWord};
use std::alloc::Global;

/// Where the fields of a call stand in a line.
#[derive(Clone, Copy)]
pub(crate) struct Columns {
    pub(crate) thread: usize,
    pub(crate) op: usize,
    pub(crate) item: usize,
    pub(crate) first: usize,
    pub(crate) last: usize,
    pub(crate) answer: usize,
}

/// The place of the field with this name in the header; none if there is no such field, or two.
fn place_of(header: &ByteRecord, name: &[u8]) -> Option<usize>
    ensures { MatchOption result
        ((place : ℕ) → ¬ (IsOnlyAt (fields_of header.now) name.now place))
        (IsOnlyAt (fields_of header.now) name.now) }
{
    let mut found = None;
    for place in 0..header.len() {
        if header.get(place) == Some(name) {
            if found.is_some() {
                return None;
            }
            found = Some(place);
        }
    }
    found
}

/// The place of a field, if the header has it once.
fn column_of(header: &ByteRecord, field: Field) -> Option<usize>
    ensures { MatchOption result ((place : ℕ) → ¬ (IsOnlyAt (fields_of header.now) (name_of field) place))
        (IsOnlyAt (fields_of header.now) (name_of field)) }
{
    place_of(header, field.name().as_bytes())
}

/// The places of the six fields, if the header has each of them once.
fn columns_of(header: &ByteRecord) -> Option<Columns>
    ensures { MatchOption result (LacksColumns (fields_of header.now)) (HasColumns (fields_of header.now)) }
{
    Some(Columns {
        thread: column_of(header, Field::Thread)?,
        op: column_of(header, Field::Op)?,
        item: column_of(header, Field::Item)?,
        first: column_of(header, Field::First)?,
        last: column_of(header, Field::Last)?,
        answer: column_of(header, Field::Answer)?,
    })
}

/// The field at a place, none where it is empty.
fn field(row: &ByteRecord, place: usize) -> Option<&[u8]>
    ensures { GivesText (field_at (fields_of row.now) place) (option_map (λ t. t.now) result) }
{
    match row.get(place) {
        Some(text) if !text.is_empty() => Some(text),
        _ => None,
    }
}

/// Whether each byte is a decimal digit.
fn is_digits(text: &[u8]) -> bool
    ensures { IsTrue result ↔ IsDigits text.now }
{
    text.iter().all(|byte| byte.is_ascii_digit())
}

/// The whole number that digits write.
pub(crate) fn whole(text: &[u8]) -> Option<u64>
    ensures { MatchOption result ((number : ℕ) → ¬ (WritesWhole text.now number)) (WritesWhole text.now) }
{
    if !is_digits(text) {
        return None;
    }
    let Ok(digits) = str::from_utf8(text) else {
        return None;
    };
    digits.parse().ok()
}

/// Returns a number as one of 32 bits: one that is too great is taken as the greatest, which is out of every range.
pub fn small(number: u64) -> u32
    ensures { result ≡ specs.small number }
{
    if number < 4_294_967_295 {
        number as u32
    } else {
        4_294_967_295
    }
}

/// The number of 32 bits that digits write.
fn small_whole(text: &[u8]) -> Option<u32>
    ensures { MatchOption result ((number : ℕ) → ¬ (WritesSmall text.now number)) (WritesSmall text.now) }
{
    let number = whole(text)?;
    Some(small(number))
}

/// An item that may be there, as a number of 32 bits.
fn small_item(item: Option<u64>) -> Option<u32>
    ensures { result ≡ option_map specs.small item }
{
    match item {
        Some(number) => Some(small(number)),
        None => None,
    }
}

/// The number in this field, none where it is empty; none at all where it is none.
fn number_in(row: &ByteRecord, place: usize) -> Option<Option<u64>>
    ensures { MatchOption result
        ((number : Option ℕ) → ¬ (Gives WritesWhole (field_at (fields_of row.now) place) number))
        (Gives WritesWhole (field_at (fields_of row.now) place)) }
{
    match field(row, place) {
        Some(text) => Some(Some(whole(text)?)),
        None => Some(None),
    }
}

/// The operation.
fn op_of(text: &[u8], item: Option<u32>) -> Option<Op>
    ensures { MatchOption result ((op : Op) → ¬ (IsOp text.now item op)) (IsOp text.now item) }
{
    match OpWord::of(text) {
        Some(OpWord::Enq) => Some(Op::Enqueue(item?)),
        Some(OpWord::Deq) => Some(Op::Dequeue),
        None => None,
    }
}

/// The answer of a dequeue beside this item; none where it has an item without the answer `got`, or `got` and no item.
fn take_answer_beside(word: AnswerWord, item: Option<u32>) -> Option<Answer>
    ensures { (text : List ℕ) → IsAnswerWord text word
        → MatchOption result ((answer : Answer) → ¬ (IsTakeAnswer text item answer)) (IsTakeAnswer text item) }
{
    match (word, item) {
        (AnswerWord::Got, None) => None,
        (AnswerWord::Got, Some(item)) => Some(take_answer(word, item)),
        (_, None) => Some(take_answer(word, 0)),
        (_, Some(_)) => None,
    }
}

/// The answer of a call. None where a dequeue has an item without the answer `got`, or the other way round.
fn answer_of(op: Op, text: &[u8], item: Option<u32>) -> Option<Answer>
    ensures { MatchOption result ((answer : Answer) → ¬ (IsAnswer op text.now item answer))
        (IsAnswer op text.now item) }
{
    let word = AnswerWord::of(text);
    match op {
        Op::Enqueue(_) => Some(put_answer(word)),
        Op::Dequeue => take_answer_beside(word, item),
    }
}

/// The end of a call; none at all where one of its two fields is empty and the other is not, or an unfinished dequeue
/// has an item.
fn end_of(
    op: Op,
    last: Option<u64>,
    answer: Option<&[u8]>,
    item: Option<u32>,
) -> Option<Option<End>>
    ensures { MatchOption result
        ((end : Option End) → ¬ (IsEnd op last (option_map (λ t. t.now) answer.entry) item end))
        (IsEnd op last (option_map (λ t. t.now) answer.entry) item) }
{
    match (last, answer) {
        (Some(last), Some(text)) => {
            let answer = answer_of(op, text, item)?;
            Some(Some(End { last, answer }))
        }
        (None, None) if op != Op::Dequeue || item.is_none() => Some(None),
        _ => None,
    }
}

/// The call of a line with this item, or none where the line is no call.
fn call_of(row: &ByteRecord, columns: &Columns, item: Option<u32>) -> Option<Call>
    requires { Gives WritesSmall (field_at (fields_of row.now) columns.now.item) item }
    ensures { MatchOption result (IsNoCall columns.now (fields_of row.now)) (IsCallOf columns.now (fields_of row.now)) }
{
    let thread = small_whole(field(row, columns.thread)?)?;
    let first = whole(field(row, columns.first)?)?;
    let last = number_in(row, columns.last)?;
    let op = op_of(field(row, columns.op)?, item)?;
    let end = end_of(op, last, field(row, columns.answer), item)?;
    Some(Call {
        thread,
        op,
        first,
        end,
    })
}

/// The line with this number, or none where it is no call.
fn line_of(row: &ByteRecord, columns: &Columns, number: u64) -> Option<Line>
    ensures { MatchOption result (IsNoCall columns.now (fields_of row.now)) (λ line. (line.number ≡ number)
        × IsCallOf columns.now (fields_of row.now) line.call
        × Gives WritesWhole (field_at (fields_of row.now) columns.now.item) line.item) }
{
    let item = number_in(row, columns.item)?;
    let call = call_of(row, columns, small_item(item))?;
    Some(Line { number, call, item })
}

/// What was read of a table so far.
#[derive(Drop)]
pub(crate) struct Table {
    /// Where the fields stand, once the header was read.
    columns: Option<Columns>,
    /// The lines below the header.
    lines: Vec<Line>,
    /// What the line of a call has and its record cannot have: of the call that begins first.
    odd: Option<Oddity>,
}

impl Table {
    /// Nothing was read.
    pub(crate) fn new(alloc: Global) -> Table
        ensures { (result.columns ≡ None) × (result.lines.items ≡ []) }
    {
        Table {
            columns: None,
            lines: Vec::new(alloc),
            odd: None,
        }
    }

    /// The lines, where the header was read, and what was kept of their text.
    pub(crate) fn into_lines(self) -> Result<(Vec<Line>, Option<Oddity>), Refusal>
        ensures ok { IfOk result (λ both. IsSome self.columns × (both.0 ≡ self.lines)) }
        ensures err { IfErr result (λ refusal. (self.columns ≡ None) × (refusal.fault ≡ ImportFault.Csv 1)
            × (refusal.wrong ≡ None)) }
    {
        match self.columns {
            Some(_) => Ok((self.lines, self.odd)),
            None => Err(Refusal::from(ImportFault::Csv(1)).with_cause(Some(Cause::NoHeader))),
        }
    }

    /// Takes in the next row, which begins at this line: the header, and then lines, so many at most.
    pub(crate) fn take(
        &mut self,
        alloc: Global,
        row: &ByteRecord,
        number: u64,
        most: usize,
    ) -> Result<(), Refusal>
        ensures ok { OnOk result (Takes most self.old.columns self.old.lines.items number (fields_of row.now)
            self.new.columns self.new.lines.items) }
        ensures err { IfErr result (λ refusal.
            IsNotTaken most self.old.columns self.old.lines.items number (fields_of row.now) refusal.fault) }
        ensures wrong { IfErr result (λ refusal.
            IsWrongIn self.old.columns number (fields_of row.now) refusal.wrong refusal.fault) }
    {
        let Some(columns) = self.columns else {
            let Some(columns) = columns_of(row) else {
                let refusal = Refusal::from(ImportFault::Csv(number));
                return Err(refusal.with_cause(header_cause(row)));
            };
            self.columns = Some(columns);
            return Ok(());
        };
        if self.lines.len() >= most {
            return Err(Refusal::from(ImportFault::TooMany));
        }
        let Some(line) = line_of(row, &columns, number) else {
            return Err(Refusal {
                fault: ImportFault::NotACall(number),
                wrong: wrong_field(alloc, row, &columns, number),
                cause: None,
            });
        };
        if is_odd(&line.call) {
            self.odd = oddity_of(alloc, self.odd.take(), row, &columns, &line);
        }
        self.lines.push(line)?;
        Ok(())
    }
}

/// The lines of a log in CSV, as `lines_of` gives them, and what was kept of their text.
fn told_lines(
    alloc: Global,
    text: &[u8],
    most: usize,
) -> Result<(Vec<Line>, Option<Oddity>), Refusal>
    ensures ok { IfOk result (λ both. ReadsLog text.now both.0.items) }
    ensures few { IfOk result (λ both. length both.0.items ≤ most) }
    ensures err { IfErr result (λ refusal. IsTextFault most (strip_bom text.now) refusal.fault) }
    ensures wrong { IfErr result (λ refusal. TellsWrong (strip_bom text.now) refusal.wrong refusal.fault) }
{
    let mut reader = LogReader::plain(alloc, most);
    reader.feed(without_mark(text))?;
    reader.ended()
}

/// Returns the lines of a log in CSV, each with its call, in their order.
///
/// ```rust
/// let lines = lines_of(alloc, bytes, MAX_LOG_CALLS)?;
/// ```
///
/// Refused is what a line itself has wrong, as `read_log` refuses it first, and a log of more than `most` lines.
pub fn lines_of(alloc: Global, text: &[u8], most: usize) -> Result<Vec<Line>, Refusal>
    ensures ok { IfOk result (λ lines. ReadsLog text.now lines.items) }
    ensures few { IfOk result (λ lines. length lines.items ≤ most) }
    ensures err { IfErr result (λ refusal. IsTextFault most (strip_bom text.now) refusal.fault) }
    ensures wrong { IfErr result (λ refusal. TellsWrong (strip_bom text.now) refusal.wrong refusal.fault) }
{
    let (lines, _) = told_lines(alloc, text, most)?;
    Ok(lines)
}

/// The log that a text in CSV is, of so many calls at most.
fn log_in(alloc: Global, text: &[u8], most: usize) -> Result<Log, Refusal>
    requires { most ≤ MAX_LOG_CALLS }
    ensures read { MatchResult result (λ log. IsReadLog text.now log.history log.calls.items)
        (λ refusal. IsNoLog most text.now refusal.fault) }
    ensures wrong { IfErr result (λ refusal. TellsWrong (strip_bom text.now) refusal.wrong refusal.fault) }
    ensures few { IfOk result (λ log. length log.history ≤ most) }
    ensures each { IfOk result (λ log. length log.calls.items ≡ length log.history) }
{
    let (lines, odd) = told_lines(alloc, text, most)?;
    let log = log_told(alloc, lines, odd)?;
    Ok(log)
}

/// The log that a text in CSV is, with a header that has, in any order, `thread`, `op`, `item`, `first`, `last` and
/// `answer`, and a call a line, in any order. A field that does not apply is empty. `first` and `last` are whole
/// numbers, as nanoseconds of a clock. Each call comes with the number of its line in the text, from 1, and its times.
///
/// ```rust
/// let found = read_log(alloc, bytes);
/// ```
///
/// Refused: first what a line itself has wrong, by lines: Csv, NotACall with the field that makes the line none, and
/// TooMany of the 16,777,216th call; then as by `log_of`.
pub fn read_log(alloc: Global, text: &[u8]) -> Result<Log, Refusal>
    ensures read { MatchResult result (λ log. IsReadLog text.now log.history log.calls.items)
        (λ refusal. IsNoLog MAX_LOG_CALLS text.now refusal.fault) }
    ensures wrong { IfErr result (λ refusal. TellsWrong (strip_bom text.now) refusal.wrong refusal.fault) }
    ensures few { IfOk result (λ log. length log.history ≤ MAX_LOG_CALLS) }
    ensures each { IfOk result (λ log. length log.calls.items ≡ length log.history) }
{
    log_in(alloc, text, MAX_LOG_CALLS)
}

/// The log that a text in CSV is, to be judged: as `read_log` reads it, but for gets of items that no call can put,
/// which are not from 1 to 16,777,215. They show that the queue is wrong, and are no fault of the log. In the record
/// each of them got an item that no call puts, one and the same; its `LoggedCall` has the item as it is in the log.
///
/// ```rust
/// let log = read_log_to_judge(alloc, bytes)?;
/// ```
///
/// Refused: what `read_log` refuses, but for these gets.
pub fn read_log_to_judge(alloc: Global, text: &[u8]) -> Result<Log, Refusal>
    ensures read { MatchResult result (λ log. IsJudgedLog text.now log.history log.calls.items)
        (λ refusal. IsUnjudged text.now refusal.fault) }
    ensures wrong { IfErr result (λ refusal. TellsWrong (strip_bom text.now) refusal.wrong refusal.fault) }
    ensures few { IfOk result (λ log. length log.history ≤ MAX_LOG_CALLS) }
    ensures each { IfOk result (λ log. length log.calls.items ≡ length log.history) }
{
    let (lines, odd) = told_lines(alloc, text, MAX_LOG_CALLS)?;
    let log = judged_told(alloc, lines, odd)?;
    Ok(log)
}

/// Returns the record of a log in CSV, without the lines and times of its calls.
///
/// The log has a line for each of at most 65,536 calls, under the header `thread,op,item,first,last,answer`. `alloc`,
/// the runtime's allocator, makes room for the lines and the calls. Refuses TooMany of the 65,537th call, and else what
/// `read_log` refuses.
pub fn import_text(alloc: Global, text: &[u8]) -> Result<History, Refusal>
    ensures record { MatchResult result (IsImported text.now) (λ refusal. IsUnimported text.now refusal.fault) }
    ensures wrong { IfErr result (λ refusal. TellsWrong (strip_bom text.now) refusal.wrong refusal.fault) }
    ensures few { IfOk result (λ history. length history ≤ MAX_CALLS) }
{
    let log = log_in(alloc, text, MAX_CALLS)?;
    Ok(log.history)
}
