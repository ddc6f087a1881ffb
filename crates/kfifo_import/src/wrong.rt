//! Why a log is refused, and which field makes a line of it no call.
ghost use Rattle.std.specs.Prelude.{◌≡◌, ◌↔◌, ℕ, IfSome, IsTrue, MatchOption, None, Some, string_bytes};
ghost use Rattle.csv.specs.Records.{fields_of};
ghost use Rattle.kfifo_import.specs.Fields.{name_of};
ghost use Rattle.kfifo_import.specs.Wrong.{Fits, FitsRule, IsFirstWrong, IsItemRule, IsLastRule, IsRule};
ghost use Rattle.kfifo_import.specs.Wrong.{IsAnswerRule, Misses, wrong_text, words_of};
ghost use Rattle.kfifo_model.specs.Words.{op_word};
ghost use Rattle.kfifo_import.specs.Wrong as specs;
ghost use Rattle.kfifo_import.specs.declared.wrong.Allowed.{Allowed};
ghost use Rattle.kfifo_import.specs.declared.wrong.Field.{Field};

use crate::cause::Cause;
use crate::log::{ImportFault, Line};
use crate::table::{Columns, whole};
use csv::ByteRecord;
use kfifo_model::{Answer, Op};
use std::alloc::{AllocError, AllocFailed, Global};
use std::fmt;

/// How many bytes of a field are shown.
const SHOWN: usize = 40;

/// A field of a log.
#[derive(Clone, Copy, Debug, PartialEq, Eq)]
pub enum Field {
    /// The thread that called.
    Thread,
    /// The operation.
    Op,
    /// The item that was put or got.
    Item,
    /// When the call began.
    First,
    /// When the call ended.
    Last,
    /// What the call returned.
    Answer,
}

/// All fields.
pub(crate) const FIELDS: [Field; 6] = [
    Field::Thread,
    Field::Op,
    Field::Item,
    Field::First,
    Field::Last,
    Field::Answer,
];

impl Field {
    /// Returns the name of the field in the header.
    pub fn name(self) -> &'static str
        ensures { result.now ≡ name_of self }
    {
        match self {
            Field::Thread => "thread",
            Field::Op => "op",
            Field::Item => "item",
            Field::First => "first",
            Field::Last => "last",
            Field::Answer => "answer",
        }
    }
}

/// What a field of a line may hold.
#[derive(Clone, Copy, Debug, PartialEq, Eq)]
pub enum Allowed {
    /// A whole number of at most 64 bits.
    Number,
    /// Such a number, or nothing.
    NumberOrNothing,
    /// Nothing.
    Nothing,
    /// The name of an operation.
    Operation,
    /// Any text but nothing, since the call has ended.
    Answer,
    /// Any text, since another field is at fault if the call has not ended.
    Anything,
}

/// Whether a text names an enqueue.
fn is_enq(text: &[u8]) -> bool
    ensures { IsTrue result ↔ (text.now ≡ op_word (Op.Enqueue 0)) }
{
    text == Op::Enqueue(0).word().as_bytes()
}

/// Whether a text names a dequeue.
fn is_deq(text: &[u8]) -> bool
    ensures { IsTrue result ↔ (text.now ≡ op_word Op.Dequeue) }
{
    text == Op::Dequeue.word().as_bytes()
}

impl Allowed {
    /// Whether a text is allowed.
    fn fits(self, text: &[u8]) -> bool
        ensures { IsTrue result ↔ Fits self text.now }
    {
        match self {
            Allowed::Number => whole(text).is_some(),
            Allowed::NumberOrNothing => text.is_empty() || whole(text).is_some(),
            Allowed::Nothing => text.is_empty(),
            Allowed::Operation => is_enq(text) || is_deq(text),
            Allowed::Answer => !text.is_empty(),
            Allowed::Anything => true,
        }
    }

    /// The texts that are allowed, in words.
    fn words(self) -> &'static str
        ensures { result.now ≡ words_of self }
    {
        match self {
            Allowed::Number => "allowed are whole numbers below 2^64",
            Allowed::NumberOrNothing => "allowed are whole numbers below 2^64 and nothing",
            Allowed::Nothing => "allowed is nothing, since the call got no item",
            Allowed::Operation => "allowed are enq and deq",
            Allowed::Answer => "allowed are done, full, got, empty, busy and worn",
            Allowed::Anything => "allowed is any text",
        }
    }
}

/// The first field of a line, in the order of the header, that does not hold what it may.
#[derive(Drop)]
pub struct WrongField {
    /// The number of the line, from 1.
    pub line: u64,
    /// The field.
    pub field: Field,
    /// What it may hold.
    pub allowed: Allowed,
    /// What it holds, as it is shown: in quotation marks, at most 40 bytes of it, with those escaped that are no
    /// printable ASCII.
    pub text: String,
}

impl fmt::Display for WrongField {
    ghost output = { λ wrong. Some (wrong_text wrong.line wrong.field (string_bytes wrong.text) wrong.allowed) };

    fn fmt<W: fmt::Write>(&self, f: &mut fmt::Formatter<W>) -> fmt::Result {
        let (line, text) = (self.line, self.text.as_str());
        let (name, words) = (self.field.name(), self.allowed.words());
        write!(f, "line {line}: {name} is {text}, {words}")
    }
}

/// What stands in a field of a row, nothing where the row ends before it.
pub(crate) fn text_in(row: &ByteRecord, place: usize) -> &[u8]
    ensures { result.now ≡ specs.text_in (fields_of row.now) place }
{
    match row.get(place) {
        Some(text) => text,
        None => &[],
    }
}

/// Where a field stands in a line.
fn column(columns: &Columns, field: Field) -> usize
    ensures { result ≡ specs.column columns.now field }
{
    match field {
        Field::Thread => columns.thread,
        Field::Op => columns.op,
        Field::Item => columns.item,
        Field::First => columns.first,
        Field::Last => columns.last,
        Field::Answer => columns.answer,
    }
}

/// What the item's field may hold beside this operation and this answer.
fn item_rule(op: &[u8], answer: &[u8]) -> Allowed
    ensures { IsItemRule op.now answer.now result }
{
    if is_enq(op) {
        Allowed::Number
    } else if !is_deq(op) {
        Allowed::NumberOrNothing
    } else if answer == Answer::Got(0).word().as_bytes() {
        Allowed::Number
    } else {
        Allowed::Nothing
    }
}

/// What the last time's field may hold beside this answer.
fn last_rule(answer: &[u8]) -> Allowed
    ensures { IsLastRule answer.now result }
{
    if answer.is_empty() {
        Allowed::NumberOrNothing
    } else {
        Allowed::Number
    }
}

/// What the answer's field may hold beside this last time.
fn answer_rule(last: &[u8]) -> Allowed
    ensures { IsAnswerRule last.now result }
{
    if last.is_empty() {
        Allowed::Anything
    } else {
        Allowed::Answer
    }
}

/// What a field of this row may hold.
fn rule_of(row: &ByteRecord, columns: &Columns, field: Field) -> Allowed
    ensures { IsRule columns.now (fields_of row.now) field result }
{
    match field {
        Field::Thread | Field::First => Allowed::Number,
        Field::Op => Allowed::Operation,
        Field::Item => item_rule(text_in(row, columns.op), text_in(row, columns.answer)),
        Field::Last => last_rule(text_in(row, columns.answer)),
        Field::Answer => answer_rule(text_in(row, columns.last)),
    }
}

/// What a field of this row may hold alone, if it holds something else.
fn missed(row: &ByteRecord, columns: &Columns, field: Field) -> Option<Allowed>
    ensures { MatchOption result (FitsRule columns.now (fields_of row.now) field)
        (Misses columns.now (fields_of row.now) field) }
{
    let allowed = rule_of(row, columns, field);
    let text = text_in(row, column(columns, field));
    (!allowed.fits(text)).then_some(allowed)
}

/// A field that stands at this place of the row and does not hold what it may.
fn wrong_at(row: &ByteRecord, columns: &Columns, place: usize) -> Option<(Field, Allowed)>
    ensures { MatchOption result
        ((field : Field) → specs.column columns.now field ≡ place → FitsRule columns.now (fields_of row.now) field)
        (λ wrong. (specs.column columns.now wrong.0 ≡ place)
        × Misses columns.now (fields_of row.now) wrong.0 wrong.1) }
{
    for number in 0..FIELDS.len() {
        let field = FIELDS[number];
        if column(columns, field) == place {
            if let Some(allowed) = missed(row, columns, field) {
                return Some((field, allowed));
            }
        }
    }
    None
}

/// The first field, in the order of the header, that does not hold what it may.
fn wrong_in(row: &ByteRecord, columns: &Columns) -> Option<(Field, Allowed)>
    ensures { IfSome result (λ wrong. IsFirstWrong columns.now (fields_of row.now) wrong.0 wrong.1) }
{
    for place in 0..row.len() {
        if let Some(wrong) = wrong_at(row, columns, place) {
            return Some(wrong);
        }
    }
    None
}

/// A text as it is shown: in quotation marks, at most 40 bytes of it, with those escaped that are no printable ASCII.
pub fn shown(alloc: Global, text: &[u8]) -> Result<String, AllocError> {
    if text.is_empty() {
        return "empty".to_string(alloc);
    }
    let mut shown = String::new(alloc);
    shown.push('"')?;
    for byte in text[..text.len().min(SHOWN)].escape_ascii() {
        shown.push(char::from(byte))?;
    }
    shown.push_str(if text.len() > SHOWN { "\".." } else { "\"" })?;
    Ok(shown)
}

/// The first field of a row, which begins at this line, that makes it no call; none also where memory runs out.
pub(crate) fn wrong_field(
    alloc: Global,
    row: &ByteRecord,
    columns: &Columns,
    number: u64,
) -> Option<WrongField>
    ensures { IfSome result (λ wrong. (wrong.line ≡ number)
        × IsFirstWrong columns.now (fields_of row.now) wrong.field wrong.allowed) }
{
    let (field, allowed) = wrong_in(row, columns)?;
    let text = text_in(row, column(columns, field));
    let text = shown(alloc, text).ok()?;
    Some(WrongField {
        line: number,
        field,
        allowed,
        text,
    })
}

/// Why a log gives no record.
#[derive(Drop)]
pub struct Refusal {
    /// The first fault.
    pub fault: ImportFault,
    /// Of a line that is no call, the field that makes it none. None of other faults, and where memory ran out for it.
    pub wrong: Option<WrongField>,
    /// Of a header, a width and a call at fault, what stands there. None of other faults.
    pub cause: Option<Cause>,
}

impl Refusal {
    /// The same with this cause.
    pub(crate) fn with_cause(self, cause: Option<Cause>) -> Refusal
        ensures fault { result.fault ≡ self.fault }
        ensures wrong { result.wrong ≡ self.wrong }
    {
        Refusal {
            fault: self.fault,
            wrong: self.wrong,
            cause,
        }
    }
}

impl From<ImportFault> for Refusal {
    ghost from_gives = { λ given refusal. (refusal.fault ≡ given) × (refusal.wrong ≡ None) };

    fn from(fault: ImportFault) -> Refusal {
        Refusal {
            fault,
            wrong: None,
            cause: None,
        }
    }
}

impl From<AllocError> for Refusal {
    ghost use Rattle.kfifo_import.specs.declared.log.ImportFault.TheVariants.{Memory};

    ghost from_gives = { λ _ refusal. (refusal.fault ≡ Memory) × (refusal.wrong ≡ None) };

    fn from(_: AllocError) -> Refusal {
        Refusal::from(ImportFault::Memory)
    }
}

impl From<AllocFailed<Line>> for Refusal {
    ghost use Rattle.kfifo_import.specs.declared.log.ImportFault.TheVariants.{Memory};

    ghost from_gives = { λ _ refusal. (refusal.fault ≡ Memory) × (refusal.wrong ≡ None) };

    fn from(_failed: AllocFailed<Line>) -> Refusal {
        Refusal::from(ImportFault::Memory)
    }
}

impl From<Refusal> for ImportFault {
    ghost from_gives = { λ given fault. fault ≡ given.fault };

    fn from(refusal: Refusal) -> ImportFault {
        refusal.fault
    }
}
