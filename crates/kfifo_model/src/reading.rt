//! Records of histories, as JSON values.
ghost use Rattle.std.specs.Prelude.{ℕ, ◌≡◌, ◌+◌, ◌<◌, ◌≤◌, ◌↔◌, Bool, List, Option, length, map, string_bytes, IsTrue};
ghost use Rattle.std.specs.Prelude.{IfOk};
ghost use Rattle.std.specs.Prelude.{MatchOption, MatchResult};
ghost use Rattle.std.specs.List.{list_all};
ghost use Rattle.std.specs.BTreeMap.{keys};
ghost use Rattle.serde_json.specs.Data.{Data};
ghost use Rattle.serde_json.specs.View.{view};
ghost use Rattle.kfifo_model.specs.declared.spellings.OpWord.{OpWord};
ghost use Rattle.kfifo_model.specs.declared.reading.Ending.{Ending as EndingData};
ghost use Rattle.kfifo_model.specs.declared.reading.Entry.{Entry as EntryData};
ghost use Rattle.kfifo_model.specs.Histories.{call};
ghost use Rattle.kfifo_model.specs.Validity.{IsInRange, Answers, IsHistory};
ghost use Rattle.kfifo_model.specs.Records.{is_key, has_known_keys, number_at, text_at, HasNumber, HasOp};
ghost use Rattle.kfifo_model.specs.Records.{HasEnding, item_fits, IsEntry, is_in_range, answer_of, ending_of, op_of};
ghost use Rattle.kfifo_model.specs.Records.{call_of};
ghost use Rattle.kfifo_model.specs.Records.{IsRead, AreRead, IsMemberFault, IsRecordOf, IsReadFault};

use crate::calls::{Answer, Call, End, MAX_ITEM, MAX_THREADS, Op};
use crate::history::{History, RecordFault, ends_from, is_item};
use crate::so_far::CallsSoFar;
use crate::spellings::{AnswerWord, OpWord};
use serde_json::{Map, Value};
use std::alloc::Global;

/// The most calls of a record.
pub const MAX_CALLS: usize = 65_536;

/// The last step and the answer of a call's object.
#[derive(Clone, Copy)]
pub struct Ending {
    /// The number at `last`.
    pub last: u64,
    /// The text at `answer`.
    pub answer: AnswerWord,
}

/// What a call's object says, numbers of any size.
#[derive(Clone, Copy)]
pub struct Entry {
    /// The number at `thread`.
    pub thread: u64,
    /// The text at `op`.
    pub op: OpWord,
    /// The number at `item`, where the key is there.
    pub item: Option<u64>,
    /// The number at `first`.
    pub first: u64,
    /// What `last` and `answer` say, where they are there.
    pub ending: Option<Ending>,
}

/// What is wrong with one member of a record.
#[derive(Clone, Copy)]
pub enum Flaw {
    /// Fault 3.
    NotACall,
    /// Fault 4.
    NumberOutOfRange,
    /// Fault 5.
    WrongAnswer,
}

/// Whether a key may stand in a call's object.
fn is_known(key: &str) -> bool
    ensures { result ≡ is_key key.now }
{
    key == "thread"
        || key == "op"
        || key == "item"
        || key == "first"
        || key == "last"
        || key == "answer"
}

/// Whether the keys are all known.
fn are_known(members: &Map<String, Value>) -> bool
    ensures { result ≡ list_all (λ k. is_key (string_bytes k)) (keys members.now) }
{
    members.keys().all(|key| is_known(key.as_str()))
}

/// Whether the value is an object whose keys are all known.
fn has_only_known_keys(value: &Value) -> bool
    ensures { result ≡ has_known_keys (view value.now) }
{
    match value.as_object() {
        Some(members) => are_known(members),
        None => false,
    }
}

/// The number at a key.
fn number(value: &Value, key: &str) -> Option<u64>
    ensures { result ≡ number_at key.now (view value.now) }
{
    value.get(key).and_then(Value::as_u64)
}

/// The number at a key, if the key is there; none where something else is there.
fn optional_number(value: &Value, key: &str) -> Option<Option<u64>>
    ensures { MatchOption result ((o : Option ℕ) → HasNumber key.now (view value.now) o → ⊥)
        (HasNumber key.now (view value.now)) }
{
    match value.get(key) {
        None => Some(None),
        Some(found) => match found.as_u64() {
            Some(n) => Some(Some(n)),
            None => None,
        },
    }
}

/// The operation.
fn op_word(value: &Value) -> Option<OpWord>
    ensures { MatchOption result ((w : OpWord) → HasOp (view value.now) w → ⊥) (HasOp (view value.now)) }
{
    match value.get("op").and_then(Value::as_str) {
        Some(text) => OpWord::of(text.as_bytes()),
        None => None,
    }
}

/// What `last` and `answer` say; none where only one is there, or something else.
fn read_ending(value: &Value) -> Option<Option<Ending>>
    ensures { MatchOption result ((o : Option EndingData) → HasEnding (view value.now) o → ⊥)
        (HasEnding (view value.now)) }
{
    if value.get("last").is_none() && value.get("answer").is_none() {
        return Some(None);
    }
    let Some(last) = number(value, "last") else {
        return None;
    };
    match value.get("answer").and_then(Value::as_str) {
        Some(text) => {
            let answer = AnswerWord::of(text.as_bytes());
            Some(Some(Ending { last, answer }))
        }
        None => None,
    }
}

/// Whether an item stands exactly where it has to.
fn has_item_where_due(op: OpWord, ending: Option<Ending>, item: Option<u64>) -> bool
    ensures { result ≡ item_fits op ending item }
{
    let got = match ending {
        Some(ending) => match ending.answer {
            AnswerWord::Got => true,
            AnswerWord::Done
            | AnswerWord::Full
            | AnswerWord::Empty
            | AnswerWord::Busy
            | AnswerWord::Worn
            | AnswerWord::Other => false,
        },
        None => false,
    };
    match (op, item) {
        (OpWord::Enq, Some(_)) => true,
        (OpWord::Enq, None) => false,
        (OpWord::Deq, Some(_)) => got,
        (OpWord::Deq, None) => !got,
    }
}

/// What an object says, if it is a call's.
fn read_entry(value: &Value) -> Option<Entry>
    ensures { MatchOption result ((e : EntryData) → IsEntry (view value.now) e → ⊥) (IsEntry (view value.now)) }
{
    if !has_only_known_keys(value) {
        return None;
    }
    let thread = number(value, "thread")?;
    let op = op_word(value)?;
    let first = number(value, "first")?;
    let item = optional_number(value, "item")?;
    let ending = read_ending(value)?;
    if !has_item_where_due(op, ending, item) {
        return None;
    }
    Some(Entry {
        thread,
        op,
        item,
        first,
        ending,
    })
}

/// Whether the thread and the item are in their ranges.
fn is_entry_in_range(entry: &Entry) -> bool
    ensures { result ≡ is_in_range entry.now }
{
    let item = match entry.item {
        Some(x) => 0 < x && x <= MAX_ITEM as u64,
        None => true,
    };
    entry.thread < u64::from(MAX_THREADS) && item
}

/// The answer, if it is one of the operation's.
fn answer_of_word(op: OpWord, answer: AnswerWord, item: Option<u32>) -> Option<Answer>
    ensures { result ≡ answer_of op answer item }
{
    match (op, answer) {
        (OpWord::Enq, AnswerWord::Done) => Some(Answer::Done),
        (OpWord::Enq, AnswerWord::Full) => Some(Answer::Full),
        (OpWord::Deq, AnswerWord::Got) => match item {
            Some(x) => Some(Answer::Got(x)),
            None => None,
        },
        (OpWord::Deq, AnswerWord::Empty) => Some(Answer::Empty),
        (_, AnswerWord::Busy) => Some(Answer::Busy),
        (_, AnswerWord::Worn) => Some(Answer::Worn),
        _ => None,
    }
}

/// The call's end, or none where the answer is none of the operation's.
fn end_of_ending(op: OpWord, ending: Option<Ending>, item: Option<u32>) -> Option<Option<End>>
    ensures { result ≡ ending_of op ending item }
{
    match ending {
        None => Some(None),
        Some(ending) => match answer_of_word(op, ending.answer, item) {
            Some(answer) => Some(Some(End {
                last: ending.last,
                answer,
            })),
            None => None,
        },
    }
}

/// The operation with its item.
fn op_with(op: OpWord, item: Option<u32>) -> Op
    ensures { result ≡ op_of op item }
{
    match (op, item) {
        (OpWord::Enq, Some(x)) => Op::Enqueue(x),
        _ => Op::Dequeue,
    }
}

/// The call that an entry says, or its flaw.
fn call_of_entry(entry: &Entry) -> Result<Call, Flaw>
    ensures { result ≡ call_of entry.now }
{
    if !is_entry_in_range(entry) {
        return Err(Flaw::NumberOutOfRange);
    }
    let item = match entry.item {
        Some(x) => Some(x as u32),
        None => None,
    };
    match end_of_ending(entry.op, entry.ending, item) {
        Some(end) => Ok(Call {
            thread: entry.thread as u32,
            op: op_with(entry.op, item),
            first: entry.first,
            end,
        }),
        None => Err(Flaw::WrongAnswer),
    }
}

/// The call that an object says, or its flaw.
fn read_call(value: &Value) -> Result<Call, Flaw>
    ensures read { IsRead (view value.now) result }
    ensures valid { IfOk result (λ c. IsInRange c × Answers c.op c.end) }
{
    match read_entry(value) {
        Some(entry) => call_of_entry(&entry),
        None => Err(Flaw::NotACall),
    }
}

/// The calls of a record's members, or the first fault.
fn read_members(alloc: Global, members: &[Value]) -> Result<Vec<Call>, RecordFault>
    ensures { let ds = map view members.now in
        MatchResult result (λ v. (length v.items ≡ length ds) × AreRead ds v.items × IsHistory v.items)
        (IsMemberFault ds) }
{
    let mut so_far = CallsSoFar::new();
    let mut calls = Vec::new(alloc);
    calls.reserve_exact(members.len())?;
    for (n, member) in members.iter().enumerate() {
        let call = match read_call(member) {
            Ok(call) => call,
            Err(Flaw::NotACall) => return Err(RecordFault::NotACall(n)),
            Err(Flaw::NumberOutOfRange) => return Err(RecordFault::NumberOutOfRange(n)),
            Err(Flaw::WrongAnswer) => return Err(RecordFault::WrongAnswer(n)),
        };
        if !ends_from(&call) {
            return Err(RecordFault::EndsEarly(n));
        }
        if !so_far.rises(&call) {
            return Err(RecordFault::OutOfOrder(n));
        }
        if !so_far.lets(&call) {
            return Err(RecordFault::Overlap(n));
        }
        so_far.note(&call);
        calls.push(call)?;
    }
    Ok(calls)
}

/// Returns the history that a record holds. `alloc`, the runtime's allocator, makes room for its calls.
///
/// ```rust
/// let value = Value::from_str(rt.alloc(), text.as_str())?;
/// let history = read_history(rt.alloc(), &value)?;
/// ```
///
/// A record is an array of at most 65,536 objects, one for each call, as
/// `{"thread":0,"op":"enq","item":1,"first":0,"last":8,"answer":"done"}`.
///
/// Refuses a record for its first fault: NotAList where it is no array; TooMany where it has over 65,536 members; then,
/// by the members in turn, NotACall, or as `History::new`; Memory where an allocation failed.
pub fn read_history(alloc: Global, json: &Value) -> Result<History, RecordFault>
    ensures { MatchResult result (λ h. IsRecordOf (view json.now) h × IsHistory h) (IsReadFault (view json.now)) }
{
    let Some(members) = json.as_array() else {
        return Err(RecordFault::NotAList);
    };
    if members.len() > MAX_CALLS {
        return Err(RecordFault::TooMany);
    }
    match read_members(alloc, members) {
        Ok(calls) => Ok(History::of_valid(calls)),
        Err(fault) => Err(fault),
    }
}
