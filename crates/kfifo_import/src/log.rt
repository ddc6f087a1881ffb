//! Logs of calls, whose steps are times of a clock.
ghost use Rattle.std.specs.Prelude.{◌≡◌, IfErr, IfOk, List, MatchResult, None, map};
ghost use Rattle.kfifo_import.specs.Lines as specs;
ghost use Rattle.kfifo_import.specs.Lines.{fault_among, lines_by};
ghost use Rattle.kfifo_import.specs.Logs.{AreByFirst, IsImportFault, IsLogOf, IsRecordOfLog, calls_of, logged_call};

use crate::cause::{Oddity, call_cause};
use crate::moments::{Moment, by_time};
use crate::stamping::stamped;
use crate::wrong::Refusal;
use kfifo_model::{Call, History, LoggedCall, Op, RecordFault, logged_line};
use std::alloc::{AllocError, Global};
use thiserror::Error;

/// The most calls of a log.
pub const MAX_LOG_CALLS: usize = 16_777_215;

/// A line of a log.
#[derive(Clone, Copy, Debug, PartialEq, Eq)]
pub struct Line {
    /// The number of the line in its file.
    pub number: u64,
    /// The call. Its first and last step are times, which need not be distinct. Its item is at most 4,294,967,295.
    pub call: Call,
    /// The item that the line has; none of a call that puts and gets none.
    pub item: Option<u64>,
}

/// A log that was read.
#[derive(Drop)]
pub struct Log {
    /// The record: the calls in the order of their first times, with stamps in place of times. Where two first times
    /// are equal, the earlier line comes first.
    pub history: History,
    /// Where each call of the history stands in the log and when it was, by its number.
    pub calls: Vec<LoggedCall>,
}

/// What a first line may be that is no header.
const NO_HEADER: &str =
    "is a header that lacks one of thread, op, item, first, last and answer or has one twice";

/// Which fields a call has.
const FIELDS_OF_A_CALL: &str =
    "thread, op and first; item in an enq and where the answer is got; last and answer both or neither";

/// What calls answer.
const ANSWERS: &str =
    "done, full, busy or worn of an enqueue, got, empty, busy or worn of a dequeue";

/// Why a log gives no record. A fault of one call carries the number of its line.
#[derive(Clone, Copy, Debug, PartialEq, Eq, Error)]
pub enum ImportFault {
    /// The line does not have the fields of the header, or the header lacks one.
    #[error("line {0} does not have the fields of the header, or {no_header}", no_header = NO_HEADER)]
    Csv(u64),
    /// Record fault 2: there are over 16,777,215 calls, or over 65,536 where the log is to give a record.
    #[error("the log has over 16,777,215 calls, or over 65,536 and is to give a record")]
    TooMany,
    /// Record fault 3: a field is missing or not allowed there, a number is not whole, or the operation is unknown.
    #[error("line {0} is no call: {fields}; op enq or deq; whole numbers", fields = FIELDS_OF_A_CALL)]
    NotACall(u64),
    /// Record fault 4: the thread is not 0 to 63, or an item not 1 to 2^24 - 1.
    #[error("line {0} has a thread that is not 0 to 63 or an item that is not 1 to 16,777,215")]
    NumberOutOfRange(u64),
    /// Record fault 5: the answer is none of the operation's.
    #[error("line {0} has an answer that is none of its operation's: {answers}", answers = ANSWERS)]
    WrongAnswer(u64),
    /// Record fault 6: the last time is less than the first.
    #[error("line {0} has a last time below its first")]
    EndsEarly(u64),
    /// Record fault 8: an earlier call of the thread is unfinished, or ends at this first time or later.
    #[error("line {0} begins before an earlier call of its thread has ended, or at the same time")]
    Overlap(u64),
    /// An allocation failed.
    #[error("out of memory")]
    Memory,
}

impl From<AllocError> for ImportFault {
    ghost use Rattle.kfifo_import.specs.declared.log.ImportFault.TheVariants.{Memory};

    ghost from_gives = { λ _ fault. fault ≡ Memory };

    fn from(_: AllocError) -> ImportFault {
        ImportFault::Memory
    }
}

/// The fault of the record as one of the log, whose calls these are.
fn fault_of(calls: &[LoggedCall], fault: RecordFault) -> ImportFault
    ensures { result ≡ fault_among calls.now fault }
{
    match fault {
        RecordFault::NumberOutOfRange(place) => {
            ImportFault::NumberOutOfRange(logged_line(calls, place))
        }
        RecordFault::WrongAnswer(place) => ImportFault::WrongAnswer(logged_line(calls, place)),
        RecordFault::EndsEarly(place) => ImportFault::EndsEarly(logged_line(calls, place)),
        RecordFault::Overlap(place) => ImportFault::Overlap(logged_line(calls, place)),
        RecordFault::TooMany => ImportFault::TooMany,
        RecordFault::NotAList
        | RecordFault::NotACall(_)
        | RecordFault::OutOfOrder(_)
        | RecordFault::Memory => ImportFault::Memory,
    }
}

/// A line past the last one.
const NO_LINE: Line = Line {
    number: 0,
    call: Call {
        thread: 0,
        op: Op::Dequeue,
        first: 0,
        end: None,
    },
    item: None,
};

/// The call of the line at this place.
fn call_at(lines: &[Line], place: usize) -> Call
    ensures { result ≡ (specs.line_at lines.now place).call }
{
    match lines.get(place) {
        Some(line) => line.call,
        None => NO_LINE.call,
    }
}

/// When the calls of the lines begin, and the lines' places.
fn beginnings(alloc: Global, lines: &[Line]) -> Result<Vec<Moment>, AllocError>
    ensures { IfOk result (λ begins. begins.items ≡ specs.beginnings lines.now) }
{
    lines
        .iter()
        .enumerate()
        .map(|(number, line)| Moment {
            time: line.call.first,
            number,
        })
        .collect(alloc)
}

/// When the calls of the lines begin, in ascending order of time, of equal ones the earlier line first.
fn by_first(alloc: Global, lines: &[Line]) -> Result<Vec<Moment>, AllocError>
    ensures { IfOk result (λ order. AreByFirst lines.now (lines_by lines.now order.items)) }
{
    let begins = beginnings(alloc, lines)?;
    by_time(alloc, begins)
}

/// The calls of the lines in this order.
fn calls_of(alloc: Global, lines: &[Line], order: &[Moment]) -> Result<Vec<Call>, AllocError>
    ensures { IfOk result (λ calls. calls.items
        ≡ map (λ begin. (specs.line_at lines.now begin.number).call) order.now) }
{
    order
        .iter()
        .map(|begin| call_at(lines, begin.number))
        .collect(alloc)
}

/// Where the call of a line stands and when it was.
fn logged(line: &Line) -> LoggedCall
    ensures { result ≡ logged_call line.now }
{
    LoggedCall {
        line: line.number,
        first: line.call.first,
        last: line.call.end.map(|end| end.last),
        item: line.item,
    }
}

/// The same of the line at this place.
fn logged_at(lines: &[Line], place: usize) -> LoggedCall
    ensures { result ≡ logged_call (specs.line_at lines.now place) }
{
    match lines.get(place) {
        Some(line) => logged(line),
        None => logged(&NO_LINE),
    }
}

/// Where the calls of the lines in this order stand and when they were.
fn all_logged(
    alloc: Global,
    lines: &[Line],
    order: &[Moment],
) -> Result<Vec<LoggedCall>, AllocError>
    ensures { IfOk result (λ calls. calls.items
        ≡ map (λ begin. logged_call (specs.line_at lines.now begin.number)) order.now) }
{
    order
        .iter()
        .map(|begin| logged_at(lines, begin.number))
        .collect(alloc)
}

/// The calls of the lines in the order of their first times, and where each call stands and when it was. Where two
/// first times are equal, the earlier line comes first.
fn by_beginning(alloc: Global, lines: Vec<Line>) -> Result<(Vec<Call>, Vec<LoggedCall>), AllocError>
    ensures { IfOk result (λ both. (sorted : List Line) × AreByFirst lines.items sorted
        × (both.0.items ≡ calls_of sorted) × (both.1.items ≡ map logged_call sorted)) }
{
    let lines = lines.as_slice();
    let order = by_first(alloc, lines)?;
    let calls = calls_of(alloc, lines, order.as_slice())?;
    let logged = all_logged(alloc, lines, order.as_slice())?;
    Ok((calls, logged))
}

/// The log that has these lines, as `log_of` gives it. `odd` is what was kept of their text.
pub(crate) fn log_told(alloc: Global, lines: Vec<Line>, odd: Option<Oddity>) -> Result<Log, Refusal>
    ensures log { MatchResult result (λ log. IsLogOf lines.items log.history log.calls.items)
        (λ refusal. IsImportFault lines.items refusal.fault) }
    ensures plain { IfErr result (λ refusal. refusal.wrong ≡ None) }
{
    if lines.len() > MAX_LOG_CALLS {
        return Err(Refusal::from(ImportFault::TooMany));
    }
    // The lines, which take the most memory, go before the stamps are made.
    let (calls, logged) = by_beginning(alloc, lines)?;
    let found = stamped(alloc, calls.as_slice())?;
    match History::new(found) {
        Ok(history) => Ok(Log {
            history,
            calls: logged,
        }),
        Err(fault) => {
            let cause = call_cause(calls.as_slice(), logged.as_slice(), odd, fault);
            Err(Refusal::from(fault_of(logged.as_slice(), fault)).with_cause(cause))
        }
    }
}

/// The log that has these lines. Its record has the calls in the order of their first times; where two are equal, the
/// earlier line comes first. The log also has where each call stands and when it was. In the record, stamps stand in
/// place of times: the places of the calls' beginnings and ends in the order of time, where at one time beginnings come
/// before ends. So a call precedes another in the record exactly where its last time is less than the other's first.
///
/// Refused: TooMany of over 16,777,215 lines; else the first fault of the record, at the line of its call; Memory where
/// an allocation failed.
pub fn log_of(alloc: Global, lines: Vec<Line>) -> Result<Log, ImportFault>
    ensures { MatchResult result (λ log. IsLogOf lines.items log.history log.calls.items) (IsImportFault lines.items) }
{
    let log = log_told(alloc, lines, None)?;
    Ok(log)
}

/// The record alone of the log that has these lines, with the refusals of `log_of`.
pub fn record_of(alloc: Global, lines: Vec<Line>) -> Result<History, ImportFault>
    ensures { MatchResult result (IsRecordOfLog lines.items) (IsImportFault lines.items) }
{
    let log = log_of(alloc, lines)?;
    Ok(log.history)
}
