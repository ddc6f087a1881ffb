//! What stands at the fault of a log: in its header, or in the line of a call.

use crate::log::Line;
use crate::table::{Columns, whole};
use crate::wrong::{FIELDS, Field, shown, text_in};
use csv::ByteRecord;
use kfifo_model::{Answer, Call, LoggedCall, Op, RecordFault};
use std::alloc::Global;

/// A call at fault, as its line has it.
#[derive(Drop)]
pub struct FaultyCall {
    /// The number of the line, from 1.
    pub line: u64,
    /// The thread.
    pub thread: u64,
    /// The operation. Its item is at most 4,294,967,295.
    pub op: Op,
    /// The item of the line; none where it has none.
    pub item: Option<u64>,
    /// When the call began.
    pub first: u64,
    /// When the call ended; none of an unfinished call.
    pub last: Option<u64>,
    /// Where no call of the operation answers so, the answer as `shown` shows it. None also where memory ran out.
    pub answer: Option<String>,
}

impl FaultyCall {
    /// The call with this number, without its answer. A thread of over 32 bits is 4,294,967,295.
    fn at(calls: &[Call], logged: &[LoggedCall], number: usize) -> Option<FaultyCall> {
        let (call, logged) = (calls.get(number)?, logged.get(number)?);
        Some(FaultyCall {
            line: logged.line,
            thread: u64::from(call.thread),
            op: call.op,
            item: logged.item,
            first: logged.first,
            last: logged.last,
            answer: None,
        })
    }

    /// The same call with what its line alone has, where that was kept.
    fn with_oddity(self, odd: Option<Oddity>) -> FaultyCall {
        match odd {
            Some(odd) if odd.line == self.line => FaultyCall {
                line: self.line,
                thread: odd.thread,
                op: self.op,
                item: self.item,
                first: self.first,
                last: self.last,
                answer: odd.answer,
            },
            _ => self,
        }
    }
}

/// What stands at a fault.
#[derive(Drop)]
pub enum Cause {
    /// The log has no header.
    NoHeader,
    /// The header has this field so many times, and not once. It is the first such field.
    Header(Field, usize),
    /// The line has so many fields, and the header has so many.
    Width(usize, usize),
    /// The line of a call.
    Call(FaultyCall),
    /// The line of a call, and the earlier call of its thread that has not ended when it begins.
    Overlap(FaultyCall, FaultyCall),
}

/// How often a header has a field.
fn count_of(header: &ByteRecord, field: Field) -> usize {
    let mut count: usize = 0;
    for place in 0..header.len() {
        if header.get(place) == Some(field.name().as_bytes()) {
            count = count.saturating_add(1);
        }
    }
    count
}

/// Which field a header lacks, or has several times.
pub(crate) fn header_cause(header: &ByteRecord) -> Option<Cause> {
    for number in 0..FIELDS.len() {
        let field = FIELDS[number];
        let count = count_of(header, field);
        if count != 1 {
            return Some(Cause::Header(field, count));
        }
    }
    None
}

/// What the line of a call has and its record cannot have: a thread of over 32 bits, or an answer that no call of the
/// operation returns.
#[derive(Drop)]
pub(crate) struct Oddity {
    line: u64,
    first: u64,
    thread: u64,
    answer: Option<String>,
}

/// Whether a call has an answer that stands for one that no call of its operation returns.
fn has_other_answer(call: &Call) -> bool {
    match (call.op, call.end) {
        (Op::Enqueue(_), Some(end)) => end.answer == Answer::Empty,
        (Op::Dequeue, Some(end)) => end.answer == Answer::Done,
        (_, None) => false,
    }
}

/// Whether the line of a call may have what its record cannot have.
pub(crate) fn is_odd(call: &Call) -> bool {
    call.thread == u32::MAX || has_other_answer(call)
}

/// Of what was kept of earlier lines and of this one, that of the call that begins first.
// A record has this one's fault or an earlier one, so no other call at fault needs what its line alone has.
pub(crate) fn oddity_of(
    alloc: Global,
    kept: Option<Oddity>,
    row: &ByteRecord,
    columns: &Columns,
    line: &Line,
) -> Option<Oddity> {
    match kept {
        Some(odd) if odd.first <= line.call.first => Some(odd),
        _ => Some(Oddity {
            line: line.number,
            first: line.call.first,
            thread: whole(text_in(row, columns.thread)).unwrap_or(u64::from(line.call.thread)),
            answer: shown(alloc, text_in(row, columns.answer)).ok(),
        }),
    }
}

/// Whether a call, an earlier one of the same thread, has not ended when the other begins.
fn overlaps(earlier: &Call, call: &Call) -> bool {
    earlier.thread == call.thread
        && match earlier.end {
            Some(end) => end.last >= call.first,
            None => true,
        }
}

/// The last call before the one with this number that is of its thread and has not ended when it begins.
fn earlier_of(calls: &[Call], number: usize) -> Option<usize> {
    let call = calls.get(number)?;
    let mut found = None;
    for (place, earlier) in calls.iter().enumerate() {
        if place < number && overlaps(earlier, call) {
            found = Some(place);
        }
    }
    found
}

/// What stands at a fault of the record of a log. The calls have times in place of steps.
pub(crate) fn call_cause(
    calls: &[Call],
    logged: &[LoggedCall],
    odd: Option<Oddity>,
    fault: RecordFault,
) -> Option<Cause> {
    match fault {
        RecordFault::NumberOutOfRange(number)
        | RecordFault::WrongAnswer(number)
        | RecordFault::EndsEarly(number) => {
            let call = FaultyCall::at(calls, logged, number)?;
            Some(Cause::Call(call.with_oddity(odd)))
        }
        RecordFault::Overlap(number) => {
            let earlier = earlier_of(calls, number)?;
            Some(Cause::Overlap(
                FaultyCall::at(calls, logged, number)?,
                FaultyCall::at(calls, logged, earlier)?,
            ))
        }
        RecordFault::NotAList
        | RecordFault::TooMany
        | RecordFault::NotACall(_)
        | RecordFault::OutOfOrder(_)
        | RecordFault::Memory => None,
    }
}
