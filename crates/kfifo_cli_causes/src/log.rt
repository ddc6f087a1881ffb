//! Logs in CSV.

use crate::call::{Call, Place};
use kfifo_import::{Cause, FaultyCall, Field, ImportFault, Refusal};
use std::alloc::Global;

/// What a header may have.
const ALLOWED: &str = "allowed are thread, op, item, first, last and answer, each once";

/// Returns which line of a log is at fault, its thread and item, and the value that stands there; or what the header or
/// a line lacks. None of other faults, and where memory runs out.
pub fn log_words(alloc: Global, refusal: &Refusal) -> Option<String> {
    let cause = refusal.cause.as_ref()?;
    match refusal.fault {
        ImportFault::Csv(line) => csv_words(alloc, line, cause),
        ImportFault::NumberOutOfRange(_) => call_in(cause)?.out_of_range(alloc),
        ImportFault::WrongAnswer(_) => {
            let answer = answer_in(cause)?;
            call_in(cause)?.wrong_answer(alloc, answer)
        }
        ImportFault::EndsEarly(_) => call_in(cause)?.ends_early(alloc),
        ImportFault::Overlap(_) => call_in(cause)?.overlapped_by(alloc, &earlier_in(cause)?),
        ImportFault::TooMany | ImportFault::NotACall(_) | ImportFault::Memory => None,
    }
}

/// What is wrong with a table at this line: no row, its header, or how many fields the line has.
fn csv_words(alloc: Global, line: u64, cause: &Cause) -> Option<String> {
    match *cause {
        Cause::NoHeader => format!(in alloc; "the log has no header: {ALLOWED}").ok(),
        Cause::Header(field, count) => header_words(alloc, line, field, count),
        Cause::Width(found, wanted) => {
            format!(in alloc;
                "line {line} has {found} fields, allowed are {wanted}, as in the header"
            ).ok()
        }
        Cause::Call(_) | Cause::Overlap(_, _) => None,
    }
}

/// That a header has this field so many times.
fn header_words(alloc: Global, line: u64, field: Field, count: usize) -> Option<String> {
    let name = field.name();
    if count == 0 {
        return format!(in alloc; "line {line}: the header lacks {name}, {ALLOWED}").ok();
    }
    format!(in alloc; "line {line}: the header has {name} {count} times, {ALLOWED}").ok()
}

/// The call of a line.
fn call_of(call: &FaultyCall) -> Call<'static> {
    Call {
        place: Place::Line(call.line),
        thread: call.thread,
        op: call.op.word(),
        item: call.item,
        first: call.first,
        last: call.last,
    }
}

/// The call at fault.
fn call_in(cause: &Cause) -> Option<Call<'static>> {
    match cause {
        Cause::Call(call) | Cause::Overlap(call, _) => Some(call_of(call)),
        Cause::NoHeader | Cause::Header(_, _) | Cause::Width(_, _) => None,
    }
}

/// The call that has not ended when the one at fault begins.
fn earlier_in(cause: &Cause) -> Option<Call<'static>> {
    match cause {
        Cause::Overlap(_, earlier) => Some(call_of(earlier)),
        _ => None,
    }
}

/// What the call at fault answered, as it is shown.
fn answer_in(cause: &Cause) -> Option<&str> {
    match cause {
        Cause::Call(call) => call.answer.as_deref(),
        _ => None,
    }
}
