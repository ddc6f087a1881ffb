//! Calls that are at fault.

use kfifo_model::{MAX_ITEM, MAX_THREADS};
use std::alloc::{AllocError, Global};
use std::fmt;
use std::fmt::Write;

/// Where a call stands in its input.
#[derive(Clone, Copy, Debug, PartialEq, Eq)]
pub(crate) enum Place {
    /// The number of a call in a record, from 0.
    Call(usize),
    /// The number of a line of a log, from 1.
    Line(u64),
}

impl fmt::Display for Place {
    fn fmt<W: fmt::Write>(&self, f: &mut fmt::Formatter<W>) -> fmt::Result {
        match *self {
            Place::Call(number) => write!(f, "call {number}"),
            Place::Line(number) => write!(f, "line {number}"),
        }
    }
}

/// A call as its input has it, with numbers of any size.
#[derive(Clone, Copy)]
pub(crate) struct Call<'a> {
    pub(crate) place: Place,
    pub(crate) thread: u64,
    pub(crate) op: &'a str,
    pub(crate) item: Option<u64>,
    pub(crate) first: u64,
    pub(crate) last: Option<u64>,
}

impl Call<'_> {
    /// Where the call stands, and whose it is.
    fn title(&self, alloc: Global) -> Result<String, AllocError> {
        let (place, thread, op) = (self.place, self.thread, self.op);
        match self.item {
            Some(item) => format!(in alloc; "{place}, thread {thread}, {op} {item}"),
            None => format!(in alloc; "{place}, thread {thread}, {op}"),
        }
    }

    /// That the thread or the item is out of its range; none where both are in it.
    pub(crate) fn out_of_range(&self, alloc: Global) -> Option<String> {
        let title = self.title(alloc).ok()?;
        let thread = self.thread;
        if thread >= u64::from(MAX_THREADS) {
            return format!(in alloc; "{title}: thread is {thread}, allowed are 0 to 63").ok();
        }
        let item = self.item?;
        if item == 0 || item > u64::from(MAX_ITEM) {
            return format!(in alloc; "{title}: item is {item}, allowed are 1 to 16,777,215").ok();
        }
        None
    }

    /// That the answer, which is shown so, is none of the operation's.
    pub(crate) fn wrong_answer(&self, alloc: Global, answer: &str) -> Option<String> {
        let title = self.title(alloc).ok()?;
        let (first, second) = if self.op == "enq" {
            ("done", "full")
        } else {
            ("got", "empty")
        };
        let allowed = format!(in alloc; "{first}, {second}, busy and worn").ok()?;
        format!(in alloc; "{title}: answer is {answer}, allowed are {allowed}").ok()
    }

    /// That the call ends before it begins; none where it does not.
    pub(crate) fn ends_early(&self, alloc: Global) -> Option<String> {
        let title = self.title(alloc).ok()?;
        let (first, last) = (self.first, self.last?);
        if last >= first {
            return None;
        }
        format!(in alloc;
            "{title}: last is {last}, allowed are its first, {first}, and greater ones"
        ).ok()
    }

    /// That the call does not begin after the one before it; none where it does.
    pub(crate) fn out_of_order(&self, alloc: Global, before: &Call<'_>) -> Option<String> {
        let title = self.title(alloc).ok()?;
        let (first, place, least) = (self.first, before.place, before.first);
        if first > least {
            return None;
        }
        format!(in alloc;
            "{title}: first is {first}, allowed are numbers above {least}, which {place} has"
        ).ok()
    }

    /// Whether this call, an earlier one of the same thread, has not ended before the other begins.
    pub(crate) fn overlaps(&self, other: &Call<'_>) -> bool {
        if self.thread != other.thread {
            return false;
        }
        match self.last {
            Some(last) => last >= other.first,
            None => true,
        }
    }

    /// That an earlier call of the thread has not ended before this one begins.
    pub(crate) fn overlapped_by(&self, alloc: Global, earlier: &Call<'_>) -> Option<String> {
        let title = self.title(alloc).ok()?;
        let (first, place) = (self.first, earlier.place);
        match earlier.last {
            Some(last) => {
                format!(in alloc;
                    "{title}: first is {first}, allowed are numbers above {last}, the last of {place}, which \
                     is of the same thread"
                )
                .ok()
            }
            None => {
                format!(in alloc;
                    "{title}: first is {first}, and {place}, which is of the same thread, has not ended"
                ).ok()
            }
        }
    }
}
