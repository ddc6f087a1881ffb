//! What a picture is made of, whatever its style.
use crate::layout::Layout;
use crate::marks::Marks;
use kfifo_model::{Call, LoggedCall};
use std::alloc::AllocError;
use std::fmt::Write;

/// Of a whole history of more calls than these, a picture says how to draw a part.
const MAX_AT_ONCE: usize = 400;

/// What is drawn, and where.
#[derive(Clone, Copy)]
pub(crate) struct Scene<'a> {
    /// The calls that are drawn.
    pub calls: &'a [Call],
    /// Their numbers in the whole history.
    pub numbers: &'a [usize],
    /// How many calls the whole history has.
    pub whole: usize,
    /// Where the calls of the whole history stand in their log; none of a record.
    pub logged: &'a [LoggedCall],
    /// What is marked.
    pub marks: &'a Marks,
    /// Where the bars stand.
    pub layout: &'a Layout,
}

impl Scene<'_> {
    /// Whether the calls are all, and too many to be looked at.
    pub(crate) fn is_crowded(&self) -> bool {
        self.whole > MAX_AT_ONCE && self.calls.len() == self.whole
    }

    /// Whether some calls are left out.
    pub(crate) fn is_cut(&self) -> bool {
        self.calls.len() < self.whole
    }

    /// Adds how many calls of how many threads are drawn.
    pub(crate) fn push_count(&self, text: &mut String) -> Result<(), AllocError> {
        let (drawn, whole) = (self.calls.len(), self.whole);
        let threads = self.layout.threads.len();
        let call_word = if whole == 1 { "call" } else { "calls" };
        let thread_word = if threads == 1 { "thread" } else { "threads" };
        if self.is_cut() {
            write!(
                text,
                "{drawn} of {whole} {call_word}, of {threads} {thread_word}"
            )
        } else {
            write!(text, "{drawn} {call_word} of {threads} {thread_word}")
        }
    }

    /// Adds how to draw a part.
    pub(crate) fn push_hint(&self, text: &mut String) -> Result<(), AllocError> {
        text.push_str("to draw a part of so many calls: --evidence, --calls or --lines")
    }
}
