//! The lines that a command prints for calls and for words of the table.
ghost use Rattle.std.specs.Prelude.{◌≡◌, ◌++◌, Some, OnOk, codes, string_bytes};
ghost use Rattle.kfifo_cli_texts.specs.Lines.{answer_text, enqueue_line, dequeue_line, ends_lines, slot_line};

use kfifo_model::Answer;
use kfifo_words::{Ends, Word};
use std::alloc::AllocError;
use std::fmt;
use std::fmt::Write;

/// An answer as it is printed.
#[derive(Clone, Copy)]
struct Shown(Answer);

impl fmt::Display for Shown {
    ghost output = { λ shown. Some (answer_text shown.0) };

    fn fmt<W: fmt::Write>(&self, f: &mut fmt::Formatter<W>) -> fmt::Result {
        let word = self.0.word();
        match self.0 {
            Answer::Got(item) => write!(f, "{word} {item}"),
            _ => write!(f, "{word}"),
        }
    }
}

/// Adds the answer with which an event ends a call.
pub(crate) fn push_answer(text: &mut String, answer: Answer) -> Result<(), AllocError>
    ensures { OnOk result (string_bytes text.new
        ≡ string_bytes text.old ++ (codes " and returns " ++ answer_text answer)) }
{
    let answer = Shown(answer);
    write!(text, " and returns {answer}")
}

/// Adds the line of an enqueue.
pub fn push_enqueue(text: &mut String, item: u32, answer: Answer) -> Result<(), AllocError>
    ensures { OnOk result (string_bytes text.new ≡ string_bytes text.old ++ enqueue_line item answer) }
{
    let answer = Shown(answer);
    writeln!(text, "enqueue {item}: {answer}")
}

/// Adds the line of a dequeue.
pub fn push_dequeue(text: &mut String, answer: Answer) -> Result<(), AllocError>
    ensures { OnOk result (string_bytes text.new ≡ string_bytes text.old ++ dequeue_line answer) }
{
    let answer = Shown(answer);
    writeln!(text, "dequeue: {answer}")
}

/// Adds the lines of the head and of the tail.
pub fn push_ends(text: &mut String, ends: Ends) -> Result<(), AllocError>
    ensures { OnOk result (string_bytes text.new ≡ string_bytes text.old ++ ends_lines ends) }
{
    let (head, tail, version) = (ends.head(), ends.tail(), ends.version());
    writeln!(text, "head {head} v{version}")?;
    writeln!(text, "tail {tail} v{version}")
}

/// Adds the line of a slot.
pub fn push_slot(text: &mut String, segment: u32, slot: u32, word: Word) -> Result<(), AllocError>
    ensures { OnOk result (string_bytes text.new ≡ string_bytes text.old ++ slot_line segment slot word) }
{
    let (value, version) = (word.value(), word.version());
    writeln!(text, "slot {segment}.{slot} {value} v{version}")
}
