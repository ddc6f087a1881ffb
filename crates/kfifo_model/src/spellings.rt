//! The words of operations and answers, as records and logs spell them.
ghost use Rattle.std.specs.Prelude.{◌≡◌, MatchOption};
ghost use Rattle.kfifo_model.specs.declared.spellings.OpWord.{OpWord};
ghost use Rattle.kfifo_model.specs.Words.{IsAnswerWord, op_text};

use crate::calls::{Answer, Op};

/// The word of an operation.
#[derive(Clone, Copy)]
pub enum OpWord {
    /// `enq`
    Enq,
    /// `deq`
    Deq,
}

impl OpWord {
    /// Returns the operation that a text names, if it names one.
    pub fn of(text: &[u8]) -> Option<OpWord>
        ensures { MatchOption result ((w : OpWord) → text.now ≡ op_text w → ⊥) (λ w. text.now ≡ op_text w) }
    {
        if text == Op::Enqueue(0).word().as_bytes() {
            Some(OpWord::Enq)
        } else if text == Op::Dequeue.word().as_bytes() {
            Some(OpWord::Deq)
        } else {
            None
        }
    }
}

/// The word of an answer.
#[derive(Clone, Copy)]
pub enum AnswerWord {
    /// `done`
    Done,
    /// `full`
    Full,
    /// `got`
    Got,
    /// `empty`
    Empty,
    /// `busy`
    Busy,
    /// `worn`
    Worn,
    /// Any other text.
    Other,
}

impl AnswerWord {
    /// Returns the answer that a text names.
    pub fn of(text: &[u8]) -> AnswerWord
        ensures { IsAnswerWord text.now result }
    {
        if text == Answer::Done.word().as_bytes() {
            AnswerWord::Done
        } else if text == Answer::Full.word().as_bytes() {
            AnswerWord::Full
        } else if text == Answer::Got(0).word().as_bytes() {
            AnswerWord::Got
        } else if text == Answer::Empty.word().as_bytes() {
            AnswerWord::Empty
        } else if text == Answer::Busy.word().as_bytes() {
            AnswerWord::Busy
        } else if text == Answer::Worn.word().as_bytes() {
            AnswerWord::Worn
        } else {
            AnswerWord::Other
        }
    }
}
