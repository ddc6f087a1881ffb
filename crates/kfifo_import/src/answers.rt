//! What the calls of a log answered. For a word that no such call returns stands an answer that no such call returns
//! either, by which the record refuses the call.
ghost use Rattle.std.specs.Prelude.{◌≡◌};
ghost use Rattle.kfifo_import.specs.Answers as specs;

use kfifo_model::{Answer, AnswerWord};

/// Returns the answer of an enqueue, Empty for a word that no enqueue returns.
pub fn put_answer(word: AnswerWord) -> Answer
    ensures { result ≡ specs.put_answer word }
{
    match word {
        AnswerWord::Done => Answer::Done,
        AnswerWord::Full => Answer::Full,
        AnswerWord::Busy => Answer::Busy,
        AnswerWord::Worn => Answer::Worn,
        AnswerWord::Got | AnswerWord::Empty | AnswerWord::Other => Answer::Empty,
    }
}

/// Returns the answer of a dequeue, Done for a word that no dequeue returns. Got has this item.
pub fn take_answer(word: AnswerWord, item: u32) -> Answer
    ensures { result ≡ specs.take_answer word item }
{
    match word {
        AnswerWord::Got => Answer::Got(item),
        AnswerWord::Empty => Answer::Empty,
        AnswerWord::Busy => Answer::Busy,
        AnswerWord::Worn => Answer::Worn,
        AnswerWord::Done | AnswerWord::Full | AnswerWord::Other => Answer::Done,
    }
}
