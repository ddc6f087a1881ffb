//! A verdict in one line, for the judge of many files.
ghost use Rattle.std.specs.Prelude.{◌≡◌, ◌≤◌, ◌++◌, IfOk, OnOk, string_bytes};
ghost use Rattle.kfifo_judge.specs.Briefs.{IsBrief, counted, said_of};

use crate::headlines::headline;
use crate::judgement::push_stuck;
use crate::outcome::Outcome;
use kfifo_model::{History, LoggedCall};
use kfifo_verdict::{Judgement, judge_and_count};
use std::alloc::{AllocError, Global};

/// A verdict, with the number of calls that it is about.
fn counted(alloc: Global, verdict: &str, history: &History) -> Result<String, AllocError>
    ensures { IfOk result (λ text. string_bytes text ≡ counted verdict.now history.now) }
{
    let calls = history.calls().len();
    format!(in alloc; "{verdict}, calls {calls}")
}

/// Adds why a verdict is so.
fn push_said(text: &mut String, said: &str) -> Result<(), AllocError>
    ensures { OnOk result (string_bytes text.new ≡ string_bytes text.old ++ said_of said.now) }
{
    text.push_str(": ")?;
    text.push_str(said)
}

/// Returns a verdict on a history, for a queue that may give any of its k oldest items, 1 to 64, in one line of words
/// without a line feed, as `no order, calls 809: item 2 came out, and item 1, which went in before, had not`. `logged`
/// and `tries` are as of `judge_text`. It makes no bounds of the least k, which that text has behind some evidence. An
/// error means that an allocation failed.
pub fn judge_brief(
    alloc: Global,
    history: &History,
    logged: &[LoggedCall],
    k: u32,
    tries: u64,
) -> Result<(String, Outcome), AllocError>
    requires { (1 ≤ k) × (k ≤ 64) }
    ensures { IfOk result (λ a. IsBrief k logged.now history.now (string_bytes a.0) a.1) }
{
    let (judgement, _) = judge_and_count(alloc, history, k, tries)?;
    match &judgement {
        Judgement::Legal(_) => Ok((counted(alloc, "legal", history)?, Outcome::Answered)),
        Judgement::NoOrder(found) => {
            let said = headline(alloc, history, logged, found)?;
            let mut text = counted(alloc, "no order", history)?;
            push_said(&mut text, said.as_str())?;
            Ok((text, Outcome::Unordered))
        }
        Judgement::Undecided(stuck) => {
            let mut text = counted(alloc, "undecided", history)?;
            text.push_str(": ")?;
            push_stuck(&mut text, *stuck)?;
            Ok((text, Outcome::Undecided))
        }
    }
}
