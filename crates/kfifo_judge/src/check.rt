//! What `check` says of a record.
ghost use Rattle.std.specs.Prelude.{◌≡◌, ◌≤◌, IfOk, MatchResult, option_map, string_bytes};
ghost use Rattle.kfifo_model.specs.RecordTexts.{line};
ghost use Rattle.kfifo_judge.specs.Check.{verdict_text, verdict_outcome, IsChecked, IsCheckFault};

use crate::outcome::Outcome;
use crate::record::{StreamFault, read_record};
use kfifo_model::{Verdict, check_order, has_order};
use std::alloc::{AllocError, Global};

/// A line's text.
fn line_of(alloc: Global, text: &str) -> Result<String, AllocError>
    ensures { IfOk result (λ s. string_bytes s ≡ line text.now) }
{
    format!(in alloc; "{text}\n")
}

/// What is said of an order.
fn verdict_line(alloc: Global, verdict: Verdict) -> Result<String, AllocError>
    ensures { IfOk result (λ s. string_bytes s ≡ verdict_text verdict) }
{
    match verdict {
        Verdict::Legal => line_of(alloc, "legal"),
        Verdict::Repeats => line_of(alloc, "fault 1 repeats"),
        Verdict::NotACall => line_of(alloc, "fault 2 not a call"),
        Verdict::LeavesOut => line_of(alloc, "fault 3 leaves out"),
        Verdict::BreaksBefore => line_of(alloc, "fault 4 breaks before"),
        Verdict::NotARun(place) => format!(in alloc; "fault 5 not a run at {place}\n"),
    }
}

/// What is said of a history whose order gets this verdict.
fn outcome_of(verdict: Verdict) -> Outcome
    ensures { result ≡ verdict_outcome verdict }
{
    match verdict {
        Verdict::Legal => Outcome::Answered,
        _ => Outcome::Unordered,
    }
}

/// Returns whether the record that a text is has a legal order, or, if an order is given, whether that order is legal:
/// as a line, with the outcome. k is 1 to 64: a dequeue may take any of the k oldest items.
///
/// ```rust
/// let (text, said) = check_text(alloc, bytes.as_slice(), k, order)?;
/// ```
///
/// Refuses: NotJson and Record as `read_record`; Search where no order is given and the record has over 12 calls;
/// Memory where an allocation failed.
pub fn check_text(
    alloc: Global,
    bytes: &[u8],
    k: u32,
    order: Option<&[usize]>,
) -> Result<(String, Outcome), StreamFault>
    requires { (1 ≤ k) × (k ≤ 64) }
    ensures { let o = option_map (λ s. s.now) order.entry in
        MatchResult result (λ a. IsChecked k o bytes.now (string_bytes a.0) a.1) (IsCheckFault o bytes.now) }
{
    let history = read_record(alloc, bytes)?;
    match order {
        Some(order) => {
            let verdict = check_order(alloc, &history, k, order)?;
            Ok((verdict_line(alloc, verdict)?, outcome_of(verdict)))
        }
        None => match has_order(alloc, &history, k) {
            Ok(true) => Ok((line_of(alloc, "order")?, Outcome::Answered)),
            Ok(false) => Ok((line_of(alloc, "no order")?, Outcome::Unordered)),
            Err(fault) => Err(StreamFault::Search(fault)),
        },
    }
}
