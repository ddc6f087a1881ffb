//! The answer of the command `judge`.
ghost use Rattle.std.specs.Prelude.{◌≡◌, ◌≤◌, ◌++◌, IfOk, List, OnOk, codes, decimal, string_bytes, ℕ};
ghost use Rattle.kfifo_model.specs.RecordTexts.{line};
ghost use Rattle.kfifo_model.specs.Histories.{IsLegal};
ghost use Rattle.kfifo_model.specs.Ranks.{ranks_of};
ghost use Rattle.kfifo_judge.specs.Bounds.{FollowsReason};
ghost use Rattle.kfifo_verdict.specs.Remainder.{items_left};
ghost use Rattle.kfifo_judge.specs.Judgements.{IsJudgeAnswer, IsJudged, IsNoOrderText, IsUndecidedText};
ghost use Rattle.kfifo_judge.specs.Judgements.{about, legal_text};
ghost use Rattle.kfifo_judge.specs.Judgements.{counts_line, outcome, shown_line, stuck_text, stuck_words, worst_line};
ghost use Rattle.kfifo_judge.specs.Numbers.{greatest};
ghost use Rattle.kfifo_judge.specs.Repeats.{IsRepeatNote};

use crate::bounds::push_following;
use crate::numbers::{greatest_of, push_numbers};
use crate::outcome::Outcome;
use crate::reasons::push_reasons;
use kfifo_model::{History, LoggedCall, RankFault, items_repeat, ranks};
use kfifo_verdict::{Bounds, Evidence, GivenUp, Judgement, judge_and_count};
use std::alloc::{AllocError, Global};
use std::fmt::Write;

/// Adds a verdict and the k that it is about.
fn push_about(text: &mut String, verdict: &str, k: u32) -> Result<(), AllocError>
    ensures { OnOk result (string_bytes text.new ≡ string_bytes text.old ++ about verdict.now k) }
{
    writeln!(text, "{verdict} for k = {k}")
}

/// The greatest rank of a dequeue in a legal order.
fn worst_rank(alloc: Global, history: &History, k: u32, order: &[usize]) -> Result<u32, AllocError>
    requires places { (1 ≤ k) × (k ≤ 64) }
    requires legal { IsLegal k history.now order.now }
    ensures { IfOk result (λ rank. rank ≡ greatest (ranks_of k history.now order.now)) }
{
    // A plain queue passes over nothing.
    if k == 1 {
        return Ok(0);
    }
    match ranks(alloc, history, k, order) {
        Ok(found) => Ok(greatest_of(found.as_slice())),
        Err(RankFault::Memory) => Err(AllocError),
        Err(RankFault::NotLegal) => unreachable!(),
    }
}

/// Adds the greatest rank of an order.
fn push_worst(text: &mut String, worst: u32) -> Result<(), AllocError>
    ensures { OnOk result (string_bytes text.new ≡ string_bytes text.old ++ worst_line worst) }
{
    writeln!(text, "worst rank {worst}")
}

/// Adds the order, where it is to be shown.
fn push_shown(text: &mut String, order: &[usize], show: bool) -> Result<(), AllocError>
    ensures { OnOk result (string_bytes text.new ≡ string_bytes text.old ++ shown_line show order.now) }
{
    if show {
        push_numbers(text, "order ", order)
    } else {
        Ok(())
    }
}

/// Adds how many items are left at the end.
fn push_left(text: &mut String, left: usize) -> Result<(), AllocError>
    ensures { OnOk result (string_bytes text.new
        ≡ string_bytes text.old ++ line (codes ", items left " ++ decimal left)) }
{
    writeln!(text, ", items left {left}")
}

/// Adds how many calls there are, and how many items are left at the end.
fn push_counts(text: &mut String, history: &History, left: usize) -> Result<(), AllocError>
    requires { left ≡ items_left history.now }
    ensures { OnOk result (string_bytes text.new ≡ string_bytes text.old ++ counts_line history.now) }
{
    let calls = history.calls().len();
    write!(text, "calls {calls}")?;
    push_left(text, left)
}

/// What is said of a legal order.
fn legal(
    alloc: Global,
    history: &History,
    k: u32,
    order: &[usize],
    show: bool,
    left: usize,
) -> Result<String, AllocError>
    requires places { (1 ≤ k) × (k ≤ 64) }
    requires legal { IsLegal k history.now order.now }
    requires left { left ≡ items_left history.now }
    ensures { IfOk result (λ text. string_bytes text ≡ legal_text k show history.now order.now) }
{
    let worst = worst_rank(alloc, history, k, order)?;
    let mut text = String::new(alloc);
    push_about(&mut text, "legal", k)?;
    push_worst(&mut text, worst)?;
    push_shown(&mut text, order, show)?;
    push_counts(&mut text, history, left)?;
    Ok(text)
}

/// A verdict on a history, and what is said of it.
#[derive(Drop)]
pub struct Judged {
    /// The verdict.
    pub judgement: Judgement,
    /// Its text, as `judge_text` says it.
    pub text: String,
    /// The bounds of the least k that the text says; none where it says none.
    pub bounds: Option<Bounds>,
    /// How many items are left at the end.
    pub left: usize,
}

/// What is said of evidence that there is no order, and the bounds that are said.
fn no_order(
    alloc: Global,
    history: &History,
    logged: &[LoggedCall],
    k: u32,
    tries: u64,
    found: &Evidence,
    left: usize,
) -> Result<(String, Option<Bounds>), AllocError>
    requires { left ≡ items_left history.now }
    ensures { IfOk result (λ a. IsNoOrderText k logged.now history.now found.now (string_bytes a.0) a.1) }
{
    let mut text = String::new(alloc);
    push_about(&mut text, "no order", k)?;
    push_reasons(alloc, &mut text, history, logged, found)?;
    push_counts(&mut text, history, left)?;
    let bounds = push_following(alloc, &mut text, history, logged, tries, found)?;
    Ok((text, bounds))
}

/// Why the search stopped.
fn reason_of(stuck: GivenUp) -> &'static str
    ensures { result.now ≡ stuck_words stuck }
{
    match stuck {
        GivenUp::TriesRanOut(_) => "the tries ran out",
        GivenUp::NothingLeft(_) => "nothing is left to try",
    }
}

/// Adds why the search stopped, and after how many tries.
pub(crate) fn push_stuck(text: &mut String, stuck: GivenUp) -> Result<(), AllocError>
    ensures { OnOk result (string_bytes text.new ≡ string_bytes text.old ++ stuck_text stuck) }
{
    let (reason, tries) = (reason_of(stuck), stuck.tries());
    let unit = if tries == 1 { "try" } else { "tries" };
    write!(text, "{reason} after {tries} {unit}")
}

/// Adds that items repeat, where they do.
fn push_repeat_note(alloc: Global, text: &mut String, history: &History) -> Result<(), AllocError>
    ensures { OnOk result ((note : List ℕ) × IsRepeatNote history.now note
        × (string_bytes text.new ≡ string_bytes text.old ++ note)) }
{
    if items_repeat(alloc, history)? {
        text.push_str("; items repeat")
    } else {
        Ok(())
    }
}

/// What is said where neither an order nor evidence was found.
fn undecided(alloc: Global, history: &History, k: u32, stuck: GivenUp) -> Result<String, AllocError>
    ensures { IfOk result (λ text. IsUndecidedText k history.now stuck (string_bytes text)) }
{
    let mut text = String::new(alloc);
    push_about(&mut text, "undecided", k)?;
    push_stuck(&mut text, stuck)?;
    push_repeat_note(alloc, &mut text, history)?;
    text.push('\n')?;
    Ok(text)
}

/// What a verdict says of a history.
pub(crate) fn outcome_of(judgement: &Judgement) -> Outcome
    ensures { result ≡ outcome judgement.now }
{
    match judgement {
        Judgement::Legal(_) => Outcome::Answered,
        Judgement::NoOrder(_) => Outcome::Unordered,
        Judgement::Undecided(_) => Outcome::Undecided,
    }
}

/// Returns a verdict on a history, with its text, as `judge_text` says it. An error means that an allocation failed.
pub fn judged_text(
    alloc: Global,
    history: &History,
    logged: &[LoggedCall],
    k: u32,
    tries: u64,
    show: bool,
) -> Result<Judged, AllocError>
    requires { (1 ≤ k) × (k ≤ 64) }
    ensures { IfOk result (IsJudged k show logged.now history.now) }
{
    let (judgement, left) = judge_and_count(alloc, history, k, tries)?;
    let (text, bounds) = match &judgement {
        Judgement::Legal(order) => (legal(alloc, history, k, order, show, left)?, None),
        Judgement::NoOrder(found) => no_order(alloc, history, logged, k, tries, found, left)?,
        Judgement::Undecided(stuck) => (undecided(alloc, history, k, *stuck)?, None),
    };
    Ok(Judged {
        judgement,
        text,
        bounds,
        left,
    })
}

/// Returns a verdict on a history for a queue that may give any of its k oldest items, 1 to 64, as a text: `legal` with
/// the greatest rank of the order that was found, and the order itself where it is to be shown; or `no order` with the
/// evidence, the calls that it names and, where it is about this k alone, bounds of the least k; or `undecided` with
/// the reason. `legal` and `no order` have a line more, of how many calls there are and how many items are left at the
/// end. `logged` has the line and the times of each call, where the history is the record of a log. `tries` is
/// the number of choices that each search for an order may undo. An error means that an allocation failed.
pub fn judge_text(
    alloc: Global,
    history: &History,
    logged: &[LoggedCall],
    k: u32,
    tries: u64,
    show: bool,
) -> Result<(String, Outcome), AllocError>
    requires { (1 ≤ k) × (k ≤ 64) }
    ensures { IfOk result (λ a. IsJudgeAnswer k show logged.now history.now (string_bytes a.0) a.1) }
{
    let judged = judged_text(alloc, history, logged, k, tries, show)?;
    let said = outcome_of(&judged.judgement);
    Ok((judged.text, said))
}
