//! The answer of the command `least`.
ghost use Rattle.std.specs.Prelude.{ℕ, ◌≡◌, ◌++◌, List, OnOk, IfOk, string_bytes};
ghost use Rattle.kfifo_judge.specs.Bounds.{AreToldBounds, FollowsReason, IsLeastAnswer};
ghost use Rattle.kfifo_judge.specs.Bounds.{bounds_text};

use crate::outcome::Outcome;
use crate::reasons::push_reasons;
use kfifo_model::{History, LoggedCall};
use kfifo_verdict::{Bounds, Evidence, evidence_for_each_k, least_k};
use std::alloc::{AllocError, Global};
use std::fmt::Write;

/// Adds the lines of the bounds.
fn push_bounds(text: &mut String, bounds: Bounds) -> Result<(), AllocError>
    ensures { OnOk result (string_bytes text.new ≡ string_bytes text.old ++ bounds_text bounds) }
{
    let at_least = bounds.at_least;
    writeln!(text, "k at least {at_least}")?;
    match bounds.at_most {
        Some(k) => writeln!(text, "k at most {k}"),
        None => writeln!(text, "k unknown"),
    }
}

/// Returns the text of `least_text`, with the bounds; none where there is evidence for each k. An error means that an
/// allocation failed.
pub fn bounded_text(
    alloc: Global,
    history: &History,
    logged: &[LoggedCall],
    tries: u64,
) -> Result<(String, Option<Bounds>), AllocError>
    ensures { IfOk result (λ a. AreToldBounds logged.now history.now (string_bytes a.0) a.1) }
{
    let found = evidence_for_each_k(alloc, history)?;
    let mut text = String::new(alloc);
    if let Some(found) = &found {
        text.push_str("no order\n")?;
        push_reasons(alloc, &mut text, history, logged, found)?;
        return Ok((text, None));
    }
    let bounds = least_k(alloc, history, tries)?;
    push_bounds(&mut text, bounds)?;
    Ok((text, Some(bounds)))
}

/// Returns between which bounds the least k lies for which a history has a legal order, as a text; or `no order` with
/// the evidence and the calls that it names, where there is evidence for each k. `logged` has the line and the
/// times of each call of a log, and nothing of a record. `tries` is the number of choices that each search for an order
/// may undo. An error means that an allocation failed.
pub fn least_text(
    alloc: Global,
    history: &History,
    logged: &[LoggedCall],
    tries: u64,
) -> Result<(String, Outcome), AllocError>
    ensures { IfOk result (λ a. IsLeastAnswer logged.now history.now (string_bytes a.0) a.1) }
{
    let (text, bounds) = bounded_text(alloc, history, logged, tries)?;
    let said = match bounds {
        Some(_) => Outcome::Answered,
        None => Outcome::Unordered,
    };
    Ok((text, said))
}

/// Adds what `least` says, after evidence that is about one k alone, and returns the bounds that it says.
pub(crate) fn push_following(
    alloc: Global,
    text: &mut String,
    history: &History,
    logged: &[LoggedCall],
    tries: u64,
    found: &Evidence,
) -> Result<Option<Bounds>, AllocError>
    ensures { IfOk result (λ bounds. (rest : List ℕ)
        × FollowsReason logged.now history.now found.now rest bounds
        × (string_bytes text.new ≡ string_bytes text.old ++ rest)) }
{
    if found.is_for_each_k() {
        return Ok(None);
    }
    let (least, bounds) = bounded_text(alloc, history, logged, tries)?;
    text.push_str(&least)?;
    Ok(bounds)
}
