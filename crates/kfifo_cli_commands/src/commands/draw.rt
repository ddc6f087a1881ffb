//! The command `draw`: a picture of a record or a log, or of a part of it.
ghost use Rattle.std.specs.Prelude.{◌≡◌, ◌≢◌, ◌≤◌, ◌⊎◌, ℕ, List, None, true, IfErr, IfOk, IsSome};
ghost use Rattle.std.specs.Prelude.{MatchResult, length, option_map};
ghost use Rattle.kfifo_cli_commands.specs.Cuts.{LacksEvidence};
ghost use Rattle.kfifo_cli_commands.specs.Inputs.{IsCalls, read_from};
ghost use Rattle.kfifo_cli_commands.specs.Pictures.{HasFew, IsDraw, IsDrawRefusal, IsNoPicture, IsNotDrawn};
ghost use Rattle.kfifo_cli_commands.specs.Pictures.{IsPicture, IsPictureOf};
ghost use Rattle.kfifo_cli_commands.specs.Records.{IsOrder, IsOrderFault, FailsWell};
ghost use Rattle.kfifo_draw.specs.Drawing.{AreFew, AreMany, IsInPart};

use crate::calls::{Calls, read_calls_given};
use crate::cut::{Cut, cut_of, is_of_lines, part_of};
use crate::failure::Failure;
use crate::progress::Progress;
use kfifo_cli_requests::DrawOptions;
use kfifo_cli_texts::{Fault, order_of};
use kfifo_draw::{DEFAULT_WIDTH, DrawFault, Drawing, Marking, Part, Style, draw};
use kfifo_judge::{Source, named_calls, title_of};
use kfifo_model::{History, LoggedCall};
use kfifo_verdict::evidence;
use std::alloc::Global;
use std::rt::Files;

/// The picture of the calls of the file, or of the input where no file is named: of all of them, or of the part that
/// the options ask for.
pub fn answer<H: Files, S: Source, P: Progress>(
    alloc: Global,
    files: &H,
    options: DrawOptions<'_>,
    input: &mut S,
    progress: &mut P,
) -> Result<String, Failure>
    ensures ok { IfOk result (λ _. IsDraw options.entry (read_from options.entry.file (S.remaining input.old))) }
    ensures err { IfErr result (λ failure. IsDrawRefusal options.entry
        (read_from options.entry.file (S.remaining input.old)) (S.failed input.old) (S.failed input.new)
        failure.fault) }
    ensures silent { IfErr result (λ failure. failure.fault ≢ Fault.Output) }
    ensures reads { FailsWell result (S.failed input.old) (S.failed input.new) }
    ensures aside { IsSome options.entry.file → input.new ≡ input.old }
{
    let cut = cut_of(options)?;
    let order = order_given(alloc, files, options)?;
    let calls = read_calls_given(alloc, files, options.file, input, progress)?;
    let text = picture(alloc, &calls, options, cut, &order)?;
    Ok(text)
}

/// The order that is to be drawn too, where one is given.
fn order_given<H: Files>(
    alloc: Global,
    files: &H,
    options: DrawOptions<'_>,
) -> Result<Option<Vec<usize>>, Fault>
    ensures ok { IfOk result (λ order. IsOrder options.entry.check (option_map (λ o. o.items) order)) }
    ensures err { IfErr result (λ fault. (fault ≡ Fault.Memory)
        ⊎ ((fault ≡ Fault.Order) × IsOrderFault options.entry.check)) }
{
    let Some(text) = options.check.order else {
        return Ok(None);
    };
    let order = order_of(alloc, files, text)?;
    Ok(Some(order))
}

/// What the picture is made of.
fn style_of(options: DrawOptions<'_>) -> Style {
    if options.text {
        Style::Text
    } else {
        Style::Svg {
            width: options.width.unwrap_or(DEFAULT_WIDTH),
        }
    }
}

/// The picture of these calls of an input, with this order.
fn picture<'x>(
    alloc: Global,
    calls: &'x Calls,
    options: DrawOptions<'_>,
    cut: Cut,
    order: &'x Option<Vec<usize>>,
) -> Result<String, Fault>
    ensures { (bytes : List ℕ) → IsCalls bytes calls.now.history (option_map (λ logged. logged.items) calls.now.logged)
        → MatchResult result (λ _. IsPicture options.entry.check.k options.entry.evidence cut bytes)
        (λ fault. IsNoPicture options.entry.check.k options.entry.evidence cut bytes fault) }
{
    let history = &calls.history;
    if let Some(logged) = &calls.logged {
        let text = picture_of(alloc, history, logged.as_slice(), options, cut, order)?;
        return Ok(text);
    }
    if is_of_lines(cut) {
        return Err(Fault::NoLines);
    }
    let text = picture_of(alloc, history, &[], options, cut, order)?;
    Ok(text)
}

/// The picture of these calls of a history, with this order.
#[tactic(auto, using(crate::proofs::Picturing::plain_refused))]
fn picture_of<'x>(
    alloc: Global,
    history: &History,
    logged: &'x [LoggedCall],
    options: DrawOptions<'_>,
    cut: Cut,
    order: &'x Option<Vec<usize>>,
) -> Result<String, Fault>
    ensures { MatchResult result (λ _. IsPictureOf HasFew options.entry.check.k options.entry.evidence cut history.now
        logged.now)
        (IsNotDrawn options.entry.check.k options.entry.evidence cut history.now logged.now) }
{
    let (k, style) = (options.check.k, style_of(options));
    if options.evidence {
        return picture_of_evidence(alloc, history, logged, k, style, cut);
    }
    let marking = match order {
        Some(order) => Marking::Order(order.as_slice()),
        None => Marking::Nothing,
    };
    let part = part_of(cut, None);
    let text = draw(
        alloc,
        history,
        &Drawing {
            style,
            part,
            marking,
            k,
            logged,
        },
    )?;
    Ok(text)
}

/// The picture of these calls of a history, in which those that the evidence names are marked.
#[tactic(auto, using(crate::proofs::Picturing::none_refused))]
fn picture_of_evidence(
    alloc: Global,
    history: &History,
    logged: &[LoggedCall],
    k: u32,
    style: Style,
    cut: Cut,
) -> Result<String, Fault>
    requires { (1 ≤ k) × (k ≤ 64) }
    ensures { MatchResult result (λ _. IsPictureOf HasFew k true cut history.now logged.now)
        (IsNotDrawn k true cut history.now logged.now) }
{
    let found = evidence(alloc, history, k)?;
    let reason = title_of(alloc, history, logged, k, &found)?;
    let why = reason.as_str();
    let Some(found) = found else {
        let none: Vec<usize> = Vec::new(alloc);
        let part = part_of(cut, None);
        return match marked(alloc, history, style, part, none.as_slice(), why, k, logged) {
            Ok(text) => Ok(text),
            Err(fault) => Err(fault_without_evidence(fault, cut)),
        };
    };
    let named = named_calls(alloc, history, &found)?;
    let part = part_of(cut, Some(named.as_slice()));
    let text = marked(
        alloc,
        history,
        style,
        part,
        named.as_slice(),
        why,
        k,
        logged,
    )?;
    Ok(text)
}

/// The fault of a picture where there is no evidence.
fn fault_without_evidence(fault: DrawFault, cut: Cut) -> Fault
    ensures memory { fault ≡ DrawFault.Memory → result ≡ Fault.Memory }
    ensures lacks { fault ≡ DrawFault.TooMany → LacksEvidence true None cut → result ≡ Fault.NoEvidence }
    ensures many { fault ≡ DrawFault.TooMany → ¬ (LacksEvidence true None cut) → result ≡ Fault.TooManyDrawn }
{
    match fault {
        DrawFault::TooMany => match cut {
            Cut::Evidence(_) => Fault::NoEvidence,
            Cut::Whole | Cut::Calls(_) | Cut::Lines(_) => Fault::TooManyDrawn,
        },
        DrawFault::Memory => Fault::Memory,
    }
}

/// The picture of a part of a history, in which these calls are marked for this reason.
// It is a function of its own, since what borrows several values can be put together only where all have one lifetime.
fn marked<'x>(
    alloc: Global,
    history: &History,
    style: Style,
    part: Part<'x>,
    named: &'x [usize],
    reason: &'x str,
    k: u32,
    logged: &'x [LoggedCall],
) -> Result<String, DrawFault>
    requires { (1 ≤ k) × (k ≤ 64) }
    ensures { MatchResult result (λ _. AreFew (IsInPart history.now logged.now part.entry) (length history.now))
        (λ fault. fault ≡ DrawFault.TooMany
        → AreMany (IsInPart history.now logged.now part.entry) (length history.now)) }
{
    let marking = Marking::Calls(named, reason);
    let drawing = Drawing::new(style, part, marking, k, logged);
    draw(alloc, history, &drawing)
}
