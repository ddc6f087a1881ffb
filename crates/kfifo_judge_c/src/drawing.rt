//! Pictures of the calls of C.
ghost use Rattle.std.specs.Prelude.{◌≡◌, ◌≤◌, IfOk, MatchResult, false, length, true};
ghost use Rattle.kfifo_draw.specs.Drawing.{AreFew, AreMany, IsInPart};
ghost use Rattle.kfifo_judge_c.specs.Pictures.{HasStatus, IsPictureOn};
ghost use Rattle.kfifo_judge_c.specs.Reports.{IsFoundOf, IsK};

use crate::calls::{LogCall, log_from};
use crate::judging::fault_report;
use crate::report::Report;
use crate::status::{DRAWN, FAULT};
use kfifo_draw::{DEFAULT_WIDTH, DrawFault, Drawing, Marking, Part, Style, draw};
use kfifo_judge::{named_calls, title_of};
use kfifo_model::{History, LoggedCall};
use kfifo_verdict::evidence;
use std::alloc::{AllocError, Global};
use std::fmt::Write;

/// Within how many calls of a named one further calls are drawn.
pub(crate) const AROUND: usize = 8;

/// What a picture is made of.
fn style_of(svg: bool) -> Style {
    if svg {
        Style::Svg {
            width: DEFAULT_WIDTH,
        }
    } else {
        Style::Text
    }
}

/// The picture of a part of a history, with these calls marked for this reason.
// It is a function of its own, since what borrows several values can be put together only where all have one lifetime.
fn drawn<'x>(
    alloc: Global,
    history: &History,
    logged: &'x [LoggedCall],
    k: u32,
    svg: bool,
    part: Part<'x>,
    marking: Marking<'x>,
) -> Result<String, DrawFault>
    requires { IsK k }
    ensures { MatchResult result (λ _. AreFew (IsInPart history.now logged.now part.entry) (length history.now))
        (λ fault. fault ≡ DrawFault.TooMany
        → AreMany (IsInPart history.now logged.now part.entry) (length history.now)) }
{
    let style = style_of(svg);
    draw(
        alloc,
        history,
        &Drawing {
            style,
            part,
            marking,
            k,
            logged,
        },
    )
}

/// The report of a picture, or of there being none.
fn report_of(alloc: Global, picture: Result<String, DrawFault>) -> Result<Report, AllocError>
    ensures { IfOk result (λ r. MatchResult picture (λ _. HasStatus DRAWN r)
        (λ fault. (fault ≡ DrawFault.TooMany) × HasStatus FAULT r)) }
{
    match picture {
        Ok(text) => Ok(Report::plain(alloc, DRAWN, text)),
        Err(DrawFault::Memory) => Err(AllocError),
        Err(fault) => {
            let mut text = String::new(alloc);
            writeln!(text, "{fault}")?;
            Ok(Report::plain(alloc, FAULT, text))
        }
    }
}

/// The picture of a history in which the calls that the evidence names are marked, or of all of it where there is none.
fn evidence_on(
    alloc: Global,
    history: &History,
    logged: &[LoggedCall],
    k: u32,
    svg: bool,
) -> Result<Report, AllocError>
    requires { IsK k }
    ensures { IfOk result (IsPictureOn k true history.now logged.now) }
{
    let found = evidence(alloc, history, k)?;
    let title = title_of(alloc, history, logged, k, &found)?;
    let Some(found) = found else {
        let marking = Marking::Calls(&[], title.as_str());
        return report_of(
            alloc,
            drawn(alloc, history, logged, k, svg, Part::All, marking),
        );
    };
    let named = named_calls(alloc, history, &found)?;
    let marking = Marking::Calls(named.as_slice(), title.as_str());
    let part = Part::Near(named.as_slice(), AROUND);
    report_of(alloc, drawn(alloc, history, logged, k, svg, part, marking))
}

/// The picture of all of a history.
fn whole_of(
    alloc: Global,
    history: &History,
    logged: &[LoggedCall],
    k: u32,
    svg: bool,
) -> Result<Report, AllocError>
    requires { IsK k }
    ensures { IfOk result (IsPictureOn k false history.now logged.now) }
{
    let marking = Marking::Nothing;
    report_of(
        alloc,
        drawn(alloc, history, logged, k, svg, Part::All, marking),
    )
}

/// The picture of these calls, or of those near the evidence.
pub(crate) fn draw_calls(
    alloc: Global,
    calls: &[LogCall],
    k: u32,
    evidence: bool,
    svg: bool,
) -> Result<Report, AllocError>
    requires { IsK k }
    ensures { IfOk result (IsFoundOf (IsPictureOn k evidence) calls.now) }
{
    let log = match log_from(alloc, calls) {
        Ok(log) => log,
        Err(fault) => return fault_report(alloc, fault),
    };
    let (history, logged) = (&log.history, log.calls.as_slice());
    if evidence {
        evidence_on(alloc, history, logged, k, svg)
    } else {
        whole_of(alloc, history, logged, k, svg)
    }
}
