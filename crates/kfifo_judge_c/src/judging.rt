//! Verdicts on the calls of C.
ghost use Rattle.std.specs.Prelude.{◌≡◌, ◌≤◌, IfOk, string_bytes};
ghost use Rattle.kfifo_judge_c.specs.Reports.{IsFaultReport, IsFoundOf, IsK, IsLeastOn, IsVerdictOn, fault_line};
ghost use Rattle.kfifo_judge_c.specs.Reports as specs;
ghost use Rattle.kfifo_judge_c.specs.Reports.{bound_numbers, fault_number, judgement_headline, judgement_kind};
ghost use Rattle.kfifo_judge_c.specs.Reports.{judgement_tries};

use crate::calls::{LogCall, log_from};
use crate::named::calls_named;
use crate::report::Report;
use crate::status::{FAULT, LEGAL, NO_ORDER, status_of};
use kfifo_import::ImportFault;
use kfifo_judge::{bounded_text, headline, judged_text, kind_number, named_calls};
use kfifo_model::{History, LoggedCall};
use kfifo_verdict::{Bounds, Judgement};
use std::alloc::{AllocError, Global};
use std::fmt::Write;

/// The number of a fault of a log, as its documentation has it, 0 of one that is no table.
fn fault_number(fault: ImportFault) -> u32
    ensures { result ≡ fault_number fault }
{
    match fault {
        ImportFault::Csv(_) | ImportFault::Memory => 0,
        ImportFault::TooMany => 2,
        ImportFault::NotACall(_) => 3,
        ImportFault::NumberOutOfRange(_) => 4,
        ImportFault::WrongAnswer(_) => 5,
        ImportFault::EndsEarly(_) => 6,
        ImportFault::Overlap(_) => 8,
    }
}

/// The line of a fault of a log, 0 where it has none.
fn fault_line(fault: ImportFault) -> u64
    ensures { result ≡ fault_line fault }
{
    match fault {
        ImportFault::TooMany | ImportFault::Memory => 0,
        ImportFault::Csv(line) | ImportFault::NotACall(line) => line,
        ImportFault::NumberOutOfRange(line) | ImportFault::WrongAnswer(line) => line,
        ImportFault::EndsEarly(line) | ImportFault::Overlap(line) => line,
    }
}

/// The report of a fault of a log.
pub(crate) fn fault_report(alloc: Global, fault: ImportFault) -> Result<Report, AllocError>
    ensures { IfOk result (IsFaultReport fault) }
{
    if let ImportFault::Memory = fault {
        return Err(AllocError);
    }
    let mut text = String::new(alloc);
    writeln!(text, "{fault}")?;
    let mut report = Report::plain(alloc, FAULT, text);
    report.fault = fault_number(fault);
    report.place = fault_line(fault);
    Ok(report)
}

/// The numbers of the calls that a verdict names.
fn named_in(
    alloc: Global,
    history: &History,
    judgement: &Judgement,
) -> Result<Vec<usize>, AllocError>
    ensures { IfOk result (λ named. named.items ≡ specs.named_in history.now judgement.now) }
{
    match judgement {
        Judgement::NoOrder(found) => named_calls(alloc, history, found),
        Judgement::Legal(_) | Judgement::Undecided(_) => Ok(Vec::new(alloc)),
    }
}

/// The number of the kind of evidence of a verdict, 0 where it has none.
fn kind_of(judgement: &Judgement) -> u32
    ensures { result ≡ judgement_kind judgement.now }
{
    match judgement {
        Judgement::NoOrder(found) => kind_number(found),
        Judgement::Legal(_) | Judgement::Undecided(_) => 0,
    }
}

/// What the evidence of a verdict says of the queue, empty where there is none.
fn headline_of(
    alloc: Global,
    history: &History,
    logged: &[LoggedCall],
    judgement: &Judgement,
) -> Result<String, AllocError>
    ensures { IfOk result (λ text. string_bytes text ≡ judgement_headline logged.now history.now judgement.now) }
{
    match judgement {
        Judgement::NoOrder(found) => headline(alloc, history, logged, found),
        Judgement::Legal(_) | Judgement::Undecided(_) => Ok(String::new(alloc)),
    }
}

/// After how many tries the search for an order gave up, 0 where there is a verdict.
fn tries_of(judgement: &Judgement) -> u64
    ensures { result ≡ judgement_tries judgement.now }
{
    match judgement {
        Judgement::Undecided(stuck) => stuck.tries(),
        Judgement::Legal(_) | Judgement::NoOrder(_) => 0,
    }
}

/// Bounds of the least k as two numbers, 0 where there are none.
fn bound_numbers(bounds: Option<Bounds>) -> (usize, u32)
    ensures { result ≡ bound_numbers bounds }
{
    match bounds {
        Some(bounds) => (bounds.at_least, bounds.at_most.unwrap_or(0)),
        None => (0, 0),
    }
}

/// The report of the verdict on a history.
pub(crate) fn verdict_on(
    alloc: Global,
    history: &History,
    logged: &[LoggedCall],
    k: u32,
    tries: u64,
) -> Result<Report, AllocError>
    requires { IsK k }
    ensures { IfOk result (IsVerdictOn k history.now logged.now) }
{
    let judged = judged_text(alloc, history, logged, k, tries, false)?;
    let judgement = &judged.judgement;
    let numbers = named_in(alloc, history, judgement)?;
    let (at_least, at_most) = bound_numbers(judged.bounds);
    Ok(Report {
        status: status_of(judgement),
        fault: 0,
        place: 0,
        kind: kind_of(judgement),
        headline: headline_of(alloc, history, logged, judgement)?,
        named: calls_named(alloc, history, logged, numbers.as_slice())?,
        calls: history.calls().len(),
        left: judged.left,
        at_least,
        at_most,
        tries: tries_of(judgement),
        text: judged.text,
    })
}

/// The report of the bounds of the least k of a history.
fn least_on(
    alloc: Global,
    history: &History,
    logged: &[LoggedCall],
    tries: u64,
) -> Result<Report, AllocError>
    ensures { IfOk result (IsLeastOn history.now logged.now) }
{
    let (text, bounds) = bounded_text(alloc, history, logged, tries)?;
    let Some(bounds) = bounds else {
        return Ok(Report::plain(alloc, NO_ORDER, text));
    };
    let mut report = Report::plain(alloc, LEGAL, text);
    let (at_least, at_most) = bound_numbers(Some(bounds));
    report.at_least = at_least;
    report.at_most = at_most;
    Ok(report)
}

/// What is found of these calls for one k.
pub(crate) fn judge_calls(
    alloc: Global,
    calls: &[LogCall],
    k: u32,
    tries: u64,
) -> Result<Report, AllocError>
    requires { IsK k }
    ensures { IfOk result (IsFoundOf (IsVerdictOn k) calls.now) }
{
    match log_from(alloc, calls) {
        Ok(log) => verdict_on(alloc, &log.history, log.calls.as_slice(), k, tries),
        Err(fault) => fault_report(alloc, fault),
    }
}

/// Between which bounds their least k lies.
pub(crate) fn least_of_calls(
    alloc: Global,
    calls: &[LogCall],
    tries: u64,
) -> Result<Report, AllocError>
    ensures { IfOk result (IsFoundOf IsLeastOn calls.now) }
{
    match log_from(alloc, calls) {
        Ok(log) => least_on(alloc, &log.history, log.calls.as_slice(), tries),
        Err(fault) => fault_report(alloc, fault),
    }
}
