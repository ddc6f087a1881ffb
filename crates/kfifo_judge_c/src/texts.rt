//! Verdicts on texts: on logs in CSV and on records in JSON.
ghost use Rattle.std.specs.Prelude.{◌≡◌, IfOk};
ghost use Rattle.kfifo_judge_c.specs.Reports.{IsK};
ghost use Rattle.kfifo_judge_c.specs.Texts.{IsFoundOfText, IsRecordReport, record_place};

use crate::judging::{fault_report, verdict_on};
use crate::report::Report;
use crate::status::FAULT;
use kfifo_import::read_log_to_judge;
use kfifo_judge::{StreamFault, begins_record, read_record};
use kfifo_model::RecordFault;
use std::alloc::{AllocError, Global};
use std::fmt::Write;

/// The number of a fault of a record, and the call that has it, 0 where there is none.
fn record_place(fault: StreamFault) -> (u32, u64)
    ensures { result ≡ record_place fault }
{
    match fault {
        StreamFault::Record(fault) => (fault.number(), fault.call().unwrap_or(0) as u64),
        _ => (0, 0),
    }
}

/// The report of a fault of a record.
fn record_report(alloc: Global, fault: StreamFault) -> Result<Report, AllocError>
    ensures { IfOk result (IsRecordReport fault) }
{
    if let StreamFault::Memory | StreamFault::Record(RecordFault::Memory) = fault {
        return Err(AllocError);
    }
    let mut text = String::new(alloc);
    writeln!(text, "{fault}")?;
    let (number, place) = record_place(fault);
    let mut report = Report::plain(alloc, FAULT, text);
    report.fault = number;
    report.place = place;
    Ok(report)
}

/// What is found of the calls of a text for one k.
pub(crate) fn judge_bytes(
    alloc: Global,
    bytes: &[u8],
    k: u32,
    tries: u64,
) -> Result<Report, AllocError>
    requires { IsK k }
    ensures { IfOk result (IsFoundOfText k bytes.now) }
{
    if begins_record(bytes) {
        return match read_record(alloc, bytes) {
            Ok(history) => verdict_on(alloc, &history, &[], k, tries),
            Err(fault) => record_report(alloc, fault),
        };
    }
    match read_log_to_judge(alloc, bytes) {
        Ok(log) => verdict_on(alloc, &log.history, log.calls.as_slice(), k, tries),
        Err(refusal) => fault_report(alloc, refusal.fault),
    }
}
