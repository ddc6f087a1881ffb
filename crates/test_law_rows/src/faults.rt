//! Lines of faults: the number of each and what is said of it.

use kfifo_linear::LinearFault;
use kfifo_machine::{NotEnabled, RunFault, StartFault};
use kfifo_model::{MeasureFault, OvertakenFault, RankFault, RecordFault, SearchFault, Verdict};
use std::alloc::{AllocError, Global};
use std::fmt::Display;

/// Adds the line of a fault.
fn add<T: Display + Drop>(
    alloc: Global,
    number: u32,
    fault: T,
    lines: &mut Vec<String>,
) -> Result<(), AllocError> {
    lines.push(format!(in alloc; "{number} {fault}")?)?;
    Ok(())
}

/// Adds the lines of the faults of events.
fn add_events(alloc: Global, lines: &mut Vec<String>) -> Result<(), AllocError> {
    let faults = [
        NotEnabled::NoSuchThread,
        NotEnabled::Idle,
        NotEnabled::InCall,
        NotEnabled::BadCall,
        NotEnabled::ClockSpent,
        NotEnabled::NotSealable,
    ];
    for fault in faults {
        add(alloc, fault.number(), fault, lines)?;
    }
    Ok(())
}

/// Adds the lines of the faults of runs, of the start of a machine, and of orders.
fn add_runs(alloc: Global, lines: &mut Vec<String>) -> Result<(), AllocError> {
    let faults = [
        RunFault::ThreadsOutOfRange,
        RunFault::Memory,
        RunFault::NotASchedule(7),
    ];
    for fault in faults {
        add(alloc, fault.number(), fault, lines)?;
    }
    let unstarted = StartFault::ThreadsOutOfRange;
    add(alloc, unstarted.number(), unstarted, lines)?;
    for fault in [LinearFault::NotASchedule, LinearFault::Memory] {
        add(alloc, fault.number(), fault, lines)?;
    }
    Ok(())
}

/// Adds the lines of the faults of records, each with the call that it names.
fn add_records(alloc: Global, lines: &mut Vec<String>) -> Result<(), AllocError> {
    let faults = [
        RecordFault::NotAList,
        RecordFault::TooMany,
        RecordFault::NotACall(7),
        RecordFault::NumberOutOfRange(7),
        RecordFault::WrongAnswer(7),
        RecordFault::EndsEarly(7),
        RecordFault::OutOfOrder(7),
        RecordFault::Overlap(7),
        RecordFault::Memory,
    ];
    for fault in faults {
        let (number, call) = (fault.number(), fault.call());
        lines.push(format!(in alloc; "{number} {call:?} {fault}")?)?;
    }
    Ok(())
}

/// Adds the lines of the faults of questions on a history.
fn add_questions(alloc: Global, lines: &mut Vec<String>) -> Result<(), AllocError> {
    let (rank, overtaken) = (RankFault::NotLegal, OvertakenFault::NotAnEnqueue);
    let (measure, search) = (MeasureFault::RepeatedItem, SearchFault::TooLong);
    add(alloc, rank.number(), rank, lines)?;
    add(alloc, overtaken.number(), overtaken, lines)?;
    add(alloc, measure.number(), measure, lines)?;
    add(alloc, search.number(), search, lines)?;
    let (not_a_run, legal) = (Verdict::NotARun(3).number(), Verdict::Legal.number());
    lines.push(format!(in alloc; "{not_a_run:?} {legal:?}")?)?;
    Ok(())
}

/// Adds the lines of the faults of this group.
pub fn add_faults(alloc: Global, of: &str, lines: &mut Vec<String>) -> Result<(), AllocError> {
    if of == "events" {
        add_events(alloc, lines)
    } else if of == "runs" {
        add_runs(alloc, lines)
    } else if of == "records" {
        add_records(alloc, lines)
    } else {
        add_questions(alloc, lines)
    }
}
