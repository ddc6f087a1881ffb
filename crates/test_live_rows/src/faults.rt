//! The faults: number, name and text.

use kfifo_live::{CloseFault, GatherFault, OpenFault};
use std::alloc::{AllocError, Global};

/// Why a queue was not opened.
pub fn open_text(alloc: Global, fault: OpenFault) -> Result<String, AllocError> {
    let number = fault.number();
    format!(in alloc; "{number} {fault:?}: {fault}")
}

/// Why a queue was not closed.
pub fn close_text(alloc: Global, fault: CloseFault) -> Result<String, AllocError> {
    let number = fault.number();
    format!(in alloc; "{number} {fault:?}: {fault}")
}

/// Why logs were not gathered.
pub fn gather_text(alloc: Global, fault: GatherFault) -> Result<String, AllocError> {
    let number = fault.number();
    format!(in alloc; "{number} {fault:?}: {fault}")
}

/// Adds a line for each fault of memory, which no other row meets.
pub fn add_lines(alloc: Global, lines: &mut Vec<String>) -> Result<(), AllocError> {
    lines.push(open_text(alloc, OpenFault::Memory)?)?;
    lines.push(close_text(alloc, CloseFault::Memory)?)?;
    lines.push(gather_text(alloc, GatherFault::Memory)?)?;
    Ok(())
}
