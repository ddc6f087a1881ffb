//! Reads the rows of a file, compares each with its lines, and counts.

use crate::fields::{list, text};
use anyhow::Result;
use serde_json::Value;
use std::alloc::{AllocError, Global};
use std::fs::{self, Files};

/// Comes from a row to its lines.
pub trait Driver {
    /// The lines of a row, in turn.
    fn lines_of(&self, alloc: Global, row: &Value) -> Result<Vec<String>, AllocError>;
}

/// The place of the first line that is not what the row says.
fn first_difference(lines: &[String], says: &[Value]) -> Option<usize> {
    for (i, line) in lines.iter().enumerate() {
        match says.get(i).and_then(Value::as_str) {
            Some(want) if want == line.as_str() => {}
            _ => return Some(i),
        }
    }
    if lines.len() == says.len() {
        None
    } else {
        Some(lines.len())
    }
}

/// Prints a row that comes to other lines than it says, or that says none; returns whether it is right.
fn check_row<D: Driver>(rt: &(impl Print + AllocGlobal), driver: &D, row: &Value) -> Result<bool> {
    let lines = driver.lines_of(rt.alloc(), row)?;
    let says = list(row, "says");
    let name = text(row, "name");
    // Without this a row whose key is misspelled would say nothing and pass.
    if says.is_empty() {
        println!(rt; "{name}: says nothing")?;
        return Ok(false);
    }
    let Some(place) = first_difference(lines.as_slice(), says) else {
        return Ok(true);
    };
    println!(rt; "{name}, line {place}: {lines:?}")?;
    Ok(false)
}

/// Checks the rows of `rows.json` in the present folder, prints each that is wrong, and at the end how many there are.
/// A file with no rows counts as one wrong row.
pub fn check_rows<D: Driver>(rt: &(impl Print + AllocGlobal + Files), driver: &D) -> Result<()> {
    let file = fs::read_to_string(rt, "rows.json")?;
    let all = Value::from_str(rt.alloc(), file.as_str())?;
    let rows = list(&all, "rows");
    let mut wrong: u64 = if rows.is_empty() { 1 } else { 0 };
    for row in rows {
        if !check_row(rt, driver, row)? {
            wrong = wrong.saturating_add(1);
        }
    }
    let count = rows.len();
    println!(rt; "{count} rows, {wrong} wrong")?;
    Ok(())
}
