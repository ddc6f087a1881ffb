//! The text that a row begins with.

use crate::plain;
use serde_json::Value;
use std::alloc::{AllocError, Global};
use test_rows::{items, number, text};

/// A line with the numbers of its turn in place of their names.
fn filled(alloc: Global, line: &str, i: u64) -> Result<String, AllocError> {
    let first = i.saturating_mul(2);
    let line = plain::replaced(alloc, line, "{i}", i)?;
    let line = plain::replaced(alloc, line.as_str(), "{thread}", i % 64)?;
    let line = plain::replaced(alloc, line.as_str(), "{item}", i.saturating_add(1))?;
    let line = plain::replaced(alloc, line.as_str(), "{first}", first)?;
    plain::replaced(alloc, line.as_str(), "{last}", first.saturating_add(1))
}

/// Adds a line and a line feed.
fn add_line(input: &mut String, line: &str) -> Result<(), AllocError> {
    input.push_str(line)?;
    input.push('\n')
}

/// Adds a line that is repeated.
fn add_repeated(alloc: Global, input: &mut String, part: &Value) -> Result<(), AllocError> {
    let times = part.get("times").map_or(0, number);
    let line = text(part, "repeat");
    // Without this test most of the run would go on the longest texts, which repeat one line as it stands.
    let has_names = line.contains('{');
    for i in 0..times {
        if has_names {
            let line = filled(alloc, line, i)?;
            add_line(input, line.as_str())?;
        } else {
            add_line(input, line)?;
        }
    }
    Ok(())
}

/// The text of a list of lines.
fn lines_joined(alloc: Global, parts: &[Value]) -> Result<String, AllocError> {
    let mut input = String::new(alloc);
    for part in parts {
        match part.as_str() {
            Some(line) => add_line(&mut input, line)?,
            None => add_repeated(alloc, &mut input, part)?,
        }
    }
    Ok(input)
}

/// A text as it stands, or made of a list of lines.
fn text_of(alloc: Global, value: &Value) -> Result<String, AllocError> {
    match value.as_str() {
        Some(input) => input.to_string(alloc),
        None => lines_joined(alloc, items(value)),
    }
}

/// The text of a row.
pub(crate) fn input_of(alloc: Global, row: &Value) -> Result<String, AllocError> {
    match row.get("text") {
        Some(value) => text_of(alloc, value),
        None => plain::json_text(alloc, row.get("record").unwrap_or(&Value::Null)),
    }
}
