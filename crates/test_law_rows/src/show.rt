//! Lines of values.

use crate::expand::expanded;
use serde_json::Value;
use std::alloc::{AllocError, Global};
use std::fmt::Debug;

/// A value as its type prints it.
pub fn shown<T: Debug>(alloc: Global, value: &T) -> Result<String, AllocError> {
    format!(in alloc; "{value:?}")
}

/// Adds a value as a line.
pub fn add_shown<T: Debug>(
    alloc: Global,
    value: &T,
    lines: &mut Vec<String>,
) -> Result<(), AllocError> {
    lines.push(shown(alloc, value)?)?;
    Ok(())
}

/// A list of numbers as its type prints it, or `as listed` where it is the list that the row expects.
pub fn shown_list<T: Debug>(
    alloc: Global,
    found: &T,
    listed: &[Value],
) -> Result<String, AllocError> {
    let text = shown(alloc, found)?;
    let wanted = expanded(alloc, listed)?;
    if !listed.is_empty() && text == shown(alloc, &wanted)? {
        return "as listed".to_string(alloc);
    }
    Ok(text)
}
