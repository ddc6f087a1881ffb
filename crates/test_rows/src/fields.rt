//! What a row has under a key. A key that is missing reads as an empty list or text, and a number that is none as the
//! greatest one.

use serde_json::Value;
use std::alloc::{AllocError, Global};

/// The items of a list; none of any other value.
pub fn items(value: &Value) -> &[Value] {
    match value.as_array() {
        Some(list) => list.as_slice(),
        None => &[],
    }
}

/// The list under a key.
pub fn list<'a>(row: &'a Value, key: &str) -> &'a [Value] {
    match row.get(key) {
        Some(value) => items(value),
        None => &[],
    }
}

/// The text under a key.
pub fn text<'a>(row: &'a Value, key: &str) -> &'a str {
    row.get(key).and_then(Value::as_str).unwrap_or("")
}

/// Whether `true` stands under a key.
pub fn flag(row: &Value, key: &str) -> bool {
    row.get(key).and_then(Value::as_bool).unwrap_or(false)
}

/// A number of 64 bits.
pub fn number(value: &Value) -> u64 {
    value.as_u64().unwrap_or(u64::MAX)
}

/// A number of 32 bits; the greatest one in place of a greater one.
pub fn small(value: &Value) -> u32 {
    u32::try_from(number(value)).unwrap_or(u32::MAX)
}

/// The numbers of a list.
pub fn numbers(alloc: Global, value: &Value) -> Result<Vec<u32>, AllocError> {
    let mut numbers = Vec::new(alloc);
    for one in items(value) {
        numbers.push(small(one))?;
    }
    Ok(numbers)
}

/// The texts of a list, each as text of its own.
pub fn texts(alloc: Global, value: &Value) -> Result<Vec<String>, AllocError> {
    let mut texts = Vec::new(alloc);
    for one in items(value) {
        texts.push(one.as_str().unwrap_or("").to_string(alloc)?)?;
    }
    Ok(texts)
}
