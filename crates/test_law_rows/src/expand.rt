//! Lists of numbers written in short.

use serde_json::Value;
use std::alloc::{AllocError, Global};
use test_rows::{items, small};

/// Adds the numbers from one to another, up or down.
fn add_run(numbers: &mut Vec<u32>, first: u32, last: u32) -> Result<(), AllocError> {
    for number in first..=last {
        numbers.push(number)?;
    }
    if last < first {
        for number in last..=first {
            numbers.push(first.wrapping_sub(number.wrapping_sub(last)))?;
        }
    }
    Ok(())
}

/// The numbers of a list: `7` is one number, `[1, 9]` and `[9, 1]` are runs, and `[1, 9, 4]` is a run four times.
pub fn expanded(alloc: Global, list: &[Value]) -> Result<Vec<u32>, AllocError> {
    let mut numbers = Vec::new(alloc);
    for value in list {
        match items(value) {
            [first, last] => add_run(&mut numbers, small(first), small(last))?,
            [first, last, times] => {
                for _time in 0..small(times) {
                    add_run(&mut numbers, small(first), small(last))?;
                }
            }
            _ => numbers.push(small(value))?,
        }
    }
    Ok(numbers)
}

/// The same as places.
pub fn places(alloc: Global, list: &[Value]) -> Result<Vec<usize>, AllocError> {
    let mut places = Vec::new(alloc);
    for number in expanded(alloc, list)?.iter() {
        places.push(*number as usize)?;
    }
    Ok(places)
}
