//! Tests of the public calls of the machine, its orders and its replay where memory is refused, in a crate of their
//! own: tests beside the proofs would have every proof made once more. What the calls return is checked by the rows
//! of `test_law_rows`.
#![tactic(auto)]

pub mod plain;
pub mod records;
#[cfg(test)]
mod tests;
