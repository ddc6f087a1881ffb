//! Worked rows as data: what a program needs that reads rows from a file and compares the lines that each comes to
//! with the lines that the file has for it. A further row costs no proof.
//!
//! No clause speaks of what a row holds: where a row is not what it should be, its lines differ, and it counts as
//! wrong.
#![tactic(auto)]

mod check;
mod fields;

pub use check::{Driver, check_rows};
pub use fields::{flag, items, list, number, numbers, small, text, texts};
