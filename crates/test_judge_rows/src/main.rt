//! Worked rows of the judge: what it writes of a record, what it makes of a log, and the pictures of a record.
//! `drive` says what a row may have.
#![tactic(auto)]

mod drive;
mod form;
mod input;
mod pictures;
mod plain;

use serde_json::Value;
use std::alloc::{AllocError, Global};
use test_rows::{Driver, check_rows};

/// The rows of the judge.
struct JudgeRows;

impl Driver for JudgeRows {
    fn lines_of(&self, alloc: Global, row: &Value) -> Result<Vec<String>, AllocError> {
        drive::lines_of(alloc, row)
    }
}

fn main(rt: HostRuntime) -> anyhow::Result<()> {
    check_rows(&rt, &JudgeRows)
}
