//! Checks worked rows of the words, the machine, the histories, the linearization orders and the replays against what
//! the libraries return. `drive.rt` says what the keys of a row mean.
#![tactic(auto)]

mod drive;
mod expand;
mod faults;
mod histories;
mod plain;
mod replays;
mod schedules;
mod show;
mod words;

use serde_json::Value;
use std::alloc::{AllocError, Global};
use test_rows::{Driver, check_rows};

struct Laws;

impl Driver for Laws {
    fn lines_of(&self, alloc: Global, row: &Value) -> Result<Vec<String>, AllocError> {
        drive::lines_of(alloc, row)
    }
}

fn main(rt: HostRuntime) -> anyhow::Result<()> {
    check_rows(&rt, &Laws)
}
