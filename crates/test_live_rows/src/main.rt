//! Worked rows of the running queue by one thread: its calls beside the machine, payloads, stamped calls, and what each
//! opening and each close refuses. Prints which rows do not come to what they say.
#![tactic(auto)]

mod begin;
mod drawn;
mod drive;
mod driven;
mod faults;
mod items;
mod payloads;
mod plain;
mod stamps;

use serde_json::Value;
use std::alloc::{AllocError, Global};
use test_rows::{Driver, check_rows};

/// The driver of all rows.
struct Live;

impl Driver for Live {
    fn lines_of(&self, alloc: Global, row: &Value) -> Result<Vec<String>, AllocError> {
        drive::lines_of(alloc, row)
    }
}

fn main(rt: HostRuntime) -> anyhow::Result<()> {
    check_rows(&rt, &Live)
}
