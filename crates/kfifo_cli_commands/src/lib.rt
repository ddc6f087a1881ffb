//! What the program `kfifo` does: its commands over plain options, their answers and statuses. No command line is read
//! here; `kfifo_cli_requests` has the options, and `kfifo_cli_texts` how words, lines and faults are written.
#![tactic(auto)]

mod calls;
mod commands;
mod cut;
mod ending;
mod explaining;
mod failure;
mod file_line;
mod input;
mod progress;
mod start;
mod status;
mod tally;
mod tracing;

pub use ending::{Notice, carry_out, end_with_fault, end_with_text};
pub use failure::{Detail, Failure};
pub use progress::{Notes, Progress, Silent, Stage};
pub use start::{ProgressLine, Prompting, Started, start as start_program};
pub use status::Status;
