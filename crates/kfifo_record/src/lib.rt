//! Records of real runs: scripts of calls, each run by a thread of its own on one queue.
#![tactic(auto)]

mod repeating;
mod running;

pub use kfifo_live::{Gate, OpenGate};
pub use repeating::{first_over, repeat_scripts};
pub use running::record_scripts;
