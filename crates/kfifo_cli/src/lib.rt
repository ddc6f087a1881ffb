//! All that the program `kfifo` does with its command line, its input and its outputs.
#![tactic(auto)]

mod entry;

pub use entry::{program, program_showing};
