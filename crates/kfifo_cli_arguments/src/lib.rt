//! The command line of `kfifo`: how it is written, its help, and the request that it makes.
#![tactic(auto)]

mod command_line;
mod commands;
mod mistakes;
mod options;
mod topics;

pub use command_line::{parse, request_of};
pub use mistakes::mistake;
