//! Logs of queues, and the records that they give.
#![tactic(auto)]

mod answers;
mod cause;
mod ends;
mod foreign;
mod log;
mod moments;
mod reader;
mod stamping;
mod table;
mod walk;
mod wrong;

pub use answers::{put_answer, take_answer};
pub use cause::{Cause, FaultyCall};
pub use foreign::log_to_judge;
pub use kfifo_model::LoggedCall;
pub use log::{ImportFault, Line, Log, MAX_LOG_CALLS, log_of, record_of};
pub use reader::LogReader;
pub use table::{import_text, lines_of, read_log, read_log_to_judge, small};
pub use wrong::{Allowed, Field, Refusal, WrongField, shown};
