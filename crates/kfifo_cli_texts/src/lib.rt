//! How the program `kfifo` reads its words and writes its lines: numbers, calls, orders, picks and tasks, the lines of
//! calls, of traces and of faults, and the printer that all of it goes to.
#![tactic(auto)]

mod fault;
mod files;
mod order;
mod picks;
mod printing;
mod report;
mod stretch;
mod tasks;
mod topics;
mod trace;
mod words;

pub use fault::Fault;
pub use files::{FileFault, open_file, read_file};
pub use order::order_of;
pub use picks::{Group, MAX_PICKS, read_group, read_picks};
pub use printing::Printer;
pub use report::{push_dequeue, push_ends, push_enqueue, push_slot};
pub use stretch::{Stretch, read_stretch};
pub use tasks::{finished_lines, read_task, read_tasks};
pub use topics::explanation;
pub use trace::push_trace;
pub use words::{read_call, read_calls, read_scripts};
