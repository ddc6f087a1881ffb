//! A dispatcher: worker threads run tasks, a unit of work at a time, over the queue.
#![tactic(auto)]

mod dispatching;
mod fault;
mod finishing;
mod job;
mod repeats;
mod starts;
mod station;
mod task;
mod work_gate;
mod worker;

pub use dispatching::{MAX_TASKS, MAX_WORKERS, dispatch};
pub use fault::DispatchFault;
pub use kfifo_live::{Gate, OpenGate};
pub use starts::Starts;
pub use task::{Finished, Task};
pub use work_gate::WorkGate;
