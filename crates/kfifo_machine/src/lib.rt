//! The pure machine of the bounded k-FIFO queue: whole words, each thread's place in its call, and
//! schedules of atomic steps.
#![tactic(auto)]

mod event;
mod fault;
mod log;
mod place;
mod rounds;
mod schedule;
mod state;
mod steps;

pub use event::{Begin, Event, NotEnabled, Outcome};
pub use fault::{RunFault, StartFault};
pub use kfifo_model::MAX_THREADS;
pub use log::history;
pub use place::{Access, DequeuePhase, EnqueuePhase, Found, Next, Running};
pub use schedule::run;
pub use state::{State, start, step};
