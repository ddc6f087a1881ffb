//! A queue of owned payloads that does not wear out: generations of queues, each of which takes over from the one
//! before it while that has versions left.
#![tactic(auto)]

mod capacity;
mod cells;
mod change;
mod closing;
mod departed;
mod fault;
mod generation;
mod handle;
mod history;
mod joined;
mod keeping_up;
mod kind;
mod label;
mod leaving;
mod left;
mod memory;
mod older;
mod opening;
mod payloads;
mod places;
mod queue;
mod taking;

pub use closing::{Closed, close};
pub use fault::{CapacityFault, RenewFault};
pub use handle::RenewingHandle;
pub use history::History;
pub use kfifo_exclusive::Exclusive;
pub use kind::{Cells, Kind, Payloads};
pub use left::{LeftCells, close_cells};
pub use memory::{CellAt, CellLayout};
pub use opening::{open, open_cells, open_cells_with, open_with};
pub use queue::{DEFAULT_RESERVE, NO_RENEWAL, Renewals};
