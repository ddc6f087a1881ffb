//! The proved k-FIFO queue for C: a static library over the running queue.
#![tactic(auto)]

mod address;
mod calls;
mod cell_queue;
mod closing;
mod fits;
mod handle;
mod handles;
mod held;
mod kind;
mod loose;
mod many;
mod opening;
mod seat;
mod seat_pointer;
mod seating;
mod shape;
mod status;
mod value_queue;

pub use cell_queue::left::LeftHandle;
pub use cell_queue::left_seat::LeftSeat;
pub use cell_queue::seat::CellSeat;
pub use fits::Fits;
pub use handle::Handle;
pub use held::Held;
pub use seat::Seat;
pub use seating::Seating;
pub use value_queue::seat::ValueSeat;
