//! The running k-FIFO queue: a table of atomic words on which every call is one complete execution of the
//! machine's program.
#![tactic(auto)]

mod closing;
mod count;
mod dequeue;
mod enqueue;
mod fault;
mod gate;
mod handle;
mod in_hand;
mod meeting;
mod opening;
mod payload;
mod queue;
mod ring;
mod round_robin;
mod rule;
mod scan;
mod sealing;
mod seats;
mod stamped;
mod tokens;
mod view;

pub use closing::close;
pub use fault::{CloseFault, GatherFault, OpenFault};
pub use gate::{Gate, OpenGate};
pub use handle::{Handle, MAX_TURNS};
pub use meeting::meet;
pub use payload::handle::PayHandle;
pub use payload::opening::{MAX_TOKENS, MOST_TOKENS};
pub use payload::sealing::TakenOrSealed;
pub use payload::token::{Published, Received, Token};
pub use payload::{Given, PayPass, PayQueue, Taken};
pub use queue::{Pass, Queue};
pub use round_robin::RoundRobin;
pub use sealing::Sealing;
pub use stamped::gathering::gather;
pub use stamped::{MAX_STAMPED_CALLS, StampPass, StampQueue};
pub use tokens::group::TokenGroup;
pub use tokens::handle::TokenHandle;
pub use tokens::sealing::ReceivedOrSealed;
pub use tokens::sizes::{SPARE_TOKENS, Sizes, SizesFault};
pub use tokens::{Put, TokenPass, TokenQueue};
