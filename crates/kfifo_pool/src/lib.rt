//! A queue of tokens that is opened by how much it is to hold. Its free tokens lie in a pool, from which handles take
//! them, and into which they lay them, a batch at a time.
#![tactic(auto)]

mod cells;
mod free;
mod group;
mod handle;
mod laid;
mod pool;
mod queue;

pub use handle::PooledHandle;
pub use pool::{BATCH, PooledQueue};
