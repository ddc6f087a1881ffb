//! Queues of cells for C, each with its memory: it is made with the cell's generation, and goes with it.
pub(crate) mod calls;
pub(crate) mod closing;
pub(crate) mod left;
pub(crate) mod left_seat;
pub(crate) mod opening;
pub(crate) mod seat;
pub(crate) mod status;
