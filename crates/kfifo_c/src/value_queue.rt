//! Queues of values for C: 64-bit numbers, or pointers as such numbers. They do not wear out.
pub(crate) mod calls;
pub(crate) mod closing;
pub(crate) mod many;
pub(crate) mod opening;
pub(crate) mod seat;
pub(crate) mod status;
