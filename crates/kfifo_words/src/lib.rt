//! Words of the table, the shape of a ring, and its arithmetic.
#![tactic(auto)]

mod ends;
mod fault;
mod shape;
mod word;

pub use ends::{ENDS_INDEX, Ends, SEGMENT_NUMBERS};
pub use fault::ShapeFault;
pub use shape::{MAX_K, MAX_SEGMENTS, Shape};
pub use word::{MAX_VALUE, MAX_VERSION, VALUES, Word};
