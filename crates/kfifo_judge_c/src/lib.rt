//! The proved judge for C: a static library over the crates of the judge.
//!
//! Each export takes slices of its caller's memory alone, and keeps nothing.
#![tactic(auto)]

mod calls;
mod drawing;
mod exports;
mod judging;
mod named;
mod report;
mod status;
mod texts;

pub use calls::LogCall;
pub use named::NamedCall;
pub use report::{Found, Report};
