//! Replays: scripts run on the machine in the order of given picks, step by step, in bounded memory.
#![tactic(auto)]

mod book;
mod fault;
mod player;
mod report;
mod steps;
mod trace;

pub use fault::ReplayFault;
pub use player::{MAX_SCRIPT_CALLS, Replay};
pub use report::{Report, replay};
pub use steps::Step;
