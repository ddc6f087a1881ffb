//! What the program `kfifo` is asked to do: a request, which is a command with its options.
#![tactic(auto)]

mod requests;
mod sizes;
mod topics;

pub use requests::{
    CheckOptions, DispatchOptions, DrawOptions, ExplainOptions, ImportOptions, JudgeFilesOptions,
    JudgeOptions, LeastOptions, RecordOptions, ReplayOptions, Request, RunOptions,
};
pub use sizes::Sizes;
pub use topics::{Help, HelpTexts, Topic};
