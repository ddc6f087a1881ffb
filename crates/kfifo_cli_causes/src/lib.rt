//! What is wrong with an input, in words: which call it is, and what stands there. The faults themselves are those of
//! `kfifo_model` and `kfifo_import`.
#![tactic(auto)]

mod call;
mod log;
mod record;

pub use log::log_words;
pub use record::record_words;
