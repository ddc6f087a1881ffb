//! The commands, one module for each: what it prints.

pub mod check;
pub mod dispatch;
pub mod draw;
pub mod explain;
pub mod import;
pub mod judge;
pub mod judge_files;
pub mod least;
pub mod measure;
pub mod record;
pub mod replay;
pub mod run;
