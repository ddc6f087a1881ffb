//! What the program says of records and logs, as texts: the answers of `check` and `measure`, also over streams, and
//! the verdicts of `judge` and `least` with their reasons.
#![tactic(auto)]

mod beginning;
mod bounds;
mod brief;
mod calls;
mod check;
mod headlines;
mod judgement;
mod measure;
mod named;
mod numbers;
mod outcome;
mod reasons;
mod record;
mod report;
mod stream_answers;
mod streams;

pub use beginning::begins_record;
pub use bounds::{bounded_text, least_text};
pub use brief::judge_brief;
pub use check::check_text;
pub use headlines::{headline, kind_name, kind_number};
pub use judgement::{Judged, judge_text, judged_text};
pub use measure::measure_text;
pub use named::{NamedCall, named_call};
pub use numbers::push_numbers;
pub use outcome::Outcome;
pub use reasons::{named_calls, title_of};
pub use record::{StreamFault, read_record};
pub use report::{fault_report, judge_report};
pub use stream_answers::{check_stream, measure_stream};
pub use streams::{
    Begun, FromStd, MAX_BYTES, ReadFault, Sink, Source, begin_reading, read_all, write_all,
};
