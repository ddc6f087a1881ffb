//! The k-relaxed queue as its callers see it: calls and their answers, histories and their records, orders, and how far
//! an order goes from a plain queue's.
#![tactic(auto)]

mod blocks;
mod calls;
mod effects;
mod history;
mod index;
mod logged;
mod measures;
mod orders;
mod overtakings;
mod reading;
mod rivals;
mod search;
mod so_far;
mod spellings;
mod writing;

pub use calls::{Answer, Call, End, MAX_ITEM, MAX_THREADS, Op};
pub use effects::{Effect, Side};
pub use history::{History, RecordFault};
pub use index::items_repeat;
pub use logged::{LoggedCall, logged_line};
pub use measures::{OvertakenFault, RankFault, overtaken, ranks};
pub use orders::{Verdict, check_order};
pub use overtakings::{MeasureFault, Overtaken, measure};
pub use reading::{MAX_CALLS, read_history};
pub use search::{MAX_SEARCHED, SearchFault, has_order};
pub use spellings::{AnswerWord, OpWord};
pub use writing::{record_line, record_text};
