//! Verdicts on histories of any length: a legal order, or evidence that there is none.
#![tactic(auto)]

mod bound;
mod choices;
mod facts;
mod finding;
mod judging;
mod left;
mod older;
mod precedence;
mod presences;
mod remainder;
mod rings;
mod seen;
mod soon;
mod sorting;
mod state;
mod steps;
mod tallies;
mod turns;
mod verdicts;
mod walking;

pub use finding::{evidence, evidence_for_each_k};
pub use judging::{judge, judge_and_count, least_k};
pub use remainder::items_remaining;
pub use verdicts::{Bounds, Evidence, GivenUp, Judgement};
pub use walking::witness;
