//! Tests of the public calls that judge, explain, draw and import records, in a crate of their own: tests beside the
//! proofs would have every proof made once more. The readers and the writers that go on in pieces are public, for the
//! rows of `test_judge_rows`.
#![tactic(auto)]

pub mod streams;
#[cfg(test)]
mod tests;
