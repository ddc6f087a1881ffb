//! Tests of the queue of tokens, in a crate of their own: tests beside the proofs would have every proof made once
//! more.
#![tactic(auto)]

#[cfg(test)]
mod tests;
