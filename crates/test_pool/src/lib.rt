//! Tests of the queue with a pool of free tokens, in a crate of their own: tests beside the proofs would have every
//! proof made once more.
#![tactic(auto)]

#[cfg(test)]
mod tests;
