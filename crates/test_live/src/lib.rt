//! Tests of the running queue, by one thread and by many, of its records and of the dispatcher, in a crate of their
//! own: tests beside the proofs would have every proof made once more.
#![tactic(auto)]

#[cfg(test)]
mod tests;
