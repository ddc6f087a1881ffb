//! Tests of the commands and of their lines, in a crate of their own: tests beside the proofs would have every proof
//! made once more.
#![tactic(auto)]

#[cfg(test)]
mod fault;
#[cfg(test)]
mod replay;
#[cfg(test)]
mod start;
