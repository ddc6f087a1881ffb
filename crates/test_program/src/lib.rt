//! Tests of the whole program over readers and writers in memory that fail, and over memory that is refused. What needs
//! neither is a row of `rows/`. They stand in a crate of their own: tests beside the proofs would have every proof made
//! once more.
#![tactic(auto)]

#[cfg(test)]
mod broken;
#[cfg(test)]
mod closed;
#[cfg(test)]
mod memory;
#[cfg(test)]
mod told;
