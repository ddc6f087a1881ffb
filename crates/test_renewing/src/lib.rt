//! Tests of the renewing queue, in a crate of their own: tests beside the proofs would have every proof made once more.
#![tactic(auto)]

#[cfg(test)]
mod cells;
#[cfg(test)]
mod changes;
#[cfg(test)]
mod growth;
#[cfg(test)]
mod pages;
#[cfg(test)]
mod plain;
#[cfg(test)]
mod threads;
