//! The tests, by what they are about.

mod bare;
mod cells;
mod pages;
mod parcels;
mod threads;
