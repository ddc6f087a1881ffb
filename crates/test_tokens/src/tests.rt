//! The tests, by what they are about.

mod pages;
mod payloads;
mod plain;
mod rounds;
mod seals;
mod sizes;
