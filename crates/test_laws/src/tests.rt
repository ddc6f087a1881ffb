//! The tests, by what they are about.

mod linear;
mod machine;
mod model;
mod replay;
