//! Pictures of histories: a lane for each thread, and a bar for each call from its beginning to its end.
#![tactic(auto)]

mod bands;
mod columns;
mod lanes;
mod layout;
mod marks;
mod part;
mod picture;
mod scene;
mod spans;
mod svg;
mod words;

pub use marks::Marking;
pub use part::Part;
pub use picture::{DEFAULT_WIDTH, DrawFault, Drawing, MAX_DRAWN, Style, draw};
