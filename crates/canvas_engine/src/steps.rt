//! The steps of a run by turns as JSON lines.

mod line;
mod lines;

pub use lines::steps_text;
