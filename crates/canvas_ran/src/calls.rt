//! The calls that a run's messages ask for, a JSON line each, with the tasks that each comes after.

mod ends;
mod front;
mod laws;
mod lines;
mod reading;
mod walk;

pub use front::Front;
pub use laws::law_of_calls;
pub use lines::calls_text;
pub use reading::fronts;
