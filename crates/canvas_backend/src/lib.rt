//! The backend: outcomes of tasks and counts of returned members that threads share, with one legal
//! history of its calls, and the same for one thread.
#![tactic(auto)]

mod backend;
mod knowledge;
mod plain;
mod roster;
mod row;
mod rule;

pub use backend::{Backend, BackendSeat};
pub use canvas_history::{Stored, all_first, first_may, no_more, reads_first, still_may};
pub use plain::PlainBackend;
pub use roster::Roster;
