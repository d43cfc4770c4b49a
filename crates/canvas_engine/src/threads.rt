//! Runs on threads.
//!
//! `run` splits a pass and a seat for each worker, publishes the first messages, polls each worker
//! to its end, joins passes and seats in the order of their numbers, works on as worker 0 until a
//! take finds nothing, and reads each task once. From only the clauses of these calls
//! `canvas_runs` makes one history of all broker calls and one of all backend calls
//! (`runs_of_callers`), and proves what follows (`law_of_callers`, `rows_of_runs`).
mod ending;
mod handles;
mod publishing;
mod records;
mod running;
mod slot;
mod workers;

pub use records::{Records, Tally};
pub use running::run;
