//! Histories of any object that several callers share: who called, what, and what was answered, in
//! one order; and the two objects of a run, the queue and the table of results, as one thread would
//! have them. The only running code here is an answer of the table.
//!
//! A run is known by legal histories of its two objects. So the law of runs depends on this crate,
//! and on neither `canvas_broker` nor `canvas_backend`, which show that their calls make such
//! histories. A queue or a table is named by a few numbers here; only the crate that has the object
//! knows of what they are numbers.
#![tactic(auto)]

mod laws;
mod stored;

pub use laws::{all_first, first_may, no_more, reads_first, still_may};
pub use stored::Stored;
