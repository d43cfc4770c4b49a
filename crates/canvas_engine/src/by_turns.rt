//! Runs of plans by turns, on one thread.
//!
//! A run is described by its steps, each a worker's ask with its answer. What a worker has left,
//! what is queued and what is stored follow from the steps before (`canvas_runs`, `specs/Turns`),
//! so the contract of a run names no state of the code.
//!
//! No contract of `run_turns` can say that a run was made, since its queue and its table are gone
//! when it returns. It says that there is such a run by these turns with these rows. Only `encode`
//! tells that the envelopes read back as their messages.

mod entries;
mod fault;
mod firsts;
mod notes;
mod running;
mod turn_list;
mod turn_run;

pub use fault::RunFault;
pub(crate) use firsts::first_envelopes;
pub use notes::{Did, Step};
pub(crate) use running::new_rows;
pub use running::{
    run_turns, run_turns_again, run_turns_stepped, run_turns_traced, run_turns_within,
};
pub use turn_list::read_turns;
