//! The public surface without runs: each call at the path and in the form that users write it, and
//! the rows that were worked out by hand for it. A form that changes doesn't compile here.
//!
//! The rows are tested also if a contract says the same: a contract can't promise that memory is
//! there, so a body that always answers `Memory` meets it. Each test fills its own registry, since
//! a function that returned one would hide its tasks from its caller.

mod cores;
mod effects;
mod messages;
mod plans;
mod queue;
mod signatures;
mod table;
mod tasks;
mod worker;
