//! The state of each task of a plan, without messages, queues or workers.

mod evaluating;
mod flow;
mod walk;

pub use evaluating::evaluate;
