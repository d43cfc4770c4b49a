//! The public surface of runs: each call at the path and in the form that users write it, and the
//! rows that were worked out by hand for it. A form that changes doesn't compile here.

mod gate;
mod program;
mod texts;
mod threads;
mod turns;
