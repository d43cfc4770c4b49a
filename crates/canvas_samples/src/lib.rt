//! Canvases, numbers, outcomes and a task that several crates of tests use; short notations of
//! canvases, reports and messages; and canvases with reports worked out by hand.
#![tactic(auto)]

mod canvases;
pub mod frozen_texts;
mod notation;
mod outcomes;
pub mod spelled;
mod worked;

pub use canvases::{
    CHAIN, CHAIN_REPORT, CHORD, CHORD_REPORT, DIFFERENCE, EMPTY_GROUP, ONE, SKIPPED, TEN,
    TEN_REPORT, UNLINKED, hundred_planned, plan_of,
};
pub use outcomes::{Difference, ZERO_DIVISION, group, raised_by_2, task};
pub use worked::{Worked, a_failed_member, a_hundred_and_their_sum};
