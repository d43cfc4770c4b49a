//! Normal lines of canvases, their numbers, and the plan of a run.
#![tactic(auto)]

mod as_node;
mod copying;
mod ends;
mod frozen;
mod group_list;
mod groups;
mod growing;
mod line;
mod moving;
mod name_list;
mod names;
mod numbering;
mod plan;
mod rewriting;
mod texts;

/// A function that messages, which carry lines, use.
pub mod parts {
    pub use crate::groups::is_in_group;
}

pub use as_node::node_of;
pub use ends::Ends;
pub use frozen::{Carried, FrozenEnd, FrozenLine, FrozenTask, Place};
pub use group_list::Groups;
pub use line::{Line, LineEnd};
pub use moving::into_normal;
pub use plan::{Plan, freeze, into_plan};
pub use rewriting::normalise;
