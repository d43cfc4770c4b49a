//! The ends of a canvas.

use canvas_task::TaskNo;

/// The tasks whose outcomes are the result of a canvas.
#[derive(Clone, Copy, Debug, PartialEq, Eq)]
pub enum Ends<'a> {
    /// The canvas ends in a task.
    One(TaskNo),
    /// The canvas ends in a group: the last tasks of its members.
    Many(&'a [TaskNo]),
}
