//! Normal lines, without numbers.

use canvas_task::ListOf;
use canvas_values::TaskSig;

/// Some tasks, then at most one group or chord.
#[derive(Drop)]
#[cycle(line)]
pub struct Line {
    /// The tasks, of which the first runs first. There may be none before a group or chord.
    pub tasks: ListOf<TaskSig>,
    /// The group or chord at the end, or None if the line ends in a task.
    pub tail: Option<Box<LineEnd>>,
}

/// A chord, or a group if there is no body.
#[derive(Drop)]
#[cycle(line)]
pub struct LineEnd {
    /// A line for each member, in header order.
    pub members: ListOf<Line>,
    /// The line that follows the header, including all that follows the chord.
    pub body: Option<Line>,
}
