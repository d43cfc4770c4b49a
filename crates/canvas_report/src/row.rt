//! Rows of a report on tasks of any kind.
//!
//! A run has states (`Option<Outcome>`), of which the engine's promise speaks. A stored result, or
//! an exception that a stub raises, may be any, and a state is one case of it. JSON lines, pictures
//! and texts are made from a `Row` each, and for the rows of a run they say what its states say.
//! `report_text` and `is_failure` take the states, so that the report of a large run needs no copy
//! of its rows.

use canvas_task::{Outcome, TaskNo};

/// The stored result of a task, for tasks that return or raise anything.
#[derive(Debug, Drop, PartialEq, Eq)]
pub enum Row {
    /// An outcome that the engine's own tasks have, or none yet.
    Known(Option<Outcome>),
    /// Another value, as JSON with no blanks between its parts.
    Value(String),
    /// The class of another exception.
    Raised(String),
    /// A ChordError: the task that it names, and the class of that task's exception.
    Blamed { dep: TaskNo, name: String },
}
