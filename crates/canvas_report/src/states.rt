//! The states of tasks, in the rows of a run.
ghost use Rattle.std.specs.Prelude.{◌≡◌, slice_get};
ghost use Rattle.canvas_semantics.specs.Evaluation.{state_of};
ghost use Rattle.canvas_semantics.specs.States.{rows_from};

use canvas_task::{Outcome, TaskNo};

/// Calls `get` and `copied`. It is a function for its contract's sake, which says of rows what
/// these two say one after the other.
fn row_at(rows: &[Option<Outcome>], index: usize) -> Option<Option<Outcome>>
    ensures { result ≡ slice_get rows.now index }
{
    rows.get(index).copied()
}

/// Returns the state of a task. It is pending if the row is missing.
pub fn state_in(rows: &[Option<Outcome>], task: TaskNo) -> Option<Outcome>
    ensures { result ≡ state_of task (rows_from 1 rows.now) }
{
    row_at(rows, task.get() as usize - 1).flatten()
}
