//! The rows of a report from the results that Celery stored, for tasks that return or raise
//! anything.

ghost use Rattle.std.specs.Prelude.{◌≡◌, [], length, IfOk, IfErr, OnOk};
ghost use Rattle.canvas_semantics.specs.Line.{count_line};
ghost use Rattle.canvas_celery.specs.Pieces.{lines_in};
ghost use Rattle.canvas_celery.specs.AsStored.{AllSaid};
ghost use Rattle.canvas_celery.specs.Refused.{IsCollectFault};
ghost use Rattle.canvas_celery.specs.steps.Rows.{Gains, RowFault};

use crate::Run;
use crate::results::pieces::{count_lines, split_line};
use crate::results::showing::read_row;
use crate::results::stored::StoredFault;
use canvas_report::Row;
use canvas_rewrite::Plan;
use canvas_task::TaskNo;
use std::alloc::Global;
use thiserror::Error;

/// Why the results are not those of a plan's run.
#[derive(Clone, Copy, Debug, Drop, PartialEq, Eq, Error)]
pub enum CollectFault {
    /// The number of lines is not the number of tasks.
    #[error("BadCount")]
    BadCount,
    /// A task's result is refused.
    #[error("{fault}")]
    Stored { task: TaskNo, fault: StoredFault },
    /// An allocation failed.
    #[error("memory refused")]
    Memory,
}

/// Appends the row of a task's line.
fn push_row(
    alloc: Global,
    plan: &Plan,
    run: &Run,
    task: TaskNo,
    line: &[u8],
    rows: &mut Vec<Row>,
) -> Result<(), CollectFault>
    ensures gains { OnOk result (Gains run.now.digits (count_line plan.now) task line.now
        rows.old.items rows.new.items) }
    ensures refused { IfErr result
        (RowFault run.now.digits (count_line plan.now) task line.now) }
{
    match read_row(alloc, plan, run, task, line) {
        Ok(row) => match rows.push(row) {
            Ok(()) => Ok(()),
            Err(_) => Err(CollectFault::Memory),
        },
        Err(StoredFault::Memory) => Err(CollectFault::Memory),
        Err(fault) => Err(CollectFault::Stored { task, fault }),
    }
}

/// Appends the rows of all tasks to an empty list, from a text with a line for each.
fn push_rows(
    alloc: Global,
    plan: &Plan,
    run: &Run,
    text: &[u8],
    rows: &mut Vec<Row>,
) -> Result<(), CollectFault>
    requires empty { rows.old.items ≡ [] }
    requires lines { length (lines_in text.now) ≡ count_line plan.now }
    ensures count { OnOk result (length rows.new.items ≡ count_line plan.now) }
    ensures said { OnOk result (AllSaid run.now.digits (count_line plan.now) 1
        (lines_in text.now) rows.new.items) }
    ensures refused { IfErr result
        (IsCollectFault run.now.digits (count_line plan.now) (lines_in text.now)) }
{
    let mut rest = text;
    for index in 0..plan.tasks() {
        let (line, after) = split_line(rest);
        push_row(alloc, plan, run, plan.task_at(index), line, rows)?;
        rest = after;
    }
    Ok(())
}

/// Returns the rows of a plan's tasks from a text with a line for each, in the order of their
/// numbers. Each row is the one that its own line gives, so no outcome is made up, and no final one
/// is overlooked: a result that isn't a whole number, or past 2^60, is shown as it is stored, and
/// an exception that the engine's own tasks don't raise by its class. If there are as many lines as
/// tasks, only a line that can't be read is refused, the first of them: invalid JSON, another
/// task's, an unknown state, or a failure that names no exception. JSON's numbers past 64 bits are
/// read as floats.
///
/// The lines are counted before one is read, so a wrong number of lines is `BadCount` for any
/// content.
pub fn collect(alloc: Global, plan: &Plan, run: &Run, text: &[u8]) -> Result<Vec<Row>, CollectFault>
    ensures count { IfOk result (λ rows. length rows.items ≡ count_line plan.now) }
    ensures said { IfOk result
        (λ rows. AllSaid run.now.digits (count_line plan.now) 1 (lines_in text.now) rows.items) }
    ensures refused { IfErr result
        (IsCollectFault run.now.digits (count_line plan.now) (lines_in text.now)) }
{
    if count_lines(text) != plan.tasks() as usize {
        return Err(CollectFault::BadCount);
    }
    let mut rows = Vec::new(alloc);
    push_rows(alloc, plan, run, text, &mut rows)?;
    Ok(rows)
}
