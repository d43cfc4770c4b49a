//! Rows as views show them: those of a run, or those that Celery stored.

ghost use Rattle.std.specs.Prelude.{◌≡◌, IfOk, map, unwrap_or, option_map, slice_get, None};
ghost use Rattle.canvas_report.specs.declared.row.Row.TheVariants as row;
ghost use Rattle.canvas_report.specs.JsonRows as json;
ghost use Rattle.canvas_report.specs.StoredRows.{row_of, row_status};

use crate::report::Report;
use crate::row::Row;
use canvas_task::{Outcome, TaskNo};
use std::alloc::{AllocError, Global};

/// The status of a task, or of a canvas.
#[derive(Clone, Copy)]
pub(crate) enum Status {
    Pending,
    Success,
    Failure,
}

impl Status {
    pub(crate) fn of(outcome: &Option<Outcome>) -> Status
        ensures { result ≡ json.status_of outcome.now }
    {
        match outcome {
            None => Status::Pending,
            Some(Outcome::Success(_)) => Status::Success,
            Some(Outcome::Failure(_)) => Status::Failure,
        }
    }

    pub(crate) fn of_row(row: &Row) -> Status
        ensures { result ≡ row_status row.now }
    {
        match row {
            Row::Known(outcome) => Status::of(outcome),
            Row::Value(_) => Status::Success,
            Row::Raised(_) => Status::Failure,
            Row::Blamed { .. } => Status::Failure,
        }
    }

    /// Returns the status of a group with members of both.
    pub(crate) fn worse(self, other: Status) -> Status
        ensures { result ≡ json.worse self other }
    {
        match self {
            Status::Failure => Status::Failure,
            Status::Success => other,
            Status::Pending => match other {
                Status::Failure => Status::Failure,
                Status::Pending | Status::Success => Status::Pending,
            },
        }
    }

    /// Returns Celery's name of it.
    pub(crate) fn name(self) -> &'static str
        ensures { result.now ≡ json.status_name self }
    {
        match self {
            Status::Pending => "PENDING",
            Status::Success => "SUCCESS",
            Status::Failure => "FAILURE",
        }
    }
}

/// Returns the rows of a run.
pub(crate) fn run_rows(alloc: Global, report: &Report) -> Result<Vec<Row>, AllocError>
    ensures { IfOk result (λ rows. rows.items ≡ map (λ s. row.Known s) report.now.rows) }
{
    let mut rows = Vec::new(alloc);
    for row in report.rows.get() {
        rows.push(Row::Known(*row))?;
    }
    Ok(rows)
}

fn row_in(rows: &[Row], index: usize) -> Option<&Row>
    ensures { option_map (λ r. r.now) result ≡ slice_get rows.now index }
{
    rows.get(index)
}

/// Returns a task's row. The task is pending if there is none.
pub(crate) fn row_at(rows: &[Row], task: TaskNo) -> Option<&Row>
    ensures { unwrap_or (option_map (λ r. r.now) result) (row.Known None) ≡ row_of rows.now task }
{
    row_in(rows, task.get() as usize - 1)
}

pub(crate) fn status_at(rows: &[Row], task: TaskNo) -> Status
    ensures { result ≡ row_status (row_of rows.now task) }
{
    match row_at(rows, task) {
        Some(row) => Status::of_row(row),
        None => Status::Pending,
    }
}
