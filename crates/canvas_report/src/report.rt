//! The report of a run: its rows, and their text.
ghost use Rattle.std.specs.Prelude.{◌≡◌, ◌++◌, ◌+◌, IfOk, OnOk, string_bytes};
ghost use Rattle.canvas_rewrite.specs.Ends.{gives_a_list, end_tasks};
ghost use Rattle.canvas_semantics.specs.Line.{name_of, tree_of};
ghost use Rattle.canvas_semantics.specs.Report.{names_by_number, report_of};
ghost use Rattle.canvas_semantics.specs.States.{rows_from};
ghost use Rattle.canvas_report.specs.Listing.{lines, listed, result_by};
ghost use Rattle.canvas_report.specs.steps.ReportRows.{run_line, run_value, line_if, listed_further};

use crate::report_rows::{push_row, push_value};
use crate::states::state_in;
use canvas_rewrite::{Ends, Plan};
use canvas_task::{ListOf, Memory, Outcome, TaskNo};
use std::alloc::{AllocError, Global};

/// The stored outcomes of a run: row k - 1 is that of task k. A task is pending if its row is None
/// or missing.
#[derive(Debug, Drop)]
pub struct Report {
    /// The rows in the order of the tasks' numbers, from task 1 on.
    pub rows: ListOf<Option<Outcome>>,
}

/// About how many bytes the line of a task has.
const ROW_ROOM: usize = 64;

/// Appends the line of a task, if the plan has it.
fn push_task(
    text: &mut String,
    plan: &Plan,
    task: TaskNo,
    rows: &[Option<Outcome>],
) -> Result<(), AllocError>
    ensures { OnOk result (string_bytes text.new ≡ string_bytes text.old
        ++ line_if (run_line (rows_from 1 rows.now)) task (name_of plan.now task)) }
{
    match plan.name(task) {
        Some(name) => push_row(text, task, name, &state_in(rows, task)),
        None => Ok(()),
    }
}

/// Appends the lines of all tasks, in the order of their numbers.
fn push_rows(text: &mut String, plan: &Plan, rows: &[Option<Outcome>]) -> Result<(), AllocError>
    ensures { OnOk result (string_bytes text.new
        ≡ string_bytes text.old
        ++ lines (run_line (rows_from 1 rows.now)) (names_by_number (tree_of plan.now))) }
{
    for index in 0..plan.tasks() {
        push_task(text, plan, plan.task_at(index), rows)?;
    }
    Ok(())
}

/// Appends values, each after a comma.
fn push_further(
    text: &mut String,
    tasks: &[TaskNo],
    rows: &[Option<Outcome>],
) -> Result<(), AllocError>
    ensures { OnOk result (string_bytes text.new
        ≡ string_bytes text.old ++ listed_further (run_value (rows_from 1 rows.now)) tasks.now) }
{
    for task in tasks {
        let state = state_in(rows, *task);
        text.push_str(", ")?;
        push_value(text, &state)?;
    }
    Ok(())
}

fn push_values(
    text: &mut String,
    tasks: &[TaskNo],
    rows: &[Option<Outcome>],
) -> Result<(), AllocError>
    ensures { OnOk result (string_bytes text.new
        ≡ string_bytes text.old ++ listed (run_value (rows_from 1 rows.now)) tasks.now) }
{
    match tasks.split_first() {
        Some((first, further)) => {
            let state = state_in(rows, *first);
            push_value(text, &state)?;
            push_further(text, further, rows)
        }
        None => Ok(()),
    }
}

/// Appends the result of a canvas: a value, or the list of a group's.
fn push_result(
    text: &mut String,
    ends: &Ends<'_>,
    rows: &[Option<Outcome>],
) -> Result<(), AllocError>
    ensures { OnOk result (string_bytes text.new
        ≡ string_bytes text.old
        ++ result_by (run_value (rows_from 1 rows.now)) (gives_a_list ends.now)
        (end_tasks ends.now)) }
{
    match ends {
        Ends::One(task) => push_value(text, &state_in(rows, *task)),
        Ends::Many(tasks) => {
            text.push_str("[")?;
            push_values(text, tasks, rows)?;
            text.push_str("]")
        }
    }
}

/// Returns the report of a plan: a line for each task in the order of their numbers, and one for
/// the result. A task without a row is pending; rows past the last task are ignored.
pub fn report_text(alloc: Global, plan: &Plan, report: &Report) -> Result<String, Memory>
    ensures { IfOk result
        (λ text. string_bytes text ≡ report_of (tree_of plan.now) (rows_from 1 report.now.rows)) }
{
    let rows = report.rows.get();
    let room = (plan.tasks() as usize).saturating_mul(ROW_ROOM);
    let mut text = String::with_capacity(alloc, room)?;
    push_rows(&mut text, plan, rows)?;
    text.push_str("result ")?;
    push_result(&mut text, &plan.ends(), rows)?;
    text.push_str("\n")?;
    Ok(text)
}
