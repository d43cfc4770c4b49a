//! Whether the result of a canvas is a failure.
ghost use Rattle.std.specs.Prelude.{◌≡◌};
ghost use Rattle.canvas_semantics.specs.Evaluation.{with_states};
ghost use Rattle.canvas_semantics.specs.Line.{ends_of};
ghost use Rattle.canvas_semantics.specs.States.{rows_from};
ghost use Rattle.canvas_report.specs.Failing.{has_failed, any_failed};

use crate::report::Report;
use crate::states::state_in;
use canvas_rewrite::{Ends, Plan};
use canvas_task::{Outcome, TaskNo};

fn has_failed(state: Option<Outcome>) -> bool
    ensures { result ≡ has_failed state }
{
    match state {
        Some(Outcome::Failure(_)) => true,
        Some(Outcome::Success(_)) => false,
        None => false,
    }
}

fn any_failed(rows: &[Option<Outcome>], tasks: &[TaskNo]) -> bool
    ensures { result ≡ any_failed (with_states (rows_from 1 rows.now) tasks.now) }
{
    for task in tasks {
        if has_failed(state_in(rows, *task)) {
            return true;
        }
    }
    false
}

/// Returns whether the result of the canvas is a failure, or that of a member if it is a group.
pub fn is_failure(plan: &Plan, report: &Report) -> bool
    ensures { result ≡ any_failed (with_states (rows_from 1 report.now.rows) (ends_of plan.now)) }
{
    let rows = report.rows.get();
    match plan.ends() {
        Ends::One(task) => has_failed(state_in(rows, task)),
        Ends::Many(tasks) => any_failed(rows, tasks),
    }
}
