//! The evaluation of a plan.
ghost use Rattle.std.specs.Prelude.{◌≡◌, IfOk};
ghost use Rattle.canvas_semantics.specs.Line.{tree_of};
ghost use Rattle.canvas_semantics.specs.States.{states};

use crate::evaluation::flow::Flow;
use crate::evaluation::walk::push_line;
use canvas_report::Report;
use canvas_rewrite::Plan;
use canvas_task::{ListOf, Memory, Tasks};
use std::alloc::Global;

/// Evaluates a plan: calls each task as often as a run calls it, and returns the report of every
/// run. Nothing is published, queued or stored.
pub fn evaluate<T: Tasks>(alloc: Global, plan: &Plan, tasks: &T) -> Result<Report, Memory>
    ensures { IfOk result
        (λ report. report.rows ≡ states (T.behaviour tasks.now) (tree_of plan.now)) }
{
    let mut rows = Vec::with_capacity(alloc, plan.tasks() as usize)?;
    let mut ends = Vec::new(alloc);
    push_line(
        alloc,
        tasks,
        plan.line(),
        Flow::Nothing,
        &mut rows,
        &mut ends,
    )?;
    Ok(Report {
        rows: ListOf::of(rows),
    })
}
