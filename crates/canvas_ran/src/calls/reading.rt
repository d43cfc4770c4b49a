//! The front of each task of a run.
ghost use Rattle.std.specs.Prelude.{◌≡◌, IfOk};
ghost use Rattle.canvas_task.specs.Apply.{Behaviour};
ghost use Rattle.canvas_semantics.specs.Line.{tree_of};
ghost use Rattle.canvas_semantics.specs.States.{states};
ghost use Rattle.canvas_ran.specs.Fronts.{fronts};

use crate::calls::front::Front;
use crate::calls::walk::push_line;
use crate::fates;
use canvas_report::Report;
use canvas_rewrite::Plan;
use canvas_task::Memory;
use std::alloc::Global;

/// Returns the front of each task of a plan in the run that gave the report, in the order of the
/// tasks' numbers.
pub fn fronts(alloc: Global, plan: &Plan, report: &Report) -> Result<Vec<Front>, Memory>
    ensures { (behaviour : Behaviour)
        → report.now.rows ≡ states behaviour (tree_of plan.now)
        → IfOk result (λ found. found.items ≡ fronts behaviour plan.now) }
{
    let fates = fates(alloc, plan, report)?;
    let mut found = Vec::new(alloc);
    push_line(alloc, plan.line(), &Front::first(alloc), &fates, &mut found)?;
    Ok(found)
}
