//! Lines that an exception skips: each task fails with it.

ghost use Rattle.std.specs.Prelude.{◌≡◌, ◌++◌, OnOk, map};
ghost use Rattle.canvas_rewrite.specs.FrozenView.{p_steps, p_task_view, p_line_view, p_end_view};
ghost use Rattle.canvas_effects.specs.steps.Walks.{skipped_tasks, skipped, all_skipped, tail_seen};

use canvas_rewrite::{FrozenEnd, FrozenLine, FrozenTask};
use canvas_task::{Fault, Outcome, TaskNo};
use std::alloc::AllocError;

fn skip_tasks(
    tasks: &[FrozenTask],
    fault: &Fault,
    stores: &mut Vec<(TaskNo, Outcome)>,
) -> Result<(), AllocError>
    ensures { OnOk result (stores.new.items
        ≡ stores.old.items ++ skipped_tasks fault.now (map p_task_view tasks.now)) }
{
    for task in tasks {
        stores.push((task.no, Outcome::Failure(*fault)))?;
    }
    Ok(())
}

/// Appends the stores of the tasks of a line.
#[cycle(skip)]
pub(super) fn skip_line(
    line: &FrozenLine,
    fault: &Fault,
    stores: &mut Vec<(TaskNo, Outcome)>,
) -> Result<(), AllocError>
    ensures { OnOk result
        (stores.new.items ≡ stores.old.items ++ skipped fault.now (p_line_view line.now)) }
{
    skip_rest(&line.tail, line.tasks.get(), fault, stores)
}

/// Appends the stores of the line of some tasks and an end.
#[cycle(skip)]
pub(super) fn skip_rest(
    tail: &Option<Box<FrozenEnd>>,
    tasks: &[FrozenTask],
    fault: &Fault,
    stores: &mut Vec<(TaskNo, Outcome)>,
) -> Result<(), AllocError>
    ensures { OnOk result (stores.new.items
        ≡ stores.old.items
        ++ skipped fault.now (p_steps (map p_task_view tasks.now) (tail_seen tail.now))) }
{
    skip_tasks(tasks, fault, stores)?;
    match tail {
        Some(end) => skip_end(end, fault, stores),
        None => Ok(()),
    }
}

#[cycle(skip)]
fn skip_end(
    end: &FrozenEnd,
    fault: &Fault,
    stores: &mut Vec<(TaskNo, Outcome)>,
) -> Result<(), AllocError>
    ensures { OnOk result
        (stores.new.items ≡ stores.old.items ++ skipped fault.now (p_end_view end.now)) }
{
    skip_lines(end.members.get(), fault, stores)?;
    match &end.body {
        Some(body) => skip_line(body, fault, stores),
        None => Ok(()),
    }
}

#[cycle(skip)]
fn skip_lines(
    lines: &[FrozenLine],
    fault: &Fault,
    stores: &mut Vec<(TaskNo, Outcome)>,
) -> Result<(), AllocError>
    ensures { OnOk result
        (stores.new.items ≡ stores.old.items ++ all_skipped fault.now (map p_line_view lines.now)) }
{
    for line in lines {
        skip_line(line, fault, stores)?;
    }
    Ok(())
}
