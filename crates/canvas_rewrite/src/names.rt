//! The names of a line's tasks.
ghost use Rattle.std.specs.Prelude.{◌≡◌, ◌++◌, IfOk, OnOk, map};
ghost use Rattle.canvas_semantics.specs.Line.{task_names, names};
ghost use Rattle.canvas_rewrite.specs.FrozenView.{task_in, line_in, end_in};
ghost use Rattle.canvas_semantics.specs.steps.Numbering.{tasks_all_names, lines_all_names};

use crate::name_list::NameList;
use crate::{FrozenEnd, FrozenLine, FrozenTask};
use std::alloc::{AllocError, Global};

/// Appends the names of a task, its links and its error callbacks.
#[cycle(task_names)]
fn push_task(task: &FrozenTask, found: &mut NameList) -> Result<(), AllocError>
    ensures { OnOk result (found.new ≡ found.old ++ task_names (task_in task.now)) }
{
    found.push(&task.name)?;
    push_tasks(task.links.get(), found)?;
    push_tasks(task.errbacks.get(), found)
}

#[cycle(task_names)]
fn push_tasks(tasks: &[FrozenTask], found: &mut NameList) -> Result<(), AllocError>
    ensures { OnOk result
        (found.new ≡ found.old ++ tasks_all_names (map task_in tasks.now)) }
{
    for task in tasks {
        push_task(task, found)?;
    }
    Ok(())
}

/// Appends the names of the line's tasks, in file order.
#[cycle(line_names)]
fn push_names(line: &FrozenLine, found: &mut NameList) -> Result<(), AllocError>
    ensures { OnOk result (found.new ≡ found.old ++ names (line_in line.now)) }
{
    push_tasks(line.tasks.get(), found)?;
    match &line.tail {
        Some(end) => push_end(end, found),
        None => Ok(()),
    }
}

#[cycle(line_names)]
fn push_end(end: &FrozenEnd, found: &mut NameList) -> Result<(), AllocError>
    ensures { OnOk result (found.new ≡ found.old ++ names (end_in end.now)) }
{
    push_lines(end.members.get(), found)?;
    match &end.body {
        Some(body) => push_names(body, found),
        None => Ok(()),
    }
}

#[cycle(line_names)]
fn push_lines(lines: &[FrozenLine], found: &mut NameList) -> Result<(), AllocError>
    ensures { OnOk result
        (found.new ≡ found.old ++ lines_all_names (map line_in lines.now)) }
{
    for line in lines {
        push_names(line, found)?;
    }
    Ok(())
}

/// Returns the names of a line's tasks, in file order. `count` is their number.
pub(crate) fn names_of(
    alloc: Global,
    line: &FrozenLine,
    count: usize,
) -> Result<NameList, AllocError>
    ensures { IfOk result (λ found. found ≡ names (line_in line.now)) }
{
    let mut found = NameList::with_capacity(alloc, count)?;
    push_names(line, &mut found)?;
    Ok(found)
}
