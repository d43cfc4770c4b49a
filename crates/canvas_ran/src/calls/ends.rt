//! The walk over a line that finds after which tasks' ends its own end comes.
ghost use Rattle.std.specs.Prelude.{◌≡◌, ◌++◌, [], IfOk, OnOk, map};
ghost use Rattle.canvas_rewrite.specs.FrozenView.{end_in, line_in, task_in};
ghost use Rattle.canvas_ran.specs.Fronts.{line_end, or_else};
ghost use Rattle.canvas_ran.specs.steps.FrontLists.{lines_ends, tasks_end};

use crate::calls::front::own_end;
use canvas_report::Fate;
use canvas_rewrite::{FrozenEnd, FrozenLine, FrozenTask};
use canvas_task::TaskNo;
use std::alloc::{AllocError, Global};

/// Returns the end of the tasks before a line's group or chord.
fn tasks_end(
    alloc: Global,
    tasks: &[FrozenTask],
    fates: &[(TaskNo, Fate)],
    before: Vec<TaskNo>,
) -> Result<Vec<TaskNo>, AllocError>
    ensures { IfOk result
        (λ ends. ends.items ≡ tasks_end fates.now (map task_in tasks.now) before.items) }
{
    let mut ends = before;
    for task in tasks {
        ends = own_end(alloc, fates, task.no, ends)?;
    }
    Ok(ends)
}

/// Returns these ends, or the others if there are none.
fn or_else(ends: Vec<TaskNo>, before: Vec<TaskNo>) -> Vec<TaskNo>
    ensures { result.items ≡ or_else ends.items before.items }
{
    if ends.is_empty() { before } else { ends }
}

#[cycle(lines)]
fn line_end(
    alloc: Global,
    line: &FrozenLine,
    fates: &[(TaskNo, Fate)],
    before: Vec<TaskNo>,
) -> Result<Vec<TaskNo>, AllocError>
    ensures { IfOk result
        (λ ends. ends.items ≡ line_end fates.now (line_in line.now) before.items) }
{
    let ends = tasks_end(alloc, line.tasks.get(), fates, before)?;
    match &line.tail {
        Some(end) => tail_end(alloc, end, fates, ends),
        None => Ok(ends),
    }
}

#[cycle(lines)]
fn tail_end(
    alloc: Global,
    end: &FrozenEnd,
    fates: &[(TaskNo, Fate)],
    before: Vec<TaskNo>,
) -> Result<Vec<TaskNo>, AllocError>
    ensures { IfOk result
        (λ ends. ends.items ≡ line_end fates.now (end_in end.now) before.items) }
{
    let ends = lines_end(alloc, end.members.get(), fates)?;
    let own = or_else(ends, before);
    match &end.body {
        Some(body) => line_end(alloc, body, fates, own),
        None => Ok(own),
    }
}

/// Returns the ends of a group's or header's members, in their order.
#[cycle(lines)]
pub(crate) fn lines_end(
    alloc: Global,
    lines: &[FrozenLine],
    fates: &[(TaskNo, Fate)],
) -> Result<Vec<TaskNo>, AllocError>
    ensures { IfOk result (λ ends. ends.items ≡ lines_ends fates.now (map line_in lines.now)) }
{
    let mut found = Vec::new(alloc);
    for line in lines {
        let none = Vec::new(alloc);
        let ends = line_end(alloc, line, fates, none)?;
        found.extend_from_slice(&ends)?;
    }
    Ok(found)
}
