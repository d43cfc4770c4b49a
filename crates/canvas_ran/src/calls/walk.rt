//! The walk over a plan's line that finds the front of each task.
ghost use Rattle.std.specs.Prelude.{◌≡◌, ◌++◌, IfOk, OnOk, map};
ghost use Rattle.canvas_rewrite.specs.FrozenView.{end_in, line_in, task_in};
ghost use Rattle.canvas_ran.specs.Fronts.{line_fronts, task_fronts};
ghost use Rattle.canvas_ran.specs.steps.FrontLists.{callbacks_fronts, front_behind, lines_fronts_of, tail_fronts, tasks_fronts_of};

use crate::calls::ends::lines_end;
use crate::calls::front::Front;
use canvas_report::Fate;
use canvas_rewrite::{FrozenEnd, FrozenLine, FrozenTask};
use canvas_task::TaskNo;
use std::alloc::{AllocError, Global};

/// Appends the fronts of a task, its links and its error callbacks.
#[cycle(tasks)]
fn push_task(
    alloc: Global,
    task: &FrozenTask,
    front: &Front,
    fates: &[(TaskNo, Fate)],
    found: &mut Vec<Front>,
) -> Result<(), AllocError>
    ensures { OnOk result (found.new.items
        ≡ found.old.items ++ task_fronts fates.now (task_in task.now) front.now) }
{
    found.push(front.copy()?)?;
    let behind = front.behind(alloc, fates, task.no)?;
    push_callbacks(alloc, task.links.get(), &behind, fates, found)?;
    push_callbacks(alloc, task.errbacks.get(), &behind, fates, found)
}

#[cycle(tasks)]
fn push_callbacks(
    alloc: Global,
    tasks: &[FrozenTask],
    front: &Front,
    fates: &[(TaskNo, Fate)],
    found: &mut Vec<Front>,
) -> Result<(), AllocError>
    ensures { OnOk result (found.new.items
        ≡ found.old.items ++ callbacks_fronts fates.now (map task_in tasks.now) front.now) }
{
    for task in tasks {
        push_task(alloc, task, front, fates, found)?;
    }
    Ok(())
}

/// Appends the fronts of the tasks before a line's group or chord. Returns the front of what
/// follows them.
fn push_tasks(
    alloc: Global,
    tasks: &[FrozenTask],
    front: &Front,
    fates: &[(TaskNo, Fate)],
    found: &mut Vec<Front>,
) -> Result<Front, AllocError>
    ensures pushed { OnOk result (found.new.items
        ≡ found.old.items ++ tasks_fronts_of fates.now (map task_in tasks.now) front.now) }
    ensures behind { IfOk result
        (λ f. f ≡ front_behind fates.now (map task_in tasks.now) front.now) }
{
    let mut comes = front.copy()?;
    for task in tasks {
        push_task(alloc, task, &comes, fates, found)?;
        comes = comes.behind(alloc, fates, task.no)?;
    }
    Ok(comes)
}

#[cycle(lines)]
pub(crate) fn push_line(
    alloc: Global,
    line: &FrozenLine,
    front: &Front,
    fates: &[(TaskNo, Fate)],
    found: &mut Vec<Front>,
) -> Result<(), AllocError>
    ensures { OnOk result (found.new.items
        ≡ found.old.items ++ line_fronts fates.now (line_in line.now) front.now) }
{
    let behind = push_tasks(alloc, line.tasks.get(), front, fates, found)?;
    push_tail(alloc, &line.tail, &behind, fates, found)
}

/// Appends the fronts of the group or chord that a line ends in, if it does.
#[cycle(lines)]
fn push_tail(
    alloc: Global,
    tail: &Option<Box<FrozenEnd>>,
    front: &Front,
    fates: &[(TaskNo, Fate)],
    found: &mut Vec<Front>,
) -> Result<(), AllocError>
    ensures { OnOk result
        (found.new.items ≡ found.old.items ++ tail_fronts fates.now tail.now front.now) }
{
    match tail {
        Some(end) => push_end(alloc, end, front, fates, found),
        None => Ok(()),
    }
}

#[cycle(lines)]
fn push_end(
    alloc: Global,
    end: &FrozenEnd,
    front: &Front,
    fates: &[(TaskNo, Fate)],
    found: &mut Vec<Front>,
) -> Result<(), AllocError>
    ensures { OnOk result (found.new.items
        ≡ found.old.items ++ line_fronts fates.now (end_in end.now) front.now) }
{
    push_lines(alloc, end.members.get(), front, fates, found)?;
    match &end.body {
        Some(body) => {
            let beyond = front.beyond(lines_end(alloc, end.members.get(), fates)?)?;
            push_line(alloc, body, &beyond, fates, found)
        }
        None => Ok(()),
    }
}

#[cycle(lines)]
fn push_lines(
    alloc: Global,
    lines: &[FrozenLine],
    front: &Front,
    fates: &[(TaskNo, Fate)],
    found: &mut Vec<Front>,
) -> Result<(), AllocError>
    ensures { OnOk result (found.new.items
        ≡ found.old.items ++ lines_fronts_of fates.now (map line_in lines.now) front.now) }
{
    for line in lines {
        push_line(alloc, line, front, fates, found)?;
    }
    Ok(())
}
