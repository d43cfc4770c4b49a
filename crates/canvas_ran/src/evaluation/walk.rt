//! The walk over a plan's line, which finds the state of each task in the order of their numbers.
ghost use Rattle.std.specs.Prelude.{◌≡◌, ◌++◌, IfOk, None, OnOk, Some, map, option_map, option_to_list};
ghost use Rattle.canvas_rewrite.specs.FrozenView.{end_in, line_in, task_in};
ghost use Rattle.canvas_semantics.specs.Evaluation.{to_errbacks, to_links};
ghost use Rattle.canvas_ran.specs.steps.Flows.{flow_seen};
ghost use Rattle.canvas_ran.specs.steps.Walked.{all_ends, all_states, called_state, callbacks_states, flow_behind, front_states, last_end, line_ends, line_states, own_state, task_states};

use crate::evaluation::flow::{Flow, group_value, passed_on};
use canvas_rewrite::{FrozenEnd, FrozenLine, FrozenTask};
use canvas_task::{Arg, Fault, Outcome, TaskNo, Tasks};
use std::alloc::{AllocError, Global};

/// Appends clones of arguments.
fn push_all(args: &mut Vec<Arg>, others: &[Arg]) -> Result<(), AllocError>
    ensures { OnOk result (args.new.items ≡ args.old.items ++ others.now) }
{
    args.extend_from_slice(others)
}

/// Calls a task into which this flows, and no exception.
fn called<T: Tasks>(
    alloc: Global,
    tasks: &T,
    task: &FrozenTask,
    flow: &Flow,
) -> Result<Outcome, AllocError>
    ensures { IfOk result (λ o. o
        ≡ called_state (T.behaviour tasks.now) (task_in task.now) (flow_seen flow.now)) }
{
    if task.immutable {
        return Ok(tasks.apply(task.name.get(), task.args.get(), task.kwargs.get()));
    }
    let mut args = Vec::with_capacity(alloc, task.args.get().len().saturating_add(1))?;
    flow.push_to(alloc, &mut args)?;
    push_all(&mut args, task.args.get())?;
    Ok(tasks.apply(task.name.get(), &args, task.kwargs.get()))
}

/// Returns the state of a task into which this flows. It is pending if nothing reaches it.
fn state_of<T: Tasks>(
    alloc: Global,
    tasks: &T,
    task: &FrozenTask,
    flow: Option<&Flow>,
) -> Result<Option<Outcome>, AllocError>
    ensures { IfOk result (λ s. s ≡ own_state (T.behaviour tasks.now) (task_in task.now)
        (option_map (λ x. flow_seen x.now) flow.entry)) }
{
    match flow {
        None => Ok(None),
        Some(Flow::Skip(fault) | Flow::Raised(fault)) => Ok(Some(Outcome::Failure(*fault))),
        Some(flow) => Ok(Some(called(alloc, tasks, task, flow)?)),
    }
}

/// Returns what flows into the links of a task with this state.
fn to_links(state: &Option<Outcome>) -> Option<Flow>
    ensures { option_map flow_seen result ≡ to_links state.now }
{
    match state {
        Some(Outcome::Success(number)) => Some(Flow::Number(*number)),
        _ => None,
    }
}

/// Returns what flows into the error callbacks of a task with this state.
fn to_errbacks(task: TaskNo, flow: Option<&Flow>, state: &Option<Outcome>) -> Option<Flow>
    ensures { option_map flow_seen result
        ≡ to_errbacks task (option_map (λ x. flow_seen x.now) flow.entry) state.now }
{
    match (flow, state) {
        (Some(Flow::Skip(_)), _) => None,
        (_, Some(Outcome::Failure(_))) => Some(Flow::Ident(task)),
        _ => None,
    }
}

/// Appends the states of a task, its links and its error callbacks. Returns the task's own state.
#[cycle(tasks)]
fn push_task<T: Tasks>(
    alloc: Global,
    tasks: &T,
    task: &FrozenTask,
    flow: Option<&Flow>,
    found: &mut Vec<Option<Outcome>>,
) -> Result<Option<Outcome>, AllocError>
    ensures pushed { OnOk result (found.new.items ≡ found.old.items
        ++ task_states (T.behaviour tasks.now) (task_in task.now)
        (option_map (λ x. flow_seen x.now) flow.entry)) }
    ensures state { IfOk result (λ s. s ≡ own_state (T.behaviour tasks.now) (task_in task.now)
        (option_map (λ x. flow_seen x.now) flow.entry)) }
{
    let state = state_of(alloc, tasks, task, flow)?;
    found.push(state)?;
    let linked = to_links(&state);
    push_callbacks(alloc, tasks, task.links.get(), linked.as_ref(), found)?;
    let back = to_errbacks(task.no, flow, &state);
    push_callbacks(alloc, tasks, task.errbacks.get(), back.as_ref(), found)?;
    Ok(state)
}

#[cycle(tasks)]
fn push_callbacks<T: Tasks>(
    alloc: Global,
    tasks: &T,
    callbacks: &[FrozenTask],
    flow: Option<&Flow>,
    found: &mut Vec<Option<Outcome>>,
) -> Result<(), AllocError>
    ensures { OnOk result (found.new.items ≡ found.old.items
        ++ callbacks_states (T.behaviour tasks.now) (map task_in callbacks.now)
        (option_map (λ x. flow_seen x.now) flow.entry)) }
{
    for callback in callbacks {
        push_task(alloc, tasks, callback, flow, found)?;
    }
    Ok(())
}

/// Appends the states of the tasks before a line's end. Returns what flows out of the last, and the
/// last with its state.
fn push_tasks<T: Tasks>(
    alloc: Global,
    tasks: &T,
    line: &[FrozenTask],
    flow: Flow,
    found: &mut Vec<Option<Outcome>>,
) -> Result<(Flow, Option<(TaskNo, Option<Outcome>)>), AllocError>
    ensures pushed { OnOk result (found.new.items ≡ found.old.items
        ++ front_states (T.behaviour tasks.now) (map task_in line.now) (flow_seen flow)) }
    ensures behind { IfOk result (λ r. flow_seen r.0
        ≡ flow_behind (T.behaviour tasks.now) (map task_in line.now) (flow_seen flow)) }
    ensures last { IfOk result (λ r. r.1
        ≡ last_end (T.behaviour tasks.now) (map task_in line.now) (flow_seen flow) None) }
{
    let mut comes = flow;
    let mut last = None;
    for task in line {
        let state = push_task(alloc, tasks, task, Some(&comes), found)?;
        comes = passed_on(&state);
        last = Some((task.no, state));
    }
    Ok((comes, last))
}

/// Appends the task that a line ends in, if there is one.
fn push_last(
    ends: &mut Vec<(TaskNo, Option<Outcome>)>,
    last: Option<(TaskNo, Option<Outcome>)>,
) -> Result<(), AllocError>
    ensures { OnOk result (ends.new.items ≡ ends.old.items ++ option_to_list last) }
{
    // A proof about states is made only if the type of a failure's fault is named.
    let _none: Option<Fault> = None;
    match last {
        Some(last) => Ok(ends.push(last)?),
        None => Ok(()),
    }
}

/// Appends the states of a line's tasks. Returns the tasks that it ends in.
#[cycle(lines)]
pub(crate) fn push_line<T: Tasks>(
    alloc: Global,
    tasks: &T,
    line: &FrozenLine,
    flow: Flow,
    found: &mut Vec<Option<Outcome>>,
    ends: &mut Vec<(TaskNo, Option<Outcome>)>,
) -> Result<(), AllocError>
    ensures pushed { OnOk result (found.new.items ≡ found.old.items
        ++ line_states (T.behaviour tasks.now) (line_in line.now) (flow_seen flow)) }
    ensures ends { OnOk result (ends.new.items ≡ ends.old.items
        ++ line_ends (T.behaviour tasks.now) (line_in line.now) (flow_seen flow)) }
{
    let (behind, last) = push_tasks(alloc, tasks, line.tasks.get(), flow, found)?;
    match &line.tail {
        Some(end) => push_end(alloc, tasks, end, &behind, found, ends),
        None => push_last(ends, last),
    }
}

#[cycle(lines)]
fn push_end<T: Tasks>(
    alloc: Global,
    tasks: &T,
    end: &FrozenEnd,
    flow: &Flow,
    found: &mut Vec<Option<Outcome>>,
    ends: &mut Vec<(TaskNo, Option<Outcome>)>,
) -> Result<(), AllocError>
    ensures pushed { OnOk result (found.new.items ≡ found.old.items
        ++ line_states (T.behaviour tasks.now) (end_in end.now) (flow_seen flow.now)) }
    ensures ends { OnOk result (ends.new.items ≡ ends.old.items
        ++ line_ends (T.behaviour tasks.now) (end_in end.now) (flow_seen flow.now)) }
{
    match &end.body {
        Some(body) => {
            let mut own = Vec::new(alloc);
            push_lines(alloc, tasks, end.members.get(), flow, found, &mut own)?;
            let into = group_value(alloc, flow, &own)?;
            push_line(alloc, tasks, body, into, found, ends)
        }
        None => push_lines(alloc, tasks, end.members.get(), flow, found, ends),
    }
}

#[cycle(lines)]
fn push_lines<T: Tasks>(
    alloc: Global,
    tasks: &T,
    lines: &[FrozenLine],
    flow: &Flow,
    found: &mut Vec<Option<Outcome>>,
    ends: &mut Vec<(TaskNo, Option<Outcome>)>,
) -> Result<(), AllocError>
    ensures pushed { OnOk result (found.new.items ≡ found.old.items
        ++ all_states (T.behaviour tasks.now) (map line_in lines.now) (flow_seen flow.now)) }
    ensures ends { OnOk result (ends.new.items ≡ ends.old.items
        ++ all_ends (T.behaviour tasks.now) (map line_in lines.now) (flow_seen flow.now)) }
{
    for line in lines {
        push_line(alloc, tasks, line, flow.copy()?, found, ends)?;
    }
    Ok(())
}
