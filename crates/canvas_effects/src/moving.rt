//! Consumed lines whose end goes to a place: their contents are moved and not cloned.

ghost use Rattle.std.specs.Prelude.{◌≡◌, IfOk, map};
ghost use Rattle.canvas_rewrite.specs.FrozenView.{p_steps, p_task_view, p_line_view, p_end_view};
ghost use Rattle.canvas_semantics.specs.PlacedLine.{p_stop};
ghost use Rattle.canvas_effects.specs.Placing.{placed};
ghost use Rattle.canvas_envelope.specs.MessageView.{place_seen, rest_seen};
ghost use Rattle.canvas_effects.specs.steps.Walks.{at_place};

use canvas_rewrite::{FrozenEnd, FrozenLine, FrozenTask, Place};
use canvas_task::ListOf;
use std::alloc::{AllocError, Global};

/// Returns a task with another place.
pub(crate) fn into_place(task: FrozenTask, place: Option<Place>) -> FrozenTask
    ensures { p_task_view result ≡ at_place (place_seen place) (p_task_view task) }
{
    let FrozenTask {
        no,
        name,
        args,
        kwargs,
        immutable,
        links,
        errbacks,
        place: _own,
    } = task;
    FrozenTask {
        no,
        name,
        args,
        kwargs,
        immutable,
        links,
        errbacks,
        place,
    }
}

/// Sets the place of the last of some tasks.
fn into_placed_tasks(
    tasks: Vec<FrozenTask>,
    place: Option<Place>,
) -> Result<Vec<FrozenTask>, AllocError>
    ensures { IfOk result (λ all. p_steps (map p_task_view all.items) p_stop
        ≡ placed (place_seen place) (p_steps (map p_task_view tasks.items) p_stop)) }
{
    let mut tasks = tasks;
    match tasks.pop() {
        Some(last) => {
            tasks.push(into_place(last, place))?;
            Ok(tasks)
        }
        None => Ok(tasks),
    }
}

/// Sets the place of a line's end.
#[cycle(placed)]
pub(crate) fn into_placed(
    alloc: Global,
    line: FrozenLine,
    place: Option<Place>,
) -> Result<FrozenLine, AllocError>
    ensures { IfOk result
        (λ all. p_line_view all ≡ placed (place_seen place) (p_line_view line)) }
{
    let FrozenLine { tasks, tail } = line;
    match tail {
        Some(end) => {
            let end = into_placed_end(alloc, Box::into_inner(end), place)?;
            let tail = Box::new(alloc, end)?;
            Ok(FrozenLine {
                tasks,
                tail: Some(tail),
            })
        }
        None => {
            let tasks = into_placed_tasks(tasks.into_plain(), place)?;
            Ok(FrozenLine {
                tasks: ListOf::of(tasks),
                tail: None,
            })
        }
    }
}

#[cycle(placed)]
fn into_placed_end(
    alloc: Global,
    end: FrozenEnd,
    place: Option<Place>,
) -> Result<FrozenEnd, AllocError>
    ensures { IfOk result (λ all. p_end_view all ≡ placed (place_seen place) (p_end_view end)) }
{
    let FrozenEnd {
        group,
        members,
        body,
    } = end;
    match body {
        Some(body) => {
            let body = into_placed(alloc, body, place)?;
            Ok(FrozenEnd {
                group,
                members,
                body: Some(body),
            })
        }
        None => Ok(FrozenEnd {
            group,
            members,
            body: None,
        }),
    }
}

/// Sets the place of the end of a line's rest.
pub(crate) fn into_placed_rest(
    alloc: Global,
    rest: Option<FrozenLine>,
    place: Option<Place>,
) -> Result<Option<FrozenLine>, AllocError>
    ensures { IfOk result (λ all. rest_seen all ≡ placed (place_seen place) (rest_seen rest)) }
{
    match rest {
        Some(rest) => Ok(Some(into_placed(alloc, rest, place)?)),
        None => Ok(None),
    }
}
