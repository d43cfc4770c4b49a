//! Cloning frozen tasks and lines. A carried body is shared between the clones.

ghost use Rattle.std.specs.Prelude.{◌≡◌, IfOk, map};
ghost use Rattle.canvas_rewrite.specs.FrozenView.{p_task_view, p_line_view, p_end_view};
ghost use Rattle.canvas_rewrite.specs.declared.frozen.FrozenTask.{out-FrozenTask};
ghost use Rattle.canvas_envelope.specs.MessageView.{place_seen, place_view};
ghost use Rattle.canvas_effects.specs.steps.Walks.{at_place};

use canvas_envelope::share_carried;
use canvas_rewrite::{FrozenEnd, FrozenLine, FrozenTask, Place};
use canvas_task::{Arg, ListOf, MapOf, TextOf, copy_args, copy_kwargs};
use std::alloc::{AllocError, Global};

/// Clones a place. The clone shares the carried body.
pub(crate) fn share_place(place: &Place) -> Result<Place, AllocError>
    ensures { IfOk result (λ same. place_view same ≡ place_view place.now) }
{
    match &place.chord {
        Some(carried) => {
            let chord = share_carried(carried)?;
            Ok(Place {
                group: place.group,
                chord: Some(chord),
            })
        }
        None => Ok(Place {
            group: place.group,
            chord: None,
        }),
    }
}

pub(crate) fn share_if_some(place: &Option<Place>) -> Result<Option<Place>, AllocError>
    ensures { IfOk result (λ same. place_seen same ≡ place_seen place.now) }
{
    match place {
        Some(place) => Ok(Some(share_place(place)?)),
        None => Ok(None),
    }
}

/// The name and the arguments of a call.
#[derive(Drop)]
pub(crate) struct Call {
    pub(crate) name: TextOf,
    pub(crate) args: ListOf<Arg>,
    pub(crate) kwargs: MapOf<Arg>,
}

pub(crate) fn copy_call(
    alloc: Global,
    name: &TextOf,
    args: &ListOf<Arg>,
    kwargs: &MapOf<Arg>,
) -> Result<Call, AllocError>
    ensures name { IfOk result (λ call. call.name ≡ name.now) }
    ensures args { IfOk result (λ call. call.args ≡ args.now) }
    ensures kwargs { IfOk result (λ call. call.kwargs ≡ kwargs.now) }
{
    let name = name.clone()?;
    let args = copy_args(args)?;
    let kwargs = copy_kwargs(alloc, kwargs)?;
    Ok(Call { name, args, kwargs })
}

/// The callbacks of a task.
#[derive(Drop)]
struct Callbacks {
    links: ListOf<FrozenTask>,
    errbacks: ListOf<FrozenTask>,
}

#[cycle(copy)]
fn copy_callbacks(alloc: Global, task: &FrozenTask) -> Result<Callbacks, AllocError>
    ensures links { IfOk result (λ back. map p_task_view back.links
        ≡ map p_task_view (out-FrozenTask task.now).links) }
    ensures errbacks { IfOk result (λ back. map p_task_view back.errbacks
        ≡ map p_task_view (out-FrozenTask task.now).errbacks) }
{
    let links = copy_tasks(alloc, task.links.get())?;
    let errbacks = copy_tasks(alloc, task.errbacks.get())?;
    Ok(Callbacks {
        links: ListOf::of(links),
        errbacks: ListOf::of(errbacks),
    })
}

/// Clones a task, with another place.
#[cycle(copy)]
pub(crate) fn copy_task(
    alloc: Global,
    task: &FrozenTask,
    place: Option<Place>,
) -> Result<FrozenTask, AllocError>
    ensures { IfOk result
        (λ copy. p_task_view copy ≡ at_place (place_seen place) (p_task_view task.now)) }
{
    let call = copy_call(alloc, &task.name, &task.args, &task.kwargs)?;
    let back = copy_callbacks(alloc, task)?;
    Ok(FrozenTask {
        no: task.no,
        name: call.name,
        args: call.args,
        kwargs: call.kwargs,
        immutable: task.immutable,
        links: back.links,
        errbacks: back.errbacks,
        place,
    })
}

#[cycle(copy)]
pub(crate) fn copy_tasks(alloc: Global, tasks: &[FrozenTask]) -> Result<Vec<FrozenTask>, AllocError>
    ensures { IfOk result (λ copies. map p_task_view copies.items ≡ map p_task_view tasks.now) }
{
    let mut copies = Vec::with_capacity(alloc, tasks.len())?;
    for task in tasks {
        let place = share_if_some(&task.place)?;
        copies.push(copy_task(alloc, task, place)?)?;
    }
    Ok(copies)
}

/// Clones a line.
#[cycle(copy_line)]
pub(crate) fn copy_line(alloc: Global, line: &FrozenLine) -> Result<FrozenLine, AllocError>
    ensures { IfOk result (λ copy. p_line_view copy ≡ p_line_view line.now) }
{
    let tasks = ListOf::of(copy_tasks(alloc, line.tasks.get())?);
    match &line.tail {
        Some(end) => {
            let end = copy_end(alloc, end)?;
            let tail = Box::new(alloc, end)?;
            Ok(FrozenLine {
                tasks,
                tail: Some(tail),
            })
        }
        None => Ok(FrozenLine { tasks, tail: None }),
    }
}

#[cycle(copy_line)]
fn copy_end(alloc: Global, end: &FrozenEnd) -> Result<FrozenEnd, AllocError>
    ensures { IfOk result (λ copy. p_end_view copy ≡ p_end_view end.now) }
{
    let members = ListOf::of(copy_lines(alloc, end.members.get())?);
    match &end.body {
        Some(body) => {
            let body = copy_line(alloc, body)?;
            Ok(FrozenEnd {
                group: end.group,
                members,
                body: Some(body),
            })
        }
        None => Ok(FrozenEnd {
            group: end.group,
            members,
            body: None,
        }),
    }
}

#[cycle(copy_line)]
fn copy_lines(alloc: Global, lines: &[FrozenLine]) -> Result<Vec<FrozenLine>, AllocError>
    ensures { IfOk result (λ copies. map p_line_view copies.items ≡ map p_line_view lines.now) }
{
    let mut copies = Vec::with_capacity(alloc, lines.len())?;
    for line in lines {
        copies.push(copy_line(alloc, line)?)?;
    }
    Ok(copies)
}
