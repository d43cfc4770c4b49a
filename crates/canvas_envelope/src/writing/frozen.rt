//! Frozen signatures as tokens of JSON.

ghost use Rattle.std.specs.Prelude.{◌++◌, None, codes, map};
ghost use Rattle.canvas_values.specs.steps.Tokens.{Appends, data_tokens, rest_tokens, link_tokens};
ghost use Rattle.canvas_rewrite.specs.FrozenView.{p_tasks_of, p_task_view, p_line_view, p_end_view};
ghost use Rattle.canvas_envelope.specs.steps.Tokens.{unless_null, task_behind, chain_before, members_of_end, group_of_end, list_tokens, tail_tokens, group_closing};
ghost use Rattle.canvas_envelope.specs.MessageView.{place_seen};
ghost use Rattle.canvas_envelope.specs.Wire.{task_wire, tasks_wire, carried_wire, line_wire, members_wire};
ghost use Rattle.serde_json.specs.Data.{string};

use crate::writing::pieces::{
    write_chain_behind, write_group, write_group_closing, write_opening, write_own_id,
    write_task_front,
};
use canvas_rewrite::{FrozenEnd, FrozenLine, FrozenTask, Place};
use canvas_values::write_end;
use json::Writer;
use std::alloc::AllocError;

/// Writes a member that is a list of tasks, or nothing if the list is empty.
#[cycle(write_task)]
fn write_link(out: &mut Writer, name: &str, tasks: &[FrozenTask]) -> Result<(), AllocError>
    ensures { Appends result out.old out.new
        (link_tokens name.now (tasks_wire (p_tasks_of (map p_task_view tasks.now)))) }
{
    if tasks.is_empty() {
        return Ok(());
    }
    out.key(name)?;
    out.begin_array()?;
    write_tasks(out, tasks)
}

/// Writes the rest of a list of tasks, up to the closing bracket.
#[cycle(write_task)]
pub(crate) fn write_tasks(out: &mut Writer, tasks: &[FrozenTask]) -> Result<(), AllocError>
    ensures { Appends result out.old out.new
        (rest_tokens (tasks_wire (p_tasks_of (map p_task_view tasks.now)))) }
{
    for task in tasks {
        write_task(out, task, None)?;
    }
    out.end_array()
}

/// Writes the body that a place carries, if there is one.
#[cycle(write_task)]
fn write_chord(out: &mut Writer, place: &Option<Place>) -> Result<(), AllocError>
    ensures { Appends result out.old out.new
        (unless_null (codes "chord") (carried_wire (place_seen place.now))) }
{
    match place {
        Some(place) => match &place.chord {
            Some(carried) => {
                out.key("chord")?;
                write_line(out, &carried.body, Some(carried.size))
            }
            None => Ok(()),
        },
        None => Ok(()),
    }
}

/// Writes the part of a task after the body that its place carries.
#[cycle(write_task)]
pub(crate) fn write_task_behind(out: &mut Writer, task: &FrozenTask) -> Result<(), AllocError>
    ensures { Appends result out.old out.new (task_behind (p_task_view task.now)) }
{
    write_group(out, &task.place)?;
    write_link(out, "link", task.links.get())?;
    write_link(out, "link_error", task.errbacks.get())?;
    write_own_id(out, task.no)?;
    write_end(out, task.name.get())
}

/// Writes a whole task; `size` is that of the header, if the task is a carried body.
#[cycle(write_task)]
pub(crate) fn write_task(
    out: &mut Writer,
    task: &FrozenTask,
    size: Option<u32>,
) -> Result<(), AllocError>
    ensures { Appends result out.old out.new (data_tokens (task_wire size (p_task_view task.now))) }
{
    write_task_front(out, task, size)?;
    write_chord(out, &task.place)?;
    write_task_behind(out, task)
}

/// Writes a chain up to the last of these tasks, which are its first.
#[cycle(write_task)]
pub(crate) fn write_chain_before(
    out: &mut Writer,
    tasks: &[FrozenTask],
    size: Option<u32>,
) -> Result<(), AllocError>
    ensures { Appends result out.old out.new (chain_before size (map p_task_view tasks.now)) }
{
    write_opening(out, size)?;
    out.key("tasks")?;
    out.begin_array()?;
    for task in tasks {
        write_task(out, task, None)?;
    }
    Ok(())
}

/// Writes a line: a line of one element as that element, a longer one as a chain.
#[cycle(write_task)]
pub(crate) fn write_line(
    out: &mut Writer,
    line: &FrozenLine,
    size: Option<u32>,
) -> Result<(), AllocError>
    ensures { Appends result out.old out.new (data_tokens (line_wire size (p_line_view line.now))) }
{
    let tasks = line.tasks.get().as_slice();
    match &line.tail {
        Some(end) => {
            if tasks.is_empty() {
                return write_last(out, end, size);
            }
            write_chain_before(out, tasks, size)?;
            write_last(out, end, None)?;
            write_chain_behind(out)
        }
        None => {
            if tasks.len() == 1 {
                return write_task(out, &tasks[0], size);
            }
            write_chain_before(out, tasks, size)?;
            write_chain_behind(out)
        }
    }
}

/// Writes the members of a group or chord, and the part after them.
#[cycle(write_task)]
pub(crate) fn write_rest(
    out: &mut Writer,
    end: &FrozenEnd,
    name: &str,
    kind: &str,
    type_name: &str,
) -> Result<(), AllocError>
    ensures { Appends result out.old out.new (list_tokens name.now
        (members_wire (members_of_end (p_end_view end.now)))
        ++ group_closing (group_of_end (p_end_view end.now)) (string kind.now) type_name.now) }
{
    let lines = end.members.get().as_slice();
    out.key(name)?;
    out.begin_array()?;
    for line in lines {
        write_line(out, line, None)?;
    }
    out.end_array()?;
    out.end_object()?;
    write_group_closing(out, end.group, kind, type_name)
}

/// Writes a whole group or chord.
#[cycle(write_task)]
fn write_last(out: &mut Writer, end: &FrozenEnd, size: Option<u32>) -> Result<(), AllocError>
    ensures { Appends result out.old out.new (data_tokens (line_wire size (p_end_view end.now))) }
{
    write_opening(out, size)?;
    match &end.body {
        Some(body) => {
            out.key("body")?;
            write_line(out, body, None)?;
            write_rest(out, end, "header", "chord", "celery.chord")
        }
        None => write_rest(out, end, "tasks", "group", "celery.group"),
    }
}

/// Writes the group or chord that a line ends in.
pub(crate) fn write_tail(out: &mut Writer, line: &FrozenLine) -> Result<(), AllocError>
    ensures { Appends result out.old out.new (tail_tokens (p_line_view line.now)) }
{
    match &line.tail {
        Some(end) => write_last(out, end, None),
        None => Ok(()),
    }
}
