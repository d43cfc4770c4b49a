//! The parts of a line's text before and after the text of the body that its end carries, as tokens
//! of JSON.
//!
//! A shared text may contain another one, at one place, so it is written in two parts around the
//! other. Each part is printed by itself: the printed form of tokens depends on the earlier ones
//! only by whether a value just ended.

ghost use Rattle.std.specs.Prelude.{◌≡◌, None, map};
ghost use Rattle.canvas_values.specs.steps.Tokens.{Appends};
ghost use Rattle.canvas_semantics.specs.PlacedLine.{p_stop};
ghost use Rattle.canvas_rewrite.specs.FrozenView.{p_steps, p_task_view, p_line_view, p_end_view};
ghost use Rattle.canvas_envelope.specs.MessageView.{place_seen};
ghost use Rattle.canvas_envelope.specs.steps.Around.{carries, is_carrying, task_before, line_before, last_before, line_behind, last_behind};

use crate::writing::frozen::{write_chain_before, write_rest, write_task_behind};
use crate::writing::pieces::{write_chain_behind, write_opening, write_task_front};
use canvas_rewrite::{FrozenEnd, FrozenLine, FrozenTask, Place};
use json::Writer;
use std::alloc::AllocError;

fn is_carrying(place: &Option<Place>) -> bool
    ensures { result ≡ is_carrying (place_seen place.now) }
{
    match place {
        Some(place) => place.chord.is_some(),
        None => false,
    }
}

/// Returns whether the end of a line carries a body.
#[cycle(carries)]
pub(crate) fn carries(line: &FrozenLine) -> bool
    ensures { result ≡ carries (p_line_view line.now) }
{
    match &line.tail {
        Some(end) => end_carries(end),
        None => match line.tasks.get().split_last() {
            Some((last, _others)) => is_carrying(&last.place),
            None => false,
        },
    }
}

#[cycle(carries)]
fn end_carries(end: &FrozenEnd) -> bool
    ensures { result ≡ carries (p_end_view end.now) }
{
    match &end.body {
        Some(body) => carries(body),
        None => false,
    }
}

/// Writes a task up to the body that its place carries.
fn write_task_before(
    out: &mut Writer,
    task: &FrozenTask,
    size: Option<u32>,
) -> Result<(), AllocError>
    ensures { Appends result out.old out.new (task_before size (p_task_view task.now)) }
{
    write_task_front(out, task, size)?;
    out.key("chord")
}

/// Writes a line up to the body that its end carries.
#[cycle(before)]
pub(crate) fn write_line_before(
    out: &mut Writer,
    line: &FrozenLine,
    size: Option<u32>,
) -> Result<(), AllocError>
    ensures { Appends result out.old out.new (line_before size (p_line_view line.now)) }
{
    let tasks = line.tasks.get().as_slice();
    match &line.tail {
        Some(end) => {
            if tasks.is_empty() {
                return write_end_before(out, end, size);
            }
            write_chain_before(out, tasks, size)?;
            write_end_before(out, end, None)
        }
        None => write_tasks_before(out, tasks, size),
    }
}

/// Writes a line of only tasks, up to that body.
fn write_tasks_before(
    out: &mut Writer,
    tasks: &[FrozenTask],
    size: Option<u32>,
) -> Result<(), AllocError>
    ensures { Appends result out.old out.new
        (line_before size (p_steps (map p_task_view tasks.now) p_stop)) }
{
    match tasks.split_last() {
        Some((last, others)) => {
            if others.is_empty() {
                return write_task_before(out, last, size);
            }
            write_chain_before(out, others, size)?;
            write_task_before(out, last, None)
        }
        None => Ok(()),
    }
}

#[cycle(before)]
fn write_end_before(out: &mut Writer, end: &FrozenEnd, size: Option<u32>) -> Result<(), AllocError>
    ensures { Appends result out.old out.new (line_before size (p_end_view end.now)) }
{
    match &end.body {
        Some(body) => {
            write_opening(out, size)?;
            out.key("body")?;
            write_line_before(out, body, None)
        }
        None => Ok(()),
    }
}

/// Writes the last element of a line, up to the body that it carries.
pub(crate) fn write_last_before(out: &mut Writer, line: &FrozenLine) -> Result<(), AllocError>
    ensures { Appends result out.old out.new (last_before (p_line_view line.now)) }
{
    match &line.tail {
        Some(end) => write_end_before(out, end, None),
        None => match line.tasks.get().split_last() {
            Some((last, _others)) => write_task_before(out, last, None),
            None => Ok(()),
        },
    }
}

/// Writes the part of a line after the body that its end carries.
#[cycle(behind)]
pub(crate) fn write_line_behind(out: &mut Writer, line: &FrozenLine) -> Result<(), AllocError>
    ensures { Appends result out.old out.new (line_behind (p_line_view line.now)) }
{
    let tasks = line.tasks.get().as_slice();
    match &line.tail {
        Some(end) => {
            write_end_behind(out, end)?;
            if tasks.is_empty() {
                return Ok(());
            }
            write_chain_behind(out)
        }
        None => write_tasks_behind(out, tasks),
    }
}

/// Writes the part of a line of only tasks after that body.
fn write_tasks_behind(out: &mut Writer, tasks: &[FrozenTask]) -> Result<(), AllocError>
    ensures { Appends result out.old out.new
        (line_behind (p_steps (map p_task_view tasks.now) p_stop)) }
{
    match tasks.split_last() {
        Some((last, others)) => {
            write_task_behind(out, last)?;
            if others.is_empty() {
                return Ok(());
            }
            write_chain_behind(out)
        }
        None => Ok(()),
    }
}

#[cycle(behind)]
fn write_end_behind(out: &mut Writer, end: &FrozenEnd) -> Result<(), AllocError>
    ensures { Appends result out.old out.new (line_behind (p_end_view end.now)) }
{
    match &end.body {
        Some(body) => {
            write_line_behind(out, body)?;
            write_rest(out, end, "header", "chord", "celery.chord")
        }
        None => Ok(()),
    }
}

/// Writes the part of the last element of a line after the body that it carries.
pub(crate) fn write_last_behind(out: &mut Writer, line: &FrozenLine) -> Result<(), AllocError>
    ensures { Appends result out.old out.new (last_behind (p_line_view line.now)) }
{
    match &line.tail {
        Some(end) => write_end_behind(out, end),
        None => match line.tasks.get().split_last() {
            Some((last, _others)) => write_task_behind(out, last),
            None => Ok(()),
        },
    }
}
