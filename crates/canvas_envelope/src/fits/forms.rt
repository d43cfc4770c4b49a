//! Checks of numbers, names and places.

ghost use Rattle.std.specs.Prelude.{◌≡◌, map, false, nat_le};
ghost use Rattle.canvas_task.specs.Entries.{named};
ghost use Rattle.canvas_rewrite.specs.FrozenView.{p_tasks_of, p_lines_of, p_task_view, p_line_view, p_end_view};
ghost use Rattle.canvas_envelope.specs.Fits.{is_task_number, call_ok, size_ok, task_ok, tasks_ok, place_ok, line_ok, members_ok, how_many, most_members};
ghost use Rattle.canvas_envelope.specs.MessageView.{place_seen};

use super::MOST_MEMBERS;
use canvas_rewrite::parts::is_in_group;
use canvas_rewrite::{FrozenEnd, FrozenLine, FrozenTask, Place};
use canvas_task::{Arg, GroupNo, TaskNo, name_ok};
use canvas_values::{args_fit, kwargs_fit};
use std::collections::BTreeMap;

/// Returns true, since the number of a task is at least 1. The rule in the contract is about any
/// number, so this checks it.
pub(super) fn is_task(task: TaskNo) -> bool
    ensures { result ≡ is_task_number task }
{
    task.get() > 0
}

/// Returns true, since the number of a group or chord is at least 1.
fn is_group(group: GroupNo) -> bool
    ensures { result ≡ is_task_number group }
{
    group.get() > 0
}

fn is_size(size: u32) -> bool
    ensures { result ≡ size_ok size }
{
    size > 0 && size <= MOST_MEMBERS
}

fn is_header(members: &[FrozenLine]) -> bool
    ensures { result ≡ nat_le (how_many (p_lines_of (map p_line_view members.now))) most_members }
{
    members.len() <= MOST_MEMBERS as usize
}

/// Returns whether a call's name and numbers are allowed, and its keyword arguments ordered.
pub(super) fn is_call(name: &str, args: &[Arg], kwargs: &BTreeMap<String, Arg>) -> bool
    ensures { result
        ≡ call_ok (record {
          name = name.now;
          args = args.now;
          kwargs = named kwargs.now.entries;
          immutable = false;
        }) }
{
    name_ok(name) && args_fit(args) && kwargs_fit(kwargs)
}

#[cycle(tasks)]
fn task_fits(task: &FrozenTask, last: bool) -> bool
    ensures { result ≡ task_ok last (p_task_view task.now) }
{
    is_task(task.no)
        && is_call(task.name.get(), task.args.get(), task.kwargs.get())
        && tasks_fit(task.links.get())
        && tasks_fit(task.errbacks.get())
        && place_fits(&task.place, last)
}

/// Returns whether tasks are allowed, none with a place.
#[cycle(tasks)]
pub(super) fn tasks_fit(tasks: &[FrozenTask]) -> bool
    ensures { result ≡ tasks_ok (p_tasks_of (map p_task_view tasks.now)) }
{
    for task in tasks {
        if !task_fits(task, false) {
            return false;
        }
    }
    true
}

#[cycle(tasks)]
pub(super) fn place_fits(place: &Option<Place>, last: bool) -> bool
    ensures { result ≡ place_ok last (place_seen place.now) }
{
    match place {
        None => true,
        Some(place) => match &place.chord {
            None => last && is_group(place.group),
            Some(carried) => {
                last && is_group(place.group)
                    && is_size(carried.size)
                    && line_fits(&carried.body, true)
            }
        },
    }
}

/// Returns whether a line has an element and is allowed; `last` says whether its end may have a
/// place.
#[cycle(tasks)]
pub(super) fn line_fits(line: &FrozenLine, last: bool) -> bool
    ensures { result ≡ line_ok last (p_line_view line.now) }
{
    match &line.tail {
        Some(end) => tasks_fit(line.tasks.get()) && end_fits(end, last),
        None => match line.tasks.get().split_last() {
            Some((task, others)) => tasks_fit(others) && task_fits(task, last),
            None => false,
        },
    }
}

#[cycle(tasks)]
fn end_fits(end: &FrozenEnd, last: bool) -> bool
    ensures { result ≡ line_ok last (p_end_view end.now) }
{
    let members = end.members.get().as_slice();
    match &end.body {
        Some(body) => {
            is_group(end.group)
                && is_header(members)
                && members_fit(members)
                && line_fits(body, last)
        }
        None => is_group(end.group) && members_fit(members),
    }
}

/// Returns whether members' lines are allowed, none with a place or ending in a group.
#[cycle(tasks)]
fn members_fit(lines: &[FrozenLine]) -> bool
    ensures { result ≡ members_ok (p_lines_of (map p_line_view lines.now)) }
{
    for line in lines {
        if !line_fits(line, false) || is_in_group(line) {
            return false;
        }
    }
    true
}
