//! Estimates of the lengths of texts in bytes, so that most texts need not be moved when they grow.
//! No contract depends on them. The first of several tasks or members counts for all, so that an
//! estimate takes the same time for any number of them.

use crate::Message;
use canvas_rewrite::{FrozenEnd, FrozenLine, FrozenTask, Place};
use canvas_task::Arg;

/// The greatest capacity that is reserved at once; a longer text grows.
const MOST_ROOM: usize = 2_097_152;

/// Estimates the length of an argument, with its comma.
fn argument_room(arg: &Arg) -> usize {
    match arg {
        Arg::Num(_) => 8,
        Arg::List(numbers) => numbers.get().len().saturating_mul(2).saturating_add(8),
        Arg::Text(text) => text.get().len().saturating_add(8),
    }
}

fn arguments_room(args: &[Arg]) -> usize {
    let mut room: usize = 0;
    for arg in args {
        room = room.saturating_add(argument_room(arg));
    }
    room
}

/// Estimates the length of a task, with its callbacks.
fn task_room(task: &FrozenTask) -> usize {
    let callbacks = task
        .links
        .get()
        .len()
        .saturating_add(task.errbacks.get().len());
    callbacks
        .saturating_mul(190)
        .saturating_add(arguments_room(task.args.get()))
        .saturating_add(task.name.get().len())
        .saturating_add(150)
}

/// Estimates the length of several tasks.
pub(crate) fn tasks_room(tasks: &[FrozenTask]) -> usize {
    match tasks.first() {
        Some(task) => task_room(task).saturating_mul(tasks.len()),
        None => 0,
    }
}

/// Estimates the length of the body that the last of some tasks carries.
#[cycle(rooms)]
fn last_place_room(tasks: &[FrozenTask]) -> usize {
    match tasks.last() {
        Some(task) => place_room(&task.place),
        None => 0,
    }
}

/// Estimates the length of the body that a place carries.
#[cycle(rooms)]
fn place_room(place: &Option<Place>) -> usize {
    match place {
        Some(place) => match &place.chord {
            Some(carried) => line_room(&carried.body),
            None => 0,
        },
        None => 0,
    }
}

#[cycle(rooms)]
pub(crate) fn line_room(line: &FrozenLine) -> usize {
    tasks_room(line.tasks.get())
        .saturating_add(last_place_room(line.tasks.get()))
        .saturating_add(end_room(&line.tail))
}

/// Estimates the length of the group or chord at the end of a line, if there is one.
#[cycle(rooms)]
fn end_room(tail: &Option<Box<FrozenEnd>>) -> usize {
    match tail {
        Some(end) => members_room(end.members.get()).saturating_add(rest_room(&end.body)),
        None => 0,
    }
}

#[cycle(rooms)]
fn members_room(members: &[FrozenLine]) -> usize {
    match members.first() {
        Some(member) => line_room(member).saturating_mul(members.len()),
        None => 0,
    }
}

/// Estimates the length of the rest of a line, if there is one.
#[cycle(rooms)]
fn rest_room(rest: &Option<FrozenLine>) -> usize {
    match rest {
        Some(line) => line_room(line),
        None => 0,
    }
}

/// Returns the length of an identifier in its quotes, or of null.
fn id_room(is_named: bool) -> usize {
    if is_named { 38 } else { 4 }
}

/// Estimates the length of a letter's own text: the arguments, three identifiers and the name.
pub(crate) fn own_room(message: &Message) -> usize {
    arguments_room(message.args.get())
        .saturating_add(message.kwargs.get().len().saturating_mul(24))
        .saturating_add(message.name.get().len())
        .saturating_add(id_room(message.place.is_some()))
        .saturating_add(id_room(message.parent.is_some()))
        .saturating_add(48)
        .min(MOST_ROOM)
}
