//! Whether a message names only what a book knows.
//!
//! A message is dropped if it names what the plan doesn't have, or has elsewhere. Who wrote it
//! can't be known: a forged message that fits the plan is run as the plan's own.

ghost use Rattle.std.specs.Prelude.{◌≡◌, true, map, drop};
ghost use Rattle.canvas_rewrite.specs.FrozenView.{p_tasks_of, p_lines_of, p_task_view, p_line_view, p_end_view};
ghost use Rattle.canvas_semantics.specs.PlacedLine.{PLine};
ghost use Rattle.canvas_envelope.specs.Fits.{how_many};
ghost use Rattle.canvas_envelope.specs.Unplaced.{AreUnplaced, EachFirst};
ghost use Rattle.canvas_effects.specs.Placing.{last_task};
ghost use Rattle.canvas_envelope.specs.MessageView.{place_seen, rest_seen};
ghost use Rattle.canvas_envelope.specs.steps.Lines.{end_seen};
ghost use Rattle.canvas_runs.specs.Book.{task_known, tasks_known, place_known, line_known, members_known, message_known, parent_known, has_size};
ghost use Rattle.canvas_core.specs.steps.Lasts.{or_zero, last_number};

use crate::Book;
use canvas_envelope::{Followed, Message, Unplaced};
use canvas_rewrite::{FrozenEnd, FrozenLine, FrozenTask, Place};
use canvas_task::{GroupNo, TaskNo};
use std::collections::VecDeque;

/// Returns the number of the last of some tasks.
fn last_own(tasks: &[FrozenTask]) -> Option<TaskNo>
    ensures { or_zero result ≡ last_number tasks.now }
{
    match tasks.split_last() {
        Some((task, _others)) => Some(task.no),
        None => None,
    }
}

/// Returns the last task of a line, which may end in a group.
#[cycle(last)]
fn last_task(line: &FrozenLine) -> Option<TaskNo>
    ensures { or_zero result ≡ last_task 0 (p_line_view line.now) }
{
    match &line.tail {
        Some(end) => last_behind(end, last_own(line.tasks.get())),
        None => last_own(line.tasks.get()),
    }
}

/// Returns the last task of a group or chord; for a group, the one before it.
#[cycle(last)]
fn last_behind(end: &FrozenEnd, before: Option<TaskNo>) -> Option<TaskNo>
    ensures { or_zero result ≡ last_task (or_zero before) (p_end_view end.now) }
{
    match &end.body {
        Some(body) => last_task(body),
        None => before,
    }
}

fn has_size<B: Book>(book: &B, group: GroupNo, size: usize) -> bool
    ensures { result ≡ has_size size ((B.book book.now).size group) }
{
    match book.size(group) {
        Some(members) => members as usize == size,
        None => false,
    }
}

/// Returns whether a line is that of a member, by its last task.
fn ends_member<B: Book>(book: &B, group: GroupNo, line: &FrozenLine) -> bool
    ensures { result ≡ (B.book book.now).is_member group (last_task 0 (p_line_view line.now)) }
{
    match last_task(line) {
        Some(last) => book.is_member(group, last),
        None => false,
    }
}

fn parent_known<B: Book>(book: &B, parent: Option<TaskNo>) -> bool
    ensures { result ≡ parent_known (B.book book.now) parent }
{
    match parent {
        Some(task) => book.knows(task),
        None => true,
    }
}

#[cycle(known)]
fn task_known<B: Book>(book: &B, task: &FrozenTask) -> bool
    ensures { result ≡ task_known (B.book book.now) (p_task_view task.now) }
{
    book.knows(task.no)
        && tasks_known(book, task.links.get())
        && tasks_known(book, task.errbacks.get())
        && place_known(book, task.no, &task.place)
}

#[cycle(known)]
fn tasks_known<B: Book>(book: &B, tasks: &[FrozenTask]) -> bool
    ensures { result ≡ tasks_known (B.book book.now) (p_tasks_of (map p_task_view tasks.now)) }
{
    for task in tasks {
        if !task_known(book, task) {
            return false;
        }
    }
    true
}

/// Returns whether the tasks from an index on are known.
#[cycle(known)]
fn known_from<B: Book>(book: &B, tasks: &[FrozenTask], start: usize) -> bool
    ensures { result ≡ tasks_known (B.book book.now)
        (p_tasks_of (map p_task_view (drop start tasks.now))) }
{
    for index in start..tasks.len() {
        if !task_known(book, &tasks[index]) {
            return false;
        }
    }
    true
}

/// Returns whether all that a task's place names is known.
#[cycle(known)]
fn place_known<B: Book>(book: &B, task: TaskNo, place: &Option<Place>) -> bool
    ensures { result ≡ place_known (B.book book.now) task (place_seen place.now) }
{
    match place {
        None => true,
        Some(place) => match &place.chord {
            None => book.is_member(place.group, task),
            Some(carried) => {
                book.is_member(place.group, task)
                    && has_size(book, place.group, carried.size as usize)
                    && line_known(book, &carried.body, 0)
            }
        },
    }
}

/// Returns whether a line is known. Its first `sure` tasks need no look-up.
#[cycle(known)]
fn line_known<B: Book>(book: &B, line: &FrozenLine, sure: usize) -> bool
    requires { EachFirst (λ t. task_known (B.book book.now) t ≡ true) sure (p_line_view line.now) }
    ensures { result ≡ line_known (B.book book.now) (p_line_view line.now) }
{
    match &line.tail {
        Some(end) => known_from(book, line.tasks.get(), sure) && end_known(book, end),
        None => known_from(book, line.tasks.get(), sure),
    }
}

#[cycle(known)]
fn end_known<B: Book>(book: &B, end: &FrozenEnd) -> bool
    ensures { result ≡ line_known (B.book book.now) (p_end_view end.now) }
{
    let members = end.members.get().as_slice();
    match &end.body {
        Some(body) => {
            has_size(book, end.group, members.len())
                && members_known(book, end.group, members)
                && line_known(book, body, 0)
        }
        None => members_known(book, end.group, members),
    }
}

#[cycle(known)]
fn members_known<B: Book>(book: &B, group: GroupNo, members: &[FrozenLine]) -> bool
    ensures { result
        ≡ members_known (B.book book.now) group (p_lines_of (map p_line_view members.now)) }
{
    for member in members {
        if !ends_member(book, group, member) || !line_known(book, member, 0) {
            return false;
        }
    }
    true
}

/// Returns how many of the first tasks of a line are sure to be known.
fn sure<B: Book>(book: &B, unplaced: &Unplaced) -> usize
    ensures { (line : PLine) → AreUnplaced unplaced.now line
        → EachFirst (λ t. task_known (B.book book.now) t ≡ true) result line }
{
    match TaskNo::new(unplaced.greatest) {
        Some(greatest) if book.knows_up_to(greatest) => unplaced.count,
        _ => 0,
    }
}

fn rest_known<B: Book>(book: &B, rest: &Option<FrozenLine>, unplaced: &Unplaced) -> bool
    requires { AreUnplaced unplaced.now (rest_seen rest.now) }
    ensures { result ≡ line_known (B.book book.now) (rest_seen rest.now) }
{
    match rest {
        Some(line) => line_known(book, line, sure(book, unplaced)),
        None => true,
    }
}

/// Returns whether each task, chord and member that a message names is known.
pub(crate) fn message_known<B: Book>(book: &B, message: &Message) -> bool
    ensures { result ≡ message_known (B.book book.now) message.now }
{
    parent_known(book, message.parent)
        && book.knows(message.task)
        && tasks_known(book, message.links.get())
        && tasks_known(book, message.errbacks.get())
        && place_known(book, message.task, &message.place)
        && rest_known(book, &message.rest, &message.texts.unplaced)
}

/// Returns whether the tasks of a queue from an index on are known.
fn queued_known<B: Book>(book: &B, tasks: &VecDeque<FrozenTask>, start: usize) -> bool
    ensures { result ≡ tasks_known (B.book book.now)
        (p_tasks_of (map p_task_view (drop start tasks.now.items))) }
{
    for index in start..tasks.len() {
        if !task_known(book, &tasks[index]) {
            return false;
        }
    }
    true
}

fn tail_known<B: Book>(book: &B, tail: &Option<Box<FrozenEnd>>) -> bool
    ensures { result ≡ line_known (B.book book.now) (end_seen tail.now) }
{
    match tail {
        Some(end) => end_known(book, end),
        None => true,
    }
}

/// Like `message_known`, of a message that is kept apart from the rest of its line.
pub(crate) fn followed_known<B: Book>(book: &B, followed: &Followed) -> bool
    ensures { result ≡ message_known (B.book book.now) followed.now }
{
    if !message_known(book, &followed.message) {
        return false;
    }
    let start = sure(book, &followed.texts.unplaced);
    queued_known(book, &followed.tasks, start) && tail_known(book, &followed.tail)
}
