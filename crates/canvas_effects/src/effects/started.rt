//! Lines that start. They are consumed, and their tasks become messages without being cloned. If a
//! line is only borrowed, a clone of it starts; if it is a single task, only that is cloned. The
//! place of the line's end is passed along, and is written on the last task when that is published
//! or carried, so frozen groups contain no places.

ghost use Rattle.std.specs.Prelude.{◌≡◌, ◌++◌, true, false, None, IfOk, IfSome, MatchOption, OnOk, map};
ghost use Rattle.canvas_rewrite.specs.FrozenView.{p_task_view, p_line_view, p_end_view, place_or};
ghost use Rattle.canvas_semantics.specs.PlacedLine.{p_chord, p_group, p_stop};
ghost use Rattle.canvas_effects.specs.Carrying.{can_stand, AllStand, is_whole, input_ok};
ghost use Rattle.canvas_envelope.specs.Fits.{fits, parent_ok};
ghost use Rattle.canvas_envelope.specs.MessageView.{rest_seen};
ghost use Rattle.canvas_envelope.specs.SharedTexts.{SaysCarried};
ghost use Rattle.canvas_effects.specs.Flowing.{no_input};
ghost use Rattle.canvas_effects.specs.Placing.{end_place, placed};
ghost use Rattle.canvas_effects.specs.steps.Walks.{input_seen, begins_with_task, first_message, started, all_started};

use super::lasts::last_task;
use super::moved::{begins_with_task, is_last, take_next};
use super::task_messages::{message_from, texts_of};
use crate::copies::copy_task;
use crate::destination::Destination;
use crate::destinations::{parts, with_text};
use crate::input::Input;
use crate::moving::{into_place, into_placed, into_placed_rest};
use canvas_envelope::{CarriedText, Message};
use canvas_rewrite::{Carried, FrozenEnd, FrozenLine, FrozenTask, Place};
use canvas_task::{GroupNo, ListOf, TaskNo};
use std::alloc::{AllocError, Global};
use std::sync::Arc;

/// Makes the message of a line's first task; the line's end goes to the destination.
fn first_message(
    alloc: Global,
    first: FrozenTask,
    rest: Option<FrozenLine>,
    place: Option<Destination>,
    input: &Input,
    parent: &Option<TaskNo>,
) -> Result<Message, AllocError>
    requires { fits (first_message parent.now (p_task_view first) (input_seen input.now)
        (place_or place) (rest_seen rest)) ≡ true }
    ensures { IfOk result (λ m. m
        ≡ first_message parent.now (p_task_view first) (input_seen input.now)
        (place_or place) (rest_seen rest)) }
{
    let (place, carried) = parts(place);
    let texts = texts_of(carried);
    if is_last(&rest) {
        let first = into_place(first, place);
        return message_from(alloc, first, input, parent, None, texts);
    }
    let rest = into_placed_rest(alloc, rest, place)?;
    message_from(alloc, first, input, parent, rest, texts)
}

/// Makes the message of a clone of a line's only task, without input; the line's end goes to the
/// destination.
pub(super) fn only_message(
    alloc: Global,
    task: &FrozenTask,
    place: Option<Destination>,
) -> Result<Message, AllocError>
    requires { fits (first_message None (p_task_view task.now) no_input (place_or place) p_stop)
        ≡ true }
    ensures { IfOk result (λ m. m
        ≡ first_message None (p_task_view task.now) no_input (place_or place) p_stop) }
{
    let task = copy_task(alloc, task, None)?;
    first_message(alloc, task, None, place, &Input::Nothing, &None)
}

/// Returns the place of the ends of a chord's members; the end of the whole goes to the given
/// place. What the members carry is written once for all of them.
pub(super) fn header_place(
    alloc: Global,
    group: GroupNo,
    size: u32,
    body: FrozenLine,
    place: Option<Destination>,
) -> Result<Destination, AllocError>
    ensures { IfOk result
        (λ d. d ≡ p_chord group size (placed (place_or place) (p_line_view body))) }
{
    let (outer, text) = parts(place);
    let body = into_placed(alloc, body, outer)?;
    let body = Arc::new(alloc, body)?;
    let chord = Carried { size, body };
    let place = Place {
        group,
        chord: Some(chord),
    };
    Destination::written(alloc, place, &text)
}

/// Returns the place of the ends of a group's members.
pub(super) fn group_place(alloc: Global, group: GroupNo) -> Result<Destination, AllocError>
    ensures { IfOk result (λ d. d ≡ p_group group) }
{
    let place = Place { group, chord: None };
    Destination::written(alloc, place, &None)
}

/// Appends the message of a line that begins with a task.
fn start_task(
    alloc: Global,
    line: FrozenLine,
    place: Option<Destination>,
    input: &Input,
    parent: &Option<TaskNo>,
    messages: &mut Vec<Message>,
) -> Result<(), AllocError>
    requires line { can_stand (p_line_view line) (place_or place) ≡ true }
    requires first { begins_with_task (p_line_view line) ≡ true }
    requires input { input_ok (input_seen input.now) ≡ true }
    requires parent { parent_ok parent.now ≡ true }
    ensures { OnOk result (messages.new.items
        ≡ messages.old.items
        ++ started (p_line_view line) (input_seen input.now) (place_or place) parent.now) }
{
    match take_next(line) {
        Some((first, rest)) => {
            messages.push(first_message(alloc, first, rest, place, input, parent)?)?;
            Ok(())
        }
        None => Ok(()),
    }
}

/// Returns the end of a line that doesn't begin with a task.
fn take_end(line: FrozenLine) -> Option<FrozenEnd>
    requires { begins_with_task (p_line_view line) ≡ false }
    ensures { MatchOption result (p_line_view line ≡ p_stop)
        (λ e. p_line_view line ≡ p_end_view e) }
{
    let FrozenLine { tasks: _none, tail } = line;
    Some(Box::into_inner(tail?))
}

/// Appends the messages with which a line begins; its end goes to the place.
#[cycle(start)]
pub(super) fn start_line(
    alloc: Global,
    line: FrozenLine,
    place: Option<Destination>,
    input: &Input,
    parent: &Option<TaskNo>,
    messages: &mut Vec<Message>,
) -> Result<(), AllocError>
    requires line { can_stand (p_line_view line) (place_or place) ≡ true }
    requires input { input_ok (input_seen input.now) ≡ true }
    requires parent { parent_ok parent.now ≡ true }
    ensures { OnOk result (messages.new.items
        ≡ messages.old.items
        ++ started (p_line_view line) (input_seen input.now) (place_or place) parent.now) }
{
    if begins_with_task(&line) {
        return start_task(alloc, line, place, input, parent, messages);
    }
    match take_end(line) {
        Some(end) => start_end(alloc, end, place, input, parent, messages),
        None => Ok(()),
    }
}

/// Appends the messages with which a group or chord begins. An empty header starts its body at
/// once.
#[cycle(start)]
fn start_end(
    alloc: Global,
    end: FrozenEnd,
    place: Option<Destination>,
    input: &Input,
    parent: &Option<TaskNo>,
    messages: &mut Vec<Message>,
) -> Result<(), AllocError>
    requires line { can_stand (p_end_view end) (place_or place) ≡ true }
    requires input { input_ok (input_seen input.now) ≡ true }
    requires parent { parent_ok parent.now ≡ true }
    ensures { OnOk result (messages.new.items
        ≡ messages.old.items
        ++ started (p_end_view end) (input_seen input.now) (place_or place) parent.now) }
{
    let FrozenEnd {
        group,
        members,
        body,
    } = end;
    let members = members.into_plain();
    match body {
        Some(body) => {
            if members.is_empty() {
                let input = Input::Numbers(ListOf::of(Vec::new(alloc)));
                return start_line(alloc, body, place, &input, parent, messages);
            }
            let place = header_place(alloc, group, members.len() as u32, body, place)?;
            start_members(alloc, members, &place, input, parent, messages)
        }
        None => {
            let place = group_place(alloc, group)?;
            start_members(alloc, members, &place, input, parent, messages)
        }
    }
}

/// Appends the messages with which lines begin whose ends go to the same place.
#[cycle(start)]
fn start_members(
    alloc: Global,
    lines: Vec<FrozenLine>,
    place: &Destination,
    input: &Input,
    parent: &Option<TaskNo>,
    messages: &mut Vec<Message>,
) -> Result<(), AllocError>
    requires lines { AllStand (place.now) (map p_line_view lines.items) }
    requires input { input_ok (input_seen input.now) ≡ true }
    requires parent { parent_ok parent.now ≡ true }
    ensures { OnOk result (messages.new.items
        ≡ messages.old.items
        ++ all_started (map p_line_view lines.items) (input_seen input.now) (place.now)
        parent.now) }
{
    messages.reserve(lines.len())?;
    for line in lines {
        let place = place.share()?;
        start_line(alloc, line, Some(place), input, parent, messages)?;
    }
    Ok(())
}

/// Returns the place where the end of a line goes, which its last task has. `text` is the text of
/// what the end carries, if it is known.
fn end_of(
    line: &FrozenLine,
    text: Option<Arc<CarriedText>>,
) -> Result<Option<Destination>, AllocError>
    requires { IfSome text (λ t. SaysCarried t.value (end_place (p_line_view line.now))) }
    ensures { IfOk result (λ d. place_or d ≡ end_place (p_line_view line.now)) }
{
    match last_task(line) {
        Some(last) => with_text(&last.place, text),
        None => Ok(None),
    }
}

/// Appends the messages with which a line begins; its end goes to the place of its last task.
pub(super) fn start_whole(
    alloc: Global,
    line: FrozenLine,
    input: &Input,
    parent: &Option<TaskNo>,
    text: Option<Arc<CarriedText>>,
    messages: &mut Vec<Message>,
) -> Result<(), AllocError>
    requires line { is_whole (p_line_view line) ≡ true }
    requires text { IfSome text (λ t. SaysCarried t.value (end_place (p_line_view line))) }
    requires input { input_ok (input_seen input.now) ≡ true }
    requires parent { parent_ok parent.now ≡ true }
    ensures { OnOk result (messages.new.items
        ≡ messages.old.items
        ++ started (p_line_view line) (input_seen input.now) (end_place (p_line_view line))
        parent.now) }
{
    let place = end_of(&line, text)?;
    start_line(alloc, line, place, input, parent, messages)
}
