//! The effects of the end of a task whose message is consumed: the next task of its line, or the
//! part that its end returns, takes over what the message carries.

ghost use Rattle.std.specs.Prelude.{◌≡◌, ◌++◌, true, false, IfOk, IfSome, OnOk, MatchBool, MatchOption};
ghost use Rattle.std.specs.Option.{option_map};
ghost use Rattle.canvas_task.specs.Apply.{IsInRange};
ghost use Rattle.canvas_rewrite.specs.FrozenView.{p_line_view, p_task_view};
ghost use Rattle.canvas_semantics.specs.PlacedLine.{PLine, PPlace, PTask, p_nowhere, p_step, p_stop};
ghost use Rattle.canvas_effects.specs.Carrying.{input_ok, is_whole, place_stands};
ghost use Rattle.canvas_effects.specs.Effects.{after, called, messages_in, part_in, part_of};
ghost use Rattle.canvas_envelope.specs.Content.{Content, number_of, place_of, links_of, errbacks_of};
ghost use Rattle.canvas_envelope.specs.SharedTexts.{AreTexts, IsLineText, SaysCarried, place_behind};
ghost use Rattle.canvas_envelope.specs.Fits.{fits, is_task_number, parent_ok};
ghost use Rattle.canvas_effects.specs.Ordered.{in_order};
ghost use Rattle.canvas_effects.specs.Placing.{end_place};
ghost use Rattle.canvas_effects.specs.Todos.{part_view, todo_view};
ghost use Rattle.canvas_envelope.specs.MessageView.{place_seen, place_view, rest_seen};
ghost use Rattle.canvas_envelope.specs.steps.Parts.{is_stop};
ghost use Rattle.canvas_effects.specs.steps.Walks.{input_seen, begins_with_task, part_at_end, skipped, started};

use super::skipped::skip_line;
use super::started::start_whole;
use super::task_messages::message_from;
use super::{called_back, last_part, todo_of};
use crate::input::Input;
use crate::{PartCall, Todo};
use canvas_envelope::{CarriedText, LineText, Message, Texts, following};
use canvas_rewrite::{FrozenLine, FrozenTask, Place};
use canvas_task::{Fault, ListOf, Memory, Outcome, TaskNo};
use std::alloc::{AllocError, Global};
use std::sync::Arc;

/// Returns what follows the end of a message's task, like `after`, but consumes the message, also
/// if an allocation fails. The next task of its line, the group or chord that follows, or the part
/// that its end returns, takes over what the message carries, without a clone.
pub fn into_todo(alloc: Global, message: Message, outcome: &Outcome) -> Result<Todo, Memory>
    requires { IsInRange outcome.now }
    ensures { IfOk result (λ todo. todo_view todo ≡ after message outcome.now) }
{
    Ok(given_up(alloc, message, outcome)?)
}

fn given_up(alloc: Global, message: Message, outcome: &Outcome) -> Result<Todo, AllocError>
    requires { IsInRange outcome.now }
    ensures { IfOk result (λ todo. todo_view todo ≡ after message outcome.now) }
{
    let task = message.task;
    let messages = called_back(alloc, &message, outcome)?;
    if is_last(&message.rest) {
        return todo_of(Vec::new(alloc), messages, part_left(message));
    }
    let (rest, texts) = line_left(alloc, message);
    behind(alloc, rest, texts, task, outcome, messages)
}

/// Returns whether a task comes first on a line.
pub(super) fn begins_with_task(line: &FrozenLine) -> bool
    ensures { result ≡ begins_with_task (p_line_view line.now) }
{
    !line.tasks.get().is_empty()
}

/// Returns whether nothing comes next on a line.
pub(super) fn is_last(rest: &Option<FrozenLine>) -> bool
    ensures { MatchBool result (rest_seen rest.now ≡ p_stop) (rest_seen rest.now ≡ p_stop → ⊥) }
{
    match following(rest) {
        Some(_) => false,
        None => true,
    }
}

/// Takes the next task off a line, and returns it and the rest.
pub(super) fn take_next(line: FrozenLine) -> Option<(FrozenTask, Option<FrozenLine>)>
    ensures { MatchOption result (begins_with_task (p_line_view line) ≡ false)
        (λ p. p_line_view line ≡ p_step (p_task_view p.0) (rest_seen p.1)) }
{
    let FrozenLine { tasks, tail } = line;
    let mut tasks = tasks.into_plain();
    if tasks.is_empty() {
        return None;
    }
    let next = tasks.remove(0);
    if tasks.is_empty() && tail.is_none() {
        return Some((next, None));
    }
    let tasks = ListOf::of(tasks);
    Some((next, Some(FrozenLine { tasks, tail })))
}

/// Returns the rest as a line, which is empty if nothing follows.
fn line_of(alloc: Global, rest: Option<FrozenLine>) -> FrozenLine
    ensures { p_line_view result ≡ rest_seen rest }
{
    match rest {
        Some(line) => line,
        None => FrozenLine {
            tasks: ListOf::of(Vec::new(alloc)),
            tail: None,
        },
    }
}

/// Returns the line that follows the task of a message, and what is known of its texts.
fn line_left(alloc: Global, message: Message) -> (FrozenLine, Texts)
    ensures line { p_line_view result.0 ≡ message.rest }
    ensures texts { AreTexts result.1 (place_of message.own) message.rest }
{
    let Message { rest, texts, .. } = message;
    (line_of(alloc, rest), texts)
}

/// Returns the text of a line after its next task is taken, which is a prefix of the line's text.
fn text_behind(text: LineText) -> LineText
    ensures { (t : PTask) (rest : PLine)
        → IsLineText text (p_step t rest) → IsLineText result rest }
{
    let LineText { text, ends } = text;
    let mut ends = ends;
    ends.pop();
    LineText { text, ends }
}

/// Returns the text of what the place at the end of a line carries, if it is known.
fn carried_by(texts: Texts) -> Option<Arc<CarriedText>>
    ensures { (own : PPlace) (rest : PLine) → AreTexts texts own rest
        → IfSome result (λ t. SaysCarried t.value (place_behind own rest)) }
{
    let Texts {
        line: _line,
        carried,
        unplaced: _unplaced,
    } = texts;
    carried
}

/// Returns what is known of a line's texts after its next task is taken.
pub(super) fn texts_behind(texts: Texts) -> Texts
    ensures { (own : PPlace) (t : PTask) (rest : PLine) → AreTexts texts own (p_step t rest)
        → AreTexts result (place_of t) rest }
{
    let Texts {
        line,
        carried,
        unplaced,
    } = texts;
    let unplaced = unplaced.after_first();
    match line {
        Some(text) => Texts {
            line: Some(text_behind(text)),
            carried,
            unplaced,
        },
        None => Texts {
            line: None,
            carried,
            unplaced,
        },
    }
}

/// Appends the message of the task that a line begins with. It takes over what is carried.
fn hand_on(
    alloc: Global,
    line: FrozenLine,
    texts: Texts,
    input: &Input,
    parent: &Option<TaskNo>,
    messages: &mut Vec<Message>,
) -> Result<(), AllocError>
    requires line { is_whole (p_line_view line) ≡ true }
    requires first { begins_with_task (p_line_view line) ≡ true }
    requires texts { AreTexts texts p_nowhere (p_line_view line) }
    requires input { input_ok (input_seen input.now) ≡ true }
    requires parent { parent_ok parent.now ≡ true }
    ensures { OnOk result (messages.new.items
        ≡ messages.old.items
        ++ started (p_line_view line) (input_seen input.now) (end_place (p_line_view line))
        parent.now) }
{
    match take_next(line) {
        Some((next, rest)) => {
            let texts = texts_behind(texts);
            messages.push(message_from(alloc, next, input, parent, rest, texts)?)?;
            Ok(())
        }
        None => Ok(()),
    }
}

/// Appends the messages that start the next element of the line.
fn go_on(
    alloc: Global,
    line: FrozenLine,
    texts: Texts,
    input: &Input,
    parent: &Option<TaskNo>,
    messages: &mut Vec<Message>,
) -> Result<(), AllocError>
    requires line { is_whole (p_line_view line) ≡ true }
    requires follows { is_stop (p_line_view line) ≡ false }
    requires texts { AreTexts texts p_nowhere (p_line_view line) }
    requires input { input_ok (input_seen input.now) ≡ true }
    requires parent { parent_ok parent.now ≡ true }
    ensures { OnOk result (messages.new.items
        ≡ messages.old.items
        ++ started (p_line_view line) (input_seen input.now) (end_place (p_line_view line))
        parent.now) }
{
    if begins_with_task(&line) {
        return hand_on(alloc, line, texts, input, parent, messages);
    }
    start_whole(alloc, line, input, parent, carried_by(texts), messages)
}

/// Returns what a worker has to do after a task that a line follows. `messages` are those of its
/// callbacks.
fn behind(
    alloc: Global,
    rest: FrozenLine,
    texts: Texts,
    task: TaskNo,
    outcome: &Outcome,
    messages: Vec<Message>,
) -> Result<Todo, AllocError>
    requires rest { is_whole (p_line_view rest) ≡ true }
    requires follows { is_stop (p_line_view rest) ≡ false }
    requires texts { AreTexts texts p_nowhere (p_line_view rest) }
    requires task { is_task_number task ≡ true }
    requires outcome { IsInRange outcome.now }
    ensures { IfOk result (λ todo. (m : Content)
        → fits m ≡ true
        → m.rest ≡ p_line_view rest
        → number_of m.own ≡ task
        → messages.items
        ≡ messages_in (called (links_of m.own) (errbacks_of m.own) (number_of m.own) outcome.now)
        → todo_view todo ≡ after m outcome.now) }
{
    match outcome {
        Outcome::Success(number) => {
            let mut messages = messages;
            let input = Input::Number(*number);
            go_on(alloc, rest, texts, &input, &Some(task), &mut messages)?;
            todo_of(Vec::new(alloc), messages, None)
        }
        Outcome::Failure(fault) => skipped_behind(alloc, &rest, fault, messages),
    }
}

/// Returns what a worker has to do after a failed task that a line follows.
fn skipped_behind(
    alloc: Global,
    rest: &FrozenLine,
    fault: &Fault,
    messages: Vec<Message>,
) -> Result<Todo, AllocError>
    requires { is_whole (p_line_view rest.now) ≡ true }
    ensures { IfOk result (λ todo. todo_view todo
        ≡ record {
          stores = in_order (λ e. e.0) (skipped fault.now (p_line_view rest.now));
          messages = in_order (λ m. number_of m.own) messages.items;
          part = part_at_end (p_line_view rest.now);
        }) }
{
    let part = last_part(rest)?;
    let mut stores = Vec::new(alloc);
    skip_line(rest, fault, &mut stores)?;
    todo_of(stores, messages, part)
}

/// Returns the part that a task with this place returns. It takes over what the place carries, and
/// the text of that.
fn part_at(place: Place, task: TaskNo, text: Option<Arc<CarriedText>>) -> Option<PartCall>
    requires place { place_stands (place_view place) ≡ true }
    requires text { IfSome text (λ t. SaysCarried t.value (place_view place)) }
    ensures { option_map part_view result ≡ part_in (part_of (place_view place) task) }
{
    let Place { group, chord } = place;
    let chord = chord?;
    Some(PartCall {
        group,
        task,
        chord,
        text,
    })
}

/// Like `part_at`, but `place` may be None.
fn take_part(place: Option<Place>, task: TaskNo, texts: Texts) -> Option<PartCall>
    requires place { place_stands (place_seen place) ≡ true }
    requires texts { AreTexts texts (place_seen place) p_stop }
    ensures { option_map part_view result ≡ part_in (part_of (place_seen place) task) }
{
    part_at(place?, task, carried_by(texts))
}

/// Returns the part that a message's task returns if it is the last of its line.
fn part_left(message: Message) -> Option<PartCall>
    requires { message.rest ≡ p_stop }
    ensures { option_map part_view result
        ≡ part_in (part_of (place_of message.own) (number_of message.own)) }
{
    let Message {
        task,
        place,
        texts,
        ..
    } = message;
    take_part(place, task, texts)
}
