//! The effects of the start of a plan, the end of a task, and the completion of a header.
//!
//! A line is walked in three ways: it is started, skipped, or an exception is raised in it.
//! Messages that are made here fit by proof, and aren't checked again at run time. Outcomes have to
//! be in range, since no envelope can contain another number.

ghost use Rattle.std.specs.Prelude.{◌≡◌, true, None, IfOk, IfSome, All, map};
ghost use Rattle.std.specs.Option.{option_map};
ghost use Rattle.canvas_task.specs.Apply.{IsInRange};
ghost use Rattle.canvas_rewrite.specs.FrozenView.{p_line_view, p_task_view, p_tasks_of};
ghost use Rattle.canvas_effects.specs.Carrying.{callbacks_ok, is_whole, place_stands, carried_ok, input_ok};
ghost use Rattle.canvas_envelope.specs.Content.{number_of, links_of, errbacks_of};
ghost use Rattle.canvas_effects.specs.Effects.{first_messages, after, callbacks, called, body_after, enter, effect_of, messages_in, part_in, part_of};
ghost use Rattle.canvas_envelope.specs.MessageView.{carried_view, place_seen};
ghost use Rattle.canvas_envelope.specs.SharedTexts.{SaysCarried};
ghost use Rattle.canvas_envelope.specs.Fits.{parent_ok};
ghost use Rattle.canvas_effects.specs.Flowing.{run, raise};
ghost use Rattle.canvas_effects.specs.Ordered.{in_order};
ghost use Rattle.canvas_effects.specs.Placing.{end_place};
ghost use Rattle.canvas_effects.specs.Todos.{part_view, todo_view};
ghost use Rattle.canvas_effects.specs.steps.Walks.{input_seen, part_at_end, started};

mod copied;
mod first;
mod header;
mod lasts;
mod moved;
mod onward;
mod order;
mod raised;
mod skipped;
mod started;
mod task_messages;

use crate::copies::copy_line;
use crate::input::Input;
use crate::{ChordBody, PartCall, Todo};
use canvas_envelope::{CarriedText, Message, share_carried};
use canvas_rewrite::{Carried, FrozenLine, FrozenTask, Place, Plan};
use canvas_task::{Fault, ListOf, Memory, Outcome, TaskNo};
use copied::copy_message;
pub use first::FirstMessages;
use header::{failure_of, numbers_of};
use lasts::last_task;
pub use moved::into_todo;
pub use onward::into_onward;
use order::{sort_messages, sort_stores};
use raised::raise_line;
use started::start_whole;
use std::alloc::{AllocError, Global};
use std::sync::Arc;
use task_messages::call_back;

/// Returns the messages that a run begins with.
pub fn first_messages(alloc: Global, plan: &Plan) -> Result<Vec<Message>, Memory>
    ensures { IfOk result (λ messages. messages.items ≡ first_messages plan.now) }
{
    let line = copy_line(alloc, plan.line())?;
    let mut messages = Vec::new(alloc);
    start_whole(alloc, line, &Input::Nothing, &None, None, &mut messages)?;
    sort_messages(&mut messages)?;
    Ok(messages)
}

/// Returns what follows the end of a message's task. Like `into_todo`, but clones the message.
pub fn after(alloc: Global, message: &Message, outcome: &Outcome) -> Result<Todo, Memory>
    requires { IsInRange outcome.now }
    ensures { IfOk result (λ todo. todo_view todo ≡ after message.now outcome.now) }
{
    into_todo(alloc, copy_message(alloc, message)?, outcome)
}

/// Returns the messages that the end of a message's task calls back: those of its links, or of its
/// error callbacks.
fn called_back(
    alloc: Global,
    message: &Message,
    outcome: &Outcome,
) -> Result<Vec<Message>, AllocError>
    requires { IsInRange outcome.now }
    ensures { IfOk result (λ messages. messages.items
        ≡ messages_in (called (links_of message.now.own) (errbacks_of message.now.own)
        (number_of message.now.own) outcome.now)) }
{
    let parent = Some(message.task);
    match outcome {
        Outcome::Success(number) => {
            all_called(alloc, message.links.get(), &Input::Number(*number), &parent)
        }
        Outcome::Failure(_fault) => {
            all_called(
                alloc,
                message.errbacks.get(),
                &Input::Ident(message.task),
                &parent,
            )
        }
    }
}

/// Returns the messages of links or error callbacks.
fn all_called(
    alloc: Global,
    tasks: &[FrozenTask],
    input: &Input,
    parent: &Option<TaskNo>,
) -> Result<Vec<Message>, AllocError>
    requires callbacks { callbacks_ok (p_tasks_of (map p_task_view tasks.now)) ≡ true }
    requires input { input_ok (input_seen input.now) ≡ true }
    requires parent { parent_ok parent.now ≡ true }
    ensures { IfOk result (λ messages. messages.items
        ≡ messages_in (callbacks (p_tasks_of (map p_task_view tasks.now))
        (input_seen input.now) parent.now)) }
{
    let mut messages = Vec::with_capacity(alloc, tasks.len())?;
    call_back(alloc, tasks, input, parent, &mut messages)?;
    Ok(messages)
}

/// Returns what follows the completion of a header, from what its members carry and the outcomes of
/// their last tasks, in order.
pub fn body_after(
    alloc: Global,
    carried: &Carried,
    outcomes: &[(TaskNo, Outcome)],
) -> Result<Todo, Memory>
    requires carried { carried_ok (carried_view carried.now) ≡ true }
    requires outcomes { All (λ e. IsInRange e.1) outcomes.now }
    ensures { IfOk result
        (λ todo. todo_view todo ≡ body_after (carried_view carried.now) outcomes.now) }
{
    let chord = ChordBody::unwritten(carried)?;
    into_body(alloc, chord, outcomes)
}

/// Like `body_after`, but consumes the chord, and uses the text of its body if that is known. If
/// nobody else shares the body, it is moved and not cloned.
pub fn into_body(
    alloc: Global,
    chord: ChordBody,
    outcomes: &[(TaskNo, Outcome)],
) -> Result<Todo, Memory>
    requires carried { carried_ok chord ≡ true }
    requires outcomes { All (λ e. IsInRange e.1) outcomes.now }
    ensures { IfOk result (λ todo. todo_view todo ≡ body_after chord outcomes.now) }
{
    match failure_of(outcomes) {
        Some(fault) => Ok(raise_body(alloc, body_of(&chord), &fault)?),
        None => {
            let input = Input::Numbers(numbers_of(alloc, outcomes)?);
            let text = chord.inner_text(alloc)?;
            let ChordBody {
                carried,
                text: _own,
            } = chord;
            Ok(start_body(alloc, carried.body, &input, text)?)
        }
    }
}

/// Returns a shared body, or a clone of it if others share it.
fn own_body(alloc: Global, body: Arc<FrozenLine>) -> Result<FrozenLine, AllocError>
    ensures { IfOk result (λ line. p_line_view line ≡ p_line_view body.value) }
{
    match Arc::try_unwrap(body) {
        Ok(body) => Ok(body),
        Err(shared) => copy_line(alloc, &shared),
    }
}

fn start_body(
    alloc: Global,
    body: Arc<FrozenLine>,
    input: &Input,
    text: Option<Arc<CarriedText>>,
) -> Result<Todo, AllocError>
    requires line { is_whole (p_line_view body.value) ≡ true }
    requires input { input_ok (input_seen input.now) ≡ true }
    requires text { IfSome text (λ t. SaysCarried t.value (end_place (p_line_view body.value))) }
    ensures { IfOk result (λ todo. todo_view todo
        ≡ effect_of (enter (p_line_view body.value) (run (input_seen input.now))
        (end_place (p_line_view body.value)) 0 None)) }
{
    let body = own_body(alloc, body)?;
    let mut messages = Vec::new(alloc);
    start_whole(alloc, body, input, &None, text, &mut messages)?;
    todo_of(Vec::new(alloc), messages, None)
}

/// Borrows the body of a chord.
fn body_of(chord: &ChordBody) -> &FrozenLine
    ensures { p_line_view result.now ≡ chord.now.body }
{
    &chord.carried.body
}

fn raise_body(alloc: Global, body: &FrozenLine, fault: &Fault) -> Result<Todo, AllocError>
    requires { is_whole (p_line_view body.now) ≡ true }
    ensures { IfOk result (λ todo. todo_view todo
        ≡ effect_of (enter (p_line_view body.now) (raise fault.now)
        (end_place (p_line_view body.now)) 0 None)) }
{
    let mut stores = Vec::new(alloc);
    let mut messages = Vec::new(alloc);
    raise_line(alloc, body, fault, &mut stores, &mut messages)?;
    let part = last_part(body)?;
    todo_of(stores, messages, part)
}

/// Returns the part that the end of a line returns.
fn last_part(line: &FrozenLine) -> Result<Option<PartCall>, AllocError>
    requires { is_whole (p_line_view line.now) ≡ true }
    ensures { IfOk result (λ part. option_map part_view part ≡ part_at_end (p_line_view line.now)) }
{
    match last_task(line) {
        Some(last) => part_of(&last.place, last.no),
        None => Ok(None),
    }
}

/// Returns the part that a task with this place returns.
fn part_of(place: &Option<Place>, task: TaskNo) -> Result<Option<PartCall>, AllocError>
    requires { place_stands (place_seen place.now) ≡ true }
    ensures { IfOk result
        (λ part. option_map part_view part ≡ part_in (part_of (place_seen place.now) task)) }
{
    match place {
        Some(place) => match &place.chord {
            Some(carried) => {
                let chord = share_carried(carried)?;
                Ok(Some(PartCall {
                    group: place.group,
                    task,
                    chord,
                    text: None,
                }))
            }
            None => Ok(None),
        },
        None => Ok(None),
    }
}

/// Sorts the stores and messages by the numbers of their tasks.
fn todo_of(
    stores: Vec<(TaskNo, Outcome)>,
    messages: Vec<Message>,
    part: Option<PartCall>,
) -> Result<Todo, AllocError>
    ensures { IfOk result (λ todo. todo_view todo
        ≡ record {
          stores = in_order (λ e. e.0) stores.items;
          messages = in_order (λ m. number_of m.own) messages.items;
          part = option_map part_view part;
        }) }
{
    let mut stores = stores;
    sort_stores(&mut stores)?;
    let mut messages = messages;
    sort_messages(&mut messages)?;
    Ok(Todo {
        stores: ListOf::of(stores),
        messages: ListOf::of(messages),
        part,
    })
}
