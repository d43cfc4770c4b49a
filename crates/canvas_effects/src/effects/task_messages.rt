//! The messages of tasks that start.

ghost use Rattle.std.specs.Prelude.{◌≡◌, ◌++◌, true, IfOk, IfSome, OnOk, map, if◌then◌else◌};
ghost use Rattle.canvas_semantics.specs.Evaluation.{value};
ghost use Rattle.canvas_semantics.specs.PlacedLine.{PLine, PPlace, p_stop};
ghost use Rattle.canvas_rewrite.specs.FrozenView.{p_tasks_of, p_task_view};
ghost use Rattle.canvas_effects.specs.Carrying.{callbacks_ok, input_ok};
ghost use Rattle.canvas_envelope.specs.Content.{place_of};
ghost use Rattle.canvas_effects.specs.Effects.{message, callbacks, messages_in};
ghost use Rattle.canvas_envelope.specs.Fits.{fits, parent_ok};
ghost use Rattle.canvas_effects.specs.Flowing.{input_flow, parent_for};
ghost use Rattle.canvas_envelope.specs.MessageView.{rest_seen};
ghost use Rattle.canvas_envelope.specs.SharedTexts.{AreTexts, SaysCarried, place_behind};
ghost use Rattle.canvas_effects.specs.steps.Walks.{input_seen};

use crate::copies::{copy_task, share_if_some};
use crate::input::Input;
use canvas_envelope::{CarriedText, Message, Texts, Unplaced};
use canvas_rewrite::{FrozenLine, FrozenTask};
use canvas_task::{Arg, ListOf, TaskNo};
use std::alloc::{AllocError, Global};
use std::sync::Arc;

/// Returns the arguments with an input in front, unless the task is immutable.
fn put_input(
    alloc: Global,
    args: ListOf<Arg>,
    immutable: bool,
    input: &Input,
) -> Result<ListOf<Arg>, AllocError>
    ensures { IfOk result (λ all. all
        ≡ (if immutable then args else value (input_flow (input_seen input.now)) ++ args)) }
{
    if immutable {
        return Ok(args);
    }
    let mut args = args.into_plain();
    input.put_before(alloc, &mut args)?;
    Ok(ListOf::of(args))
}

/// Returns the task whose end publishes a message: the failed task that is the input, or the given
/// one. A body after an empty header gets the task whose end starts it, and a body that a completed
/// header starts gets none.
fn parent_of(input: &Input, parent: &Option<TaskNo>) -> Option<TaskNo>
    ensures { result ≡ parent_for parent.now (input_seen input.now) }
{
    match input {
        Input::Ident(task) => Some(*task),
        _ => *parent,
    }
}

/// Makes the message of a task. It takes over what the task carries.
pub(super) fn message_from(
    alloc: Global,
    task: FrozenTask,
    input: &Input,
    parent: &Option<TaskNo>,
    rest: Option<FrozenLine>,
    texts: Texts,
) -> Result<Message, AllocError>
    requires fits { fits
        (message parent.now (p_task_view task) (input_seen input.now) (rest_seen rest)) ≡ true }
    requires texts { AreTexts texts (place_of (p_task_view task)) (rest_seen rest) }
    ensures { IfOk result
        (λ m. m ≡ message parent.now (p_task_view task) (input_seen input.now) (rest_seen rest)) }
{
    let FrozenTask {
        no,
        name,
        args,
        kwargs,
        immutable,
        links,
        errbacks,
        place,
    } = task;
    let args = put_input(alloc, args, immutable, input)?;
    Ok(Message {
        task: no,
        name,
        parent: parent_of(input, parent),
        place,
        args,
        kwargs,
        links,
        errbacks,
        rest,
        texts,
    })
}

/// Makes the message of a clone of a task that nothing follows.
fn message_of(
    alloc: Global,
    task: &FrozenTask,
    input: &Input,
    parent: &Option<TaskNo>,
) -> Result<Message, AllocError>
    requires { fits (message parent.now (p_task_view task.now) (input_seen input.now) p_stop)
        ≡ true }
    ensures { IfOk result
        (λ m. m ≡ message parent.now (p_task_view task.now) (input_seen input.now) p_stop) }
{
    let place = share_if_some(&task.place)?;
    let task = copy_task(alloc, task, place)?;
    message_from(alloc, task, input, parent, None, Texts::none())
}

/// Appends the messages of links or error callbacks.
pub(super) fn call_back(
    alloc: Global,
    tasks: &[FrozenTask],
    input: &Input,
    parent: &Option<TaskNo>,
    messages: &mut Vec<Message>,
) -> Result<(), AllocError>
    requires callbacks { callbacks_ok (p_tasks_of (map p_task_view tasks.now)) ≡ true }
    requires input { input_ok (input_seen input.now) ≡ true }
    requires parent { parent_ok parent.now ≡ true }
    ensures { OnOk result (messages.new.items
        ≡ messages.old.items
        ++ messages_in (callbacks (p_tasks_of (map p_task_view tasks.now))
        (input_seen input.now) parent.now)) }
{
    for task in tasks {
        messages.push(message_of(alloc, task, input, parent)?)?;
    }
    Ok(())
}

/// Makes the texts of a message, of which only that of what the end of its line carries is known.
pub(super) fn texts_of(carried: Option<Arc<CarriedText>>) -> Texts
    ensures { (place : PPlace) (rest : PLine)
        → IfSome carried (λ t. SaysCarried t.value (place_behind place rest))
        → AreTexts result place rest }
{
    Texts {
        line: None,
        carried,
        unplaced: Unplaced::none(),
    }
}
