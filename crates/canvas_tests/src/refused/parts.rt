//! Calls on canvases and messages that may be refused memory: each comes to its answer, or says
//! that memory was refused.

ghost use Rattle.std.specs.Prelude.{IfSome, All};
ghost use Rattle.canvas_task.specs.Apply.{IsInRange};

use canvas_codec::{decode, encode};
use canvas_effects::{PartCall, Todo, after, body_after, first_messages, into_todo};
use canvas_envelope::{Envelope, Message, MessageFault};
use canvas_rewrite::{Plan, freeze, node_of, normalise};
use canvas_samples::spelled;
use canvas_sig::{
    Canvas, Node, SigFault, read_arg, read_canvas, write_arg, write_canvas, write_node,
};
use canvas_task::{Arg, Fault, Kind, Memory, Outcome, TaskNo};
use serde_json::Value;
use std::alloc::Global;

const FAILS: Outcome = Outcome::Failure(Fault::Plain(Kind::ZeroDivision));

// ---- signatures and plans

/// The normal text of a chord of two sums, their sum, and then a product.
const NORMAL: &str =
    r#"{"args":[],"immutable":false,"kwargs":{"body":{"args":[],"immutable":false,"kwargs":{"tasks":[{"args":[],"immutable":false,"kwargs":{},"options":{},"subtask_type":null,"task":"tasks.xsum"},{"args":[2],"immutable":false,"kwargs":{},"options":{},"subtask_type":null,"task":"tasks.mul"}]},"options":{},"subtask_type":"chain","task":"celery.chain"},"header":[{"args":[1,1],"immutable":false,"kwargs":{},"options":{},"subtask_type":null,"task":"tasks.add"},{"args":[2,2],"immutable":false,"kwargs":{},"options":{},"subtask_type":null,"task":"tasks.add"}]},"options":{},"subtask_type":"chord","task":"celery.chord"}"#;

/// What a refusal comes to: an error where it is one of memory.
fn refusal(fault: SigFault) -> Result<bool, Memory> {
    match fault {
        SigFault::Memory => Err(Memory),
        _ => Ok(false),
    }
}

fn is_normal(alloc: Global, node: &Node) -> Result<bool, Memory> {
    let text = write_node(alloc, node)?;
    Ok(text.as_str() == NORMAL)
}

fn is_written(alloc: Global, canvas: &Canvas) -> Result<bool, Memory> {
    let text = write_canvas(alloc, canvas)?;
    Ok(text.as_str() == NORMAL)
}

/// Like `is_written`, for a checked signature.
fn is_checked(alloc: Global, checked: &Result<Canvas, SigFault>) -> Result<bool, Memory> {
    match checked {
        Ok(canvas) => is_written(alloc, canvas),
        Err(fault) => refusal(*fault),
    }
}

/// The signature of a canvas's normal line.
fn normal_node(alloc: Global, canvas: &Canvas) -> Result<Node, Memory> {
    let line = normalise(alloc, canvas)?;
    node_of(alloc, &line)
}

/// Whether a signature is that of a canvas with the normal text.
fn is_canvas(alloc: Global, node: Node) -> Result<bool, Memory> {
    is_checked(alloc, &Canvas::of(alloc, node))
}

/// Whether a canvas's normal signature has the normal text.
fn becomes_normal(alloc: Global, canvas: &Canvas) -> Result<bool, Memory> {
    match normal_node(alloc, canvas) {
        Ok(node) => is_normal(alloc, &node),
        Err(Memory) => Err(Memory),
    }
}

/// Whether it is that of a canvas with the normal text.
fn becomes_canvas(alloc: Global, canvas: &Canvas) -> Result<bool, Memory> {
    match normal_node(alloc, canvas) {
        Ok(node) => is_canvas(alloc, node),
        Err(Memory) => Err(Memory),
    }
}

/// Both.
fn is_rewritten(alloc: Global, canvas: &Canvas) -> Result<bool, Memory> {
    if becomes_normal(alloc, canvas)? {
        becomes_canvas(alloc, canvas)
    } else {
        Ok(false)
    }
}

/// Whether both hold of what a text comes to.
fn is_read(alloc: Global, read: &Result<Canvas, SigFault>) -> Result<bool, Memory> {
    match read {
        Ok(canvas) => is_rewritten(alloc, canvas),
        Err(fault) => refusal(*fault),
    }
}

pub(crate) fn signatures(alloc: Global) -> Result<bool, Memory> {
    match spelled::canvas(alloc, "C(H[.,.|.],.)", "add:1,1 add:2,2 xsum: mul:2") {
        Ok(text) => is_read(alloc, &read_canvas(alloc, text.as_bytes())),
        Err(Memory) => Err(Memory),
    }
}

fn frozen(alloc: Global, canvas: &Canvas) -> Result<Plan, Memory> {
    let line = normalise(alloc, canvas)?;
    freeze(alloc, &line)
}

fn is_frozen(alloc: Global, canvas: &Canvas) -> Result<bool, Memory> {
    let plan = frozen(alloc, canvas)?;
    Ok(plan.tasks() == 4 && plan.groups() == 1)
}

/// Like `is_frozen`, for a text that was read.
fn is_read_and_frozen(alloc: Global, read: &Result<Canvas, SigFault>) -> Result<bool, Memory> {
    match read {
        Ok(canvas) => is_frozen(alloc, canvas),
        Err(fault) => refusal(*fault),
    }
}

pub(crate) fn plans(alloc: Global) -> Result<bool, Memory> {
    is_read_and_frozen(alloc, &read_canvas(alloc, NORMAL.as_bytes()))
}

fn has_value(alloc: Global, arg: &Arg, value: &Value) -> Result<bool, Memory> {
    let written = write_arg(alloc, arg)?;
    Ok(written == *value)
}

/// Whether a value reads as an argument that is written as it.
fn is_argument(alloc: Global, value: &Value) -> Result<bool, Memory> {
    match read_arg(alloc, value) {
        Ok(arg) => has_value(alloc, &arg, value),
        Err(fault) => refusal(fault),
    }
}

/// Like `is_argument`, for a value's text.
fn is_text(alloc: Global, text: &str) -> Result<bool, Memory> {
    match Value::from_str(alloc, text) {
        Ok(value) => is_argument(alloc, &value),
        Err(_) => Err(Memory),
    }
}

pub(crate) fn arguments(alloc: Global) -> Result<bool, Memory> {
    for &text in &["[1,2]", r#""text""#, "7"] {
        if !is_text(alloc, text)? {
            return Ok(false);
        }
    }
    Ok(true)
}

// ---- messages

fn has_envelope(alloc: Global, message: &Message, envelope: &Envelope) -> Result<bool, Memory> {
    let found = encode(alloc, message)?;
    Ok(found == *envelope)
}

/// Like `has_envelope`, for an envelope that was opened.
fn is_opened(
    alloc: Global,
    opened: &Result<Message, MessageFault>,
    envelope: &Envelope,
) -> Result<bool, Memory> {
    match opened {
        Ok(message) => has_envelope(alloc, message, envelope),
        Err(MessageFault::Memory) => Err(Memory),
        Err(_) => Ok(false),
    }
}

/// Whether an envelope reads as a message with that envelope.
fn reads_back(alloc: Global, envelope: &Envelope) -> Result<bool, Memory> {
    is_opened(alloc, &decode(alloc, envelope), envelope)
}

/// Whether a message's envelope does.
fn is_carried(alloc: Global, message: &Message) -> Result<bool, Memory> {
    reads_back(alloc, &encode(alloc, message)?)
}

fn are_carried(alloc: Global, messages: &[Message]) -> Result<bool, Memory> {
    for message in messages {
        if !is_carried(alloc, message)? {
            return Ok(false);
        }
    }
    Ok(messages.len() == 3)
}

/// The messages that a plan of three begins with.
pub(crate) fn messages(alloc: Global, plan: &Plan) -> Result<bool, Memory> {
    match first_messages(alloc, plan) {
        Ok(messages) => are_carried(alloc, &messages),
        Err(Memory) => Err(Memory),
    }
}

/// The outcomes of a header's members.
fn outcomes() -> Option<[(TaskNo, Outcome); 3]>
    ensures { IfSome result (λ v. All (λ e. IsInRange e.1) v) }
{
    let (one, two) = (TaskNo::new(1)?, TaskNo::new(2)?);
    let three = TaskNo::new(3)?;
    Some([
        (one, Outcome::Success(8)),
        (two, FAILS),
        (three, Outcome::Success(16)),
    ])
}

fn is_one_of_each(todo: &Todo) -> bool {
    todo.stores.get().len() == 1 && todo.messages.get().len() == 1 && todo.part.is_none()
}

/// Whether, after a header of which a member failed, its body is stored and the body's error
/// callback published.
fn raises(alloc: Global, part: &PartCall) -> Result<bool, Memory> {
    match outcomes() {
        Some(outcomes) => match body_after(alloc, &part.chord, &outcomes) {
            Ok(todo) => Ok(is_one_of_each(&todo)),
            Err(Memory) => Err(Memory),
        },
        None => Ok(false),
    }
}

/// Whether there is a part and nothing else, and what follows its chord is right.
fn is_part(alloc: Global, todo: &Todo) -> Result<bool, Memory> {
    match &todo.part {
        Some(part) if todo.stores.get().is_empty() && todo.messages.get().is_empty() => {
            raises(alloc, part)
        }
        _ => Ok(false),
    }
}

/// Whether the end of a message's task returns such a part.
fn returns(alloc: Global, message: &Message) -> Result<bool, Memory> {
    match after(alloc, message, &FAILS) {
        Ok(todo) => is_part(alloc, &todo),
        Err(Memory) => Err(Memory),
    }
}

/// Whether a part is returned if the message is consumed for it.
fn gives_part(alloc: Global, message: Message) -> Result<bool, Memory> {
    match into_todo(alloc, message, &FAILS) {
        Ok(todo) => Ok(todo.part.is_some()),
        Err(Memory) => Err(Memory),
    }
}

fn last_returns(alloc: Global, messages: &[Message]) -> Result<bool, Memory> {
    match messages.last() {
        Some(message) => returns(alloc, message),
        None => Ok(false),
    }
}

fn last_gives_part(alloc: Global, messages: &mut Vec<Message>) -> Result<bool, Memory> {
    match messages.pop() {
        Some(message) => gives_part(alloc, message),
        None => Ok(false),
    }
}

/// Whether both hold of the last of these messages.
fn ends(alloc: Global, messages: &mut Vec<Message>) -> Result<bool, Memory> {
    if last_returns(alloc, messages)? {
        last_gives_part(alloc, messages)
    } else {
        Ok(false)
    }
}

pub(crate) fn effects(alloc: Global, plan: &Plan) -> Result<bool, Memory> {
    match first_messages(alloc, plan) {
        Ok(mut messages) => ends(alloc, &mut messages),
        Err(Memory) => Err(Memory),
    }
}
