//! Cloning messages.

ghost use Rattle.std.specs.Prelude.{◌≡◌, IfOk};
ghost use Rattle.canvas_envelope.specs.MessageView.{rest_seen};

use super::task_messages::texts_of;
use crate::copies::{copy_call, copy_line, copy_tasks, share_if_some};
use canvas_envelope::{Message, share_text};
use canvas_rewrite::FrozenLine;
use canvas_task::ListOf;
use std::alloc::{AllocError, Global};

fn copy_rest(alloc: Global, rest: &Option<FrozenLine>) -> Result<Option<FrozenLine>, AllocError>
    ensures { IfOk result (λ copy. rest_seen copy ≡ rest_seen rest.now) }
{
    match rest {
        Some(line) => Ok(Some(copy_line(alloc, line)?)),
        None => Ok(None),
    }
}

/// Clones a message. The carried bodies are shared, but not the text of the rest of its line, which
/// has to be written again.
pub(super) fn copy_message(alloc: Global, message: &Message) -> Result<Message, AllocError>
    ensures { IfOk result (λ copy. copy ≡ message.now) }
{
    let call = copy_call(alloc, &message.name, &message.args, &message.kwargs)?;
    let links = copy_tasks(alloc, message.links.get())?;
    let errbacks = copy_tasks(alloc, message.errbacks.get())?;
    let place = share_if_some(&message.place)?;
    let rest = copy_rest(alloc, &message.rest)?;
    let texts = texts_of(share_text(&message.texts.carried)?);
    Ok(Message {
        task: message.task,
        name: call.name,
        parent: message.parent,
        place,
        args: call.args,
        kwargs: call.kwargs,
        links: ListOf::of(links),
        errbacks: ListOf::of(errbacks),
        rest,
        texts,
    })
}
