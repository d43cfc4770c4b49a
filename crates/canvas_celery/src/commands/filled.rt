//! The start of a plan some of whose arguments are places, which have values.

ghost use Rattle.std.specs.Prelude.{◌≡◌, IfOk, List, OnOk, Some, None, map, option_map};
ghost use Rattle.json.specs.Json.{Json};
ghost use Rattle.json.specs.Value.{value_view};
ghost use Rattle.canvas_semantics.specs.Line.{names};
ghost use Rattle.canvas_celery.specs.Envelope.{body_wire};
ghost use Rattle.canvas_celery.specs.ExportView.{setting, naming};
ghost use Rattle.canvas_celery.specs.FilledStart.{AreUnmarked, IsFilledStart, filled_message, filled_text};
ghost use Rattle.canvas_celery.specs.Values.{AreValues};
ghost use Rattle.canvas_celery.specs.steps.Filling.{HaveNumbers, is_marked_name};

use crate::Run;
use crate::commands::envelope::envelope_around;
use crate::commands::filling::{filled_text, is_marked};
use crate::commands::parts::Parts;
use crate::commands::values::values_of;
use crate::commands::write::{Names, body_of};
use crate::commands::{FillFault, Target};
use canvas_envelope::Message;
use canvas_rewrite::Plan;
use json::{Scratch, Value};
use std::alloc::Global;

/// Returns the body of a message, with a value in each place.
fn filled_body(
    alloc: Global,
    names: &Names<'_>,
    message: &Message,
    values: &[Value<'_>],
) -> Result<Vec<u8>, FillFault>
    requires { HaveNumbers (map value_view values.now) }
    ensures { IfOk result (λ text. filled_text (map value_view values.now)
        (body_wire (naming names.now) message.now) ≡ Some text.items) }
{
    let body = body_of(alloc, names, message)?;
    filled_text(alloc, str::from_utf8(&body).unwrap(), values)
}

/// Returns the text of a message with such a body.
fn filled_envelope(
    alloc: Global,
    names: &Names<'_>,
    queue: &str,
    message: &Message,
    values: &[Value<'_>],
) -> Result<Vec<u8>, FillFault>
    requires { HaveNumbers (map value_view values.now) }
    ensures { IfOk result (λ text. filled_message (map value_view values.now) (naming names.now)
        queue.now message.now ≡ Some text.items) }
{
    let body = filled_body(alloc, names, message, values)?;
    Ok(envelope_around(alloc, names, queue, message, &body)?)
}

/// Returns the texts of messages, in their order.
fn encode_filled(
    alloc: Global,
    names: &Names<'_>,
    queue: &str,
    messages: &[Message],
    values: &[Value<'_>],
) -> Result<Vec<Vec<u8>>, FillFault>
    requires { HaveNumbers (map value_view values.now) }
    ensures { IfOk result (λ texts. map (λ t. Some t.items) texts.items
        ≡ map (filled_message (map value_view values.now) (naming names.now) queue.now)
        messages.now) }
{
    let mut texts = Vec::new(alloc);
    for message in messages {
        texts.push(filled_envelope(alloc, names, queue, message, values)?)?;
    }
    Ok(texts)
}

/// Returns the texts of messages, with the values of a text in their places.
fn filled_texts(
    alloc: Global,
    names: &Names<'_>,
    queue: &str,
    messages: &[Message],
    values: &[u8],
) -> Result<Vec<Vec<u8>>, FillFault>
    ensures { IfOk result (λ texts. (list : List Json) × AreValues values.now list
        × (map (λ t. Some t.items) texts.items
        ≡ map (filled_message list (naming names.now) queue.now) messages.now)) }
{
    let mut scratch = Scratch::new(alloc);
    let values = values_of(alloc, values, &mut scratch)?;
    encode_filled(alloc, names, queue, messages, &values)
}

/// Returns whether a task's name begins with `~`.
fn is_marked_name(name: Option<&str>) -> bool
    ensures { result ≡ is_marked_name (option_map (λ name. name.now) name.entry) }
{
    match name {
        Some(name) => is_marked(name),
        None => false,
    }
}

/// Returns the first of the tasks' names that begins with `~`.
fn marked_name(plan: &Plan) -> Option<&str>
    ensures { result ≡ None → AreUnmarked (names plan.now) }
{
    for index in 0..plan.tasks() {
        let name = plan.name(plan.task_at(index));
        if is_marked_name(name) {
            return name;
        }
    }
    None
}

/// Refuses a task's name that begins with `~`, since it could be mistaken for a place. So the
/// filling needn't know which texts of a body are arguments.
fn check_names(alloc: Global, plan: &Plan) -> Result<(), FillFault>
    ensures { OnOk result (AreUnmarked (names plan.now)) }
{
    match marked_name(plan) {
        Some(name) => Err(FillFault::of_name(alloc, name)),
        None => Ok(()),
    }
}

/// Like `export`, for a plan some of whose arguments are places: the texts `~0`, `~1` and so on,
/// which have the values of a JSON array in their order. In the messages each place is its value. A
/// value may be in several places, or in none.
pub fn export_with(
    alloc: Global,
    plan: &Plan,
    run: &Run,
    target: &Target<'_>,
    values: &[u8],
) -> Result<Vec<u8>, FillFault>
    ensures { IfOk result (λ bytes. IsFilledStart values.now run.now.digits (setting target.now)
        plan.now bytes.items) }
{
    check_names(alloc, plan)?;
    let parts = Parts::of(alloc, plan, run, target)?;
    let names = Names { run, plan };
    let texts = filled_texts(alloc, &names, target.queue, &parts.messages, values)?;
    Ok(parts.with_texts(alloc, &texts)?)
}
