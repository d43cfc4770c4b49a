//! kombu's envelope: a message as a list of Redis has it.

ghost use Rattle.std.specs.Prelude.{◌≡◌, IfOk, OnOk, Some, codes, true};
ghost use Rattle.base64.specs.Engines.{standard};
ghost use Rattle.base64.specs.GeneralPurpose.{decoded_of, encode_of};
ghost use Rattle.serde_json.specs.Data.{string};
ghost use Rattle.serde_json.specs.Written.{compact_text};
ghost use Rattle.canvas_values.specs.steps.Tokens.{Appends, data_tokens};
ghost use Rattle.canvas_envelope.specs.Fits.{fits};
ghost use Rattle.canvas_envelope.specs.steps.Tokens.{named_tokens};
ghost use Rattle.canvas_celery.specs.Envelope.{delivery_wire, properties_wire, envelope_wire, message_text};
ghost use Rattle.canvas_celery.specs.MessageReading.{IsSound, read_message};
ghost use Rattle.canvas_celery.specs.Sizeless.{sizeless};
ghost use Rattle.canvas_celery.specs.ExportView.{naming};

use crate::commands::write::{
    Names, body_of, write_headers, write_number, write_task_member, write_text,
};
use base64::engine::general_purpose::STANDARD;
use canvas_envelope::Message;
use canvas_task::TaskNo;
use json::Writer;
use std::alloc::{AllocError, Global};

fn write_delivery(out: &mut Writer, queue: &str) -> Result<(), AllocError>
    ensures { Appends result out.old out.new
        (named_tokens (codes "delivery_info") (delivery_wire queue.now)) }
{
    out.key("delivery_info")?;
    out.begin_object()?;
    write_text(out, "exchange", "")?;
    write_text(out, "routing_key", queue)?;
    out.end_object()
}

fn write_properties(
    out: &mut Writer,
    names: &Names<'_>,
    queue: &str,
    task: TaskNo,
) -> Result<(), AllocError>
    ensures { Appends result out.old out.new
        (data_tokens (properties_wire (naming names.now) queue.now task)) }
{
    out.begin_object()?;
    write_text(out, "body_encoding", "base64")?;
    write_task_member(out, names, "correlation_id", task)?;
    write_delivery(out, queue)?;
    write_number(out, "delivery_mode", 2)?;
    write_task_member(out, names, "delivery_tag", task)?;
    write_number(out, "priority", 0)?;
    out.end_object()
}

/// Writes the whole envelope of a message, which fits.
fn write_envelope(
    out: &mut Writer,
    names: &Names<'_>,
    queue: &str,
    message: &Message,
    body: &str,
) -> Result<(), AllocError>
    ensures tokens { Appends result out.old out.new (data_tokens
        (envelope_wire (naming names.now) queue.now (string body.now) message.now)) }
    ensures checked { OnOk result (fits message.now ≡ true) }
{
    out.begin_object()?;
    write_text(out, "body", body)?;
    write_text(out, "content-encoding", "utf-8")?;
    write_text(out, "content-type", "application/json")?;
    out.key("headers")?;
    write_headers(out, names, message)?;
    out.key("properties")?;
    write_properties(out, names, queue, message.task)?;
    out.end_object()
}

/// Returns the text of a message with this body.
pub(crate) fn envelope_around(
    alloc: Global,
    names: &Names<'_>,
    queue: &str,
    message: &Message,
    body: &[u8],
) -> Result<Vec<u8>, AllocError>
    ensures text { IfOk result (λ text. text.items ≡ compact_text (envelope_wire (naming names.now)
        queue.now (string (encode_of standard body.now)) message.now)) }
    ensures kept { OnOk result
        (decoded_of standard (encode_of standard body.now) ≡ Some body.now) }
    ensures checked { OnOk result (fits message.now ≡ true) }
{
    let encoded = STANDARD.encode(alloc, body)?;
    let mut out = Writer::new(Vec::new(alloc));
    write_envelope(&mut out, names, queue, message, &encoded)?;
    Ok(out.into_inner())
}

/// Returns the text of a message, which reads back as its content without the sizes of chords.
pub(crate) fn envelope_text(
    alloc: Global,
    names: &Names<'_>,
    queue: &str,
    message: &Message,
) -> Result<Vec<u8>, AllocError>
    ensures text { IfOk result
        (λ text. text.items ≡ message_text (naming names.now) queue.now message.now) }
    ensures reads_back { IfOk result (λ text. IsSound (naming names.now)
        → read_message text.items ≡ Some (sizeless message.now)) }
{
    let body = body_of(alloc, names, message)?;
    envelope_around(alloc, names, queue, message, &body)
}
