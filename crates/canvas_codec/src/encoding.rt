//! Writing the envelope of a message.

ghost use Rattle.std.specs.Prelude.{◌≡◌, ◌++◌, true, IfOk, IfSome, string_bytes};
ghost use Rattle.serde_json.specs.Written.{compact_text};
ghost use Rattle.canvas_envelope.specs.Content.{number_of};
ghost use Rattle.std.specs.Str.{IsUtf8};
ghost use Rattle.canvas_envelope.specs.Fits.{fits};
ghost use Rattle.canvas_envelope.specs.EnvelopeFaults.{Says};
ghost use Rattle.canvas_envelope.specs.Pieces.{body_text, embed_text, joined};
ghost use Rattle.canvas_envelope.specs.Wire.{properties_wire, headers_wire, body_wire};

use canvas_envelope::{
    Body, Envelope, Followed, Message, Pieces, body_of, body_of_followed, put_parent_id,
    put_place_id, put_string, put_task_id,
};
use canvas_task::{ListOf, Memory, TaskNo};
use std::alloc::{AllocError, Global};

/// Returns the bytes of a text, which are UTF-8.
fn bytes_of(text: String) -> ListOf<u8>
    ensures value { result ≡ string_bytes text }
    ensures utf8 { IsUtf8 result }
{
    ListOf::of(text.into_bytes())
}

/// Writes the texts of a message with this number and this body.
fn texts_of(
    alloc: Global,
    message: &Message,
    body: Body,
    task: TaskNo,
) -> Result<Pieces, AllocError>
    requires task { task ≡ number_of message.now.own }
    requires utf8 { IsUtf8 (embed_text body.embed) }
    ensures properties { IfOk result
        (λ p. (joined p).properties ≡ compact_text (properties_wire message.now)) }
    ensures headers { IfOk result
        (λ p. (joined p).headers ≡ compact_text (headers_wire message.now)) }
    ensures body { IfOk result
        (λ p. body_text p ≡ string_bytes body.front ++ embed_text body.embed) }
    ensures utf8 { IfOk result
        (λ p. IsUtf8 (joined p).properties × IsUtf8 (joined p).headers × IsUtf8 (body_text p)) }
{
    let Body { front, embed } = body;
    let front_end = front.len();
    let mut own = front;
    put_place_id(&mut own, &message.place)?;
    let group_end = own.len();
    put_task_id(&mut own, task)?;
    let id_end = own.len();
    put_parent_id(&mut own, message.parent)?;
    let parent_end = own.len();
    put_string(alloc, &mut own, message.name.get())?;
    Ok(Pieces {
        own: bytes_of(own),
        front_end,
        group_end,
        id_end,
        parent_end,
        embed,
    })
}

/// Returns the number of a message's task.
fn number(message: &Message) -> TaskNo
    ensures value { result ≡ number_of message.now.own }
    ensures checked { fits message.now ≡ true }
{
    message.task
}

/// Writes the texts of a message.
pub(crate) fn pieces_of(alloc: Global, message: &Message) -> Result<Pieces, Memory>
    ensures properties { IfOk result
        (λ p. (joined p).properties ≡ compact_text (properties_wire message.now)) }
    ensures headers { IfOk result
        (λ p. (joined p).headers ≡ compact_text (headers_wire message.now)) }
    ensures body { IfOk result (λ p. body_text p ≡ compact_text (body_wire message.now)) }
    ensures reads_back { IfOk result
        (λ p. Says (joined p).properties (joined p).headers (body_text p) message.now) }
{
    let body = body_of(alloc, message)?;
    Ok(texts_of(alloc, message, body, number(message))?)
}

/// Returns the number of the task of a message that is kept apart from the rest of its line.
fn number_followed(followed: &Followed) -> TaskNo
    ensures value { result ≡ number_of followed.now.own }
    ensures checked { fits followed.now ≡ true }
{
    followed.message.task
}

/// Writes the texts of a message that is kept apart from the rest of its line; None if
/// nothing follows, or if the text of the rest isn't known.
pub(crate) fn pieces_of_followed(
    alloc: Global,
    followed: &Followed,
) -> Result<Option<Pieces>, Memory>
    ensures properties { IfOk result (λ o. IfSome o
        (λ p. (joined p).properties ≡ compact_text (properties_wire followed.now))) }
    ensures headers { IfOk result (λ o. IfSome o
        (λ p. (joined p).headers ≡ compact_text (headers_wire followed.now))) }
    ensures body { IfOk result (λ o. IfSome o
        (λ p. body_text p ≡ compact_text (body_wire followed.now))) }
    ensures reads_back { IfOk result (λ o. IfSome o (λ p.
        Says (joined p).properties (joined p).headers (body_text p) followed.now)) }
{
    match body_of_followed(alloc, followed)? {
        Some(body) => {
            let task = number_followed(followed);
            let pieces = texts_of(alloc, &followed.message, body, task)?;
            Ok(Some(pieces))
        }
        None => Ok(None),
    }
}

/// Writes the three texts of a message, which read back as the message.
pub fn encode(alloc: Global, message: &Message) -> Result<Envelope, Memory>
    ensures texts { IfOk result (λ e. (e.properties ≡ compact_text (properties_wire message.now))
        × (e.headers ≡ compact_text (headers_wire message.now))
        × (e.body ≡ compact_text (body_wire message.now))) }
    ensures reads_back { IfOk result (λ e. Says e.properties e.headers e.body message.now) }
{
    pieces_of(alloc, message)?.join(alloc)
}
