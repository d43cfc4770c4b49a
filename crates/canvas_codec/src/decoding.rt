//! Reading messages from envelopes.

ghost use Rattle.std.specs.Prelude.{◌≡◌, ◌≢◌, IfOk, IfErr};
ghost use Rattle.canvas_sig.specs.Datum.{view, value_at};
ghost use Rattle.canvas_envelope.specs.declared.fault.MessageFault.TheVariants.{BadArgs, BadEmbed, Memory};
ghost use Rattle.canvas_codec.specs.steps.Elements.{given_view, embed_view};
ghost use Rattle.canvas_envelope.specs.EnvelopeFaults.{Says, envelope_fault};
ghost use Rattle.canvas_codec.specs.steps.Reading.{Gives, refused_as, given_reading, embed_reading, if_fits, content_of, message_reading, json_reading};
ghost use Rattle.canvas_envelope.specs.MessageView.{draft_view};

use crate::read::{
    Embed, Given, Parts, is_json, is_version_2, parts_of, read_embed, read_given, read_id, task_of,
};
use bumpalo::Bump;
use canvas_envelope::{Draft, Envelope, Message, MessageFault};
use canvas_sig::SigFault;
use canvas_sig::parts::{Datum, parse, text_of};
use canvas_task::{TaskNo, TextOf};
use json::Scratch;
use std::alloc::{AllocError, Global};

/// Parses a text as one JSON value.
fn parsed<'a>(
    alloc: Global,
    arena: &'a Bump,
    scratch: &'a mut Scratch,
    bytes: &'a [u8],
) -> Result<Datum<'a>, MessageFault>
    ensures { Gives view result (json_reading bytes.now) }
{
    match parse(alloc, arena, scratch, bytes) {
        Ok(value) => Ok(value),
        Err(SigFault::Memory) => Err(MessageFault::Memory),
        Err(_) => Err(MessageFault::NotJson),
    }
}

fn given_of(alloc: Global, args: &Datum<'_>, kwargs: &Datum<'_>) -> Result<Given, MessageFault>
    ensures { Gives given_view result
        (refused_as BadArgs (given_reading (view args.now) (view kwargs.now))) }
{
    match read_given(alloc, args, kwargs) {
        Ok(given) => Ok(given),
        Err(SigFault::Memory) => Err(MessageFault::Memory),
        Err(_) => Err(MessageFault::BadArgs),
    }
}

fn embed_of(
    alloc: Global,
    group: Option<&Datum<'_>>,
    embed: &Datum<'_>,
) -> Result<Embed, MessageFault>
    ensures { Gives embed_view result
        (refused_as BadEmbed (embed_reading (value_at group.entry) (view embed.now))) }
{
    match read_embed(alloc, group, embed) {
        Ok(embed) => Ok(embed),
        Err(SigFault::Memory) => Err(MessageFault::Memory),
        Err(_) => Err(MessageFault::BadEmbed),
    }
}

fn draft_of(
    alloc: Global,
    headers: &Datum<'_>,
    task: TaskNo,
    given: Given,
    embed: Embed,
) -> Result<Draft, AllocError>
    ensures { IfOk result (λ d. draft_view d
        ≡ content_of (view headers.now) task (given_view given) (embed_view embed)) }
{
    let name = TextOf::of(text_of(alloc, headers.get("task"))?);
    let Given { args, kwargs } = given;
    let Embed {
        links,
        errbacks,
        place,
        rest,
    } = embed;
    Ok(Draft {
        task,
        name,
        parent: task_of(headers.get("parent_id")),
        place,
        args,
        kwargs,
        links,
        errbacks,
        rest,
    })
}

/// Makes the message, if its places, sizes and reach are allowed. The faults of each signature by
/// itself have been checked before.
fn checked(draft: Draft) -> Result<Message, MessageFault>
    ensures { Gives (λ m. m) result (if_fits (draft_view draft)) }
{
    Message::of(draft).ok_or(MessageFault::BadEmbed)
}

fn read_message(
    alloc: Global,
    properties: &Datum<'_>,
    headers: &Datum<'_>,
    body: &Datum<'_>,
) -> Result<Message, MessageFault>
    ensures { Gives (λ m. m) result
        (message_reading (view properties.now) (view headers.now) (view body.now)) }
{
    if !is_version_2(headers) {
        return Err(MessageFault::NotVersion2);
    }
    let task = read_id(properties, headers).ok_or(MessageFault::BadId)?;
    if !is_json(properties) {
        return Err(MessageFault::BadContentType);
    }
    let parts = parts_of(body).ok_or(MessageFault::BadBody)?;
    let given = given_of(alloc, parts.args, parts.kwargs)?;
    let embed = embed_of(alloc, headers.get("group"), parts.embed)?;
    checked(draft_of(alloc, headers, task, given, embed)?)
}

/// Reads the message that three texts encode. The arena holds their values, and each scratch is for
/// the texts with escapes of one of them.
fn decode_within<'a>(
    alloc: Global,
    arena: &'a Bump,
    first: &'a mut Scratch,
    second: &'a mut Scratch,
    third: &'a mut Scratch,
    envelope: &'a Envelope,
) -> Result<Message, MessageFault>
    ensures ok { IfOk result
        (λ m. Says envelope.now.properties envelope.now.headers envelope.now.body m) }
    ensures err { IfErr result (λ e. e ≢ Memory
        → envelope_fault envelope.now.properties envelope.now.headers envelope.now.body
        ≡ Some e) }
{
    let properties = parsed(alloc, arena, first, envelope.properties.get())?;
    let headers = parsed(alloc, arena, second, envelope.headers.get())?;
    let body = parsed(alloc, arena, third, envelope.body.get())?;
    read_message(alloc, &properties, &headers, &body)
}

/// Reads the message that three texts encode, or returns their first refusal.
pub fn decode(alloc: Global, envelope: &Envelope) -> Result<Message, MessageFault>
    ensures ok { IfOk result
        (λ m. Says envelope.now.properties envelope.now.headers envelope.now.body m) }
    ensures err { IfErr result (λ e. e ≢ Memory
        → envelope_fault envelope.now.properties envelope.now.headers envelope.now.body
        ≡ Some e) }
{
    let arena = Bump::new(alloc);
    let mut first = Scratch::new(alloc);
    let mut second = Scratch::new(alloc);
    let mut third = Scratch::new(alloc);
    decode_within(alloc, &arena, &mut first, &mut second, &mut third, envelope)
}
