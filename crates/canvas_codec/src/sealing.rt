//! Sealing messages of this process in letters, and opening letters.

ghost use Rattle.std.specs.Prelude.{◌≡◌, ◌≢◌, IfOk, IfErr, Some};
ghost use Rattle.serde_json.specs.Written.{compact_text};
ghost use Rattle.canvas_envelope.specs.EnvelopeFaults.{Says, envelope_fault};
ghost use Rattle.canvas_envelope.specs.declared.fault.MessageFault.TheVariants as fault;
ghost use Rattle.canvas_envelope.specs.Wire.{properties_wire, headers_wire, body_wire};

use crate::decode;
use crate::encoding::{pieces_of, pieces_of_followed};
use canvas_envelope::{
    Envelope, Followed, Letter, Message, MessageFault, Unplaced, following, line_text,
};
use canvas_task::Memory;
use std::alloc::{AllocError, Global};

/// Writes the text of the rest of a message's line, and counts the first tasks there without a
/// place, if anything follows and this wasn't done yet.
fn write_rest(alloc: Global, message: &mut Message) -> Result<(), AllocError>
    ensures { message.new ≡ message.old }
{
    if message.texts.line.is_some() {
        return Ok(());
    }
    if let Some(rest) = following(&message.rest) {
        let text = line_text(alloc, rest, &message.texts.carried)?;
        message.texts.unplaced = Unplaced::of(rest.tasks.get());
        message.texts.line = Some(text);
    }
    Ok(())
}

/// Makes a letter of the envelope that `encode` writes, with the message if memory suffices to keep
/// it. Texts that several messages share are written once: a body that a place carries, and the
/// rest of a line.
pub fn seal(alloc: Global, message: Message) -> Result<Letter, Memory>
    ensures texts { IfOk result (λ e. (e.properties ≡ compact_text (properties_wire message))
        × (e.headers ≡ compact_text (headers_wire message))
        × (e.body ≡ compact_text (body_wire message))) }
    ensures reads_back { IfOk result (λ e. Says e.properties e.headers e.body message) }
{
    let mut message = message;
    write_rest(alloc, &mut message)?;
    let pieces = pieces_of(alloc, &message)?;
    let letter = Letter::sealed(alloc, pieces, message)?;
    Ok(letter)
}

/// Like `seal`, but the letter keeps the message apart from the rest of its line.
pub fn seal_followed(alloc: Global, followed: Followed) -> Result<Letter, Memory>
    ensures texts { IfOk result (λ e. (e.properties ≡ compact_text (properties_wire followed))
        × (e.headers ≡ compact_text (headers_wire followed))
        × (e.body ≡ compact_text (body_wire followed))) }
    ensures reads_back { IfOk result (λ e. Says e.properties e.headers e.body followed) }
{
    match pieces_of_followed(alloc, &followed)? {
        Some(pieces) => {
            let letter = Letter::followed(alloc, pieces, followed)?;
            Ok(letter)
        }
        None => seal(alloc, followed.into_message()),
    }
}

/// Reads the message from an envelope.
fn read_whole(alloc: Global, envelope: &Envelope) -> Result<Box<Message>, MessageFault>
    ensures ok { IfOk result (λ m. Says envelope.now.properties envelope.now.headers
        envelope.now.body m.value) }
    ensures err { IfErr result (λ e. e ≢ fault.Memory
        → envelope_fault envelope.now.properties envelope.now.headers envelope.now.body
        ≡ Some e) }
{
    let message = decode(alloc, envelope)?;
    match Box::new(alloc, message) {
        Ok(message) => Ok(message),
        Err(_) => Err(MessageFault::Memory),
    }
}

/// Reads the message from a letter's envelope.
fn read(alloc: Global, letter: &Letter) -> Result<Box<Message>, MessageFault>
    ensures ok { IfOk result
        (λ m. Says letter.now.properties letter.now.headers letter.now.body m.value) }
    ensures err { IfErr result (λ e. e ≢ fault.Memory
        → envelope_fault letter.now.properties letter.now.headers letter.now.body ≡ Some e) }
{
    match letter.whole() {
        Some(envelope) => read_whole(alloc, envelope),
        None => match letter.envelope(alloc) {
            Ok(envelope) => read_whole(alloc, &envelope),
            Err(Memory) => Err(MessageFault::Memory),
        },
    }
}

/// Returns the message that a letter's envelope encodes, or its first refusal, as `decode` does.
/// After an allocation failure the letter can be opened again.
pub fn open(alloc: Global, letter: &mut Letter) -> Result<Box<Message>, MessageFault>
    ensures ok { IfOk result
        (λ m. Says letter.old.properties letter.old.headers letter.old.body m.value) }
    ensures err { IfErr result (λ e. e ≢ fault.Memory
        → envelope_fault letter.old.properties letter.old.headers letter.old.body ≡ Some e) }
    ensures letter { letter.new ≡ letter.old }
{
    match letter.take_message(alloc) {
        Some(message) => Ok(message),
        None => read(alloc, letter),
    }
}
