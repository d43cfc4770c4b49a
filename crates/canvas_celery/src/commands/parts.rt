//! The parts that a start is written from.

ghost use Rattle.std.specs.Prelude.{◌≡◌, IfOk, OnOk, Some, length, map, true};
ghost use Rattle.std.specs.Io.KnownBytes.{Appends};
ghost use Rattle.canvas_semantics.specs.PlacedLine.{bare};
ghost use Rattle.canvas_rewrite.specs.Planned.{IsPlan};
ghost use Rattle.canvas_effects.specs.Carrying.{is_whole};
ghost use Rattle.canvas_effects.specs.Effects.{first_messages};
ghost use Rattle.canvas_celery.specs.Resp.{resp, word_bytes, words_bytes};
ghost use Rattle.canvas_celery.specs.Starting.{starting};
ghost use Rattle.canvas_celery.specs.Start.{commands, start};
ghost use Rattle.canvas_celery.specs.steps.Around.{Surrounds, around_texts, parts_bytes};
ghost use Rattle.canvas_celery.specs.steps.Sizes.{size_view};
ghost use Rattle.canvas_celery.specs.ExportView.{setting, naming, naming_of};
ghost use Rattle.canvas_celery.specs.Envelope.{message_text};
ghost use Rattle.canvas_celery.specs.MessageReading.{IsSound, read_message};
ghost use Rattle.canvas_celery.specs.Sizeless.{sizeless};

use crate::Run;
use crate::commands::Target;
use crate::commands::around::Around;
use crate::commands::by_script::around_in_script;
use crate::commands::by_transaction::around_in_transaction;
use crate::commands::envelope::envelope_text;
use crate::commands::resp::{push_texts, push_word};
use crate::commands::starting::{Size, push_sizes};
use crate::commands::write::Names;
use canvas_effects::first_messages;
use canvas_envelope::Message;
use canvas_rewrite::Plan;
use canvas_task::Memory;
use std::alloc::{AllocError, Global};
use std::io::{self, Write};

/// The messages of a start, and the bytes around their texts.
#[derive(Drop)]
pub(crate) struct Parts {
    around: Around,
    pub(crate) messages: Vec<Message>,
}

/// Returns the chords whose headers start with a plan, whose line fits a message.
fn sizes_of(alloc: Global, plan: &Plan) -> Result<Vec<Size>, AllocError>
    ensures sizes { IfOk result (λ sizes. map size_view sizes.items ≡ starting (bare plan.now)) }
    ensures planned { OnOk result (IsPlan plan.now) }
    ensures whole { OnOk result (is_whole (bare plan.now) ≡ true) }
{
    let mut sizes = Vec::new(alloc);
    push_sizes(plan.line(), &mut sizes)?;
    Ok(sizes)
}

/// Returns the bytes around the texts of some messages.
fn around_some(
    alloc: Global,
    run: &Run,
    target: &Target<'_>,
    sizes: &[Size],
    messages: &[Message],
) -> Result<Around, AllocError>
    ensures { IfOk result (λ a. Surrounds a (length messages.now)
        (commands run.now.digits (setting target.now) (map size_view sizes.now))) }
{
    if target.by_script {
        around_in_script(alloc, run, target, sizes, messages)
    } else {
        around_in_transaction(alloc, run, target, sizes, messages)
    }
}

/// Returns the bytes around the texts of messages; none if there are no messages.
fn around_all(
    alloc: Global,
    run: &Run,
    target: &Target<'_>,
    sizes: &[Size],
    messages: &[Message],
) -> Result<Around, AllocError>
    ensures { IfOk result (λ a. Surrounds a (length messages.now)
        (start run.now.digits (setting target.now) (map size_view sizes.now))) }
{
    if messages.is_empty() {
        Ok(Around {
            front: Vec::new(alloc),
            back: Vec::new(alloc),
        })
    } else {
        around_some(alloc, run, target, sizes, messages)
    }
}

/// Writes a message's text as a word, all at once.
fn write_message<W: Write>(
    alloc: Global,
    names: &Names<'_>,
    queue: &str,
    message: &Message,
    out: &mut W,
) -> io::Result<()>
    ensures text { OnOk result (Appends (W.contents out.old) (W.contents out.new)
        (word_bytes (message_text (naming names.now) queue.now message.now))) }
    ensures reads_back { OnOk result (IsSound (naming names.now)
        → read_message (message_text (naming names.now) queue.now message.now)
        ≡ Some (sizeless message.now)) }
{
    let text = envelope_text(alloc, names, queue, message)?;
    let mut word = Vec::new(alloc);
    push_word(alloc, &mut word, &text)?;
    out.write_all(&word)
}

/// Writes the texts of messages as words, one after the other, only one of which is held at a time.
/// Each reads back as its message, without the sizes of chords.
fn write_messages<W: Write>(
    alloc: Global,
    names: &Names<'_>,
    queue: &str,
    messages: &[Message],
    out: &mut W,
) -> io::Result<()>
    ensures text { OnOk result (Appends (W.contents out.old) (W.contents out.new)
        (words_bytes (map (message_text (naming names.now) queue.now) messages.now))) }
    ensures reads_back { OnOk result (IsSound (naming names.now)
        → map (λ m. read_message (message_text (naming names.now) queue.now m)) messages.now
        ≡ map (λ m. Some (sizeless m)) messages.now) }
{
    for message in messages {
        write_message(alloc, names, queue, message, out)?;
    }
    Ok(())
}

impl Parts {
    /// Returns the parts of a plan's start.
    pub(crate) fn of(
        alloc: Global,
        plan: &Plan,
        run: &Run,
        target: &Target<'_>,
    ) -> Result<Parts, Memory>
        ensures messages { IfOk result (λ p. p.messages.items ≡ first_messages plan.now) }
        ensures around { IfOk result (λ p. Surrounds p.around (length p.messages.items)
            (start run.now.digits (setting target.now) (starting (bare plan.now)))) }
        ensures planned { OnOk result (IsPlan plan.now) }
        ensures whole { OnOk result (is_whole (bare plan.now) ≡ true) }
    {
        let messages = first_messages(alloc, plan)?;
        let sizes = sizes_of(alloc, plan)?;
        let around = around_all(alloc, run, target, &sizes, &messages)?;
        Ok(Parts { around, messages })
    }

    /// Writes the start.
    pub(crate) fn write<W: Write>(
        &self,
        alloc: Global,
        names: &Names<'_>,
        queue: &str,
        out: &mut W,
    ) -> io::Result<()>
        ensures bytes { OnOk result (Appends (W.contents out.old) (W.contents out.new)
            (parts_bytes (naming names.now) queue.now self.now)) }
        ensures reads_back { OnOk result (IsSound (naming names.now)
            → map (λ m. read_message (message_text (naming names.now) queue.now m))
            self.now.messages.items ≡ map (λ m. Some (sizeless m)) self.now.messages.items) }
    {
        out.write_all(&self.around.front)?;
        write_messages(alloc, names, queue, &self.messages, out)?;
        out.write_all(&self.around.back)
    }
    /// Returns the start if the messages have these texts.
    pub(crate) fn with_texts(&self, alloc: Global, texts: &[Vec<u8>]) -> Result<Vec<u8>, AllocError>
        ensures { IfOk result (λ bytes. bytes.items
            ≡ around_texts self.now.around (map (λ t. t.items) texts.now)) }
    {
        let mut out = Vec::new(alloc);
        out.extend_from_slice(&self.around.front)?;
        push_texts(alloc, &mut out, texts)?;
        out.extend_from_slice(&self.around.back)?;
        Ok(out)
    }
}
