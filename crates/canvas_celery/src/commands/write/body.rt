//! The body of a message: its arguments, and the embed of the call.

ghost use Rattle.std.specs.Prelude.{◌≡◌, ◌∷◌, ◌++◌, IfOk, map, reverse, codes};
ghost use Rattle.std.specs.Str.{IsUtf8};
ghost use Rattle.json.specs.Lex.{tokens};
ghost use Rattle.json.specs.Token.{begin_array, begin_object};
ghost use Rattle.serde_json.specs.Data.{array};
ghost use Rattle.serde_json.specs.Written.{compact_text};
ghost use Rattle.canvas_values.specs.Writing.{args_wire};
ghost use Rattle.canvas_values.specs.steps.Tokens.{Appends, data_tokens};
ghost use Rattle.canvas_rewrite.specs.FrozenView.{p_tasks_of, p_task_view, p_line_view};
ghost use Rattle.canvas_envelope.specs.MessageView.{place_seen, rest_seen};
ghost use Rattle.canvas_envelope.specs.Wire.{list_or_null};
ghost use Rattle.canvas_envelope.specs.steps.Parts.{is_stop};
ghost use Rattle.canvas_envelope.specs.steps.Tokens.{named_tokens};
ghost use Rattle.canvas_celery.specs.Signatures.{tasks_wire, each_wire, elements, body_at};
ghost use Rattle.canvas_celery.specs.Envelope.{embed_wire, body_wire};
ghost use Rattle.canvas_celery.specs.ExportView.{naming};

use super::frozen::{write_carried, write_reversed, write_tail_backwards, write_tasks};
use super::names::Names;
use canvas_envelope::Message;
use canvas_rewrite::{FrozenLine, FrozenTask, Place};
use canvas_task::Arg;
use canvas_values::{write_args, write_named};
use json::Writer;
use std::alloc::{AllocError, Global};

/// Writes links or error callbacks, null if there are none.
fn write_callbacks(
    out: &mut Writer,
    names: &Names<'_>,
    tasks: &[FrozenTask],
) -> Result<(), AllocError>
    ensures { Appends result out.old out.new (data_tokens (list_or_null
        (tasks_wire (naming names.now) (p_tasks_of (map p_task_view tasks.now))))) }
{
    if tasks.is_empty() {
        return out.null();
    }
    out.begin_array()?;
    write_tasks(out, names, tasks)
}

fn is_stop(line: &FrozenLine) -> bool
    ensures { result ≡ is_stop (p_line_view line.now) }
{
    match &line.tail {
        Some(_) => false,
        None => line.tasks.get().as_slice().is_empty(),
    }
}

/// Writes all elements of a line, the last first, or null if there are none.
fn write_following(out: &mut Writer, names: &Names<'_>, line: &FrozenLine) -> Result<(), AllocError>
    ensures { Appends result out.old out.new (data_tokens (list_or_null
        (each_wire (reverse (elements (naming names.now) (p_line_view line.now)))))) }
{
    if is_stop(line) {
        return out.null();
    }
    out.begin_array()?;
    write_tail_backwards(out, names, line)?;
    write_reversed(out, names, line.tasks.get())?;
    out.end_array()
}

/// Writes the rest of a message's line, the last element first.
fn write_rest(
    out: &mut Writer,
    names: &Names<'_>,
    rest: &Option<FrozenLine>,
) -> Result<(), AllocError>
    ensures { Appends result out.old out.new (data_tokens (list_or_null
        (each_wire (reverse (elements (naming names.now) (rest_seen rest.now)))))) }
{
    match rest {
        Some(line) => write_following(out, names, line),
        None => out.null(),
    }
}

/// Writes the body that a message's place carries, or null.
fn write_chord(out: &mut Writer, names: &Names<'_>, place: &Option<Place>) -> Result<(), AllocError>
    ensures { Appends result out.old out.new
        (data_tokens (body_at (naming names.now) (place_seen place.now))) }
{
    match place {
        Some(place) => match &place.chord {
            Some(carried) => write_carried(out, names, &carried.body),
            None => out.null(),
        },
        None => out.null(),
    }
}

/// Writes the opening brace, and the members `callbacks` and `chain`.
fn write_callbacks_and_chain(
    out: &mut Writer,
    names: &Names<'_>,
    links: &[FrozenTask],
    rest: &Option<FrozenLine>,
) -> Result<(), AllocError>
    ensures { Appends result out.old out.new (begin_object
        ∷ (named_tokens (codes "callbacks") (list_or_null
        (tasks_wire (naming names.now) (p_tasks_of (map p_task_view links.now))))
        ++ named_tokens (codes "chain") (list_or_null
        (each_wire (reverse (elements (naming names.now) (rest_seen rest.now))))))) }
{
    out.begin_object()?;
    out.key("callbacks")?;
    write_callbacks(out, names, links)?;
    out.key("chain")?;
    write_rest(out, names, rest)
}

/// Writes the members `chord` and `errbacks`.
fn write_chord_and_errbacks(
    out: &mut Writer,
    names: &Names<'_>,
    place: &Option<Place>,
    errbacks: &[FrozenTask],
) -> Result<(), AllocError>
    ensures { Appends result out.old out.new
        (named_tokens (codes "chord") (body_at (naming names.now) (place_seen place.now))
        ++ named_tokens (codes "errbacks") (list_or_null
        (tasks_wire (naming names.now) (p_tasks_of (map p_task_view errbacks.now))))) }
{
    out.key("chord")?;
    write_chord(out, names, place)?;
    out.key("errbacks")?;
    write_callbacks(out, names, errbacks)
}

fn write_embed(out: &mut Writer, names: &Names<'_>, message: &Message) -> Result<(), AllocError>
    ensures { Appends result out.old out.new
        (data_tokens (embed_wire (naming names.now) message.now)) }
{
    write_callbacks_and_chain(out, names, message.links.get(), &message.rest)?;
    write_chord_and_errbacks(out, names, &message.place, message.errbacks.get())?;
    out.end_object()
}

fn write_arguments(out: &mut Writer, args: &[Arg]) -> Result<(), AllocError>
    ensures { Appends result out.old out.new
        (begin_array ∷ data_tokens (array (args_wire args.now))) }
{
    out.begin_array()?;
    out.begin_array()?;
    write_args(out, args)
}

fn write_body(out: &mut Writer, names: &Names<'_>, message: &Message) -> Result<(), AllocError>
    ensures { Appends result out.old out.new
        (data_tokens (body_wire (naming names.now) message.now)) }
{
    write_arguments(out, message.args.get())?;
    out.begin_object()?;
    write_named(out, message.kwargs.get())?;
    write_embed(out, names, message)?;
    out.end_array()
}

/// Returns the text of the body.
pub(crate) fn body_of(
    alloc: Global,
    names: &Names<'_>,
    message: &Message,
) -> Result<Vec<u8>, AllocError>
    ensures text { IfOk result
        (λ text. text.items ≡ compact_text (body_wire (naming names.now) message.now)) }
    ensures tokens { IfOk result
        (λ text. tokens text.items ≡ data_tokens (body_wire (naming names.now) message.now)) }
    ensures utf8 { IfOk result (λ text. IsUtf8 text.items) }
{
    let mut out = Writer::new(Vec::new(alloc));
    write_body(&mut out, names, message)?;
    Ok(out.into_inner())
}
