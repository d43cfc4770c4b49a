//! An adapted canvas as a text. This is the only place where one is written, and it is read again.

ghost use Rattle.std.specs.Prelude.{◌≡◌, [], true, Err, Ok, IfOk, MatchResult, Some};
ghost use Rattle.canvas_sig.specs.Datum.{view};
ghost use Rattle.canvas_semantics.specs.Tree.{count};
ghost use Rattle.canvas_values.specs.CanvasText.{canvas_reading, json_of, text_reading};
ghost use Rattle.canvas_values.specs.declared.fault.SigFault.TheVariants.{Memory};
ghost use Rattle.canvas_adapt.specs.Adapting.{is_of_text, Reads, IsKeptText, IsSettledText};

use crate::adapting::{adapt_value, canvas_of_adapted, is_of_text};
use crate::changes::Changes;
use crate::counting::count_tasks;
use crate::renames::Rename;
use crate::text::line_of;
use crate::value_names::name_tasks;
use bumpalo::Bump;
use canvas_sig::parts::{Datum, canvas_of, parse};
use canvas_sig::{Canvas, MOST_BYTES, SigFault, read_canvas};
use json::Scratch;
use std::alloc::Global;

/// A canvas of the engine's profile as JSON, and the changes that were made for it.
#[derive(Drop)]
pub struct AdaptedText {
    pub text: Vec<u8>,
    pub changes: Changes,
    /// The number of its tasks.
    pub tasks: u32,
}

/// Writes a value as a text, and checks that it reads as a canvas.
fn certified(alloc: Global, value: &Datum<'_>, changes: Changes) -> Result<AdaptedText, SigFault>
    ensures { IfOk result (λ a. Reads a) }
{
    let text = line_of(alloc, value)?;
    let canvas = read_canvas(alloc, &text)?;
    Ok(AdaptedText {
        text,
        changes,
        tasks: count_tasks(&canvas),
    })
}

/// Writes a value as a text, with other names for some tasks.
fn renamed_text<'a>(
    alloc: Global,
    arena: &'a Bump,
    value: &Datum<'a>,
    renames: &'a [Rename],
    changes: Changes,
) -> Result<AdaptedText, SigFault>
    ensures { IfOk result (λ a. Reads a) }
{
    let mut value = *value;
    name_tasks(arena, &mut value, renames)?;
    certified(alloc, &value, changes)
}

/// Returns the bytes of a canvas unchanged.
fn unchanged(alloc: Global, bytes: &[u8], canvas: &Canvas) -> Result<AdaptedText, SigFault>
    requires { text_reading bytes.now ≡ Ok canvas.now }
    ensures reads { IfOk result (λ a. Reads a) }
    ensures kept { MatchResult result (IsKeptText bytes.now) (λ e. e ≡ Memory) }
{
    Ok(AdaptedText {
        text: Vec::from_slice(alloc, bytes)?,
        changes: Changes::none(),
        tasks: count_tasks(canvas),
    })
}

/// Returns the text for a value that is refused with this fault as a canvas. The adapted value has
/// to be a canvas before its tasks are renamed.
fn text_refused<'a>(
    alloc: Global,
    arena: &'a Bump,
    value: &Datum<'a>,
    renames: &'a [Rename],
    fault: SigFault,
) -> Result<AdaptedText, SigFault>
    ensures reads { IfOk result (λ a. Reads a) }
    ensures refused { is_of_text fault ≡ true → result ≡ Err fault }
{
    if is_of_text(fault) {
        return Err(fault);
    }
    let mut value = *value;
    let changes = adapt_value(alloc, arena, &mut value)?;
    if renames.is_empty() {
        return certified(alloc, &value, changes);
    }
    let _canvas = canvas_of_adapted(alloc, &value)?;
    renamed_text(alloc, arena, &value, renames, changes)
}

/// Returns the text for a canvas.
fn text_of_canvas<'a>(
    alloc: Global,
    arena: &'a Bump,
    bytes: &[u8],
    value: &Datum<'a>,
    canvas: &Canvas,
    renames: &'a [Rename],
) -> Result<AdaptedText, SigFault>
    requires { text_reading bytes.now ≡ Ok canvas.now }
    ensures reads { IfOk result (λ a. Reads a) }
    ensures kept { renames.now ≡ [] → MatchResult result (IsKeptText bytes.now) (λ e. e ≡ Memory) }
{
    if renames.is_empty() {
        return unchanged(alloc, bytes, canvas);
    }
    renamed_text(alloc, arena, value, renames, Changes::none())
}

/// Returns the text for the value of a text.
#[tactic(auto, using(crate::proofs::Settled::text_settles, crate::proofs::Settled::text_fault_settles))]
fn text_parsed<'a>(
    alloc: Global,
    arena: &'a Bump,
    bytes: &[u8],
    value: &Datum<'a>,
    renames: &'a [Rename],
) -> Result<AdaptedText, SigFault>
    requires json { json_of bytes.now ≡ Some (view value.now) }
    requires short { text_reading bytes.now ≡ canvas_reading (view value.now) }
    ensures reads { IfOk result (λ a. Reads a) }
    ensures settled { IsSettledText renames.now bytes.now (text_reading bytes.now) result }
{
    match canvas_of(alloc, value) {
        Ok(canvas) => text_of_canvas(alloc, arena, bytes, value, &canvas, renames),
        Err(fault) => text_refused(alloc, arena, value, renames, fault),
    }
}

/// Adapts a text that Celery writes to a canvas of the engine's profile as JSON, with other names
/// for some tasks. The tasks go by their numbers in file order: a task, its links, its error
/// callbacks, then what follows; a header before its body. Without other names a canvas is returned
/// unchanged, byte for byte. Any other JSON text is adapted as far as possible, and written as one
/// line. The result reads as a canvas, or is refused as reading refuses it.
pub fn adapted_text(
    alloc: Global,
    bytes: &[u8],
    renames: &[Rename],
) -> Result<AdaptedText, SigFault>
    ensures reads { IfOk result (λ a. Reads a) }
    ensures settled { IsSettledText renames.now bytes.now (text_reading bytes.now) result }
{
    if bytes.len() > MOST_BYTES {
        return Err(SigFault::TooLarge);
    }
    let arena = Bump::new(alloc);
    let mut scratch = Scratch::new(alloc);
    let value = parse(alloc, &arena, &mut scratch, bytes)?;
    text_parsed(alloc, &arena, bytes, &value, renames)
}
