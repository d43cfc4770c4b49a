//! Adapting a text to a canvas of the engine's profile.
//!
//! The changes follow Celery's code and have no contract: they are tested by comparison with
//! Celery. Proved are only the ends: the result is a canvas by its type, and a canvas of the
//! profile is unchanged.

ghost use Rattle.std.specs.Prelude.{◌≡◌, ◌≤◌, true, length, Err, IfErr, Some};
ghost use Rattle.canvas_sig.specs.Datum.{view};
ghost use Rattle.canvas_task.specs.Text.{Text};
ghost use Rattle.canvas_values.specs.CanvasText.{canvas_reading, json_of, most_bytes, text_reading};
ghost use Rattle.canvas_values.specs.declared.fault.SigFault.TheVariants.{Memory};
ghost use Rattle.canvas_adapt.specs.Adapting.{is_of_text, IsSettled};

use crate::changes::Changes;
use crate::context::Context;
use crate::inherited::Inherited;
use crate::text::{is_surely_short, line_of};
use bumpalo::Bump;
use canvas_sig::parts::{Datum, MOST_LEVELS, canvas_of, parse, read_node};
use canvas_sig::{Canvas, MOST_BYTES, SigFault, read_canvas};
use json::Scratch;
use std::alloc::Global;

/// A canvas of the engine's profile, and the changes that were made for it.
#[derive(Drop)]
pub struct Adapted {
    pub canvas: Canvas,
    pub changes: Changes,
}

/// Returns whether a refusal is one of a whole text and never of a signature.
pub(crate) fn is_of_text(fault: SigFault) -> bool
    ensures { result ≡ is_of_text fault }
{
    match fault {
        SigFault::TooLarge => true,
        SigFault::NotJson => true,
        SigFault::Memory => true,
        _ => false,
    }
}

/// Adapts a value in place, as far as possible, and returns the changes.
pub(crate) fn adapt_value<'a>(
    alloc: Global,
    arena: &'a Bump,
    value: &mut Datum<'a>,
) -> Result<Changes, SigFault> {
    let mut work = Context::new(alloc, arena);
    work.thaw(value, MOST_LEVELS)?;
    work.split_callbacks(value, MOST_LEVELS)?;
    work.adapt_node(value, &Inherited::none(), MOST_LEVELS)?;
    Ok(work.changes)
}

/// Makes the canvas of an adapted value. A value whose text may be too large, or nested too deep,
/// is written and read again, so that it is refused as its text is.
pub(crate) fn canvas_of_adapted(alloc: Global, value: &Datum<'_>) -> Result<Canvas, SigFault> {
    if is_surely_short(value) {
        let node = read_node(alloc, value, MOST_LEVELS)?;
        return Canvas::of(alloc, node);
    }
    let text = line_of(alloc, value)?;
    read_canvas(alloc, &text)
}

/// Adapts a value that is refused with this fault as a canvas.
fn adapt_refused<'a>(
    alloc: Global,
    arena: &'a Bump,
    value: &Datum<'a>,
    fault: SigFault,
) -> Result<Adapted, SigFault>
    ensures { is_of_text fault ≡ true → result ≡ Err fault }
{
    if is_of_text(fault) {
        return Err(fault);
    }
    let mut value = *value;
    let changes = adapt_value(alloc, arena, &mut value)?;
    let canvas = canvas_of_adapted(alloc, &value)?;
    Ok(Adapted { canvas, changes })
}

/// Adapts the value of a text, unless it is a canvas.
#[tactic(auto, using(crate::proofs::Settled::canvas_settles, crate::proofs::Settled::fault_settles))]
fn adapt_parsed<'a>(alloc: Global, arena: &'a Bump, value: &Datum<'a>) -> Result<Adapted, SigFault>
    requires { (text : Text) × (json_of text ≡ Some (view value.now)) }
    ensures { IsSettled (canvas_reading (view value.now)) result }
{
    match canvas_of(alloc, value) {
        Ok(canvas) => Ok(Adapted {
            canvas,
            changes: Changes::none(),
        }),
        Err(fault) => adapt_refused(alloc, arena, value, fault),
    }
}

/// Adapts a text that Celery writes to a canvas of the engine's profile. The text is read once. A
/// canvas is returned unchanged; any other JSON text is adapted as far as possible, and the result
/// is a canvas, or is refused as its text would be.
pub fn adapt(alloc: Global, bytes: &[u8]) -> Result<Adapted, SigFault>
    ensures settled { IsSettled (text_reading bytes.now) result }
    ensures memory { IfErr result (λ e. e ≡ Memory → length bytes.now ≤ most_bytes) }
{
    if bytes.len() > MOST_BYTES {
        return Err(SigFault::TooLarge);
    }
    let arena = Bump::new(alloc);
    let mut scratch = Scratch::new(alloc);
    let value = parse(alloc, &arena, &mut scratch, bytes)?;
    adapt_parsed(alloc, &arena, &value)
}
