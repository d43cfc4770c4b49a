//! Reading a text once, as a canvas with its signatures or a refusal with its place.

ghost use Rattle.std.specs.Prelude.{◌≡◌, Some, IfOk};
ghost use Rattle.canvas_sig.specs.Datum.{view};
ghost use Rattle.canvas_values.specs.CanvasText.{json_of, json_canvas, text_reading};
ghost use Rattle.canvas_values.specs.CanvasText.{canvas_reading};
ghost use Rattle.canvas_check.specs.Reading.{IsReading};

use crate::finding::{Finding, find_in, find_no_json, too_large};
use crate::signature::{Signature, signatures_in};
use bumpalo::Bump;
use canvas_sig::parts::{Datum, MOST_LEVELS, canvas_of, parse};
use canvas_sig::{Canvas, MOST_BYTES, SigFault};
use canvas_task::Memory;
use json::Scratch;
use std::alloc::Global;

/// The result of reading a text.
#[derive(Drop)]
pub enum Reading {
    /// A canvas, and its signatures in file order: a signature before those nested in it, a header
    /// before its body, and links before error callbacks.
    Canvas {
        canvas: Canvas,
        signatures: Vec<Signature>,
    },
    /// No canvas: the refusal and its place.
    Refused(Finding),
}

/// Reads a text from its JSON value.
fn read_value(alloc: Global, bytes: &[u8], value: &Datum<'_>) -> Result<Reading, Memory>
    requires { json_of bytes.now ≡ Some (view value.now) }
    ensures { text_reading bytes.now ≡ canvas_reading (view value.now)
        → IfOk result (IsReading bytes.now) }
{
    match canvas_of(alloc, value) {
        Ok(canvas) => Ok(Reading::Canvas {
            canvas,
            signatures: signatures_in(alloc, value, MOST_LEVELS)?,
        }),
        Err(SigFault::Memory) => Err(Memory),
        Err(SigFault::TooLarge) => Ok(Reading::Refused(too_large(alloc)?)),
        Err(fault) => Ok(Reading::Refused(find_in(alloc, value, fault, MOST_LEVELS)?)),
    }
}

fn read_parsed<'a>(
    alloc: Global,
    arena: &'a Bump,
    scratch: &'a mut Scratch,
    bytes: &'a [u8],
) -> Result<Reading, Memory>
    ensures { text_reading bytes.entry.now ≡ json_canvas (json_of bytes.entry.now)
        → IfOk result (IsReading bytes.entry.now) }
{
    match parse(alloc, arena, scratch, bytes) {
        Ok(value) => read_value(alloc, bytes, &value),
        Err(SigFault::Memory) => Err(Memory),
        Err(_) => Ok(Reading::Refused(find_no_json(alloc, bytes, SigFault::NotJson)?)),
    }
}

/// Reads the canvas that a text spells, with its signatures, or the refusal and its place. The text
/// is parsed once; if it is not JSON, it is parsed again to find the place.
pub fn read(alloc: Global, bytes: &[u8]) -> Result<Reading, Memory>
    ensures { IfOk result (IsReading bytes.now) }
{
    if bytes.len() > MOST_BYTES {
        return Ok(Reading::Refused(too_large(alloc)?));
    }
    let arena = Bump::new(alloc);
    let mut scratch = Scratch::new(alloc);
    read_parsed(alloc, &arena, &mut scratch, bytes)
}
