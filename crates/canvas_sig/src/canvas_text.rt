//! Reading the canvas of a text.

ghost use Rattle.std.specs.Prelude.{◌≡◌, ◌≢◌, ◌≤◌, Ok, Err, Some, length, IfErr, MatchResult};
ghost use Rattle.canvas_sig.specs.Datum.{view};
ghost use Rattle.canvas_task.specs.Text.{Text};
ghost use Rattle.canvas_values.specs.declared.fault.SigFault.TheVariants.{Memory};
ghost use Rattle.canvas_values.specs.CanvasText.{canvas_reading, json_of, most_bytes, text_reading};

use crate::datum::Datum;
use crate::parsing::parse;
use crate::reader::read_node;
use bumpalo::Bump;
use canvas_values::{Canvas, SigFault};
use json::Scratch;
use std::alloc::Global;

/// The greatest length of a text, in bytes.
pub const MOST_BYTES: usize = 1_048_576;

/// One more than the depth to which JSON is read, so that no nested signature is left out.
pub const MOST_LEVELS: u32 = 128;

/// The most bytes that the lists of a text take for each byte of it: an item has 24 bytes and is
/// spelled by at least two, and a growing list has room for up to twice its items.
const MOST_LISTS_ROOM: usize = 24;

/// The bytes that they take for each byte of a typical canvas.
const LISTS_ROOM: usize = 4;

/// The greatest length of a text for which the arena gets the room of a typical canvas: malloc
/// keeps a block of that size, and the run is then laid out in the pages that the lists have
/// touched.
const SHORT_TEXT: usize = 131_072;

/// Makes an arena for the lists of a text. It is one piece, if that allocation succeeds: only in
/// the first piece can a list grow in place, and in a later one it leaves its old memory unused.
/// Pages of the arena that no list uses are never touched.
fn new_arena(alloc: Global, length: usize) -> Bump {
    let room = if length <= SHORT_TEXT {
        LISTS_ROOM
    } else {
        MOST_LISTS_ROOM
    };
    match Bump::try_with_capacity(alloc, length.saturating_mul(room)) {
        Ok(arena) => arena,
        Err(_) => Bump::new(alloc),
    }
}

/// Reads the canvas that the JSON value of a text spells, or returns its first refusal.
pub fn canvas_of(alloc: Global, value: &Datum<'_>) -> Result<Canvas, SigFault>
    requires { (text : Text) × (json_of text ≡ Some (view value.now)) }
    ensures { MatchResult result (λ canvas. canvas_reading (view value.now) ≡ Ok canvas)
        (λ e. e ≢ Memory → canvas_reading (view value.now) ≡ Err e) }
{
    let node = read_node(alloc, value, MOST_LEVELS)?;
    Canvas::within_limits(node)
}

/// Reads the canvas that a text spells, or returns its first refusal. It allocates nothing for a
/// text that is too large.
pub fn read_canvas(alloc: Global, bytes: &[u8]) -> Result<Canvas, SigFault>
    ensures reading { MatchResult result (λ canvas. text_reading bytes.now ≡ Ok canvas)
        (λ e. e ≢ Memory → text_reading bytes.now ≡ Err e) }
    ensures memory { IfErr result (λ e. e ≡ Memory → length bytes.now ≤ most_bytes) }
{
    if bytes.len() > MOST_BYTES {
        return Err(SigFault::TooLarge);
    }
    let arena = new_arena(alloc, bytes.len());
    let mut scratch = Scratch::new(alloc);
    let value = parse(alloc, &arena, &mut scratch, bytes)?;
    canvas_of(alloc, &value)
}
