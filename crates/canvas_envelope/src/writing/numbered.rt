//! The text of a line with its numbers.

ghost use Rattle.std.specs.Prelude.{◌≡◌, IfOk, None, string_bytes};
ghost use Rattle.serde_json.specs.Written.{compact_text};
ghost use Rattle.canvas_rewrite.specs.FrozenView.{p_line_view};
ghost use Rattle.canvas_envelope.specs.Wire.{line_wire};

use crate::writing::frozen::write_line;
use crate::writing::room::line_room;
use canvas_rewrite::FrozenLine;
use json::Writer;
use std::alloc::{AllocError, Global};

/// Writes a line as JSON: a frozen signature, whose options identify its tasks, groups and chords.
pub fn numbered_text(alloc: Global, line: &FrozenLine) -> Result<String, AllocError>
    ensures { IfOk result (λ text. string_bytes text
        ≡ compact_text (line_wire None (p_line_view line.now))) }
{
    let mut out = Writer::new(Vec::with_capacity(alloc, line_room(line))?);
    write_line(&mut out, line, None)?;
    Ok(String::from_utf8(out.into_inner()).unwrap())
}
