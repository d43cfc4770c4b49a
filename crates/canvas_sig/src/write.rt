//! Writing signatures as JSON.

ghost use Rattle.std.specs.Prelude.{◌≡◌, ◌≤◌, Ok, IfOk, length, string_bytes};
ghost use Rattle.serde_json.specs.Written.{compact_text};
ghost use Rattle.canvas_values.specs.CanvasText.{most_bytes, text_reading};
ghost use Rattle.canvas_values.specs.Writing.{tree_wire};
ghost use Rattle.canvas_values.specs.SignatureView.{view};

mod value;

use canvas_task::Memory;
use canvas_values::{Canvas, Node, write_tree};
use json::Writer;
use std::alloc::Global;
pub use value::write_arg;

/// Writes a signature as compact JSON.
pub fn write_node(alloc: Global, node: &Node) -> Result<String, Memory>
    ensures { IfOk result (λ text. string_bytes text ≡ compact_text (tree_wire (view node.now))) }
{
    let mut out = Writer::new(Vec::new(alloc));
    write_tree(&mut out, node)?;
    Ok(String::from_utf8(out.into_inner()).unwrap())
}

/// Writes a canvas as compact JSON. If the text isn't too large to be read, it reads back as the
/// canvas.
pub fn write_canvas(alloc: Global, canvas: &Canvas) -> Result<String, Memory>
    ensures text { IfOk result (λ text. string_bytes text ≡ compact_text (tree_wire canvas.now)) }
    ensures reads_back { IfOk result (λ text. length (string_bytes text) ≤ most_bytes
        → text_reading (string_bytes text) ≡ Ok canvas.now) }
{
    write_node(alloc, canvas.node())
}
