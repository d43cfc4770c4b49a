//! JSON in a page: the bytes that HTML would read as its own are written by their numbers.

ghost use Rattle.std.specs.Prelude.{◌≡◌, ◌≢◌, ◌++◌, OnOk, ℕ};
ghost use Rattle.std.specs.List.{All};
ghost use Rattle.canvas_report.specs.Page.{escaped, escaped_byte};
ghost use Rattle.canvas_task.specs.Text.{Text};

use std::alloc::AllocError;

fn push_byte(page: &mut Vec<u8>, byte: u8) -> Result<(), AllocError>
    ensures { OnOk result (page.new.items ≡ page.old.items ++ escaped_byte byte) }
{
    match byte {
        b'<' => page.extend_from_slice(b"\\u003c"),
        b'>' => page.extend_from_slice(b"\\u003e"),
        b'&' => page.extend_from_slice(b"\\u0026"),
        _ => Ok(page.push(byte)?),
    }
}

/// Appends a text as a page has it.
pub(crate) fn push_escaped(page: &mut Vec<u8>, text: &[u8]) -> Result<(), AllocError>
    ensures { OnOk result (page.new.items ≡ page.old.items ++ escaped text.now) }
{
    for byte in text {
        push_byte(page, *byte)?;
    }
    Ok(())
}

/// States that no text that a page has as its block contains a byte that HTML would read as its
/// own, `<`, `>` or `&`, so none of them ends the block.
pub fn law_of_blocks()
    ensures { (text : Text)
        → All (λ b. (b ≢ 60) × (b ≢ 62) × (b ≢ 38)) (escaped text) }
{}
