//! The page: the text before its block, the block, and the text after it.

mod escaping;
mod template;

ghost use Rattle.std.specs.Prelude.{◌≡◌, IfOk};
ghost use Rattle.canvas_report.specs.Page.{page_of};

use crate::page::escaping::push_escaped;
use crate::page::template::{HEAD, TAIL};
pub use escaping::law_of_blocks;
use std::alloc::{AllocError, Global};

/// Returns the page whose block is a JSON text.
pub fn page_text(alloc: Global, text: &[u8]) -> Result<Vec<u8>, AllocError>
    ensures { IfOk result (λ page. page.items ≡ page_of text.now) }
{
    let mut page = Vec::new(alloc);
    page.extend_from_slice(HEAD.as_bytes())?;
    push_escaped(&mut page, text)?;
    page.extend_from_slice(TAIL.as_bytes())?;
    Ok(page)
}
