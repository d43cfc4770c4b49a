//! Tables of texts, each with the number of its refusal, 0 where there is none.

use crate::embeds;
use crate::envelopes::{BODY, HEADERS, PLAIN, PROPERTIES, code_of, embed_code};
use std::alloc::Global;

/// What the texts of a table are: one of an envelope's three, the embed of a call, or the size of
/// its chord.
#[derive(Clone, Copy)]
pub(crate) enum Spot {
    Properties,
    Headers,
    Body,
    Embed,
    Size,
}

/// The number of a text's refusal.
fn code_at(alloc: Global, spot: Spot, text: &str) -> u8 {
    match spot {
        Spot::Properties => code_of(alloc, text, HEADERS, BODY),
        Spot::Headers => code_of(alloc, PLAIN, text, "[[],{},null]"),
        Spot::Body => code_of(alloc, PROPERTIES, HEADERS, text),
        Spot::Embed => embed_code(alloc, embeds::HEADERS, text),
        Spot::Size => embeds::size_code(alloc, text),
    }
}

/// The first text of a table whose number is another, with that number.
pub(crate) fn first_wrong<'a>(
    alloc: Global,
    spot: Spot,
    rows: &'a [(u8, &'a str)],
) -> Option<(u8, &'a str)> {
    for &(code, text) in rows {
        let found = code_at(alloc, spot, text);
        if found != code {
            return Some((found, text));
        }
    }
    None
}
