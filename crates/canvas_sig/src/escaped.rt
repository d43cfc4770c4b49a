//! Texts of JSON that contain escapes (RFC 8259, section 7).

ghost use Rattle.std.specs.Prelude.{◌≡◌, ◌∷◌, List, drop, IfOk, IfSome};
ghost use Rattle.std.specs.Str.{IsCharBoundary};
ghost use Rattle.json.specs.Token as spec;
ghost use Rattle.json.specs.Word.{head};
ghost use Rattle.json.specs.Lex.{between, in_string, lex, tokens};
ghost use Rattle.json.specs.Reads.{token_of};
ghost use Rattle.json.specs.Reader.{Begins};
ghost use Rattle.canvas_sig.specs.steps.Place.{as_kit};
ghost use Rattle.canvas_sig.specs.steps.Plain.{IsSettled, BeginsValue, IsQuoted};

use crate::place::Place;
use crate::plain::after_value;
use crate::runs::{first, plain_len};
use bumpalo::Bump;
use json::{Reader, Scratch, Token};
use std::alloc::AllocError;

/// Returns the length of a text with its quotes, in bytes. Returns None if no quote closes it.
fn quoted_len(text: &str) -> Option<usize>
    requires { head text.now ≡ 34 }
    ensures boundary { IfSome result (λ n. IsCharBoundary text.now n) }
    ensures passed { IfSome result
        (λ n. lex in_string (drop 1 text.now) ≡ lex between (drop n text.now)) }
{
    let bytes = text.as_bytes();
    let mut at = 1;
    'parts: while at < bytes.len() {
        at += plain_len(&bytes[at..]);
        match bytes.get(at) {
            Some(b'"') => return Some(at + 1),
            Some(b'\\') => at += 2,
            _ => return None,
        }
    }
    None
}

/// Splits a text into a quoted text at its start and the rest.
fn split_quoted<'a>(text: &'a str) -> Option<(&'a str, &'a str)>
    ensures { IfSome result (λ p. IsQuoted text.now p.0.now p.1.now) }
{
    if first(text) != b'"' {
        return None;
    }
    let len = quoted_len(text)?;
    Some(text.split_at(len))
}

/// Returns the text that a quoted text encodes. Returns None if it is not a text of JSON.
fn unescaped<'a>(
    arena: &'a Bump,
    scratch: &mut Scratch,
    quoted: &str,
) -> Result<Option<&'a str>, AllocError>
    ensures { IfOk result (λ o. IfSome o
        (λ s. (ts : List spec.Token) × (tokens quoted.now ≡ spec.string s.now ∷ ts))) }
{
    let mut reader = Reader::new(quoted, scratch)?;
    match reader.next() {
        Some(Token::String(found)) => Ok(Some(arena.try_alloc_str(found)?)),
        _ => Ok(None),
    }
}

/// Reads a text with escapes as a value, and returns the rest and the place after it. Returns None
/// if no such text comes next. The text is copied into the arena, so that the scratch can be
/// borrowed again.
pub(crate) fn escaped_token<'a>(
    arena: &'a Bump,
    scratch: &mut Scratch,
    text: &'a str,
) -> Result<Option<(Token<'a>, &'a str, Place)>, AllocError>
    ensures begins { IfOk result (λ o. IfSome o
        (λ r. Begins text.now (token_of r.0) (as_kit r.2) r.1.now)) }
    ensures settled { IfOk result (λ o. IfSome o (λ r. IsSettled r.2 r.1.now)) }
    ensures opens { IfOk result (λ o. IfSome o (λ r. BeginsValue (token_of r.0))) }
{
    let Some((quoted, behind)) = split_quoted(text) else {
        return Ok(None);
    };
    let Some((rest, place)) = after_value(behind) else {
        return Ok(None);
    };
    match unescaped(arena, scratch, quoted)? {
        Some(found) => Ok(Some((Token::String(found), rest, place))),
        None => Ok(None),
    }
}
