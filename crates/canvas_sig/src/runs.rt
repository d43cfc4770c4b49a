//! Runs of bytes of a kind in a JSON text.

ghost use Rattle.std.specs.Prelude.{◌≡◌, ◌+◌, ◌<◌, ◌≤◌, true, length, drop, map};
ghost use Rattle.std.specs.List.{prefix_len};
ghost use Rattle.std.specs.Char.{is_ascii_digit};
ghost use Rattle.std.specs.Str.{IsCharBoundary};
ghost use Rattle.std.specs.Simd.Lanes.{mask_l};
ghost use Rattle.json.specs.Word.{head};
ghost use Rattle.json.specs.Lex.{class, between, lex};
ghost use Rattle.json.specs.Align.{is_blank};
ghost use Rattle.json.specs.Run.{is_stop, is_plain};
ghost use Rattle.canvas_sig.specs.steps.Plain.{IsTrimmed};

use std::simd::prelude::*;

/// Returns the first byte, or a space if the text is empty.
#[inline(always)]
pub(crate) fn first(text: &str) -> u8
    ensures { result ≡ head text.now }
{
    let bytes = text.as_bytes();
    if bytes.is_empty() { b' ' } else { bytes[0] }
}

#[inline(always)]
pub(crate) fn is_space(c: u8) -> bool
    ensures space { result ≡ is_blank (class c) }
    ensures ascii { result ≡ true → c < 128 }
{
    (c == b' ') | (c == b'\t') | (c == b'\n') | (c == b'\r')
}

#[inline(never)]
fn past_spaces<'a>(text: &'a str) -> &'a str
    ensures same { lex between result.now ≡ lex between text.now }
    ensures trimmed { IsTrimmed result.now }
{
    let mut rest = text;
    'spaces: while !rest.is_empty() && is_space(first(rest)) {
        rest = &rest[1..];
    }
    rest
}

/// Skips spaces before the next token.
#[inline(always)]
pub(crate) fn trimmed<'a>(text: &'a str) -> &'a str
    ensures same { lex between result.now ≡ lex between text.now }
    ensures trimmed { IsTrimmed result.now }
{
    if is_space(first(text)) {
        past_spaces(text)
    } else {
        text
    }
}

/// Returns a mask of the bytes that no plain text has: a quote, a backslash, or a control byte.
#[inline(always)]
fn stops(bytes: u8x16) -> u64
    ensures { result ≡ mask_l (map is_stop bytes) }
{
    (bytes.simd_eq(u8x16::splat(b'"'))
        | bytes.simd_eq(u8x16::splat(b'\\'))
        | bytes.simd_lt(u8x16::splat(0x20))).to_bitmask()
}

#[inline(never)]
fn plain_end_slowly(bytes: &[u8], from: usize) -> usize
    requires { from ≤ length bytes.now }
    ensures { result ≡ from + prefix_len is_plain (drop from bytes.now) }
{
    let mut at = from;
    'bytes: while at < bytes.len() && bytes[at] != b'"' && bytes[at] != b'\\' && bytes[at] >= 0x20 {
        at += 1;
    }
    at
}

/// Returns the number of bytes before the first that no plain text has.
#[inline(always)]
pub(crate) fn plain_len(bytes: &[u8]) -> usize
    ensures { result ≡ prefix_len is_plain bytes.now }
{
    let mut at = 0;
    'parts: while bytes.len() - at >= 16 {
        let found = stops(u8x16::from_slice(&bytes[at..]));
        if found != 0 {
            return at + found.trailing_zeros() as usize;
        }
        at += 16;
    }
    plain_end_slowly(bytes, at)
}

#[inline(always)]
pub(crate) fn digits_len(bytes: &[u8]) -> usize
    ensures { result ≡ prefix_len is_ascii_digit bytes.now }
{
    let mut count = 0;
    'digits: while count < bytes.len() && bytes[count].is_ascii_digit() {
        count += 1;
    }
    count
}

/// Returns whether numbers may contain this byte.
#[inline(always)]
fn is_of_numerals(c: u8) -> bool
    ensures { result ≡ true → c < 128 }
{
    c.is_ascii_digit() || matches!(c, b'-' | b'+' | b'.' | b'e' | b'E')
}

/// Returns the number of bytes before the first that no number has.
pub(crate) fn numeral_len(text: &str) -> usize
    ensures { IsCharBoundary text.now result }
{
    let bytes = text.as_bytes();
    let mut count = 0;
    'bytes: while count < bytes.len() && is_of_numerals(bytes[count]) {
        count += 1;
    }
    count
}
