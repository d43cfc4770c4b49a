//! Prints texts for a reader: what isn't printable ASCII is escaped as in JSON.
ghost use Rattle.std.specs.Prelude.{◌≡◌, ◌<◌, ◌≤◌, ◌++◌, OnOk, IsTrue, MatchBool, nat_lt};
ghost use Rattle.std.specs.List.{list_all};
ghost use Rattle.std.specs.Char.{digit_char};
ghost use Rattle.canvas_answer.specs.Printing.{escaped, is_line_byte, unit_text, printed_char, printed};
ghost use Rattle.std.specs.Io.KnownBytes.{Appends};

use arrayvec::{ArrayVec, CapacityError};
use std::io::{self, ErrorKind, Write};

/// How many bytes are written at a time.
const ROOM: usize = 4096;

/// The most bytes that a printed character has.
const MOST_PRINTED: usize = 12;

/// Returns a hexadecimal digit.
fn digit(value: u32) -> u8
    requires { value < 16 }
    ensures { result ≡ digit_char value }
{
    if value < 10 {
        b'0' + value as u8
    } else {
        b'a' + (value as u8 - 10)
    }
}

/// Returns `\u` and four hexadecimal digits.
fn unit_bytes(unit: u32) -> [u8; 6]
    requires { unit < 65536 }
    ensures { result ≡ unit_text unit }
{
    [
        b'\\',
        b'u',
        digit(unit / 4096),
        digit(unit / 256 % 16),
        digit(unit / 16 % 16),
        digit(unit % 16),
    ]
}

/// Returns two such units.
fn pair_bytes(high: u32, low: u32) -> [u8; 12]
    requires high { high < 65536 }
    requires low { low < 65536 }
    ensures { result ≡ unit_text high ++ unit_text low }
{
    [
        b'\\',
        b'u',
        digit(high / 4096),
        digit(high / 256 % 16),
        digit(high / 16 % 16),
        digit(high % 16),
        b'\\',
        b'u',
        digit(low / 4096),
        digit(low / 256 % 16),
        digit(low / 16 % 16),
        digit(low % 16),
    ]
}

/// Returns whether a character is printable ASCII or ends a line.
fn is_line_code(code: u32) -> bool
    ensures value { result ≡ is_line_byte code }
    ensures small { IsTrue result → code < 128 }
{
    code == 10 || code >= 32 && code <= 126
}

fn is_one_unit(code: u32) -> bool
    ensures value { result ≡ nat_lt code 65536 }
    ensures unit { MatchBool result (code < 65536) (65536 ≤ code) }
{
    code < 0x1_0000
}

/// Appends a character that is escaped.
fn put_escaped(kept: &mut ArrayVec<u8, ROOM>, code: u32) -> Result<(), CapacityError>
    requires { code < 0x11_0000 }
    ensures { OnOk result (kept.new.items ≡ kept.old.items ++ escaped code) }
{
    if is_one_unit(code) {
        kept.try_extend_from_slice(&unit_bytes(code))
    } else {
        kept.try_extend_from_slice(&pair_bytes(0xD7C0 + code / 1024, 0xDC00 + code % 1024))
    }
}

/// Appends a character as it is printed.
fn put_char(kept: &mut ArrayVec<u8, ROOM>, c: char) -> Result<(), CapacityError>
    ensures { OnOk result (kept.new.items ≡ kept.old.items ++ printed_char c) }
{
    let code = c as u32;
    if is_line_code(code) {
        kept.try_extend_from_slice(&[code as u8])
    } else {
        put_escaped(kept, code)
    }
}

/// Writes a text as it is printed, some thousand bytes at a time.
fn write_escaped<W: Write>(out: &mut W, text: &str) -> io::Result<()>
    ensures { OnOk result (Appends (W.contents out.old) (W.contents out.new) (printed text.now)) }
{
    let mut kept: ArrayVec<u8, ROOM> = ArrayVec::new();
    for c in text.chars() {
        if kept.len() > ROOM - MOST_PRINTED {
            out.write_all(kept.as_slice())?;
            kept.clear();
        }
        if put_char(&mut kept, c).is_err() {
            return Err(io::Error::from(ErrorKind::Other));
        }
    }
    out.write_all(kept.as_slice())
}

fn is_line_byte(byte: u8) -> bool
    ensures { result ≡ is_line_byte byte }
{
    byte == b'\n' || byte >= b' ' && byte <= b'~'
}

/// Returns whether each byte is printable ASCII or ends a line.
fn are_lines(bytes: &[u8]) -> bool
    ensures { result ≡ list_all is_line_byte bytes.now }
{
    // Without an early end this is compiled to a few instructions for sixteen bytes.
    let mut are = true;
    for byte in bytes {
        are &= is_line_byte(*byte);
    }
    are
}

/// Writes lines so that only printable ASCII and line feeds reach the reader.
pub fn write_lines<W: Write>(out: &mut W, bytes: &[u8]) -> io::Result<()>
    ensures { OnOk result (Appends (W.contents out.old) (W.contents out.new) (printed bytes.now)) }
{
    if are_lines(bytes) {
        return out.write_all(bytes);
    }
    match str::from_utf8(bytes) {
        Ok(text) => write_escaped(out, text),
        Err(_) => Err(io::Error::from(ErrorKind::InvalidData)),
    }
}
