//! Texts, names and JSON values in short form, for notes.

ghost use Rattle.std.specs.Prelude.{◌≡◌, ◌++◌, false, IfOk, OnOk, codes, chars, flat_map};
ghost use Rattle.std.specs.Prelude.{string_bytes};
ghost use Rattle.std.specs.List.{list_all};
ghost use Rattle.std.specs.Fmt.{digits};
ghost use Rattle.canvas_check.specs.Shown.{shown_char, inside, quoted, shown_name};
ghost use Rattle.canvas_check.specs.Shown.{is_plain_byte, is_plain, is_short};

use canvas_sig::parts::Datum;
use std::alloc::{AllocError, Global};

/// The greatest number of characters of a text that are shown.
const MOST_SHOWN: usize = 40;

fn push_code(shown: &mut String, code: u32) -> Result<(), AllocError>
    ensures { OnOk result (string_bytes shown.new ≡ string_bytes shown.old
        ++ (codes "\\u{" ++ digits 16 false code ++ codes "}")) }
{
    write!(shown, "\\u{{{code:x}}}")?;
    Ok(())
}

/// Appends a character of a quoted text.
fn push_char(shown: &mut String, c: char) -> Result<(), AllocError>
    ensures { OnOk result (string_bytes shown.new ≡ string_bytes shown.old ++ shown_char c) }
{
    match c {
        '"' => shown.push_str("\\\""),
        '\\' => shown.push_str("\\\\"),
        ' '..='~' => shown.push(c),
        _ => push_code(shown, c as u32),
    }
}

fn push_chars(shown: &mut String, characters: &[char]) -> Result<(), AllocError>
    ensures { OnOk result (string_bytes shown.new
        ≡ string_bytes shown.old ++ flat_map shown_char characters.now) }
{
    for c in characters {
        push_char(shown, *c)?;
    }
    Ok(())
}

/// Appends the first characters of a text, and the closing quote.
fn push_inside(shown: &mut String, characters: &[char]) -> Result<(), AllocError>
    ensures { OnOk result (string_bytes shown.new
        ≡ string_bytes shown.old ++ inside characters.now) }
{
    if characters.len() > MOST_SHOWN {
        let (front, _) = characters.split_at(MOST_SHOWN);
        push_chars(shown, front)?;
        shown.push_str("..\"")
    } else {
        push_chars(shown, characters)?;
        shown.push_str("\"")
    }
}

fn characters_of(alloc: Global, text: &str) -> Result<Vec<char>, AllocError>
    ensures { IfOk result (λ characters. characters.items ≡ chars text.now) }
{
    text.chars().collect(alloc)
}

/// Returns a text in quotes, truncated if it is long. Everything but printable ASCII is escaped.
pub(crate) fn quoted(alloc: Global, text: &str) -> Result<String, AllocError>
    ensures { IfOk result (λ shown. string_bytes shown ≡ quoted text.now) }
{
    let characters = characters_of(alloc, text)?;
    let mut shown = String::new(alloc);
    shown.push_str("\"")?;
    push_inside(&mut shown, &characters)?;
    Ok(shown)
}

fn is_plain_byte(byte: u8) -> bool
    ensures { result ≡ is_plain_byte byte }
{
    (b'!'..=b'~').contains(&byte) && byte != b'"' && byte != b'\\'
}

fn are_plain(bytes: &[u8]) -> bool
    ensures { result ≡ list_all is_plain_byte bytes.now }
{
    bytes.iter().all(|byte| is_plain_byte(*byte))
}

fn is_short(name: &str) -> bool
    ensures { result ≡ is_short name.now }
{
    !name.is_empty() && name.len() <= MOST_SHOWN
}

fn is_plain(name: &str) -> bool
    ensures { result ≡ is_plain name.now }
{
    is_short(name) && are_plain(name.as_bytes())
}

/// Returns a name as a line shows it to a person: unchanged if it is 1 to 40 characters of
/// printable ASCII without spaces, quotes and backslashes, and otherwise quoted.
pub fn shown_name(alloc: Global, name: &str) -> Result<String, AllocError>
    ensures { IfOk result (λ shown. string_bytes shown ≡ shown_name name.now) }
{
    if is_plain(name) {
        String::from_str(alloc, name)
    } else {
        quoted(alloc, name)
    }
}

/// Returns the value of a member in short form.
pub(crate) fn shown(alloc: Global, found: Option<&Datum<'_>>) -> Result<String, AllocError> {
    match found {
        None => String::from_str(alloc, "nothing"),
        Some(value) => shown_value(alloc, value),
    }
}

/// Returns a value in short form: for a list only its length, and for an object only that it is
/// one.
pub(crate) fn shown_value(alloc: Global, value: &Datum<'_>) -> Result<String, AllocError> {
    match value {
        Datum::List(values) => {
            let count = values.len();
            format!(in alloc; "a list of {count}")
        }
        Datum::Object(_) => String::from_str(alloc, "an object"),
        Datum::Text(text) => quoted(alloc, text),
        Datum::Number(number) => number.to_string(alloc),
        Datum::Bool(flag) => flag.to_string(alloc),
        Datum::Null => String::from_str(alloc, "null"),
    }
}
