//! Stubs that raise an exception of any class, as `shop.ship=raise:OutOfStock`. Outcomes have only
//! four kinds of exception, so a caller replaces another class by one of these with `plain_text`,
//! and shows the class itself in the results.

ghost use Rattle.std.specs.Prelude.{◌≡◌, ◌++◌, IfOk, codes, option_map, string_bytes};
ghost use Rattle.std.specs.List.{list_all};
ghost use Rattle.canvas_adapt.specs.Raising.{is_class, is_class_byte, is_known_class, other_class, other_error, plain_text, raised_in};

use crate::stubs::reading::split;
use std::alloc::{AllocError, Global};

fn is_class_byte(byte: u8) -> bool
    ensures { result ≡ is_class_byte byte }
{
    byte.is_ascii_alphanumeric() || byte == b'_'
}

fn are_class_bytes(bytes: &[u8]) -> bool
    ensures { result ≡ list_all is_class_byte bytes.now }
{
    bytes.iter().all(|byte| is_class_byte(*byte))
}

/// Returns whether a text is the name of a class.
fn is_class(text: &str) -> bool
    ensures { result ≡ is_class text.now }
{
    let bytes = text.as_bytes();
    !bytes.is_empty() && !bytes[0].is_ascii_digit() && are_class_bytes(bytes)
}

/// Returns whether the class is one of the four that built-in tasks raise, or one of Celery's
/// exceptions that are no failure of a task.
fn is_known(class: &str) -> bool
    ensures { result ≡ is_known_class class.now }
{
    class == "TypeError"
        || class == "ZeroDivisionError"
        || class == "OverflowError"
        || class == "NotRegistered"
        || class == "Retry"
        || class == "Ignore"
        || class == "Reject"
}

/// Returns the part after `raise:`.
fn raised_in(word: &str) -> Option<&str>
    ensures { option_map (λ c. c.now) result ≡ raised_in word.now }
{
    word.strip_prefix("raise:")
}

/// Returns the class if it is a name of a class and not a known one.
fn other_class(class: &str) -> Option<&str>
    ensures { option_map (λ c. c.now) result ≡ other_class class.now }
{
    if is_class(class) && !is_known(class) {
        Some(class)
    } else {
        None
    }
}

/// Returns the name and the class of a stub's text that raises an exception of a class other than
/// the four known ones.
pub fn other_error(text: &str) -> Option<(&str, &str)>
    ensures { option_map (λ e. (e.0.now, e.1.now)) result ≡ other_error text.now }
{
    let (name, word) = split(text)?;
    let class = other_class(raised_in(word)?)?;
    Some((name, class))
}

/// Makes the text of a stub that raises one of the four exceptions.
fn raising(alloc: Global, name: &str, class: &str) -> Result<String, AllocError>
    ensures { IfOk result
        (λ t. string_bytes t ≡ name.now ++ codes "=raise:" ++ class.now) }
{
    let mut text = String::from_str(alloc, name)?;
    text.push_str("=raise:")?;
    text.push_str(class)?;
    Ok(text)
}

/// Clones a stub's text, and replaces a class other than the four by the one of them that is given.
pub fn plain_text(alloc: Global, text: &str, stands: &str) -> Result<String, AllocError>
    ensures { IfOk result (λ t. string_bytes t ≡ plain_text stands.now text.now) }
{
    match other_error(text) {
        Some((name, _class)) => raising(alloc, name, stands),
        None => String::from_str(alloc, text),
    }
}
