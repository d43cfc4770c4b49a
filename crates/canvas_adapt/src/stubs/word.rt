//! The word of a stub, which encodes its action.

ghost use Rattle.std.specs.Prelude.{◌≡◌, true, Err, MatchOption};
ghost use Rattle.std.specs.Char.{is_ascii_digit};
ghost use Rattle.std.specs.List.{list_all};
ghost use Rattle.std.specs.Str.Parse.{signed_digits_value};
ghost use Rattle.canvas_adapt.specs.declared.stubs.fault.StubFault.TheVariants.{BadNumber};
ghost use Rattle.canvas_adapt.specs.StubTexts.{is_number, are_digits, is_number, known_word, no_word, number_reading, raise_word, ranged, word_reading};

use crate::{Does, StubFault};
use canvas_task::{Builtin, Kind, in_range};

/// Returns the action of a word that names an exception.
fn exception(word: &str) -> Option<Does>
    ensures { result ≡ raise_word word.now }
{
    match word {
        "raise:TypeError" => Some(Does::Raises(Kind::BadCall)),
        "raise:ZeroDivisionError" => Some(Does::Raises(Kind::ZeroDivision)),
        "raise:OverflowError" => Some(Does::Raises(Kind::Overflow)),
        "raise:NotRegistered" => Some(Does::Raises(Kind::NotRegistered)),
        _ => None,
    }
}

/// Returns the action of a word that names a built-in task or an exception.
fn known_word(word: &str) -> Option<Does>
    ensures { result ≡ known_word word.now }
{
    match Builtin::of_word(word) {
        Some(task) => Some(Does::SameAs(task)),
        None => exception(word),
    }
}

fn all_digits(bytes: &[u8]) -> bool
    ensures { result ≡ list_all is_ascii_digit bytes.now }
{
    bytes.iter().all(|byte| byte.is_ascii_digit())
}

fn are_digits(bytes: &[u8]) -> bool
    ensures { result ≡ are_digits bytes.now }
{
    !bytes.is_empty() && all_digits(bytes)
}

/// Returns whether a word is a whole number: digits, optionally after a sign.
fn is_number(word: &str) -> bool
    ensures { result ≡ is_number word.now }
{
    match word.as_bytes() {
        [b'-' | b'+', digits @ ..] => are_digits(digits),
        digits => are_digits(digits),
    }
}

/// Returns why a word that is neither known nor a number is refused.
fn no_word(word: &str) -> StubFault
    ensures { result ≡ no_word word.now }
{
    if word.as_bytes().starts_with(b"raise:") {
        StubFault::BadKind
    } else {
        StubFault::BadWord
    }
}

/// Returns the number of a word, if it fits in 64 bits.
fn value_of(word: &str) -> Option<i64>
    requires { is_number word.now ≡ true }
    ensures { MatchOption result (ranged (signed_digits_value 10 word.now) ≡ Err BadNumber)
        (λ n. n ≡ signed_digits_value 10 word.now) }
{
    word.parse().ok()
}

/// Returns the action that answers a number, if a task may answer it.
fn ranged(number: i64) -> Result<Does, StubFault>
    ensures { result ≡ ranged number }
{
    if in_range(number) {
        Ok(Does::Gives(number))
    } else {
        Err(StubFault::BadNumber)
    }
}

/// Returns the action of a word that is a number, or why it is refused.
fn read_number(word: &str) -> Result<Does, StubFault>
    ensures { result ≡ number_reading word.now }
{
    if !is_number(word) {
        return Err(no_word(word));
    }
    match value_of(word) {
        Some(number) => ranged(number),
        None => Err(StubFault::BadNumber),
    }
}

/// Returns the action of a word, or why it is refused.
pub(crate) fn read_word(word: &str) -> Result<Does, StubFault>
    ensures { result ≡ word_reading word.now }
{
    match known_word(word) {
        Some(does) => Ok(does),
        None => read_number(word),
    }
}
