//! Plain tokens of a JSON text (RFC 8259), each with the rest of the text: brackets, words,
//! numbers, and texts without escapes. A result of None says nothing about the text: another reader
//! has to judge it.

ghost use Rattle.std.specs.Prelude.{◌≡◌, ◌≢◌, ◌∷◌, ◌++◌, ◌≤◌, ◌<◌, ◌⊎◌, true, false, length, drop, take, nat_eq, IfSome};
ghost use Rattle.std.specs.List.{starts_with};
ghost use Rattle.json.specs.Token as spec;
ghost use Rattle.json.specs.Word.{head, ends_word};
ghost use Rattle.json.specs.Lex.{token, between, lex, begins_colon, punctuate};
ghost use Rattle.json.specs.Lex as lexer;
ghost use Rattle.json.specs.Reads.{token_of};
ghost use Rattle.json.specs.Reader.{tokens_at, Begins};
ghost use Rattle.canvas_sig.specs.declared.place.Place.TheVariants.{Fresh, AfterValue};
ghost use Rattle.canvas_sig.specs.steps.Place.{as_kit};
ghost use Rattle.canvas_sig.specs.steps.Plain.{IsTrimmed, Ends, IsSettled, IsWord, BeginsValue, Spells};

use crate::place::Place;
use crate::runs::{digits_len, first, is_space, numeral_len, plain_len, trimmed};
use json::{Token, is_number};

#[inline(always)]
pub(crate) fn closes_or_ends(text: &str) -> bool
    ensures yes { result ≡ true → Ends AfterValue text.now }
    ensures no { result ≡ false → (0 < length text.now) × (head text.now ≢ 93)
        × (head text.now ≢ 125) }
{
    let c = first(text);
    c == b']' || c == b'}' || text.is_empty()
}

/// Skips the comma that may follow a value, and returns the rest and the place. Returns None if
/// something other than a comma, a closing bracket or the end follows.
#[inline(always)]
pub(crate) fn after_value<'a>(text: &'a str) -> Option<(&'a str, Place)>
    ensures same { IfSome result (λ r. tokens_at (as_kit r.1) r.0.now
        ≡ punctuate lexer.after_value (lex between text.now)) }
    ensures settled { IfSome result (λ r. IsSettled r.1 r.0.now) }
    ensures no_colon { IfSome result (λ _. begins_colon (lex between text.now) ≡ false) }
{
    let rest = trimmed(text);
    if first(rest) == b',' {
        Some((trimmed(&rest[1..]), Place::AfterComma))
    } else if closes_or_ends(rest) {
        Some((rest, Place::AfterValue))
    } else {
        None
    }
}

/// Skips a closing bracket or brace, and returns the rest and the place.
#[inline(always)]
pub(crate) fn behind_bracket<'a>(text: &'a str) -> Option<(&'a str, Place)>
    requires { (head text.now ≡ 93) ⊎ (head text.now ≡ 125) }
    ensures same { IfSome result (λ r. tokens_at (as_kit r.1) r.0.now
        ≡ punctuate lexer.after_value (lex between (drop 1 text.now))) }
    ensures settled { IfSome result (λ r. IsSettled r.1 r.0.now) }
{
    after_value(&text[1..])
}

/// Splits off a text without escapes, and returns it and the rest after its closing quote.
#[inline(always)]
fn plain_text<'a>(text: &'a str) -> Option<(&'a str, &'a str)>
    requires { head text.now ≡ 34 }
    ensures { IfSome result (λ p. lex between text.now
        ≡ token (spec.string p.0.now) ∷ lex between p.1.now) }
{
    let inner = &text[1..];
    let bytes = inner.as_bytes();
    let count = plain_len(bytes);
    if count < bytes.len() && bytes[count] == b'"' {
        Some((&inner[..count], &inner[count + 1..]))
    } else {
        None
    }
}

/// Splits off a key without escapes, and returns it and the rest after its colon.
#[inline(always)]
pub(crate) fn plain_key<'a>(text: &'a str) -> Option<(&'a str, &'a str)>
    ensures begins { IfSome result
        (λ p. Begins text.now (spec.key p.0.now) (as_kit Fresh) p.1.now) }
    ensures trimmed { IfSome result (λ p. IsTrimmed p.1.now) }
{
    if first(text) != b'"' {
        return None;
    }
    let (key, behind) = plain_text(text)?;
    let colon = trimmed(behind);
    if first(colon) == b':' {
        Some((key, trimmed(&colon[1..])))
    } else {
        None
    }
}

#[inline(always)]
fn ends_word(text: &str) -> bool
    ensures { result ≡ true → ends_word text.now ≡ true }
{
    let c = first(text);
    matches!(c, b',' | b']' | b'}') || is_space(c)
}

/// Reads a text without escapes as a value, and returns the rest and the place.
#[inline(always)]
fn text_token<'a>(text: &'a str) -> Option<(Token<'a>, &'a str, Place)>
    requires { head text.now ≡ 34 }
    ensures begins { IfSome result
        (λ r. Begins text.now (token_of r.0) (as_kit r.2) r.1.now) }
    ensures settled { IfSome result (λ r. IsSettled r.2 r.1.now) }
    ensures opens { IfSome result (λ r. BeginsValue (token_of r.0)) }
{
    let (found, behind) = plain_text(text)?;
    let (rest, place) = after_value(behind)?;
    Some((Token::String(found), rest, place))
}

/// Splits off a number of only digits, and returns it and the rest.
#[inline(always)]
fn digits_alone<'a>(text: &'a str) -> Option<(&'a str, &'a str)>
    ensures { IfSome result (λ p. lex between text.now
        ≡ token (spec.number p.0.now) ∷ lex between p.1.now) }
{
    let count = digits_len(text.as_bytes());
    if count == 0 || (first(text) == b'0' && count > 1) {
        return None;
    }
    let behind = &text[count..];
    if ends_word(behind) {
        Some((&text[..count], behind))
    } else {
        None
    }
}

/// Splits off a number of any form, and returns it and the rest.
#[inline(never)]
fn number_of_any_form<'a>(text: &'a str) -> Option<(&'a str, &'a str)>
    ensures { IfSome result (λ p. lex between text.now
        ≡ token (spec.number p.0.now) ∷ lex between p.1.now) }
{
    let (number, behind) = text.split_at(numeral_len(text));
    if is_number(number) && ends_word(behind) {
        Some((number, behind))
    } else {
        None
    }
}

/// Splits off a number, and returns it and the rest. Most have only digits, which takes fewer
/// steps.
#[inline(always)]
fn plain_number<'a>(text: &'a str) -> Option<(&'a str, &'a str)>
    ensures { IfSome result (λ p. lex between text.now
        ≡ token (spec.number p.0.now) ∷ lex between p.1.now) }
{
    match digits_alone(text) {
        Some(found) => Some(found),
        None => number_of_any_form(text),
    }
}

#[inline(always)]
fn number_token<'a>(text: &'a str) -> Option<(Token<'a>, &'a str, Place)>
    ensures begins { IfSome result
        (λ r. Begins text.now (token_of r.0) (as_kit r.2) r.1.now) }
    ensures settled { IfSome result (λ r. IsSettled r.2 r.1.now) }
    ensures opens { IfSome result (λ r. BeginsValue (token_of r.0)) }
{
    let (number, behind) = plain_number(text)?;
    let (rest, place) = after_value(behind)?;
    Some((Token::Number(number), rest, place))
}

/// Returns whether a text begins with a name. In this form it is a single comparison if the name is
/// a constant.
#[inline(always)]
fn begins_with(text: &[u8], name: &[u8]) -> bool
    ensures { result ≡ starts_with nat_eq text.now name.now }
{
    if text.len() < name.len() {
        return text.starts_with(name);
    }
    let mut same = true;
    let mut left = name.len();
    'bytes: while left > 0 {
        left -= 1;
        same = (name[left] == text[left]) & same;
    }
    same
}

/// Returns the rest of a text after a word.
#[inline(always)]
fn behind_word<'a>(text: &'a str, name: &str) -> Option<&'a str>
    ensures { IfSome result
        (λ r. (text.now ≡ name.now ++ r.now) × (ends_word r.now ≡ true)) }
{
    if !begins_with(text.as_bytes(), name.as_bytes()) {
        return None;
    }
    let behind = &text[name.len()..];
    if ends_word(behind) {
        Some(behind)
    } else {
        None
    }
}

#[inline(always)]
fn word_token<'a>(text: &'a str, name: &str, word: Token<'a>) -> Option<(Token<'a>, &'a str, Place)>
    requires { IsWord (token_of word) × Spells name.now (token_of word) }
    ensures begins { IfSome result
        (λ r. Begins text.now (token_of r.0) (as_kit r.2) r.1.now) }
    ensures settled { IfSome result (λ r. IsSettled r.2 r.1.now) }
    ensures opens { IfSome result (λ r. BeginsValue (token_of r.0)) }
{
    let behind = behind_word(text, name)?;
    let (rest, place) = after_value(behind)?;
    Some((word, rest, place))
}

/// Reads a plain token with which a value begins, and returns the rest and the place.
#[inline(always)]
pub(crate) fn plain_token<'a>(text: &'a str) -> Option<(Token<'a>, &'a str, Place)>
    ensures begins { IfSome result
        (λ r. Begins text.now (token_of r.0) (as_kit r.2) r.1.now) }
    ensures settled { IfSome result (λ r. IsSettled r.2 r.1.now) }
    ensures opens { IfSome result (λ r. BeginsValue (token_of r.0)) }
{
    match first(text) {
        b'"' => text_token(text),
        b'{' => Some((Token::BeginObject, trimmed(&text[1..]), Place::Fresh)),
        b'[' => Some((Token::BeginArray, trimmed(&text[1..]), Place::Fresh)),
        b'n' => word_token(text, "null", Token::Null),
        b't' => word_token(text, "true", Token::Bool(true)),
        b'f' => word_token(text, "false", Token::Bool(false)),
        _ => number_token(text),
    }
}
