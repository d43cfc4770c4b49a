//! Values in their places of a JSON text.
//!
//! Values replace tokens of a body that was written, since the definitions of signatures have no
//! text for a float, and the engine's arguments are none of these values.

ghost use Rattle.std.specs.Prelude.{◌≡◌, ◌<◌, ◌^◌, ◌∷◌, IfOk, IfSome, List, OnOk, Some, decimal, map};
ghost use Rattle.json.specs.Lex.{tokens};
ghost use Rattle.json.specs.Print.{print, IsPrintable};
ghost use Rattle.json.specs.Reads.{token_of};
ghost use Rattle.json.specs.Token.{Token as SpecToken};
ghost use Rattle.json.specs.Tree.{HasNumbers};
ghost use Rattle.json.specs.Value.{value_view};
ghost use Rattle.canvas_celery.specs.Places.{is_marked, value_at};
ghost use Rattle.canvas_celery.specs.steps.Filling.{AreGood, Fills, HaveNumbers, text_filled, token_filled, tokens_filled};

use crate::commands::FillFault;
use itoa::Buffer;
use json::{Reader, Scratch, Token, Value, Writer};
use std::alloc::Global;

/// Returns whether a text begins with `~`.
pub(crate) fn is_marked(text: &str) -> bool
    ensures { result ≡ is_marked text.now }
{
    matches!(text.as_bytes(), [b'~', ..])
}

/// Parses the number of a place, as it is written: `~0` and not `~00`.
fn number_of(text: &str) -> Option<usize>
    ensures { IfSome result (λ k. (k < 2 ^ 64) × (text.now ≡ 126 ∷ decimal k)) }
{
    let digits = text.strip_prefix("~")?;
    let number: usize = digits.parse().ok()?;
    let mut buffer = Buffer::new();
    (digits == buffer.format(number)).then_some(number)
}

/// Returns the value of a place.
fn value_of<'a, 'v>(text: &str, values: &'a [Value<'v>]) -> Option<&'a Value<'v>>
    requires { HaveNumbers (map value_view values.now) }
    ensures value { IfSome result
        (λ v. value_at (map value_view values.entry.now) text.now ≡ Some (value_view v.now)) }
    ensures numbers { IfSome result (λ v. HasNumbers (value_view v.now)) }
{
    let number = number_of(text)?;
    if number < values.len() {
        Some(&values[number])
    } else {
        None
    }
}

/// Writes a text as it is, or the value of a place.
fn write_text(
    alloc: Global,
    out: &mut Writer,
    text: &str,
    values: &[Value<'_>],
) -> Result<(), FillFault>
    requires { HaveNumbers (map value_view values.now) }
    ensures { OnOk result
        (Fills (text_filled (map value_view values.now) text.now) out.old out.new) }
{
    if !is_marked(text) {
        return Ok(out.string(text)?);
    }
    match value_of(text, values) {
        Some(value) => Ok(out.value(value)?),
        None => Err(FillFault::of_text(alloc, text, values.len())),
    }
}

fn write_token(
    alloc: Global,
    out: &mut Writer,
    token: Token<'_>,
    values: &[Value<'_>],
) -> Result<(), FillFault>
    requires numbers { HaveNumbers (map value_view values.now) }
    requires printable { IsPrintable (token_of token) }
    ensures { OnOk result
        (Fills (token_filled (map value_view values.now) (token_of token.entry)) out.old
        out.new) }
{
    match token {
        Token::String(text) => write_text(alloc, out, text, values),
        other => Ok(out.token(other)?),
    }
}

/// Returns a JSON text with a value in each place.
pub(crate) fn filled_text(
    alloc: Global,
    text: &str,
    values: &[Value<'_>],
) -> Result<Vec<u8>, FillFault>
    requires numbers { HaveNumbers (map value_view values.now) }
    requires good { AreGood (tokens text.now) }
    ensures { IfOk result (λ made. (ts : List SpecToken)
        × (tokens_filled (map value_view values.now) (tokens text.now) ≡ Some ts)
        × (made.items ≡ print ts)) }
{
    let mut scratch = Scratch::new(alloc);
    let mut reader = Reader::new(text, &mut scratch)?;
    let mut out = Writer::new(Vec::new(alloc));
    while let Some(token) = reader.next() {
        write_token(alloc, &mut out, token, values)?;
    }
    Ok(out.into_inner())
}
