//! The numbers of JSON texts.

ghost use Rattle.std.specs.Prelude.{◌≡◌, ◌==◌, ◌≤◌, ◌<◌, true, false, length, Some, IfSome, option_map, slice_index};
ghost use Rattle.std.specs.Str.Parse.{AllDigits, digits_value};
ghost use Rattle.serde_json.specs.Data.{unsigned};
ghost use Rattle.serde_json.specs.Read.{number_of, number_from, float_of};
ghost use Rattle.serde_json.specs.View.{number_view};

use fast_float::Numeral;
use serde_json::Number;

fn nearest(negative: bool, numeral: &Numeral<'_>) -> Option<Number>
    ensures { option_map number_view result ≡ float_of negative numeral.now }
{
    Number::from_f64(numeral.to_float::<f64>(negative))
}

fn unsigned(numeral: &Numeral<'_>) -> Option<Number>
    ensures { option_map number_view result ≡ number_from false numeral.now }
{
    match numeral.to_u64() {
        Some(n) => Number::from_u128(u128::from(n)),
        None => nearest(false, numeral),
    }
}

fn negative(numeral: &Numeral<'_>) -> Option<Number>
    ensures { option_map number_view result ≡ number_from true numeral.now }
{
    match numeral.to_i64(true) {
        Some(n) if n < 0 => Number::from_i128(i128::from(n)),
        _ => nearest(true, numeral),
    }
}

fn is_negative(bytes: &[u8]) -> bool
    ensures { result ≡ (slice_index bytes.now 0 == 45) }
{
    match bytes {
        [first, ..] => *first == b'-',
        [] => false,
    }
}

/// The greatest number of digits such that 64 bits hold every number of that length.
const MOST_DIGITS: usize = 18;

/// Returns the number of at most 18 digits, or None if one of the bytes is not a digit. No step has
/// to check for an overflow.
fn from_digits(bytes: &[u8]) -> Option<u64>
    requires { length bytes.now ≤ 18 }
    ensures { IfSome result (λ n. AllDigits 10 bytes.now × (n ≡ digits_value 10 bytes.now)) }
{
    let mut n = 0;
    for byte in bytes {
        if !byte.is_ascii_digit() {
            return None;
        }
        n = n * 10 + u64::from(*byte - b'0');
    }
    Some(n)
}

fn are_few(bytes: &[u8]) -> bool
    ensures { result ≡ true → (0 < length bytes.now) × (length bytes.now ≤ 18) }
{
    let len = bytes.len();
    0 < len && len <= MOST_DIGITS
}

/// Returns the number of a text of only a few digits.
#[inline(always)]
fn of_digits(text: &str) -> Option<u64>
    ensures { IfSome result (λ n. number_of text.now ≡ Some (unsigned n)) }
{
    let bytes = text.as_bytes();
    if are_few(bytes) {
        from_digits(bytes)
    } else {
        None
    }
}

#[inline(never)]
fn of_numeral(text: &str) -> Option<Number>
    ensures { option_map number_view result ≡ number_of text.now }
{
    let bytes = text.as_bytes();
    if is_negative(bytes) {
        negative(&Numeral::scan(&bytes[1..]))
    } else {
        unsigned(&Numeral::scan(bytes))
    }
}

/// Returns the number of a token, or None if it is too large for a float. Most tokens are a few
/// digits, and these are read in fewer steps than a general numeral, which is first split into its
/// parts.
#[inline(always)]
pub(crate) fn number_of(text: &str) -> Option<Number>
    ensures { option_map number_view result ≡ number_of text.now }
{
    match of_digits(text) {
        Some(n) => Some(Number::from(n)),
        None => of_numeral(text),
    }
}
