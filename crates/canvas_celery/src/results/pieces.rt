//! The parts of a text before and after a byte, and its lines.

ghost use Rattle.std.specs.Prelude.{◌≡◌, ◌==◌, ◌<◌, ◌∷◌, length};
ghost use Rattle.std.specs.List.{position_or_len, before_first, after_first};
ghost use Rattle.canvas_celery.specs.Pieces.{lines_in};

/// Returns the index of the first such byte, or the text's length.
fn place_of(text: &[u8], byte: u8) -> usize
    ensures { result ≡ position_or_len (λ b. b == byte) text.now }
{
    for index in 0..text.len() {
        if text[index] == byte {
            return index;
        }
    }
    text.len()
}

/// Returns the text before the first such byte and the text after it: all and nothing if there is
/// none.
pub(crate) fn split_at_byte(text: &[u8], byte: u8) -> (&[u8], &[u8])
    ensures before { result.0.now ≡ before_first (λ b. b == byte) text.now }
    ensures behind { result.1.now ≡ after_first (λ b. b == byte) text.now }
{
    let place = place_of(text, byte);
    if place < text.len() {
        (&text[..place], &text[place + 1..])
    } else {
        (text, &[])
    }
}

/// Returns the first line of a text that isn't empty, and what follows it.
pub(crate) fn split_line(text: &[u8]) -> (&[u8], &[u8])
    requires { 0 < length text.now }
    ensures line { lines_in text.now ≡ result.0.now ∷ lines_in result.1.now }
    ensures shorter { length result.1.now < length text.now }
{
    split_at_byte(text, b'\n')
}

/// Returns how many lines there are.
pub(crate) fn count_lines(text: &[u8]) -> usize
    ensures { result ≡ length (lines_in text.now) }
{
    let mut rest = text;
    let mut count = 0;
    while !rest.is_empty() {
        let (_, after) = split_line(rest);
        rest = after;
        count += 1;
    }
    count
}
