//! Commands in the Redis serialization protocol: arrays of bulk strings.

ghost use Rattle.std.specs.Prelude.{◌≡◌, ◌++◌, OnOk, IfOk, codes, map, decimal, string_bytes};
ghost use Rattle.canvas_celery.specs.Resp.{header_bytes, word_bytes, words_bytes, command_bytes};

use std::alloc::{AllocError, Global};

/// Appends the beginning of a command with this number of words, which are appended after it.
pub(crate) fn begin_command(
    alloc: Global,
    out: &mut Vec<u8>,
    words: usize,
) -> Result<(), AllocError>
    ensures { OnOk result (out.new.items ≡ out.old.items ++ header_bytes (codes "*") words) }
{
    push_header(alloc, out, "*", words)
}

/// Appends a word of a command.
pub(crate) fn push_word(alloc: Global, out: &mut Vec<u8>, word: &[u8]) -> Result<(), AllocError>
    ensures { OnOk result (out.new.items ≡ out.old.items ++ word_bytes word.now) }
{
    push_header(alloc, out, "$", word.len())?;
    out.extend_from_slice(word)?;
    out.extend_from_slice(b"\r\n")
}

fn push_header(alloc: Global, out: &mut Vec<u8>, mark: &str, count: usize) -> Result<(), AllocError>
    ensures { OnOk result (out.new.items ≡ out.old.items ++ header_bytes mark.now count) }
{
    let header = format!(in alloc; "{mark}{count}\r\n")?;
    out.extend_from_slice(header.as_bytes())
}

/// Returns a number in decimal digits.
pub(crate) fn decimal_of(alloc: Global, number: u64) -> Result<String, AllocError>
    ensures { IfOk result (λ text. string_bytes text ≡ decimal number) }
{
    format!(in alloc; "{number}")
}

/// Appends a number as a word.
pub(crate) fn push_number(alloc: Global, out: &mut Vec<u8>, number: u64) -> Result<(), AllocError>
    ensures { OnOk result (out.new.items ≡ out.old.items ++ word_bytes (decimal number)) }
{
    let digits = decimal_of(alloc, number)?;
    push_word(alloc, out, digits.as_bytes())
}

fn push_words(alloc: Global, out: &mut Vec<u8>, words: &[&[u8]]) -> Result<(), AllocError>
    ensures { OnOk result
        (out.new.items ≡ out.old.items ++ words_bytes (map (λ w. w.now) words.now)) }
{
    for word in words {
        push_word(alloc, out, word)?;
    }
    Ok(())
}

/// Appends a whole command.
pub(crate) fn push_command(
    alloc: Global,
    out: &mut Vec<u8>,
    words: &[&[u8]],
) -> Result<(), AllocError>
    ensures { OnOk result
        (out.new.items ≡ out.old.items ++ command_bytes (map (λ w. w.now) words.now)) }
{
    begin_command(alloc, out, words.len())?;
    push_words(alloc, out, words)
}

/// Appends texts as words, one after the other.
pub(crate) fn push_texts(
    alloc: Global,
    out: &mut Vec<u8>,
    texts: &[Vec<u8>],
) -> Result<(), AllocError>
    ensures { OnOk result
        (out.new.items ≡ out.old.items ++ words_bytes (map (λ t. t.items) texts.now)) }
{
    for text in texts {
        push_word(alloc, out, text)?;
    }
    Ok(())
}
