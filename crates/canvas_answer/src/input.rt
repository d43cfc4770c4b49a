//! Reads a canvas's text and the results of tasks, up to their greatest lengths.
ghost use Rattle.std.specs.Prelude.{◌≡◌, ◌≢◌, ◌++◌, ◌*◌, ◌<◌, ◌≤◌, IfOk, IfSome, OnOk, codes, length, take, true};
ghost use Rattle.std.specs.Io.KnownBytes.{Consumes, IsAtEnd};
ghost use Rattle.canvas_task.specs.Text.{Text};
ghost use Rattle.canvas_values.specs.CanvasText.{most_bytes};
ghost use Rattle.canvas_answer.specs.Inputs.{IsCanvasRead, IsRead};

use crate::celery::{CeleryRefusal, ValueFault};
use crate::refusal::Refusal;
use crate::unread::Unread;
use canvas_sig::MOST_BYTES;
use std::alloc::{AllocError, Global};
use std::fs;
use std::io::{self, ErrorKind, Read};
use std::rt::Files;

/// The most bytes of results that are accepted: 64 MiB.
const MOST_RESULTS: usize = 67_108_864;

/// How many bytes are read at a time.
const CHUNK: usize = 16_384;

/// The size of the largest block that malloc is made to keep, in bytes.
const KEPT: usize = 4_194_304;

/// Makes malloc keep the blocks freed after a canvas is read, so that the run uses pages that are
/// there. glibc's malloc takes each block over 128 KiB from the system and returns it as soon as it
/// is freed, until a block as large was freed (mallopt(3), `M_MMAP_THRESHOLD`): so one is freed
/// here, unused.
pub fn keep_blocks(alloc: Global) {
    let block: Result<Vec<u8>, AllocError> = Vec::with_capacity(alloc, KEPT);
    drop(block);
}

/// Reads once, as far as there is room for more, and returns whether that was the end. An
/// interrupted read finds nothing.
fn read_more<R: Read>(
    reader: &mut R,
    chunk: &mut [u8; CHUNK],
    text: &mut Vec<u8>,
    most: usize,
) -> io::Result<bool>
    requires { length text.old.items < most }
    ensures read { IfOk result (λ is_end. (bytes : Text)
        × (text.new.items ≡ text.old.items ++ bytes)
        × Consumes (R.remaining reader.old) (R.remaining reader.new) bytes
        × (is_end ≡ true → IsAtEnd (R.remaining reader.new))) }
    ensures within { OnOk result (length text.new.items ≤ most) }
{
    let room = (most - text.len()).min(CHUNK);
    let count = match reader.read(&mut chunk[..room]) {
        Err(error) if error.kind() == ErrorKind::Interrupted => return Ok(false),
        read => read?,
    };
    text.extend_from_slice(&chunk[..count])?;
    Ok(count == 0)
}

/// Reads at most `most` bytes in at most `most` reads, of which interrupted ones count. Fails if
/// the reads end before the text does.
fn read_at_most<R: Read>(alloc: Global, reader: &mut R, most: usize) -> io::Result<Vec<u8>>
    ensures { IfOk result (λ text. IfSome (R.remaining reader.old)
        (λ bytes. text.items ≡ take most bytes)) }
{
    let mut text = Vec::new(alloc);
    // One buffer for all reads, since it is filled with zeros when it is made.
    let mut chunk = [0u8; CHUNK];
    for _ in 0..most {
        if read_more(reader, &mut chunk, &mut text, most)? || text.len() == most {
            return Ok(text);
        }
    }
    Err(io::Error::from(ErrorKind::Other))
}

/// Reads at most `most` bytes of a file, or of the input if the name is `-`.
fn bytes_of<S, R: Read>(rt: &S, file: &str, input: &mut R, most: usize) -> Result<Vec<u8>, Refusal>
where
    S: Files + AllocGlobal,
    ensures read { IfOk result
        (λ bytes. IsRead most file.now (R.remaining input.old) bytes.items) }
    ensures kept { file.now ≢ codes "-" → input.new ≡ input.old }
{
    let bytes = if file == "-" {
        read_at_most(rt.alloc(), input, most)
    } else {
        read_file(rt, file, most)
    };
    match bytes {
        Ok(bytes) => Ok(bytes),
        Err(error) => Err(unread(rt.alloc(), &error, file)),
    }
}

fn read_file<S: Files + AllocGlobal>(rt: &S, file: &str, most: usize) -> io::Result<Vec<u8>> {
    read_at_most(rt.alloc(), &mut fs::open(rt, file)?, most)
}

/// Reads all bytes of a file; None if it has more than `most`.
fn bytes_within<S, R: Read>(
    rt: &S,
    file: &str,
    input: &mut R,
    most: usize,
) -> Result<Option<Vec<u8>>, Refusal>
where
    S: Files + AllocGlobal,
    ensures { IfOk result (λ bytes. IfSome bytes (λ bytes. length bytes.items ≤ most)) }
{
    let bytes = bytes_of(rt, file, input, most.saturating_add(1))?;
    Ok((bytes.len() <= most).then_some(bytes))
}

/// Reads the text of a canvas, up to one byte more than the longest has, so that a longer one
/// shows.
pub fn text_of<S, R: Read>(rt: &S, file: &str, input: &mut R) -> Result<Vec<u8>, Refusal>
where
    S: Files + AllocGlobal,
    ensures read { IfOk result
        (λ text. IsCanvasRead file.now (R.remaining input.old) text.items) }
    ensures kept { file.now ≢ codes "-" → input.new ≡ input.old }
{
    keep_blocks(rt.alloc());
    bytes_of(rt, file, input, MOST_BYTES + 1)
}

/// Reads the results that Celery's workers stored, a line each.
pub(crate) fn results_of<S, R: Read>(rt: &S, file: &str, input: &mut R) -> Result<Vec<u8>, Refusal>
where
    S: Files + AllocGlobal,
    ensures { IfOk result (λ results. length results.items ≤ 64 * most_bytes) }
{
    bytes_within(rt, file, input, MOST_RESULTS)?.ok_or(Refusal::Celery(CeleryRefusal::TooLarge))
}

/// Reads the text with the values of places.
pub(crate) fn values_of<S, R: Read>(rt: &S, file: &str, input: &mut R) -> Result<Vec<u8>, Refusal>
where
    S: Files + AllocGlobal,
    ensures { IfOk result (λ values. length values.items ≤ most_bytes) }
{
    match bytes_within(rt, file, input, MOST_BYTES)? {
        Some(values) => Ok(values),
        None => Err(Refusal::of_values(rt.alloc(), file, ValueFault::TooLong)),
    }
}

/// Returns the refusal of a file that can't be read, with its name in the words.
pub fn unread(alloc: Global, error: &io::Error, file: &str) -> Refusal {
    match error.kind() {
        ErrorKind::OutOfMemory => Refusal::Memory,
        _ => Refusal::of_file(alloc, file, Unread::of(error)),
    }
}
