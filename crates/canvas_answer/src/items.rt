//! The items of `--each`: canvases one after the other, each up to the byte that ends it, and the
//! answers of tasks before a canvas in an item that has them.
ghost use Rattle.std.specs.Prelude.{◌≡◌, ◌≢◌, ◌++◌, ◌≤◌, IfOk, IfSome, OnOk, OnSome, length, option_map, take};
ghost use Rattle.std.specs.List.{All};
ghost use Rattle.std.specs.Io.KnownBytes.{Consumes, IsAtEnd};
ghost use Rattle.canvas_task.specs.Text.{Text};
ghost use Rattle.canvas_answer.specs.Items.{IsNext, most_item};
ghost use Rattle.canvas_answer.specs.steps.Pieces.{taken};
ghost use Rattle.canvas_answer.specs.declared.items.Piece.TheVariants.{None};

use crate::errors::OtherError;
use crate::numbers::{add_numbers, with_numbers};
use crate::refusal::Refusal;
use crate::setting::Setting;
use crate::stubs::{Answers, named, stub_named};
use crate::unread::Unread;
use canvas_adapt::{Rename, Stub};
use canvas_sig::MOST_BYTES;
use std::alloc::{AllocError, Global};
use std::io::{self, BufRead, ErrorKind};

/// The most bytes of an item that are kept: the longest list of tasks' answers, the empty line
/// after it, and one byte more than the longest canvas has, so that a longer one shows.
const MOST_ITEM: usize = 2 * MOST_BYTES + 3;

/// The kind of a piece of the input.
#[derive(Clone, Copy)]
enum Piece {
    /// The end of an item.
    Last,
    /// A part of an item that goes on.
    Part,
    /// Nothing: the input ends.
    None,
}

/// Returns the bytes before the end of an item, how many are taken with it, and the kind of the
/// piece.
fn piece_of(bytes: &[u8], end: u8) -> (&[u8], usize, Piece)
    ensures within { result.1 ≤ length bytes.now }
    ensures without { All (λ x. x ≢ end) result.0.now }
    ensures taken { take result.1 bytes.now ≡ taken end result.2 result.0.now }
    ensures none { result.2 ≡ None → (result.0.now ≡ bytes.now) × (length bytes.now ≡ 0) }
{
    for at in 0..bytes.len() {
        if bytes[at] == end {
            return (&bytes[..at], at + 1, Piece::Last);
        }
    }
    if bytes.is_empty() {
        (bytes, 0, Piece::None)
    } else {
        (bytes, bytes.len(), Piece::Part)
    }
}

/// Appends bytes to an item, as many as there is room for.
fn add_bytes(item: &mut Vec<u8>, bytes: &[u8]) -> Result<(), AllocError>
    requires { length item.old.items ≤ most_item }
    ensures { OnOk result (item.new.items ≡ take most_item (item.old.items ++ bytes.now)) }
{
    let room = MOST_ITEM - item.len();
    item.extend_from_slice(&bytes[..bytes.len().min(room)])?;
    Ok(())
}

/// Reads a piece of an item. An interrupted read is a part without a byte.
fn add_piece<B: BufRead>(reader: &mut B, end: u8, item: &mut Vec<u8>) -> io::Result<Piece>
    requires { length item.old.items ≤ most_item }
    ensures { IfOk result (λ piece. (bs : Text) × All (λ x. x ≢ end) bs
        × (item.new.items ≡ take most_item (item.old.items ++ bs))
        × Consumes (B.remaining reader.old) (B.remaining reader.new) (taken end piece bs)
        × (piece ≡ None → (length bs ≡ 0)
        × OnSome (B.remaining reader.old) (IsAtEnd (B.remaining reader.new)))) }
{
    let bytes = match reader.fill_buf() {
        Ok(bytes) => bytes,
        Err(error) => {
            return if error.kind() == ErrorKind::Interrupted {
                Ok(Piece::Part)
            } else {
                Err(error)
            };
        }
    };
    let (inner, count, piece) = piece_of(bytes, end);
    add_bytes(item, inner)?;
    reader.consume(count);
    Ok(piece)
}

/// Reads the next item, without the byte that ends it, which the last one may lack. Returns None if
/// the input has no more. It reads no more than the reader has at once, so that an item can be
/// answered before the next is there. An item that is too long is kept in part.
pub fn next_item<B: BufRead>(alloc: Global, reader: &mut B, end: u8) -> io::Result<Option<Vec<u8>>>
    ensures short { IfOk result (λ item. IfSome item (λ item. length item.items ≤ most_item)) }
    ensures next { IfOk result (λ item. IfSome (B.remaining reader.old) (λ xs.
        IsNext end xs (B.remaining reader.new) (option_map (λ item. item.items) item))) }
{
    let mut item = Vec::new(alloc);
    for _ in 0..u64::MAX {
        match add_piece(reader, end, &mut item)? {
            Piece::Last => return Ok(Some(item)),
            Piece::None => {
                return if item.is_empty() {
                    Ok(None)
                } else {
                    Ok(Some(item))
                };
            }
            Piece::Part => {}
        }
    }
    Err(io::Error::from(ErrorKind::Other))
}

/// Returns the text before the first empty line of an item, and the text after it.
pub fn parts_of(item: &[u8]) -> (&[u8], &[u8]) {
    let mut before = b'\n';
    for (at, byte) in item.iter().enumerate() {
        if *byte == b'\n' && before == b'\n' {
            return (&item[..at], &item[at + 1..]);
        }
        before = *byte;
    }
    (item, &[])
}

/// The exception that replaces those of other classes in a run.
const STANDS: &str = "NotRegistered";

/// Returns the lines of an item's tasks. They are refused as those of a file are, by the name that
/// the words have for the input.
fn lines_in<'i>(alloc: Global, bytes: &'i [u8], file: &str) -> Result<Vec<&'i str>, Refusal> {
    if bytes.len() > MOST_BYTES {
        return Err(Refusal::of_file(alloc, file, Unread::TooLong));
    }
    match str::from_utf8(bytes) {
        Ok(text) => Ok(text.lines().collect(alloc)?),
        Err(_) => Err(Refusal::of_file(alloc, file, Unread::NotUtf8)),
    }
}

/// Returns the answers of tasks by the lines of an item, as `--task` has them, followed by those of
/// the words and their file.
pub fn item_answers(
    alloc: Global,
    bytes: &[u8],
    file: &str,
    others: Setting<'_>,
) -> Result<Answers, Refusal> {
    let lines = lines_in(alloc, bytes, file)?;
    let mut answers = named(alloc, &lines, STANDS)?;
    add_numbers(alloc, &mut answers, &with_numbers(alloc, &lines)?, STANDS)?;
    add_others(&mut answers, others)?;
    Ok(answers)
}

/// Appends the answers of others. If two stubs have one name or number, the first counts.
fn add_others(answers: &mut Answers, others: Setting<'_>) -> Result<(), AllocError> {
    add_errors(answers, others.errors)?;
    for stub in others.stubs {
        let name = stub.name.clone()?;
        let does = stub.does;
        answers.stubs.push(Stub { name, does })?;
    }
    for rename in others.renames {
        let name = rename.name.clone()?;
        let task = rename.task;
        answers.renames.push(Rename { task, name })?;
    }
    Ok(())
}

/// Appends exceptions, except those of names that have a stub.
fn add_errors(answers: &mut Answers, others: &[OtherError]) -> Result<(), AllocError> {
    for error in others {
        if stub_named(&answers.stubs, &error.name).is_none() {
            let name = error.name.clone()?;
            let class = error.class.clone()?;
            answers.errors.push(OtherError { name, class })?;
        }
    }
    Ok(())
}
