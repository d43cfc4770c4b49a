//! JSON as text, piece by piece, which takes fewer steps than tokens. It is built in a `String`,
//! whose type says that it is UTF-8.

ghost use Rattle.std.specs.Prelude.{◌≡◌, ◌∷◌, [], true, false, IfOk, decimal, string_bytes};
ghost use Rattle.std.specs.Str.{IsAscii};
ghost use Rattle.json.specs.Print.{escape, escape_byte, quoted};
ghost use Rattle.serde_json.specs.Data.{string, array, object};
ghost use Rattle.serde_json.specs.Written.{compact_text, items_text, members_text, comma_if};
ghost use Rattle.canvas_values.specs.Writing.{number_wire, numbers_wire, arg_wire, args_wire, kwargs_wire};
ghost use Rattle.canvas_task.specs.Entries.{named};
ghost use Rattle.canvas_task.specs.Identifiers.{task_text};
ghost use Rattle.canvas_envelope.specs.steps.Texts.{Adds};

use canvas_task::{Arg, TaskNo, task_text};
use json::Writer;
use std::alloc::{AllocError, Global};
use std::collections::BTreeMap;

pub(crate) fn put(out: &mut String, piece: &str) -> Result<(), AllocError>
    ensures { Adds result (string_bytes out.old) (string_bytes out.new) piece.now }
{
    out.push_str(piece)
}

fn put_comma(out: &mut String, later: bool) -> Result<(), AllocError>
    ensures { Adds result (string_bytes out.old) (string_bytes out.new) (comma_if later) }
{
    if later { put(out, ",") } else { Ok(()) }
}

pub(crate) fn put_size(out: &mut String, size: u32) -> Result<(), AllocError>
    ensures { Adds result (string_bytes out.old) (string_bytes out.new) (decimal size) }
{
    let mut buffer = itoa::Buffer::new();
    put(out, buffer.format(size))
}

#[tactic(auto, using(crate::proofs::Written::KnownTexts::number_is))]
fn put_number(out: &mut String, number: i64) -> Result<(), AllocError>
    ensures { Adds result (string_bytes out.old) (string_bytes out.new)
        (compact_text (number_wire number)) }
{
    let mut buffer = itoa::Buffer::new();
    put(out, buffer.format(number))
}

/// Appends the rest of a list of numbers, up to the closing bracket.
fn put_numbers(out: &mut String, numbers: &[i64]) -> Result<(), AllocError>
    ensures { Adds result (string_bytes out.old) (string_bytes out.new)
        (items_text false (numbers_wire numbers.now)) }
{
    let mut later = false;
    for number in numbers {
        put_comma(out, later)?;
        put_number(out, *number)?;
        later = true;
    }
    put(out, "]")
}

fn put_list(out: &mut String, numbers: &[i64]) -> Result<(), AllocError>
    ensures { Adds result (string_bytes out.old) (string_bytes out.new)
        (compact_text (array (numbers_wire numbers.now))) }
{
    put(out, "[")?;
    put_numbers(out, numbers)
}

/// Returns whether a byte needs no escape in a JSON text.
#[tactic(auto, using(crate::proofs::Written::KnownTexts::plain_alone))]
fn is_plain_byte(byte: u8) -> bool
    ensures { result ≡ true → escape_byte byte ≡ byte ∷ [] }
{
    byte >= 32 && byte != b'"' && byte != b'\\'
}

/// Returns whether a text needs no escapes.
#[tactic(auto, using(crate::proofs::Written::KnownTexts::plain_next))]
fn is_plain(text: &[u8]) -> bool
    ensures { result ≡ true → escape text.now ≡ text.now }
{
    let mut plain = true;
    for byte in text {
        if !is_plain_byte(*byte) {
            plain = false;
        }
    }
    plain
}

pub(crate) fn put_quoted(out: &mut String, text: &str) -> Result<(), AllocError>
    requires { escape text.now ≡ text.now }
    ensures { Adds result (string_bytes out.old) (string_bytes out.new) (quoted text.now) }
{
    put(out, "\"")?;
    put(out, text)?;
    put(out, "\"")
}

/// The room for the quotes of a text and some escapes, in addition to its own bytes.
const ESCAPES_ROOM: usize = 16;

fn escaped(alloc: Global, text: &str) -> Result<String, AllocError>
    ensures { IfOk result (λ made. string_bytes made ≡ compact_text (string text.now)) }
{
    let room = text.len().saturating_add(ESCAPES_ROOM);
    let mut out = Writer::new(Vec::with_capacity(alloc, room)?);
    out.string(text)?;
    Ok(String::from_utf8(out.into_inner()).unwrap())
}

/// Appends a text, with escapes where it needs them.
pub fn put_string(alloc: Global, out: &mut String, text: &str) -> Result<(), AllocError>
    ensures { Adds result (string_bytes out.old) (string_bytes out.new)
        (compact_text (string text.now)) }
{
    if is_plain(text.as_bytes()) {
        put_quoted(out, text)
    } else {
        put(out, &escaped(alloc, text)?)
    }
}

fn put_arg(alloc: Global, out: &mut String, arg: &Arg) -> Result<(), AllocError>
    ensures { Adds result (string_bytes out.old) (string_bytes out.new)
        (compact_text (arg_wire arg.now)) }
{
    match arg {
        Arg::Num(number) => put_number(out, *number),
        Arg::List(numbers) => put_list(out, numbers.get()),
        Arg::Text(text) => put_string(alloc, out, text.get()),
    }
}

/// Appends the rest of a list of arguments, up to the closing bracket.
pub(crate) fn put_args(alloc: Global, out: &mut String, args: &[Arg]) -> Result<(), AllocError>
    ensures { Adds result (string_bytes out.old) (string_bytes out.new)
        (items_text false (args_wire args.now)) }
{
    let mut later = false;
    for arg in args {
        put_comma(out, later)?;
        put_arg(alloc, out, arg)?;
        later = true;
    }
    put(out, "]")
}

/// Appends the rest of an object of keyword arguments, up to the closing brace.
fn put_named(
    alloc: Global,
    out: &mut String,
    kwargs: &BTreeMap<String, Arg>,
) -> Result<(), AllocError>
    ensures { Adds result (string_bytes out.old) (string_bytes out.new)
        (members_text false (kwargs_wire (named kwargs.now.entries))) }
{
    let mut later = false;
    for (name, arg) in kwargs.iter() {
        put_comma(out, later)?;
        put_string(alloc, out, name)?;
        put(out, ":")?;
        put_arg(alloc, out, arg)?;
        later = true;
    }
    put(out, "}")
}

pub(crate) fn put_kwargs(
    alloc: Global,
    out: &mut String,
    kwargs: &BTreeMap<String, Arg>,
) -> Result<(), AllocError>
    ensures { Adds result (string_bytes out.old) (string_bytes out.new)
        (compact_text (object (kwargs_wire (named kwargs.now.entries)))) }
{
    put(out, "{")?;
    put_named(alloc, out, kwargs)
}

/// Returns bytes of ASCII as a text.
#[tactic(auto, using(crate::proofs::Written::IdentifierTexts::is_text))]
pub fn ascii(bytes: &[u8]) -> &str
    requires { IsAscii bytes.now }
    ensures { result.now ≡ bytes.now }
{
    str::from_utf8(bytes).unwrap()
}

/// Appends the identifier of a task, without quotes.
pub(crate) fn put_task_text(out: &mut String, task: TaskNo) -> Result<(), AllocError>
    ensures { Adds result (string_bytes out.old) (string_bytes out.new) (task_text task) }
{
    put(out, ascii(&task_text(task)))
}
