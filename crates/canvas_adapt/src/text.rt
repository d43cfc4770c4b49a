//! Values as compact JSON.

ghost use Rattle.std.specs.Prelude.{◌≡◌, OnOk};

use canvas_sig::parts::Datum;
use canvas_sig::{MOST_BYTES, SigFault};
use json::Writer;
use serde_json::Number;
use std::alloc::{AllocError, Global};

/// The greatest depth to which values are written: a text that was read nests less deep, and a
/// callback that was moved to a nested task is at most twice as deep.
pub(crate) const MOST_WRITTEN: u32 = 512;

/// The greatest depth to which lists and objects nest in a text that can be read.
const MOST_NESTED: u32 = 127;

/// The most bytes of text for each step of a value's room: an escaped byte takes six, and the
/// longest number with the punctuation around it less than this.
const BYTES_OF_STEP: usize = 32;

fn write_number(out: &mut Writer, number: &Number) -> Result<(), AllocError>
    ensures { OnOk result (out.new.before ≡ out.old.before) }
{
    if let Some(whole) = number.as_i64() {
        return out.i64(whole);
    }
    if let Some(whole) = number.as_u64() {
        return out.u64(whole);
    }
    match number.as_f64() {
        Some(float) if float.is_finite() => out.float(float),
        _ => out.null(),
    }
}

#[cycle(write)]
fn write_value(out: &mut Writer, value: &Datum<'_>, left: u32) -> Result<(), AllocError>
    ensures { OnOk result (out.new.before ≡ out.old.before) }
{
    if left == 0 {
        return out.null();
    }
    match value {
        Datum::Null => out.null(),
        Datum::Bool(flag) => out.boolean(*flag),
        Datum::Number(number) => write_number(out, number),
        Datum::Text(text) => out.string(text),
        Datum::List(values) => write_items(out, values, left - 1),
        Datum::Object(members) => write_members(out, members, left - 1),
    }
}

#[cycle(write)]
fn write_items(out: &mut Writer, values: &[Datum<'_>], left: u32) -> Result<(), AllocError>
    ensures { OnOk result (out.new.before ≡ out.old.before) }
{
    out.begin_array()?;
    for value in values {
        write_value(out, value, left)?;
    }
    out.end_array()
}

#[cycle(write)]
fn write_members(
    out: &mut Writer,
    members: &[(&str, Datum<'_>)],
    left: u32,
) -> Result<(), AllocError>
    ensures { OnOk result (out.new.before ≡ out.old.before) }
{
    out.begin_object()?;
    for member in members {
        out.key(member.0)?;
        write_value(out, &member.1, left)?;
    }
    out.end_object()
}

/// Returns a value as compact JSON.
pub(crate) fn text_of(alloc: Global, value: &Datum<'_>) -> Result<String, AllocError> {
    let mut out = Writer::new(Vec::new(alloc));
    write_value(&mut out, value, MOST_WRITTEN)?;
    Ok(String::from_utf8(out.into_inner()).unwrap())
}

/// Subtracts the room of a value from `room`; its text takes at least as many bytes. Returns None
/// if there is too little room, or if lists and objects nest more than `left` deep in the value.
#[cycle(room)]
pub(crate) fn room_behind(value: &Datum<'_>, room: usize, left: u32) -> Option<usize> {
    let room = room.checked_sub(1)?;
    match value {
        Datum::Text(text) => room.checked_sub(text.len()),
        Datum::List(values) => room_behind_items(values, room, left.checked_sub(1)?),
        Datum::Object(members) => room_behind_members(members, room, left.checked_sub(1)?),
        _ => Some(room),
    }
}

#[cycle(room)]
fn room_behind_items(values: &[Datum<'_>], room: usize, left: u32) -> Option<usize> {
    let mut room = room;
    for value in values {
        room = room_behind(value, room, left)?;
    }
    Some(room)
}

#[cycle(room)]
fn room_behind_members(members: &[(&str, Datum<'_>)], room: usize, left: u32) -> Option<usize> {
    let mut room = room;
    for member in members {
        room = room.checked_sub(member.0.len())?;
        room = room_behind(&member.1, room, left)?;
    }
    Some(room)
}

/// Returns whether the text of a value is certain to be short enough to be read, and nests no
/// deeper than a text that can be read.
pub(crate) fn is_surely_short(value: &Datum<'_>) -> bool {
    room_behind(value, MOST_BYTES / BYTES_OF_STEP, MOST_NESTED).is_some()
}

/// Writes a value as compact JSON in a line. A value whose text is too large to be read isn't
/// written.
pub(crate) fn line_of(alloc: Global, value: &Datum<'_>) -> Result<Vec<u8>, SigFault> {
    if room_behind(value, MOST_BYTES, MOST_WRITTEN).is_none() {
        return Err(SigFault::TooLarge);
    }
    let mut text = text_of(alloc, value)?;
    text.push('\n')?;
    Ok(text.into_bytes())
}
