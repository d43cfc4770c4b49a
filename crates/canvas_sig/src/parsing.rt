//! Parsing JSON (RFC 8259) into borrowed values.

ghost use Rattle.std.specs.Prelude.{◌≡◌, ◌<◌, ◌≤◌, ◌∷◌, ◌++◌, [], length, option_map, Some, None, Err, IfOk, OnOk};
ghost use Rattle.json.specs.Json.{value, items, members, parse_map};
ghost use Rattle.json.specs.Reads.{token_of};
ghost use Rattle.serde_json.specs.Data.{array, object, no_members};
ghost use Rattle.serde_json.specs.Read.{of_json, of_items, of_members, converted, read as read_text};
ghost use Rattle.canvas_values.specs.Answers.{Gives};
ghost use Rattle.canvas_values.specs.CanvasText.{json_of};
ghost use Rattle.canvas_sig.specs.Datum.{view};
ghost use Rattle.canvas_sig.specs.steps.Alone.{alone};
ghost use Rattle.canvas_values.specs.steps.Reading.{json_reading};
ghost use Rattle.canvas_values.specs.declared.fault.SigFault.TheVariants.{Memory};

use crate::datum::Datum;
use crate::number::number_of;
use crate::ordered::in_order;
use crate::source::Source;
use crate::unread::Unread;
use bumpalo::Bump;
use bumpalo::collections::into_bump_slice;
use canvas_values::SigFault;
use json::{Scratch, Token};
use std::alloc::{AllocError, Global};

/// The greatest depth to which arrays and objects may nest.
const MOST_NESTED: usize = 127;

/// The room of a list for its first items: most lists of arguments have one or two.
const FEW_ITEMS: usize = 2;

/// Returns the value of a single token.
#[inline(always)]
fn alone<'a>(token: Token<'a>) -> Option<Datum<'a>>
    ensures { option_map view result ≡ alone (token_of token.entry) }
{
    match token {
        Token::Null => Some(Datum::Null),
        Token::Bool(flag) => Some(Datum::Bool(flag)),
        Token::Number(text) => Some(Datum::Number(number_of(text)?)),
        Token::String(text) => Some(Datum::Text(text)),
        _ => None,
    }
}

/// Reads the value that begins with a token; arrays and objects in it nest at most `left` deep. The
/// members of the enclosing objects are on the stack until their object ends, so that the arena
/// holds each object once. The function is inlined into the loops that call it, so that a value of
/// one token needs no call.
#[cycle(read)]
#[inline(always)]
fn read_value<'a>(
    alloc: Global,
    arena: &'a Bump,
    stack: &mut Vec<(&'a str, Datum<'a>)>,
    reader: &mut Source<'a>,
    left: usize,
    token: Token<'a>,
) -> Result<Datum<'a>, Unread>
    ensures ok { IfOk result
        (λ v. converted of_json (value left (token_of token.entry ∷ reader.old))
        ≡ Some (view v, reader.new)) }
    ensures not_longer { OnOk result (length reader.new ≤ length reader.old) }
    ensures stack { OnOk result (stack.new.items ≡ stack.old.items) }
    ensures err { result ≡ Err Unread.NotJson
        → converted of_json (value left (token_of token.entry ∷ reader.old)) ≡ None }
{
    match alone(token) {
        Some(value) => Ok(value),
        None => read_nested(alloc, arena, stack, reader, left, token),
    }
}

/// Reads the array or the object that a token opens. The token is no value itself.
#[cycle(read)]
#[inline(never)]
fn read_nested<'a>(
    alloc: Global,
    arena: &'a Bump,
    stack: &mut Vec<(&'a str, Datum<'a>)>,
    reader: &mut Source<'a>,
    left: usize,
    token: Token<'a>,
) -> Result<Datum<'a>, Unread>
    requires { alone (token_of token) ≡ None }
    ensures ok { IfOk result (λ v. converted of_json (value left (token_of token.entry ∷ reader.old))
        ≡ Some (view v, reader.new)) }
    ensures shorter { OnOk result (length reader.new < length reader.old) }
    ensures stack { OnOk result (stack.new.items ≡ stack.old.items) }
    ensures err { result ≡ Err Unread.NotJson
        → converted of_json (value left (token_of token.entry ∷ reader.old)) ≡ None }
{
    if left == 0 {
        return Err(Unread::NotJson);
    }
    match token {
        Token::BeginArray => read_items(alloc, arena, stack, reader, left - 1),
        Token::BeginObject => read_members(alloc, arena, stack, reader, left - 1),
        _ => Err(Unread::NotJson),
    }
}

/// Appends an item. The first item reserves room for a few, so that an empty list allocates
/// nothing.
#[inline(always)]
fn push_item<'a>(found: &mut Vec<Datum<'a>, &'a Bump>, item: Datum<'a>) -> Result<(), AllocError>
    ensures { OnOk result (found.new.items ≡ found.old.items ++ item.entry ∷ []) }
{
    if found.is_empty() {
        found.reserve_exact(FEW_ITEMS)?;
    }
    found.push(item)?;
    Ok(())
}

/// Reads a list, after its opening bracket.
#[cycle(read)]
fn read_items<'a>(
    alloc: Global,
    arena: &'a Bump,
    stack: &mut Vec<(&'a str, Datum<'a>)>,
    reader: &mut Source<'a>,
    left: usize,
) -> Result<Datum<'a>, Unread>
    ensures ok { IfOk result (λ v. parse_map array
        (converted of_items (items (value left) (length reader.old) reader.old))
        ≡ Some (view v, reader.new)) }
    ensures shorter { OnOk result (length reader.new < length reader.old) }
    ensures stack { OnOk result (stack.new.items ≡ stack.old.items) }
    ensures err { result ≡ Err Unread.NotJson
        → converted of_items (items (value left) (length reader.old) reader.old) ≡ None }
{
    let mut found = Vec::new(arena);
    'items: while let Some(token) = reader.next_item()? {
        let item = read_value(alloc, arena, stack, reader, left, token)?;
        push_item(&mut found, item)?;
    }
    Ok(Datum::List(into_bump_slice(found)))
}

/// Reads an object, after its opening brace.
#[cycle(read)]
fn read_members<'a>(
    alloc: Global,
    arena: &'a Bump,
    stack: &mut Vec<(&'a str, Datum<'a>)>,
    reader: &mut Source<'a>,
    left: usize,
) -> Result<Datum<'a>, Unread>
    ensures ok { IfOk result
        (λ v. parse_map object (converted (λ ms. of_members ms no_members)
        (members (value left) (length reader.old) reader.old))
        ≡ Some (view v, reader.new)) }
    ensures shorter { OnOk result (length reader.new < length reader.old) }
    ensures stack { OnOk result (stack.new.items ≡ stack.old.items) }
    ensures err { result ≡ Err Unread.NotJson → converted (λ ms. of_members ms no_members)
        (members (value left) (length reader.old) reader.old) ≡ None }
{
    let start = stack.len();
    'members: while let Some(name) = reader.next_key()? {
        let token = reader.next_token()?;
        let member = read_value(alloc, arena, stack, reader, left, token)?;
        stack.push((name, member))?;
    }
    let found = in_order(alloc, arena, &stack[start..])?;
    stack.truncate(start);
    Ok(Datum::Object(found))
}

/// Reads the only value of a text.
fn read_whole<'a>(
    alloc: Global,
    arena: &'a Bump,
    scratch: &'a mut Scratch,
    text: &'a str,
) -> Result<Datum<'a>, Unread>
    ensures ok { IfOk result (λ v. read_text text.now ≡ Some (view v)) }
    ensures err { result ≡ Err Unread.NotJson → read_text text.now ≡ None }
{
    let mut reader = Source::new(arena, scratch, text);
    let mut stack = Vec::new(alloc);
    let token = reader.next_token()?;
    let value = read_value(alloc, arena, &mut stack, &mut reader, MOST_NESTED, token)?;
    match reader.next()? {
        None => Ok(value),
        Some(_) => Err(Unread::NotJson),
    }
}

/// Parses a text in UTF-8 as one JSON value. The arena holds its lists and objects, and its texts
/// with escapes, which are decoded in the scratch.
pub fn parse<'a>(
    alloc: Global,
    arena: &'a Bump,
    scratch: &'a mut Scratch,
    bytes: &'a [u8],
) -> Result<Datum<'a>, SigFault>
    ensures { Gives view result (json_reading (json_of bytes.now)) }
{
    let Ok(text) = simdutf8::basic::from_utf8(bytes) else {
        return Err(SigFault::NotJson);
    };
    match read_whole(alloc, arena, scratch, text) {
        Ok(value) => Ok(value),
        Err(Unread::NotJson) => Err(SigFault::NotJson),
        Err(Unread::Memory) => Err(SigFault::Memory),
    }
}
