//! Envelopes and their refusals. The numbers were worked out by hand from the rules of messages.

use crate::tables::{Spot, first_wrong};
use canvas_codec::decode;
use canvas_envelope::{Envelope, Message, MessageFault};
use canvas_samples::frozen_texts::envelope;
use canvas_task::{ListOf, TaskNo};
use std::alloc::{AllocError, Global};

pub(crate) const PROPERTIES: &str =
    r#"{"content_encoding":"utf-8","content_type":"application/json","correlation_id":"%1"}"#;

pub(crate) const HEADERS: &str =
    r#"{"group":null,"id":"%1","lang":"rs","parent_id":null,"root_id":"%1","task":"tasks.add"}"#;

pub(crate) const BODY: &str =
    r#"[[4,4],{},{"callbacks":null,"chain":[{"args":[8],"immutable":false,"kwargs":{},"options":{"task_id":"%2"},"subtask_type":null,"task":"tasks.mul"}],"chord":null,"errbacks":null}]"#;

pub(crate) const PLAIN: &str = r#"{"content_type":"application/json","content_encoding":"utf-8"}"#;

fn copy(alloc: Global, text: &[u8]) -> Result<ListOf<u8>, AllocError> {
    let mut bytes = Vec::new(alloc);
    bytes.extend_from_slice(text)?;
    Ok(ListOf::of(bytes))
}

/// An envelope of these bytes.
fn envelope_of(
    alloc: Global,
    properties: &[u8],
    headers: &[u8],
    body: &[u8],
) -> Result<Envelope, AllocError> {
    Ok(Envelope {
        properties: copy(alloc, properties)?,
        headers: copy(alloc, headers)?,
        body: copy(alloc, body)?,
    })
}

/// The message of an envelope of these bytes.
pub(crate) fn read(
    alloc: Global,
    properties: &[u8],
    headers: &[u8],
    body: &[u8],
) -> Result<Message, MessageFault> {
    decode(alloc, &envelope_of(alloc, properties, headers, body)?)
}

/// The number of a refusal, 0 where there is none.
fn number_of(read: &Result<Message, MessageFault>) -> u8 {
    match read {
        Ok(_) => 0,
        Err(fault) => fault.code(),
    }
}

/// The number of an envelope's refusal.
fn decoded_code(alloc: Global, envelope: &Envelope) -> u8 {
    number_of(&decode(alloc, envelope))
}

/// Like `decoded_code`, for three texts.
pub(crate) fn code_of(alloc: Global, properties: &str, headers: &str, body: &str) -> u8 {
    match envelope(alloc, properties, headers, body) {
        Ok(envelope) => decoded_code(alloc, &envelope),
        Err(_) => u8::MAX,
    }
}

/// Like `code_of`, for a call without arguments, with this embed.
pub(crate) fn embed_code(alloc: Global, headers: &str, embed: &str) -> u8 {
    match format!(in alloc; "[[],{{}},{embed}]") {
        Ok(body) => code_of(alloc, PLAIN, headers, &body),
        Err(_) => u8::MAX,
    }
}

/// How many arguments, named ones, links and error callbacks a message has.
fn sizes(message: &Message) -> [usize; 4] {
    [
        message.args.get().len(),
        message.kwargs.get().len(),
        message.links.get().len(),
        message.errbacks.get().len(),
    ]
}

/// Whether a message is a sum, task 1 with task 7 as its parent, of these sizes, in a place, and
/// with no rest of a line.
fn is_sum(message: &Message, wanted: &[usize; 4]) -> bool {
    message.task.get() == 1
        && message.name.get().as_str() == "tasks.add"
        && message.parent == TaskNo::new(7)
        && sizes(message) == *wanted
        && message.place.is_some()
        && message.rest.is_none()
}

/// Whether what was read is such.
fn is_read_sum(read: &Result<Message, MessageFault>, wanted: &[usize; 4]) -> bool {
    match read {
        Ok(message) => is_sum(message, wanted),
        Err(_) => false,
    }
}

/// Whether an envelope's message is such.
fn has_sum(alloc: Global, envelope: &Envelope, wanted: &[usize; 4]) -> bool {
    is_read_sum(&decode(alloc, envelope), wanted)
}

/// Like `has_sum`, for texts in the short notation.
fn are_sum(alloc: Global, headers: &str, body: &str, wanted: &[usize; 4]) -> bool {
    match &envelope(alloc, PLAIN, headers, body) {
        Ok(envelope) => has_sum(alloc, envelope, wanted),
        Err(_) => false,
    }
}

#[test]
fn fields_of_a_message(rt: HostRuntime) {
    let headers = r#"{"group":"@3","id":"%1","parent_id":"%7","task":"tasks.add"}"#;
    let body = r#"[["a",5],{"k":[]},{"callbacks":[$2"}}],"errbacks":[$3"}},$4"}}]}]"#;
    assert!(rt; are_sum(rt.alloc(), headers, body, &[2, 1, 1, 2]));
}

/// One of an envelope's three texts.
#[derive(Clone, Copy, Debug)]
enum Part {
    Properties,
    Headers,
    Body,
}

fn length_of(envelope: &Envelope, part: Part) -> usize {
    match part {
        Part::Properties => envelope.properties.get().len(),
        Part::Headers => envelope.headers.get().len(),
        Part::Body => envelope.body.get().len(),
    }
}

/// A text that is cut to a length. None where it isn't longer.
fn cut(text: &[u8], length: usize) -> Option<&[u8]> {
    if length < text.len() {
        Some(&text[..length])
    } else {
        None
    }
}

/// The number of a refusal of these bytes.
fn bytes_code(alloc: Global, properties: &[u8], headers: &[u8], body: &[u8]) -> u8 {
    match envelope_of(alloc, properties, headers, body) {
        Ok(envelope) => decoded_code(alloc, &envelope),
        Err(_) => u8::MAX,
    }
}

/// The number of an envelope's refusal of which one text is cut so.
fn cut_code(alloc: Global, whole: &Envelope, part: Part, length: usize) -> Option<u8> {
    let (properties, headers) = (whole.properties.get(), whole.headers.get());
    let body = whole.body.get();
    let code = match part {
        Part::Properties => bytes_code(alloc, cut(properties, length)?, headers, body),
        Part::Headers => bytes_code(alloc, properties, cut(headers, length)?, body),
        Part::Body => bytes_code(alloc, properties, headers, cut(body, length)?),
    };
    Some(code)
}

/// At how many lengths a text is no JSON, up to the first at which it is, or to its own.
fn lengths_refused(alloc: Global, whole: &Envelope, part: Part) -> usize {
    for length in 0..1_000 {
        if cut_code(alloc, whole, part, length) != Some(1) {
            return length;
        }
    }
    0
}

/// Like `lengths_refused`, for a sum's envelope, with the texts' lengths.
fn sum_refused(alloc: Global, part: Part) -> Option<(usize, usize)> {
    match envelope(alloc, PROPERTIES, HEADERS, BODY) {
        Ok(whole) => Some((
            lengths_refused(alloc, &whole, part),
            length_of(&whole, part),
        )),
        Err(_) => None,
    }
}

/// A text that was cut anywhere isn't JSON.
#[test]
fn cut_texts(rt: HostRuntime) {
    for part in [Part::Properties, Part::Headers, Part::Body] {
        let found = sum_refused(rt.alloc(), part);
        assert!(rt;
            found.is_some_and(|(refused, length)| refused == length && length > 0),
            "{part:?}: {found:?}"
        );
    }
}

const ALL_PROPERTIES: &[(u8, &str)] = &[
    (0, PLAIN),
    (
        0,
        r#"{"content_type":"application/json","content_encoding":"utf-8","reply_to":7,"correlation_id":"{00000000-0000-8000-8000-000000000001}"}"#,
    ),
    (
        0,
        r#"{"content_type":"application/json","content_encoding":"utf-8","correlation_id":"urn:uuid:%1"}"#,
    ),
    (
        0,
        r#"{"content_type":"application/json","content_encoding":"utf-8","correlation_id":"00000000000080008000000000000001"}"#,
    ),
    (
        0,
        r#"{"content_type":"application/json","content_encoding":"utf-8","correlation_id":"%2","correlation_id":"%1"}"#,
    ),
    (1, ""),
    (1, "{} 7"),
    (1, r#"{"reply_to":1e400}"#),
    (3, "[]"),
    (3, "null"),
    (3, r#""application/json""#),
    (
        3,
        r#"{"content_type":"application/json","content_encoding":"utf-8","correlation_id":null}"#,
    ),
    (
        3,
        r#"{"content_type":"application/json","content_encoding":"utf-8","correlation_id":7}"#,
    ),
    (
        3,
        r#"{"content_type":"application/json","content_encoding":"utf-8","correlation_id":"x"}"#,
    ),
    (
        3,
        r#"{"content_type":"application/json","content_encoding":"utf-8","correlation_id":"%2"}"#,
    ),
    (
        3,
        r#"{"content_type":"application/json","content_encoding":"utf-8","correlation_id":"@1"}"#,
    ),
    (
        3,
        r#"{"content_type":"text/plain","content_encoding":"utf-8","correlation_id":"%2"}"#,
    ),
    (4, "{}"),
    (
        4,
        r#"{"content_type":"text/plain","content_encoding":"utf-8"}"#,
    ),
    (4, r#"{"content_type":null,"content_encoding":"utf-8"}"#),
    (4, r#"{"content_encoding":"utf-8"}"#),
    (4, r#"{"content_type":"application/json"}"#),
    (
        4,
        r#"{"content_type":"application/json","content_encoding":"UTF-8"}"#,
    ),
    (
        4,
        r#"{"content_type":"application/json","content_encoding":7}"#,
    ),
];

#[test]
fn properties(rt: HostRuntime) {
    let wrong = first_wrong(rt.alloc(), Spot::Properties, ALL_PROPERTIES);
    assert!(rt; wrong.is_none(), "{wrong:?}");
}

const ALL_HEADERS: &[(u8, &str)] = &[
    (0, r#"{"id":"%1","task":"x"}"#),
    (0, r#"{"id":"%A","task":"x"}"#),
    (
        0,
        r#"{"id":"{00000000-0000-8000-8000-0000FFFFFFFF}","task":"x"}"#,
    ),
    (0, r#"{"id":"urn:uuid:%1","task":"x"}"#),
    (0, r#"{"id":"00000000000080008000000000000001","task":"x"}"#),
    (
        0,
        r#"{"id":"%1","task":"!~","lang":7,"root_id":"x","shadow":[],"timelimit":[1,2]}"#,
    ),
    (0, r#"{"id":"%1","task":"x","parent_id":"@1"}"#),
    (0, r#"{"id":"%1","task":"x","parent_id":7}"#),
    (0, r#"{"id":"%1","task":"x","group":"@1"}"#),
    (0, r#"{"id":"%1","task":"x","group":"urn:uuid:@F"}"#),
    (1, "{'task':7}"),
    (2, "[]"),
    (2, "null"),
    (2, "{}"),
    (2, r#"{"id":"%1"}"#),
    (2, r#"{"id":"%1","task":null}"#),
    (2, r#"{"id":"%1","task":7}"#),
    (2, r#"{"id":"%1","task":""}"#),
    (2, r#"{"id":"%1","task":"a b"}"#),
    (2, r#"{"id":"%1","task":"\u007f"}"#),
    (2, r#"{"id":"x","task":["x"],"group":7}"#),
    (3, r#"{"task":"x"}"#),
    (3, r#"{"id":null,"task":"x"}"#),
    (3, r#"{"id":1,"task":"x"}"#),
    (3, r#"{"id":"x","task":"x"}"#),
    (3, r#"{"id":"","task":"x"}"#),
    (3, r#"{"id":["%1"],"task":"x"}"#),
    (3, r#"{"id":"%0","task":"x"}"#),
    (3, r#"{"id":"@1","task":"x"}"#),
    (
        3,
        r#"{"id":"00000000-0000-7000-8000-000000000001","task":"x"}"#,
    ),
    (
        3,
        r#"{"id":"00000000-0000-8000-8000-000100000001","task":"x"}"#,
    ),
    (
        3,
        r#"{"id":"00000000-0000-8000-a000-000000000001","task":"x"}"#,
    ),
    (3, r#"{"id":"%1","task":"x","group":"%1"}"#),
    (3, r#"{"id":"%1","task":"x","group":"@0"}"#),
    (3, r#"{"id":"%1","task":"x","group":"x"}"#),
    (3, r#"{"id":"%1","task":"x","group":7}"#),
];

#[test]
fn headers(rt: HostRuntime) {
    let wrong = first_wrong(rt.alloc(), Spot::Headers, ALL_HEADERS);
    assert!(rt; wrong.is_none(), "{wrong:?}");
}

/// The number of a refusal of a task's name.
fn name_code(alloc: Global, name: &str) -> u8 {
    match format!(in alloc; r#"{{"id":"%1","task":"{name}"}}"#) {
        Ok(headers) => code_of(alloc, PLAIN, &headers, "[[],{},null]"),
        Err(_) => u8::MAX,
    }
}

fn name_of(alloc: Global, length: u32) -> Result<String, AllocError> {
    let mut name = String::new(alloc);
    for _ in 0..length {
        name.push('x')?;
    }
    Ok(name)
}

/// Like `name_code`, for a name of `length` characters.
fn length_code(alloc: Global, length: u32) -> u8 {
    match name_of(alloc, length) {
        Ok(name) => name_code(alloc, &name),
        Err(_) => u8::MAX,
    }
}

/// The first length of a name whose number is another than it should be, with that number.
fn first_wrong_length(alloc: Global) -> Option<(u8, u32)> {
    for length in 0..130 {
        let code = if 1 <= length && length <= 128 { 0 } else { 2 };
        let found = length_code(alloc, length);
        if found != code {
            return Some((found, length));
        }
    }
    None
}

#[test]
fn lengths_of_names(rt: HostRuntime) {
    let wrong = first_wrong_length(rt.alloc());
    assert!(rt; wrong.is_none(), "{wrong:?}");
}

const BODIES: &[(u8, &str)] = &[
    (0, "[[],null,null]"),
    (0, r#"[["a",[1,2],[],-3],{"b":[],"a":"x"},null]"#),
    (0, "[[1152921504606846976,-1152921504606846976],{},{}]"),
    (1, "[[1e400],{},null]"),
    (5, "null"),
    (5, "{}"),
    (5, "[]"),
    (5, "[[2,2],{}]"),
    (5, "[[],{},null,null]"),
    (5, "[[1.5],{}]"),
    (6, "[null,{},null]"),
    (6, "[{},{},null]"),
    (6, r#"["a",{},null]"#),
    (6, "[[],[],null]"),
    (6, r#"[[],"k",null]"#),
    (6, "[[1.5],{},null]"),
    (6, "[[-0],{},null]"),
    (6, "[[null],{},null]"),
    (6, "[[true],{},null]"),
    (6, "[[{}],{},null]"),
    (6, r#"[[["a"]],{},null]"#),
    (6, "[[1152921504606846977],{},null]"),
    (6, "[[[1,-1152921504606846977]],{},null]"),
    (6, r#"[[],{"a":null},null]"#),
    (6, r#"[[],{"a":1e2},null]"#),
    (6, "[[1.5],{},7]"),
    (7, "[[2,2],{},7]"),
    (7, "[[],{},[]]"),
    (7, r#"[[],{},"x"]"#),
];

#[test]
fn bodies(rt: HostRuntime) {
    let wrong = first_wrong(rt.alloc(), Spot::Body, BODIES);
    assert!(rt; wrong.is_none(), "{wrong:?}");
}

/// The first of these envelopes whose number is another, with that number.
fn first_wrong_of_several<'a>(
    alloc: Global,
    rows: &'a [(u8, &'a str, &'a str, &'a str)],
) -> Option<(u8, [&'a str; 3])> {
    for &(code, properties, headers, body) in rows {
        let found = code_of(alloc, properties, headers, body);
        if found != code {
            return Some((found, [properties, headers, body]));
        }
    }
    None
}

const SEVERAL_FAULTS: &[(u8, &str, &str, &str)] = &[
    (1, "{", "{}", "{}"),
    (1, "[]", "{}", "["),
    (1, "[]", r#"{"task":"#, "{}"),
    (2, "[]", r#"{"id":"%1"}"#, "{}"),
    (2, "{}", "7", "[[1.5],{},7]"),
    (3, "{}", r#"{"task":"x"}"#, "{}"),
    (3, "[]", HEADERS, "[[1.5],{},7]"),
    (4, "{}", HEADERS, "{}"),
    (4, "{}", HEADERS, "[[1.5],{},7]"),
    (5, PROPERTIES, HEADERS, "[[1.5],7]"),
    (6, PROPERTIES, HEADERS, r#"[7,{},{"chain":7}]"#),
];

/// The first refusal in their order decides.
#[test]
fn several_faults(rt: HostRuntime) {
    let wrong = first_wrong_of_several(rt.alloc(), SEVERAL_FAULTS);
    assert!(rt; wrong.is_none(), "{wrong:?}");
}
