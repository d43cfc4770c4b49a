//! Texts of envelopes, and the message that they are read as: what is written of it says which it
//! is. They were worked out by hand from the rules of messages.

use crate::envelopes::{BODY, HEADERS, PLAIN, PROPERTIES};
use canvas_codec::{decode, encode};
use canvas_envelope::{Envelope, Message, MessageFault};
use canvas_samples::frozen_texts::envelope;
use std::alloc::Global;

const NOTHING: &str = r#"{"callbacks":null,"chain":null,"chord":null,"errbacks":null}"#;

fn is_written_so(alloc: Global, message: &Message, written: &Envelope) -> bool {
    match encode(alloc, message) {
        Ok(found) => found == *written,
        Err(_) => false,
    }
}

/// Like `is_written_so`, for a read message; None if it was refused.
fn is_read_so(
    alloc: Global,
    read: &Result<Message, MessageFault>,
    written: &Envelope,
) -> Option<bool> {
    match read {
        Ok(message) => Some(is_written_so(alloc, message, written)),
        Err(_) => None,
    }
}

/// Whether an envelope is read as the message that is written so; None where it is refused.
fn alike(alloc: Global, envelope: &Envelope, written: &Envelope) -> Option<bool> {
    is_read_so(alloc, &decode(alloc, envelope), written)
}

/// Whether texts are written again as they are.
fn are_written(alloc: Global, properties: &str, headers: &str, body: &str) -> bool {
    match envelope(alloc, properties, headers, body) {
        Ok(written) => alike(alloc, &written, &written) == Some(true),
        Err(_) => false,
    }
}

/// Like `are_written`, if the properties have this identifier.
fn is_written(alloc: Global, task: &str, headers: &str, body: &str) -> bool {
    match format!(in alloc;
        r#"{{"content_encoding":"utf-8","content_type":"application/json","correlation_id":"{task}"}}"#
    ) {
        Ok(properties) => are_written(alloc, &properties, headers, body),
        Err(_) => false,
    }
}

const WRITTEN_TEXTS: &[(&str, &str, &str)] = &[
    ("%1", HEADERS, BODY),
    (
        "%2",
        r#"{"group":null,"id":"%2","lang":"rs","parent_id":"%1","root_id":"%1","task":"tasks.mul"}"#,
        r#"[[8,8],{},{"callbacks":null,"chain":null,"chord":null,"errbacks":null}]"#,
    ),
    (
        "%2",
        r#"{"group":"@1","id":"%2","lang":"rs","parent_id":null,"root_id":"%1","task":"tasks.div"}"#,
        r#"[[1,0],{},{"callbacks":null,"chain":null,"chord":{"args":[],"chord_size":3,"immutable":false,"kwargs":{},"options":{"link_error":[{"args":[],"immutable":false,"kwargs":{},"options":{"task_id":"%5"},"subtask_type":null,"task":"tasks.log_error"}],"task_id":"%4"},"subtask_type":null,"task":"tasks.xsum"},"errbacks":null}]"#,
    ),
    (
        "%5",
        r#"{"group":null,"id":"%5","lang":"rs","parent_id":"%4","root_id":"%1","task":"tasks.log_error"}"#,
        r#"[["%4"],{},{"callbacks":null,"chain":null,"chord":null,"errbacks":null}]"#,
    ),
];

/// What is written is read as what was written.
#[test]
fn written_texts(rt: HostRuntime) {
    for &(task, headers, body) in WRITTEN_TEXTS {
        assert!(rt;
            is_written(rt.alloc(), task, headers, body),
            "{headers} {body}"
        );
    }
}

/// Whether texts are read as the message of this envelope; None where they are refused.
fn reads_as(
    alloc: Global,
    properties: &str,
    headers: &str,
    body: &str,
    written: &Envelope,
) -> Option<bool> {
    match envelope(alloc, properties, headers, body) {
        Ok(read) => alike(alloc, &read, written),
        Err(_) => None,
    }
}

/// Like `reads_as`, for the message of a sum.
fn reads_as_sum(alloc: Global, properties: &str, headers: &str, body: &str) -> Option<bool> {
    match envelope(alloc, PROPERTIES, HEADERS, BODY) {
        Ok(written) => reads_as(alloc, properties, headers, body, &written),
        Err(_) => None,
    }
}

const OTHER_HEADERS: &[(&str, &str)] = &[
    (
        PROPERTIES,
        r#"{"task":"tasks.add","lang":"py","id":"%1","root_id":"%1","parent_id":null,"group":null,"retries":0,"origin":"a","eta":null}"#,
    ),
    (PLAIN, r#"{"id":"%1","task":"tasks.add"}"#),
    (
        PLAIN,
        r#"{"id":"{00000000-0000-8000-8000-000000000001}","task":"tasks.add","parent_id":"@1"}"#,
    ),
    (
        r#"{"reply_to":7,"correlation_id":"urn:uuid:%1","content_type":"application/json","content_encoding":"utf-8"}"#,
        r#"{"id":"%2","id":"%1","task":"tasks.\u0061dd","root_id":7}"#,
    ),
];

/// Headers and properties of other texts, around the same body.
#[test]
fn other_headers(rt: HostRuntime) {
    for &(properties, headers) in OTHER_HEADERS {
        assert!(rt;
            reads_as_sum(rt.alloc(), properties, headers, BODY) == Some(true),
            "{properties} {headers}"
        );
    }
}

/// Whether a body is read as another is written.
fn reads_as_body(alloc: Global, read: &str, body: &str) -> bool {
    match envelope(alloc, PROPERTIES, HEADERS, body) {
        Ok(written) => reads_as(alloc, PROPERTIES, HEADERS, read, &written) == Some(true),
        Err(_) => false,
    }
}

/// Whether a body is read as the one that is written with these parts.
fn is_body(alloc: Global, read: &str, args: &str, kwargs: &str, embed: &str) -> bool {
    match format!(in alloc; "[{args},{kwargs},{embed}]") {
        Ok(body) => reads_as_body(alloc, read, &body),
        Err(_) => false,
    }
}

const OTHER_BODIES: &[(&str, &str, &str, &str)] = &[
    ("[[2,2],{},null]", "[2,2]", "{}", NOTHING),
    ("[ [ 2 , 2 ] , null , { } ]", "[2,2]", "{}", NOTHING),
    (
        r#"[["\u0061",[]],{"b":1,"a":"x"},{"chain":[],"callbacks":[],"errbacks":[],"chord":null}]"#,
        r#"["a",[]]"#,
        r#"{"a":"x","b":1}"#,
        NOTHING,
    ),
    (
        r#"[[],{},{"chain":[$3"}},$2"}}]}]"#,
        "[]",
        "{}",
        r#"{"callbacks":null,"chain":[{"args":[],"immutable":false,"kwargs":{},"options":{"task_id":"%3"},"subtask_type":null,"task":"x"},{"args":[],"immutable":false,"kwargs":{},"options":{"task_id":"%2"},"subtask_type":null,"task":"x"}],"chord":null,"errbacks":null}"#,
    ),
    (
        r#"[[],{},{"callbacks":[{"task":"y","options":{"task_id":"%2","link":{"task":"z","options":{"task_id":"%3"}},"queue":"q"}}],"errbacks":[$4"}}]}]"#,
        "[]",
        "{}",
        r#"{"callbacks":[{"args":[],"immutable":false,"kwargs":{},"options":{"link":[{"args":[],"immutable":false,"kwargs":{},"options":{"task_id":"%3"},"subtask_type":null,"task":"z"}],"task_id":"%2"},"subtask_type":null,"task":"y"}],"chain":null,"chord":null,"errbacks":[{"args":[],"immutable":false,"kwargs":{},"options":{"task_id":"%4"},"subtask_type":null,"task":"x"}]}"#,
    ),
];

/// Bodies beside those that are written for the same message.
#[test]
fn other_bodies(rt: HostRuntime) {
    for &(read, args, kwargs, embed) in OTHER_BODIES {
        assert!(rt; is_body(rt.alloc(), read, args, kwargs, embed), "{read}");
    }
}

const OTHER_MESSAGES: &[(&str, &str)] = &[
    (HEADERS, "[[4,4],{},null]"),
    (r#"{"id":"%1","task":"tasks.add","parent_id":"%2"}"#, BODY),
    (r#"{"id":"%1","task":"tasks.mul"}"#, BODY),
];

/// Messages that differ aren't alike.
#[test]
fn other_messages(rt: HostRuntime) {
    for &(headers, body) in OTHER_MESSAGES {
        assert!(rt;
            reads_as_sum(rt.alloc(), PROPERTIES, headers, body) == Some(false),
            "{headers} {body}"
        );
    }
}
