//! Lists that are nested deeply in the bodies of messages.

use crate::envelopes::{PLAIN, code_of};
use std::alloc::{AllocError, Global};

/// Lists nested to this depth, between two texts.
fn nested(alloc: Global, before: &str, depth: u32, behind: &str) -> Result<String, AllocError> {
    let mut text = String::from_str(alloc, before)?;
    for _ in 0..depth {
        text.push('[')?;
    }
    for _ in 0..depth {
        text.push(']')?;
    }
    text.push_str(behind)?;
    Ok(text)
}

const HEADERS: &str = r#"{"id":"%1","task":"tasks.add"}"#;

/// The number of the refusal of a body of lists nested to this depth, between two texts.
fn nested_code_of(alloc: Global, before: &str, depth: u32, behind: &str) -> u8 {
    match nested(alloc, before, depth, behind) {
        Ok(body) => code_of(alloc, PLAIN, HEADERS, &body),
        Err(_) => u8::MAX,
    }
}

/// Like `nested_code_of`, for lists nested a hundred and two hundred deep.
fn codes_of(alloc: Global, before: &str, behind: &str) -> [u8; 2] {
    [
        nested_code_of(alloc, before, 100, behind),
        nested_code_of(alloc, before, 200, behind),
    ]
}

/// JSON nests at most 127 deep.
#[test]
fn in_bodies(rt: HostRuntime) {
    for &(before, behind, code) in &[
        ("", "", 5),
        ("[", ",{},null]", 6),
        (r#"[[],{"x":"#, "},null]", 6),
        ("[[],{},", "]", 7),
        (r#"[[],{},{"callbacks":"#, "}]", 7),
        (r#"[[],{},{"chain":"#, "}]", 7),
        (r#"[[],{},{"chord":"#, "}]", 7),
        (r#"[[],{},{"x":"#, "}]", 0),
    ] {
        let found = codes_of(rt.alloc(), before, behind);
        assert!(rt; found == [code, 1], "{before}: {found:?}");
    }
}
