//! What goes with a call, and its refusals: all of them 7.

use crate::envelopes::embed_code;
use crate::tables::{Spot, first_wrong};
use canvas_samples::frozen_texts::filled;
use std::alloc::{AllocError, Global};

pub(crate) const HEADERS: &str = r#"{"id":"%1","task":"x"}"#;

const GROUP_HEADERS: &str = r#"{"group":"@1","id":"%1","task":"x"}"#;

const CALLBACKS: &[(u8, &str)] = &[
    (0, "null"),
    (0, r#"{"chord":null,"other":7}"#),
    (0, r#"{"callbacks":[],"errbacks":[],"chain":[]}"#),
    (
        0,
        r#"{"callbacks":[$2"}},$3"},"immutable":true}],"errbacks":[$4"},"args":["a"],"chord_size":"b"}]}"#,
    ),
    (
        0,
        r#"{"callbacks":[$2","link":$3"}},"link_error":[$4"}},$5"}}]}}]}"#,
    ),
    (7, "7"),
    (7, "[]"),
    (7, r#"{"callbacks":{}}"#),
    (7, r#"{"callbacks":$2"}}}"#),
    (7, r#"{"errbacks":7}"#),
    (7, r#"{"chain":{}}"#),
    (7, r#"{"chord":[]}"#),
    (7, r#"{"callbacks":[null]}"#),
    (7, r#"{"errbacks":[[]]}"#),
    (7, r#"{"callbacks":[{"task":"x"}]}"#),
    (
        7,
        r#"{"callbacks":[{"task":"x","options":{"task_id":null}}]}"#,
    ),
    (
        7,
        r#"{"callbacks":[{"task":"x","options":{"task_id":"@2"}}]}"#,
    ),
    (7, r#"{"callbacks":[$0"}}]}"#),
    (7, r#"{"callbacks":[&1"},"kwargs":{"tasks":[]}}]}"#),
    (
        7,
        r#"{"callbacks":[{"task":"x","subtask_type":"chain","kwargs":{"tasks":[$2"}}]}}]}"#,
    ),
    (7, r#"{"callbacks":[$2"},"subtask_type":"starmap"}]}"#),
    (7, r#"{"callbacks":[$2"},"args":7}]}"#),
    (7, r#"{"callbacks":[$2"},"args":[1.5]}]}"#),
    (7, r#"{"callbacks":[$2"},"immutable":1}]}"#),
    (7, r#"{"callbacks":[$2","link":7}}]}"#),
    (7, r#"{"callbacks":[$2","link":[{"task":"x"}]}}]}"#),
    (7, r#"{"callbacks":[$2","group_id":"@1"}}]}"#),
    (
        7,
        r#"{"errbacks":[$2","link_error":$3","group_id":"@1"}}}}]}"#,
    ),
];

#[test]
fn callbacks(rt: HostRuntime) {
    let wrong = first_wrong(rt.alloc(), Spot::Embed, CALLBACKS);
    assert!(rt; wrong.is_none(), "{wrong:?}");
}

const CHAINS: &[(u8, &str)] = &[
    (0, r#"{"chain":[$3"}},$2"}}]}"#),
    (0, r#"{"chain":[&1"},"kwargs":{"tasks":[]}},$2"}}]}"#),
    (
        0,
        r#"{"chain":[&1"},"kwargs":{"tasks":[$2"}},{"task":"x","subtask_type":"chain","kwargs":{"tasks":[$3"}},$4"}}]}}]}}]}"#,
    ),
    (
        0,
        r#"{"chain":[^1"},"kwargs":{"header":[],"body":$2"}}}}]}"#,
    ),
    (
        0,
        r#"{"chain":[^1"},"kwargs":{"header":[$2"}}],"body":&2"},"kwargs":{"tasks":[]}}}}]}"#,
    ),
    (
        0,
        r#"{"chain":[&1"},"kwargs":{"tasks":[^2"},"kwargs":{"header":[],"body":$2"}}}}]}}]}"#,
    ),
    (7, r#"{"chain":[null]}"#),
    (7, r#"{"chain":[{"task":"x"}]}"#),
    (
        7,
        r#"{"chain":[{"task":"x","subtask_type":"chain","kwargs":{"tasks":[$2"}}]}}]}"#,
    ),
    (7, r#"{"chain":[$2"}},&1"},"kwargs":{"tasks":[]}}]}"#),
    (
        7,
        r#"{"chain":[{"task":"x","subtask_type":"group","kwargs":{"tasks":[]}}]}"#,
    ),
    (7, r#"{"chain":[&0"},"kwargs":{"tasks":[]}}]}"#),
    (7, r#"{"chain":[&1"},"kwargs":{"tasks":{}}}]}"#),
    (7, r#"{"chain":[&1"},"args":[1],"kwargs":{"tasks":[]}}]}"#),
    (
        7,
        r#"{"chain":[&1","chord":$2"}}},"kwargs":{"tasks":[]}}]}"#,
    ),
    (
        7,
        r#"{"chain":[&1"},"kwargs":{"tasks":[&2"},"kwargs":{"tasks":[]}}]}}]}"#,
    ),
    (
        7,
        r#"{"chain":[&1"},"kwargs":{"tasks":[{"task":"x","subtask_type":"chain","kwargs":{"tasks":[]}}]}}]}"#,
    ),
    (
        7,
        r#"{"chain":[&1"},"kwargs":{"tasks":[{"task":"x","subtask_type":"chain","kwargs":{"tasks":[&2"},"kwargs":{"tasks":[]}},$2"}}]}}]}}]}"#,
    ),
    (7, r#"{"chain":[^1"},"kwargs":{"body":$2"}}}}]}"#),
    (
        7,
        r#"{"chain":[^1"},"kwargs":{"header":&2"},"kwargs":{"tasks":[]}},"body":$2"}}}}]}"#,
    ),
    (7, r#"{"chain":[^1"},"kwargs":{"header":[]}}]}"#),
    (
        7,
        r#"{"chain":[^1"},"kwargs":{"header":[&2"},"kwargs":{"tasks":[]}}],"body":$2"}}}}]}"#,
    ),
];

#[test]
fn chains(rt: HostRuntime) {
    let wrong = first_wrong(rt.alloc(), Spot::Embed, CHAINS);
    assert!(rt; wrong.is_none(), "{wrong:?}");
}

/// The first of these texts whose number is another, with that number.
fn first_wrong_place<'a>(
    alloc: Global,
    rows: &'a [(u8, &'a str, &'a str)],
) -> Option<(u8, &'a str, &'a str)> {
    for &(code, headers, embed) in rows {
        let found = embed_code(alloc, headers, embed);
        if found != code {
            return Some((found, headers, embed));
        }
    }
    None
}

const PLACES: &[(u8, &str, &str)] = &[
    (0, GROUP_HEADERS, "null"),
    (0, GROUP_HEADERS, r#"{"chain":[]}"#),
    (0, GROUP_HEADERS, r#"{"chord":$2"},"chord_size":1}}"#),
    (
        0,
        GROUP_HEADERS,
        r#"{"chord":{"task":"x","subtask_type":"chain","kwargs":{"tasks":[$2"}},$3","group_id":"@2"}}]},"chord_size":1024}}"#,
    ),
    (
        0,
        GROUP_HEADERS,
        r#"{"chord":&2"},"kwargs":{"tasks":[$2"}}]},"chord_size":3}}"#,
    ),
    (0, HEADERS, r#"{"chain":[$3","group_id":"@1"}},$2"}}]}"#),
    (
        0,
        HEADERS,
        r#"{"chain":[$2","group_id":"@1","chord":$3"},"chord_size":2}}}]}"#,
    ),
    (
        0,
        HEADERS,
        r#"{"chain":[^1"},"kwargs":{"header":[],"body":$2","group_id":"@2"}}}}]}"#,
    ),
    (7, HEADERS, r#"{"chord":$2"},"chord_size":1}}"#),
    (7, GROUP_HEADERS, r#"{"chain":[$2"}}]}"#),
    (
        7,
        GROUP_HEADERS,
        r#"{"chord":$2"},"chord_size":1},"chain":[$3"}}]}"#,
    ),
    (7, GROUP_HEADERS, r#"{"chord":{"task":"x","chord_size":1}}"#),
    (
        7,
        GROUP_HEADERS,
        r#"{"chord":{"task":"x","subtask_type":"chain","kwargs":{"tasks":[]},"chord_size":1}}"#,
    ),
    (
        7,
        GROUP_HEADERS,
        r#"{"chord":{"task":"x","subtask_type":"chain","kwargs":{"tasks":[$2","group_id":"@2"}},$3"}}]},"chord_size":1}}"#,
    ),
    (
        7,
        GROUP_HEADERS,
        r#"{"chord":&2"},"kwargs":{"tasks":[$2","group_id":"@2"}}]},"chord_size":1}}"#,
    ),
    (7, HEADERS, r#"{"chain":[$3"}},$2","group_id":"@1"}}]}"#),
    (
        7,
        HEADERS,
        r#"{"chain":[$2","chord":$3"},"chord_size":2}}}]}"#,
    ),
    (
        7,
        HEADERS,
        r#"{"chain":[$2","group_id":"@1","chord":$3"}}}}]}"#,
    ),
    (7, HEADERS, r#"{"chain":[$2","group_id":"%1"}}]}"#),
    (
        7,
        HEADERS,
        r#"{"chain":[&1"},"kwargs":{"tasks":[$2","group_id":"@1"}}]}}]}"#,
    ),
    (
        7,
        HEADERS,
        r#"{"chain":[^1"},"kwargs":{"header":[$2","group_id":"@1"}}],"body":$3"}}}}]}"#,
    ),
];

/// A place is on the last task of a line, and its members have none yet.
#[test]
fn places(rt: HostRuntime) {
    let wrong = first_wrong_place(rt.alloc(), PLACES);
    assert!(rt; wrong.is_none(), "{wrong:?}");
}

/// The number of a refusal of a chord's size.
pub(crate) fn size_code(alloc: Global, size: &str) -> u8 {
    match format!(in alloc; r#"{{"chord":$2"}},"chord_size":{size}}}}}"#) {
        Ok(embed) => embed_code(alloc, GROUP_HEADERS, &embed),
        Err(_) => u8::MAX,
    }
}

const SIZES: &[(u8, &str)] = &[
    (0, "1"),
    (0, "1024"),
    (7, "0"),
    (7, "1025"),
    (7, "-1"),
    (7, "3.0"),
    (7, "null"),
    (7, r#""3""#),
    (7, "4294967297"),
];

#[test]
fn sizes(rt: HostRuntime) {
    let wrong = first_wrong(rt.alloc(), Spot::Size, SIZES);
    assert!(rt; wrong.is_none(), "{wrong:?}");
}

/// A task several times, with commas between.
fn tasks(alloc: Global, count: u32) -> Result<String, AllocError> {
    let mut all = String::from_str(alloc, r#"$2"}}"#)?;
    for _ in 1..count {
        all.push_str(r#",$2"}}"#)?;
    }
    Ok(all)
}

/// The number of a refusal of a text between the last two of these, where the first is the headers.
fn code_around(alloc: Global, texts: &[&str; 3], text: &str) -> u8 {
    let [headers, before, after] = *texts;
    match format!(in alloc; "{before}{text}{after}") {
        Ok(embed) => embed_code(alloc, headers, &embed),
        Err(_) => u8::MAX,
    }
}

/// Like `code_around`, for a line of one element, with `count` members between these texts.
fn line_code(alloc: Global, texts: &[&str; 3], count: u32) -> u8 {
    match tasks(alloc, count) {
        Ok(members) => code_around(alloc, texts, &members),
        Err(_) => u8::MAX,
    }
}

/// Around the members of a chord, and of a group.
const CHORD: [&str; 3] = [
    HEADERS,
    r#"{"chain":[^1"},"kwargs":{"header":["#,
    r#"],"body":$3"}}}}]}"#,
];

const GROUP: [&str; 3] = [HEADERS, r#"{"chain":[&1"},"kwargs":{"tasks":["#, "]}}]}"];

#[test]
fn many_members(rt: HostRuntime) {
    for &(code, texts, count) in &[
        (0, &CHORD, 1024),
        (7, &CHORD, 1025),
        (0, &GROUP, 1024),
        (0, &GROUP, 1025),
    ] {
        let found = line_code(rt.alloc(), texts, count);
        assert!(rt; found == code, "{found}: {count}");
    }
}

/// A body that carries a body, and so on.
fn carried(alloc: Global, bodies: u32) -> Result<String, AllocError> {
    let mut text = filled(alloc, r#"$2"},"chord_size":1}"#)?;
    for _ in 1..bodies {
        text = format!(in alloc; r#"$2","group_id":"@1","chord":{text}}},"chord_size":1}}"#)?;
    }
    Ok(text)
}

/// Like `code_around`, for `bodies` bodies.
fn reach_code(alloc: Global, texts: &[&str; 3], bodies: u32) -> u8 {
    match carried(alloc, bodies) {
        Ok(text) => code_around(alloc, texts, &text),
        Err(_) => u8::MAX,
    }
}

/// Around the body of a message's own place, and of that of its line's last task.
const OWN: [&str; 3] = [GROUP_HEADERS, r#"{"chord":"#, "}"];

const LAST: [&str; 3] = [HEADERS, r#"{"chain":[$2","group_id":"@1","chord":"#, "}}]}"];

#[test]
fn reach(rt: HostRuntime) {
    for &(texts, bodies, code) in &[(&OWN, 31, 0), (&OWN, 32, 7), (&LAST, 30, 0), (&LAST, 31, 7)] {
        let found = reach_code(rt.alloc(), texts, bodies);
        assert!(rt; found == code, "{found}: {bodies} bodies");
    }
}
