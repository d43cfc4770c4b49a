//! Texts of messages in a short notation: `%5` and `@5` are the identifiers of task 5 and of group
//! 5, `$5"}}` is a frozen task, and `&` and `^` begin a frozen group and chord in the same way.

use canvas_message::Envelope;
use canvas_task::ListOf;
use std::alloc::{AllocError, Global};

const TASK: &str = r#"{"task":"x","options":{"task_id":"00000000-0000-8000-8000-00000000000"#;

const GROUP: &str =
    r#"{"task":"x","subtask_type":"group","options":{"group_id":"00000000-0000-8000-9000-00000000000"#;

const CHORD: &str =
    r#"{"task":"x","subtask_type":"chord","options":{"group_id":"00000000-0000-8000-9000-00000000000"#;

/// The text of a sign, if it is not the sign itself.
fn piece(sign: char) -> Option<&'static str> {
    match sign {
        '%' => Some("00000000-0000-8000-8000-00000000000"),
        '@' => Some("00000000-0000-8000-9000-00000000000"),
        '$' => Some(TASK),
        '&' => Some(GROUP),
        '^' => Some(CHORD),
        _ => None,
    }
}

/// Appends the text of a sign.
fn push_sign(text: &mut String, sign: char) -> Result<(), AllocError> {
    match piece(sign) {
        Some(piece) => text.push_str(piece),
        None => text.push(sign),
    }
}

/// The text of the notation.
pub fn filled(alloc: Global, text: &str) -> Result<String, AllocError> {
    let mut all = String::new(alloc);
    for sign in text.chars() {
        push_sign(&mut all, sign)?;
    }
    Ok(all)
}

/// Its bytes.
fn bytes_of(alloc: Global, text: &str) -> Result<ListOf<u8>, AllocError> {
    Ok(ListOf::of(filled(alloc, text)?.into_bytes()))
}

/// An envelope whose texts have this notation.
pub fn envelope(
    alloc: Global,
    properties: &str,
    headers: &str,
    body: &str,
) -> Result<Envelope, AllocError> {
    Ok(Envelope {
        properties: bytes_of(alloc, properties)?,
        headers: bytes_of(alloc, headers)?,
        body: bytes_of(alloc, body)?,
    })
}
