//! A short notation of canvases: `C(..)` is a chain, `G(..)` a group, and `H[..|..]` a chord with
//! its header and body.

use std::alloc::{AllocError, Global};

/// The text of a sign.
pub(crate) fn piece(sign: char) -> &'static str {
    match sign {
        'C' => r#"{"task":"x","subtask_type":"chain","kwargs":{"tasks":"#,
        'G' => r#"{"task":"x","subtask_type":"group","kwargs":{"tasks":"#,
        'H' => r#"{"task":"x","subtask_type":"chord","kwargs":{"header":"#,
        '(' | '[' => "[",
        ')' => "]}}",
        '|' => r#"],"body":"#,
        ']' => "}}",
        ',' => ",",
        _ => "",
    }
}

/// A primitive over a part that is given several times.
pub(crate) fn repeated(
    alloc: Global,
    primitive: char,
    part: &str,
    count: u32,
) -> Result<String, AllocError> {
    let mut notation = String::new(alloc);
    write!(notation, "{primitive}(")?;
    for i in 0..count {
        let comma = if i > 0 { "," } else { "" };
        write!(notation, "{comma}{part}")?;
    }
    notation.push(')')?;
    Ok(notation)
}

/// A notation with a part in the place of its `_`.
pub(crate) fn filled(alloc: Global, frame: &str, part: &str) -> Result<String, AllocError> {
    match frame.split_once('_') {
        Some((before, behind)) => format!(in alloc; "{before}{part}{behind}"),
        None => String::from_str(alloc, frame),
    }
}
