//! Canvases and reports that are spelled shortly.
//!
//! A canvas has a frame and its calls in the order of the file. In the frame `.` is the next call
//! and `!` the same made immutable, `C(..)` is a chain, `G(..)` a group and `H[..|..]` a chord with
//! its header and body; `+..>` is the next call with links, `?..>` with error callbacks. A call is
//! written `add:1,2`. In a report `#7` is the identifier of task 7.

use crate::notation::piece;
use canvas_task::Memory;
use std::alloc::Global;

fn push_call(text: &mut String, call: &str) -> Result<(), Memory> {
    if let Some((name, args)) = call.split_once(':') {
        write!(text, "{{\"task\":\"tasks.{name}\",\"args\":[{args}]")?;
    }
    Ok(())
}

/// The text after a call of this sign, or instead of another sign.
fn behind(sign: char) -> &'static str {
    match sign {
        '.' => "}",
        '!' => r#","immutable":true}"#,
        '+' => r#","options":{"link":["#,
        '?' => r#","options":{"link_error":["#,
        '>' => "]}}",
        _ => piece(sign),
    }
}

/// The JSON text of a canvas.
pub fn canvas(alloc: Global, frame: &str, calls: &str) -> Result<String, Memory> {
    let mut text = String::new(alloc);
    let mut calls = calls.split_whitespace();
    for sign in frame.chars() {
        if matches!(sign, '.' | '!' | '+' | '?') {
            push_call(&mut text, calls.next().unwrap_or(""))?;
        }
        text.push_str(behind(sign))?;
    }
    Ok(text)
}

/// Appends a sign, and before it the identifier of a task that was named there.
fn push_behind(text: &mut String, named: Option<u32>, sign: char) -> Result<(), Memory> {
    match named {
        Some(task) => write!(text, "00000000-0000-8000-8000-0000{task:08x}{sign}")?,
        None => text.push(sign)?,
    }
    Ok(())
}

/// The text of a report.
pub fn report(alloc: Global, short: &str) -> Result<String, Memory> {
    let mut text = String::new(alloc);
    let mut named: Option<u32> = None;
    for sign in short.chars() {
        match (named, sign.to_digit(10)) {
            (Some(task), Some(digit)) => {
                named = Some(task.saturating_mul(10).saturating_add(digit));
            }
            _ if sign == '#' => named = Some(0),
            _ => {
                push_behind(&mut text, named, sign)?;
                named = None;
            }
        }
    }
    Ok(text)
}
