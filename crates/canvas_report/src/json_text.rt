//! Texts and messages as JSON.

ghost use Rattle.std.specs.Prelude.{◌≡◌, ◌++◌, ◌∷◌, [], IfOk, OnOk, codes, string_bytes};
ghost use Rattle.canvas_task.specs.Text.{Text};
ghost use Rattle.json.specs.Print.{escape, quoted};
ghost use Rattle.serde_json.specs.Written.{compact_text};
ghost use Rattle.canvas_report.specs.MessageLines.{text_wire, message_wire};

use crate::text::put;
use canvas_envelope::Envelope;
use serde_json::Value;
use std::alloc::{AllocError, Global};
use std::str;

/// Returns a text as a JSON string.
pub fn quoted_json(alloc: Global, text: &str) -> Result<String, AllocError>
    ensures { IfOk result (λ made. string_bytes made ≡ quoted text.now) }
{
    Value::String(String::from_str(alloc, text)?).to_string(alloc)
}

fn behind_quote(text: &str) -> &str
    ensures { (rest : Text) → text.now ≡ 34 ∷ rest → result.now ≡ rest }
{
    match text.strip_prefix('"') {
        Some(rest) => rest,
        None => text,
    }
}

fn before_quote(text: &str) -> &str
    ensures { (front : Text) → text.now ≡ front ++ (34 ∷ []) → result.now ≡ front }
{
    match text.strip_suffix('"') {
        Some(front) => front,
        None => text,
    }
}

/// Returns a text as it is between the quotes of a JSON string.
pub fn escaped_json(alloc: Global, text: &str) -> Result<String, AllocError>
    ensures { IfOk result (λ made. string_bytes made ≡ escape text.now) }
{
    let quoted = quoted_json(alloc, text)?;
    String::from_str(alloc, before_quote(behind_quote(&quoted)))
}

/// Appends one of a message's three texts. What `encode` writes is UTF-8.
fn push_text(line: &mut String, alloc: Global, bytes: &[u8]) -> Result<(), AllocError>
    ensures { OnOk result (string_bytes line.new
        ≡ string_bytes line.old ++ compact_text (text_wire bytes.now)) }
{
    match str::from_utf8(bytes) {
        Ok(text) => put(line, &quoted_json(alloc, text)?),
        Err(_) => put(line, "null"),
    }
}

fn push_member(line: &mut String, alloc: Global, name: &str, bytes: &[u8]) -> Result<(), AllocError>
    ensures { OnOk result (string_bytes line.new
        ≡ string_bytes line.old ++ (name.now ++ compact_text (text_wire bytes.now))) }
{
    put(line, name)?;
    push_text(line, alloc, bytes)
}

/// Returns a message as a JSON object in a line: its body, its headers and its properties, each a
/// text.
pub fn message_line(alloc: Global, envelope: &Envelope) -> Result<String, AllocError>
    ensures { IfOk result (λ line. string_bytes line ≡ compact_text (message_wire
        envelope.now.properties envelope.now.headers envelope.now.body) ++ codes "\n") }
{
    let mut line = String::new(alloc);
    push_member(&mut line, alloc, "{\"body\":", envelope.body.get())?;
    push_member(&mut line, alloc, ",\"headers\":", envelope.headers.get())?;
    push_member(
        &mut line,
        alloc,
        ",\"properties\":",
        envelope.properties.get(),
    )?;
    put(&mut line, "}\n")?;
    Ok(line)
}
