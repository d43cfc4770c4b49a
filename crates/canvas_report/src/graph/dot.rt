//! The language of Graphviz: texts, and how tasks are drawn.

ghost use Rattle.std.specs.Prelude.{◌≡◌, ◌++◌, true, false, OnOk, string_bytes, codes};
ghost use Rattle.std.specs.Fmt.{digits};
ghost use Rattle.canvas_task.specs.Text.{Text};
ghost use Rattle.canvas_report.specs.Nodes.{inside, look, state_look};
ghost use Rattle.canvas_report.specs.steps.PieceLists.{AddsWhole};

use crate::fate::Fate;
use crate::shown::Status;
use crate::text::put;
use std::alloc::AllocError;

fn push_code(dot: &mut String, code: u32) -> Result<(), AllocError>
    ensures { OnOk result (string_bytes dot.new ≡ string_bytes dot.old
        ++ (codes "\\\\u{" ++ digits 16 false code ++ codes "}")) }
{
    write!(dot, "\\\\u{{{code:x}}}")?;
    Ok(())
}

/// Appends a character between quotes. One that isn't printable ASCII is escaped, so that no text
/// ends its quotes, or begins an escape of Graphviz or an entity of HTML.
fn push_escaped(dot: &mut String, c: char) -> Result<(), AllocError>
    ensures { OnOk result (AddsWhole (string_bytes dot.old) (string_bytes dot.new)) }
{
    match c {
        '"' => dot.push_str("\\\""),
        '\\' => dot.push_str("\\\\"),
        '\n' => dot.push_str("\\n"),
        '&' => dot.push_str("&amp;"),
        ' '..='~' => dot.push(c),
        _ => push_code(dot, c as u32),
    }
}

fn push_all_escaped(dot: &mut String, text: &str) -> Result<(), AllocError>
    ensures { OnOk result (AddsWhole (string_bytes dot.old) (string_bytes dot.new)) }
{
    for c in text.chars() {
        push_escaped(dot, c)?;
    }
    Ok(())
}

/// Appends a text in quotes.
pub(crate) fn push_quoted(dot: &mut String, text: &str) -> Result<(), AllocError>
    ensures { OnOk result ((inner : Text) × (inside inner ≡ true)
        × (string_bytes dot.new ≡ string_bytes dot.old ++ (codes "\"" ++ inner ++ codes "\""))) }
{
    put(dot, "\"")?;
    push_all_escaped(dot, text)?;
    put(dot, "\"")?;
    Ok(())
}

fn state_look(status: Option<Status>) -> &'static str
    ensures { result.now ≡ state_look status }
{
    match status {
        None => "shape=box, style=rounded",
        Some(Status::Pending) => "shape=box, style=\"dashed,filled\", fillcolor=\"#eeeeee\"",
        Some(Status::Success) => "shape=box, style=\"rounded,filled\", fillcolor=\"#d8f0d8\"",
        Some(Status::Failure) => "shape=octagon, style=filled, fillcolor=\"#f7d4d4\", penwidth=2",
    }
}

/// Returns how a task is drawn.
pub(crate) fn look_of(status: Option<Status>, fate: &Option<Fate>) -> &'static str
    ensures { result.now ≡ look fate.now status }
{
    if let Some(Fate::Skipped(_)) = fate {
        return "shape=hexagon, style=\"dashed,filled\", fillcolor=\"#fbeeee\"";
    }
    state_look(status)
}
