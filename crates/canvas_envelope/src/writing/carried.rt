//! The text of the body that a place carries, which all members of a header share.

ghost use Rattle.std.specs.Prelude.{◌≡◌, ◌∷◌, ℕ, true, IfOk, IfSome, None, Some, string_bytes};
ghost use Rattle.std.specs.Str.{IsUtf8};
ghost use Rattle.json.specs.Print.{print};
ghost use Rattle.serde_json.specs.Written.{compact_text};
ghost use Rattle.canvas_rewrite.specs.declared.frozen.Carried.{out-Carried};
ghost use Rattle.canvas_rewrite.specs.FrozenView.{p_line_view};
ghost use Rattle.canvas_envelope.specs.MessageView.{place_view};
ghost use Rattle.canvas_semantics.specs.PlacedLine.{p_chord};
ghost use Rattle.canvas_envelope.specs.Content.{end_place};
ghost use Rattle.canvas_envelope.specs.SharedTexts.{SaysCarried, inner_place};
ghost use Rattle.canvas_envelope.specs.Wire.{line_wire, task_wire};
ghost use Rattle.canvas_envelope.specs.steps.Around.{carries, line_before, line_behind};
ghost use Rattle.canvas_envelope.specs.steps.Texts.{bare};

use crate::CarriedText;
use crate::writing::around::{carries, write_line_before, write_line_behind};
use crate::writing::frozen::write_line;
use crate::writing::light::{bare_task, put_task};
use crate::writing::room::{line_room, tasks_room};
use canvas_rewrite::{Carried, FrozenLine, FrozenTask, Place};
use json::Writer;
use std::alloc::{AllocError, Global};
use std::sync::Arc;

/// The room for the part of a line after the body that its end carries, without links and members.
const BEHIND_ROOM: usize = 300;

/// Returns the text of a task without callbacks and place, written by known pieces.
fn task_text(alloc: Global, task: &FrozenTask, size: u32) -> Result<String, AllocError>
    ensures { IfOk result (λ text. string_bytes text
        ≡ compact_text (task_wire (Some size) (bare task.now))) }
{
    let mut text = String::new(alloc);
    put_task(alloc, &mut text, size, task)?;
    Ok(text)
}

/// Returns the text of any line, written as tokens.
fn line_text(alloc: Global, line: &FrozenLine, size: u32) -> Result<String, AllocError>
    ensures { IfOk result (λ text. string_bytes text
        ≡ compact_text (line_wire (Some size) (p_line_view line.now))) }
{
    let mut out = Writer::new(Vec::with_capacity(alloc, line_room(line))?);
    write_line(&mut out, line, Some(size))?;
    Ok(String::from_utf8(out.into_inner()).unwrap())
}

/// Returns the whole text of a carried body.
fn whole_text(alloc: Global, carried: &Carried) -> Result<String, AllocError>
    ensures { IfOk result (λ text. string_bytes text ≡ compact_text
        (line_wire (Some (out-Carried carried.now).size)
        (p_line_view (out-Carried carried.now).body.value))) }
{
    match bare_task(&carried.body) {
        Some(task) => task_text(alloc, task, carried.size),
        None => line_text(alloc, &carried.body, carried.size),
    }
}

/// Returns the text of a line up to the text of the body that its end carries.
fn before(alloc: Global, line: &FrozenLine, size: u32) -> Result<String, AllocError>
    ensures { IfOk result (λ text. string_bytes text
        ≡ print (line_before (Some size) (p_line_view line.now))) }
{
    let mut out = Writer::new(Vec::with_capacity(alloc, tasks_room(line.tasks.get()))?);
    write_line_before(&mut out, line, Some(size))?;
    Ok(String::from_utf8(out.into_inner()).unwrap())
}

/// Returns the text of a line after the text of the body that its end carries.
fn behind(alloc: Global, line: &FrozenLine) -> Result<Vec<u8>, AllocError>
    ensures text { IfOk result
        (λ text. text.items ≡ 44 ∷ print (line_behind (p_line_view line.now))) }
    ensures utf8 { IfOk result (λ text. IsUtf8 text.items) }
{
    let mut text = Vec::with_capacity(alloc, BEHIND_ROOM)?;
    text.push(b',')?;
    let mut out = Writer::new(text);
    write_line_behind(&mut out, line)?;
    Ok(out.into_inner())
}

/// Makes the text of a carried body around the text of the body that its end carries.
fn text_around(
    alloc: Global,
    carried: &Carried,
    inner: &CarriedText,
) -> Result<CarriedText, AllocError>
    requires carries { carries (p_line_view (out-Carried carried.now).body.value) ≡ true }
    requires says { SaysCarried inner.now
        (end_place (p_line_view (out-Carried carried.now).body.value)) }
    ensures { IfOk result (λ t. (g : ℕ) → SaysCarried t (p_chord g (out-Carried carried.now).size
        (p_line_view (out-Carried carried.now).body.value))) }
{
    let before = before(alloc, &carried.body, carried.size)?;
    let behind = behind(alloc, &carried.body)?;
    CarriedText::around(alloc, before, inner, String::from_utf8(behind).unwrap())
}

/// Returns the text of a carried body. If its end carries a body whose text is known, that text is
/// shared.
pub(crate) fn body_text(
    alloc: Global,
    carried: &Carried,
    inner: &Option<Arc<CarriedText>>,
) -> Result<CarriedText, AllocError>
    requires { IfSome inner.now (λ t. SaysCarried t.value
        (end_place (p_line_view (out-Carried carried.now).body.value))) }
    ensures { IfOk result (λ t. (g : ℕ) → SaysCarried t (p_chord g (out-Carried carried.now).size
        (p_line_view (out-Carried carried.now).body.value))) }
{
    match inner {
        Some(inner) if carries(&carried.body) => text_around(alloc, carried, inner),
        _ => CarriedText::alone(alloc, whole_text(alloc, carried)?),
    }
}

/// Returns the text of the body that a place carries, if it carries one. Members share it through
/// their messages (`Texts` of `canvas_envelope`). `inner` is the text of the body that the end of
/// this one carries, if it is known; it becomes part of the result, which shares it.
pub fn carried_text(
    alloc: Global,
    place: &Place,
    inner: &Option<Arc<CarriedText>>,
) -> Result<Option<Arc<CarriedText>>, AllocError>
    requires { IfSome inner.now
        (λ t. SaysCarried t.value (inner_place (place_view place.now))) }
    ensures { IfOk result
        (λ text. IfSome text (λ t. SaysCarried t.value (place_view place.now))) }
{
    match &place.chord {
        Some(carried) => Ok(Some(Arc::new(alloc, body_text(alloc, carried, inner)?)?)),
        None => Ok(None),
    }
}
