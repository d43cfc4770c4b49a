//! The text of the rest of a line, which its messages share. The last element comes first in
//! `chain`, so each time a task is taken the text of what is left is a prefix, and writing the
//! messages of a chain takes time linear in its length.

ghost use Rattle.std.specs.Prelude.{◌≡◌, ◌∷◌, [], ◌++◌, ℕ, List, true, IfOk, IfSome, None, OnOk, map, string_bytes};
ghost use Rattle.std.specs.Str.{IsUtf8};
ghost use Rattle.json.specs.Print.{print};
ghost use Rattle.serde_json.specs.Written.{comma_if};
ghost use Rattle.canvas_semantics.specs.PlacedLine.{PLine, p_step};
ghost use Rattle.canvas_rewrite.specs.FrozenView.{p_steps, p_task_view, p_line_view};
ghost use Rattle.canvas_envelope.specs.Content.{end_place};
ghost use Rattle.canvas_envelope.specs.SharedTexts.{IsLineText, IsListed, SaysCarried, backwards, elements_head, elements_own, head_text};
ghost use Rattle.canvas_envelope.specs.steps.Around.{carries, front_tasks, last_before, last_behind};
ghost use Rattle.canvas_envelope.specs.steps.Listing.{Listing, tail_line};

use crate::writing::around::{carries, write_last_before, write_last_behind};
use crate::writing::frozen::{write_tail, write_task};
use crate::writing::room::tasks_room;
use crate::{CarriedText, ElementsText, Head, LineText};
use canvas_rewrite::{FrozenLine, FrozenTask};
use json::Writer;
use std::alloc::{AllocError, Global};
use std::sync::Arc;

/// The room for the part of a line's last element after the body that it carries, without links.
const BEHIND_ROOM: usize = 230;

/// The last elements of a line, as far as they are written, after the head.
#[derive(Drop)]
struct Listed {
    text: Vec<u8>,
    ends: Vec<usize>,
}

/// Writes the group or chord that a line ends in, if there is one.
fn begin(alloc: Global, line: &FrozenLine) -> Result<Listed, AllocError>
    ensures { IfOk result
        (λ l. Listing [] l.text.items l.ends.items (tail_line (p_line_view line.now))) }
{
    let tasks = line.tasks.get();
    let mut ends = Vec::with_capacity(alloc, tasks.len().saturating_add(1))?;
    let mut out = Writer::new(Vec::with_capacity(alloc, tasks_room(tasks))?);
    write_tail(&mut out, line)?;
    let text = out.into_inner();
    if line.tail.is_some() {
        ends.push(text.len())?;
    }
    Ok(Listed { text, ends })
}

/// Returns the tasks before the last element of a line.
fn front(line: &FrozenLine) -> &[FrozenTask]
    ensures { map p_task_view result.now ≡ front_tasks (p_line_view line.now) }
{
    let tasks = line.tasks.get().as_slice();
    match &line.tail {
        Some(_end) => tasks,
        None => match tasks.split_last() {
            Some((_last, others)) => others,
            None => tasks,
        },
    }
}

/// Returns the last element of a line up to the text of the body that it carries.
fn before(alloc: Global, line: &FrozenLine) -> Result<String, AllocError>
    ensures { IfOk result (λ text. string_bytes text ≡ print (last_before (p_line_view line.now))) }
{
    let mut out = Writer::new(Vec::with_capacity(alloc, tasks_room(line.tasks.get()))?);
    write_last_before(&mut out, line)?;
    Ok(String::from_utf8(out.into_inner()).unwrap())
}

/// Returns the last element of a line after the text of the body that it carries.
fn behind(alloc: Global, line: &FrozenLine) -> Result<Vec<u8>, AllocError>
    ensures text { IfOk result
        (λ text. text.items ≡ 44 ∷ print (last_behind (p_line_view line.now))) }
    ensures utf8 { IfOk result (λ text. IsUtf8 text.items) }
{
    let mut text = Vec::with_capacity(alloc, BEHIND_ROOM)?;
    text.push(b',')?;
    let mut out = Writer::new(text);
    write_last_behind(&mut out, line)?;
    Ok(out.into_inner())
}

fn put_comma(text: &mut Vec<u8>, later: bool) -> Result<(), AllocError>
    ensures { OnOk result (text.new.items ≡ text.old.items ++ comma_if later) }
{
    if later {
        text.push(b',')?;
    }
    Ok(())
}

/// Appends a task that comes before those written so far.
fn add(listed: Listed, task: &FrozenTask) -> Result<Listed, AllocError>
    ensures { IfOk result (λ l. (head : List ℕ) (line : PLine)
        → Listing head listed.text.items listed.ends.items line
        → Listing head l.text.items l.ends.items (p_step (p_task_view task.now) line)) }
{
    let Listed { text, ends } = listed;
    let mut text = text;
    put_comma(&mut text, !ends.is_empty())?;
    let mut out = Writer::new(text);
    write_task(&mut out, task, None)?;
    let text = out.into_inner();
    let mut ends = ends;
    ends.push(text.len())?;
    Ok(Listed { text, ends })
}

/// Appends tasks that come before those written so far.
fn add_all(listed: Listed, tasks: &[FrozenTask]) -> Result<Listed, AllocError>
    ensures { IfOk result (λ l. (head : List ℕ) (line : PLine)
        → Listing head listed.text.items listed.ends.items line
        → Listing head l.text.items l.ends.items (p_steps (map p_task_view tasks.now) line)) }
{
    let mut listed = listed;
    let mut left = tasks.len();
    while left > 0 {
        left -= 1;
        listed = add(listed, &tasks[left])?;
    }
    Ok(listed)
}

fn share(alloc: Global, head: Option<Head>, listed: Listed) -> Result<LineText, AllocError>
    requires { IsUtf8 listed.text.items }
    ensures { IfOk result (λ t. (line : PLine)
        → Listing (head_text head) listed.text.items listed.ends.items line
        → IsLineText t line × IsListed (elements_head t ++ elements_own t) (backwards line)) }
{
    let Listed { text, ends } = listed;
    let own = String::from_utf8(text).unwrap();
    let text = Arc::new(alloc, ElementsText { head, own })?;
    Ok(LineText { text, ends })
}

/// Returns the text of a line, without sharing that of a carried body.
fn whole_text(alloc: Global, line: &FrozenLine) -> Result<LineText, AllocError>
    ensures { IfOk result (λ t. IsLineText t (p_line_view line.now)
        × IsListed (elements_head t ++ elements_own t) (backwards (p_line_view line.now))) }
{
    let listed = begin(alloc, line)?;
    let listed = add_all(listed, line.tasks.get())?;
    share(alloc, None, listed)
}

/// Returns the text of a line around that of the body that its end carries.
fn text_around(
    alloc: Global,
    line: &FrozenLine,
    carried: &Arc<CarriedText>,
) -> Result<LineText, AllocError>
    requires carries { carries (p_line_view line.now) ≡ true }
    requires says { SaysCarried carried.now.value (end_place (p_line_view line.now)) }
    ensures { IfOk result (λ t. IsLineText t (p_line_view line.now)
        × IsListed (elements_head t ++ elements_own t) (backwards (p_line_view line.now))) }
{
    let before = before(alloc, line)?;
    let text = behind(alloc, line)?;
    let others = front(line);
    let mut ends = Vec::with_capacity(alloc, others.len().saturating_add(1))?;
    ends.push(text.len())?;
    let listed = add_all(Listed { text, ends }, others)?;
    let carried = Arc::try_clone(carried)?;
    share(alloc, Some(Head { before, carried }), listed)
}

/// Returns the text of a line, the last element first. If its end carries a body whose text is
/// known, that text is shared.
pub fn line_text(
    alloc: Global,
    line: &FrozenLine,
    carried: &Option<Arc<CarriedText>>,
) -> Result<LineText, AllocError>
    requires { IfSome carried.now
        (λ t. SaysCarried t.value (end_place (p_line_view line.now))) }
    ensures { IfOk result (λ t. IsLineText t (p_line_view line.now)
        × IsListed (elements_head t ++ elements_own t) (backwards (p_line_view line.now))) }
{
    match carried {
        Some(carried) if carries(line) => text_around(alloc, line, carried),
        _ => whole_text(alloc, line),
    }
}
