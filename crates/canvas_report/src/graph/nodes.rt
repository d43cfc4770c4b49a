//! The nodes of a picture, and the frames round them.

ghost use Rattle.std.specs.Prelude.{◌≡◌, ◌++◌, ◌∷◌, [], ℕ, OnOk, map, option_map, decimal, codes, string_bytes};
ghost use Rattle.canvas_task.specs.Text.{Text};
ghost use Rattle.canvas_rewrite.specs.FrozenView.{task_in, line_in, end_in};
ghost use Rattle.canvas_rewrite.specs.declared.frozen.FrozenEnd.{out-FrozenEnd};
ghost use Rattle.canvas_semantics.specs.Line.{no_of};
ghost use Rattle.canvas_report.specs.Ends.{node_text, firsts, member_lasts};
ghost use Rattle.canvas_report.specs.Nodes.{looks, node, opens, closes, kind, frame_line, label_line, joints, task_pieces, line_pieces};
ghost use Rattle.canvas_report.specs.StoredRows.{row_of, row_status};
ghost use Rattle.canvas_report.specs.steps.PieceLists.{Adds, AddsNode, tasks_pieces, lines_pieces, frame_pieces, list_points};

use crate::fate::{Fate, fate_in};
use crate::graph::dot::{look_of, push_quoted};
use crate::graph::edges::{Node, chord_has_joint, has_none};
use crate::graph::label::label_of;
use crate::row::Row;
use crate::shown::{Status, status_at};
use crate::text::put;
use canvas_rewrite::{FrozenEnd, FrozenLine, FrozenTask};
use canvas_task::{GroupNo, TaskNo};
use std::alloc::{AllocError, Global};

/// What is shown of tasks besides their calls.
#[derive(Clone, Copy)]
pub(crate) struct Seen<'r> {
    pub rows: Option<&'r [Row]>,
    /// The fate of each task, if there was a run.
    pub fates: &'r [(TaskNo, Fate)],
}

/// Returns the status in a task's row, if rows are given.
fn status_in(seen: &Seen<'_>, task: TaskNo) -> Option<Status>
    ensures { result ≡ option_map (λ rows. row_status (row_of rows task))
        (option_map (λ rows. rows.now) seen.now.rows) }
{
    Some(status_at(seen.rows?, task))
}

fn push_beginning(text: &mut String, number: u32, look: &str) -> Result<(), AllocError>
    ensures { OnOk result (string_bytes text.new ≡ string_bytes text.old
        ++ (codes "  t" ++ decimal number ++ codes " [" ++ look.now ++ codes ", label=")) }
{
    write!(text, "  t{number} [{look}, label=")?;
    Ok(())
}

fn push_labelled(text: &mut String, task: TaskNo, look: &str, label: &str) -> Result<(), AllocError>
    ensures { OnOk result
        (AddsNode task look.now (string_bytes text.old) (string_bytes text.new)) }
{
    push_beginning(text, task.get(), look)?;
    push_quoted(text, label)?;
    put(text, "];\n")
}

/// Appends a task, without its callbacks.
fn push_node(
    alloc: Global,
    text: &mut String,
    task: &FrozenTask,
    seen: &Seen<'_>,
) -> Result<(), AllocError>
    ensures { OnOk result (Adds
        (looks seen.now.fates.now (option_map (λ rows. rows.now) seen.now.rows))
        (node (no_of (task_in task.now)) ∷ []) (string_bytes text.old) (string_bytes text.new)) }
{
    let fate = fate_in(seen.fates, task.no);
    let label = label_of(alloc, task, seen.rows, &fate)?;
    let look = look_of(status_in(seen, task.no), &fate);
    push_labelled(text, task.no, look, &label)
}

#[cycle(tasks)]
fn push_task(
    alloc: Global,
    text: &mut String,
    task: &FrozenTask,
    seen: &Seen<'_>,
) -> Result<(), AllocError>
    ensures { OnOk result (Adds
        (looks seen.now.fates.now (option_map (λ rows. rows.now) seen.now.rows))
        (task_pieces (task_in task.now)) (string_bytes text.old) (string_bytes text.new)) }
{
    push_node(alloc, text, task, seen)?;
    push_tasks(alloc, text, task.links.get(), seen)?;
    push_tasks(alloc, text, task.errbacks.get(), seen)
}

#[cycle(tasks)]
fn push_tasks(
    alloc: Global,
    text: &mut String,
    tasks: &[FrozenTask],
    seen: &Seen<'_>,
) -> Result<(), AllocError>
    ensures { OnOk result (Adds
        (looks seen.now.fates.now (option_map (λ rows. rows.now) seen.now.rows))
        (tasks_pieces (map task_in tasks.now)) (string_bytes text.old) (string_bytes text.new)) }
{
    for task in tasks {
        push_task(alloc, text, task, seen)?;
    }
    Ok(())
}

fn kind_of(is_chord: bool) -> &'static str
    ensures { result.now ≡ kind is_chord }
{
    if is_chord { "chord" } else { "group" }
}

fn push_frame_line(text: &mut String, number: u32) -> Result<(), AllocError>
    ensures { OnOk result
        (string_bytes text.new ≡ string_bytes text.old ++ frame_line number) }
{
    writeln!(text, "  subgraph cluster_{number} {{")?;
    Ok(())
}

fn push_label_line(text: &mut String, kind: &str, number: u32) -> Result<(), AllocError>
    ensures { OnOk result
        (string_bytes text.new ≡ string_bytes text.old ++ label_line kind.now number) }
{
    writeln!(text, "  label=\"{kind} {number}\";")?;
    Ok(())
}

/// Appends the head of the frame of a group or chord.
fn push_opening(text: &mut String, group: GroupNo, is_chord: bool) -> Result<(), AllocError>
    ensures { (at : ℕ → Text) → OnOk result
        (Adds at (opens is_chord group ∷ []) (string_bytes text.old) (string_bytes text.new)) }
{
    push_frame_line(text, group.get())?;
    push_label_line(text, kind_of(is_chord), group.get())
}

fn push_dot(text: &mut String, node: Node) -> Result<(), AllocError>
    ensures { OnOk result (string_bytes text.new ≡ string_bytes text.old
        ++ (codes "  " ++ node_text node ++ codes " [shape=point];\n")) }
{
    writeln!(text, "  {node} [shape=point];")?;
    Ok(())
}

fn push_point(text: &mut String, group: GroupNo, members: &[FrozenLine]) -> Result<(), AllocError>
    ensures { (at : ℕ → Text) → OnOk result (Adds at (list_points group (map line_in members.now))
        (string_bytes text.old) (string_bytes text.new)) }
{
    if has_none(members) {
        push_dot(text, Node::Group(group.get()))
    } else {
        Ok(())
    }
}

/// Appends the point between the header of a chord and its body, if there is one.
fn push_joint(
    alloc: Global,
    text: &mut String,
    end: &FrozenEnd,
    body: &FrozenLine,
) -> Result<(), AllocError>
    ensures { (at : ℕ → Text) → OnOk result (Adds at (joints (out-FrozenEnd end.now).group
        (member_lasts (end_in end.now)) (firsts (line_in body.now)))
        (string_bytes text.old) (string_bytes text.new)) }
{
    if chord_has_joint(alloc, end, body)? {
        push_dot(text, Node::Joint(end.group.get()))
    } else {
        Ok(())
    }
}

fn push_closing(text: &mut String) -> Result<(), AllocError>
    ensures { (at : ℕ → Text) → OnOk result
        (Adds at (closes ∷ []) (string_bytes text.old) (string_bytes text.new)) }
{
    put(text, "  }\n")
}

#[cycle(lines)]
pub(crate) fn push_line(
    alloc: Global,
    text: &mut String,
    line: &FrozenLine,
    seen: &Seen<'_>,
) -> Result<(), AllocError>
    ensures { OnOk result (Adds
        (looks seen.now.fates.now (option_map (λ rows. rows.now) seen.now.rows))
        (line_pieces (line_in line.now)) (string_bytes text.old) (string_bytes text.new)) }
{
    push_tasks(alloc, text, line.tasks.get(), seen)?;
    match &line.tail {
        Some(end) => push_end(alloc, text, end, seen),
        None => Ok(()),
    }
}

#[cycle(lines)]
fn push_end(
    alloc: Global,
    text: &mut String,
    end: &FrozenEnd,
    seen: &Seen<'_>,
) -> Result<(), AllocError>
    ensures { OnOk result (Adds
        (looks seen.now.fates.now (option_map (λ rows. rows.now) seen.now.rows))
        (line_pieces (end_in end.now)) (string_bytes text.old) (string_bytes text.new)) }
{
    match &end.body {
        Some(body) => {
            push_frame(alloc, text, end, true, seen)?;
            push_joint(alloc, text, end, body)?;
            push_line(alloc, text, body, seen)
        }
        None => push_frame(alloc, text, end, false, seen),
    }
}

/// Appends the frame of a group or chord, with its members.
#[cycle(lines)]
fn push_frame(
    alloc: Global,
    text: &mut String,
    end: &FrozenEnd,
    is_chord: bool,
    seen: &Seen<'_>,
) -> Result<(), AllocError>
    ensures { OnOk result (Adds
        (looks seen.now.fates.now (option_map (λ rows. rows.now) seen.now.rows))
        (frame_pieces is_chord (end_in end.now)) (string_bytes text.old) (string_bytes text.new)) }
{
    push_opening(text, end.group, is_chord)?;
    push_point(text, end.group, end.members.get())?;
    push_members(alloc, text, end.members.get(), seen)?;
    push_closing(text)
}

#[cycle(lines)]
fn push_members(
    alloc: Global,
    text: &mut String,
    members: &[FrozenLine],
    seen: &Seen<'_>,
) -> Result<(), AllocError>
    ensures { OnOk result (Adds
        (looks seen.now.fates.now (option_map (λ rows. rows.now) seen.now.rows))
        (lines_pieces (map line_in members.now)) (string_bytes text.old) (string_bytes text.new)) }
{
    for member in members {
        push_line(alloc, text, member, seen)?;
    }
    Ok(())
}
