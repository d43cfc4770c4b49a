//! Identifiers, arguments, and carried tasks without callbacks and place, written by known pieces:
//! constant bytes with identifiers, arguments and a name between them. This takes fewer steps than
//! tokens, which are each checked for characters to escape. A name or text with such characters is
//! written by the writer of tokens.

ghost use Rattle.std.specs.Prelude.{◌≡◌, true, Some, IfSome, string_bytes};
ghost use Rattle.serde_json.specs.Written.{compact_text};
ghost use Rattle.canvas_task.specs.Identifiers.{task_text};
ghost use Rattle.canvas_values.specs.Writing.{args_wire, kwargs_wire};
ghost use Rattle.canvas_task.specs.Entries.{named};
ghost use Rattle.canvas_semantics.specs.PlacedLine.{p_step, p_stop};
ghost use Rattle.canvas_rewrite.specs.declared.frozen.FrozenTask.{out-FrozenTask};
ghost use Rattle.canvas_rewrite.specs.FrozenView.{p_task_view, p_line_view};
ghost use Rattle.canvas_envelope.specs.MessageView.{place_seen};
ghost use Rattle.canvas_envelope.specs.Wire.{task_id, group_id, place_id, parent_id, task_wire};
ghost use Rattle.canvas_envelope.specs.steps.Texts.{Adds, name_text, bare, size_text, flag_text, call_text, own_text, args_text};

use crate::writing::text::{
    ascii, put, put_args, put_kwargs, put_quoted, put_size, put_string, put_task_text,
};
use canvas_rewrite::{FrozenLine, FrozenTask, Place};
use canvas_task::{Arg, GroupNo, TaskNo, group_text, task_text};
use std::alloc::{AllocError, Global};
use std::collections::BTreeMap;

fn put_group_id(out: &mut String, group: GroupNo) -> Result<(), AllocError>
    ensures { Adds result (string_bytes out.old) (string_bytes out.new)
        (compact_text (group_id group)) }
{
    put_quoted(out, ascii(&group_text(group)))
}

/// Appends the identifier of the group or chord of a place, or null if there is no place.
pub fn put_place_id(out: &mut String, place: &Option<Place>) -> Result<(), AllocError>
    ensures { Adds result (string_bytes out.old) (string_bytes out.new)
        (compact_text (place_id (place_seen place.now))) }
{
    match place {
        Some(place) => put_group_id(out, place.group),
        None => put(out, "null"),
    }
}

/// Appends the identifier of a task.
pub fn put_task_id(out: &mut String, task: TaskNo) -> Result<(), AllocError>
    ensures { Adds result (string_bytes out.old) (string_bytes out.new)
        (compact_text (task_id task)) }
{
    put_quoted(out, ascii(&task_text(task)))
}

/// Appends the identifier of a parent, or null if there is none.
pub fn put_parent_id(out: &mut String, parent: Option<TaskNo>) -> Result<(), AllocError>
    ensures { Adds result (string_bytes out.old) (string_bytes out.new)
        (compact_text (parent_id parent)) }
{
    match parent {
        Some(task) => put_task_id(out, task),
        None => put(out, "null"),
    }
}

/// Appends the name, which comes last.
fn put_name(alloc: Global, out: &mut String, name: &str) -> Result<(), AllocError>
    ensures { Adds result (string_bytes out.old) (string_bytes out.new) (name_text name.now) }
{
    put_string(alloc, out, name)?;
    put(out, "}")
}

/// Returns whether a task has neither callbacks nor a place.
fn is_bare(task: &FrozenTask) -> bool
    ensures { result ≡ true → p_task_view task.now ≡ bare task.now }
{
    task.links.get().is_empty() && task.errbacks.get().is_empty() && task.place.is_none()
}

/// Returns the task of a line that is only one task without callbacks and place.
pub(crate) fn bare_task(line: &FrozenLine) -> Option<&FrozenTask>
    ensures { IfSome result (λ task. p_line_view line.now ≡ p_step (bare task.now) p_stop) }
{
    match (&line.tail, line.tasks.get().as_slice()) {
        (None, [task]) if is_bare(task) => Some(task),
        _ => None,
    }
}

fn put_size_and_args(
    alloc: Global,
    out: &mut String,
    size: u32,
    args: &[Arg],
) -> Result<(), AllocError>
    ensures { Adds result (string_bytes out.old) (string_bytes out.new)
        (size_text size (args_wire args.now)) }
{
    put(out, "{\"args\":[")?;
    put_args(alloc, out, args)?;
    put(out, ",\"chord_size\":")?;
    put_size(out, size)
}

fn put_flag(out: &mut String, immutable: bool) -> Result<(), AllocError>
    ensures { Adds result (string_bytes out.old) (string_bytes out.new) (flag_text immutable) }
{
    if immutable {
        put(out, ",\"immutable\":true,\"kwargs\":")
    } else {
        put(out, ",\"immutable\":false,\"kwargs\":")
    }
}

/// Appends the part of a task before its options.
fn put_call(alloc: Global, out: &mut String, size: u32, task: &FrozenTask) -> Result<(), AllocError>
    ensures { Adds result (string_bytes out.old) (string_bytes out.new)
        (call_text size (args_wire (out-FrozenTask task.now).args)
        (out-FrozenTask task.now).immutable (kwargs_wire (out-FrozenTask task.now).kwargs)) }
{
    put_size_and_args(alloc, out, size, task.args.get())?;
    put_flag(out, task.immutable)?;
    put_kwargs(alloc, out, task.kwargs.get())
}

fn put_options(out: &mut String, task: TaskNo) -> Result<(), AllocError>
    ensures { Adds result (string_bytes out.old) (string_bytes out.new)
        (own_text (task_text task)) }
{
    put(out, ",\"options\":{\"task_id\":\"")?;
    put_task_text(out, task)?;
    put(out, "\"},\"subtask_type\":null,\"task\":")
}

/// Appends a task without callbacks and place that is carried for a header of this size.
pub(crate) fn put_task(
    alloc: Global,
    out: &mut String,
    size: u32,
    task: &FrozenTask,
) -> Result<(), AllocError>
    ensures { Adds result (string_bytes out.old) (string_bytes out.new)
        (compact_text (task_wire (Some size) (bare task.now))) }
{
    put_call(alloc, out, size, task)?;
    put_options(out, task.no)?;
    put_name(alloc, out, task.name.get())
}

pub(crate) fn put_arguments(
    alloc: Global,
    out: &mut String,
    args: &[Arg],
    kwargs: &BTreeMap<String, Arg>,
) -> Result<(), AllocError>
    ensures { Adds result (string_bytes out.old) (string_bytes out.new)
        (args_text (args_wire args.now) (kwargs_wire (named kwargs.now.entries))) }
{
    put(out, "[[")?;
    put_args(alloc, out, args)?;
    put(out, ",")?;
    put_kwargs(alloc, out, kwargs)
}
