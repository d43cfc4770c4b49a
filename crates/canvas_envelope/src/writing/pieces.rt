//! The parts of frozen signatures that contain no signature.

ghost use Rattle.std.specs.Prelude.{◌∷◌, [], ◌++◌, codes, decimal};
ghost use Rattle.json.specs.Token.{begin_object, end_object, key, number};
ghost use Rattle.serde_json.specs.Data.{string};
ghost use Rattle.canvas_rewrite.specs.FrozenView.{p_task_view};
ghost use Rattle.canvas_values.specs.steps.Tokens.{Appends};
ghost use Rattle.canvas_values.specs.Writing.{args_wire};
ghost use Rattle.canvas_envelope.specs.steps.Tokens.{size_tokens, start_tokens, task_front, unless_null, opening_tokens, chain_behind, group_closing, named_tokens};
ghost use Rattle.canvas_envelope.specs.MessageView.{place_seen};
ghost use Rattle.canvas_envelope.specs.Wire.{task_id, group_id, place_id};

use crate::writing::identifiers::{write_group_id, write_task_member};
use canvas_rewrite::{FrozenTask, Place};
use canvas_task::{Arg, GroupNo, TaskNo};
use canvas_values::{write_closing, write_flag, write_front, write_kind, write_kwargs};
use json::Writer;
use std::alloc::AllocError;

fn write_how_many(out: &mut Writer, size: u32) -> Result<(), AllocError>
    ensures { Appends result out.old out.new
        (key (codes "chord_size") ∷ number (decimal size) ∷ []) }
{
    out.key("chord_size")?;
    out.u64(u64::from(size))
}

/// Writes the number of members of a header, for a carried body.
fn write_size(out: &mut Writer, size: Option<u32>) -> Result<(), AllocError>
    ensures { Appends result out.old out.new (size_tokens size) }
{
    match size {
        Some(size) => write_how_many(out, size),
        None => Ok(()),
    }
}

fn write_start(out: &mut Writer, args: &[Arg], size: Option<u32>) -> Result<(), AllocError>
    ensures { Appends result out.old out.new (start_tokens size (args_wire args.now)) }
{
    write_front(out, args)?;
    write_size(out, size)
}

/// Writes a task up to its options, with their opening brace.
pub(crate) fn write_task_front(
    out: &mut Writer,
    task: &FrozenTask,
    size: Option<u32>,
) -> Result<(), AllocError>
    ensures { Appends result out.old out.new (task_front size (p_task_view task.now)) }
{
    write_start(out, task.args.get(), size)?;
    write_flag(out, task.immutable)?;
    write_kwargs(out, task.kwargs.get())?;
    out.key("options")?;
    out.begin_object()
}

/// Writes the group or chord that a place names, if there is one.
pub(crate) fn write_group(out: &mut Writer, place: &Option<Place>) -> Result<(), AllocError>
    ensures { Appends result out.old out.new
        (unless_null (codes "group_id") (place_id (place_seen place.now))) }
{
    match place {
        Some(place) => {
            out.key("group_id")?;
            write_group_id(out, place.group)
        }
        None => Ok(()),
    }
}

/// Writes the last of a task's options, and the closing brace.
pub(crate) fn write_own_id(out: &mut Writer, task: TaskNo) -> Result<(), AllocError>
    ensures { Appends result out.old out.new
        (named_tokens (codes "task_id") (task_id task) ++ end_object ∷ []) }
{
    write_task_member(out, "task_id", task)?;
    out.end_object()
}

/// Writes the part of a chain, group or chord before its keyword arguments.
pub(crate) fn write_opening(out: &mut Writer, size: Option<u32>) -> Result<(), AllocError>
    ensures { Appends result out.old out.new (opening_tokens size) }
{
    write_start(out, &[], size)?;
    write_flag(out, false)?;
    out.key("kwargs")?;
    out.begin_object()
}

/// Writes the part of a chain after its last element.
pub(crate) fn write_chain_behind(out: &mut Writer) -> Result<(), AllocError>
    ensures { Appends result out.old out.new chain_behind }
{
    out.end_array()?;
    out.end_object()?;
    write_closing(out, "chain", "celery.chain")
}

fn write_group_options(out: &mut Writer, group: GroupNo) -> Result<(), AllocError>
    ensures { Appends result out.old out.new
        (key (codes "options") ∷ begin_object ∷ named_tokens (codes "group_id") (group_id group)) }
{
    out.key("options")?;
    out.begin_object()?;
    out.key("group_id")?;
    write_group_id(out, group)
}

/// Writes the part of a group or chord after its keyword arguments.
pub(crate) fn write_group_closing(
    out: &mut Writer,
    group: GroupNo,
    kind: &str,
    name: &str,
) -> Result<(), AllocError>
    ensures { Appends result out.old out.new (group_closing group (string kind.now) name.now) }
{
    write_group_options(out, group)?;
    out.end_object()?;
    write_kind(out, kind, name)
}
