//! Task signatures as tokens of JSON.

ghost use Rattle.std.specs.Prelude.{◌∷◌, ◌++◌, map};
ghost use Rattle.json.specs.Token.{begin_array, key};
ghost use Rattle.serde_json.specs.Data.{null};
ghost use Rattle.canvas_values.specs.steps.Tokens.{Appends, data_tokens, rest_tokens, front_tokens, flag_tokens, kwargs_tokens, call_tokens, links_wire, errbacks_wire, member_tokens, link_tokens, links_tokens, options_tokens, kind_tokens, name_tokens};
ghost use Rattle.canvas_values.specs.Writing.{args_wire, kwargs_wire, task_wire, tasks_wire, options_wire};
ghost use Rattle.canvas_values.specs.SignatureView.{task_view, tasks_of};
ghost use Rattle.canvas_task.specs.Entries.{named};

use crate::TaskSig;
use crate::writing::arguments::{write_args, write_named};
use canvas_task::Arg;
use json::Writer;
use std::alloc::AllocError;
use std::collections::BTreeMap;

/// Writes the opening brace of a signature, and its positional arguments.
pub fn write_front(out: &mut Writer, args: &[Arg]) -> Result<(), AllocError>
    ensures { Appends result out.old out.new (front_tokens (args_wire args.now)) }
{
    out.begin_object()?;
    out.key("args")?;
    out.begin_array()?;
    write_args(out, args)
}

/// Writes the member `immutable`.
pub fn write_flag(out: &mut Writer, immutable: bool) -> Result<(), AllocError>
    ensures { Appends result out.old out.new (flag_tokens immutable) }
{
    out.key("immutable")?;
    out.boolean(immutable)
}

/// Writes the member `kwargs` of a task.
pub fn write_kwargs(out: &mut Writer, kwargs: &BTreeMap<String, Arg>) -> Result<(), AllocError>
    ensures { Appends result out.old out.new
        (kwargs_tokens (kwargs_wire (named kwargs.now.entries))) }
{
    out.key("kwargs")?;
    out.begin_object()?;
    write_named(out, kwargs)
}

/// Writes the members before the options.
fn write_call(
    out: &mut Writer,
    args: &[Arg],
    immutable: bool,
    kwargs: &BTreeMap<String, Arg>,
) -> Result<(), AllocError>
    ensures { Appends result out.old out.new
        (call_tokens (args_wire args.now) immutable (kwargs_wire (named kwargs.now.entries))) }
{
    write_front(out, args)?;
    write_flag(out, immutable)?;
    write_kwargs(out, kwargs)
}

/// Writes the last members of a task, and the closing brace.
pub fn write_end(out: &mut Writer, name: &str) -> Result<(), AllocError>
    ensures { Appends result out.old out.new (kind_tokens null ++ name_tokens name.now) }
{
    out.key("subtask_type")?;
    out.null()?;
    out.key("task")?;
    out.string(name)?;
    out.end_object()
}

/// Writes a member that is a list of signatures, or nothing if the list is empty.
#[cycle(write_task)]
fn write_link(out: &mut Writer, name: &str, sigs: &[TaskSig]) -> Result<(), AllocError>
    ensures { Appends result out.old out.new
        (link_tokens name.now (tasks_wire (tasks_of (map task_view sigs.now)))) }
{
    if sigs.is_empty() {
        return Ok(());
    }
    write_member(out, name, sigs)
}

#[cycle(write_task)]
fn write_member(out: &mut Writer, name: &str, sigs: &[TaskSig]) -> Result<(), AllocError>
    ensures { Appends result out.old out.new
        (member_tokens name.now (tasks_wire (tasks_of (map task_view sigs.now)))) }
{
    out.key(name)?;
    out.begin_array()?;
    write_tasks(out, sigs)
}

/// Writes the rest of a list of signatures, up to the closing bracket.
#[cycle(write_task)]
fn write_tasks(out: &mut Writer, sigs: &[TaskSig]) -> Result<(), AllocError>
    ensures { Appends result out.old out.new
        (rest_tokens (tasks_wire (tasks_of (map task_view sigs.now)))) }
{
    for sig in sigs {
        write_task(out, sig)?;
    }
    out.end_array()
}

#[cycle(write_task)]
fn write_links(out: &mut Writer, sig: &TaskSig) -> Result<(), AllocError>
    ensures { Appends result out.old out.new (links_tokens (task_view sig.now)) }
{
    write_link(out, "link", sig.links.get())?;
    write_link(out, "link_error", sig.errbacks.get())
}

#[cycle(write_task)]
fn write_options(out: &mut Writer, sig: &TaskSig) -> Result<(), AllocError>
    ensures { Appends result out.old out.new (options_tokens
        (options_wire (links_wire (task_view sig.now)) (errbacks_wire (task_view sig.now)))) }
{
    out.key("options")?;
    out.begin_object()?;
    write_links(out, sig)?;
    out.end_object()
}

/// Writes a whole task signature.
#[cycle(write_task)]
#[tactic(auto, using(crate::proofs::Written::Writers::task_tokens))]
pub(crate) fn write_task(out: &mut Writer, sig: &TaskSig) -> Result<(), AllocError>
    ensures { Appends result out.old out.new (data_tokens (task_wire (task_view sig.now))) }
{
    write_call(out, sig.args.get(), sig.immutable, sig.kwargs.get())?;
    write_options(out, sig)?;
    write_end(out, sig.name.get())
}
