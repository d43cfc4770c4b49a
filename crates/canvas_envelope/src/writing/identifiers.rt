//! Identifiers as tokens of JSON.

ghost use Rattle.std.specs.Prelude.{◌∷◌, []};
ghost use Rattle.std.specs.Str.{IsAscii};
ghost use Rattle.json.specs.Token.{string};
ghost use Rattle.canvas_values.specs.steps.Tokens.{Appends, data_tokens};
ghost use Rattle.canvas_envelope.specs.steps.Tokens.{named_tokens};
ghost use Rattle.canvas_envelope.specs.Wire.{task_id, group_id};

use canvas_task::{GroupNo, TaskNo, group_text, task_text};
use json::Writer;
use std::alloc::AllocError;

#[tactic(auto, using(crate::proofs::Written::IdentifierTexts::is_text))]
fn write_id(out: &mut Writer, id: &[u8]) -> Result<(), AllocError>
    requires { IsAscii id.now }
    ensures { Appends result out.old out.new (string id.now ∷ []) }
{
    out.string(str::from_utf8(id).unwrap())
}

fn write_task_id(out: &mut Writer, task: TaskNo) -> Result<(), AllocError>
    ensures { Appends result out.old out.new (data_tokens (task_id task)) }
{
    write_id(out, &task_text(task))
}

/// Writes a member that is the identifier of a task.
pub(crate) fn write_task_member(
    out: &mut Writer,
    name: &str,
    task: TaskNo,
) -> Result<(), AllocError>
    ensures { Appends result out.old out.new (named_tokens name.now (task_id task)) }
{
    out.key(name)?;
    write_task_id(out, task)
}

pub(crate) fn write_group_id(out: &mut Writer, group: GroupNo) -> Result<(), AllocError>
    ensures { Appends result out.old out.new (data_tokens (group_id group)) }
{
    write_id(out, &group_text(group))
}
