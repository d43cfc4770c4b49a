//! The parts of a step's line.

ghost use Rattle.std.specs.Prelude.{◌≡◌, ◌++◌, OnOk, decimal};
ghost use Rattle.canvas_engine.specs.StepLines.{ask_text, group_member, more_text, named_text, stored_text, task_member};

use canvas_backend::Stored;
use canvas_task::{GroupNo, TaskNo, group_text, task_text};
use std::alloc::{AllocError, Global};

pub(crate) fn put(text: &mut Vec<u8>, piece: &[u8]) -> Result<(), AllocError>
    ensures { OnOk result (text.new.items ≡ text.old.items ++ piece.now) }
{
    text.extend_from_slice(piece)
}

/// Appends the beginning of a line, up to the ask.
pub(crate) fn put_ask(text: &mut Vec<u8>, ask: &[u8]) -> Result<(), AllocError>
    ensures { OnOk result (text.new.items ≡ text.old.items ++ ask_text ask.now) }
{
    put(text, b"{\"ask\":\"")?;
    put(text, ask)?;
    put(text, b"\"")
}

/// Appends the identifier of a task, or null, as a member.
pub(crate) fn put_named(text: &mut Vec<u8>, identifier: &[u8]) -> Result<(), AllocError>
    ensures { OnOk result (text.new.items ≡ text.old.items ++ named_text identifier.now) }
{
    put(text, b",\"task_id\":")?;
    put(text, identifier)
}

/// Appends the identifier of a task as a member.
pub(crate) fn put_task(text: &mut Vec<u8>, task: TaskNo) -> Result<(), AllocError>
    ensures { OnOk result (text.new.items ≡ text.old.items ++ task_member task) }
{
    put(text, b",\"task_id\":\"")?;
    put(text, &task_text(task))?;
    put(text, b"\"")
}

/// Appends the identifier of a chord as a member.
pub(crate) fn put_group(text: &mut Vec<u8>, group: GroupNo) -> Result<(), AllocError>
    ensures { OnOk result (text.new.items ≡ text.old.items ++ group_member group) }
{
    put(text, b",\"group_id\":\"")?;
    put(text, &group_text(group))?;
    put(text, b"\"")
}

/// Appends a number.
fn put_decimal(text: &mut Vec<u8>, alloc: Global, number: u64) -> Result<(), AllocError>
    ensures { OnOk result (text.new.items ≡ text.old.items ++ decimal number) }
{
    let digits = format!(in alloc; "{number}")?;
    put(text, digits.as_bytes())
}

/// Appends a number as a member.
pub(crate) fn put_number(
    text: &mut Vec<u8>,
    alloc: Global,
    name: &[u8],
    number: u64,
) -> Result<(), AllocError>
    ensures { OnOk result (text.new.items
        ≡ text.old.items ++ (name.now ++ decimal number)) }
{
    put(text, name)?;
    put_decimal(text, alloc, number)
}

/// Returns the answer to a store, as a member.
pub(crate) fn stored_member(stored: Stored) -> &'static [u8]
    ensures { result.now ≡ stored_text stored }
{
    match stored {
        Stored::First => b",\"stored\":\"First\"",
        Stored::Again => b",\"stored\":\"Again\"",
    }
}

/// Returns whether more may come, as a member.
pub(crate) fn more_member(more: bool) -> &'static [u8]
    ensures { result.now ≡ more_text more }
{
    if more {
        b",\"more\":true"
    } else {
        b",\"more\":false"
    }
}
