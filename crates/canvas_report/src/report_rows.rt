//! One row of a report: a task's state, and its line.
ghost use Rattle.std.specs.Prelude.{◌≡◌, ◌++◌, OnOk, string_bytes};
ghost use Rattle.std.specs.Fmt.{signed_decimal};
ghost use Rattle.std.specs.Str.{IsAscii};
ghost use Rattle.canvas_task.specs.Identifiers.{task_text};
ghost use Rattle.canvas_task.specs.Printed.{fault_text};
ghost use Rattle.canvas_semantics.specs.Report.{report_line, state_name, value_text};

use crate::text::put;
use canvas_task::{Fault, Outcome, TaskNo, task_text};
use std::alloc::AllocError;

/// Returns Celery's name of a state.
fn name_of(state: &Option<Outcome>) -> &'static str
    ensures { result.now ≡ state_name state.now }
{
    match state {
        None => "PENDING",
        Some(Outcome::Success(_)) => "SUCCESS",
        Some(Outcome::Failure(_)) => "FAILURE",
    }
}

/// Appends a number.
fn push_number(text: &mut String, number: i64) -> Result<(), AllocError>
    ensures { OnOk result
        (string_bytes text.new ≡ string_bytes text.old ++ signed_decimal number) }
{
    let mut buffer = itoa::Buffer::new();
    text.push_str(buffer.format(number))
}

/// Appends why a task failed.
fn push_fault(text: &mut String, fault: &Fault) -> Result<(), AllocError>
    ensures { OnOk result
        (string_bytes text.new ≡ string_bytes text.old ++ fault_text fault.now) }
{
    write!(text, "{fault}")?;
    Ok(())
}

/// Appends the value of a state, as a report shows it.
pub(crate) fn push_value(text: &mut String, state: &Option<Outcome>) -> Result<(), AllocError>
    ensures { OnOk result
        (string_bytes text.new ≡ string_bytes text.old ++ value_text state.now) }
{
    match state {
        None => text.push_str("-"),
        Some(Outcome::Success(number)) => push_number(text, *number),
        Some(Outcome::Failure(fault)) => push_fault(text, fault),
    }
}

/// Returns ASCII bytes as a text.
#[tactic(auto, using(crate::proofs::ReportLines::is_text))]
fn as_text(bytes: &[u8]) -> &str
    requires { IsAscii bytes.now }
    ensures { result.now ≡ bytes.now }
{
    str::from_utf8(bytes).unwrap()
}

/// Appends the identifier of a task.
fn push_identifier(text: &mut String, task: TaskNo) -> Result<(), AllocError>
    ensures { OnOk result (string_bytes text.new ≡ string_bytes text.old ++ task_text task) }
{
    text.push_str(as_text(&task_text(task)))
}

/// Appends the line of one task piece by piece, which takes fewer steps than a format.
pub(crate) fn push_row(
    text: &mut String,
    task: TaskNo,
    name: &str,
    state: &Option<Outcome>,
) -> Result<(), AllocError>
    ensures { OnOk result (string_bytes text.new
        ≡ string_bytes text.old ++ report_line (task, name.now) state.now) }
{
    push_identifier(text, task)?;
    put(text, " ")?;
    put(text, name)?;
    put(text, " ")?;
    put(text, name_of(state))?;
    put(text, " ")?;
    push_value(text, state)?;
    put(text, "\n")
}
