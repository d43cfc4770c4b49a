//! Labels of a picture.

use crate::fate::Fate;
use crate::row::Row;
use crate::shown::row_at;
use canvas_rewrite::FrozenTask;
use canvas_task::{Arg, Fault, Outcome, TaskNo};
use std::alloc::{AllocError, Global};

/// The most characters of a text, and the most items of a list, that are shown.
const MOST_SHOWN: usize = 24;

/// Appends the beginning of a text.
fn push_cut(label: &mut String, text: &str) -> Result<(), AllocError> {
    for c in text.chars().take(MOST_SHOWN) {
        label.push(c)?;
    }
    if text.chars().count() > MOST_SHOWN {
        label.push_str("..")?;
    }
    Ok(())
}

fn push_text(label: &mut String, text: &str) -> Result<(), AllocError> {
    label.push('\'')?;
    push_cut(label, text)?;
    label.push('\'')?;
    Ok(())
}

fn push_list(label: &mut String, numbers: &[i64]) -> Result<(), AllocError> {
    let is_cut = numbers.len() > MOST_SHOWN;
    let shown = if is_cut {
        &numbers[..MOST_SHOWN]
    } else {
        numbers
    };
    label.push('[')?;
    let mut is_first = true;
    for number in shown {
        label.push_str(if is_first { "" } else { ", " })?;
        write!(label, "{number}")?;
        is_first = false;
    }
    label.push_str(if is_cut { ", ..]" } else { "]" })
}

fn push_argument(label: &mut String, arg: &Arg) -> Result<(), AllocError> {
    match arg {
        Arg::Num(number) => {
            write!(label, "{number}")?;
            Ok(())
        }
        Arg::List(numbers) => push_list(label, numbers.get()),
        Arg::Text(text) => push_text(label, text.get()),
    }
}

fn push_arguments(label: &mut String, task: &FrozenTask) -> Result<(), AllocError> {
    let mut is_first = true;
    for arg in task.args.get() {
        label.push_str(if is_first { "" } else { ", " })?;
        push_argument(label, arg)?;
        is_first = false;
    }
    for (name, arg) in task.kwargs.get() {
        label.push_str(if is_first { "" } else { ", " })?;
        write!(label, "{name}=")?;
        push_argument(label, arg)?;
        is_first = false;
    }
    Ok(())
}

/// Appends an exception; that of a chord in two lines, with the number of the member that failed.
fn push_fault(label: &mut String, fault: &Fault) -> Result<(), AllocError> {
    match fault {
        Fault::Plain(kind) => write!(label, "\nFAILURE {kind}")?,
        Fault::Chord { dep, why } => {
            let number = dep.get();
            write!(label, "\nFAILURE ChordError:\n{number} raised {why}")?;
        }
    }
    Ok(())
}

fn push_call(label: &mut String, task: &FrozenTask) -> Result<(), AllocError> {
    let number = task.no.get();
    let name = task.name.get().as_str();
    write!(label, "{number} {name}(")?;
    push_arguments(label, task)?;
    label.push_str(if task.immutable {
        ")\ntakes no input"
    } else {
        ")"
    })?;
    Ok(())
}

fn push_outcome(label: &mut String, outcome: &Option<Outcome>) -> Result<(), AllocError> {
    match outcome {
        None => label.push_str("\nPENDING"),
        Some(Outcome::Success(value)) => write!(label, "\nSUCCESS {value}"),
        Some(Outcome::Failure(fault)) => push_fault(label, fault),
    }
}

/// Appends a task's result.
fn push_row(label: &mut String, row: &Row) -> Result<(), AllocError> {
    match row {
        Row::Known(outcome) => push_outcome(label, outcome),
        Row::Value(json) => {
            label.push_str("\nSUCCESS ")?;
            push_cut(label, json)
        }
        Row::Raised(name) => {
            label.push_str("\nFAILURE ")?;
            push_cut(label, name)
        }
        Row::Blamed { dep, name } => {
            let number = dep.get();
            write!(label, "\nFAILURE ChordError:\n{number} raised ")?;
            push_cut(label, name)
        }
    }
}

/// Appends a task's result if there are rows. It is pending if its row is missing.
fn push_state(label: &mut String, rows: Option<&[Row]>, task: TaskNo) -> Result<(), AllocError> {
    let Some(rows) = rows else {
        return Ok(());
    };
    match row_at(rows, task) {
        Some(row) => push_row(label, row),
        None => push_outcome(label, &None),
    }
}

/// Appends the task to blame for one that failed without a call.
fn push_due(label: &mut String, fate: &Fate) -> Result<(), AllocError> {
    match fate {
        Fate::Ran | Fate::Idle => Ok(()),
        Fate::Skipped(blamed) => {
            let number = blamed.get();
            write!(label, "\nnot called, due to {number}")?;
            Ok(())
        }
    }
}

/// Appends the task to blame if fates are given.
fn push_told(label: &mut String, fate: &Option<Fate>) -> Result<(), AllocError> {
    match fate {
        None => Ok(()),
        Some(fate) => push_due(label, fate),
    }
}

/// Returns a task's label: its number, its call, whether it takes no input, and its result if it
/// was run; if it failed without a call, also the number of the task to blame.
pub(crate) fn label_of(
    alloc: Global,
    task: &FrozenTask,
    rows: Option<&[Row]>,
    fate: &Option<Fate>,
) -> Result<String, AllocError> {
    let mut label = String::new(alloc);
    push_call(&mut label, task)?;
    push_state(&mut label, rows, task.no)?;
    push_told(&mut label, fate)?;
    Ok(label)
}
