//! The report of rows of any kind as a text: in the form of a run's, or as a person reads it.

ghost use Rattle.std.specs.Prelude.{◌≡◌, ◌++◌, List, IfOk, OnOk, map, string_bytes, codes, decimal};
ghost use Rattle.std.specs.Fmt.{signed_decimal};
ghost use Rattle.canvas_rewrite.specs.Ends.{gives_a_list, end_tasks};
ghost use Rattle.canvas_semantics.specs.Evaluation.{State};
ghost use Rattle.canvas_semantics.specs.Line.{name_of, tree_of};
ghost use Rattle.canvas_semantics.specs.Report.{names_by_number, report_of};
ghost use Rattle.canvas_semantics.specs.States.{rows_from};
ghost use Rattle.canvas_report.specs.Listing.{lines, listed, result_by};
ghost use Rattle.canvas_report.specs.Wording.{task_named, class_named, fault_said, state_said, value_said, said_at, reason, row_said, report_said, stored_said, explained_said};
ghost use Rattle.canvas_report.specs.steps.ReportRows.{line_if, listed_further, blamer_said};
ghost use Rattle.canvas_report.specs.declared.row.Row.TheVariants as row;

use crate::fate::{Fate, fate_in};
use crate::json_text::escaped_json;
use crate::row::Row;
use crate::shown::{row_at, status_at};
use crate::text::put;
use canvas_rewrite::{Ends, Plan};
use canvas_task::{Fault, Memory, Outcome, TaskNo};
use std::alloc::{AllocError, Global};

/// How a report names tasks, and the classes of exceptions.
#[derive(Clone, Copy)]
pub(crate) enum Naming {
    /// A task by its identifier, and a class as a JSON text has it, so that each task has one line.
    Identifier,
    /// A task by its number, and a class as it is.
    Number,
}

/// Appends the name of a task.
fn push_named(text: &mut String, naming: Naming, task: TaskNo) -> Result<(), AllocError>
    ensures { OnOk result
        (string_bytes text.new ≡ string_bytes text.old ++ task_named naming task) }
{
    match naming {
        Naming::Identifier => {
            write!(text, "{task}")?;
            Ok(())
        }
        Naming::Number => {
            let number = task.get();
            write!(text, "#{number}")?;
            Ok(())
        }
    }
}

/// Appends the class of an exception.
fn push_class(
    text: &mut String,
    alloc: Global,
    naming: Naming,
    name: &str,
) -> Result<(), AllocError>
    ensures { OnOk result
        (string_bytes text.new ≡ string_bytes text.old ++ class_named naming name.now) }
{
    match naming {
        Naming::Identifier => put(text, &escaped_json(alloc, name)?),
        Naming::Number => put(text, name),
    }
}

/// Appends a ChordError up to its class.
fn push_blamer(text: &mut String, naming: Naming, dep: TaskNo) -> Result<(), AllocError>
    ensures { OnOk result
        (string_bytes text.new ≡ string_bytes text.old ++ blamer_said naming dep) }
{
    put(text, "ChordError: Dependency ")?;
    push_named(text, naming, dep)?;
    put(text, " raised ")
}

fn push_fault(text: &mut String, naming: Naming, fault: &Fault) -> Result<(), AllocError>
    ensures { OnOk result
        (string_bytes text.new ≡ string_bytes text.old ++ fault_said naming fault.now) }
{
    match fault {
        Fault::Plain(kind) => {
            write!(text, "{kind}")?;
            Ok(())
        }
        Fault::Chord { dep, why } => {
            push_blamer(text, naming, *dep)?;
            write!(text, "{why}")?;
            Ok(())
        }
    }
}

fn push_number(text: &mut String, number: i64) -> Result<(), AllocError>
    ensures { OnOk result
        (string_bytes text.new ≡ string_bytes text.old ++ signed_decimal number) }
{
    write!(text, "{number}")?;
    Ok(())
}

fn push_state(text: &mut String, naming: Naming, state: &Option<Outcome>) -> Result<(), AllocError>
    ensures { OnOk result
        (string_bytes text.new ≡ string_bytes text.old ++ state_said naming state.now) }
{
    match state {
        None => put(text, "-"),
        Some(Outcome::Success(number)) => push_number(text, *number),
        Some(Outcome::Failure(fault)) => push_fault(text, naming, fault),
    }
}

fn push_blamed(
    text: &mut String,
    alloc: Global,
    naming: Naming,
    dep: TaskNo,
    name: &str,
) -> Result<(), AllocError>
    ensures { OnOk result (string_bytes text.new
        ≡ string_bytes text.old ++ (blamer_said naming dep ++ class_named naming name.now)) }
{
    push_blamer(text, naming, dep)?;
    push_class(text, alloc, naming, name)
}

fn push_row_value(
    text: &mut String,
    alloc: Global,
    naming: Naming,
    row: &Row,
) -> Result<(), AllocError>
    ensures { OnOk result
        (string_bytes text.new ≡ string_bytes text.old ++ value_said naming row.now) }
{
    match row {
        Row::Known(state) => push_state(text, naming, state),
        Row::Value(json) => put(text, json),
        Row::Raised(name) => push_class(text, alloc, naming, name),
        Row::Blamed { dep, name } => push_blamed(text, alloc, naming, *dep, name),
    }
}

/// Appends a value or an exception, or `-` while there is neither.
fn push_value(
    text: &mut String,
    alloc: Global,
    naming: Naming,
    rows: &[Row],
    task: TaskNo,
) -> Result<(), AllocError>
    ensures { OnOk result (string_bytes text.new
        ≡ string_bytes text.old ++ said_at naming rows.now task) }
{
    match row_at(rows, task) {
        Some(row) => push_row_value(text, alloc, naming, row),
        None => put(text, "-"),
    }
}

fn push_due(text: &mut String, number: u32) -> Result<(), AllocError>
    ensures { OnOk result (string_bytes text.new ≡ string_bytes text.old
        ++ (codes " (not called, due to #" ++ decimal number ++ codes ")")) }
{
    write!(text, " (not called, due to #{number})")?;
    Ok(())
}

fn push_skipped(text: &mut String, blamed: TaskNo) -> Result<(), AllocError>
    ensures { OnOk result (string_bytes text.new ≡ string_bytes text.old
        ++ (codes " (not called, due to #" ++ decimal blamed ++ codes ")")) }
{
    push_due(text, blamed.get())
}

/// Appends why a task was not called, if it wasn't and its fate is given.
fn push_reason(text: &mut String, fate: &Option<Fate>) -> Result<(), AllocError>
    ensures { OnOk result
        (string_bytes text.new ≡ string_bytes text.old ++ reason fate.now) }
{
    match fate {
        None => Ok(()),
        Some(Fate::Ran) => Ok(()),
        Some(Fate::Skipped(blamed)) => push_skipped(text, *blamed),
        Some(Fate::Idle) => put(text, " (will not run)"),
    }
}

fn push_row(
    text: &mut String,
    alloc: Global,
    naming: Naming,
    task: TaskNo,
    name: &str,
    rows: &[Row],
    fates: &[(TaskNo, Fate)],
) -> Result<(), AllocError>
    ensures { OnOk result (string_bytes text.new
        ≡ string_bytes text.old ++ row_said naming fates.now rows.now (task, name.now)) }
{
    push_named(text, naming, task)?;
    put(text, " ")?;
    put(text, name)?;
    put(text, " ")?;
    put(text, status_at(rows, task).name())?;
    put(text, " ")?;
    push_value(text, alloc, naming, rows, task)?;
    push_reason(text, &fate_in(fates, task))?;
    put(text, "\n")
}

/// Appends the line of a task, if the plan has it.
fn push_task(
    text: &mut String,
    alloc: Global,
    naming: Naming,
    plan: &Plan,
    task: TaskNo,
    rows: &[Row],
    fates: &[(TaskNo, Fate)],
) -> Result<(), AllocError>
    ensures { OnOk result (string_bytes text.new ≡ string_bytes text.old
        ++ line_if (row_said naming fates.now rows.now) task (name_of plan.now task)) }
{
    match plan.name(task) {
        Some(name) => push_row(text, alloc, naming, task, name, rows, fates),
        None => Ok(()),
    }
}

fn push_rows(
    text: &mut String,
    alloc: Global,
    naming: Naming,
    plan: &Plan,
    rows: &[Row],
    fates: &[(TaskNo, Fate)],
) -> Result<(), AllocError>
    ensures { OnOk result (string_bytes text.new ≡ string_bytes text.old
        ++ lines (row_said naming fates.now rows.now) (names_by_number (tree_of plan.now))) }
{
    for index in 0..plan.tasks() {
        push_task(text, alloc, naming, plan, plan.task_at(index), rows, fates)?;
    }
    Ok(())
}

/// Appends values, each after a comma.
fn push_further(
    text: &mut String,
    alloc: Global,
    naming: Naming,
    rows: &[Row],
    tasks: &[TaskNo],
) -> Result<(), AllocError>
    ensures { OnOk result (string_bytes text.new
        ≡ string_bytes text.old ++ listed_further (said_at naming rows.now) tasks.now) }
{
    for task in tasks {
        put(text, ", ")?;
        push_value(text, alloc, naming, rows, *task)?;
    }
    Ok(())
}

fn push_values(
    text: &mut String,
    alloc: Global,
    naming: Naming,
    rows: &[Row],
    tasks: &[TaskNo],
) -> Result<(), AllocError>
    ensures { OnOk result (string_bytes text.new
        ≡ string_bytes text.old ++ listed (said_at naming rows.now) tasks.now) }
{
    match tasks.split_first() {
        Some((first, further)) => {
            push_value(text, alloc, naming, rows, *first)?;
            push_further(text, alloc, naming, rows, further)
        }
        None => Ok(()),
    }
}

/// Appends the result of the canvas.
fn push_result(
    text: &mut String,
    alloc: Global,
    naming: Naming,
    ends: &Ends<'_>,
    rows: &[Row],
) -> Result<(), AllocError>
    ensures { OnOk result (string_bytes text.new ≡ string_bytes text.old
        ++ result_by (said_at naming rows.now) (gives_a_list ends.now) (end_tasks ends.now)) }
{
    match ends {
        Ends::One(task) => push_value(text, alloc, naming, rows, *task),
        Ends::Many(tasks) => {
            put(text, "[")?;
            push_values(text, alloc, naming, rows, tasks)?;
            put(text, "]")
        }
    }
}

pub(crate) fn worded(
    alloc: Global,
    naming: Naming,
    plan: &Plan,
    rows: &[Row],
    fates: &[(TaskNo, Fate)],
) -> Result<String, Memory>
    ensures { IfOk result (λ text. string_bytes text
        ≡ report_said naming fates.now rows.now (tree_of plan.now)) }
{
    let mut text = String::new(alloc);
    push_rows(&mut text, alloc, naming, plan, rows, fates)?;
    put(&mut text, "result ")?;
    push_result(&mut text, alloc, naming, &plan.ends(), rows)?;
    put(&mut text, "\n")?;
    Ok(text)
}

/// Returns the report of rows of any kind, in the form of a run's. An exception's class is written
/// as in a JSON text, so that each task has one line.
pub fn stored_text(alloc: Global, plan: &Plan, rows: &[Row]) -> Result<String, Memory>
    ensures said { IfOk result (λ text. string_bytes text
        ≡ stored_said rows.now (tree_of plan.now)) }
    // The rows of a run have its report.
    ensures of_run { (ss : List State) → rows.now ≡ map (λ s. row.Known s) ss
        → IfOk result (λ text. string_bytes text ≡ report_of (tree_of plan.now) (rows_from 1 ss)) }
{
    worded(alloc, Naming::Identifier, plan, rows, &[])
}

/// Returns the report of rows of any kind with `#2` instead of the identifier of task 2. With the
/// fates of a whole run's tasks it says why each task that was not called was not; without any, as
/// for a run that was halted, it doesn't. The name of an exception has no line feed.
pub fn explained_text(
    alloc: Global,
    plan: &Plan,
    rows: &[Row],
    fates: &[(TaskNo, Fate)],
) -> Result<String, Memory>
    ensures { IfOk result (λ text. string_bytes text
        ≡ explained_said fates.now rows.now (tree_of plan.now)) }
{
    worded(alloc, Naming::Number, plan, rows, fates)
}
