//! The tasks of a run as JSON lines, which tools such as `jq` read.

ghost use Rattle.std.specs.Prelude.{◌≡◌, ◌++◌, ◌∷◌, [], true, false, ℕ, IfOk, None, OnOk, option_map, string_bytes, codes};
ghost use Rattle.std.specs.Fmt.{signed_decimal};
ghost use Rattle.json.specs.Print.{quoted};
ghost use Rattle.serde_json.specs.Written.{comma_if};
ghost use Rattle.canvas_task.specs.Identifiers.{task_text};
ghost use Rattle.canvas_rewrite.specs.Ends.{gives_a_list, end_tasks};
ghost use Rattle.canvas_semantics.specs.Evaluation.{ends};
ghost use Rattle.canvas_semantics.specs.Line.{name_of, tree_of};
ghost use Rattle.canvas_semantics.specs.Report.{names_by_number};
ghost use Rattle.canvas_semantics.specs.States.{rows_from};
ghost use Rattle.canvas_semantics.specs.Tree.{ends_in_group};
ghost use Rattle.canvas_report.specs.Fates.{fate_at};
ghost use Rattle.canvas_report.specs.JsonRows.{Shown, parameter_of, status_of_all, json_lines, rows_wire, report_wire};
ghost use Rattle.canvas_report.specs.ReadLines.{ReadsAs, AreTyped, IsTypedCount};
ghost use Rattle.canvas_report.specs.StoredRows.{row_of, AllShow};
ghost use Rattle.canvas_report.specs.steps.ReportRows.{line_if};
ghost use Rattle.canvas_report.specs.Listing.{lines};
ghost use Rattle.canvas_report.specs.RowTexts.{statuses, raised_text, blamed_text, fault_json, state_json, result_json, due_text, ran_text, parameter_json, parameter_text, front_text, shown_text, row_line, listed_json, status_text, again_text, identifiers_json, end_front, end_back, end_text, stored_lines};

use crate::fate::{Fate, fate_in};
use crate::json_text::quoted_json;
use crate::report::Report;
use crate::row::Row;
use crate::shown::{Status, row_at, run_rows, status_at};
use crate::text::put;
use canvas_rewrite::{Ends, Plan};
use canvas_task::{Fault, Memory, Outcome, TaskNo};
use std::alloc::{AllocError, Global};

/// Appends a text as a JSON string.
fn push_quoted(text: &mut String, alloc: Global, said: &str) -> Result<(), AllocError>
    ensures { OnOk result (string_bytes text.new ≡ string_bytes text.old ++ quoted said.now) }
{
    put(text, &quoted_json(alloc, said)?)
}

/// Appends an exception as Celery's result backends store it: the list of its arguments, of which
/// it has none, and its type.
fn push_raised(text: &mut String, alloc: Global, name: &str) -> Result<(), AllocError>
    ensures { OnOk result (string_bytes text.new ≡ string_bytes text.old ++ raised_text name.now) }
{
    put(text, "{\"exc_message\":[],\"exc_type\":")?;
    push_quoted(text, alloc, name)?;
    put(text, "}")
}

/// Returns the message of a ChordError about the task that failed.
fn said_of(alloc: Global, dep: TaskNo, name: &str) -> Result<String, AllocError>
    ensures { IfOk result (λ said. string_bytes said
        ≡ codes "Dependency " ++ task_text dep ++ codes " raised " ++ name.now) }
{
    let mut said = String::new(alloc);
    write!(said, "Dependency {dep} raised {name}")?;
    Ok(said)
}

/// Appends a ChordError.
fn push_blamed(text: &mut String, alloc: Global, dep: TaskNo, name: &str) -> Result<(), AllocError>
    ensures { OnOk result
        (string_bytes text.new ≡ string_bytes text.old ++ blamed_text dep name.now) }
{
    let said = said_of(alloc, dep, name)?;
    put(text, "{\"exc_message\":[")?;
    push_quoted(text, alloc, &said)?;
    put(text, "],\"exc_type\":\"ChordError\"}")
}

fn push_fault(text: &mut String, alloc: Global, fault: &Fault) -> Result<(), AllocError>
    ensures { OnOk result (string_bytes text.new ≡ string_bytes text.old ++ fault_json fault.now) }
{
    match fault {
        Fault::Plain(kind) => push_raised(text, alloc, &kind.to_string(alloc)?),
        Fault::Chord { dep, why } => push_blamed(text, alloc, *dep, &why.to_string(alloc)?),
    }
}

fn push_number(text: &mut String, number: i64) -> Result<(), AllocError>
    ensures { OnOk result
        (string_bytes text.new ≡ string_bytes text.old ++ signed_decimal number) }
{
    write!(text, "{number}")?;
    Ok(())
}

fn push_outcome(
    text: &mut String,
    alloc: Global,
    outcome: &Option<Outcome>,
) -> Result<(), AllocError>
    ensures { OnOk result
        (string_bytes text.new ≡ string_bytes text.old ++ state_json outcome.now) }
{
    match outcome {
        None => put(text, "null"),
        Some(Outcome::Success(number)) => push_number(text, *number),
        Some(Outcome::Failure(fault)) => push_fault(text, alloc, fault),
    }
}

fn push_known(text: &mut String, alloc: Global, row: &Row) -> Result<(), AllocError>
    ensures { OnOk result (string_bytes text.new ≡ string_bytes text.old ++ result_json row.now) }
{
    match row {
        Row::Known(outcome) => push_outcome(text, alloc, outcome),
        Row::Value(json) => put(text, json),
        Row::Raised(name) => push_raised(text, alloc, name),
        Row::Blamed { dep, name } => push_blamed(text, alloc, *dep, name),
    }
}

/// Appends a result: a value, an exception, or null if there is none yet.
fn push_result(
    text: &mut String,
    alloc: Global,
    rows: &[Row],
    task: TaskNo,
) -> Result<(), AllocError>
    ensures { OnOk result (string_bytes text.new
        ≡ string_bytes text.old ++ result_json (row_of rows.now task)) }
{
    match row_at(rows, task) {
        Some(row) => push_known(text, alloc, row),
        None => put(text, "null"),
    }
}

/// Appends the task to blame for a skipped one, else null, as a member of its row.
fn push_due(text: &mut String, fate: &Option<Fate>) -> Result<(), AllocError>
    ensures { OnOk result (string_bytes text.new ≡ string_bytes text.old ++ due_text fate.now) }
{
    match fate {
        None => Ok(()),
        Some(Fate::Skipped(blamed)) => {
            write!(text, "\"due_to\":\"{blamed}\",")?;
            Ok(())
        }
        Some(Fate::Ran | Fate::Idle) => put(text, "\"due_to\":null,"),
    }
}

/// Returns whether a task was called, as a member of its row, if its fate is given.
fn ran_member(fate: &Option<Fate>) -> &'static str
    ensures { result.now ≡ ran_text fate.now }
{
    match fate {
        None => "",
        Some(Fate::Ran) => "\"ran\":true,",
        Some(Fate::Skipped(_) | Fate::Idle) => "\"ran\":false,",
    }
}

/// Appends a parameter, or null, as a member of a row.
fn push_parameter(
    text: &mut String,
    alloc: Global,
    parameter: &Option<String>,
) -> Result<(), AllocError>
    ensures { OnOk result (string_bytes text.new ≡ string_bytes text.old
        ++ parameter_json (option_map (λ name. string_bytes name) parameter.now)) }
{
    match parameter {
        None => put(text, "\"parameter\":null,"),
        Some(name) => {
            put(text, "\"parameter\":")?;
            push_quoted(text, alloc, name)?;
            put(text, ",")
        }
    }
}

/// Appends the parameter that is at fault, if it is given, as a member of a task's row.
fn push_blame(
    text: &mut String,
    alloc: Global,
    blamed: &[(TaskNo, Option<String>)],
    task: TaskNo,
) -> Result<(), AllocError>
    ensures { OnOk result (string_bytes text.new
        ≡ string_bytes text.old ++ parameter_text (parameter_of blamed.now task)) }
{
    for (of, parameter) in blamed {
        if of.get() == task.get() {
            return push_parameter(text, alloc, parameter);
        }
    }
    Ok(())
}

/// Facts about a run besides its report.
#[derive(Clone, Copy)]
pub struct Told<'a> {
    /// The fate of each task of a whole run, in the order of their numbers, from task 1 on; empty
    /// for a run that was halted.
    pub fates: &'a [(TaskNo, Fate)],
    /// Tasks whose call was a TypeError, each with the parameter that is at fault, if there is one.
    pub blamed: &'a [(TaskNo, Option<String>)],
    /// How many stores of the run answered Again, if that is to be shown.
    pub again: Option<u64>,
}

/// Appends the members of a row before its result.
fn push_front(
    text: &mut String,
    alloc: Global,
    task: TaskNo,
    name: &str,
    told: Told<'_>,
) -> Result<(), AllocError>
    ensures { OnOk result (string_bytes text.new ≡ string_bytes text.old
        ++ front_text (fate_at told.entry.fates.now task)
        (parameter_of told.entry.blamed.now task) name.now) }
{
    let fate = fate_in(told.fates, task);
    put(text, "{")?;
    push_due(text, &fate)?;
    put(text, "\"name\":")?;
    push_quoted(text, alloc, name)?;
    put(text, ",")?;
    push_blame(text, alloc, told.blamed, task)?;
    put(text, ran_member(&fate))
}

/// Appends the result of a task, and its status up to the closing quote.
fn push_shown(
    text: &mut String,
    alloc: Global,
    rows: &[Row],
    task: TaskNo,
) -> Result<(), AllocError>
    ensures { OnOk result (string_bytes text.new
        ≡ string_bytes text.old ++ shown_text (row_of rows.now task)) }
{
    put(text, "\"result\":")?;
    push_result(text, alloc, rows, task)?;
    put(text, ",\"status\":\"")?;
    put(text, status_at(rows, task).name())
}

/// Appends the rest of a row after the status.
fn push_identifier(text: &mut String, task: TaskNo) -> Result<(), AllocError>
    ensures { OnOk result (string_bytes text.new ≡ string_bytes text.old
        ++ (codes "\",\"task_id\":\"" ++ task_text task ++ codes "\"}\n")) }
{
    writeln!(text, "\",\"task_id\":\"{task}\"}}")?;
    Ok(())
}

fn push_row(
    text: &mut String,
    alloc: Global,
    task: TaskNo,
    name: &str,
    told: Told<'_>,
    rows: &[Row],
) -> Result<(), AllocError>
    ensures { OnOk result (string_bytes text.new ≡ string_bytes text.old
        ++ row_line told.entry.fates.now (parameter_of told.entry.blamed.now) rows.now
        (task, name.now)) }
{
    push_front(text, alloc, task, name, told)?;
    push_shown(text, alloc, rows, task)?;
    push_identifier(text, task)
}

/// Appends the row of a task, if the plan has it.
fn push_task(
    text: &mut String,
    alloc: Global,
    plan: &Plan,
    task: TaskNo,
    told: Told<'_>,
    rows: &[Row],
) -> Result<(), AllocError>
    ensures { OnOk result (string_bytes text.new ≡ string_bytes text.old
        ++ line_if (row_line told.entry.fates.now (parameter_of told.entry.blamed.now) rows.now)
        task (name_of plan.now task)) }
{
    match plan.name(task) {
        Some(name) => push_row(text, alloc, task, name, told, rows),
        None => Ok(()),
    }
}

fn push_rows(
    text: &mut String,
    alloc: Global,
    plan: &Plan,
    told: Told<'_>,
    rows: &[Row],
) -> Result<(), AllocError>
    ensures { OnOk result (string_bytes text.new ≡ string_bytes text.old
        ++ lines (row_line told.entry.fates.now (parameter_of told.entry.blamed.now) rows.now)
        (names_by_number (tree_of plan.now))) }
{
    for index in 0..plan.tasks() {
        push_task(text, alloc, plan, plan.task_at(index), told, rows)?;
    }
    Ok(())
}

/// Returns the status of a group: a failure if a member failed, else pending if one is.
#[tactic(auto, using(crate::proofs::RowLines::worse_assoc, crate::proofs::RowLines::worse_success))]
fn status_of_all(rows: &[Row], tasks: &[TaskNo]) -> Status
    ensures { result ≡ status_of_all (statuses rows.now tasks.now) }
{
    let mut status = Status::Success;
    for task in tasks {
        status = status.worse(status_at(rows, *task));
    }
    status
}

fn push_comma(text: &mut String, later: bool) -> Result<(), AllocError>
    ensures { OnOk result (string_bytes text.new ≡ string_bytes text.old ++ comma_if later) }
{
    if later { put(text, ",") } else { Ok(()) }
}

fn push_results(
    text: &mut String,
    alloc: Global,
    rows: &[Row],
    tasks: &[TaskNo],
) -> Result<(), AllocError>
    ensures { OnOk result (string_bytes text.new
        ≡ string_bytes text.old ++ listed_json false rows.now tasks.now) }
{
    let mut later = false;
    for task in tasks {
        push_comma(text, later)?;
        push_result(text, alloc, rows, *task)?;
        later = true;
    }
    Ok(())
}

/// Appends the status of the canvas, and the end of its object.
fn push_status(text: &mut String, rows: &[Row], tasks: &[TaskNo]) -> Result<(), AllocError>
    ensures { OnOk result (string_bytes text.new
        ≡ string_bytes text.old ++ status_text rows.now tasks.now) }
{
    put(text, ",\"status\":\"")?;
    put(text, status_of_all(rows, tasks).name())?;
    put(text, "\"}\n")
}

/// Appends how many stores answered Again, if it is given.
fn push_again(text: &mut String, again: Option<u64>) -> Result<(), AllocError>
    ensures { OnOk result (string_bytes text.new ≡ string_bytes text.old ++ again_text again) }
{
    match again {
        None => Ok(()),
        Some(count) => {
            write!(text, "\"again\":{count},")?;
            Ok(())
        }
    }
}

fn push_end_task(text: &mut String, task: TaskNo) -> Result<(), AllocError>
    ensures { OnOk result (string_bytes text.new
        ≡ string_bytes text.old ++ (codes "\"" ++ task_text task ++ codes "\"")) }
{
    write!(text, "\"{task}\"")?;
    Ok(())
}

/// Appends the identifiers of the tasks that the canvas ends in.
fn push_end_tasks(text: &mut String, tasks: &[TaskNo]) -> Result<(), AllocError>
    ensures { OnOk result (string_bytes text.new
        ≡ string_bytes text.old ++ identifiers_json false tasks.now) }
{
    let mut later = false;
    for task in tasks {
        push_comma(text, later)?;
        push_end_task(text, *task)?;
        later = true;
    }
    Ok(())
}

/// Appends the members before the canvas's result.
fn push_end_front(text: &mut String, again: Option<u64>, tasks: &[TaskNo]) -> Result<(), AllocError>
    ensures { OnOk result (string_bytes text.new
        ≡ string_bytes text.old ++ end_front again tasks.now) }
{
    put(text, "{")?;
    push_again(text, again)?;
    put(text, "\"ends\":[")?;
    push_end_tasks(text, tasks)?;
    put(text, "],")
}

/// Appends the result of a group.
fn push_list(
    text: &mut String,
    alloc: Global,
    rows: &[Row],
    tasks: &[TaskNo],
) -> Result<(), AllocError>
    ensures { OnOk result (string_bytes text.new
        ≡ string_bytes text.old ++ end_back true rows.now tasks.now) }
{
    put(text, "\"result\":[")?;
    push_results(text, alloc, rows, tasks)?;
    put(text, "]")?;
    push_status(text, rows, tasks)
}

/// Appends the result of another canvas: that of its last task.
fn push_last(text: &mut String, alloc: Global, rows: &[Row], task: TaskNo) -> Result<(), AllocError>
    ensures { OnOk result (string_bytes text.new
        ≡ string_bytes text.old ++ end_back false rows.now (task ∷ [])) }
{
    put(text, "\"result\":")?;
    push_result(text, alloc, rows, task)?;
    push_status(text, rows, &[task])
}

/// Appends the result of the canvas.
fn push_end(
    text: &mut String,
    alloc: Global,
    ends: &Ends<'_>,
    rows: &[Row],
    again: Option<u64>,
) -> Result<(), AllocError>
    ensures { OnOk result (string_bytes text.new ≡ string_bytes text.old
        ++ end_text again (gives_a_list ends.now) rows.now (end_tasks ends.now)) }
{
    match ends {
        Ends::One(task) => {
            push_end_front(text, again, &[*task])?;
            push_last(text, alloc, rows, *task)
        }
        Ends::Many(tasks) => {
            push_end_front(text, again, tasks)?;
            push_list(text, alloc, rows, tasks)
        }
    }
}

fn lines_of(alloc: Global, plan: &Plan, rows: &[Row], told: Told<'_>) -> Result<String, Memory>
    ensures { IfOk result (λ text. string_bytes text
        ≡ lines (row_line told.entry.fates.now (parameter_of told.entry.blamed.now) rows.now)
        (names_by_number (tree_of plan.now))
        ++ end_text told.entry.again (ends_in_group (tree_of plan.now)) rows.now
        (ends (tree_of plan.now))) }
{
    let mut text = String::new(alloc);
    push_rows(&mut text, alloc, plan, told, rows)?;
    push_end(&mut text, alloc, &plan.ends(), rows, told.again)?;
    Ok(text)
}

/// Returns a line with a JSON object for each task, in the order of their numbers, and one for the
/// result of the canvas. If fates are given, each object says whether its task was called, and to
/// which task a failure is due; if a parameter is blamed, also which.
///
/// `due_to` names the task whose exception it shows, or that its ChordError names. That one may
/// have been skipped itself; its own `due_to` is a smaller number, and so on down to a call that
/// failed.
pub fn rows_text(
    alloc: Global,
    plan: &Plan,
    report: &Report,
    told: Told<'_>,
) -> Result<String, Memory>
    ensures lines { IfOk result (λ text. string_bytes text ≡ json_lines
        (report_wire told.entry.fates.now told.entry.blamed.now told.entry.again
        (tree_of plan.now) (rows_from 1 report.now.rows))) }
    ensures read { AreTyped (rows_from 1 report.now.rows) → IsTypedCount told.entry.again
        → IfOk result (λ text. ReadsAs (string_bytes text)
        (report_wire told.entry.fates.now told.entry.blamed.now told.entry.again
        (tree_of plan.now) (rows_from 1 report.now.rows))) }
{
    let rows = run_rows(alloc, report)?;
    lines_of(alloc, plan, &rows, told)
}

/// Returns the JSON object of a task in a line, as `stored_rows_text` has it.
pub fn row_text(
    alloc: Global,
    plan: &Plan,
    task: TaskNo,
    rows: &[Row],
    told: Told<'_>,
) -> Result<String, Memory>
    ensures { IfOk result (λ text. string_bytes text
        ≡ line_if (row_line told.entry.fates.now (parameter_of told.entry.blamed.now) rows.now)
        task (name_of plan.now task)) }
{
    let mut text = String::new(alloc);
    push_task(&mut text, alloc, plan, task, told, rows)?;
    Ok(text)
}

/// Returns the result of a task and its status as members of a JSON object, up to the closing
/// quote.
pub fn shown_members(alloc: Global, rows: &[Row], task: TaskNo) -> Result<String, Memory>
    ensures { IfOk result (λ text. string_bytes text ≡ shown_text (row_of rows.now task)) }
{
    let mut text = String::new(alloc);
    push_shown(&mut text, alloc, rows, task)?;
    Ok(text)
}

/// Returns the JSON object of the canvas's result in a line, as `stored_rows_text` has it.
pub fn result_text(alloc: Global, plan: &Plan, rows: &[Row]) -> Result<String, Memory>
    ensures { IfOk result (λ text. string_bytes text
        ≡ end_text None (ends_in_group (tree_of plan.now)) rows.now (ends (tree_of plan.now))) }
{
    let mut text = String::new(alloc);
    push_end(&mut text, alloc, &plan.ends(), rows, None)?;
    Ok(text)
}

/// Like `rows_text`, for rows of any kind. A row whose result isn't compact JSON leaves the clauses
/// about the others as they are.
pub fn stored_rows_text(
    alloc: Global,
    plan: &Plan,
    rows: &[Row],
    told: Told<'_>,
) -> Result<String, Memory>
    ensures rows { IfOk result (λ text. string_bytes text
        ≡ stored_lines told.entry.fates.now told.entry.blamed.now told.entry.again rows.now
        (tree_of plan.now)) }
    ensures json { (at : ℕ → Shown) → AllShow rows.now at → IfOk result (λ text.
        string_bytes text ≡ json_lines (rows_wire (fate_at told.entry.fates.now)
        (parameter_of told.entry.blamed.now) told.entry.again at (tree_of plan.now))) }
{
    lines_of(alloc, plan, rows, told)
}
