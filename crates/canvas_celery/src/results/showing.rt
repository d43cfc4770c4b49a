//! One result as Celery stores it, for a task that returned or raised anything.

ghost use Rattle.std.specs.Prelude.{◌≡◌, ◌≤◌, IfOk, IsUtf8, MatchResult, string_bytes};
ghost use Rattle.serde_json.specs.Data.{depth};
ghost use Rattle.serde_json.specs.Read.{max_depth};
ghost use Rattle.serde_json.specs.View.{view};
ghost use Rattle.canvas_semantics.specs.Line.{count_line};
ghost use Rattle.canvas_celery.specs.Stored.{class_of, message_of};
ghost use Rattle.canvas_celery.specs.declared.results.stored.Lack.TheVariants as lack;
ghost use Rattle.canvas_celery.specs.steps.Lacking.{LacksFault, LacksOutcome};
ghost use Rattle.canvas_celery.specs.AsStored.{IsJsonOf, IsRow, Says};
ghost use Rattle.canvas_celery.specs.steps.Found.{value_at};
ghost use Rattle.canvas_celery.specs.steps.Rows.{IsRefused, HasJson, HasClass, HasBlame, LacksClass};
ghost use Rattle.canvas_celery.specs.steps.Rows.{IsChordRow, ResultFault, LineFault};

use crate::Run;
use crate::results::stored::{
    Lack, StoredFault, blame_in, is_of, message_in, outcome_of, parsed, text_in,
};
use canvas_report::Row;
use canvas_rewrite::Plan;
use canvas_task::TaskNo;
use serde_json::Value;
use std::alloc::{AllocError, Global};
use std::str;

/// Returns a value as JSON; one that is missing is null.
fn json_text(alloc: Global, found: Option<&Value>) -> Result<String, AllocError>
    requires { depth (value_at found) ≤ max_depth }
    ensures { IfOk result (λ text. IsJsonOf (string_bytes text) (value_at found.entry)) }
{
    match found {
        Some(value) => value.to_string(alloc),
        None => Value::Null.to_string(alloc),
    }
}

/// Returns a row with a value.
fn value_row(alloc: Global, found: Option<&Value>) -> Result<Row, StoredFault>
    requires { depth (value_at found) ≤ max_depth }
    ensures { MatchResult result (HasJson (value_at found.entry)) IsRefused }
{
    match json_text(alloc, found) {
        Ok(text) => Ok(Row::Value(text)),
        Err(_) => Err(StoredFault::Memory),
    }
}

/// Returns the class of an exception, empty if it is none.
fn class_in(found: Option<&Value>) -> &str
    ensures { result.now ≡ class_of (value_at found.entry) }
{
    match found {
        Some(exception) => text_in(exception.get("exc_type")),
        None => "",
    }
}

/// Returns the message of an exception, empty if it has none.
fn said_in(found: Option<&Value>) -> &str
    ensures { result.now ≡ message_of (value_at found.entry) }
{
    match found {
        Some(exception) => message_in(exception.get("exc_message")),
        None => "",
    }
}

/// Returns a row with the class of an exception.
fn raised_row(alloc: Global, class: &str) -> Result<Row, StoredFault>
    ensures { MatchResult result (HasClass class.now) (LacksClass class.now) }
{
    if class.is_empty() {
        return Err(StoredFault::UnknownException);
    }
    match String::from_str(alloc, class) {
        Ok(name) => Ok(Row::Raised(name)),
        Err(_) => Err(StoredFault::Memory),
    }
}

/// Returns a row with the task that a ChordError names, and the class of that task's exception.
fn blamed_row(alloc: Global, dep: TaskNo, class: &[u8]) -> Result<Row, StoredFault>
    requires { IsUtf8 class.now }
    ensures { MatchResult result (HasBlame dep class.now) IsRefused }
{
    match str::from_utf8(class) {
        Ok(class) => match String::from_str(alloc, class) {
            Ok(name) => Ok(Row::Blamed { dep, name }),
            Err(_) => Err(StoredFault::Memory),
        },
        Err(_) => unreachable!(),
    }
}

/// Returns the row of a ChordError, which has only its class if it names no task of the run.
fn chord_row(
    alloc: Global,
    plan: &Plan,
    run: &Run,
    found: Option<&Value>,
) -> Result<Row, StoredFault>
    requires { LacksFault run.now.digits (count_line plan.now) (value_at found)
        lack.Dependency }
    ensures { MatchResult result
        (IsChordRow run.now.digits (count_line plan.now) (value_at found.entry)) IsRefused }
{
    // The type of the run's number gives its length.
    let _digits = run.digits();
    match blame_in(plan, run, said_in(found).as_bytes()) {
        Some(blame) => blamed_row(alloc, blame.dep, blame.class),
        None => raised_row(alloc, "ChordError"),
    }
}

/// Returns the row of a result that is not an outcome of the engine's own tasks.
fn other_row(
    alloc: Global,
    plan: &Plan,
    run: &Run,
    meta: &Value,
    lack: Lack,
) -> Result<Row, StoredFault>
    requires lacks { LacksOutcome run.now.digits (count_line plan.now) (view meta.now) lack }
    requires low { depth (view meta.now) ≤ max_depth }
    ensures { MatchResult result (IsRow run.now.digits (count_line plan.now) (view meta.now))
        (ResultFault (view meta.now)) }
{
    let found = meta.get("result");
    match lack {
        Lack::Number => value_row(alloc, found),
        Lack::Exception => raised_row(alloc, class_in(found)),
        Lack::Dependency => chord_row(alloc, plan, run, found),
        Lack::State => Err(StoredFault::UnknownState),
    }
}

fn row_of(alloc: Global, plan: &Plan, run: &Run, meta: &Value) -> Result<Row, StoredFault>
    requires { depth (view meta.now) ≤ max_depth }
    ensures { MatchResult result (IsRow run.now.digits (count_line plan.now) (view meta.now))
        (ResultFault (view meta.now)) }
{
    match outcome_of(plan, run, meta) {
        Ok(outcome) => Ok(Row::Known(outcome)),
        Err(lack) => other_row(alloc, plan, run, meta, lack),
    }
}

/// Returns the row of a stored result, pending if the text is empty, or its state isn't final.
pub(crate) fn read_row(
    alloc: Global,
    plan: &Plan,
    run: &Run,
    task: TaskNo,
    text: &[u8],
) -> Result<Row, StoredFault>
    ensures { MatchResult result (Says run.now.digits (count_line plan.now) task text.now)
        (LineFault run.now.digits (count_line plan.now) task text.now) }
{
    if text.is_empty() {
        return Ok(Row::Known(None));
    }
    let meta = parsed(alloc, text)?;
    if is_of(run, task, &meta) {
        row_of(alloc, plan, run, &meta)
    } else {
        Err(StoredFault::OtherTask)
    }
}
