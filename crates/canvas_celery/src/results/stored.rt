//! One result as Celery stores it, in JSON.

ghost use Rattle.std.specs.Prelude.{◌≡◌, ◌≢◌, ◌++◌, ◌↔◌, ℕ, ℤ, true, Some};
ghost use Rattle.std.specs.Prelude.{IsTrue, MatchBool, MatchOption, MatchResult, codes};
ghost use Rattle.serde_json.specs.View.{view};
ghost use Rattle.canvas_values.specs.CanvasText.{json_of};
ghost use Rattle.canvas_values.specs.Fields.{text_of};
ghost use Rattle.canvas_celery.specs.steps.Found.{value_at};
ghost use Rattle.canvas_task.specs.Text.{Text};
ghost use Rattle.canvas_task.specs.Numbers.{in_range};
ghost use Rattle.canvas_task.specs.Printed.{kind_name, why_name};
ghost use Rattle.canvas_celery.specs.Run.{run_task};
ghost use Rattle.canvas_semantics.specs.Line.{count_line};
ghost use Rattle.canvas_task.specs.declared.outcome.Kind.{Kind};
ghost use Rattle.canvas_task.specs.declared.outcome.Why.{Why};
ghost use Rattle.canvas_celery.specs.Stored.{integer_in, message_in, named_in, class_of, Blames};
ghost use Rattle.canvas_celery.specs.Stored.{SaysFault, SaysRow, Waits};
ghost use Rattle.canvas_celery.specs.steps.Lacking.{LacksFault, LacksOutcome};
ghost use Rattle.canvas_celery.specs.AsStored.{Names};
ghost use Rattle.canvas_celery.specs.steps.Parsed.{IsUnread};

use crate::Run;
use crate::results::named::task_named;
use crate::results::pieces::split_at_byte;
use canvas_rewrite::Plan;
use canvas_task::{Fault, Kind, Outcome, TaskNo, Why, in_range};
use serde_json::Value;
use std::alloc::Global;
use thiserror::Error;

/// Why a stored result is not one of the plan's task.
#[derive(Clone, Copy, Debug, Drop, PartialEq, Eq, Error)]
pub enum StoredFault {
    /// Not a JSON text in UTF-8, for example if another serializer, or compression, is set.
    #[error("NotJson")]
    NotJson,
    /// The result of another task, or of another run.
    #[error("OtherTask")]
    OtherTask,
    /// A state other than PENDING, RECEIVED, STARTED, RETRY, SUCCESS and FAILURE.
    #[error("UnknownState")]
    UnknownState,
    /// For a failure: an exception that has no class.
    #[error("UnknownException")]
    UnknownException,
    /// An allocation failed.
    #[error("memory refused")]
    Memory,
}

/// Why a stored result is not an outcome that the engine's own tasks have.
#[derive(Clone, Copy, Debug, Drop, PartialEq, Eq)]
pub(crate) enum Lack {
    /// Its state is unknown.
    State,
    /// For a success: not a whole number from -2^60 to 2^60.
    Number,
    /// For a failure: an exception that is none of the built-in tasks'.
    Exception,
    /// A ChordError that names no task of the run, or a class that is none of these.
    Dependency,
}

/// Returns the text of a value, empty if it is none.
pub(crate) fn text_in(found: Option<&Value>) -> &str
    ensures { result.now ≡ text_of (value_at found.entry) }
{
    match found {
        Some(Value::String(text)) => text,
        _ => "",
    }
}

/// Returns an exception's message: a text, or the first of a list.
pub(crate) fn message_in(found: Option<&Value>) -> &str
    ensures { result.now ≡ message_in (value_at found.entry) }
{
    match found {
        Some(Value::Array(texts)) => text_in(texts.first()),
        _ => text_in(found),
    }
}

fn kind_of(name: &[u8]) -> Option<Kind>
    ensures { MatchOption result ((kind : Kind) → name.now ≢ kind_name kind)
        (λ kind. name.now ≡ kind_name kind) }
{
    if name == b"TypeError".as_slice() {
        Some(Kind::BadCall)
    } else if name == b"ZeroDivisionError".as_slice() {
        Some(Kind::ZeroDivision)
    } else if name == b"OverflowError".as_slice() {
        Some(Kind::Overflow)
    } else if name == b"NotRegistered".as_slice() {
        Some(Kind::NotRegistered)
    } else {
        None
    }
}

fn why_of(name: &[u8]) -> Option<Why>
    ensures { MatchOption result ((why : Why) → name.now ≢ why_name why)
        (λ why. name.now ≡ why_name why) }
{
    if name == b"ChordError".as_slice() {
        return Some(Why::Chord);
    }
    match kind_of(name) {
        Some(kind) => Some(Why::Plain(kind)),
        None => None,
    }
}

/// Returns the rest of a text after a beginning.
fn behind<'a>(text: &'a [u8], start: &[u8]) -> Option<&'a [u8]>
    ensures { MatchOption result ((rest : Text) → text.now ≢ start.now ++ rest)
        (λ rest. text.now ≡ start.now ++ rest.now) }
{
    text.strip_prefix(start)
}

/// The parts of a ChordError's message: `Dependency ID raised CLASS(..)`.
#[derive(Drop)]
pub(crate) struct Blame<'m> {
    pub(crate) dep: TaskNo,
    pub(crate) class: &'m [u8],
}

/// Returns the task of the run that a message names, with the class of its exception.
pub(crate) fn blame_in<'m>(plan: &Plan, run: &Run, message: &'m [u8]) -> Option<Blame<'m>>
    ensures { MatchOption result
        ((dep : ℕ) (name : Text)
        → ¬ Names run.now.digits (count_line plan.now) message.now dep name)
        (λ b. Names run.now.digits (count_line plan.now) message.now b.dep b.class.now) }
{
    // The type of the run's number gives its length.
    let _digits = run.digits();
    let text = behind(message, b"Dependency ")?;
    if text.len() < 36 {
        return None;
    }
    let (id, said) = text.split_at(36);
    let dep = task_named(plan, run, id)?;
    let raised = behind(said, b" raised ")?;
    let (class, _) = split_at_byte(raised, b'(');
    Some(Blame { dep, class })
}

/// Like `blame_in`, if the class is one of the built-in tasks' exceptions, or a ChordError.
fn dependency_of(plan: &Plan, run: &Run, message: &[u8]) -> Option<(TaskNo, Why)>
    ensures { MatchOption result
        ((dep : ℕ) (why : Why)
        → ¬ Blames run.now.digits (count_line plan.now) message.now dep why)
        (λ p. Blames run.now.digits (count_line plan.now) message.now p.0 p.1) }
{
    // The type of the run's number gives its length.
    let _digits = run.digits();
    match blame_in(plan, run, message) {
        Some(blame) => match why_of(blame.class) {
            Some(why) => Some((blame.dep, why)),
            None => None,
        },
        None => None,
    }
}

fn chord_failure(plan: &Plan, run: &Run, exception: &Value) -> Result<Fault, Lack>
    requires { class_of (view exception.now) ≡ codes "ChordError" }
    ensures { MatchResult result
        (λ f. SaysFault run.now.digits (count_line plan.now) (view exception.now) f)
        (λ e. LacksFault run.now.digits (count_line plan.now) (view exception.now) e) }
{
    let message = message_in(exception.get("exc_message"));
    match dependency_of(plan, run, message.as_bytes()) {
        Some((dep, why)) => Ok(Fault::Chord { dep, why }),
        None => Err(Lack::Dependency),
    }
}

fn failure_of(plan: &Plan, run: &Run, exception: &Value) -> Result<Fault, Lack>
    ensures { MatchResult result
        (λ f. SaysFault run.now.digits (count_line plan.now) (view exception.now) f)
        (λ e. LacksFault run.now.digits (count_line plan.now) (view exception.now) e) }
{
    let name = text_in(exception.get("exc_type"));
    if name == "ChordError" {
        return chord_failure(plan, run, exception);
    }
    match kind_of(name.as_bytes()) {
        Some(kind) => Ok(Fault::Plain(kind)),
        None => Err(Lack::Exception),
    }
}

fn failure_in(plan: &Plan, run: &Run, found: Option<&Value>) -> Result<Fault, Lack>
    ensures { MatchResult result
        (λ f. SaysFault run.now.digits (count_line plan.now) (value_at found.entry) f)
        (λ e. LacksFault run.now.digits (count_line plan.now) (value_at found.entry) e) }
{
    match found {
        Some(exception) => failure_of(plan, run, exception),
        None => Err(Lack::Exception),
    }
}

fn integer_in(found: Option<&Value>) -> Option<i64>
    ensures { result ≡ integer_in (value_at found.entry) }
{
    match found {
        Some(value) => value.as_i64(),
        None => None,
    }
}

fn success_of(found: Option<&Value>) -> Option<i64>
    ensures { MatchOption result
        ((n : ℤ) → integer_in (value_at found.entry) ≡ Some n → in_range n ≢ true)
        (λ n. (integer_in (value_at found.entry) ≡ Some n) × (in_range n ≡ true)) }
{
    match integer_in(found) {
        Some(number) => { if in_range(number) { Some(number) } else { None } }
        None => None,
    }
}

fn is_waiting(status: &str) -> bool
    ensures { MatchBool result (Waits status.now) (¬ Waits status.now) }
{
    matches!(status, "PENDING" | "RECEIVED" | "STARTED" | "RETRY")
}

pub(crate) fn outcome_of(plan: &Plan, run: &Run, meta: &Value) -> Result<Option<Outcome>, Lack>
    ensures { MatchResult result
        (λ row. SaysRow run.now.digits (count_line plan.now) (view meta.now) row)
        (λ e. LacksOutcome run.now.digits (count_line plan.now) (view meta.now) e) }
{
    let status = text_in(meta.get("status"));
    if status == "SUCCESS" {
        return match success_of(meta.get("result")) {
            Some(number) => Ok(Some(Outcome::Success(number))),
            None => Err(Lack::Number),
        };
    }
    if status == "FAILURE" {
        let fault = failure_in(plan, run, meta.get("result"))?;
        return Ok(Some(Outcome::Failure(fault)));
    }
    if is_waiting(status) {
        Ok(None)
    } else {
        Err(Lack::State)
    }
}

/// Parses a text as JSON.
pub(crate) fn parsed(alloc: Global, text: &[u8]) -> Result<Value, StoredFault>
    ensures { MatchResult result (λ meta. json_of text.now ≡ Some (view meta))
        (λ e. IsUnread text.now e) }
{
    match Value::from_slice(alloc, text) {
        Ok(meta) => Ok(meta),
        Err(error) => Err(if error.is_memory() {
            StoredFault::Memory
        } else {
            StoredFault::NotJson
        }),
    }
}

/// Returns whether the value names the task in this run.
pub(crate) fn is_of(run: &Run, task: TaskNo, meta: &Value) -> bool
    ensures { IsTrue result ↔ (named_in (view meta.now) ≡ run_task run.now.digits task) }
{
    let id = run.task_text(task);
    let named = text_in(meta.get("task_id"));
    named.as_bytes() == id.as_slice()
}
