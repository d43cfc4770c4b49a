//! Reading the headers and the properties.

ghost use Rattle.std.specs.Prelude.{◌≡◌, ◌&&◌, codes};
ghost use Rattle.std.specs.Option.{option_map};
ghost use Rattle.canvas_sig.specs.Datum.{view, value_at};
ghost use Rattle.serde_json.specs.Find.{get};
ghost use Rattle.canvas_values.specs.Fields.{is_object};
ghost use Rattle.canvas_codec.specs.steps.Reading.{is_version_2, is_that_task, correlates, is_group_or_null, ids_ok, id_reading, is_json};

use super::identifiers::{group_of, task_of};
use canvas_sig::parts::{Datum, is_name, is_null, is_text};
use canvas_task::TaskNo;

/// Returns whether these are headers of a version 2 message.
pub(crate) fn is_version_2(headers: &Datum<'_>) -> bool
    ensures { result ≡ is_version_2 (view headers.now) }
{
    headers.is_object() && is_name(headers.get("task"))
}

fn is_that_task(task: TaskNo, other: Option<TaskNo>) -> bool
    ensures { result ≡ is_that_task task other }
{
    match other {
        Some(other) => other.get() == task.get(),
        None => false,
    }
}

/// Returns whether a correlation's identifier, if there is one, names the task.
fn correlates(task: TaskNo, field: Option<&Datum<'_>>) -> bool
    ensures { result ≡ correlates task (option_map (λ v. view v.now) field.entry) }
{
    match field {
        Some(_) => is_that_task(task, task_of(field)),
        None => true,
    }
}

fn is_group_or_null(field: Option<&Datum<'_>>) -> bool
    ensures { result ≡ is_group_or_null (value_at field.entry) }
{
    is_null(field) || group_of(field).is_some()
}

/// Returns whether the properties are an object and name no other task.
fn is_correlated(properties: &Datum<'_>, task: TaskNo) -> bool
    ensures { result
        ≡ (is_object (view properties.now)
        && correlates task (get (codes "correlation_id") (view properties.now))) }
{
    properties.is_object() && correlates(task, properties.get("correlation_id"))
}

fn ids_ok(properties: &Datum<'_>, headers: &Datum<'_>, task: TaskNo) -> bool
    ensures { result ≡ ids_ok (view properties.now) (view headers.now) task }
{
    is_group_or_null(headers.get("group")) && is_correlated(properties, task)
}

/// Returns the called task, if all identifiers are valid.
pub(crate) fn read_id(properties: &Datum<'_>, headers: &Datum<'_>) -> Option<TaskNo>
    ensures { result ≡ id_reading (view properties.now) (view headers.now) }
{
    let task = task_of(headers.get("id"))?;
    if ids_ok(properties, headers, task) {
        Some(task)
    } else {
        None
    }
}

/// Returns whether the properties say that the body is JSON in UTF-8.
pub(crate) fn is_json(properties: &Datum<'_>) -> bool
    ensures { result ≡ is_json (view properties.now) }
{
    is_text(properties.get("content_type"), "application/json")
        && is_text(properties.get("content_encoding"), "utf-8")
}
