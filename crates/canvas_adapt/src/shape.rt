//! The form of a signature, on which its adapting depends.

use canvas_sig::parts::{
    Datum, is_list, is_name, is_null, is_object_or_null, is_text, kwarg_of, listed, option_of,
    primitive_of,
};
use canvas_values::Primitive;

/// The form of a signature.
#[derive(Clone, Copy)]
pub(crate) enum Shape {
    Task,
    Chain,
    Group,
    Chord,
    /// A task of Celery's own that calls another task with each of some items.
    Calls,
    /// A signature that stays unchanged, and is refused if it can't be read.
    Other,
}

/// Returns whether a field is missing, null, one callback or a list.
fn is_link(field: Option<&Datum<'_>>) -> bool {
    matches!(
        field,
        None | Some(Datum::Null | Datum::List(_) | Datum::Object(_))
    )
}

fn has_options(value: &Datum<'_>) -> bool {
    is_object_or_null(value.get("options"))
        && is_link(option_of(value, "link"))
        && is_link(option_of(value, "link_error"))
}

/// Returns whether a signature names this task of Celery's own.
fn names(value: &Datum<'_>, task: &str) -> bool {
    is_text(value.get("task"), task)
}

/// Returns whether this is a valid size for a chunk.
fn is_size(field: Option<&Datum<'_>>) -> bool {
    match field {
        Some(Datum::Number(number)) => match number.as_i64() {
            Some(number) => number >= 1,
            None => false,
        },
        _ => false,
    }
}

/// Returns the name of the task that is called with each item.
pub(crate) fn called_task<'a>(value: &Datum<'a>) -> Option<&'a Datum<'a>> {
    kwarg_of(value, "task")?.get("task")
}

/// Returns whether a signature is a task of Celery's own that gets a signature to call.
fn calls_another(value: &Datum<'_>) -> bool {
    match kwarg_of(value, "task") {
        Some(Datum::Object(_)) => {
            names(value, "celery.map")
                || names(value, "celery.starmap")
                || names(value, "celery.chunks")
        }
        _ => false,
    }
}

/// Returns whether each item is the argument itself.
pub(crate) fn takes_items(value: &Datum<'_>) -> bool {
    names(value, "celery.map")
}

fn are_lists(values: &[Datum<'_>]) -> bool {
    for value in values {
        if !matches!(value, Datum::List(_)) {
            return false;
        }
    }
    true
}

/// Returns whether a task that calls another has a name and items to call it with, and no link,
/// which would get the list of all results.
fn has_calls(value: &Datum<'_>) -> bool {
    is_name(called_task(value))
        && is_list(kwarg_of(value, "it"))
        && listed(option_of(value, "link")).is_empty()
        && !matches!(option_of(value, "link"), Some(Datum::Object(_)))
        && is_null(option_of(value, "chord"))
        && (takes_items(value) || are_lists(listed(kwarg_of(value, "it"))))
        && (!names(value, "celery.chunks") || is_size(kwarg_of(value, "n")))
}

fn task_form(value: &Datum<'_>) -> Shape {
    if !calls_another(value) {
        return Shape::Task;
    }
    if has_calls(value) {
        return Shape::Calls;
    }
    Shape::Other
}

fn if_list(field: Option<&Datum<'_>>, form: Shape) -> Shape {
    if is_list(field) { form } else { Shape::Other }
}

/// Returns the form of a chord, which needs a header and a body.
fn chord_form(value: &Datum<'_>) -> Shape {
    let header = kwarg_of(value, "header");
    if is_null(header) || is_null(kwarg_of(value, "body")) {
        return Shape::Other;
    }
    Shape::Chord
}

pub(crate) fn form_of(value: &Datum<'_>) -> Shape {
    if !value.is_object() || !has_options(value) {
        return Shape::Other;
    }
    match primitive_of(value.get("subtask_type")) {
        Some(Primitive::Task) => task_form(value),
        Some(Primitive::Chain) => if_list(kwarg_of(value, "tasks"), Shape::Chain),
        Some(Primitive::Group) => if_list(kwarg_of(value, "tasks"), Shape::Group),
        Some(Primitive::Chord) => chord_form(value),
        None => Shape::Other,
    }
}

pub(crate) fn is_task(value: &Datum<'_>) -> bool {
    matches!(form_of(value), Shape::Task)
}
