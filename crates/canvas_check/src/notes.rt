//! The note of a refusal: the found and the wanted value, in one line.
//!
//! A note quotes a text, truncates it after 40 characters, and escapes other characters than
//! printable ASCII (`\u{1b}`). It quotes a name of an option or parameter, too, unless that is 1 to
//! 40 characters from `!` to `~` with no quote or backslash.
//!
//! A note blames the first member that is at fault. A chord's header comes before its body. The
//! members that only a task has come in the order `args`, `immutable`, `link`, `link_error`, except
//! null and an empty list.

use crate::arguments::{Bad, of_bad_argument};
use crate::listing::Place;
use crate::shown::{shown, shown_value};
use canvas_semantics::{MOST_GROUPS, MOST_NESTING, MOST_REACH, MOST_TASKS, WithCommas};
use canvas_sig::SigFault;
use canvas_sig::parts::{
    Datum, is_list, is_list_or_null, is_name, is_object_or_null, is_text, is_true, kwarg_of,
    option_of, primitive_of,
};
use canvas_values::Primitive;
use std::alloc::{AllocError, Global};

const SIGNATURES: &str = "a list of signatures";

/// Celery's names for signatures that apply another one to each item of a list.
static MAPS: [&str; 3] = ["celery.map", "celery.starmap", "celery.chunks"];

/// Makes a note on the value of a member.
pub(crate) fn found(
    alloc: Global,
    what: &str,
    value: Option<&Datum<'_>>,
    wanted: &str,
) -> Result<String, AllocError> {
    let shown = shown(alloc, value)?;
    format!(in alloc; "found {what} {shown}, wanted {wanted}")
}

fn of_signature(alloc: Global, value: &Datum<'_>) -> Result<String, AllocError> {
    if !value.is_object() {
        let shown = shown_value(alloc, value)?;
        return format!(in alloc; "found {shown}, wanted a signature: an object that names a task");
    }
    let task = value.get("task");
    if !is_name(task) {
        return found(alloc, "task", task, "a name of 1 to 128 bytes from ! to ~");
    }
    found(
        alloc,
        "immutable",
        value.get("immutable"),
        "true, false or null",
    )
}

fn is_link(field: Option<&Datum<'_>>) -> bool {
    matches!(
        field,
        None | Some(Datum::Null | Datum::List(_) | Datum::Object(_))
    )
}

fn of_bad_args(alloc: Global, value: &Datum<'_>) -> Result<String, AllocError> {
    let args = value.get("args");
    if !is_list_or_null(args) {
        return found(alloc, "args", args, "a list");
    }
    for &name in &["kwargs", "options"] {
        let member = value.get(name);
        if !is_object_or_null(member) {
            return found(alloc, name, member, "an object");
        }
    }
    for &(name, what) in &[
        ("link", "options.link"),
        ("link_error", "options.link_error"),
    ] {
        let callbacks = option_of(value, name);
        if !is_link(callbacks) {
            return found(alloc, what, callbacks, "a signature, or a list of some");
        }
    }
    of_bad_members(alloc, value)
}

fn of_bad_members(alloc: Global, value: &Datum<'_>) -> Result<String, AllocError> {
    match primitive_of(value.get("subtask_type")) {
        Some(Primitive::Chain | Primitive::Group) => {
            found(alloc, "kwargs.tasks", kwarg_of(value, "tasks"), SIGNATURES)
        }
        Some(Primitive::Chord) => of_bad_chord(alloc, value),
        _ => of_bad_kind(alloc, value),
    }
}

fn is_group(field: Option<&Datum<'_>>) -> bool {
    match field {
        Some(value) => is_text(value.get("subtask_type"), "group"),
        None => false,
    }
}

/// Makes the note on a bad chord. The header is checked before the body.
fn of_bad_chord(alloc: Global, value: &Datum<'_>) -> Result<String, AllocError> {
    let header = kwarg_of(value, "header");
    if is_list(header) || is_group(header) {
        let body = kwarg_of(value, "body");
        return found(alloc, "kwargs.body", body, "a signature");
    }
    found(
        alloc,
        "kwargs.header",
        header,
        "a list of signatures, or a group",
    )
}

/// Returns which of the `MAPS` a signature is, if it holds the signature to apply.
fn map_name(value: &Datum<'_>) -> Option<&'static str> {
    if !matches!(kwarg_of(value, "task"), Some(Datum::Object(_))) {
        return None;
    }
    for &name in &MAPS {
        if is_text(value.get("task"), name) {
            return Some(name);
        }
    }
    None
}

/// Makes the note on a task with an argument of no allowed kind.
fn of_bad_kind(alloc: Global, value: &Datum<'_>) -> Result<String, AllocError> {
    match map_name(value) {
        Some(name) => format!(in alloc;
            "found {name}, which applies kwargs[\"task\"] to a list, wanted a task, chain, group or chord"
        ),
        None => of_bad_argument(alloc, value, Bad::Kind),
    }
}

fn kind_name(value: &Datum<'_>) -> &'static str {
    match primitive_of(value.get("subtask_type")) {
        Some(Primitive::Chain) => "a chain",
        Some(Primitive::Group) => "a group",
        Some(Primitive::Chord) => "a chord",
        _ => "a task",
    }
}

/// Returns whether a member has a value other than null and the empty list.
fn is_given(field: Option<&Datum<'_>>) -> bool {
    match field {
        None | Some(Datum::Null) => false,
        Some(Datum::List(values)) => !values.is_empty(),
        Some(_) => true,
    }
}

/// Returns the member of a chain, group or chord that only a task may have.
fn given_on(value: &Datum<'_>) -> &'static str {
    if is_given(value.get("args")) {
        return "args";
    }
    if is_true(value.get("immutable")) {
        return "immutable";
    }
    if is_given(option_of(value, "link")) {
        return "options.link";
    }
    "options.link_error"
}

/// Makes the note on a member that only a task may have, or on a callback that is no task.
fn of_canvas(alloc: Global, place: &Place<'_>) -> Result<String, AllocError> {
    let value = place.value;
    let kind = kind_name(value);
    if place.is_linked {
        return format!(in alloc; "found {kind} as a link or error callback, wanted a task");
    }
    let what = given_on(value);
    format!(in alloc; "found {what} on {kind}, wanted it on tasks alone")
}

fn of_depth(alloc: Global, place: &Place<'_>) -> Result<String, AllocError> {
    if place.steps.is_empty() {
        return format!(in alloc;
            "found signatures more than {MOST_REACH} deep in each other in a message of the run, wanted at most {MOST_REACH}"
        );
    }
    format!(in alloc;
        "found a signature more than {MOST_NESTING} deep in others, wanted at most {MOST_NESTING}"
    )
}

fn of_number(alloc: Global, place: &Place<'_>) -> Result<String, AllocError> {
    let (what, most) = match primitive_of(place.value.get("subtask_type")) {
        Some(Primitive::Task) => ("task", WithCommas(MOST_TASKS)),
        _ => ("group or chord", WithCommas(MOST_GROUPS)),
    };
    format!(in alloc; "found one {what} more than {most}, wanted at most {most}")
}

/// Makes the note on a signature that has a refusal, or that exceeds a limit.
pub(crate) fn note_of(
    alloc: Global,
    place: &Place<'_>,
    fault: SigFault,
) -> Result<String, AllocError> {
    let value = place.value;
    match fault {
        SigFault::NotSignature => of_signature(alloc, value),
        SigFault::UnknownPrimitive => found(
            alloc,
            "subtask_type",
            value.get("subtask_type"),
            "null, \"chain\", \"group\" or \"chord\"",
        ),
        SigFault::BadArgs => of_bad_args(alloc, value),
        SigFault::BadNumber => of_bad_argument(alloc, value, Bad::Number),
        SigFault::OnCanvas => of_canvas(alloc, place),
        SigFault::Frozen => found(alloc, "options.chord", option_of(value, "chord"), "null"),
        SigFault::EmptyChain => {
            String::from_str(alloc, "found a chain of no tasks, wanted one at least")
        }
        SigFault::NestedGroup => String::from_str(
            alloc,
            "found a member that ends in a group, wanted one that ends in a task",
        ),
        SigFault::TooDeep => of_depth(alloc, place),
        SigFault::TooMany => of_number(alloc, place),
        _ => Ok(String::new(alloc)),
    }
}
