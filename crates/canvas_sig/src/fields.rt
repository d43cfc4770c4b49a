//! Look-ups in a signature, and tests of the found values.

ghost use Rattle.std.specs.Prelude.{◌≡◌, map};
ghost use Rattle.serde_json.specs.Data.{null};
ghost use Rattle.canvas_sig.specs.Datum.{view, value_at};
ghost use Rattle.canvas_values.specs.Fields.{kwarg, option, is_null, is_list, is_true, is_flag, is_list_or_null, is_object_or_null, is_link, is_empty, as_list, listed};

use crate::datum::Datum;
use std::slice;

/// Returns whether a field is null or missing.
pub fn is_null(field: Option<&Datum<'_>>) -> bool
    ensures { result ≡ is_null (value_at field.entry) }
{
    matches!(field, None | Some(Datum::Null))
}

/// Returns whether a field is `true`.
pub fn is_true(field: Option<&Datum<'_>>) -> bool
    ensures { result ≡ is_true (value_at field.entry) }
{
    match field {
        Some(Datum::Bool(b)) => *b,
        _ => false,
    }
}

pub(crate) fn is_flag(field: Option<&Datum<'_>>) -> bool
    ensures { result ≡ is_flag (value_at field.entry) }
{
    matches!(field, None | Some(Datum::Null | Datum::Bool(_)))
}

/// Returns whether a field is a list, null or missing.
pub fn is_list_or_null(field: Option<&Datum<'_>>) -> bool
    ensures { result ≡ is_list_or_null (value_at field.entry) }
{
    matches!(field, None | Some(Datum::Null | Datum::List(_)))
}

/// Returns whether a field is an object, null or missing.
pub fn is_object_or_null(field: Option<&Datum<'_>>) -> bool
    ensures { result ≡ is_object_or_null (value_at field.entry) }
{
    matches!(field, None | Some(Datum::Null | Datum::Object(_)))
}

pub(crate) fn is_link(field: Option<&Datum<'_>>) -> bool
    ensures { result ≡ is_link (value_at field.entry) }
{
    matches!(
        field,
        None | Some(Datum::Null | Datum::List(_) | Datum::Object(_))
    )
}

/// Returns whether a field is a list.
pub fn is_list(field: Option<&Datum<'_>>) -> bool
    ensures { result ≡ is_list (value_at field.entry) }
{
    matches!(field, Some(Datum::List(_)))
}

/// Returns whether a field is null, missing or an empty list.
pub(crate) fn is_empty(field: Option<&Datum<'_>>) -> bool
    ensures { result ≡ is_empty (value_at field.entry) }
{
    match field {
        Some(value) => is_empty_value(value),
        None => true,
    }
}

fn is_empty_value(value: &Datum<'_>) -> bool
    ensures { result ≡ is_empty (view value.now) }
{
    match value {
        Datum::Null => true,
        Datum::List(values) => values.is_empty(),
        _ => false,
    }
}

fn items<'a>(value: &Datum<'a>) -> &'a [Datum<'a>]
    ensures { map view result.now ≡ listed (view value.now) }
{
    match value {
        Datum::List(values) => values,
        _ => &[],
    }
}

/// Returns the items of a list. Any other value has none.
pub fn listed<'a>(field: Option<&Datum<'a>>) -> &'a [Datum<'a>]
    ensures { map view result.now ≡ listed (value_at field.entry) }
{
    match field {
        Some(value) => items(value),
        None => &[],
    }
}

fn items_or_one<'a>(value: &'a Datum<'a>) -> &'a [Datum<'a>]
    ensures { map view result.now ≡ as_list (view value.now) }
{
    match value {
        Datum::Null => &[],
        Datum::List(values) => values,
        _ => slice::from_ref(value),
    }
}

/// Returns the items of a list, a single other value, or nothing for null.
pub fn as_list<'a>(field: Option<&'a Datum<'a>>) -> &'a [Datum<'a>]
    ensures { map view result.now ≡ as_list (value_at field.entry) }
{
    match field {
        Some(value) => items_or_one(value),
        None => &[],
    }
}

/// Returns the value of a field, or `lent`, which is null, if it is missing.
pub fn or_null<'a>(field: Option<&'a Datum<'a>>, lent: &'a Datum<'a>) -> &'a Datum<'a>
    requires { view lent.now ≡ null }
    ensures { view result.now ≡ value_at field.entry }
{
    match field {
        Some(value) => value,
        None => lent,
    }
}

/// Returns a member of the keyword arguments.
pub fn kwarg_of<'a>(value: &Datum<'a>, name: &str) -> Option<&'a Datum<'a>>
    ensures { value_at result ≡ kwarg name.now (view value.now) }
{
    value.get("kwargs")?.get(name)
}

/// Returns a member of the options.
pub fn option_of<'a>(value: &Datum<'a>, name: &str) -> Option<&'a Datum<'a>>
    ensures { value_at result ≡ option name.now (view value.now) }
{
    value.get("options")?.get(name)
}
