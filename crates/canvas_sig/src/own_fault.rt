//! The faults of a single signature, apart from those of nested signatures.

ghost use Rattle.std.specs.Prelude.{◌≡◌, map, Some, false};
ghost use Rattle.std.specs.List.{list_all};
ghost use Rattle.canvas_sig.specs.Datum.{view, value_at, seen};
ghost use Rattle.canvas_sig.specs.steps.Members.{AreFound};
ghost use Rattle.canvas_values.specs.declared.primitive.Primitive.TheVariants.{Chain, Chord};
ghost use Rattle.canvas_values.specs.Fields.{contents};
ghost use Rattle.canvas_values.specs.Grammar.{is_name, is_text, is_group, kind_ok, numbers_ok, number_ok, args_ok, not_signature, bad_members, bad_args, bad_number, on_canvas, empty_chain, fault_as, own_fault};

use crate::arguments::{all_numbers, is_in_range};
use crate::datum::Datum;
use crate::fields::{
    is_empty, is_flag, is_link, is_list, is_list_or_null, is_null, is_object_or_null, is_true,
    listed,
};
use crate::members::Members;
use crate::primitive::primitive_of;
use canvas_task::name_ok;
use canvas_values::{Primitive, SigFault};

/// Returns whether a member is a name that a task may have.
pub fn is_name(field: Option<&Datum<'_>>) -> bool
    ensures { result ≡ is_name (value_at field.entry) }
{
    match field {
        Some(Datum::Text(text)) => name_ok(text),
        _ => false,
    }
}

/// Returns whether a member is this text.
pub fn is_text(field: Option<&Datum<'_>>, text: &str) -> bool
    ensures { result ≡ is_text text.now (value_at field.entry) }
{
    match field {
        Some(Datum::Text(found)) => *found == text,
        _ => false,
    }
}

fn kind_ok(value: &Datum<'_>) -> bool
    ensures { result ≡ kind_ok (view value.now) }
{
    match value {
        Datum::Number(_) | Datum::Text(_) => true,
        Datum::List(values) => all_numbers(values),
        _ => false,
    }
}

fn kinds_ok(values: &[Datum<'_>]) -> bool
    ensures { result ≡ list_all kind_ok (map view values.now) }
{
    for value in values {
        if !kind_ok(value) {
            return false;
        }
    }
    true
}

fn number_ok(value: &Datum<'_>) -> bool
    ensures { result ≡ number_ok (view value.now) }
{
    match value {
        Datum::Number(number) => is_in_range(number),
        _ => true,
    }
}

fn numbers_in_range(values: &[Datum<'_>]) -> bool
    ensures { result ≡ list_all number_ok (map view values.now) }
{
    for value in values {
        if !number_ok(value) {
            return false;
        }
    }
    true
}

fn numbers_ok(value: &Datum<'_>) -> bool
    ensures { result ≡ numbers_ok (view value.now) }
{
    match value {
        Datum::List(values) => numbers_in_range(values),
        _ => number_ok(value),
    }
}

fn all_numbers_ok(values: &[Datum<'_>]) -> bool
    ensures { result ≡ list_all numbers_ok (map view values.now) }
{
    for value in values {
        if !numbers_ok(value) {
            return false;
        }
    }
    true
}

fn not_signature(members: &Members<'_>) -> bool
    requires { AreFound members.now }
    ensures { result ≡ not_signature (view members.now.value.now) }
{
    !members.value.is_object() || !is_name(members.task) || !is_flag(members.immutable)
}

fn members_kinds_ok(members: &[(&str, Datum<'_>)]) -> bool
    ensures { result ≡ list_all kind_ok (map (λ e. e.1) (seen members.now)) }
{
    for member in members {
        if !kind_ok(&member.1) {
            return false;
        }
    }
    true
}

fn object_kinds_ok(value: &Datum<'_>) -> bool
    ensures { result ≡ list_all kind_ok (contents (view value.now)) }
{
    match value {
        Datum::Object(members) => members_kinds_ok(members),
        _ => true,
    }
}

fn named_kinds_ok(field: Option<&Datum<'_>>) -> bool
    ensures { result ≡ list_all kind_ok (contents (value_at field.entry)) }
{
    match field {
        Some(value) => object_kinds_ok(value),
        None => true,
    }
}

fn args_kinds_ok(members: &Members<'_>) -> bool
    requires { AreFound members.now }
    ensures { result ≡ args_ok kind_ok (view members.now.value.now) }
{
    kinds_ok(listed(members.args)) && named_kinds_ok(members.kwargs)
}

fn members_numbers_ok(members: &[(&str, Datum<'_>)]) -> bool
    ensures { result ≡ list_all numbers_ok (map (λ e. e.1) (seen members.now)) }
{
    for member in members {
        if !numbers_ok(&member.1) {
            return false;
        }
    }
    true
}

fn object_numbers_ok(value: &Datum<'_>) -> bool
    ensures { result ≡ list_all numbers_ok (contents (view value.now)) }
{
    match value {
        Datum::Object(members) => members_numbers_ok(members),
        _ => true,
    }
}

fn named_numbers_ok(field: Option<&Datum<'_>>) -> bool
    ensures { result ≡ list_all numbers_ok (contents (value_at field.entry)) }
{
    match field {
        Some(value) => object_numbers_ok(value),
        None => true,
    }
}

fn args_numbers_ok(members: &Members<'_>) -> bool
    requires { AreFound members.now }
    ensures { result ≡ args_ok numbers_ok (view members.now.value.now) }
{
    all_numbers_ok(listed(members.args)) && named_numbers_ok(members.kwargs)
}

fn bad_members(members: &Members<'_>, primitive: Primitive) -> bool
    requires { AreFound members.now }
    ensures { result ≡ bad_members primitive (view members.now.value.now) }
{
    match primitive {
        Primitive::Task => !args_kinds_ok(members),
        Primitive::Chain | Primitive::Group => !is_list(members.kwarg("tasks")),
        Primitive::Chord => bad_chord(members),
    }
}

fn is_group_signature(value: &Datum<'_>) -> bool
    ensures { result ≡ is_group (view value.now) }
{
    value.is_object() && is_text(value.get("subtask_type"), "group")
}

fn is_group(field: Option<&Datum<'_>>) -> bool
    ensures { result ≡ is_group (value_at field.entry) }
{
    match field {
        Some(value) => is_group_signature(value),
        None => false,
    }
}

fn bad_chord(members: &Members<'_>) -> bool
    requires { AreFound members.now }
    ensures { result ≡ bad_members Chord (view members.now.value.now) }
{
    let header = members.kwarg("header");
    !(is_list(header) || is_group(header)) || is_null(members.kwarg("body"))
}

fn bad_args(members: &Members<'_>, primitive: Primitive) -> bool
    requires { AreFound members.now }
    ensures { result ≡ bad_args primitive (view members.now.value.now) }
{
    !is_list_or_null(members.args)
        || !is_object_or_null(members.kwargs)
        || !is_object_or_null(members.options)
        || !is_link(members.link)
        || !is_link(members.link_error)
        || bad_members(members, primitive)
}

fn bad_number(members: &Members<'_>, primitive: Primitive) -> bool
    requires { AreFound members.now }
    ensures { result ≡ bad_number primitive (view members.now.value.now) }
{
    match primitive {
        Primitive::Task => !args_numbers_ok(members),
        _ => false,
    }
}

/// Returns whether a chain, group or chord has something that only tasks may have, or is itself a
/// link or an error callback.
fn on_canvas(members: &Members<'_>, primitive: Primitive, linked: bool) -> bool
    requires { AreFound members.now }
    ensures { result ≡ on_canvas linked primitive (view members.now.value.now) }
{
    match primitive {
        Primitive::Task => false,
        _ => linked || has_task_members(members),
    }
}

fn has_task_members(members: &Members<'_>) -> bool
    requires { AreFound members.now }
    ensures { result ≡ on_canvas false Chain (view members.now.value.now) }
{
    !is_empty(members.args)
        || is_true(members.immutable)
        || !is_empty(members.link)
        || !is_empty(members.link_error)
}

fn empty_chain(members: &Members<'_>, primitive: Primitive) -> bool
    requires { AreFound members.now }
    ensures { result ≡ empty_chain primitive (view members.now.value.now) }
{
    match primitive {
        Primitive::Chain => is_empty(members.kwarg("tasks")),
        _ => false,
    }
}

fn fault_as(members: &Members<'_>, primitive: Primitive, linked: bool) -> Option<SigFault>
    requires { AreFound members.now }
    ensures { result ≡ fault_as linked (view members.now.value.now) (Some primitive) }
{
    if bad_args(members, primitive) {
        return Some(SigFault::BadArgs);
    }
    if bad_number(members, primitive) {
        return Some(SigFault::BadNumber);
    }
    if on_canvas(members, primitive, linked) {
        return Some(SigFault::OnCanvas);
    }
    if !is_null(members.chord) {
        return Some(SigFault::Frozen);
    }
    if empty_chain(members, primitive) {
        return Some(SigFault::EmptyChain);
    }
    None
}

/// Returns the first of a signature's own faults; `linked` says that it is a link or an error
/// callback.
pub(crate) fn first_fault(members: &Members<'_>, linked: bool) -> Option<SigFault>
    requires { AreFound members.now }
    ensures { result ≡ own_fault linked (view members.now.value.now) }
{
    if not_signature(members) {
        return Some(SigFault::NotSignature);
    }
    match primitive_of(members.subtask_type) {
        Some(primitive) => fault_as(members, primitive, linked),
        None => Some(SigFault::UnknownPrimitive),
    }
}

/// Returns the first of a value's own faults as a signature, like `first_fault`.
pub fn own_fault(value: &Datum<'_>, linked: bool) -> Option<SigFault>
    ensures { result ≡ own_fault linked (view value.now) }
{
    let members = Members::of(value);
    first_fault(&members, linked)
}
