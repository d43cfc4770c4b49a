//! The options of a canvas's signatures that are read and then ignored.

ghost use Rattle.std.specs.Prelude.{◌≡◌, map, IfOk, OnOk, string_bytes};
ghost use Rattle.std.specs.List.{flat_map};
ghost use Rattle.canvas_values.specs.Fields.{object_members};
ghost use Rattle.canvas_sig.specs.Datum.{view, seen};
ghost use Rattle.canvas_check.specs.Ignored.{is_callback, is_book, is_ignored, if_ignored};
ghost use Rattle.canvas_check.specs.Ignored.{ignored_in};
ghost use Rattle.canvas_check.specs.Naming.{Adds};

use canvas_sig::parts::Datum;
use std::alloc::{AllocError, Global};

fn is_callback(name: &str) -> bool
    ensures { result ≡ is_callback name.now }
{
    matches!(name, "link" | "link_error" | "chord")
}

fn is_book(name: &str) -> bool
    ensures { result ≡ is_book name.now }
{
    matches!(
        name,
        "chord_size" | "group_id" | "group_index" | "parent_id" | "root_id" | "reply_to"
    )
}

fn is_ignored(name: &str, value: &Datum<'_>) -> bool
    ensures { result ≡ is_ignored name.now (view value.now) }
{
    !(is_callback(name) || is_book(name) || matches!(value, Datum::Null))
}

/// Appends the name of an option, if the option is ignored.
fn push_name(
    alloc: Global,
    names: &mut Vec<String>,
    name: &str,
    value: &Datum<'_>,
) -> Result<(), AllocError>
    ensures { OnOk result
        (Adds (if_ignored name.now (view value.now)) names.old.items names.new.items) }
{
    if is_ignored(name, value) {
        names.push(String::from_str(alloc, name)?)?;
    }
    Ok(())
}

fn push_members(
    alloc: Global,
    names: &mut Vec<String>,
    members: &[(&str, Datum<'_>)],
) -> Result<(), AllocError>
    ensures { OnOk result (Adds (flat_map (λ e. if_ignored e.0 e.1) (seen members.now))
        names.old.items names.new.items) }
{
    for member in members {
        push_name(alloc, names, member.0, &member.1)?;
    }
    Ok(())
}

/// Appends the names of the ignored options in an object.
fn push_object(
    alloc: Global,
    names: &mut Vec<String>,
    options: &Datum<'_>,
) -> Result<(), AllocError>
    ensures { OnOk result
        (Adds (flat_map (λ e. if_ignored e.0 e.1) (object_members (view options.now)))
        names.old.items names.new.items) }
{
    match options {
        Datum::Object(members) => push_members(alloc, names, members),
        _ => Ok(()),
    }
}

/// Appends the names of a signature's ignored options.
fn push_options(
    alloc: Global,
    names: &mut Vec<String>,
    signature: &Datum<'_>,
) -> Result<(), AllocError>
    ensures { OnOk result
        (Adds (ignored_in (view signature.now)) names.old.items names.new.items) }
{
    match signature.get("options") {
        Some(options) => push_object(alloc, names, options),
        None => Ok(()),
    }
}

/// Returns the names of a signature's ignored options.
pub(crate) fn ignored_in(alloc: Global, signature: &Datum<'_>) -> Result<Vec<String>, AllocError>
    ensures { IfOk result
        (λ names. map string_bytes names.items ≡ ignored_in (view signature.now)) }
{
    let mut names = Vec::new(alloc);
    push_options(alloc, &mut names, signature)?;
    Ok(names)
}
