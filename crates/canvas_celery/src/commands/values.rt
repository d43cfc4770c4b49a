//! The values of places: the items of a JSON array.

ghost use Rattle.std.specs.Prelude.{◌≡◌, IfOk, Some, map};
ghost use Rattle.std.specs.Str.{IsUtf8};
ghost use Rattle.json.specs.Json.{document};
ghost use Rattle.json.specs.Tree.{HasNumbers};
ghost use Rattle.json.specs.Value.{value_view};
ghost use Rattle.canvas_celery.specs.Values.{AreValues, items_of};
ghost use Rattle.canvas_celery.specs.steps.Filling.{HaveNumbers};

use crate::commands::FillFault;
use json::{Error, Scratch, Value};
use std::alloc::Global;

/// Reads the value of a text.
fn read_json<'v>(
    alloc: Global,
    text: &'v [u8],
    scratch: &'v mut Scratch,
) -> Result<Value<'v>, FillFault>
    ensures value { IfOk result
        (λ v. IsUtf8 text.entry.now × (document text.entry.now ≡ Some (value_view v))) }
    ensures numbers { IfOk result (λ v. HasNumbers (value_view v)) }
{
    match Value::from_slice(alloc, text, scratch) {
        Ok(value) => Ok(value),
        Err(Error::OutOfMemory) => Err(FillFault::Memory),
        Err(_) => Err(FillFault::NotJson),
    }
}

/// Returns the items of an array.
fn items_of(value: Value<'_>) -> Result<Vec<Value<'_>>, FillFault>
    ensures values { IfOk result
        (λ vs. items_of (value_view value.entry) ≡ Some (map value_view vs.items)) }
    ensures numbers { HasNumbers (value_view value.entry)
        → IfOk result (λ vs. HaveNumbers (map value_view vs.items)) }
{
    match value {
        Value::Array(items) => Ok(items),
        _ => Err(FillFault::NoArray),
    }
}

/// Returns the values that a text lists.
pub(crate) fn values_of<'v>(
    alloc: Global,
    text: &'v [u8],
    scratch: &'v mut Scratch,
) -> Result<Vec<Value<'v>>, FillFault>
    ensures values { IfOk result (λ vs. AreValues text.entry.now (map value_view vs.items)) }
    ensures numbers { IfOk result (λ vs. HaveNumbers (map value_view vs.items)) }
{
    items_of(read_json(alloc, text, scratch)?)
}
