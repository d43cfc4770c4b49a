//! The kind that a `subtask_type` names.

ghost use Rattle.std.specs.Prelude.{◌≡◌};
ghost use Rattle.canvas_sig.specs.Datum.{value_at};
ghost use Rattle.canvas_values.specs.Grammar.{primitive_of, primitive_named};

use crate::datum::Datum;
use canvas_values::Primitive;

fn primitive_named(name: &str) -> Option<Primitive>
    ensures { result ≡ primitive_named name.now }
{
    match name {
        "chain" => Some(Primitive::Chain),
        "group" => Some(Primitive::Group),
        "chord" => Some(Primitive::Chord),
        _ => None,
    }
}

/// Returns the kind that a `subtask_type` names. Null and a missing one are a task.
pub fn primitive_of(field: Option<&Datum<'_>>) -> Option<Primitive>
    ensures { result ≡ primitive_of (value_at field.entry) }
{
    match field {
        None | Some(Datum::Null) => Some(Primitive::Task),
        Some(Datum::Text(name)) => primitive_named(name),
        _ => None,
    }
}
