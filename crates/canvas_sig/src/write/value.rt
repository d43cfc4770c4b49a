//! Writing one argument as a JSON value.

ghost use Rattle.std.specs.Prelude.{◌≡◌, IfOk, map, true};
ghost use Rattle.serde_json.specs.View.{view};
ghost use Rattle.canvas_values.specs.ComposedRefusals.{arg_ok};
ghost use Rattle.canvas_values.specs.Grammar.{arg_reading};
ghost use Rattle.canvas_values.specs.Writing.{number_wire, arg_wire};

use canvas_task::{Arg, Memory};
use serde_json::Value;
use std::alloc::Global;

fn number_values(alloc: Global, numbers: &[i64]) -> Result<Vec<Value>, Memory>
    ensures { IfOk result (λ values. map view values.items ≡ map number_wire numbers.now) }
{
    let mut values = Vec::new(alloc);
    for number in numbers {
        values.push(Value::from(*number))?;
    }
    Ok(values)
}

/// Returns the JSON value of an argument. It reads back as the argument if its numbers are in
/// range.
pub fn write_arg(alloc: Global, arg: &Arg) -> Result<Value, Memory>
    ensures value { IfOk result (λ value. view value ≡ arg_wire arg.now) }
    ensures reads_back { IfOk result
        (λ value. arg_ok arg.now ≡ true → arg_reading (view value) ≡ Ok arg.now) }
{
    match arg {
        Arg::Num(number) => Ok(Value::from(*number)),
        Arg::List(numbers) => Ok(Value::Array(number_values(alloc, numbers.get())?)),
        Arg::Text(text) => Ok(Value::String(text.get().clone()?)),
    }
}
