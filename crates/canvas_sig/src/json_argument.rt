//! Reading an argument from a `Value` of `serde_json`.

ghost use Rattle.std.specs.Prelude.{◌≡◌, ◌≢◌, ◌<◌, map, length, IsTrue, IfErr};
ghost use Rattle.std.specs.List.{list_all};
ghost use Rattle.serde_json.specs.View.{view};
ghost use Rattle.canvas_values.specs.declared.fault.SigFault.TheVariants.{Memory};
ghost use Rattle.canvas_values.specs.Fields.{is_number};
ghost use Rattle.canvas_values.specs.Answers.{Gives, in_turn};
ghost use Rattle.canvas_values.specs.Grammar.{arg_reading, takes_memory};
ghost use Rattle.canvas_values.specs.steps.Reading.{number_reading, list_reading};

use crate::arguments::whole;
use canvas_task::{Arg, ListOf, TextOf};
use canvas_values::SigFault;
use serde_json::Value;
use std::alloc::Global;

/// Reads a whole number in range from a value. Any other value is a bad number.
fn read_number(value: &Value) -> Result<i64, SigFault>
    ensures reading { Gives (λ n. n) result (number_reading (view value.now)) }
    ensures memory { IfErr result (λ e. e ≢ Memory) }
{
    match value {
        Value::Number(number) => whole(number),
        _ => Err(SigFault::BadNumber),
    }
}

fn all_numbers(values: &[Value]) -> bool
    ensures { result ≡ list_all is_number (map view values.now) }
{
    for value in values {
        if !value.is_number() {
            return false;
        }
    }
    true
}

fn read_numbers(alloc: Global, values: &[Value]) -> Result<Vec<i64>, SigFault>
    ensures reading { Gives (λ v. v.items) result (in_turn number_reading (map view values.now)) }
    ensures memory { IfErr result (λ e. e ≡ Memory → 0 < length values.now) }
{
    let mut numbers = Vec::new(alloc);
    for value in values {
        numbers.push(read_number(value)?)?;
    }
    Ok(numbers)
}

fn read_list(alloc: Global, values: &[Value]) -> Result<Arg, SigFault>
    ensures reading { Gives (λ a. a) result (list_reading (map view values.now)) }
    ensures memory { IfErr result (λ e. e ≡ Memory
        → (0 < length values.now) × IsTrue (list_all is_number (map view values.now))) }
{
    if !all_numbers(values) {
        return Err(SigFault::BadArgs);
    }
    Ok(Arg::List(ListOf::of(read_numbers(alloc, values)?)))
}

/// Reads the argument that a value spells, or returns its fault. Only a text and a nonempty list of
/// numbers allocate.
#[tactic(auto, using(crate::proofs::ArgumentLaw::reads_so))]
pub fn read_arg(alloc: Global, value: &Value) -> Result<Arg, SigFault>
    ensures reading { Gives (λ a. a) result (arg_reading (view value.now)) }
    ensures memory { IfErr result (λ e. e ≡ Memory → IsTrue (takes_memory (view value.now))) }
{
    match value {
        Value::Number(number) => Ok(Arg::Num(whole(number)?)),
        Value::String(text) => Ok(Arg::Text(TextOf::of(text.clone()?))),
        Value::Array(values) => read_list(alloc, values),
        _ => Err(SigFault::BadArgs),
    }
}
