//! Reading the arguments of a task out of JSON values.

ghost use Rattle.std.specs.Prelude.{◌≡◌, ◌≢◌, map, IfErr, IfOk};
ghost use Rattle.std.specs.List.{list_all};
ghost use Rattle.serde_json.specs.Find.{as_i64};
ghost use Rattle.serde_json.specs.View.{number_view};
ghost use Rattle.canvas_sig.specs.Datum.{view, value_at, seen};
ghost use Rattle.canvas_task.specs.Entries.{named, Ascends};
ghost use Rattle.canvas_task.specs.Numbers.{in_range};
ghost use Rattle.canvas_values.specs.declared.fault.SigFault.TheVariants.{Memory};
ghost use Rattle.canvas_values.specs.Fields.{object_members, is_number};
ghost use Rattle.canvas_values.specs.Answers.{Gives, in_turn};
ghost use Rattle.canvas_values.specs.Grammar.{some_in_range, arg_reading, named_reading};
ghost use Rattle.canvas_values.specs.steps.Reading.{in_range_or_refused, number_reading, list_reading};

use crate::datum::{Datum, follows};
use canvas_task::{Arg, FEW, ListOf, TextOf, in_range, map_in_order};
use canvas_values::SigFault;
use serde_json::Number;
use serde_json::value::Map;
use std::alloc::Global;

/// Returns whether a number is whole and in range.
pub(crate) fn is_in_range(number: &Number) -> bool
    ensures { result ≡ some_in_range (as_i64 (number_view number.now)) }
{
    match number.as_i64() {
        None => false,
        Some(n) => in_range(n),
    }
}

/// Reads a whole number in range.
pub(crate) fn whole(number: &Number) -> Result<i64, SigFault>
    ensures reading { Gives (λ n. n) result
        (in_range_or_refused (as_i64 (number_view number.now))) }
    ensures memory { IfErr result (λ e. e ≢ Memory) }
{
    match number.as_i64() {
        None => Err(SigFault::BadNumber),
        Some(n) => {
            if in_range(n) {
                Ok(n)
            } else {
                Err(SigFault::BadNumber)
            }
        }
    }
}

/// Reads a whole number in range from a value. Any other value is a bad number.
fn read_number(value: &Datum<'_>) -> Result<i64, SigFault>
    ensures { Gives (λ n. n) result (number_reading (view value.now)) }
{
    match value {
        Datum::Number(number) => whole(number),
        _ => Err(SigFault::BadNumber),
    }
}

pub(crate) fn all_numbers(values: &[Datum<'_>]) -> bool
    ensures { result ≡ list_all is_number (map view values.now) }
{
    for value in values {
        if !matches!(value, Datum::Number(_)) {
            return false;
        }
    }
    true
}

fn read_numbers(alloc: Global, values: &[Datum<'_>]) -> Result<Vec<i64>, SigFault>
    ensures { Gives (λ v. v.items) result (in_turn number_reading (map view values.now)) }
{
    let mut numbers = Vec::with_capacity(alloc, values.len())?;
    for value in values {
        numbers.push(read_number(value)?)?;
    }
    Ok(numbers)
}

fn read_list(alloc: Global, values: &[Datum<'_>]) -> Result<Arg, SigFault>
    ensures { Gives (λ a. a) result (list_reading (map view values.now)) }
{
    if !all_numbers(values) {
        return Err(SigFault::BadArgs);
    }
    Ok(Arg::List(ListOf::of(read_numbers(alloc, values)?)))
}

/// Reads the argument that a value spells, or returns its fault.
#[tactic(auto, using(crate::proofs::ArgumentLaw::reads_so))]
fn read_argument(alloc: Global, value: &Datum<'_>) -> Result<Arg, SigFault>
    ensures { Gives (λ a. a) result (arg_reading (view value.now)) }
{
    match value {
        Datum::Number(number) => Ok(Arg::Num(whole(number)?)),
        Datum::Text(text) => Ok(Arg::Text(TextOf::of(String::from_str(alloc, text)?))),
        Datum::List(values) => read_list(alloc, values),
        _ => Err(SigFault::BadArgs),
    }
}

/// Reads the arguments of a list, in order, or returns the first fault among them.
pub fn read_args(alloc: Global, values: &[Datum<'_>]) -> Result<Vec<Arg>, SigFault>
    ensures { Gives (λ v. v.items) result (in_turn arg_reading (map view values.now)) }
{
    let mut args = Vec::with_capacity(alloc, values.len())?;
    for value in values {
        args.push(read_argument(alloc, value)?)?;
    }
    Ok(args)
}

/// Reads the arguments that an object names, and inserts them into a map one by one.
fn read_few(alloc: Global, members: &[(&str, Datum<'_>)]) -> Result<Map<String, Arg>, SigFault>
    ensures { Gives (λ m. named m.entries) result (in_turn named_reading (seen members.now)) }
{
    let mut args = Map::new(alloc);
    let mut last = None;
    for member in members {
        if !follows(last, member.0) {
            return Err(SigFault::Memory);
        }
        let name = String::from_str(alloc, member.0)?;
        drop(args.insert(name, read_argument(alloc, &member.1)?)?);
        last = Some(member.0);
    }
    Ok(args)
}

/// Reads the arguments that an object names, in order.
fn read_entries(
    alloc: Global,
    members: &[(&str, Datum<'_>)],
) -> Result<Vec<(String, Arg)>, SigFault>
    ensures reading { Gives (λ v. named v.items) result
        (in_turn named_reading (seen members.now)) }
    ensures order { IfOk result (λ v. Ascends (named v.items)) }
{
    let mut entries = Vec::with_capacity(alloc, members.len())?;
    let mut last = None;
    for member in members {
        if !follows(last, member.0) {
            return Err(SigFault::Memory);
        }
        let name = String::from_str(alloc, member.0)?;
        entries.push((name, read_argument(alloc, &member.1)?))?;
        last = Some(member.0);
    }
    Ok(entries)
}

/// Reads the arguments that an object names. The names of a parsed object ascend; others, which a
/// map would put into another order than the definition has, are answered with `Memory`.
fn read_named(alloc: Global, members: &[(&str, Datum<'_>)]) -> Result<Map<String, Arg>, SigFault>
    ensures { Gives (λ m. named m.entries) result (in_turn named_reading (seen members.now)) }
{
    if members.len() <= FEW {
        return read_few(alloc, members);
    }
    let entries = read_entries(alloc, members)?;
    Ok(map_in_order(alloc, entries)?)
}

fn read_members(alloc: Global, value: &Datum<'_>) -> Result<Map<String, Arg>, SigFault>
    ensures { Gives (λ m. named m.entries) result
        (in_turn named_reading (object_members (view value.now))) }
{
    match value {
        Datum::Object(members) => read_named(alloc, members),
        _ => Ok(Map::new(alloc)),
    }
}

/// Reads the arguments of an object, or returns the first fault in the order of the names. A
/// missing value, or one that is not an object, has none.
pub fn read_kwargs(alloc: Global, field: Option<&Datum<'_>>) -> Result<Map<String, Arg>, SigFault>
    ensures { Gives (λ m. named m.entries) result
        (in_turn named_reading (object_members (value_at field.entry))) }
{
    match field {
        Some(value) => read_members(alloc, value),
        None => Ok(Map::new(alloc)),
    }
}
