//! Arguments as tokens of JSON.

ghost use Rattle.std.specs.Prelude.{◌∷◌};
ghost use Rattle.json.specs.Token.{begin_array};
ghost use Rattle.canvas_values.specs.steps.Tokens.{Appends, data_tokens, rest_tokens, rest_members};
ghost use Rattle.canvas_values.specs.Writing.{arg_wire, args_wire, numbers_wire, kwargs_wire};
ghost use Rattle.canvas_task.specs.Entries.{named};

use canvas_task::Arg;
use json::Writer;
use std::alloc::AllocError;
use std::collections::BTreeMap;

/// Writes the rest of a list of numbers, up to the closing bracket.
#[tactic(auto, using(crate::proofs::Written::Writers::number_text_of))]
fn write_numbers(out: &mut Writer, numbers: &[i64]) -> Result<(), AllocError>
    ensures { Appends result out.old out.new (rest_tokens (numbers_wire numbers.now)) }
{
    for number in numbers {
        out.i64(*number)?;
    }
    out.end_array()
}

fn write_list(out: &mut Writer, numbers: &[i64]) -> Result<(), AllocError>
    ensures { Appends result out.old out.new
        (begin_array ∷ rest_tokens (numbers_wire numbers.now)) }
{
    out.begin_array()?;
    write_numbers(out, numbers)
}

#[tactic(auto, using(crate::proofs::Written::Writers::number_text_of))]
fn write_argument(out: &mut Writer, arg: &Arg) -> Result<(), AllocError>
    ensures { Appends result out.old out.new (data_tokens (arg_wire arg.now)) }
{
    match arg {
        Arg::Num(number) => out.i64(*number),
        Arg::List(numbers) => write_list(out, numbers.get()),
        Arg::Text(text) => out.string(text.get()),
    }
}

/// Writes the rest of a list of arguments, up to the closing bracket.
pub fn write_args(out: &mut Writer, args: &[Arg]) -> Result<(), AllocError>
    ensures { Appends result out.old out.new (rest_tokens (args_wire args.now)) }
{
    for arg in args {
        write_argument(out, arg)?;
    }
    out.end_array()
}

/// Writes the rest of an object of keyword arguments, up to the closing brace.
pub fn write_named(out: &mut Writer, args: &BTreeMap<String, Arg>) -> Result<(), AllocError>
    ensures { Appends result out.old out.new (rest_members (kwargs_wire (named args.now.entries))) }
{
    for (name, arg) in args.iter() {
        out.key(name)?;
        write_argument(out, arg)?;
    }
    out.end_object()
}
