//! The parameter that makes a call of a built-in task a TypeError.

ghost use Rattle.std.specs.Prelude.{◌≡◌, ◌∷◌, [], if◌then◌else◌, None, Some, IfOk};
ghost use Rattle.std.specs.List.{list_any};
ghost use Rattle.std.specs.Option.{option_map};
ghost use Rattle.std.specs.Str.{bytes_eq};
ghost use Rattle.canvas_task.specs.Apply.{by_name};
ghost use Rattle.canvas_task.specs.Builtin.{parameters, taken};
ghost use Rattle.canvas_task.specs.declared.builtin.ArgKind.TheVariants.{TaskId};
ghost use Rattle.canvas_task.specs.Entries.{named};
ghost use Rattle.canvas_check.specs.Parameters.{fits, wrong_with, first_wrong, first_unknown, at_fault, blamed};
ghost use Rattle.canvas_check.specs.declared.parameter.Wrong.TheVariants.{OtherKind};

use crate::call::some_task;
use crate::{Blame, Input, Wrong};
use canvas_task::{Arg, ArgKind, Builtin, ListOf, MapOf, copy_args, task_of_text};
use std::alloc::{AllocError, Global};
use std::collections::BTreeMap;

fn names_a_task(arg: &Arg) -> bool
    ensures { result ≡ fits TaskId arg.now }
{
    match arg {
        Arg::Text(text) => task_of_text(text.get()).is_some(),
        Arg::Num(_) => false,
        Arg::List(_) => false,
    }
}

/// Returns whether an argument is of the kind that the parameters of a task take.
fn is_taken(task: Builtin, arg: &Arg) -> bool
    ensures { result ≡ fits (taken task) arg.now }
{
    match task.takes() {
        ArgKind::Number => matches!(arg, Arg::Num(_)),
        ArgKind::Numbers => matches!(arg, Arg::List(_)),
        ArgKind::TaskId => names_a_task(arg),
    }
}

fn other_kind(task: Builtin, arg: &Arg) -> Option<Wrong>
    ensures { result ≡ (if fits (taken task) arg.now then None else Some OtherKind) }
{
    if is_taken(task, arg) {
        None
    } else {
        Some(Wrong::OtherKind)
    }
}

/// Returns what is wrong with a parameter, from its positional argument and its keyword argument.
fn wrong_with(task: Builtin, given: Option<&Arg>, named: Option<&Arg>) -> Option<Wrong>
    ensures { result ≡ wrong_with (fits (taken task)) (option_map (λ a. a.now) given.entry)
        (option_map (λ a. a.now) named.entry) }
{
    match given {
        Some(arg) => match named {
            Some(_) => Some(Wrong::Twice),
            None => other_kind(task, arg),
        },
        None => match named {
            Some(arg) => other_kind(task, arg),
            None => Some(Wrong::Missing),
        },
    }
}

/// Returns the keyword argument of a name.
fn by_name<'a>(parameter: &str, kwargs: &'a BTreeMap<String, Arg>) -> Option<&'a Arg>
    ensures { option_map (λ a. a.now) result ≡ by_name parameter.now (named kwargs.now.entries) }
{
    kwargs.get(parameter)
}

/// Returns what is wrong with the parameter of a task that has only one.
fn wrong_of_one<'a>(
    task: Builtin,
    x: &'a str,
    args: &[Arg],
    kwargs: &BTreeMap<String, Arg>,
) -> Option<Blame<'a>>
    ensures { option_map (λ b. (b.parameter.now, b.wrong)) result
        ≡ first_wrong (fits (taken task)) (x.now ∷ []) args.now (named kwargs.now.entries) }
{
    let wrong = wrong_with(task, args.first(), by_name(x, kwargs))?;
    Some(Blame {
        parameter: x,
        wrong,
    })
}

/// Returns the first of two parameters that has a fault.
fn wrong_of_two<'a>(
    task: Builtin,
    x: &'a str,
    y: &'a str,
    args: &[Arg],
    kwargs: &BTreeMap<String, Arg>,
) -> Option<Blame<'a>>
    ensures { option_map (λ b. (b.parameter.now, b.wrong)) result
        ≡ first_wrong (fits (taken task)) (x.now ∷ y.now ∷ []) args.now (named kwargs.now.entries) }
{
    if let Some(wrong) = wrong_with(task, args.first(), by_name(x, kwargs)) {
        return Some(Blame {
            parameter: x,
            wrong,
        });
    }
    let wrong = wrong_with(task, args.get(1), by_name(y, kwargs))?;
    Some(Blame {
        parameter: y,
        wrong,
    })
}

/// Returns the first of a task's parameters that has a fault.
fn first_wrong<'a>(task: Builtin, args: &[Arg], kwargs: &BTreeMap<String, Arg>) -> Option<Blame<'a>>
    ensures { option_map (λ b. (b.parameter.now, b.wrong)) result ≡ first_wrong (fits (taken task))
        (parameters task) args.now (named kwargs.now.entries) }
{
    match task.parameters() {
        (x, Some(y)) => wrong_of_two(task, x, y, args, kwargs),
        (x, None) => wrong_of_one(task, x, args, kwargs),
    }
}

fn is_parameter(task: Builtin, name: &str) -> bool
    ensures { result ≡ list_any (bytes_eq name.now) (parameters task) }
{
    match task.parameters() {
        (x, Some(y)) => name == x || name == y,
        (x, None) => name == x,
    }
}

/// Returns the first keyword that is not a parameter.
fn first_unknown<'a>(task: Builtin, kwargs: &'a BTreeMap<String, Arg>) -> Option<&'a str>
    ensures { option_map (λ name. name.now) result
        ≡ first_unknown (parameters task) (named kwargs.now.entries) }
{
    for (name, _arg) in kwargs.iter() {
        if !is_parameter(task, name) {
            return Some(name.as_str());
        }
    }
    None
}

/// Returns the parameter at fault in a call with these arguments.
fn at_fault<'a>(task: Builtin, args: &[Arg], kwargs: &'a BTreeMap<String, Arg>) -> Option<Blame<'a>>
    ensures { option_map (λ b. (b.parameter.now, b.wrong)) result
        ≡ at_fault task args.now (named kwargs.now.entries) }
{
    match first_unknown(task, kwargs) {
        Some(parameter) => Some(Blame {
            parameter,
            wrong: Wrong::NoParameter,
        }),
        None => first_wrong(task, args, kwargs),
    }
}

/// Returns the parameter at fault in a call with one argument before its own.
fn at_fault_after<'a>(
    task: Builtin,
    arg: Arg,
    args: &ListOf<Arg>,
    kwargs: &'a MapOf<Arg>,
) -> Result<Option<Blame<'a>>, AllocError>
    ensures { IfOk result (λ blame. option_map (λ b. (b.parameter.now, b.wrong)) blame
        ≡ at_fault task (arg ∷ args.now) kwargs.now) }
{
    let mut all = copy_args(args)?.into_plain();
    all.insert(0, arg)?;
    Ok(at_fault(task, &all, kwargs.get()))
}

/// Returns the parameter that makes a call of a built-in task with these arguments, after a value
/// of the given kind, a TypeError: a keyword that is not a parameter, or else the first of the
/// task's parameters that has no argument, two, or one of another kind. Returns None if there are
/// too many positional arguments, or if the call is no TypeError.
pub fn blamed<'a>(
    alloc: Global,
    task: Builtin,
    args: &ListOf<Arg>,
    kwargs: &'a MapOf<Arg>,
    input: Input,
) -> Result<Option<Blame<'a>>, AllocError>
    ensures { IfOk result (λ blame. option_map (λ b. (b.parameter.now, b.wrong)) blame
        ≡ blamed task args.now kwargs.now input) }
{
    match input {
        Input::Nothing => Ok(at_fault(task, args.get(), kwargs.get())),
        Input::Number => at_fault_after(task, Arg::Num(0), args, kwargs),
        Input::Numbers => {
            at_fault_after(task, Arg::List(ListOf::of(Vec::new(alloc))), args, kwargs)
        }
        Input::Identifier => at_fault_after(task, some_task(alloc)?, args, kwargs),
    }
}
