//! The expected outcome of a call, from trial calls of the task with a few of its possible inputs.

ghost use Rattle.std.specs.Prelude.{◌≡◌, ◌∷◌, [], pos, IfOk};
ghost use Rattle.canvas_task.specs.declared.arg.Arg.TheVariants.{Num, List, Text};
ghost use Rattle.canvas_check.specs.declared.position.Input.TheVariants.{Number, Numbers};
ghost use Rattle.canvas_values.specs.SignatureView.{task_view};
ghost use Rattle.canvas_check.specs.Calls.{is_type_error, is_unknown_outcome, is_unknown, takes, takes_some, some_task, fails, fails_behind, taken, expected};
ghost use Rattle.canvas_values.specs.ComposedRefusals.{its_call};

use crate::{Expected, Input};
use canvas_task::{Arg, Fault, Kind, ListOf, Outcome, TaskNo, Tasks, TextOf, copy_args};
use canvas_values::TaskSig;
use std::alloc::{AllocError, Global};
use std::collections::BTreeMap;

fn is_type_error(outcome: &Outcome) -> bool
    ensures { result ≡ is_type_error outcome.now }
{
    matches!(outcome, Outcome::Failure(Fault::Plain(Kind::BadCall)))
}

fn is_unknown_outcome(outcome: &Outcome) -> bool
    ensures { result ≡ is_unknown_outcome outcome.now }
{
    matches!(outcome, Outcome::Failure(Fault::Plain(Kind::NotRegistered)))
}

/// Calls a task without keyword arguments.
fn plain_call<T: Tasks>(alloc: Global, tasks: &T, name: &str, args: &[Arg]) -> Outcome
    ensures { result ≡ T.behaviour tasks.now name.now args.now [] }
{
    tasks.apply(name, args, &BTreeMap::new(alloc))
}

/// Returns whether no task answers to a name: a call without arguments is NotRegistered.
fn is_unknown<T: Tasks>(alloc: Global, tasks: &T, name: &str) -> bool
    ensures { result ≡ is_unknown (T.behaviour tasks.now) name.now }
{
    is_unknown_outcome(&plain_call(alloc, tasks, name, &[]))
}

/// Returns whether a call with these arguments isn't a TypeError.
fn takes<T: Tasks>(alloc: Global, tasks: &T, name: &str, args: &[Arg]) -> bool
    ensures { result ≡ takes (T.behaviour tasks.now) name.now args.now }
{
    !is_type_error(&plain_call(alloc, tasks, name, args))
}

/// Returns whether a call with one argument isn't a TypeError.
fn takes_one<T: Tasks>(alloc: Global, tasks: &T, name: &str, arg: Arg) -> Result<bool, AllocError>
    ensures { IfOk result (λ b. b ≡ takes (T.behaviour tasks.now) name.now (arg ∷ [])) }
{
    let mut args = Vec::new(alloc);
    args.push(arg)?;
    Ok(takes(alloc, tasks, name, &args))
}

/// Returns whether a call with two numbers isn't a TypeError.
fn takes_two<T: Tasks>(alloc: Global, tasks: &T, name: &str) -> Result<bool, AllocError>
    ensures { IfOk result
        (λ b. b ≡ takes (T.behaviour tasks.now) name.now (Num (pos 1) ∷ Num (pos 1) ∷ [])) }
{
    let mut args = Vec::new(alloc);
    args.push(Arg::Num(1))?;
    args.push(Arg::Num(1))?;
    Ok(takes(alloc, tasks, name, &args))
}

/// Makes a list of one number.
fn list_of_one(alloc: Global) -> Result<Arg, AllocError>
    ensures { IfOk result (λ arg. arg ≡ List (pos 1 ∷ [])) }
{
    let mut numbers = Vec::new(alloc);
    numbers.push(1)?;
    Ok(Arg::List(ListOf::of(numbers)))
}

/// Makes the identifier of a task.
pub(crate) fn some_task(alloc: Global) -> Result<Arg, AllocError>
    ensures { IfOk result (λ arg. arg ≡ Text some_task) }
{
    match TaskNo::new(1) {
        Some(task) => Ok(Arg::Text(TextOf::of(task.to_string(alloc)?))),
        None => unreachable!(),
    }
}

/// Returns whether some arguments are accepted without a TypeError. It tries none, one or two
/// numbers, a list of numbers, and the identifier of a task.
fn takes_some<T: Tasks>(alloc: Global, tasks: &T, name: &str) -> Result<bool, AllocError>
    ensures { IfOk result (λ b. b ≡ takes_some (T.behaviour tasks.now) name.now) }
{
    if takes(alloc, tasks, name, &[]) {
        return Ok(true);
    }
    if takes_one(alloc, tasks, name, Arg::Num(1))? {
        return Ok(true);
    }
    if takes_two(alloc, tasks, name)? {
        return Ok(true);
    }
    if takes_one(alloc, tasks, name, list_of_one(alloc)?)? {
        return Ok(true);
    }
    takes_one(alloc, tasks, name, some_task(alloc)?)
}

/// Returns whether a call is a TypeError with only its own arguments.
fn fails_alone<T: Tasks>(tasks: &T, sig: &TaskSig) -> bool
    ensures { result ≡ fails (T.behaviour tasks.now) (its_call (task_view sig.now)) [] }
{
    is_type_error(&tasks.apply(sig.name.get(), sig.args.get(), sig.kwargs.get()))
}

/// Returns whether a call is a TypeError with one argument before its own.
fn fails_behind_one<T: Tasks>(tasks: &T, sig: &TaskSig, arg: Arg) -> Result<bool, AllocError>
    ensures { IfOk result
        (λ b. b ≡ fails (T.behaviour tasks.now) (its_call (task_view sig.now)) (arg ∷ [])) }
{
    let mut args = copy_args(&sig.args)?.into_plain();
    args.insert(0, arg)?;
    Ok(is_type_error(&tasks.apply(sig.name.get(), &args, sig.kwargs.get())))
}

/// Returns whether a call is a TypeError after each of two numbers.
fn fails_behind_numbers<T: Tasks>(tasks: &T, sig: &TaskSig) -> Result<bool, AllocError>
    ensures { IfOk result (λ b.
        b ≡ fails_behind (T.behaviour tasks.now) (its_call (task_view sig.now)) Number) }
{
    if !fails_behind_one(tasks, sig, Arg::Num(0))? {
        return Ok(false);
    }
    fails_behind_one(tasks, sig, Arg::Num(1))
}

/// Returns whether a call is a TypeError after each of two lists.
fn fails_behind_lists<T: Tasks>(alloc: Global, tasks: &T, sig: &TaskSig) -> Result<bool, AllocError>
    ensures { IfOk result (λ b.
        b ≡ fails_behind (T.behaviour tasks.now) (its_call (task_view sig.now)) Numbers) }
{
    let none = Arg::List(ListOf::of(Vec::new(alloc)));
    if !fails_behind_one(tasks, sig, none)? {
        return Ok(false);
    }
    fails_behind_one(tasks, sig, list_of_one(alloc)?)
}

/// Returns whether a call is a TypeError after each of some inputs of a kind.
fn fails_behind<T: Tasks>(
    alloc: Global,
    tasks: &T,
    sig: &TaskSig,
    input: Input,
) -> Result<bool, AllocError>
    ensures { IfOk result
        (λ b. b ≡ fails_behind (T.behaviour tasks.now) (its_call (task_view sig.now)) input) }
{
    match input {
        Input::Nothing => Ok(fails_alone(tasks, sig)),
        Input::Number => fails_behind_numbers(tasks, sig),
        Input::Numbers => fails_behind_lists(alloc, tasks, sig),
        Input::Identifier => fails_behind_one(tasks, sig, some_task(alloc)?),
    }
}

/// Returns the kind of value that a call takes before its own arguments, given its input.
fn taken(sig: &TaskSig, input: Input) -> Input
    ensures { result ≡ taken (its_call (task_view sig.now)) input }
{
    if sig.immutable { Input::Nothing } else { input }
}

/// Returns the expected outcome of a call with an input of this kind.
pub(crate) fn expected<T: Tasks>(
    alloc: Global,
    tasks: &T,
    sig: &TaskSig,
    input: Input,
) -> Result<Expected, AllocError>
    ensures { IfOk result
        (λ e. e ≡ expected (T.behaviour tasks.now) (its_call (task_view sig.now)) input) }
{
    let name = sig.name.get().as_str();
    if is_unknown(alloc, tasks, name) {
        return Ok(Expected::Unknown);
    }
    let input = taken(sig, input);
    if fails_behind(alloc, tasks, sig, input)? && takes_some(alloc, tasks, name)? {
        Ok(Expected::TypeError(input))
    } else {
        Ok(Expected::Answer)
    }
}
