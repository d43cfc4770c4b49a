//! The built-in tasks. Each is made like a task of a caller's own.

ghost use Rattle.std.specs.Prelude.{◌≡◌, ◌≢◌, ◌∷◌, [], ◌*ℤ◌, ◌+ℤ◌, List, MatchOption, Ok, pos};
ghost use Rattle.canvas_task.specs.Builtin.{builtin_named, builtin_of_word, builtin_tasks, first_called, meaning, parameters, quotient, taken, task_name, word};
ghost use Rattle.canvas_task.specs.Entries.{named};
ghost use Rattle.canvas_task.specs.Numbers.{floor_div, sum_of};

use crate::{
    Arg, Fault, Kind, OfId, OfList, OfOne, OfTwo, Outcome, Task, TaskNo, TaskOfId, TaskOfList,
    TaskOfOne, TaskOfTwo, Tasks,
};
use std::collections::BTreeMap;

// ---- their answers

#[derive(Clone, Copy, Debug)]
pub struct Sum;

impl OfTwo for Sum {
    ghost answer = { λ _ x y. Ok (x +ℤ y) };

    fn answer(&self, x: i64, y: i64) -> Result<i128, Kind> {
        Ok(i128::from(x) + i128::from(y))
    }
}

fn times(x: i64, y: i64) -> i128
    ensures { result ≡ x *ℤ y }
{
    i128::from(x) * i128::from(y)
}

#[derive(Clone, Copy, Debug)]
pub struct Product;

impl OfTwo for Product {
    ghost answer = { λ _ x y. Ok (x *ℤ y) };

    fn answer(&self, x: i64, y: i64) -> Result<i128, Kind> {
        Ok(times(x, y))
    }
}

/// Returns the quotient, rounded towards minus infinity.
fn floor_div(x: i64, y: i64) -> i128
    requires { y ≢ pos 0 }
    ensures { result ≡ floor_div x y }
{
    let x = i128::from(x);
    let y = i128::from(y);
    if y > 0 {
        x.div_euclid(y)
    } else {
        (-x).div_euclid(-y)
    }
}

#[derive(Clone, Copy, Debug)]
pub struct Quotient;

impl OfTwo for Quotient {
    ghost answer = { λ _. quotient };

    fn answer(&self, x: i64, y: i64) -> Result<i128, Kind> {
        if y == 0 {
            Err(Kind::ZeroDivision)
        } else {
            Ok(floor_div(x, y))
        }
    }
}

fn add_up(numbers: &[i64]) -> i128
    ensures { result ≡ sum_of numbers.now }
{
    let mut sum = 0;
    for n in numbers {
        sum += i128::from(*n);
    }
    sum
}

#[derive(Clone, Copy, Debug)]
pub struct Total;

impl OfList for Total {
    ghost answer = { λ _ numbers. Ok (sum_of numbers) };

    fn answer(&self, numbers: &[i64]) -> Result<i128, Kind> {
        Ok(add_up(numbers))
    }
}

#[derive(Clone, Copy, Debug)]
pub struct Same;

impl OfOne for Same {
    ghost answer = { λ _ x. Ok x };

    fn answer(&self, x: i64) -> Result<i128, Kind> {
        Ok(i128::from(x))
    }
}

#[derive(Clone, Copy, Debug)]
pub struct Number;

impl OfId for Number {
    ghost answer = { λ _ task. Ok (pos task) };

    fn answer(&self, task: TaskNo) -> Result<i128, Kind> {
        Ok(i128::from(task.get()))
    }
}

// ---- the tasks

/// `tasks.add(x, y)`: the sum.
pub type Add = TaskOfTwo<Sum>;

pub const Add: Add = TaskOfTwo {
    name: "tasks.add",
    parameters: ("x", "y"),
    answers: Sum,
};

/// `tasks.mul(x, y)`: the product.
pub type Mul = TaskOfTwo<Product>;

pub const Mul: Mul = TaskOfTwo {
    name: "tasks.mul",
    parameters: ("x", "y"),
    answers: Product,
};

/// `tasks.div(x, y)`: the quotient, rounded towards minus infinity.
pub type Div = TaskOfTwo<Quotient>;

pub const Div: Div = TaskOfTwo {
    name: "tasks.div",
    parameters: ("x", "y"),
    answers: Quotient,
};

/// `tasks.xsum(numbers)`: the sum of a list.
pub type Xsum = TaskOfList<Total>;

pub const Xsum: Xsum = TaskOfList {
    name: "tasks.xsum",
    parameter: "numbers",
    answers: Total,
};

/// `tasks.ident(x)`: the number itself.
pub type Ident = TaskOfOne<Same>;

pub const Ident: Ident = TaskOfOne {
    name: "tasks.ident",
    parameter: "x",
    answers: Same,
};

/// `tasks.log_error(uuid)`: the number of the task with the given identifier.
pub type LogError = TaskOfId<Number>;

pub const LogError: LogError = TaskOfId {
    name: "tasks.log_error",
    parameter: "uuid",
    answers: Number,
};

// ---- the list of them

/// One of the built-in tasks.
#[derive(Clone, Copy, Debug, PartialEq, Eq)]
pub enum Builtin {
    Add,
    Mul,
    Div,
    Xsum,
    Ident,
    LogError,
}

/// The kind of the arguments that a task takes.
#[derive(Clone, Copy, Debug, PartialEq, Eq)]
pub enum ArgKind {
    Number,
    /// A list of numbers.
    Numbers,
    /// The identifier of a task, as text.
    TaskId,
}

/// All built-in tasks.
pub const BUILTINS: [Builtin; 6] = [
    Builtin::Add,
    Builtin::Mul,
    Builtin::Div,
    Builtin::Xsum,
    Builtin::Ident,
    Builtin::LogError,
];

fn first_named(name: &str, tasks: &[Builtin]) -> Option<Builtin>
    ensures { result ≡ first_called task_name name.now tasks.now }
{
    for task in tasks {
        if (*task).name() == name {
            return Some(*task);
        }
    }
    None
}

fn first_of_word(given: &str, tasks: &[Builtin]) -> Option<Builtin>
    ensures { result ≡ first_called word given.now tasks.now }
{
    for task in tasks {
        if task.word() == given {
            return Some(*task);
        }
    }
    None
}

impl Builtin {
    /// Returns the task of a name.
    pub fn named(name: &str) -> Option<Builtin>
        ensures { result ≡ builtin_named name.now }
    {
        first_named(name, &BUILTINS)
    }

    /// Returns the task of a word, which is its name without `tasks.`.
    pub fn of_word(word: &str) -> Option<Builtin>
        ensures { result ≡ builtin_of_word word.now }
    {
        first_of_word(word, &BUILTINS)
    }

    pub fn name(self) -> &'static str
        ensures { result.now ≡ task_name self }
    {
        match self {
            Builtin::Add => Add.name,
            Builtin::Mul => Mul.name,
            Builtin::Div => Div.name,
            Builtin::Xsum => Xsum.name,
            Builtin::Ident => Ident.name,
            Builtin::LogError => LogError.name,
        }
    }

    /// Returns its name without `tasks.`.
    pub fn word(self) -> &'static str
        ensures { result.now ≡ word self }
    {
        match self {
            Builtin::Add => "add",
            Builtin::Mul => "mul",
            Builtin::Div => "div",
            Builtin::Xsum => "xsum",
            Builtin::Ident => "ident",
            Builtin::LogError => "log_error",
        }
    }

    /// Returns the names of its parameters: one or two.
    pub fn parameters(self) -> (&'static str, Option<&'static str>)
        ensures { MatchOption result.1 (parameters self ≡ result.0.now ∷ [])
            (λ second. parameters self ≡ result.0.now ∷ second.now ∷ []) }
    {
        match self {
            Builtin::Add => (Add.parameters.0, Some(Add.parameters.1)),
            Builtin::Mul => (Mul.parameters.0, Some(Mul.parameters.1)),
            Builtin::Div => (Div.parameters.0, Some(Div.parameters.1)),
            Builtin::Xsum => (Xsum.parameter, None),
            Builtin::Ident => (Ident.parameter, None),
            Builtin::LogError => (LogError.parameter, None),
        }
    }

    /// Returns the kind of its arguments.
    pub fn takes(self) -> ArgKind
        ensures { result ≡ taken self }
    {
        match self {
            Builtin::Add | Builtin::Mul | Builtin::Div | Builtin::Ident => ArgKind::Number,
            Builtin::Xsum => ArgKind::Numbers,
            Builtin::LogError => ArgKind::TaskId,
        }
    }

    /// Returns its answer to a call: a number, which may be out of range, or a kind of exception.
    pub fn call(self, args: &[Arg], kwargs: &BTreeMap<String, Arg>) -> Result<i64, Kind>
        ensures { result ≡ meaning self args.now (named kwargs.now.entries) }
    {
        match self {
            Builtin::Add => Add.call(args, kwargs),
            Builtin::Mul => Mul.call(args, kwargs),
            Builtin::Div => Div.call(args, kwargs),
            Builtin::Xsum => Xsum.call(args, kwargs),
            Builtin::Ident => Ident.call(args, kwargs),
            Builtin::LogError => LogError.call(args, kwargs),
        }
    }
}

/// Each as a task of a registry: `registry_of!(alloc; Builtin::Add, Builtin::Mul, change)?`.
impl Task for Builtin {
    ghost use Rattle.canvas_task.specs.Builtin.{meaning, task_name};

    ghost called = { task_name };

    ghost answers = { meaning };

    fn name(&self) -> &str {
        Builtin::name(*self)
    }

    fn call(&self, args: &[Arg], kwargs: &BTreeMap<String, Arg>) -> Result<i64, Kind> {
        Builtin::call(*self, args, kwargs)
    }
}

/// Calls a built-in task and returns the outcome. An unknown name is `NotRegistered`.
pub fn apply(name: &str, args: &[Arg], kwargs: &BTreeMap<String, Arg>) -> Outcome
    ensures { result ≡ builtin_tasks name.now args.now (named kwargs.now.entries) }
{
    match Builtin::named(name) {
        Some(task) => Outcome::of(task.call(args, kwargs)),
        None => Outcome::Failure(Fault::Plain(Kind::NotRegistered)),
    }
}

/// The built-in tasks as `Tasks`, without a registry and without allocation.
#[derive(Clone, Copy, Debug)]
pub struct BuiltinTasks;

impl Tasks for BuiltinTasks {
    ghost use Rattle.canvas_task.specs.Builtin.{builtin_tasks};
    ghost use Rattle.canvas_task.specs.BehaviourInRange.{builtin_in_range};

    ghost behaviour = { λ _. builtin_tasks };

    fn apply(&self, name: &str, args: &[Arg], kwargs: &BTreeMap<String, Arg>) -> Outcome {
        apply(name, args, kwargs)
    }

    ghost in_range = { λ _. builtin_in_range };
}
