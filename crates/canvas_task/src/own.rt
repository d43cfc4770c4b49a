//! Tasks of a caller's own: helpers that take the arguments out of a call, and task types that need
//! only a function from these to an answer.

ghost use Rattle.std.specs.Prelude.{◌≡◌, ℕ, ℤ, List};
ghost use Rattle.std.specs.Option.{option_map};
ghost use Rattle.canvas_task.specs.Apply.{Answer};
ghost use Rattle.canvas_task.specs.Entries.{named};
ghost use Rattle.canvas_task.specs.Own.{fitted, one_list, one_number, one_task, two_numbers};

use crate::arguments::{one, two};
use crate::{Arg, Kind, Task, TaskNo, checked, task_of_text};
use std::collections::BTreeMap;

/// Returns the number given for a task's only parameter. Returns None if it is missing, is not a
/// number, or if there are other arguments.
pub fn one_number(x: &str, args: &[Arg], kwargs: &BTreeMap<String, Arg>) -> Option<i64>
    ensures { result ≡ one_number x.now args.now (named kwargs.now.entries) }
{
    match one(x, args, kwargs) {
        Some(Arg::Num(number)) => Some(*number),
        _ => None,
    }
}

/// Returns the list given for a task's only parameter. Returns None if it is missing, is not a
/// list, or if there are other arguments.
pub fn one_list<'a>(
    x: &str,
    args: &'a [Arg],
    kwargs: &'a BTreeMap<String, Arg>,
) -> Option<&'a [i64]>
    ensures { option_map (λ l. l.now) result ≡ one_list x.now args.now (named kwargs.now.entries) }
{
    match one(x, args, kwargs) {
        Some(Arg::List(numbers)) => Some(numbers.get()),
        _ => None,
    }
}

/// Returns the task whose identifier is given for a task's only parameter. Returns None if it is
/// missing, is not a task's identifier, or if there are other arguments.
pub fn one_task(x: &str, args: &[Arg], kwargs: &BTreeMap<String, Arg>) -> Option<TaskNo>
    ensures { result ≡ one_task x.now args.now (named kwargs.now.entries) }
{
    match one(x, args, kwargs) {
        Some(Arg::Text(text)) => task_of_text(text.get()),
        _ => None,
    }
}

/// Returns the numbers given for a task's two parameters. Returns None if one is missing or is not
/// a number, or if there are other arguments.
pub fn two_numbers(
    x: &str,
    y: &str,
    args: &[Arg],
    kwargs: &BTreeMap<String, Arg>,
) -> Option<(i64, i64)>
    ensures { result ≡ two_numbers x.now y.now args.now (named kwargs.now.entries) }
{
    match two(x, y, args, kwargs) {
        Some((Arg::Num(a), Arg::Num(b))) => Some((*a, *b)),
        _ => None,
    }
}

/// Turns an exact answer into one in range: a number out of range is an overflow.
fn fitted(answer: Result<i128, Kind>) -> Result<i64, Kind>
    ensures { result ≡ fitted answer }
{
    checked(answer?)
}

/// The answer to a number.
pub trait OfOne: Drop {
    ghost answer: { Self → ℤ → Answer };

    /// Returns the exact number, which overflows if it is out of range, or a kind of exception.
    fn answer(&self, x: i64) -> Result<i128, Kind>
        ensures { result ≡ answer self.now x };
}

/// A task that takes a number. Any other arguments are a bad call.
#[derive(Clone, Copy, Debug, Drop)]
pub struct TaskOfOne<T> {
    pub name: &'static str,
    /// The name of its parameter.
    pub parameter: &'static str,
    pub answers: T,
}

impl<T: OfOne> Task for TaskOfOne<T> {
    ghost use Rattle.canvas_task.specs.Own.{answer_given, one_number};

    ghost called = { λ t. t.name.now };

    ghost answers = { λ t args named.
        answer_given (T.answer t.answers) (one_number t.parameter.now args named) };

    fn name(&self) -> &str {
        self.name
    }

    fn call(&self, args: &[Arg], kwargs: &BTreeMap<String, Arg>) -> Result<i64, Kind> {
        match one_number(self.parameter, args, kwargs) {
            Some(x) => fitted(self.answers.answer(x)),
            None => Err(Kind::BadCall),
        }
    }
}

/// The answer to two numbers.
pub trait OfTwo: Drop {
    ghost answer: { Self → ℤ → ℤ → Answer };

    /// Returns the exact number, which overflows if it is out of range, or a kind of exception.
    fn answer(&self, x: i64, y: i64) -> Result<i128, Kind>
        ensures { result ≡ answer self.now x y };
}

/// A task that takes two numbers. Any other arguments are a bad call.
///
/// ```
/// ghost use Rattle.std.specs.Prelude.{◌-ℤ◌, Ok};
///
/// #[derive(Clone, Copy)]
/// struct Difference;
///
/// impl OfTwo for Difference {
///     ghost answer = { λ _ x y. Ok (x -ℤ y) };
///
///     fn answer(&self, x: i64, y: i64) -> Result<i128, Kind> {
///         Ok(i128::from(x) - i128::from(y))
///     }
/// }
///
/// let sub = TaskOfTwo { name: "tasks.sub", parameters: ("x", "y"), answers: Difference };
/// let registry = registry_of!(alloc; Add, Mul, sub)?;
/// ```
#[derive(Clone, Copy, Debug, Drop)]
pub struct TaskOfTwo<T> {
    pub name: &'static str,
    /// The names of its two parameters, in order. They should differ: nothing rejects the same name
    /// twice, and a keyword argument of that name is then given to both.
    pub parameters: (&'static str, &'static str),
    pub answers: T,
}

impl<T: OfTwo> Task for TaskOfTwo<T> {
    ghost use Rattle.canvas_task.specs.Own.{answer_two, two_numbers};

    ghost called = { λ t. t.name.now };

    ghost answers = { λ t args named.
        answer_two (T.answer t.answers)
        (two_numbers t.parameters.0.now t.parameters.1.now args named) };

    fn name(&self) -> &str {
        self.name
    }

    fn call(&self, args: &[Arg], kwargs: &BTreeMap<String, Arg>) -> Result<i64, Kind> {
        let (x, y) = self.parameters;
        match two_numbers(x, y, args, kwargs) {
            Some((x, y)) => fitted(self.answers.answer(x, y)),
            None => Err(Kind::BadCall),
        }
    }
}

/// The answer to a list of numbers.
pub trait OfList: Drop {
    ghost answer: { Self → List ℤ → Answer };

    /// Returns the exact number, which overflows if it is out of range, or a kind of exception.
    fn answer(&self, numbers: &[i64]) -> Result<i128, Kind>
        ensures { result ≡ answer self.now numbers.now };
}

/// A task that takes a list of numbers, like the body of a chord. Any other arguments are a bad
/// call.
#[derive(Clone, Copy, Debug, Drop)]
pub struct TaskOfList<T> {
    pub name: &'static str,
    /// The name of its parameter.
    pub parameter: &'static str,
    pub answers: T,
}

impl<T: OfList> Task for TaskOfList<T> {
    ghost use Rattle.canvas_task.specs.Own.{answer_given, one_list};

    ghost called = { λ t. t.name.now };

    ghost answers = { λ t args named.
        answer_given (T.answer t.answers) (one_list t.parameter.now args named) };

    fn name(&self) -> &str {
        self.name
    }

    fn call(&self, args: &[Arg], kwargs: &BTreeMap<String, Arg>) -> Result<i64, Kind> {
        match one_list(self.parameter, args, kwargs) {
            Some(numbers) => fitted(self.answers.answer(numbers)),
            None => Err(Kind::BadCall),
        }
    }
}

/// The answer to the identifier of a task.
pub trait OfId: Drop {
    ghost answer: { Self → ℕ → Answer };

    /// Returns the exact number, which overflows if it is out of range, or a kind of exception.
    fn answer(&self, task: TaskNo) -> Result<i128, Kind>
        ensures { result ≡ answer self.now task };
}

/// A task that takes the identifier of a task, like an error callback. Any other arguments are a
/// bad call.
#[derive(Clone, Copy, Debug, Drop)]
pub struct TaskOfId<T> {
    pub name: &'static str,
    /// The name of its parameter.
    pub parameter: &'static str,
    pub answers: T,
}

impl<T: OfId> Task for TaskOfId<T> {
    ghost use Rattle.canvas_task.specs.Own.{answer_given, one_task};

    ghost called = { λ t. t.name.now };

    ghost answers = { λ t args named.
        answer_given (T.answer t.answers) (one_task t.parameter.now args named) };

    fn name(&self) -> &str {
        self.name
    }

    fn call(&self, args: &[Arg], kwargs: &BTreeMap<String, Arg>) -> Result<i64, Kind> {
        match one_task(self.parameter, args, kwargs) {
            Some(task) => fitted(self.answers.answer(task)),
            None => Err(Kind::BadCall),
        }
    }
}
