//! The trait of a task, and the bound by which a run calls tasks.

ghost use Rattle.std.specs.Prelude.{◌≡◌};
ghost use Rattle.canvas_task.specs.Apply.{AnswersInRange, Behaviour, Meaning};
ghost use Rattle.canvas_task.specs.Entries.{named};
ghost use Rattle.canvas_task.specs.Text.{Text};

use crate::{Arg, Kind, Outcome};
use std::collections::BTreeMap;

/// A task: a name, and an answer to each call.
///
/// The answer is a function of what the object holds and of the arguments, and allocates nothing;
/// so a task cannot read a clock, a cell or a lock. `called` and `answers` define both for
/// contracts, and the methods are proved to match them.
///
/// `TaskOfOne`, `TaskOfTwo`, `TaskOfList` and `TaskOfId` need only the answer to their arguments.
/// Any other task implements the whole trait, like this one, which counts its arguments:
///
/// ```
/// ghost use Rattle.std.specs.Prelude.{codes, pos, length, Ok};
///
/// #[derive(Clone, Copy)]
/// struct Given;
///
/// impl Task for Given {
///     ghost called = { λ _. codes "tasks.given" };
///
///     ghost answers = { λ _ args _. Ok (pos (length args)) };
///
///     fn name(&self) -> &str {
///         "tasks.given"
///     }
///
///     fn call(&self, args: &[Arg], _kwargs: &BTreeMap<String, Arg>) -> Result<i64, Kind> {
///         Ok(args.len() as i64)
///     }
/// }
/// ```
pub trait Task: Drop {
    ghost called: { Self → Text };

    ghost answers: { Self → Meaning };

    /// Returns its name, as canvases spell it.
    fn name(&self) -> &str
        ensures { result.now ≡ called self.now };

    /// Returns its answer: a number, which `Registry::apply` checks for its range, or a kind of
    /// exception.
    fn call(&self, args: &[Arg], kwargs: &BTreeMap<String, Arg>) -> Result<i64, Kind>
        ensures { result ≡ answers self.now args.now (named kwargs.now.entries) };
}

/// The tasks that a run calls: a `Registry`, or a caller's own type that answers for all of its
/// tasks.
///
/// The engine is generic over this bound, and does not name `Registry`, because only contracts of
/// this crate can name the ghost members of a registry's trait objects. A type that implements it
/// itself, like `BuiltinTasks`, needs no boxes and allocates nothing.
pub trait Tasks {
    ghost behaviour: { Self → Behaviour };

    /// Calls a task and returns the outcome.
    fn apply(&self, name: &str, args: &[Arg], kwargs: &BTreeMap<String, Arg>) -> Outcome
        ensures { result ≡ behaviour self.now name.now args.now (named kwargs.now.entries) };

    ghost in_range: { (tasks : Self) → AnswersInRange (behaviour tasks) };
}
