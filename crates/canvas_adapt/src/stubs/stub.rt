//! A stub: a name, and the answer to its calls.

ghost use Rattle.std.specs.Prelude.{◌≡◌};
ghost use Rattle.std.specs.Str.{bytes_eq};
ghost use Rattle.canvas_task.specs.Apply.{outcome};
ghost use Rattle.canvas_task.specs.Entries.{named};
ghost use Rattle.canvas_adapt.specs.Stubs.{stub_answer, stub_of, is_unknown};

use canvas_task::{Arg, Builtin, Fault, Kind, Outcome, TextOf};
use std::collections::BTreeMap;

/// The action of a stub: that of a built-in task, or an answer that does not depend on the
/// arguments.
///
/// A stub gives no list and no other exception, since an outcome is a number in range or one of
/// four kinds, which fit in a word of 64 bits. `read_stub` refuses other words.
#[derive(Clone, Copy, Debug, PartialEq, Eq)]
pub enum Does {
    /// Answers as this task does.
    SameAs(Builtin),
    /// Answers this number, which overflows if it is below -2^60 or above 2^60.
    Gives(i64),
    /// Fails with this exception.
    Raises(Kind),
}

/// A name, and the action of its calls instead of a task's.
#[derive(Debug, Drop)]
pub struct Stub {
    /// The name of a task, or `*` for each name that no task and no other stub has.
    pub name: TextOf,
    pub does: Does,
}

impl Does {
    fn answer(self, args: &[Arg], kwargs: &BTreeMap<String, Arg>) -> Result<i64, Kind>
        ensures { result ≡ stub_answer self args.now (named kwargs.now.entries) }
    {
        match self {
            Does::SameAs(task) => task.call(args, kwargs),
            Does::Gives(number) => Ok(number),
            Does::Raises(kind) => Err(kind),
        }
    }

    /// Returns the outcome of a call of a stub with this action.
    pub(crate) fn outcome(self, args: &[Arg], kwargs: &BTreeMap<String, Arg>) -> Outcome
        ensures { result ≡ outcome (stub_answer self args.now (named kwargs.now.entries)) }
    {
        Outcome::of(self.answer(args, kwargs))
    }
}

fn is_named(stub: &Stub, name: &str) -> bool
    ensures { result ≡ bytes_eq stub.now.name name.now }
{
    stub.name.get().as_str() == name
}

/// Returns the action of the first stub of a name.
pub(crate) fn stub_of(name: &str, stubs: &[Stub]) -> Option<Does>
    ensures { result ≡ stub_of name.now stubs.now }
{
    for stub in stubs {
        if is_named(stub, name) {
            return Some(stub.does);
        }
    }
    None
}

/// Returns whether the outcome says that no task has the called name.
pub(crate) fn is_unknown(outcome: &Outcome) -> bool
    ensures { result ≡ is_unknown outcome.now }
{
    matches!(outcome, Outcome::Failure(Fault::Plain(Kind::NotRegistered)))
}
