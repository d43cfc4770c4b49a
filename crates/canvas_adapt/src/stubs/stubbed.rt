//! Tasks that stubs come before.

ghost use Rattle.std.specs.Prelude.{◌≡◌};
ghost use Rattle.canvas_task.specs.Entries.{named};
ghost use Rattle.canvas_adapt.specs.Stubs.{stub_of, or_any, any_name};

use crate::Stub;
use crate::stubs::stub::{is_unknown, stub_of};
use canvas_task::{Arg, Outcome, Tasks};
use std::collections::BTreeMap;

/// The name of the stub that answers for every name without a task.
const ANY: &str = "*";

/// Returns the outcome of a call of a name without a stub; `other` is what the tasks answer. The
/// stub `*` replaces a `NotRegistered`: `Tasks` only answers calls and has no list of names, so a
/// task that answers `NotRegistered` itself is taken to be unknown.
fn or_any(stubs: &[Stub], args: &[Arg], kwargs: &BTreeMap<String, Arg>, other: Outcome) -> Outcome
    ensures { result
        ≡ or_any (stub_of any_name stubs.now) args.now (named kwargs.now.entries) other }
{
    if is_unknown(&other) {
        match stub_of(ANY, stubs) {
            Some(does) => does.outcome(args, kwargs),
            None => other,
        }
    } else {
        other
    }
}

/// Tasks that stubs come before: the first stub of a name answers its calls, and the tasks answer
/// the calls of names without a stub. A stub named `*` answers if they have no task of the name.
/// Threads may share it.
#[derive(Drop)]
pub struct Stubbed<'a, T> {
    pub stubs: Vec<Stub>,
    pub tasks: &'a T,
}

impl<'a, T: Tasks> Tasks for Stubbed<'a, T> {
    ghost use Rattle.canvas_adapt.specs.Stubs.{stubs_behaviour};
    ghost use Rattle.canvas_adapt.specs.StubsInRange.{stubs_in_range};

    ghost behaviour = { λ s. stubs_behaviour s.stubs.items (T.behaviour s.tasks.now) };

    fn apply(&self, name: &str, args: &[Arg], kwargs: &BTreeMap<String, Arg>) -> Outcome {
        match stub_of(name, &self.stubs) {
            Some(does) => does.outcome(args, kwargs),
            None => or_any(
                &self.stubs,
                args,
                kwargs,
                self.tasks.apply(name, args, kwargs),
            ),
        }
    }

    ghost in_range = { λ s.
        stubs_in_range s.stubs.items (T.behaviour s.tasks.now) (T.in_range s.tasks.now) };
}
