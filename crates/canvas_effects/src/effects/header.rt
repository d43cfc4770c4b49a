//! The input of a body, from the outcomes of the header's members.

ghost use Rattle.std.specs.Prelude.{◌≡◌, ◌∷◌, [], ◌++◌, IfOk, OnOk};
ghost use Rattle.canvas_effects.specs.steps.Walks.{first_failure, successes};

use super::raised::why_of;
use canvas_task::{Fault, ListOf, Outcome, TaskNo};
use std::alloc::{AllocError, Global};

/// Returns the exception that the first failed member raises, if one failed.
pub(super) fn failure_of(outcomes: &[(TaskNo, Outcome)]) -> Option<Fault>
    ensures { result ≡ first_failure outcomes.now }
{
    for entry in outcomes {
        if let Outcome::Failure(fault) = &entry.1 {
            return Some(Fault::Chord {
                dep: entry.0,
                why: why_of(fault),
            });
        }
    }
    None
}

/// Appends the number of a member that succeeded.
fn put_number(numbers: &mut Vec<i64>, ended: &(TaskNo, Outcome)) -> Result<(), AllocError>
    ensures { OnOk result
        (numbers.new.items ≡ numbers.old.items ++ successes (ended.now ∷ [])) }
{
    match &ended.1 {
        Outcome::Success(number) => {
            numbers.push(*number)?;
            Ok(())
        }
        Outcome::Failure(_fault) => Ok(()),
    }
}

/// Returns the numbers of the members that succeeded, in order.
pub(super) fn numbers_of(
    alloc: Global,
    outcomes: &[(TaskNo, Outcome)],
) -> Result<ListOf<i64>, AllocError>
    ensures { IfOk result (λ numbers. numbers ≡ successes outcomes.now) }
{
    let mut numbers = Vec::new(alloc);
    for ended in outcomes {
        put_number(&mut numbers, ended)?;
    }
    Ok(ListOf::of(numbers))
}
