//! Reading identifiers and sizes.

ghost use Rattle.std.specs.Prelude.{◌≡◌, Some};
ghost use Rattle.serde_json.specs.Find.{as_i64};
ghost use Rattle.serde_json.specs.View.{number_view};
ghost use Rattle.canvas_sig.specs.Datum.{value_at};
ghost use Rattle.canvas_values.specs.Answers.{Gives};
ghost use Rattle.canvas_envelope.specs.FrozenGrammar.{task_of, group_of};
ghost use Rattle.canvas_codec.specs.steps.FrozenReading.{if_numbered, sized, size_reading};

use canvas_envelope::MOST_MEMBERS;
use canvas_sig::SigFault;
use canvas_sig::parts::Datum;
use canvas_task::{GroupNo, TaskNo, group_of_text, task_of_text};
use serde_json::Number;

/// Returns the task that a member identifies.
pub(crate) fn task_of(field: Option<&Datum<'_>>) -> Option<TaskNo>
    ensures { result ≡ task_of (value_at field.entry) }
{
    match field {
        Some(Datum::Text(text)) => task_of_text(text),
        _ => None,
    }
}

/// Returns the group or chord that a member identifies.
pub(crate) fn group_of(field: Option<&Datum<'_>>) -> Option<GroupNo>
    ensures { result ≡ group_of (value_at field.entry) }
{
    match field {
        Some(Datum::Text(text)) => group_of_text(text),
        _ => None,
    }
}

pub(crate) fn known_task(field: Option<&Datum<'_>>) -> Result<TaskNo, SigFault>
    ensures { Gives (λ k. k) result (if_numbered (task_of (value_at field.entry))) }
{
    task_of(field).ok_or(SigFault::NotSignature)
}

pub(crate) fn known_group(field: Option<&Datum<'_>>) -> Result<GroupNo, SigFault>
    ensures { Gives (λ g. g) result (if_numbered (group_of (value_at field.entry))) }
{
    group_of(field).ok_or(SigFault::NotSignature)
}

fn sized(number: i64) -> Result<u32, SigFault>
    ensures { Gives (λ n. n) result (sized (Some number)) }
{
    if 1 <= number && number <= i64::from(MOST_MEMBERS) {
        Ok(number as u32)
    } else {
        Err(SigFault::TooMany)
    }
}

fn size_of_number(number: &Number) -> Result<u32, SigFault>
    ensures { Gives (λ n. n) result (sized (as_i64 (number_view number.now))) }
{
    match number.as_i64() {
        Some(number) => sized(number),
        None => Err(SigFault::TooMany),
    }
}

/// Reads the number of members that a carried body names.
pub(crate) fn read_size(field: Option<&Datum<'_>>) -> Result<u32, SigFault>
    ensures { Gives (λ n. n) result (size_reading (value_at field.entry)) }
{
    match field {
        Some(Datum::Number(number)) => size_of_number(number),
        _ => Err(SigFault::TooMany),
    }
}
