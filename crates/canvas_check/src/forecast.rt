//! The forecast for a signature.

ghost use Rattle.std.specs.Prelude.{◌≡◌};
ghost use Rattle.canvas_check.specs.Foreseen.{of_call};

use crate::Input;

/// The expected outcome of a call.
#[derive(Clone, Copy, Debug, PartialEq, Eq)]
pub enum Expected {
    /// An answer of the task. Signatures that are no task have this, too.
    Answer,
    /// `NotRegistered`: no task answers to its name.
    Unknown,
    /// A `TypeError`, with a value of this kind before its own arguments.
    TypeError(Input),
}

/// The forecast for a signature of a canvas, with the points in which Celery behaves differently.
#[derive(Clone, Copy, Debug, PartialEq, Eq)]
pub struct Forecast {
    pub expected: Expected,
    /// A group or chord that Celery leaves pending if the task before it fails.
    pub is_left_pending: bool,
    /// A chord in a header: if one of its members fails, Celery leaves the outer body pending.
    pub is_nested_chord: bool,
    /// A group that Celery replaces by its only member.
    pub is_unrolled: bool,
    /// The body of a chord with several tasks in a row, which has no identifier: if the header
    /// fails, Celery leaves it pending, and may call the error callbacks of a member that
    /// succeeded.
    pub has_no_identifier: bool,
    /// The body of a chord that is a group or chord. Celery leaves it pending if the header fails.
    pub is_pending_body: bool,
    /// One of the first tasks of a body with several: if the header fails, Celery doesn't call its
    /// error callbacks.
    pub loses_alarms: bool,
    /// A name that no task answers to. It has error callbacks, which Celery doesn't call, or
    /// something waits for it, which Celery leaves pending.
    pub is_missed: bool,
}

impl Forecast {
    /// Makes the forecast for a call with no other difference.
    pub(crate) fn of_call(expected: Expected) -> Forecast
        ensures { result ≡ of_call expected }
    {
        Forecast {
            expected,
            is_left_pending: false,
            is_nested_chord: false,
            is_unrolled: false,
            has_no_identifier: false,
            is_pending_body: false,
            loses_alarms: false,
            is_missed: false,
        }
    }
}
