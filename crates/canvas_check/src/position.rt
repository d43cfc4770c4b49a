//! The position of a signature, as far as its forecast depends on it.

ghost use Rattle.std.specs.Prelude.{◌≡◌};
ghost use Rattle.canvas_check.specs.Foreseen.{is_unknown_call, of_task, of_chain, of_group, of_chord};
ghost use Rattle.canvas_check.specs.Positions.{is_number, is_numbers, start, takes_failure, before, of_elements, behind, of_member, of_body, of_callback};

use crate::{Expected, Forecast};

/// The input of a call, as far as a canvas determines it before it runs.
#[derive(Clone, Copy, Debug, PartialEq, Eq)]
pub enum Input {
    /// Nothing: the call starts with the canvas, or takes no input.
    Nothing,
    /// The result of a task.
    Number,
    /// The results of a group or header.
    Numbers,
    /// The identifier of a failed task.
    Identifier,
}

/// The position of a signature.
#[derive(Clone, Copy)]
pub(crate) struct Position {
    pub(crate) input: Input,
    /// Whether a task comes right before it in its line.
    pub(crate) is_behind_task: bool,
    /// Whether something follows it in its line.
    pub(crate) is_followed: bool,
    /// Whether it is in a header, at any depth.
    pub(crate) is_in_header: bool,
    /// Whether it is a chord's body, or what follows a group. If something follows it, the body has
    /// several tasks.
    pub(crate) is_body: bool,
    /// Whether it is one of the first parts of a body of several tasks.
    pub(crate) begins_body: bool,
}

fn is_number(input: Input) -> bool
    ensures { result ≡ is_number input }
{
    match input {
        Input::Number => true,
        Input::Nothing => false,
        Input::Numbers => false,
        Input::Identifier => false,
    }
}

fn is_numbers(input: Input) -> bool
    ensures { result ≡ is_numbers input }
{
    match input {
        Input::Numbers => true,
        Input::Nothing => false,
        Input::Number => false,
        Input::Identifier => false,
    }
}

fn is_unknown(call: Expected) -> bool
    ensures { result ≡ is_unknown_call call }
{
    match call {
        Expected::Unknown => true,
        Expected::Answer => false,
        Expected::TypeError(_) => false,
    }
}

impl Position {
    /// Returns the position of a whole canvas.
    pub(crate) fn start() -> Position
        ensures { result ≡ start }
    {
        Position {
            input: Input::Nothing,
            is_behind_task: false,
            is_followed: false,
            is_in_header: false,
            is_body: false,
            begins_body: false,
        }
    }

    /// Returns the position of a link or an error callback.
    pub(crate) fn of_callback(input: Input) -> Position
        ensures { result ≡ of_callback input }
    {
        Position {
            input,
            ..Position::start()
        }
    }

    /// Returns whether the exception of a failed header is raised in it.
    fn takes_failure(self) -> bool
        ensures { result ≡ takes_failure self }
    {
        self.is_body || self.begins_body
    }

    /// Returns the position with a number of elements after it.
    pub(crate) fn before(self, left: usize) -> Position
        ensures { result ≡ before left self }
    {
        Position {
            is_followed: self.is_followed || left > 0,
            ..self
        }
    }

    /// Returns the position of a chain's elements, before their neighbours are known.
    pub(crate) fn of_elements(self) -> Position
        ensures { result ≡ of_elements self }
    {
        Position {
            is_body: false,
            begins_body: self.takes_failure(),
            ..self
        }
    }

    /// Returns the position of the next element, after one with this output.
    pub(crate) fn behind(self, input: Input) -> Position
        ensures { result ≡ behind input self }
    {
        Position {
            input,
            is_behind_task: is_number(input),
            is_body: is_numbers(input),
            begins_body: false,
            ..self
        }
    }

    /// Returns the position of a member.
    pub(crate) fn of_member(self, is_header: bool) -> Position
        ensures { result ≡ of_member is_header self }
    {
        Position {
            input: self.input,
            is_behind_task: false,
            is_followed: false,
            is_in_header: self.is_in_header || is_header,
            is_body: false,
            begins_body: self.takes_failure(),
        }
    }

    /// Returns the position of the body of a chord whose header has a number of members.
    pub(crate) fn of_body(self, members: usize) -> Position
        ensures { result ≡ of_body members self }
    {
        Position {
            input: Input::Numbers,
            is_behind_task: false,
            is_body: self.is_body || members > 0,
            begins_body: members == 0 && self.takes_failure(),
            ..self
        }
    }

    /// Returns the forecast for a task with a number of error callbacks, given its call's outcome.
    pub(crate) fn of_task(self, call: Expected, errbacks: usize) -> Forecast
        ensures { result ≡ of_task call errbacks self }
    {
        Forecast {
            has_no_identifier: self.is_body && self.is_followed,
            loses_alarms: self.begins_body && errbacks > 0,
            is_missed: is_unknown(call) && (errbacks > 0 || self.is_followed || self.is_in_header),
            ..Forecast::of_call(call)
        }
    }

    pub(crate) fn of_chain(self) -> Forecast
        ensures { result ≡ of_chain self }
    {
        Forecast {
            has_no_identifier: self.is_body,
            ..Forecast::of_call(Expected::Answer)
        }
    }

    /// Returns the forecast for a group with a number of members.
    pub(crate) fn of_group(self, members: usize) -> Forecast
        ensures { result ≡ of_group members self }
    {
        let is_unrolled = self.is_behind_task && self.is_followed && members == 1;
        Forecast {
            is_left_pending: self.is_behind_task && members > 1,
            is_nested_chord: self.is_in_header && self.is_followed && members > 0 && !is_unrolled,
            is_unrolled,
            is_pending_body: self.is_body && members > 0,
            ..Forecast::of_call(Expected::Answer)
        }
    }

    /// Returns the forecast for a chord whose header has a number of members.
    pub(crate) fn of_chord(self, members: usize) -> Forecast
        ensures { result ≡ of_chord members self }
    {
        Forecast {
            is_left_pending: self.is_behind_task,
            is_nested_chord: self.is_in_header && members > 0,
            is_pending_body: self.is_body && members > 0,
            ..Forecast::of_call(Expected::Answer)
        }
    }
}
