//! A parameter that is at fault.

/// The fault of a parameter.
#[derive(Clone, Copy, Debug, PartialEq, Eq)]
pub enum Wrong {
    /// The task has no parameter of this name.
    NoParameter,
    /// The parameter has no argument.
    Missing,
    /// The parameter has a positional argument and a keyword argument.
    Twice,
    /// The parameter's argument is not of the kind that the task takes.
    OtherKind,
}

/// The parameter that makes a call a TypeError.
#[derive(Clone, Copy, Debug)]
pub struct Blame<'a> {
    pub parameter: &'a str,
    pub wrong: Wrong,
}
