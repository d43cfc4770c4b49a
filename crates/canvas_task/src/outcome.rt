//! Outcomes of tasks, and the exceptions of failed tasks, by their names in Celery and Python.

ghost use Rattle.std.specs.Prelude.{◌≡◌};
ghost use Rattle.canvas_task.specs.Apply.{outcome};

use crate::{TaskNo, in_range};
use std::fmt;

/// A kind of exception that a task raises itself.
#[derive(Clone, Copy, Debug, PartialEq, Eq)]
pub enum Kind {
    /// Printed `TypeError`: too many arguments, a parameter that is unknown, given twice or
    /// missing, or an argument of the wrong kind.
    BadCall,
    /// Printed `ZeroDivisionError`: a division by 0.
    ZeroDivision,
    /// Printed `OverflowError`: the exact result is below -2^60 or above 2^60.
    Overflow,
    /// Printed `NotRegistered`, as in Celery: no task has the name.
    NotRegistered,
}

impl fmt::Display for Kind {
    ghost use Rattle.std.specs.Prelude.{Some};
    ghost use Rattle.canvas_task.specs.Printed.{kind_name};

    ghost output = { λ kind. Some (kind_name kind) };

    fn fmt<W: fmt::Write>(&self, f: &mut fmt::Formatter<W>) -> fmt::Result {
        match self {
            Kind::BadCall => f.write_str("TypeError"),
            Kind::ZeroDivision => f.write_str("ZeroDivisionError"),
            Kind::Overflow => f.write_str("OverflowError"),
            Kind::NotRegistered => f.write_str("NotRegistered"),
        }
    }
}

/// The reason why a member of a header failed: the exception of its last task.
#[derive(Clone, Copy, Debug, PartialEq, Eq)]
pub enum Why {
    /// An exception that a task raised itself.
    Plain(Kind),
    /// A `ChordError`. The task that it names is not recorded.
    Chord,
}

impl fmt::Display for Why {
    ghost use Rattle.std.specs.Prelude.{Some};
    ghost use Rattle.canvas_task.specs.Printed.{why_name};

    ghost output = { λ why. Some (why_name why) };

    fn fmt<W: fmt::Write>(&self, f: &mut fmt::Formatter<W>) -> fmt::Result {
        match self {
            Why::Plain(kind) => write!(f, "{kind}"),
            Why::Chord => f.write_str("ChordError"),
        }
    }
}

/// An exception: one of a task's own, or the one that a failed header raises in its body.
#[derive(Clone, Copy, Debug, PartialEq, Eq)]
pub enum Fault {
    /// An exception that a task raised itself, printed as its kind.
    Plain(Kind),
    /// Celery's `ChordError`. `dep` is the last task of the first member, in header order, that
    /// failed.
    Chord { dep: TaskNo, why: Why },
}

impl fmt::Display for Fault {
    ghost use Rattle.std.specs.Prelude.{Some};
    ghost use Rattle.canvas_task.specs.Printed.{fault_text};

    ghost output = { λ fault. Some (fault_text fault) };

    fn fmt<W: fmt::Write>(&self, f: &mut fmt::Formatter<W>) -> fmt::Result {
        match self {
            Fault::Plain(kind) => write!(f, "{kind}"),
            Fault::Chord { dep, why } => write!(f, "ChordError: Dependency {dep} raised {why}"),
        }
    }
}

/// The outcome of a task.
#[derive(Clone, Copy, Debug, PartialEq, Eq)]
pub enum Outcome {
    /// The task's result. `apply` returns only results from -2^60 to 2^60; no other result has a
    /// word (`word_of`) or can be sent in a message.
    Success(i64),
    /// The exception that the task raised, or the one for which it was skipped.
    Failure(Fault),
}

impl Outcome {
    /// Turns a task's answer into its outcome. A number below -2^60 or above 2^60 overflows.
    pub fn of(answer: Result<i64, Kind>) -> Outcome
        ensures { result ≡ outcome answer }
    {
        match answer {
            Ok(number) => {
                if in_range(number) {
                    Outcome::Success(number)
                } else {
                    Outcome::Failure(Fault::Plain(Kind::Overflow))
                }
            }
            Err(kind) => Outcome::Failure(Fault::Plain(kind)),
        }
    }
}
