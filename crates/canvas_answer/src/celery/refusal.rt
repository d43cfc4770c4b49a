//! Why a canvas isn't started on Celery's workers, or its results have no report.

use crate::refusal::Refusal;
use canvas_celery::{CollectFault, StoredFault};
use canvas_task::TaskNo;
use std::fmt::{self, Display};

/// The reason, which is printed as other refusals are.
#[derive(Clone, Copy, Drop)]
pub enum CeleryRefusal {
    /// The run isn't 22 lower-case hexadecimal digits.
    BadRun,
    /// More bytes of results than are accepted.
    TooLarge,
    /// The number of results is not the number of tasks.
    BadCount,
    /// A fault of a task's result.
    Stored(TaskNo, StoredFault),
}

impl CeleryRefusal {
    pub(crate) fn write_name<W: fmt::Write>(&self, f: &mut fmt::Formatter<W>) -> fmt::Result {
        f.write_str(match self {
            CeleryRefusal::BadRun => "BadRun",
            CeleryRefusal::TooLarge => "TooLarge",
            CeleryRefusal::BadCount => "BadCount",
            CeleryRefusal::Stored(_, fault) => return fault.fmt(f),
        })
    }

    /// Returns whether a line for people has more than the name.
    pub(crate) fn has_note(&self) -> bool {
        matches!(self, CeleryRefusal::TooLarge | CeleryRefusal::Stored(..))
    }

    pub(crate) fn write_note<W: fmt::Write>(&self, f: &mut fmt::Formatter<W>) -> fmt::Result {
        match self {
            CeleryRefusal::BadRun | CeleryRefusal::BadCount => Ok(()),
            CeleryRefusal::TooLarge => f.write_str("in the results"),
            CeleryRefusal::Stored(task, _) => {
                let number = task.get();
                write!(f, "in the result of task {number}")
            }
        }
    }
}

impl From<CollectFault> for Refusal {
    fn from(fault: CollectFault) -> Refusal {
        match fault {
            CollectFault::BadCount => Refusal::Celery(CeleryRefusal::BadCount),
            CollectFault::Stored { task, fault } => {
                Refusal::Celery(CeleryRefusal::Stored(task, fault))
            }
            CollectFault::Memory => Refusal::Memory,
        }
    }
}
