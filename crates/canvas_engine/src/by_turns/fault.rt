//! Why a run has no whole report.

ghost use Rattle.std.specs.Prelude.{◌≡◌, Some, None};
ghost use Rattle.canvas_engine.specs.declared.by_turns.fault.RunFault.TheVariants as fault;

use canvas_core::Cause;
use canvas_report::Report;
use canvas_task::{ListOf, Outcome};
use thiserror::Error;

/// Why a run has no whole report.
#[derive(Debug, Drop, Error)]
pub enum RunFault {
    /// The number of workers is out of its range, 1 to 16.
    #[error("BadWorkers")]
    BadWorkers,
    /// A turn names no worker.
    #[error("BadTurn")]
    BadTurn,
    /// The run ended early. `rows` is what it has stored, a row for each task; if the first
    /// messages could not be published all of them are pending.
    ///
    /// On threads it is None if memory was refused before the first publish was tried, or if a
    /// worker's executor failed: tasks may have run then, and the cause is Memory. By turns it is
    /// None if there was no memory for the rows, the workers or the table; from the making of the
    /// first messages on there are rows.
    #[error("{cause}")]
    Halted { cause: Cause, rows: Option<Report> },
}

impl RunFault {
    /// Returns the fault of a run that ended early, without rows.
    pub fn halted(cause: Cause) -> RunFault
        ensures { result ≡ fault.Halted cause None }
    {
        RunFault::Halted { cause, rows: None }
    }

    /// Returns the fault of a run that ended early, with these rows.
    pub fn halted_with(cause: Cause, rows: Vec<Option<Outcome>>) -> RunFault
        ensures { result ≡ fault.Halted cause (Some (record { rows = rows.items })) }
    {
        RunFault::Halted {
            cause,
            rows: Some(Report {
                rows: ListOf::of(rows),
            }),
        }
    }
}
