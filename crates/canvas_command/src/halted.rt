//! Runs that ended early.
ghost use Rattle.std.specs.Prelude.{◌≡◌, option_map};
ghost use Rattle.canvas_answer.specs.Asking.{asking};
ghost use Rattle.canvas_answer.specs.Plans.{run_line};
ghost use Rattle.canvas_command.specs.Runs.{IsEarlyReport, refusal_of, rows_in};

use canvas_answer::answer::Answer;
use canvas_answer::prepared::Plans;
use canvas_answer::refusal::Refusal;
use canvas_answer::reporting::OutputOptions;
use canvas_answer::source::Source;
use canvas_engine::{Cause, Report, RunFault};
use std::alloc::Global;

/// Returns the refusal for a run that has no whole report.
pub fn refused(fault: &RunFault) -> Refusal
    ensures { result ≡ refusal_of fault.now }
{
    match fault {
        RunFault::BadWorkers => Refusal::BadWorkers,
        RunFault::BadTurn => Refusal::BadTurn,
        RunFault::Halted { cause, .. } => match cause {
            Cause::Memory => Refusal::Memory,
            Cause::Stopped => Refusal::Stopped,
        },
    }
}

/// Returns the outcomes that a run stored which ended early.
fn stored(fault: &RunFault) -> Option<&Report>
    ensures { option_map (λ r. r.now) result ≡ rows_in fault.now }
{
    match fault {
        RunFault::Halted {
            rows: Some(report),
            ..
        } => Some(report),
        _ => None,
    }
}

/// Answers for a run that ended early.
pub(crate) fn early<T>(
    alloc: Global,
    output: OutputOptions,
    plans: &Plans,
    source: &Source<'_, T>,
    fault: &RunFault,
) -> Answer
    ensures { IsEarlyReport (asking source.now.setting) (run_line plans.now) plans.now.shown
        output.form fault.now result }
{
    output.early(alloc, plans, source, stored(fault), refused(fault))
}
