//! Runs of canvases, by turns on one thread and on threads; their reports, and the steps of those
//! by turns as JSON lines.
#![tactic(auto)]

mod by_turns;
mod steps;
mod text;
mod threads;

ghost use Rattle.canvas_engine.specs.RecordLaws.{FewEntries, AllArePlain};

pub use by_turns::{
    Did, RunFault, Step, read_turns, run_turns, run_turns_again, run_turns_stepped,
    run_turns_traced, run_turns_within,
};
pub use canvas_report::{Report, report_text};
pub use canvas_semantics::MOST_WORKERS;
pub use canvas_worker::{Cause, Gate, OpenGate, Stop, When};
pub use steps::steps_text;
pub use text::{TextFault, run_text, run_text_again, run_text_recorded, run_text_threads};
pub use threads::{Records, Tally, run};

/// States what follows from what `run` leaves, for any number of workers and any interleaving. Its
/// histories have few calls: six for each task of the plan and four for each redelivery, with the
/// acknowledgements, and the reads at the end. With a gate that wants nothing, such as `OpenGate`,
/// nothing is redelivered: each published message is taken once, and each store is the first of its
/// task.
pub fn law_of_records()
    ensures few { FewEntries }
    ensures plain { AllArePlain }
{}
