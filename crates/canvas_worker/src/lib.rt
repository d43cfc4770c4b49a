//! Workers of a plan, each a future at a broker and a backend that it shares with others.
#![tactic(auto)]

mod gate;
mod in_flight;
mod in_rounds;
mod record;
mod shared;
mod source;
mod stop;
mod to_end;
mod worker;
mod working;

ghost use Rattle.canvas_worker.specs.Finished.{WorkersStart, WorkersFinish};
ghost use Rattle.canvas_worker.specs.StepLaws.{Rests, CallFirst, HeldFirst, BatchFirst, AgainFirst, TakenCan, StillCan};

pub use canvas_core::{
    Ask, Book, Cause, Core, Reply, law_of_answers, law_of_cores, law_of_ends, law_of_seats,
};
pub use canvas_runs::When;
pub use gate::{Gate, OpenGate};
pub use in_flight::InFlight;
pub use record::Record;
pub use shared::Shared;
pub use stop::Stop;
pub use to_end::work_to_end;
pub use worker::Worker;

/// States that a worker which does nothing follows the empty run, and that a step before a followed
/// run gives a followed run: an ask of its core answered by its pass or seat, one answered from the
/// envelopes that it holds, a batch taken, and the envelope of its open script redelivered.
pub fn steps_of_workers()
    ensures rests { Rests }
    ensures call_first { CallFirst }
    ensures held_first { HeldFirst }
    ensures batch_first { BatchFirst }
    ensures again_first { AgainFirst }
    ensures taken_can { TakenCan }
    ensures still_can { StillCan }
{}

/// States that a new worker may be polled at the backend of a plan, and what its record says: which
/// run its pass and its seat have followed.
pub fn law_of_workers()
    ensures starts { WorkersStart }
    ensures finishes { WorkersFinish }
{}
