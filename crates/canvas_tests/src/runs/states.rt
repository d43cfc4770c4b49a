//! Plans of canvases, and the messages that they begin with.

use canvas_codec::seal;
use canvas_effects::first_messages;
use canvas_engine::{RunFault, Tally, run};
use canvas_envelope::Letter;
use canvas_rewrite::Plan;
use canvas_samples::spelled;
use canvas_sig::read_canvas;
use canvas_task::{ListOf, Memory, Tasks};
use canvas_worker::{Gate, Stop};
use std::alloc::{AllocGlobal, Global};
use std::random::RandomSource;
use std::sync::Wait;
use std::thread::Threads;

/// A canvas in short words: its frame and its calls.
pub(crate) type Canvas = [&'static str; 2];

/// A chord with a member that fails, and whose body has an error callback.
pub(crate) const FAILING: Canvas = ["H[.,.,.|?.>]", "add:4,4 div:1,0 add:8,8 xsum: log_error:"];

/// The plan of a canvas's text, if it is one: by `Plan::of`, so that its allocations are refused
/// too.
pub(crate) fn plan_of(alloc: Global, text: &str) -> Option<Plan> {
    match read_canvas(alloc, text.as_bytes()) {
        Ok(canvas) => Plan::of(alloc, canvas).ok(),
        Err(_) => None,
    }
}

/// The plan of a canvas in short words.
pub(crate) fn spelled_plan(alloc: Global, canvas: &Canvas) -> Option<Plan> {
    let [frame, calls] = *canvas;
    match spelled::canvas(alloc, frame, calls) {
        Ok(text) => plan_of(alloc, &text),
        Err(_) => None,
    }
}

/// Appends the envelopes of the messages that a plan begins with.
pub(crate) fn push_first(
    alloc: Global,
    plan: &Plan,
    envelopes: &mut Vec<Letter>,
) -> Result<(), Memory> {
    for message in first_messages(alloc, plan)? {
        envelopes.push(seal(alloc, message)?)?;
    }
    Ok(())
}

/// Only these envelopes.
pub(crate) fn first_envelopes(alloc: Global, plan: &Plan) -> Result<Vec<Letter>, Memory> {
    let mut envelopes = Vec::new(alloc);
    match push_first(alloc, plan, &mut envelopes) {
        Ok(()) => Ok(envelopes),
        Err(Memory) => Err(Memory),
    }
}

/// What the workers of a run on threads count.
pub(crate) fn tallies<R, T, G>(
    rt: &R,
    plan: &Plan,
    tasks: &T,
    workers: u32,
    gate: &G,
    stop: &Stop,
) -> Result<ListOf<Tally>, RunFault>
where
    R: Threads + Wait + RandomSource + AllocGlobal + Sync,
    T: Tasks + Sync,
    G: Gate + Sync,
{
    match run(rt, rt.alloc(), plan, tasks, workers, gate, stop) {
        Ok((_, records)) => Ok(records.workers),
        Err(fault) => Err(fault),
    }
}
