//! Runs that may be refused memory. What rows a run has is in its contract: here it comes to an
//! end, and has rows where it may not be without.

use crate::runs::by_hand::work;
use crate::runs::gates::Counting;
use crate::runs::own_tasks::Called;
use crate::runs::states::{Canvas, FAILING, first_envelopes, spelled_plan, tallies};
use canvas_engine::{
    RunFault, Tally, TextFault, When, read_turns, run_text, run_text_threads, run_turns,
    run_turns_again,
};
use canvas_rewrite::Plan;
use canvas_samples::spelled;
use canvas_task::{ListOf, Memory, TaskNo};
use canvas_worker::{Cause, OpenGate, Stop};
use std::alloc::{AllocGlobal, Global};
use std::random::RandomSource;
use std::sync::Wait;
use std::thread::Threads;

/// A sum and a product; a chord with a member that fails; and a chord with a task after it.
pub(crate) const CANVASES: [Canvas; 3] = [
    ["C(.,.)", "add:4,4 mul:8"],
    FAILING,
    ["C(H[.,.|.],.)", "add:1,1 add:2,2 xsum: mul:2"],
];

/// How a canvas is run.
#[derive(Clone, Copy, Debug, PartialEq, Eq)]
pub(crate) enum How {
    /// By turns, with this number of workers.
    Turns(u32),
    /// By turns, with this number of workers, and the envelopes of the first two tasks redelivered
    /// at both points.
    Again(u32),
    /// On threads, with this number of workers.
    Threads(u32),
    /// By one worker that is polled by hand, and delivers two envelopes again.
    ByHand,
    /// As a text, by turns.
    Text,
    /// As a text, on threads.
    TextThreads,
}

/// Whether a run's rows are as they have to be, if `called` calls of tasks have begun. Once there
/// are more than workers, a worker has gone on from a message whose first store was made.
fn are_kept(fault: &RunFault, called: u32, workers: u32) -> Option<bool> {
    match fault {
        RunFault::Halted {
            cause: Cause::Memory,
            rows: Some(report),
        } => Some(called <= workers || report.rows.get().iter().any(|row| row.is_some())),
        RunFault::Halted {
            cause: Cause::Memory,
            rows: None,
        } => None,
        _ => Some(false),
    }
}

/// A run by turns that was refused memory has rows from its first call on.
fn refused(fault: &RunFault, called: u32, workers: u32) -> Result<bool, Memory> {
    if are_kept(fault, called, workers).unwrap_or(called == 0) {
        Err(Memory)
    } else {
        Ok(false)
    }
}

/// One on threads may have none, where an executor failed; but whoever was refused has asked the
/// stop of all others.
fn refused_on_threads(
    fault: &RunFault,
    called: u32,
    workers: u32,
    stop: &Stop,
) -> Result<bool, Memory> {
    let is_told = called == 0 || stop.asked();
    if is_told && are_kept(fault, called, workers).unwrap_or(true) {
        Err(Memory)
    } else {
        Ok(false)
    }
}

/// Whether a run on threads came to its end.
fn ended_on_threads(
    ran: &Result<ListOf<Tally>, RunFault>,
    called: u32,
    workers: u32,
    stop: &Stop,
) -> Result<bool, Memory> {
    match ran {
        Ok(_) => Ok(true),
        Err(fault) => refused_on_threads(fault, called, workers, stop),
    }
}

fn by_turns(alloc: Global, plan: &Plan, workers: u32) -> Result<bool, Memory> {
    let tasks = Called::new();
    match run_turns(alloc, plan, &tasks, workers, &[]) {
        Ok(_) => Ok(true),
        Err(fault) => refused(&fault, tasks.times(), workers),
    }
}

/// The entries of a list by which the envelopes of the first two tasks are delivered again.
fn entries() -> Option<[(TaskNo, When); 4]> {
    let (one, two) = (TaskNo::new(1)?, TaskNo::new(2)?);
    Some([
        (one, When::Early),
        (one, When::Late),
        (two, When::Early),
        (two, When::Late),
    ])
}

fn by_turns_again(
    alloc: Global,
    plan: &Plan,
    workers: u32,
    entries: &[(TaskNo, When)],
) -> Result<bool, Memory> {
    let tasks = Called::new();
    match run_turns_again(alloc, plan, &tasks, workers, &[], entries) {
        Ok(_) => Ok(true),
        Err(fault) => refused(&fault, tasks.times(), workers),
    }
}

fn again(alloc: Global, plan: &Plan, workers: u32) -> Result<bool, Memory> {
    match entries() {
        Some(entries) => by_turns_again(alloc, plan, workers, &entries),
        None => Ok(false),
    }
}

fn by_threads<R>(rt: &R, plan: &Plan, workers: u32) -> Result<bool, Memory>
where
    R: Threads + Wait + RandomSource + AllocGlobal + Sync,
{
    let (tasks, stop) = (Called::new(), Stop::new());
    let ran = tallies(rt, plan, &tasks, workers, &OpenGate, &stop);
    ended_on_threads(&ran, tasks.times(), workers, &stop)
}

fn by_hand<R: Wait + RandomSource + AllocGlobal>(rt: &R, plan: &Plan) -> Result<bool, Memory> {
    let envelopes = first_envelopes(rt.alloc(), plan)?;
    match work(rt, plan, envelopes, &Counting::of(0, 1, 2), 0, u32::MAX) {
        Some(left) => match left.fault {
            None => Ok(true),
            Some(Cause::Memory) => Err(Memory),
            Some(Cause::Stopped) => Ok(false),
        },
        None => Err(Memory),
    }
}

/// Whether a text has a report.
fn reported(ran: &Result<String, TextFault>) -> Result<bool, Memory> {
    match ran {
        Ok(_) => Ok(true),
        Err(TextFault::Memory) => Err(Memory),
        Err(
            TextFault::Run(
                RunFault::Halted {
                    cause: Cause::Memory,
                    ..
                },
            ),
        ) => Err(Memory),
        Err(_) => Ok(false),
    }
}

fn by_text(alloc: Global, text: &str) -> Result<bool, Memory> {
    reported(&run_text(alloc, text.as_bytes(), &Called::new(), 1, &[]))
}

fn by_text_threads<R>(rt: &R, text: &str) -> Result<bool, Memory>
where
    R: Threads + Wait + RandomSource + AllocGlobal + Sync,
{
    let (tasks, stop) = (Called::new(), Stop::new());
    let (bytes, alloc) = (text.as_bytes(), rt.alloc());
    reported(&run_text_threads(rt, alloc, bytes, &tasks, 2, &OpenGate, &stop))
}

/// Whether a plan's run comes to its end.
fn runs_plan<R>(rt: &R, plan: &Plan, how: How) -> Result<bool, Memory>
where
    R: Threads + Wait + RandomSource + AllocGlobal + Sync,
{
    match how {
        How::Turns(workers) => by_turns(rt.alloc(), plan, workers),
        How::Again(workers) => again(rt.alloc(), plan, workers),
        How::Threads(workers) => by_threads(rt, plan, workers),
        How::ByHand => by_hand(rt, plan),
        How::Text | How::TextThreads => Ok(false),
    }
}

/// Like `runs_plan`, for a canvas's plan.
fn runs_as_plan<R>(rt: &R, canvas: &Canvas, how: How) -> Result<bool, Memory>
where
    R: Threads + Wait + RandomSource + AllocGlobal + Sync,
{
    match spelled_plan(rt.alloc(), canvas) {
        Some(plan) => runs_plan(rt, &plan, how),
        None => Err(Memory),
    }
}

/// Like `runs_as_plan`, for the canvas's text, on threads or by turns.
fn runs_as_text<R>(rt: &R, canvas: &Canvas, on_threads: bool) -> Result<bool, Memory>
where
    R: Threads + Wait + RandomSource + AllocGlobal + Sync,
{
    let [frame, calls] = *canvas;
    match spelled::canvas(rt.alloc(), frame, calls) {
        Ok(text) => {
            if on_threads {
                by_text_threads(rt, &text)
            } else {
                by_text(rt.alloc(), &text)
            }
        }
        Err(Memory) => Err(Memory),
    }
}

/// Whether a canvas's run comes to its end, as a plan or as a text.
pub(crate) fn runs<R>(rt: &R, canvas: &Canvas, how: How) -> Result<bool, Memory>
where
    R: Threads + Wait + RandomSource + AllocGlobal + Sync,
{
    match how {
        How::Text => runs_as_text(rt, canvas, false),
        How::TextThreads => runs_as_text(rt, canvas, true),
        _ => runs_as_plan(rt, canvas, how),
    }
}

/// A list of turns.
pub(crate) fn turns(alloc: Global) -> Result<bool, Memory> {
    match read_turns(alloc, "1,2,2,2,1,1,2,1,2", 2) {
        Ok(turns) => Ok(turns.as_slice() == [1, 2, 2, 2, 1, 1, 2, 1, 2].as_slice()),
        Err(
            RunFault::Halted {
                cause: Cause::Memory,
                rows: None,
            },
        ) => Err(Memory),
        Err(_) => Ok(false),
    }
}
